//! What is printed.
use crate::endings::{Ending, output};
use crate::records::ShownValues;
use goal_terms::terms::Term;
use std::{fmt, io};
use vurloske_answers::answers::{Answer, ShownAnswer};
use vurloske_ast::ast::Goal;
use vurloske_ast::mistake::piece;
use vurloske_items::names::ItemNames;
use vurloske_names::prelude::PRELUDE;

/// What the line of a goal of a text says: on which line the goal stands, its answer, and what its variables become.
#[derive(Clone, Copy)]
pub struct AnswerLine<'a> {
    pub text: &'a str,
    pub goal: &'a Goal,
    pub line: u32,
    pub answer: &'a Answer,
    pub values: &'a [(u32, Term)],
}

impl AnswerLine<'_> {
    /// Prints the line.
    pub fn print<W: io::Write>(&self, out: &mut W, names: &ItemNames<'_>) -> Result<(), Ending> {
        let AnswerLine {
            text,
            goal,
            line,
            answer,
            values,
        } = *self;
        let shown = ShownAnswer { answer, names };
        let values = ShownValues { values, names };
        let written = match answer {
            Answer::Yes(Some(_)) => {
                let subject = Spaced(piece(text, goal.subject));
                writeln!(out, "{line}: {subject} = {shown}{values}")
            }
            _ => {
                let text = Spaced(piece(text, goal.text));
                writeln!(out, "{line}: {text} => {shown}{values}")
            }
        };
        output(written)
    }
}

/// Prints the items of the prelude.
pub fn print_prelude<W: io::Write>(out: &mut W) -> Result<(), Ending> {
    output(out.write_all(PRELUDE.as_bytes()))
}

/// A text whose white space is shown as single spaces.
#[derive(Clone, Copy)]
struct Spaced<'a>(&'a str);

impl fmt::Display for Spaced<'_> {
    fn fmt<W: fmt::Write>(&self, f: &mut fmt::Formatter<W>) -> fmt::Result {
        let mut words = self.0.split_whitespace();
        if let Some(first) = words.next() {
            f.write_str(first)?;
        }
        for word in words {
            f.write_str(" ")?;
            f.write_str(word)?;
        }
        Ok(())
    }
}
