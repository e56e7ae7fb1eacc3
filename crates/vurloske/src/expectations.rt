//! The answers that a text expects.
ghost use Rattle.std.specs.Prelude.{IsTrue, IfOk};
ghost use Rattle.vurloske.specs.Expected.{IsSameTerm, MayMeet};

use crate::endings::{Ending, Unexpected};
use goal_terms::terms::Term;
use goal_text::text::Shown;
use std::alloc::{AllocError, Global};
use vurloske_answers::answers::{Answer, ShownAnswer};
use vurloske_ast::ast::{Ast, Attr, AttrArg, AttrValue, Ident, Position, Run, Symbol, TermId};
use vurloske_ast::mistake::Mistake;
use vurloske_ast::phrase::Phrase;
use vurloske_items::names::ItemNames;

/// What `#[expect(..)]` says, and where it stands.
#[derive(Clone, Copy)]
pub struct Expectation {
    at: Position,
    expected: Expected,
}

/// The answer that is expected. A `Yes` may have a term.
#[derive(Clone, Copy)]
enum Expected {
    Yes,
    No,
    Maybe,
    /// For a fault of this name.
    Refused(Symbol),
    Term(TermId),
}

/// What the attributes of a goal expect. A mistake where one says something else.
pub fn expectation_of(ast: &Ast, attrs: Run) -> Result<Option<Expectation>, Mistake> {
    let mut found = None;
    for attr in ast.attrs(attrs) {
        found = Some(Expectation {
            at: attr.ident.at,
            expected: expected_answer(ast, *attr)?,
        });
    }
    Ok(found)
}

/// The answer that an attribute expects.
fn expected_answer(ast: &Ast, attr: Attr) -> Result<Expected, Mistake> {
    if ast.name(attr.ident.name) != "expect" {
        return Err(Mistake::at_name(attr.ident, Phrase::EXPECT));
    }
    match attr.value {
        AttrValue::Args(args) => answer_named(ast, ast.attr_args(args), attr.ident),
        _ => Err(Mistake::at_name(attr.ident, Phrase::EXPECT_ARGS)),
    }
}

/// The answer that stands between the parentheses.
fn answer_named(ast: &Ast, args: &[AttrArg], at: Ident) -> Result<Expected, Mistake> {
    match args {
        [AttrArg::Binding(word, term)] if ast.name(word.name) == "refused" => {
            match ast.plain_name(*term) {
                Some(fault) => Ok(Expected::Refused(fault.name)),
                None => Err(Mistake::at_name(*word, Phrase::REFUSED_NAME)),
            }
        }
        [AttrArg::Term(term)] => Ok(answer_written(ast, *term)),
        _ => Err(Mistake::at_name(at, Phrase::ONE_ANSWER)),
    }
}

/// `yes`, `no`, `maybe` or a term.
fn answer_written(ast: &Ast, term: TermId) -> Expected {
    match ast.plain_name(term) {
        None => Expected::Term(term),
        Some(word) => match ast.name(word.name) {
            "yes" => Expected::Yes,
            "no" => Expected::No,
            "maybe" => Expected::Maybe,
            _ => Expected::Term(term),
        },
    }
}

impl Expectation {
    /// The term that is expected, if one is.
    pub fn term(self) -> Option<TermId> {
        match self.expected {
            Expected::Term(term) => Some(term),
            _ => None,
        }
    }

    /// Compares an answer with the one that is expected, whose term is `term`. Another one is an ending.
    pub fn check(
        self,
        alloc: Global,
        names: &ItemNames<'_>,
        answer: &Answer,
        term: &Option<Term>,
    ) -> Result<(), Ending> {
        if self.is_met(alloc, names.ast, answer, term)? {
            return Ok(());
        }
        let unexpected = Unexpected {
            expected: self.text(alloc, names, term)?,
            found: found_text(alloc, names, answer)?,
        };
        Err(Ending::Unexpected(self.at, unexpected))
    }

    /// Whether an answer is the one that is expected.
    fn is_met(
        self,
        alloc: Global,
        ast: &Ast,
        answer: &Answer,
        term: &Option<Term>,
    ) -> Result<bool, AllocError>
        ensures { IfOk result (λ met. IsTrue met → MayMeet self.expected answer.now term.now) }
    {
        match (self.expected, answer) {
            (Expected::Yes, Answer::Yes(_))
            | (Expected::No, Answer::No)
            | (Expected::Maybe, Answer::Maybe) => Ok(true),
            (Expected::Refused(fault), Answer::Refused(refusal)) => {
                let name = refusal.to_string(alloc)?;
                Ok(name.as_str() == ast.name(fault))
            }
            (Expected::Term(_), Answer::Yes(Some(found))) => Ok(is_same_term(term, found)),
            _ => Ok(false),
        }
    }

    /// The expected answer's text.
    fn text(
        self,
        alloc: Global,
        names: &ItemNames<'_>,
        term: &Option<Term>,
    ) -> Result<String, AllocError> {
        match (self.expected, term) {
            (Expected::Yes, _) => String::from_str(alloc, "yes"),
            (Expected::No, _) => String::from_str(alloc, "no"),
            (Expected::Maybe, _) => String::from_str(alloc, "maybe"),
            (Expected::Refused(fault), _) => {
                let name = names.ast.name(fault);
                format!(in alloc; "refused {name}")
            }
            (Expected::Term(_), Some(term)) => {
                let term = term.view();
                Shown { term, names }.to_string(alloc)
            }
            (Expected::Term(_), None) => String::from_str(alloc, "a term"),
        }
    }
}

/// Whether the term that is expected is the one that was found.
fn is_same_term(expected: &Option<Term>, found: &Term) -> bool
    ensures { IsTrue result → IsSameTerm expected.now found.now }
{
    match expected {
        Some(expected) => *expected == *found,
        None => false,
    }
}

/// An answer's text.
fn found_text(alloc: Global, names: &ItemNames<'_>, answer: &Answer) -> Result<String, AllocError> {
    ShownAnswer { answer, names }.to_string(alloc)
}
