//! A text that was understood, with the tables of its items.
use crate::endings::{Ending, output};
use crate::faulty_items::faulty_item;
use crate::session::answer_statements;
use crate::table_faults::expected_tables;
use goal_checks::checked::{CheckedTables, check_tables};
use goal_tables::faults::TableFault;
use std::alloc::Global;
use std::io;
use vurloske_ast::ast::Ast;
use vurloske_items::definitions::define;
use vurloske_items::environment::Environment;
use vurloske_items::names::ItemNames;
use vurloske_items::rows::lower_items;
use vurloske_names::definitions::Definitions;
use vurloske_names::prelude::{PRELUDE, check_names, has_lang_items};
use vurloske_syntax::{parse, parse_onto};

/// A text that was understood, with the tables of its items.
#[derive(Clone, Copy)]
pub struct Program<'a> {
    pub alloc: Global,
    pub text: &'a str,
    pub ast: &'a Ast,
    pub definitions: &'a Definitions,
    pub tables: &'a CheckedTables,
}

impl Program<'_> {
    /// The names of the items, and of the parameters of an environment.
    pub fn names<'n>(&'n self, environment: &'n Environment) -> ItemNames<'n> {
        ItemNames {
            ast: self.ast,
            places: &self.definitions.places,
            params: &environment.params,
        }
    }
}

/// Answers the goals of a text, a line a goal. After an `Err` no more is written.
pub fn answer_text<W: io::Write>(alloc: Global, text: &str, out: &mut W) -> Result<(), Ending> {
    let mut ast = parse(alloc, text)?;
    if wants_prelude(&ast) {
        check_names(&ast)?;
        ast = parse_onto(ast, alloc, PRELUDE)?;
    }
    answer_ast(alloc, text, &ast, out)
}

/// Whether the prelude's items are added to those of a text.
fn wants_prelude(ast: &Ast) -> bool {
    !ast.no_core && !has_lang_items(ast)
}

fn answer_ast<W: io::Write>(
    alloc: Global,
    text: &str,
    ast: &Ast,
    out: &mut W,
) -> Result<(), Ending> {
    let expected = expected_tables(ast)?;
    let definitions = define(alloc, ast)?;
    match checked_tables(alloc, ast, &definitions)? {
        Ok(tables) => {
            if let Some(expected) = expected {
                return expected.missed(alloc, ast);
            }
            let program = Program {
                alloc,
                text,
                ast,
                definitions: &definitions,
                tables: &tables,
            };
            answer_statements(&program, out)
        }
        Err(fault) => match expected {
            Some(expected) => {
                expected.check(alloc, ast, fault)?;
                output(writeln!(out, "tables refused {fault:?}"))
            }
            None => {
                let place = faulty_item(alloc, ast, &definitions, fault);
                Err(Ending::Tables(place, fault))
            }
        },
    }
}

/// The tables of a text's items, or why they are refused.
fn checked_tables(
    alloc: Global,
    ast: &Ast,
    definitions: &Definitions,
) -> Result<Result<CheckedTables, TableFault>, Ending> {
    let tables = lower_items(alloc, ast, definitions)?;
    match check_tables(tables) {
        Err(TableFault::OutOfMemory) => Err(Ending::OutOfMemory),
        checked => Ok(checked),
    }
}
