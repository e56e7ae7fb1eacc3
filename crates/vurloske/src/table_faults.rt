//! Tables that are refused.
use crate::endings::{Ending, Unexpected};
use goal_tables::faults::TableFault;
use std::alloc::Global;
use vurloske_ast::ast::{Ast, Attr, AttrArg, AttrValue, Position, Symbol};
use vurloske_ast::mistake::Mistake;
use vurloske_ast::phrase::Phrase;

/// That the tables are to be refused for a fault of this name.
#[derive(Clone, Copy)]
pub struct ExpectedTables {
    at: Position,
    fault: Symbol,
}

/// What a text says at its head about its tables. A mistake where it says there what no text can.
pub fn expected_tables(ast: &Ast) -> Result<Option<ExpectedTables>, Mistake> {
    let mut expected = None;
    for attr in ast.attrs(ast.inner_attrs) {
        match (ast.name(attr.ident.name), attr.value) {
            ("no_core", AttrValue::Absent) => {}
            ("expect_tables", AttrValue::Args(args)) => {
                expected = Some(ExpectedTables {
                    at: attr.ident.at,
                    fault: only_name(ast, ast.attr_args(args), *attr)?,
                });
            }
            _ => return Err(Mistake::at_name(attr.ident, Phrase::INNER_ATTRIBUTE)),
        }
    }
    Ok(expected)
}

/// The name between the parentheses of an attribute.
fn only_name(ast: &Ast, args: &[AttrArg], attr: Attr) -> Result<Symbol, Mistake> {
    let name = match args {
        [AttrArg::Term(term)] => ast.plain_name(*term),
        _ => None,
    };
    match name {
        Some(name) => Ok(name.name),
        None => Err(Mistake::at_name(attr.ident, Phrase::EXPECT_TABLES)),
    }
}

impl ExpectedTables {
    /// Compares why tables are refused with what is expected. Something else is an ending.
    pub fn check(self, alloc: Global, ast: &Ast, fault: TableFault) -> Result<(), Ending> {
        let found = format!(in alloc; "{fault:?}")?;
        if found.as_str() == ast.name(self.fault) {
            return Ok(());
        }
        self.ending(alloc, ast, found)
    }

    /// That the tables are accepted, which is not expected.
    pub fn missed(self, alloc: Global, ast: &Ast) -> Result<(), Ending> {
        let found = String::from_str(alloc, "no fault")?;
        self.ending(alloc, ast, found)
    }

    /// That something else came.
    fn ending(self, alloc: Global, ast: &Ast, found: String) -> Result<(), Ending> {
        let unexpected = Unexpected {
            expected: String::from_str(alloc, ast.name(self.fault))?,
            found,
        };
        Err(Ending::Unexpected(self.at, unexpected))
    }
}
