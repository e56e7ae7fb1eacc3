//! Reads the tokens of a text.
ghost use Rattle.std.specs.Prelude.{◌≡◌, ◌+◌, vec_len, IfOk};

mod assoc_items;
mod attributes;
mod bounds;
mod definitions;
mod generics;
mod goals;
mod items;
mod nesting;
mod scraps;
mod statements;
mod terms;

use crate::reader::Reader;
use attributes::parse_inner_attrs;
use nesting::MAX_NESTING;
use scraps::append;
use statements::parse_contents;
use std::alloc::Global;
use vurloske_ast::ast::Ast;
use vurloske_ast::mistake::SyntaxFault;

/// Reads a text: its items, its goals and the blocks in which they stand. What stands in no block
/// comes last among the statements.
///
/// A mistake is the first place where the text goes on as no such text does, or nests deeper than
/// 500 levels.
pub fn parse(alloc: Global, text: &str) -> Result<Ast, SyntaxFault>
    ensures { IfOk result (λ ast. ast.file.first + ast.file.len ≡ vec_len ast.statements) }
{
    let mut reader = Reader::new(Ast::new(alloc), alloc, text)?;
    let attrs = parse_inner_attrs(&mut reader, MAX_NESTING);
    let statements = parse_contents(&mut reader);
    let mut ast = reader.finish()?;
    ast.inner_attrs = attrs;
    ast.no_core = ast.has_attr(attrs, "no_core");
    ast.file = append(&mut ast.statements, &statements)?;
    Ok(ast)
}

/// Adds what a further text says, as a prelude. What stands in no block, and what is said at the
/// head, stay the first text's.
pub fn parse_onto(ast: Ast, alloc: Global, text: &str) -> Result<Ast, SyntaxFault> {
    let mut reader = Reader::new(ast, alloc, text)?;
    parse_inner_attrs(&mut reader, MAX_NESTING);
    let statements = parse_contents(&mut reader);
    let mut ast = reader.finish()?;
    append(&mut ast.statements, &statements)?;
    Ok(ast)
}
