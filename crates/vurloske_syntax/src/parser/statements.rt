//! Statements, and the blocks in which they stand.
use crate::parser::attributes::parse_attrs;
use crate::parser::generics::parse_env_clauses;
use crate::parser::goals::parse_goal;
use crate::parser::items::{begins_item, parse_item_kind};
use crate::parser::nesting::{MAX_NESTING, deeper};
use crate::parser::scraps::append;
use crate::reader::Reader;
use vurloske_ast::ast::{Item, Run, Statement, StatementKind};
use vurloske_ast::phrase::Phrase;
use vurloske_ast::token::{Keyword, Sign, TokenKind};

/// Items and statements up to the text's end. The items are added to those of the `Ast`.
pub(crate) fn parse_contents(reader: &mut Reader) -> Vec<Statement> {
    let mut statements = Vec::new(reader.alloc);
    for _ in 0..reader.left() {
        if reader.left() == 0 {
            break;
        }
        let attrs = parse_attrs(reader, MAX_NESTING);
        if begins_item(reader) {
            parse_item(reader, attrs);
        } else {
            parse_statement(reader, MAX_NESTING, attrs, &mut statements);
        }
    }
    statements
}

/// An item, which is added to those of the `Ast`.
fn parse_item(reader: &mut Reader, attrs: Run) {
    let at = reader.at();
    let kind = parse_item_kind(reader, MAX_NESTING);
    let pushed = reader.ast.items.push(Item { attrs, kind, at });
    reader.keep(pushed);
}

/// `{ .. }`
#[cycle(statements)]
fn parse_block(reader: &mut Reader, depth: u32) -> Run {
    reader.expect(Sign::OpenBrace);
    let mut statements = Vec::new(reader.alloc);
    for _ in 0..reader.left() {
        if reader.left() == 0 || reader.sees(Sign::CloseBrace) {
            break;
        }
        let attrs = parse_attrs(reader, depth);
        parse_statement(reader, depth, attrs, &mut statements);
    }
    reader.expect(Sign::CloseBrace);
    let added = append(&mut reader.ast.statements, &statements);
    reader.added(added)
}

/// Adds a statement behind its attributes, which only a goal may have.
#[cycle(statements)]
fn parse_statement(reader: &mut Reader, depth: u32, attrs: Run, statements: &mut Vec<Statement>) {
    let at = reader.at();
    let kind = match said(reader) {
        Saying::Goal => StatementKind::Goal(parse_goal(reader, depth, attrs)),
        _ if attrs.len > 0 => return reader.mistake(Phrase::ITEM_OR_A_GOAL),
        Saying::Where => parse_where_block(reader, depth),
        Saying::Mode => parse_mode_block(reader, depth),
        Saying::Limit => parse_limit(reader),
        Saying::Order(kind) => {
            reader.advance();
            reader.expect(Sign::Semi);
            kind
        }
    };
    reader.keep(statements.push(Statement { kind, at }));
}

/// What sort of statement is next.
#[derive(Clone, Copy)]
enum Saying {
    Where,
    Mode,
    Limit,
    /// A word alone.
    Order(StatementKind),
    Goal,
}

fn said(reader: &Reader) -> Saying {
    match (reader.peek(), reader.peek_at(1)) {
        (TokenKind::Keyword(Keyword::Where), _) => Saying::Where,
        (TokenKind::Name(_), TokenKind::Sign(Sign::Semi)) => ordered(reader),
        (TokenKind::Name(_), TokenKind::Name(_)) if reader.sees_word(0, "in") => Saying::Mode,
        (TokenKind::Name(_), TokenKind::Number(_)) if reader.sees_word(0, "limit") => {
            Saying::Limit
        }
        _ => Saying::Goal,
    }
}

/// What a word alone says.
fn ordered(reader: &Reader) -> Saying {
    if reader.sees_word(0, "accesses") {
        Saying::Order(StatementKind::Accesses)
    } else if reader.sees_word(0, "faults") {
        Saying::Order(StatementKind::Faults)
    } else if reader.sees_word(0, "regions") {
        Saying::Order(StatementKind::Regions)
    } else if reader.sees_word(0, "prelude") {
        Saying::Order(StatementKind::Prelude)
    } else {
        Saying::Goal
    }
}

/// `limit 3;`
fn parse_limit(reader: &mut Reader) -> StatementKind {
    reader.advance();
    let limit = reader.short_number();
    reader.expect(Sign::Semi);
    StatementKind::Limit(limit)
}

/// `where T: Tr, const N { .. }`
#[cycle(statements)]
fn parse_where_block(reader: &mut Reader, depth: u32) -> StatementKind {
    let Some(depth) = deeper(reader, depth) else {
        return StatementKind::Where(Run::EMPTY, Run::EMPTY);
    };
    let clauses = parse_env_clauses(reader, depth);
    let body = parse_block(reader, depth);
    StatementKind::Where(clauses, body)
}

/// `in borrowck(A, B) { .. }`
#[cycle(statements)]
fn parse_mode_block(reader: &mut Reader, depth: u32) -> StatementKind {
    let Some(depth) = deeper(reader, depth) else {
        return StatementKind::Where(Run::EMPTY, Run::EMPTY);
    };
    reader.advance();
    let mode = reader.ident(Phrase::MODE);
    let names = parse_names(reader);
    let body = parse_block(reader, depth);
    StatementKind::Mode(mode, names, body)
}

/// `(A, B)` or nothing.
fn parse_names(reader: &mut Reader) -> Run {
    if !reader.eat(Sign::OpenParen) {
        return Run::EMPTY;
    }
    let first = reader.ast.idents.len();
    for place in 0..reader.left() {
        if !reader.begins_part(place, Sign::CloseParen) {
            break;
        }
        let name = reader.ident(Phrase::NAME);
        let pushed = reader.ast.idents.push(name);
        reader.keep(pushed);
    }
    reader.expect(Sign::CloseParen);
    Run::since(first, reader.ast.idents.len())
}
