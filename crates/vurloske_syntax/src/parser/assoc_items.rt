//! The items of traits and impls.
use crate::parser::attributes::parse_attrs;
use crate::parser::generics::{parse_own_bounds, parse_params, parse_where, skip_type};
use crate::parser::terms::parse_term;
use crate::reader::Reader;
use vurloske_ast::ast::{AssocItem, Generics, Run, TermId};
use vurloske_ast::phrase::Phrase;
use vurloske_ast::token::{Keyword, Sign};

/// `{ type A; .. }` or `;`
pub(crate) fn parse_body(reader: &mut Reader, depth: u32) -> Run {
    if reader.eat(Sign::Semi) {
        return Run::EMPTY;
    }
    if !reader.eat(Sign::OpenBrace) {
        reader.mistake(Phrase::BODY);
    }
    let first = reader.ast.assoc_items.len();
    for _ in 0..reader.left() {
        if reader.has_failed() || reader.sees(Sign::CloseBrace) {
            break;
        }
        let item = parse_assoc_item(reader, depth);
        let pushed = reader.ast.assoc_items.push(item);
        reader.keep(pushed);
    }
    reader.expect(Sign::CloseBrace);
    Run::since(first, reader.ast.assoc_items.len())
}

/// `#[broken(7)] default type A<T>: Tr where .. = u8;`, `const N: usize;`
fn parse_assoc_item(reader: &mut Reader, depth: u32) -> AssocItem {
    let attrs = parse_attrs(reader, depth);
    let is_default = eat_default(reader);
    let is_const = eat_kind(reader);
    let ident = reader.ident(Phrase::NAME);
    let params = parse_params(reader, depth);
    let bounds = if is_const {
        skip_type(reader, depth);
        Run::EMPTY
    } else {
        parse_own_bounds(reader, depth)
    };
    let first = reader.ast.where_clauses.len();
    parse_where(reader, depth);
    let value = parse_value(reader, depth);
    parse_where(reader, depth);
    reader.expect(Sign::Semi);
    AssocItem {
        attrs,
        ident,
        is_const,
        is_default,
        generics: Generics {
            params,
            where_clauses: Run::since(first, reader.ast.where_clauses.len()),
        },
        bounds,
        value,
    }
}

fn eat_default(reader: &mut Reader) -> bool {
    let is_default = reader.sees_word(0, "default");
    if is_default {
        reader.advance();
    }
    is_default
}

/// Whether `const` and not `type` is next.
fn eat_kind(reader: &mut Reader) -> bool {
    if reader.eat_keyword(Keyword::Const) {
        return true;
    }
    if !reader.eat_keyword(Keyword::Type) {
        reader.mistake(Phrase::ASSOC_ITEM);
    }
    false
}

/// `= u8` or nothing.
fn parse_value(reader: &mut Reader, depth: u32) -> Option<TermId> {
    if reader.eat(Sign::Eq) {
        Some(parse_term(reader, depth))
    } else {
        None
    }
}
