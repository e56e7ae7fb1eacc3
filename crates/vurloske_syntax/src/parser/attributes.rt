//! Attributes.
use crate::parser::bounds::parse_bounds;
use crate::parser::terms::parse_term;
use crate::reader::Reader;
use vurloske_ast::ast::{Attr, AttrArg, AttrValue, Run};
use vurloske_ast::phrase::Phrase;
use vurloske_ast::token::{Sign, TokenKind};

/// `#[..]`, as many as there are.
pub(crate) fn parse_attrs(reader: &mut Reader, depth: u32) -> Run {
    let first = reader.ast.attrs.len();
    for _ in 0..reader.left() {
        if !reader.eat(Sign::Pound) {
            break;
        }
        parse_attr(reader, depth);
    }
    Run::since(first, reader.ast.attrs.len())
}

/// `#![..]`, as many as there are.
pub(crate) fn parse_inner_attrs(reader: &mut Reader, depth: u32) -> Run {
    let first = reader.ast.attrs.len();
    for _ in 0..reader.left() {
        if !begins_inner_attr(reader) {
            break;
        }
        reader.advance();
        reader.advance();
        parse_attr(reader, depth);
    }
    Run::since(first, reader.ast.attrs.len())
}

fn begins_inner_attr(reader: &Reader) -> bool {
    reader.sees(Sign::Pound) && matches!(reader.peek_at(1), TokenKind::Sign(Sign::Not))
}

/// `[NAME]`, `[NAME = "text"]`, `[NAME(..)]`, which is added to those of the `Ast`.
fn parse_attr(reader: &mut Reader, depth: u32) {
    reader.expect(Sign::OpenBracket);
    let ident = reader.ident(Phrase::NAME_OF_AN_ATTRIBUTE);
    let value = if reader.eat(Sign::Eq) {
        parse_text(reader)
    } else if reader.eat(Sign::OpenParen) {
        AttrValue::Args(parse_attr_args(reader, depth))
    } else {
        AttrValue::Absent
    };
    reader.expect(Sign::CloseBracket);
    let pushed = reader.ast.attrs.push(Attr { ident, value });
    reader.keep(pushed);
}

fn parse_text(reader: &mut Reader) -> AttrValue {
    match reader.peek() {
        TokenKind::Text(text) => {
            reader.advance();
            AttrValue::Text(text)
        }
        _ => {
            reader.mistake(Phrase::TEXT_IN_QUOTES);
            AttrValue::Absent
        }
    }
}

fn parse_attr_args(reader: &mut Reader, depth: u32) -> Run {
    let first = reader.ast.attr_args.len();
    for place in 0..reader.left() {
        if !reader.begins_part(place, Sign::CloseParen) {
            break;
        }
        let arg = parse_attr_arg(reader, depth);
        let pushed = reader.ast.attr_args.push(arg);
        reader.keep(pushed);
    }
    reader.expect(Sign::CloseParen);
    Run::since(first, reader.ast.attr_args.len())
}

/// `u8`, `base = T`, `T: Destruct`
fn parse_attr_arg(reader: &mut Reader, depth: u32) -> AttrArg {
    let term = parse_term(reader, depth);
    if reader.eat(Sign::Colon) {
        return AttrArg::Bounds(term, parse_bounds(reader, depth));
    }
    match reader.ast.plain_name(term) {
        Some(ident) if reader.eat(Sign::Eq) => AttrArg::Binding(ident, parse_term(reader, depth)),
        _ => AttrArg::Term(term),
    }
}
