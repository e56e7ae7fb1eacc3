//! Structs, enums and unions, functions and closures.
use crate::parser::generics::{parse_clauses, parse_params, parse_where};
use crate::parser::scraps::append;
use crate::parser::terms::{parse_output, parse_segment, parse_term, parse_terms};
use crate::reader::Reader;
use vurloske_ast::ast::{Adt, AdtKind, Closure, Fn, Generics, ItemKind, Run};
use vurloske_ast::phrase::Phrase;
use vurloske_ast::token::{Keyword, Sign, TokenKind};

/// `struct S<T> where .. { a: T }`, `enum E { A, B(u8) }`, `union U(u8);`
pub(crate) fn parse_adt(reader: &mut Reader, depth: u32) -> ItemKind {
    let kind = eat_adt_kind(reader);
    let ident = reader.ident(Phrase::NAME);
    let params = parse_params(reader, depth);
    let first = reader.ast.where_clauses.len();
    parse_where(reader, depth);
    let fields = parse_fields(reader, depth, kind);
    ItemKind::Adt(Adt {
        kind,
        ident,
        generics: Generics {
            params,
            where_clauses: Run::since(first, reader.ast.where_clauses.len()),
        },
        fields,
    })
}

/// `struct`, `enum`, or another word that stands for `union`.
fn eat_adt_kind(reader: &mut Reader) -> AdtKind {
    let kind = match reader.peek() {
        TokenKind::Keyword(Keyword::Struct) => AdtKind::Struct,
        TokenKind::Keyword(Keyword::Enum) => AdtKind::Enum,
        _ => AdtKind::Union,
    };
    reader.advance();
    kind
}

/// `;`, `(u8, T) where ..;`, `{ a: u8, b: T }`. Of an enum the names of its variants are read.
fn parse_fields(reader: &mut Reader, depth: u32, kind: AdtKind) -> Run {
    if reader.eat(Sign::Semi) {
        return Run::EMPTY;
    }
    if reader.sees(Sign::OpenParen) {
        return parse_tuple_fields(reader, depth);
    }
    if !reader.eat(Sign::OpenBrace) {
        reader.mistake(Phrase::FIELDS);
        return Run::EMPTY;
    }
    match kind {
        AdtKind::Enum => parse_variants(reader, depth),
        _ => parse_named(reader, depth, Sign::CloseBrace),
    }
}

/// `(u8, T) where ..;`
fn parse_tuple_fields(reader: &mut Reader, depth: u32) -> Run {
    let fields = parse_terms(reader, depth).terms;
    parse_where(reader, depth);
    reader.expect(Sign::Semi);
    fields
}

/// `A, B(u8) }`, of which nothing is kept.
fn parse_variants(reader: &mut Reader, depth: u32) -> Run {
    for place in 0..reader.left() {
        if !reader.begins_part(place, Sign::CloseBrace) {
            break;
        }
        reader.ident(Phrase::NAME_OF_A_VARIANT);
        if reader.sees(Sign::OpenParen) {
            parse_terms(reader, depth);
        }
    }
    reader.expect(Sign::CloseBrace);
    Run::EMPTY
}

/// `a: u8, b: T` up to the sign that closes it. Between braces each has a name.
fn parse_named(reader: &mut Reader, depth: u32, close: Sign) -> Run {
    let mut terms = Vec::new(reader.alloc);
    for place in 0..reader.left() {
        if !reader.begins_part(place, close) {
            break;
        }
        skip_name(reader, close);
        let term = parse_term(reader, depth);
        reader.keep(terms.push(term));
    }
    reader.expect(close);
    let added = append(&mut reader.ast.operands, &terms);
    reader.added(added)
}

/// `a:`, which between parentheses may be left out.
fn skip_name(reader: &mut Reader, close: Sign) {
    if sees_field_name(reader) {
        reader.advance();
        reader.expect(Sign::Colon);
    } else if matches!(close, Sign::CloseBrace) {
        reader.mistake(Phrase::NAME_AND_COLON);
    }
}

fn sees_field_name(reader: &Reader) -> bool {
    matches!(
        (reader.peek(), reader.peek_at(1)),
        (
            TokenKind::Name(_) | TokenKind::Sign(Sign::Underscore),
            TokenKind::Sign(Sign::Colon)
        )
    )
}

/// `unsafe fn f<T>(x: T, u8) -> bool where ..;`
pub(crate) fn parse_fn(reader: &mut Reader, depth: u32, is_const: bool) -> ItemKind {
    let is_unsafe = reader.eat_keyword(Keyword::Unsafe);
    reader.expect_keyword(Keyword::Fn);
    let ident = reader.ident(Phrase::NAME);
    let params = parse_params(reader, depth);
    reader.expect(Sign::OpenParen);
    let inputs = parse_named(reader, depth, Sign::CloseParen);
    let output = parse_output(reader, depth);
    let where_clauses = parse_clauses(reader, depth);
    reader.expect(Sign::Semi);
    ItemKind::Fn(Fn {
        ident,
        is_const,
        is_unsafe,
        generics: Generics {
            params,
            where_clauses,
        },
        inputs,
        output,
    })
}

/// `closure c<T>: FnMut(u8) -> bool where ..;`
pub(crate) fn parse_closure(reader: &mut Reader, depth: u32, is_const: bool) -> ItemKind {
    reader.advance();
    let ident = reader.ident(Phrase::NAME);
    let params = parse_params(reader, depth);
    reader.expect(Sign::Colon);
    let signature = parse_segment(reader, depth, Phrase::FN_TRAIT);
    let where_clauses = parse_clauses(reader, depth);
    reader.expect(Sign::Semi);
    ItemKind::Closure(Closure {
        ident,
        is_const,
        generics: Generics {
            params,
            where_clauses,
        },
        signature,
    })
}
