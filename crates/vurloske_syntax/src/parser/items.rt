//! Items, and what they have in common.
use crate::parser::assoc_items::parse_body;
use crate::parser::bounds::parse_bounds;
use crate::parser::definitions::{parse_adt, parse_closure, parse_fn};
use crate::parser::generics::{
    parse_clauses, parse_own_bounds, parse_params, parse_where, skip_type,
};
use crate::parser::terms::{parse_segment, parse_term};
use crate::reader::Reader;
use vurloske_ast::ast::{Free, FreeValue, Generics, Impl, ItemKind, Run, Segment, TermId, Trait};
use vurloske_ast::phrase::Phrase;
use vurloske_ast::token::{Keyword, Sign, TokenKind};

/// Whether an item is next.
pub(crate) fn begins_item(reader: &Reader) -> bool {
    match reader.peek() {
        TokenKind::Keyword(
            Keyword::Const
            | Keyword::Enum
            | Keyword::Extern
            | Keyword::Impl
            | Keyword::Struct
            | Keyword::Trait
            | Keyword::Type,
        ) => true,
        TokenKind::Keyword(Keyword::Fn) => reader.sees_name(1),
        TokenKind::Keyword(Keyword::Unsafe) => reader.sees_name(2),
        TokenKind::Name(_) => begins_worded_item(reader),
        _ => false,
    }
}

/// Whether an item is next that begins with a word like `union`.
fn begins_worded_item(reader: &Reader) -> bool {
    if reader.sees_word(0, "auto") {
        is_trait(reader.peek_at(1))
    } else {
        reader.sees_name(1) && (reader.sees_word(0, "union") || reader.sees_word(0, "closure"))
    }
}

fn is_trait(kind: TokenKind) -> bool {
    matches!(kind, TokenKind::Keyword(Keyword::Trait))
}

/// An item behind its attributes.
pub(crate) fn parse_item_kind(reader: &mut Reader, depth: u32) -> ItemKind {
    let is_const = qualifies(reader) && reader.eat_keyword(Keyword::Const);
    if let TokenKind::Keyword(keyword) = reader.peek() {
        return parse_keyed_item(reader, depth, keyword, is_const);
    }
    if reader.sees_word(0, "auto") {
        reader.advance();
        return parse_trait(reader, depth, is_const, true);
    }
    if reader.sees_word(0, "closure") {
        parse_closure(reader, depth, is_const)
    } else {
        parse_adt(reader, depth)
    }
}

/// Whether a `const` that is next stands before another item's word, and not before a name.
fn qualifies(reader: &Reader) -> bool {
    match reader.peek_at(1) {
        TokenKind::Keyword(Keyword::Trait | Keyword::Fn | Keyword::Unsafe) => true,
        TokenKind::Name(_) if reader.sees_name(2) => reader.sees_word(1, "closure"),
        TokenKind::Name(_) if is_trait(reader.peek_at(2)) => reader.sees_word(1, "auto"),
        _ => false,
    }
}

/// An item whose word is a keyword.
fn parse_keyed_item(reader: &mut Reader, depth: u32, keyword: Keyword, is_const: bool) -> ItemKind {
    match keyword {
        Keyword::Trait => parse_trait(reader, depth, is_const, false),
        Keyword::Impl => parse_impl(reader, depth),
        Keyword::Type | Keyword::Const => parse_free(reader, depth),
        Keyword::Struct | Keyword::Enum => parse_adt(reader, depth),
        Keyword::Fn | Keyword::Unsafe => parse_fn(reader, depth, is_const),
        _ => parse_foreign(reader),
    }
}

/// `extern type E;`
fn parse_foreign(reader: &mut Reader) -> ItemKind {
    reader.expect_keyword(Keyword::Extern);
    reader.expect_keyword(Keyword::Type);
    let ident = reader.ident(Phrase::NAME);
    reader.expect(Sign::Semi);
    ItemKind::Foreign(ident)
}

/// `trait Tr<T>: Super where .. { .. }`, `trait Both = A + B;`
fn parse_trait(reader: &mut Reader, depth: u32, is_const: bool, is_auto: bool) -> ItemKind {
    reader.expect_keyword(Keyword::Trait);
    let ident = reader.ident(Phrase::NAME);
    let params = parse_params(reader, depth);
    let is_alias = reader.eat(Sign::Eq);
    let bounds = if is_alias {
        parse_bounds(reader, depth)
    } else {
        parse_own_bounds(reader, depth)
    };
    let where_clauses = parse_clauses(reader, depth);
    let items = if is_alias {
        reader.expect(Sign::Semi);
        Run::EMPTY
    } else {
        parse_body(reader, depth)
    };
    ItemKind::Trait(Trait {
        ident,
        is_const,
        is_auto,
        generics: Generics {
            params,
            where_clauses,
        },
        bounds,
        is_alias,
        items,
    })
}

/// `impl<T> const Tr for T where .. { .. }`, also without a trait.
fn parse_impl(reader: &mut Reader, depth: u32) -> ItemKind {
    reader.expect_keyword(Keyword::Impl);
    let params = parse_params(reader, depth);
    let is_const = reader.eat_keyword(Keyword::Const);
    let is_negative = reader.eat(Sign::Not);
    let Header { trait_, self_ty } = parse_header(reader, depth, is_const || is_negative);
    let where_clauses = parse_clauses(reader, depth);
    let items = parse_body(reader, depth);
    ItemKind::Impl(Impl {
        generics: Generics {
            params,
            where_clauses,
        },
        is_const,
        is_negative,
        trait_,
        self_ty,
        items,
    })
}

/// For which trait an impl is, and for which type.
#[derive(Clone, Copy)]
struct Header {
    trait_: Option<Segment>,
    self_ty: TermId,
}

/// `Tr<u8> for T`, or a type alone unless the impl has to name a trait.
fn parse_header(reader: &mut Reader, depth: u32, names_trait: bool) -> Header {
    if names_trait {
        let trait_ = parse_segment(reader, depth, Phrase::TRAIT);
        reader.expect_keyword(Keyword::For);
        return Header {
            trait_: Some(trait_),
            self_ty: parse_term(reader, depth),
        };
    }
    let head = parse_term(reader, depth);
    match reader.ast.path(head) {
        Some(trait_) if reader.eat_keyword(Keyword::For) => Header {
            trait_: Some(trait_),
            self_ty: parse_term(reader, depth),
        },
        _ => Header {
            trait_: None,
            self_ty: head,
        },
    }
}

/// `type A<T> = u8;`, `type A = impl Tr;`, `const C: usize = 3;`
fn parse_free(reader: &mut Reader, depth: u32) -> ItemKind {
    let is_const = reader.sees_keyword(Keyword::Const);
    reader.advance();
    let ident = reader.ident(Phrase::NAME);
    let params = parse_params(reader, depth);
    if is_const {
        skip_type(reader, depth);
    }
    let first = reader.ast.where_clauses.len();
    parse_where(reader, depth);
    let value = parse_free_value(reader, depth);
    parse_where(reader, depth);
    reader.expect(Sign::Semi);
    ItemKind::Free(Free {
        ident,
        is_const,
        generics: Generics {
            params,
            where_clauses: Run::since(first, reader.ast.where_clauses.len()),
        },
        value,
    })
}

/// `= u8`, `= impl Tr` or nothing.
fn parse_free_value(reader: &mut Reader, depth: u32) -> FreeValue {
    if !reader.eat(Sign::Eq) {
        return FreeValue::Absent;
    }
    if reader.eat_keyword(Keyword::Impl) {
        return FreeValue::Opaque(parse_bounds(reader, depth));
    }
    FreeValue::Term(parse_term(reader, depth))
}
