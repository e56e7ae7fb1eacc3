//! Bounds, and the objects that are made of them.
use crate::parser::scraps::{append, erased, parse_binder, some_lifetime};
use crate::parser::terms::parse_segment;
use crate::reader::Reader;
use vurloske_ast::ast::{Bound, Constness, Run, TermKind};
use vurloske_ast::phrase::Phrase;
use vurloske_ast::token::{Keyword, Sign, TokenKind};

/// `dyn Tr + Other + 'a`
#[cycle(terms)]
pub(crate) fn parse_dyn(reader: &mut Reader, depth: u32) -> TermKind {
    reader.advance();
    let mut lifetime = erased(reader);
    let mut bounds = Vec::new(reader.alloc);
    for _ in 0..reader.left() {
        match some_lifetime(reader) {
            Some(next) => lifetime = next,
            None => {
                let bound = parse_bound(reader, depth);
                reader.keep(bounds.push(bound));
            }
        }
        if !reader.eat(Sign::Plus) {
            break;
        }
    }
    if bounds.is_empty() {
        reader.mistake(Phrase::TRAIT);
    }
    let added = append(&mut reader.ast.bounds, &bounds);
    TermKind::Dyn(reader.added(added), lifetime)
}

/// `A + B`, or nothing.
pub(crate) fn parse_bounds(reader: &mut Reader, depth: u32) -> Run {
    let mut bounds = Vec::new(reader.alloc);
    for _ in 0..reader.left() {
        if !begins_bound(reader) {
            break;
        }
        let bound = parse_bound(reader, depth);
        reader.keep(bounds.push(bound));
        if !reader.eat(Sign::Plus) {
            break;
        }
    }
    let added = append(&mut reader.ast.bounds, &bounds);
    reader.added(added)
}

fn begins_bound(reader: &Reader) -> bool {
    matches!(
        reader.peek(),
        TokenKind::Name(_)
            | TokenKind::Keyword(Keyword::For | Keyword::Const)
            | TokenKind::Sign(Sign::Question | Sign::OpenBracket)
    )
}

/// `for<'a> [const] Tr<'a>`, `?Sized`
#[cycle(terms)]
pub(crate) fn parse_bound(reader: &mut Reader, depth: u32) -> Bound {
    let at = reader.at();
    let binder = parse_binder(reader);
    let is_relaxed = reader.eat(Sign::Question);
    let constness = parse_constness(reader);
    let trait_ = parse_segment(reader, depth, Phrase::TRAIT);
    Bound {
        binder,
        constness,
        is_relaxed,
        trait_,
        at,
    }
}

/// `const`, `[const]` or nothing.
pub(crate) fn parse_constness(reader: &mut Reader) -> Constness {
    if reader.eat_keyword(Keyword::Const) {
        return Constness::Const;
    }
    if !reader.eat(Sign::OpenBracket) {
        return Constness::Plain;
    }
    reader.expect_keyword(Keyword::Const);
    reader.expect(Sign::CloseBracket);
    Constness::Maybe
}
