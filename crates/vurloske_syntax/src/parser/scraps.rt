//! What is read alike in many places.
ghost use Rattle.std.specs.Prelude.{◌≡◌, ◌+◌, ◌++◌, vec_len, IfOk, OnOk};

use crate::reader::Reader;
use std::alloc::AllocError;
use vurloske_ast::ast::{Ident, Lifetime, LifetimeKind, Mutability, Run};
use vurloske_ast::phrase::Phrase;
use vurloske_ast::token::{Keyword, Sign, TokenKind};

/// Adds parts at a list's end.
pub(crate) fn append<T: Copy + Drop>(list: &mut Vec<T>, parts: &[T]) -> Result<Run, AllocError>
    ensures added { OnOk result (list.new.items ≡ list.old.items ++ parts.now) }
    ensures first { IfOk result (λ run. run.first ≡ vec_len list.old) }
    ensures end { IfOk result (λ run. run.first + run.len ≡ vec_len list.new) }
{
    let run = Run {
        first: list.len(),
        len: parts.len(),
    };
    list.extend_from_slice(parts)?;
    Ok(run)
}

/// A lifetime's name, as one declares it.
pub(crate) fn lifetime_ident(reader: &mut Reader) -> Ident {
    let at = reader.at();
    match reader.peek() {
        TokenKind::Lifetime(LifetimeKind::Named(name)) => {
            reader.advance();
            Ident { name, at }
        }
        _ => {
            reader.mistake(Phrase::NAME_OF_A_LIFETIME);
            Ident::MISSING
        }
    }
}

/// A lifetime if one is next.
pub(crate) fn some_lifetime(reader: &mut Reader) -> Option<Lifetime> {
    let at = reader.at();
    match reader.peek() {
        TokenKind::Lifetime(kind) => {
            reader.advance();
            Some(Lifetime { kind, at })
        }
        _ => None,
    }
}

/// The lifetime that is meant where none is written.
pub(crate) fn erased(reader: &Reader) -> Lifetime {
    Lifetime {
        kind: LifetimeKind::Erased,
        at: reader.at(),
    }
}

/// A lifetime, which may be left out.
pub(crate) fn lifetime_or_erased(reader: &mut Reader) -> Lifetime {
    let erased = erased(reader);
    some_lifetime(reader).unwrap_or(erased)
}

/// `mut` or nothing.
pub(crate) fn mutability(reader: &mut Reader) -> Mutability {
    if reader.eat_keyword(Keyword::Mut) {
        Mutability::Mut
    } else {
        Mutability::Not
    }
}

/// `mut` or `const`.
pub(crate) fn raw_mutability(reader: &mut Reader) -> Mutability {
    if reader.eat_keyword(Keyword::Const) {
        return Mutability::Not;
    }
    if !reader.sees_keyword(Keyword::Mut) {
        reader.mistake(Phrase::CONST_OR_MUT);
    }
    mutability(reader)
}

/// `for<'a, 'b>` or nothing.
pub(crate) fn parse_binder(reader: &mut Reader) -> Run {
    if !reader.eat_keyword(Keyword::For) {
        return Run::EMPTY;
    }
    reader.expect(Sign::Lt);
    let first = reader.ast.idents.len();
    for place in 0..reader.left() {
        if !reader.begins_part(place, Sign::Gt) {
            break;
        }
        let name = lifetime_ident(reader);
        let pushed = reader.ast.idents.push(name);
        reader.keep(pushed);
    }
    reader.expect(Sign::Gt);
    Run::since(first, reader.ast.idents.len())
}
