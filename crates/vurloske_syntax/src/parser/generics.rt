//! Parameters and where clauses.
use crate::parser::bounds::parse_bounds;
use crate::parser::scraps::{lifetime_ident, parse_binder};
use crate::parser::terms::parse_term;
use crate::reader::Reader;
use vurloske_ast::ast::{Ident, Param, ParamKind, Run, TermId, WhereClause, WhereKind};
use vurloske_ast::phrase::Phrase;
use vurloske_ast::token::{Keyword, Sign, TokenKind};

/// `<'a, T: Tr, const N: usize>` or nothing.
pub(crate) fn parse_params(reader: &mut Reader, depth: u32) -> Run {
    if !reader.eat(Sign::Lt) {
        return Run::EMPTY;
    }
    let first = reader.ast.params.len();
    for place in 0..reader.left() {
        if !reader.begins_part(place, Sign::Gt) {
            break;
        }
        let param = parse_param(reader, depth);
        let pushed = reader.ast.params.push(param);
        reader.keep(pushed);
    }
    reader.expect(Sign::Gt);
    Run::since(first, reader.ast.params.len())
}

fn parse_param(reader: &mut Reader, depth: u32) -> Param {
    if sees_lifetime(reader) {
        return bare_param(ParamKind::Lifetime, lifetime_ident(reader));
    }
    if reader.eat_keyword(Keyword::Const) {
        let ident = reader.ident(Phrase::NAME);
        skip_type(reader, depth);
        return bare_param(ParamKind::Const, ident);
    }
    let ident = reader.ident(Phrase::NAME_OF_A_PARAMETER);
    Param {
        kind: ParamKind::Ty,
        ident,
        bounds: parse_own_bounds(reader, depth),
    }
}

fn bare_param(kind: ParamKind, ident: Ident) -> Param {
    Param {
        kind,
        ident,
        bounds: Run::EMPTY,
    }
}

fn sees_lifetime(reader: &Reader) -> bool {
    matches!(reader.peek(), TokenKind::Lifetime(_))
}

/// `: usize`, the type of a constant, which is not kept.
pub(crate) fn skip_type(reader: &mut Reader, depth: u32) {
    reader.expect(Sign::Colon);
    parse_term(reader, depth);
}

/// `: A + B` or nothing.
pub(crate) fn parse_own_bounds(reader: &mut Reader, depth: u32) -> Run {
    if reader.eat(Sign::Colon) {
        parse_bounds(reader, depth)
    } else {
        Run::EMPTY
    }
}

/// `where T: Tr, ..` or nothing, as a run.
pub(crate) fn parse_clauses(reader: &mut Reader, depth: u32) -> Run {
    let first = reader.ast.where_clauses.len();
    parse_where(reader, depth);
    Run::since(first, reader.ast.where_clauses.len())
}

/// `where T: Tr, ..` or nothing. The clauses are added to those of the `Ast`.
pub(crate) fn parse_where(reader: &mut Reader, depth: u32) {
    if reader.eat_keyword(Keyword::Where) {
        for place in 0..reader.left() {
            if !begins_clause(reader, place) {
                break;
            }
            let clause = parse_clause(reader, depth);
            let pushed = reader.ast.where_clauses.push(clause);
            reader.keep(pushed);
        }
    }
}

/// The clauses and parameters at the head of a `where` block.
pub(crate) fn parse_env_clauses(reader: &mut Reader, depth: u32) -> Run {
    reader.expect_keyword(Keyword::Where);
    let first = reader.ast.where_clauses.len();
    for place in 0..reader.left() {
        if !begins_clause(reader, place) {
            break;
        }
        let clause = parse_env_clause(reader, depth);
        let pushed = reader.ast.where_clauses.push(clause);
        reader.keep(pushed);
    }
    Run::since(first, reader.ast.where_clauses.len())
}

/// Whether a further clause begins here: behind a comma, but for the first one. Reads the comma.
fn begins_clause(reader: &mut Reader, place: usize) -> bool {
    (place == 0 || reader.eat(Sign::Comma)) && !ends_clauses(reader)
}

/// Whether no clause is next. A `{` begins one only in front of `integer}` or its kin.
fn ends_clauses(reader: &Reader) -> bool {
    match reader.peek() {
        TokenKind::Sign(Sign::OpenBrace) => !sees_marked(reader),
        TokenKind::Sign(Sign::Semi | Sign::Eq) | TokenKind::End => true,
        _ => false,
    }
}

/// Whether a term like `{integer}` or `{const 3}` is next, by its next two tokens.
fn sees_marked(reader: &Reader) -> bool {
    match reader.peek_at(2) {
        TokenKind::Sign(Sign::CloseBrace) => {
            reader.sees_word(1, "integer") || reader.sees_word(1, "float")
        }
        TokenKind::Number(_) => {
            matches!(reader.peek_at(1), TokenKind::Keyword(Keyword::Const))
                || reader.sees_word(1, "error")
                || reader.sees_word(1, "placeholder")
        }
        _ => false,
    }
}

fn parse_clause(reader: &mut Reader, depth: u32) -> WhereClause {
    let at = reader.at();
    let binder = parse_binder(reader);
    let term = parse_term(reader, depth);
    let kind = parse_relation(reader, depth, term);
    WhereClause { binder, kind, at }
}

/// What a clause says of its term: `: A + B` or `== u8`.
fn parse_relation(reader: &mut Reader, depth: u32, term: TermId) -> WhereKind {
    if reader.eat(Sign::EqEq) {
        return WhereKind::Equal(term, parse_term(reader, depth));
    }
    if !reader.sees(Sign::Colon) {
        reader.mistake(Phrase::COLON_OR_EQ);
    }
    WhereKind::Bounds(term, parse_own_bounds(reader, depth))
}

fn parse_env_clause(reader: &mut Reader, depth: u32) -> WhereClause {
    let at = reader.at();
    if let Some(kind) = parse_declared(reader) {
        return WhereClause {
            binder: Run::EMPTY,
            kind,
            at,
        };
    }
    let binder = parse_binder(reader);
    let term = parse_term(reader, depth);
    let kind = if binder.len == 0 && declares_type(reader, term) {
        WhereKind::DeclareTy(term)
    } else {
        parse_relation(reader, depth, term)
    };
    WhereClause { binder, kind, at }
}

/// `'a` and `const N`, which declare a parameter.
fn parse_declared(reader: &mut Reader) -> Option<WhereKind> {
    if sees_lifetime(reader) {
        return Some(WhereKind::DeclareLifetime(lifetime_ident(reader)));
    }
    if reader.eat_keyword(Keyword::Const) {
        return Some(WhereKind::DeclareConst(reader.ident(Phrase::NAME)));
    }
    None
}

/// Whether a term is a name alone, which declares a type parameter.
fn declares_type(reader: &Reader, term: TermId) -> bool {
    let ends = reader.sees(Sign::Comma) || reader.sees(Sign::OpenBrace);
    ends && reader.ast.plain_name(term).is_some()
}
