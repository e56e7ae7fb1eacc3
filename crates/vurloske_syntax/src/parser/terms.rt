//! Types and constants, with the arguments in them.
use crate::parser::bounds::parse_dyn;
use crate::parser::nesting::deeper;
use crate::parser::scraps::{
    append, lifetime_or_erased, mutability, parse_binder, raw_mutability, some_lifetime,
};
use crate::reader::Reader;
use vurloske_ast::ast::{Arg, Args, FnPtr, Run, Segment, TermId, TermKind};
use vurloske_ast::phrase::Phrase;
use vurloske_ast::token::{Keyword, Sign, TokenKind};

/// Terms between parentheses.
#[derive(Clone, Copy)]
pub(crate) struct TermList {
    /// A run of `operands`.
    pub(crate) terms: Run,
    /// Whether a comma stands behind the last one.
    pub(crate) ends_in_comma: bool,
}

/// A term, with the items that are taken of it.
#[cycle(terms)]
pub(crate) fn parse_term(reader: &mut Reader, depth: u32) -> TermId {
    let Some(depth) = deeper(reader, depth) else {
        return TermId::MISSING;
    };
    let at = reader.at();
    let mut term = parse_head(reader, depth);
    for _ in 0..depth {
        if !reader.eat(Sign::PathSep) {
            return term;
        }
        let item = parse_segment(reader, depth, Phrase::NAME_OF_AN_ITEM);
        term = reader.add_term(TermKind::Assoc(term, item), at);
    }
    if reader.sees(Sign::PathSep) {
        reader.mistake(Phrase::LESS_NESTING);
    }
    term
}

/// A term up to its first `::`, or with the one behind `<T as Tr>`.
#[cycle(terms)]
fn parse_head(reader: &mut Reader, depth: u32) -> TermId {
    match reader.peek() {
        TokenKind::Sign(Sign::OpenParen) => parse_parens(reader, depth),
        TokenKind::Sign(Sign::OpenBrace) => parse_braces(reader, depth),
        _ => {
            let at = reader.at();
            let kind = parse_kind(reader, depth);
            reader.add_term(kind, at)
        }
    }
}

/// A term up to its first `::`, but for parentheses and braces.
#[cycle(terms)]
fn parse_kind(reader: &mut Reader, depth: u32) -> TermKind {
    match reader.peek() {
        TokenKind::Sign(sign) => parse_signed(reader, depth, sign),
        TokenKind::Keyword(keyword) => parse_worded(reader, depth, keyword),
        TokenKind::Name(_) => TermKind::Path(parse_segment(reader, depth, Phrase::TYPE)),
        TokenKind::Number(value) => {
            reader.advance();
            TermKind::Literal(value)
        }
        _ => no_type(reader),
    }
}

/// What stands for a term that was not read, since something else is next.
fn no_type(reader: &mut Reader) -> TermKind {
    reader.mistake(Phrase::TYPE);
    TermKind::Infer
}

/// A term that is the next token alone.
fn token_term(reader: &mut Reader, kind: TermKind) -> TermKind {
    reader.advance();
    kind
}

/// A term that begins with a keyword.
#[cycle(terms)]
fn parse_worded(reader: &mut Reader, depth: u32, keyword: Keyword) -> TermKind {
    match keyword {
        Keyword::Dyn => parse_dyn(reader, depth),
        Keyword::For | Keyword::Unsafe | Keyword::Fn => parse_fn_ptr(reader, depth),
        Keyword::False => token_term(reader, TermKind::Literal(0)),
        Keyword::True => token_term(reader, TermKind::Literal(1)),
        _ => no_type(reader),
    }
}

/// A term that begins with a sign, but for parentheses and braces.
#[cycle(terms)]
fn parse_signed(reader: &mut Reader, depth: u32, sign: Sign) -> TermKind {
    match sign {
        Sign::OpenBracket => parse_brackets(reader, depth),
        Sign::Star => parse_raw_pointer(reader, depth),
        Sign::And => parse_reference(reader, depth),
        Sign::Lt => parse_qualified(reader, depth),
        Sign::Not => token_term(reader, TermKind::Never),
        Sign::Underscore => token_term(reader, TermKind::Infer),
        Sign::Question => {
            reader.advance();
            TermKind::InferNamed(reader.ident(Phrase::NAME))
        }
        _ => no_type(reader),
    }
}

/// `[T]` and `[T; N]`
#[cycle(terms)]
fn parse_brackets(reader: &mut Reader, depth: u32) -> TermKind {
    reader.advance();
    let element = parse_term(reader, depth);
    let kind = if reader.eat(Sign::Semi) {
        TermKind::Array(element, parse_term(reader, depth))
    } else {
        TermKind::Slice(element)
    };
    reader.expect(Sign::CloseBracket);
    kind
}

/// `*const T`, `*mut T`
#[cycle(terms)]
fn parse_raw_pointer(reader: &mut Reader, depth: u32) -> TermKind {
    reader.advance();
    let mutability = raw_mutability(reader);
    TermKind::RawPtr(mutability, parse_term(reader, depth))
}

/// `&'a mut T`
#[cycle(terms)]
fn parse_reference(reader: &mut Reader, depth: u32) -> TermKind {
    reader.advance();
    let lifetime = lifetime_or_erased(reader);
    let mutability = mutability(reader);
    TermKind::Ref(lifetime, mutability, parse_term(reader, depth))
}

/// `<T as Tr>::A` and `<T>::A`
#[cycle(terms)]
fn parse_qualified(reader: &mut Reader, depth: u32) -> TermKind {
    reader.advance();
    let self_ty = parse_term(reader, depth);
    if !reader.eat_keyword(Keyword::As) {
        return TermKind::Assoc(self_ty, parse_item_of(reader, depth));
    }
    let trait_ = parse_segment(reader, depth, Phrase::TRAIT);
    TermKind::Projection(self_ty, trait_, parse_item_of(reader, depth))
}

/// `>::A`
#[cycle(terms)]
fn parse_item_of(reader: &mut Reader, depth: u32) -> Segment {
    reader.expect(Sign::Gt);
    reader.expect(Sign::PathSep);
    parse_segment(reader, depth, Phrase::NAME_OF_AN_ITEM)
}

/// `for<'a> unsafe fn(T) -> U`
#[cycle(terms)]
fn parse_fn_ptr(reader: &mut Reader, depth: u32) -> TermKind {
    let binder = parse_binder(reader);
    let is_unsafe = reader.eat_keyword(Keyword::Unsafe);
    reader.expect_keyword(Keyword::Fn);
    let inputs = parse_terms(reader, depth).terms;
    let output = parse_output(reader, depth);
    TermKind::FnPtr(FnPtr {
        binder,
        is_unsafe,
        inputs,
        output,
    })
}

/// `(A, B)`. A term alone between parentheses is that term.
#[cycle(terms)]
fn parse_parens(reader: &mut Reader, depth: u32) -> TermId {
    let at = reader.at();
    let list = parse_terms(reader, depth);
    match reader.ast.operands(list.terms) {
        [only] if !list.ends_in_comma => *only,
        _ => reader.add_term(TermKind::Tuple(list.terms), at),
    }
}

/// `{integer}`, `{const 3}` and their kin. Another term between braces is that term.
#[cycle(terms)]
fn parse_braces(reader: &mut Reader, depth: u32) -> TermId {
    let at = reader.at();
    reader.advance();
    let term = if reader.eat_keyword(Keyword::Const) {
        let number = reader.short_number();
        let args = parse_args(reader, depth);
        reader.add_term(TermKind::Unevaluated(number, args), at)
    } else {
        match marked_leaf(reader) {
            Some(kind) => reader.add_term(kind, at),
            None => parse_term(reader, depth),
        }
    };
    reader.expect(Sign::CloseBrace);
    term
}

/// What stands in `{integer}`, `{float}`, `{error 3}`, `{placeholder 0}`.
fn marked_leaf(reader: &mut Reader) -> Option<TermKind> {
    match reader.peek_at(1) {
        TokenKind::Sign(Sign::CloseBrace) => {
            if reader.sees_word(0, "integer") {
                Some(token_term(reader, TermKind::IntVar))
            } else if reader.sees_word(0, "float") {
                Some(token_term(reader, TermKind::FloatVar))
            } else {
                None
            }
        }
        TokenKind::Number(_) => numbered_leaf(reader),
        _ => None,
    }
}

/// `error 3` and `placeholder 0`
fn numbered_leaf(reader: &mut Reader) -> Option<TermKind> {
    if reader.sees_word(0, "error") {
        reader.advance();
        Some(TermKind::Error(reader.short_number()))
    } else if reader.sees_word(0, "placeholder") {
        reader.advance();
        Some(TermKind::Placeholder(reader.short_number()))
    } else {
        None
    }
}

/// `(A, B)`, also with a comma behind the last one.
#[cycle(terms)]
pub(crate) fn parse_terms(reader: &mut Reader, depth: u32) -> TermList {
    reader.expect(Sign::OpenParen);
    let mut terms = Vec::new(reader.alloc);
    let mut ends_in_comma = false;
    for _ in 0..reader.left() {
        if reader.sees(Sign::CloseParen) {
            break;
        }
        let term = parse_term(reader, depth);
        reader.keep(terms.push(term));
        ends_in_comma = reader.eat(Sign::Comma);
        if !ends_in_comma {
            break;
        }
    }
    reader.expect(Sign::CloseParen);
    let added = append(&mut reader.ast.operands, &terms);
    TermList {
        terms: reader.added(added),
        ends_in_comma,
    }
}

/// `-> T` or nothing.
#[cycle(terms)]
pub(crate) fn parse_output(reader: &mut Reader, depth: u32) -> Option<TermId> {
    if reader.eat(Sign::RArrow) {
        Some(parse_term(reader, depth))
    } else {
        None
    }
}

/// A name, which a mistake calls as it is said, with its arguments.
#[cycle(terms)]
pub(crate) fn parse_segment(reader: &mut Reader, depth: u32, expected: Phrase) -> Segment {
    let ident = reader.ident(expected);
    let args = parse_args(reader, depth);
    Segment { ident, args }
}

/// `<A, B>`, `::<A, B>`, `(A, B) -> C` or nothing.
#[cycle(terms)]
fn parse_args(reader: &mut Reader, depth: u32) -> Args {
    if reader.sees(Sign::OpenParen) {
        let inputs = parse_terms(reader, depth).terms;
        return Args::Paren(inputs, parse_output(reader, depth));
    }
    if begins_turbofish(reader) {
        reader.advance();
    }
    if reader.eat(Sign::Lt) {
        Args::Angle(parse_angle_args(reader, depth))
    } else {
        Args::Absent
    }
}

/// Whether `::<` is next.
fn begins_turbofish(reader: &Reader) -> bool {
    reader.sees(Sign::PathSep) && matches!(reader.peek_at(1), TokenKind::Sign(Sign::Lt))
}

/// `'a, A, B = C>`
#[cycle(terms)]
fn parse_angle_args(reader: &mut Reader, depth: u32) -> Run {
    let mut args = Vec::new(reader.alloc);
    for place in 0..reader.left() {
        if !reader.begins_part(place, Sign::Gt) {
            break;
        }
        let arg = parse_arg(reader, depth);
        reader.keep(args.push(arg));
    }
    reader.expect(Sign::Gt);
    let added = append(&mut reader.ast.args, &args);
    reader.added(added)
}

/// `'a`, `A`, `A = B`
#[cycle(terms)]
fn parse_arg(reader: &mut Reader, depth: u32) -> Arg {
    if let Some(lifetime) = some_lifetime(reader) {
        return Arg::Lifetime(lifetime);
    }
    let term = parse_term(reader, depth);
    match reader.ast.path(term) {
        Some(item) if reader.eat(Sign::Eq) => Arg::Binding(item, parse_term(reader, depth)),
        _ => Arg::Term(term),
    }
}
