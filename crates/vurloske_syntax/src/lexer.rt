//! Cuts a text into tokens.
ghost use Rattle.std.specs.Prelude.{◌≤◌, ◌≡◌, length, IfOk};
ghost use Rattle.vurloske_syntax.specs.Cuts.{offset_of, Advances, Cuts, InOrder, IsWithin};

use crate::scanner::{Mark, Scanner};
use indexmap::IndexSet;
use std::alloc::{AllocError, Global};
use std::str::from_utf8;
use vurloske_ast::ast::{LifetimeKind, Span, intern};
use vurloske_ast::mistake::{SyntaxFault, is_name_byte};
use vurloske_ast::phrase::Phrase;
use vurloske_ast::token::{Keyword, Sign, Token, TokenKind};

/// The tokens of a text in order, whose names are added to a list.
///
/// A mistake comes where no token begins, where a number does not fit 128 bits or has an unknown
/// suffix, and where a text between quotes or a comment does not end.
pub fn lex(
    names: &mut IndexSet<String>,
    alloc: Global,
    text: &str,
) -> Result<Vec<Token>, SyntaxFault>
    ensures { IfOk result (λ tokens. InOrder 0 tokens.items (length text.now)) }
{
    let mut tokens = Vec::new(alloc);
    let mut scanner = Scanner::new(text);
    for _ in 0..text.len() {
        scanner.skip_blanks()?;
        if scanner.rest().is_empty() {
            break;
        }
        tokens.push(next_token(&mut scanner, names, alloc)?)?;
    }
    Ok(tokens)
}

/// The token that begins here.
fn next_token(
    scanner: &mut Scanner<'_>,
    names: &mut IndexSet<String>,
    alloc: Global,
) -> Result<Token, SyntaxFault>
    requires some { 1 ≤ length scanner.old.rest.now }
    ensures cuts { IfOk result (λ _. Cuts scanner.old scanner.new) }
    ensures start { IfOk result (λ t. t.span.start ≡ offset_of scanner.old) }
    ensures end { IfOk result (λ t. t.span.end ≡ offset_of scanner.new) }
{
    let mark = scanner.mark();
    scanner.skip(1);
    let kind = token_kind(scanner, mark, names, alloc)?;
    let span = Span {
        start: mark.offset,
        end: scanner.offset(),
    };
    Ok(Token {
        kind,
        span,
        at: mark.at,
    })
}

/// The kind of a token whose first byte is cut.
fn token_kind<'t>(
    scanner: &mut Scanner<'t>,
    mark: Mark<'t>,
    names: &mut IndexSet<String>,
    alloc: Global,
) -> Result<TokenKind, SyntaxFault>
    ensures { Advances scanner.old scanner.new }
{
    match mark.rest {
        [b'\'', ..] => lifetime(scanner, mark, names, alloc),
        [b'"', ..] => quoted(scanner, mark, names, alloc),
        [b'0'..=b'9', ..] => number(scanner, mark),
        [first, ..] if is_name_byte(*first) => Ok(word(scanner, mark, names, alloc)?),
        _ => sign(scanner, mark),
    }
}

/// A name, a keyword or `_`.
fn word<'t>(
    scanner: &mut Scanner<'t>,
    mark: Mark<'t>,
    names: &mut IndexSet<String>,
    alloc: Global,
) -> Result<TokenKind, AllocError>
    ensures { Advances scanner.old scanner.new }
{
    scanner.take_name();
    let written = from_utf8(scanner.text_since(mark)).unwrap_or("");
    if written == "_" {
        return Ok(TokenKind::Sign(Sign::Underscore));
    }
    match Keyword::of(written) {
        Some(keyword) => Ok(TokenKind::Keyword(keyword)),
        None => Ok(TokenKind::Name(intern(names, alloc, written)?)),
    }
}

/// `'a`, `'static`, `'_`, `'?a`
fn lifetime<'t>(
    scanner: &mut Scanner<'t>,
    mark: Mark<'t>,
    names: &mut IndexSet<String>,
    alloc: Global,
) -> Result<TokenKind, SyntaxFault>
    ensures { Advances scanner.old scanner.new }
{
    let is_variable = scanner.eat(b'?');
    let name = scanner.take_name();
    if name.is_empty() || scanner.sees(b'\'') {
        return Err(scanner.mistake_since(mark, Phrase::LIFETIME));
    }
    let kind = lifetime_kind(names, alloc, name, is_variable)?;
    Ok(TokenKind::Lifetime(kind))
}

/// The lifetime of a name, or a variable.
fn lifetime_kind(
    names: &mut IndexSet<String>,
    alloc: Global,
    name: &str,
    is_variable: bool,
) -> Result<LifetimeKind, AllocError> {
    if is_variable {
        return Ok(LifetimeKind::InferNamed(intern(names, alloc, name)?));
    }
    match name {
        "static" => Ok(LifetimeKind::Static),
        "_" => Ok(LifetimeKind::Erased),
        _ => Ok(LifetimeKind::Named(intern(names, alloc, name)?)),
    }
}

/// `"text"`, which ends on its line.
fn quoted<'t>(
    scanner: &mut Scanner<'t>,
    mark: Mark<'t>,
    names: &mut IndexSet<String>,
    alloc: Global,
) -> Result<TokenKind, SyntaxFault>
    ensures { Advances scanner.old scanner.new }
{
    let text = scanner.take_quoted();
    if !scanner.eat(b'"') {
        return Err(scanner.mistake_since(mark, Phrase::TEXT_ON_ONE_LINE));
    }
    Ok(TokenKind::Text(intern(names, alloc, text)?))
}

/// `3`, `1_000`, `0xff`, `3usize`
fn number<'t>(scanner: &mut Scanner<'t>, mark: Mark<'t>) -> Result<TokenKind, SyntaxFault>
    ensures { Advances scanner.old scanner.new }
{
    scanner.take_name();
    let value = match scanner.text_since(mark) {
        [b'0', b'x', digits @ ..] => number_value(digits, 16),
        digits => number_value(digits, 10),
    };
    match value {
        Some(value) => Ok(TokenKind::Number(value)),
        None => Err(scanner.mistake_since(mark, Phrase::NUMBER_OF_128_BITS)),
    }
}

/// The value of digits before a suffix.
fn number_value(written: &[u8], radix: u32) -> Option<u128>
    requires least { 2 ≤ radix }
    requires greatest { radix ≤ 36 }
{
    let mut value = None;
    let mut suffix = written;
    for byte in written {
        let digit = char::from(*byte).to_digit(radix);
        match digit {
            Some(digit) => value = Some(with_digit(value.unwrap_or(0), radix, digit)?),
            None if *byte == b'_' => {}
            None => break,
        }
        suffix = suffix.get(1..).unwrap_or(&[]);
    }
    if is_suffix(suffix) { value } else { None }
}

/// A digit more. `None` where that does not fit.
fn with_digit(value: u128, radix: u32, digit: u32) -> Option<u128> {
    value
        .checked_mul(u128::from(radix))?
        .checked_add(u128::from(digit))
}

/// Whether it may stand behind the digits of an integer.
fn is_suffix(bytes: &[u8]) -> bool {
    match bytes {
        [] => true,
        [b'i' | b'u', width @ ..] => is_width(width),
        _ => false,
    }
}

/// Whether an integer type's name has it behind the first letter.
fn is_width(bytes: &[u8]) -> bool {
    matches!(bytes, b"8" | b"16" | b"32" | b"64" | b"128" | b"size")
}

fn sign<'t>(scanner: &mut Scanner<'t>, mark: Mark<'t>) -> Result<TokenKind, SyntaxFault>
    ensures { Advances scanner.old scanner.new }
{
    if let Some(sign) = sign_in_front(mark.rest, 2) {
        scanner.skip(1);
        return Ok(TokenKind::Sign(sign));
    }
    if let Some(sign) = sign_in_front(mark.rest, 1) {
        return Ok(TokenKind::Sign(sign));
    }
    scanner.skip_character();
    Err(scanner.mistake_since(mark, Phrase::WORD_OR_A_SIGN))
}

/// The sign that so many bytes at the front are.
fn sign_in_front(bytes: &[u8], len: usize) -> Option<Sign> {
    let text = from_utf8(bytes.get(..len)?).ok()?;
    Sign::of(text)
}
