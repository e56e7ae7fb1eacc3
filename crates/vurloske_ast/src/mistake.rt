//! What is wrong with a text, and where.
use crate::ast::{Ident, Position, Span};
use crate::phrase::{Expected, Phrase};
use std::alloc::{AllocError, AllocFailed};
use std::fmt;
use std::str::from_utf8;
use thiserror::Error;

/// Why a text was not read.
#[derive(Clone, Copy, Debug, Error)]
pub enum SyntaxFault {
    #[error("out of memory")]
    OutOfMemory,
    #[error(transparent)]
    Mistake(Mistake),
}

impl From<AllocError> for SyntaxFault {
    fn from(_: AllocError) -> SyntaxFault {
        SyntaxFault::OutOfMemory
    }
}

impl<T: Drop> From<AllocFailed<T>> for SyntaxFault {
    fn from(_: AllocFailed<T>) -> SyntaxFault {
        SyntaxFault::OutOfMemory
    }
}

/// What was expected at a place, and what stands there.
#[derive(Clone, Copy, Debug)]
pub struct Mistake {
    pub at: Position,
    /// As `a type` or, of a sign or a keyword, with quotes.
    pub expected: Expected,
    pub found: Found,
}

#[derive(Clone, Copy, Debug)]
pub enum Found {
    /// The text's end.
    End,
    /// A piece of the text.
    Text(Span),
    /// The name that begins at the place.
    Name,
    /// A word of the one who found the mistake.
    Word(Phrase),
}

impl Mistake {
    ghost use Rattle.std.specs.Prelude.{◌≡◌};

    /// That something else than this name was expected where it stands.
    pub fn at_name(ident: Ident, expected: Phrase) -> Mistake
        ensures { result ≡ record { at = ident.at; expected = Expected.Phrase expected; found = Found.Name } }
    {
        Mistake {
            at: ident.at,
            expected: Expected::Phrase(expected),
            found: Found::Name,
        }
    }

    /// `LINE:COLUMN: expected WHAT, found WHAT`, over the text in which it was made.
    pub fn shown<'t>(&self, text: &'t str) -> ShownMistake<'t> {
        ShownMistake {
            mistake: *self,
            text,
        }
    }
}

impl fmt::Display for Mistake {
    fn fmt<W: fmt::Write>(&self, f: &mut fmt::Formatter<W>) -> fmt::Result {
        let Position { line, column } = self.at;
        let expected = self.expected.as_str();
        write!(f, "{line}:{column}: expected {expected}")
    }
}

/// A mistake with the text in which it was made.
#[derive(Clone, Copy)]
pub struct ShownMistake<'t> {
    mistake: Mistake,
    text: &'t str,
}

impl fmt::Display for ShownMistake<'_> {
    fn fmt<W: fmt::Write>(&self, f: &mut fmt::Formatter<W>) -> fmt::Result {
        let mistake = self.mistake;
        match mistake.found {
            Found::End => write!(f, "{mistake}, found the end of the text"),
            Found::Text(span) => {
                let found = piece(self.text, span);
                write!(f, "{mistake}, found `{found}`")
            }
            Found::Name => {
                let found = name_at(self.text, mistake.at);
                write!(f, "{mistake}, found `{found}`")
            }
            Found::Word(word) => {
                let found = word.as_str();
                write!(f, "{mistake}, found {found}")
            }
        }
    }
}

/// What a span is of a text. Nothing where it does not lie in the text.
pub fn piece(text: &str, span: Span) -> &str {
    match text.as_bytes().get(span.start..span.end) {
        Some(bytes) => from_utf8(bytes).unwrap_or(""),
        None => "",
    }
}

/// The name that begins at a place.
fn name_at(text: &str, at: Position) -> &str {
    let line = text
        .split('\n')
        .nth(at.line.saturating_sub(1) as usize)
        .unwrap_or("");
    let bytes = line.as_bytes();
    let start = at.column.saturating_sub(1) as usize;
    match bytes.get(start..) {
        Some(rest) => from_utf8(name_prefix(rest)).unwrap_or(""),
        None => "",
    }
}

/// The longest part at the front that may be one name.
pub fn name_prefix(bytes: &[u8]) -> &[u8] {
    let len = bytes.iter().position(|b| !is_name_byte(*b));
    match len {
        Some(len) => bytes.get(..len).unwrap_or(&[]),
        None => bytes,
    }
}

/// Whether a name may have it behind its first byte.
pub fn is_name_byte(byte: u8) -> bool {
    byte.is_ascii_alphanumeric() || byte == b'_'
}
