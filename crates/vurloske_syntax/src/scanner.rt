//! How far a text is cut.
ghost use Rattle.std.specs.Prelude.{◌≡◌, length, drop};

use std::str::from_utf8;
use vurloske_ast::ast::{Position, Span};
use vurloske_ast::mistake::{Found, Mistake, SyntaxFault, name_prefix};
use vurloske_ast::phrase::{Expected, Phrase};

/// A text, what is left of it, and the line that is reached.
#[derive(Drop)]
pub(crate) struct Scanner<'t> {
    text: &'t [u8],
    rest: &'t [u8],
    /// The text from the line's first byte on.
    line_text: &'t [u8],
    line: u32,
}

/// A place in a text.
#[derive(Clone, Copy)]
pub(crate) struct Mark<'t> {
    pub(crate) at: Position,
    pub(crate) offset: usize,
    /// The text from there on.
    pub(crate) rest: &'t [u8],
}

impl<'t> Scanner<'t> {
    ghost use Rattle.vurloske_syntax.specs.Cuts.{offset_of, Advances};

    pub(crate) fn new(text: &'t str) -> Scanner<'t>
        ensures text { result.text.now ≡ text.now }
        ensures rest { result.rest.now ≡ text.now }
    {
        let text = text.as_bytes();
        Scanner {
            text,
            rest: text,
            line_text: text,
            line: 1,
        }
    }

    pub(crate) fn rest(&self) -> &'t [u8]
        ensures { result.now ≡ self.now.rest.now }
    {
        self.rest
    }

    /// How many bytes are cut.
    pub(crate) fn offset(&self) -> usize
        ensures { result ≡ offset_of self.now }
    {
        self.text.len().saturating_sub(self.rest.len())
    }

    pub(crate) fn position(&self) -> Position {
        let column = self.line_text.len().saturating_sub(self.rest.len());
        Position {
            line: self.line,
            column: u32::try_from(column).unwrap_or(u32::MAX).saturating_add(1),
        }
    }

    /// The place that is reached.
    pub(crate) fn mark(&self) -> Mark<'t>
        ensures offset { result.offset ≡ offset_of self.now }
        ensures rest { result.rest.now ≡ self.now.rest.now }
    {
        Mark {
            at: self.position(),
            offset: self.offset(),
            rest: self.rest,
        }
    }

    /// What was cut since a place.
    pub(crate) fn text_since(&self, mark: Mark<'t>) -> &'t [u8] {
        let len = mark.rest.len().saturating_sub(self.rest.len());
        mark.rest.get(..len).unwrap_or(&[])
    }

    /// Goes on behind bytes of the line.
    pub(crate) fn skip(&mut self, len: usize)
        ensures text { self.new.text.now ≡ self.old.text.now }
        ensures rest { self.new.rest.now ≡ drop len self.old.rest.now }
    {
        self.rest = self.rest.get(len..).unwrap_or(&[]);
    }

    /// Goes on behind the longest part at the front that may be one name, and gives it.
    pub(crate) fn take_name(&mut self) -> &'t str
        ensures { Advances self.old self.new }
    {
        let name = name_prefix(self.rest);
        self.skip(name.len());
        from_utf8(name).unwrap_or("")
    }

    /// Goes on up to a `"` or the line's end, and gives what is cut.
    pub(crate) fn take_quoted(&mut self) -> &'t str
        ensures { Advances self.old self.new }
    {
        let len = self.rest.iter().position(|b| matches!(*b, b'"' | b'\n'));
        let text = self
            .rest
            .get(..len.unwrap_or(self.rest.len()))
            .unwrap_or(&[]);
        self.skip(text.len());
        from_utf8(text).unwrap_or("")
    }

    /// Goes on behind the bytes that end a character.
    pub(crate) fn skip_character(&mut self)
        ensures { Advances self.old self.new }
    {
        let len = self.rest.iter().position(|b| !matches!(*b, 0x80..=0xbf));
        self.skip(len.unwrap_or(self.rest.len()));
    }

    /// Whether a byte is next.
    pub(crate) fn sees(&self, byte: u8) -> bool {
        self.rest.first() == Some(&byte)
    }

    /// Goes on behind a byte if it is next.
    pub(crate) fn eat(&mut self, byte: u8) -> bool
        ensures { Advances self.old self.new }
    {
        let found = self.sees(byte);
        if found {
            self.skip(1);
        }
        found
    }

    /// Goes on behind blanks and comments. A comment that does not end is a mistake.
    pub(crate) fn skip_blanks(&mut self) -> Result<(), SyntaxFault>
        ensures { Advances self.old self.new }
    {
        for _ in 0..self.rest.len() {
            match self.rest {
                [b'\n', ..] => self.skip_line_end(),
                [b' ' | b'\t' | b'\r', ..] => self.skip(1),
                [b'/', b'/', ..] => self.skip_line(),
                [b'/', b'*', ..] => self.skip_comment()?,
                _ => break,
            }
        }
        Ok(())
    }

    fn skip_line_end(&mut self)
        ensures { Advances self.old self.new }
    {
        self.skip(1);
        self.line_text = self.rest;
        self.line = self.line.saturating_add(1);
    }

    /// Goes on at the line's end.
    fn skip_line(&mut self)
        ensures { Advances self.old self.new }
    {
        let len = self.rest.iter().position(|b| *b == b'\n');
        self.skip(len.unwrap_or(self.rest.len()));
    }

    /// Goes on behind a comment that may have others in it.
    fn skip_comment(&mut self) -> Result<(), SyntaxFault>
        ensures { Advances self.old self.new }
    {
        let mut open = 0usize;
        for _ in 0..self.rest.len() {
            match self.rest {
                [b'\n', ..] => self.skip_line_end(),
                [b'/', b'*', ..] => {
                    open = open.saturating_add(1);
                    self.skip(2);
                }
                [b'*', b'/', ..] => {
                    open = open.saturating_sub(1);
                    self.skip(2);
                    if open == 0 {
                        return Ok(());
                    }
                }
                _ => self.skip(1),
            }
        }
        Err(self.end_mistake(Phrase::COMMENT_END))
    }

    /// The text ends before what was expected.
    fn end_mistake(&self, expected: Phrase) -> SyntaxFault {
        SyntaxFault::Mistake(Mistake {
            at: self.position(),
            expected: Expected::Phrase(expected),
            found: Found::End,
        })
    }

    /// Something else than expected stands between an earlier place and this one.
    pub(crate) fn mistake_since(&self, mark: Mark<'t>, expected: Phrase) -> SyntaxFault {
        let span = Span {
            start: mark.offset,
            end: self.offset(),
        };
        SyntaxFault::Mistake(Mistake {
            at: mark.at,
            expected: Expected::Phrase(expected),
            found: Found::Text(span),
        })
    }
}
