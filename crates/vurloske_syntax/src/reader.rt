//! The tokens that are still to be read, and what was made of those before.
use crate::lexer::lex;
use std::alloc::{AllocError, AllocFailed, Global};
use vurloske_ast::ast::{Ast, Ident, Position, Run, TermId, TermKind};
use vurloske_ast::mistake::{Found, Mistake, SyntaxFault};
use vurloske_ast::phrase::{Expected, Phrase};
use vurloske_ast::token::{Keyword, Sign, Token, TokenKind};

/// Reads a text into an `Ast`.
///
/// The first fault ends the text: no token is left from then on, and what is still made is of no
/// account. So those who read a part ask for no fault, but only who reads the whole does, by `finish`.
pub(crate) struct Reader {
    pub(crate) alloc: Global,
    pub(crate) ast: Ast,
    tokens: Vec<Token>,
    /// The place of the next token.
    next: usize,
    /// Where the last token that was read ends.
    end: usize,
    text_len: usize,
    /// Where the text ends.
    text_end: Position,
    fault: Option<SyntaxFault>,
}

impl Drop for Reader {
    fn drop(self) {
        let Reader {
            alloc: _,
            ast: _,
            tokens: _,
            next: _,
            end: _,
            text_len: _,
            text_end: _,
            fault: _,
        } = self;
    }
}

impl Reader {
    /// Before the first token of a text, which is added to what was read already.
    pub(crate) fn new(mut ast: Ast, alloc: Global, text: &str) -> Result<Reader, SyntaxFault> {
        let tokens = lex(&mut ast.names, alloc, text)?;
        Ok(Reader {
            alloc,
            ast,
            tokens,
            next: 0,
            end: 0,
            text_len: text.len(),
            text_end: Position::behind(text.as_bytes()),
            fault: None,
        })
    }

    /// What was read, or the first fault.
    pub(crate) fn finish(self) -> Result<Ast, SyntaxFault> {
        let Reader {
            alloc: _,
            ast,
            tokens: _,
            next: _,
            end: _,
            text_len: _,
            text_end: _,
            fault,
        } = self;
        match fault {
            Some(fault) => Err(fault),
            None => Ok(ast),
        }
    }

    /// How many tokens are left.
    pub(crate) fn left(&self) -> usize {
        self.tokens.len().saturating_sub(self.next)
    }

    /// The next token.
    pub(crate) fn peek(&self) -> TokenKind {
        self.peek_at(0)
    }

    /// The token behind so many others.
    pub(crate) fn peek_at(&self, others: usize) -> TokenKind {
        match self.tokens.get(self.next.saturating_add(others)) {
            Some(token) => token.kind,
            None => TokenKind::End,
        }
    }

    /// Where the next token stands.
    pub(crate) fn at(&self) -> Position {
        match self.tokens.get(self.next) {
            Some(token) => token.at,
            None => self.text_end,
        }
    }

    /// The first byte of the next token.
    pub(crate) fn start(&self) -> usize {
        match self.tokens.get(self.next) {
            Some(token) => token.span.start,
            None => self.text_len,
        }
    }

    /// The byte behind the last token that was read.
    pub(crate) fn end(&self) -> usize {
        self.end
    }

    pub(crate) fn advance(&mut self) {
        if let Some(token) = self.tokens.get(self.next) {
            self.end = token.span.end;
            self.next = self.next.saturating_add(1);
        }
    }

    pub(crate) fn sees(&self, sign: Sign) -> bool {
        match self.peek() {
            TokenKind::Sign(next) => next == sign,
            _ => false,
        }
    }

    pub(crate) fn sees_keyword(&self, keyword: Keyword) -> bool {
        match self.peek() {
            TokenKind::Keyword(next) => next == keyword,
            _ => false,
        }
    }

    /// Whether the token behind so many others is a word that is one only where it stands.
    pub(crate) fn sees_word(&self, others: usize, word: &str) -> bool {
        match self.peek_at(others) {
            TokenKind::Name(name) => self.ast.name(name) == word,
            _ => false,
        }
    }

    /// Whether the token behind so many others is a name.
    pub(crate) fn sees_name(&self, others: usize) -> bool {
        matches!(self.peek_at(others), TokenKind::Name(_))
    }

    /// Whether a further part of a list begins here: behind a comma, but for the first one, and not at
    /// the sign that closes the list. Reads the comma.
    pub(crate) fn begins_part(&mut self, place: usize, close: Sign) -> bool {
        (place == 0 || self.eat(Sign::Comma)) && !self.sees(close)
    }

    /// Reads a sign if it is the next.
    pub(crate) fn eat(&mut self, sign: Sign) -> bool {
        let found = self.sees(sign);
        if found {
            self.advance();
        }
        found
    }

    /// Reads a keyword if it is the next.
    pub(crate) fn eat_keyword(&mut self, keyword: Keyword) -> bool {
        let found = self.sees_keyword(keyword);
        if found {
            self.advance();
        }
        found
    }

    pub(crate) fn expect(&mut self, sign: Sign) {
        if !self.eat(sign) {
            self.unexpected(Expected::Sign(sign));
        }
    }

    pub(crate) fn expect_keyword(&mut self, keyword: Keyword) {
        if !self.eat_keyword(keyword) {
            self.unexpected(Expected::Keyword(keyword));
        }
    }

    /// A name, which a mistake calls as it is said.
    pub(crate) fn ident(&mut self, expected: Phrase) -> Ident {
        let at = self.at();
        match self.peek() {
            TokenKind::Name(name) => {
                self.advance();
                Ident { name, at }
            }
            _ => {
                self.mistake(expected);
                Ident::MISSING
            }
        }
    }

    /// A number that fits 32 bits.
    pub(crate) fn short_number(&mut self) -> u32 {
        let TokenKind::Number(value) = self.peek() else {
            self.mistake(Phrase::NUMBER);
            return 0;
        };
        match u32::try_from(value) {
            Ok(number) => {
                self.advance();
                number
            }
            Err(_) => {
                self.mistake(Phrase::NUMBER_OF_32_BITS);
                0
            }
        }
    }

    /// Keeps that something else is expected than the next token.
    pub(crate) fn mistake(&mut self, expected: Phrase) {
        self.unexpected(Expected::Phrase(expected));
    }

    fn unexpected(&mut self, expected: Expected) {
        let found = match self.tokens.get(self.next) {
            Some(token) => Found::Text(token.span),
            None => Found::End,
        };
        self.fail(SyntaxFault::Mistake(Mistake {
            at: self.at(),
            expected,
            found,
        }));
    }

    /// Keeps a fault, if it is the first one.
    fn fail(&mut self, fault: SyntaxFault) {
        if self.fault.is_none() {
            self.fault = Some(fault);
        }
        self.next = self.tokens.len();
    }

    /// Whether there was a fault already.
    pub(crate) fn has_failed(&self) -> bool {
        self.fault.is_some()
    }

    /// Keeps that there was no memory for a part, if it is so.
    pub(crate) fn keep<T: Drop>(&mut self, pushed: Result<(), AllocFailed<T>>) {
        if pushed.is_err() {
            self.fail(SyntaxFault::OutOfMemory);
        }
    }

    /// Adds a term, whose parts are there already.
    pub(crate) fn add_term(&mut self, kind: TermKind, at: Position) -> TermId {
        match self.ast.add_term(kind, at) {
            Ok(id) => id,
            Err(_) => {
                self.fail(SyntaxFault::OutOfMemory);
                TermId::MISSING
            }
        }
    }

    /// Where parts were added. Keeps that there was no memory for them, if it is so.
    pub(crate) fn added(&mut self, parts: Result<Run, AllocError>) -> Run {
        match parts {
            Ok(run) => run,
            Err(_) => {
                self.fail(SyntaxFault::OutOfMemory);
                Run::EMPTY
            }
        }
    }
}
