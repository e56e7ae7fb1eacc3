//! What a text is cut into.
ghost use Rattle.std.specs.Prelude.{◌≡◌, ◌++◌, codes};

use crate::ast::{LifetimeKind, Position, Span, Symbol};

/// A word, a number or a sign, with the place where it stands.
#[derive(Clone, Copy)]
pub struct Token {
    pub kind: TokenKind,
    pub span: Span,
    pub at: Position,
}

#[derive(Clone, Copy)]
pub enum TokenKind {
    Name(Symbol),
    Keyword(Keyword),
    Lifetime(LifetimeKind),
    Number(u128),
    /// What stands between quotes.
    Text(Symbol),
    Sign(Sign),
    /// Behind the last token.
    End,
}

/// A word that is never a name.
#[derive(Clone, Copy)]
pub enum Keyword {
    As,
    Const,
    Dyn,
    Enum,
    Extern,
    False,
    Fn,
    For,
    Impl,
    Mut,
    Struct,
    Trait,
    True,
    Type,
    Unsafe,
    Where,
}

/// A sign, under the name that rustc gives it.
#[derive(Clone, Copy)]
pub enum Sign {
    And,
    CloseBrace,
    CloseBracket,
    CloseParen,
    Colon,
    Comma,
    Eq,
    EqEq,
    Gt,
    Lt,
    Not,
    OpenBrace,
    OpenBracket,
    OpenParen,
    PathSep,
    Plus,
    Pound,
    Question,
    RArrow,
    Semi,
    Star,
    Underscore,
}

impl Keyword {
    ghost use Rattle.vurloske_ast.specs.Spelling.{IsNamed, keyword_text};

    /// The keyword that is written so.
    pub fn of(text: &str) -> Option<Keyword>
        ensures { IsNamed keyword_text text.now result }
    {
        match text {
            "as" => Some(Keyword::As),
            "const" => Some(Keyword::Const),
            "dyn" => Some(Keyword::Dyn),
            "enum" => Some(Keyword::Enum),
            "extern" => Some(Keyword::Extern),
            "false" => Some(Keyword::False),
            "fn" => Some(Keyword::Fn),
            "for" => Some(Keyword::For),
            "impl" => Some(Keyword::Impl),
            "mut" => Some(Keyword::Mut),
            "struct" => Some(Keyword::Struct),
            "trait" => Some(Keyword::Trait),
            "true" => Some(Keyword::True),
            "type" => Some(Keyword::Type),
            "unsafe" => Some(Keyword::Unsafe),
            "where" => Some(Keyword::Where),
            _ => None,
        }
    }

    /// As a mistake names it.
    pub fn quoted(self) -> &'static str
        ensures { result.now ≡ codes "`" ++ keyword_text self ++ codes "`" }
    {
        match self {
            Keyword::As => "`as`",
            Keyword::Const => "`const`",
            Keyword::Dyn => "`dyn`",
            Keyword::Enum => "`enum`",
            Keyword::Extern => "`extern`",
            Keyword::False => "`false`",
            Keyword::Fn => "`fn`",
            Keyword::For => "`for`",
            Keyword::Impl => "`impl`",
            Keyword::Mut => "`mut`",
            Keyword::Struct => "`struct`",
            Keyword::Trait => "`trait`",
            Keyword::True => "`true`",
            Keyword::Type => "`type`",
            Keyword::Unsafe => "`unsafe`",
            Keyword::Where => "`where`",
        }
    }
}

impl Sign {
    ghost use Rattle.vurloske_ast.specs.Spelling.{IsNamed, sign_text};

    /// The sign that is written so.
    pub fn of(text: &str) -> Option<Sign>
        ensures { IsNamed sign_text text.now result }
    {
        match text {
            "&" => Some(Sign::And),
            "}" => Some(Sign::CloseBrace),
            "]" => Some(Sign::CloseBracket),
            ")" => Some(Sign::CloseParen),
            ":" => Some(Sign::Colon),
            "," => Some(Sign::Comma),
            "=" => Some(Sign::Eq),
            "==" => Some(Sign::EqEq),
            ">" => Some(Sign::Gt),
            "<" => Some(Sign::Lt),
            "!" => Some(Sign::Not),
            "{" => Some(Sign::OpenBrace),
            "[" => Some(Sign::OpenBracket),
            "(" => Some(Sign::OpenParen),
            "::" => Some(Sign::PathSep),
            "+" => Some(Sign::Plus),
            "#" => Some(Sign::Pound),
            "?" => Some(Sign::Question),
            "->" => Some(Sign::RArrow),
            ";" => Some(Sign::Semi),
            "*" => Some(Sign::Star),
            "_" => Some(Sign::Underscore),
            _ => None,
        }
    }

    /// As a mistake names it.
    pub fn quoted(self) -> &'static str
        ensures { result.now ≡ codes "`" ++ sign_text self ++ codes "`" }
    {
        match self {
            Sign::And => "`&`",
            Sign::CloseBrace => "`}`",
            Sign::CloseBracket => "`]`",
            Sign::CloseParen => "`)`",
            Sign::Colon => "`:`",
            Sign::Comma => "`,`",
            Sign::Eq => "`=`",
            Sign::EqEq => "`==`",
            Sign::Gt => "`>`",
            Sign::Lt => "`<`",
            Sign::Not => "`!`",
            Sign::OpenBrace => "`{`",
            Sign::OpenBracket => "`[`",
            Sign::OpenParen => "`(`",
            Sign::PathSep => "`::`",
            Sign::Plus => "`+`",
            Sign::Pound => "`#`",
            Sign::Question => "`?`",
            Sign::RArrow => "`->`",
            Sign::Semi => "`;`",
            Sign::Star => "`*`",
            Sign::Underscore => "`_`",
        }
    }
}
