//! What mistakes say: that some piece of text was expected, or found.
//!
//! A phrase is a number. It borrows nothing, and a fault that holds one is small: a reference in a fault
//! nearly doubles the proof of each `?`, and parsers nest deep.
use crate::token::{Keyword, Sign};
use std::fmt;

/// A text of a mistake, by its number.
#[derive(Clone, Copy)]
pub struct Phrase(u8);

/// What a mistake says was expected.
#[derive(Clone, Copy)]
pub enum Expected {
    Sign(Sign),
    Keyword(Keyword),
    Phrase(Phrase),
}

impl Expected {
    /// As a mistake names it.
    pub fn as_str(self) -> &'static str {
        match self {
            Expected::Sign(sign) => sign.quoted(),
            Expected::Keyword(keyword) => keyword.quoted(),
            Expected::Phrase(phrase) => phrase.as_str(),
        }
    }
}

/// As its text.
impl fmt::Debug for Expected {
    fn fmt<W: fmt::Write>(&self, f: &mut fmt::Formatter<W>) -> fmt::Result {
        fmt::Debug::fmt(self.as_str(), f)
    }
}

/// As its text.
impl fmt::Debug for Phrase {
    fn fmt<W: fmt::Write>(&self, f: &mut fmt::Formatter<W>) -> fmt::Result {
        fmt::Debug::fmt(self.as_str(), f)
    }
}

impl Phrase {
    pub const MODE: Phrase = Phrase(0);

    pub const LESS_NESTING: Phrase = Phrase(1);

    pub const NAME_OF_A_PARAMETER: Phrase = Phrase(2);

    pub const TRAIT: Phrase = Phrase(3);

    pub const FN_TRAIT: Phrase = Phrase(4);

    pub const TYPE: Phrase = Phrase(5);

    pub const NUMBER: Phrase = Phrase(6);

    pub const NUMBER_OF_32_BITS: Phrase = Phrase(7);

    pub const LIFETIME: Phrase = Phrase(8);

    pub const TEXT_ON_ONE_LINE: Phrase = Phrase(9);

    pub const NUMBER_OF_128_BITS: Phrase = Phrase(10);

    pub const WORD_OR_A_SIGN: Phrase = Phrase(11);

    pub const BODY: Phrase = Phrase(12);

    pub const NAME: Phrase = Phrase(13);

    pub const ASSOC_ITEM: Phrase = Phrase(14);

    pub const NAME_OF_AN_ATTRIBUTE: Phrase = Phrase(15);

    pub const TEXT_IN_QUOTES: Phrase = Phrase(16);

    pub const FIELDS: Phrase = Phrase(17);

    pub const NAME_OF_A_VARIANT: Phrase = Phrase(18);

    pub const NAME_AND_COLON: Phrase = Phrase(19);

    pub const COLON_OR_EQ: Phrase = Phrase(20);

    pub const COLON_OR_ANY_EQ: Phrase = Phrase(21);

    pub const NAME_OF_A_LIFETIME: Phrase = Phrase(22);

    pub const CONST_OR_MUT: Phrase = Phrase(23);

    pub const ITEM_OR_A_GOAL: Phrase = Phrase(24);

    pub const NAME_OF_AN_ITEM: Phrase = Phrase(25);

    pub const COMMENT_END: Phrase = Phrase(26);

    pub const ATTRIBUTE_OF_SUCH_AN_ITEM: Phrase = Phrase(27);

    pub const NEW_ATTRIBUTE: Phrase = Phrase(28);

    pub const ATTRIBUTE_WITH_ONE_TERM: Phrase = Phrase(29);

    pub const ATTRIBUTE_WITH_ONE_NAME: Phrase = Phrase(30);

    pub const ATTRIBUTE_WITH_ONE_NUMBER: Phrase = Phrase(31);

    pub const CONDITION_WITHOUT_FOR: Phrase = Phrase(32);

    pub const BINDS_LIFETIMES: Phrase = Phrase(33);

    pub const ANOTHER_TERM: Phrase = Phrase(34);

    pub const NO_ITEM_NAME: Phrase = Phrase(35);

    pub const NAME_OF_A_LANG_ITEM: Phrase = Phrase(36);

    pub const NEW_ITEM_NAME: Phrase = Phrase(37);

    pub const NEW_TRAIT_ITEM_NAME: Phrase = Phrase(38);

    pub const NEW_IMPL_NAME: Phrase = Phrase(39);

    pub const SUPERTRAITS_THAT_END: Phrase = Phrase(40);

    pub const TOO_MANY: Phrase = Phrase(41);

    pub const BOUNDS_WITHOUT_SELF: Phrase = Phrase(42);

    pub const ONE_THAT_DOES: Phrase = Phrase(43);

    pub const ANOTHER_BOUND: Phrase = Phrase(44);

    pub const TRAIT_WITHOUT_ITEMS: Phrase = Phrase(45);

    pub const ATTRIBUTE_WITH_BOUNDS_OF_TYPES: Phrase = Phrase(46);

    pub const FIELD: Phrase = Phrase(47);

    pub const ATTRIBUTE_WITH_TYPES: Phrase = Phrase(48);

    pub const PARENS_BEHIND_TRAIT: Phrase = Phrase(49);

    pub const ITEM_OF_A_POSITIVE_IMPL: Phrase = Phrase(50);

    pub const NEW_IMPL_ITEM: Phrase = Phrase(51);

    pub const ITEM_OF_THE_TRAIT: Phrase = Phrase(52);

    pub const CONSTANT_OF_THE_TRAIT: Phrase = Phrase(53);

    pub const TYPE_OF_THE_TRAIT: Phrase = Phrase(54);

    pub const ITEM_WITH_ONE_VALUE: Phrase = Phrase(55);

    pub const RESERVATION_WITHOUT_NOT: Phrase = Phrase(56);

    pub const OPAQUE_WITH_HIDDEN: Phrase = Phrase(57);

    pub const IMPL_THAT_GIVES_THIS_ITEM: Phrase = Phrase(58);

    pub const NAME_OF_AN_IMPL: Phrase = Phrase(59);

    pub const NEW_NAME: Phrase = Phrase(60);

    pub const DECLARED_ALREADY: Phrase = Phrase(61);

    pub const LIFETIME_IN_SCOPE: Phrase = Phrase(62);

    pub const ANOTHER_ONE: Phrase = Phrase(63);

    pub const ALIAS: Phrase = Phrase(64);

    pub const TERM_THAT_IS_NONE: Phrase = Phrase(65);

    pub const FN_ONCE_OUTPUT: Phrase = Phrase(66);

    pub const NONE: Phrase = Phrase(67);

    pub const ITEM_OF_A_BOUND: Phrase = Phrase(68);

    pub const TOO_DEEP_TERM: Phrase = Phrase(69);

    pub const TYPE_OR_A_CONSTANT: Phrase = Phrase(70);

    pub const TERM_OF_THIS_TEXT: Phrase = Phrase(71);

    pub const ANOTHER: Phrase = Phrase(72);

    pub const CONSTANT: Phrase = Phrase(73);

    pub const WHAT_TAKES_ARGUMENTS: Phrase = Phrase(74);

    pub const EXPECT: Phrase = Phrase(75);

    pub const EXPECT_ARGS: Phrase = Phrase(76);

    pub const REFUSED_NAME: Phrase = Phrase(77);

    pub const ONE_ANSWER: Phrase = Phrase(78);

    pub const UTF_8: Phrase = Phrase(79);

    pub const OTHER_BYTES: Phrase = Phrase(80);

    pub const STOP: Phrase = Phrase(81);

    pub const NO_NAME: Phrase = Phrase(82);

    pub const OPAQUE_TYPE: Phrase = Phrase(83);

    pub const BLOCK: Phrase = Phrase(84);

    pub const INNER_ATTRIBUTE: Phrase = Phrase(85);

    pub const EXPECT_TABLES: Phrase = Phrase(86);

    /// Its text.
    pub fn as_str(self) -> &'static str {
        match self.0 {
            0..=21 => self.text_1(),
            22..=43 => self.text_2(),
            44..=65 => self.text_3(),
            _ => self.text_4(),
        }
    }

    fn text_1(self) -> &'static str {
        match self.0 {
            0 => "a mode",
            1 => "less nesting",
            2 => "the name of a parameter",
            3 => "a trait",
            4 => "`Fn`, `FnMut` or `FnOnce`",
            5 => "a type",
            6 => "a number",
            7 => "a number of at most 32 bits",
            8 => "a lifetime",
            9 => "a text that ends on its line",
            10 => "a number of at most 128 bits",
            11 => "a word or a sign",
            12 => "`{` or `;`",
            13 => "a name",
            14 => "`type`, `const` or `}`",
            15 => "the name of an attribute",
            16 => "a text in quotes",
            17 => "`{`, `(` or `;`",
            18 => "the name of a variant",
            19 => "a name and `:`",
            20 => "`:` or `==`",
            _ => "`:`, `=` or `==`",
        }
    }

    fn text_2(self) -> &'static str {
        match self.0 {
            22 => "the name of a lifetime",
            23 => "`const` or `mut`",
            24 => "an item or a goal",
            25 => "the name of an item",
            26 => "`*/`",
            27 => "an attribute of such an item",
            28 => "an attribute that is new here",
            29 => "an attribute with one term",
            30 => "an attribute with one name",
            31 => "an attribute with one number",
            32 => "a const condition without `for`",
            33 => "one that binds lifetimes",
            34 => "another term",
            35 => "a name that no item has",
            36 => "the name of a lang item",
            37 => "a name that no other item has",
            38 => "a name that no other item of the trait has",
            39 => "a name that no other impl has",
            40 => "supertraits that end",
            41 => "too many",
            42 => "bounds that do not name `Self`",
            _ => "one that does",
        }
    }

    fn text_3(self) -> &'static str {
        match self.0 {
            44 => "another bound",
            45 => "a trait without items",
            46 => "an attribute with bounds of types",
            47 => "`field(base = .., ty = ..)`",
            48 => "an attribute with types",
            49 => "`(..)` behind the trait",
            50 => "an item of a positive impl",
            51 => "an item that is new in the impl",
            52 => "an item of the trait",
            53 => "a constant of the trait",
            54 => "a type of the trait",
            55 => "an item with one value",
            56 => "a reservation without `!`",
            57 => "an opaque type with `#[hidden(..)]`",
            58 => "an impl that gives this item",
            59 => "the name of an impl",
            60 => "a new name",
            61 => "one that is declared already",
            62 => "a lifetime in scope",
            63 => "another one",
            64 => "an alias",
            _ => "a term that is none",
        }
    }

    fn text_4(self) -> &'static str {
        match self.0 {
            66 => "the lang item `fn_once_output`",
            67 => "none",
            68 => "an item that a bound in scope has",
            69 => "a term that is too deep",
            70 => "a type or a constant",
            71 => "a term of this text",
            72 => "another",
            73 => "a constant",
            74 => "what takes arguments",
            75 => "`expect`",
            76 => "`expect(..)`",
            77 => "`refused = NAME`",
            78 => "`expect` with one answer",
            79 => "UTF-8",
            80 => "other bytes",
            81 => "`stop`",
            82 => "no name",
            83 => "an opaque type",
            84 => "a block",
            85 => "`no_core` or `expect_tables(NAME)`",
            _ => "`expect_tables(NAME)`",
        }
    }
}
