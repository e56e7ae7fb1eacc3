//! The names of what terms mention.
ghost use Rattle.std.specs.Prelude.{◌≡◌};
ghost use Rattle.goal_text.specs.NameText.{name_text, parameter_text};

use goal_terms::ids::{
    AdtId, ClosureId, FnId, ForeignId, FreeId, InherentId, ItemId, OpaqueId, TraitId,
};
use std::fmt;

/// A name that is given, or a word and a number for what has none.
#[derive(Clone, Copy)]
pub enum Name<'a> {
    Given(&'a str),
    Numbered(&'static str, u32),
}

impl fmt::Display for Name<'_> {
    ghost use Rattle.std.specs.Prelude.{Some};
    ghost use Rattle.goal_text.specs.NameText.{name_text};

    ghost output = { λ n. Some (name_text n) };

    fn fmt<W: fmt::Write>(&self, f: &mut fmt::Formatter<W>) -> fmt::Result {
        match self {
            Name::Given(name) => write!(f, "{name}"),
            Name::Numbered(word, number) => write!(f, "{word}{number}"),
        }
    }
}

/// The names by which terms are shown. What is not named is shown by a word and its number.
pub trait TermNames {
    /// The name of a struct, an enum or a union.
    fn adt_name(&self, id: AdtId) -> Name<'_> {
        Name::Numbered("Adt", id.0)
    }

    /// The name of a trait.
    fn trait_name(&self, id: TraitId) -> Name<'_> {
        Name::Numbered("Trait", id.0)
    }

    /// The name of an item of a trait.
    fn item_name(&self, id: ItemId) -> Name<'_> {
        Name::Numbered("Item", id.0)
    }

    /// The name of the trait that an item belongs to.
    fn trait_name_of(&self, id: ItemId) -> Name<'_> {
        Name::Numbered("TraitOf", id.0)
    }

    /// How many parameters the trait of an item has, the self type included: 1 where it isn't known.
    fn trait_parameters_of(&self, _id: ItemId) -> usize {
        1
    }

    /// The name of an alias that stands by itself.
    fn free_name(&self, id: FreeId) -> Name<'_> {
        Name::Numbered("Free", id.0)
    }

    /// The name of an opaque type.
    fn opaque_name(&self, id: OpaqueId) -> Name<'_> {
        Name::Numbered("Opaque", id.0)
    }

    /// The name of an item of an impl without a trait.
    fn inherent_name(&self, id: InherentId) -> Name<'_> {
        Name::Numbered("Inherent", id.0)
    }

    /// The name of a function.
    fn fn_name(&self, id: FnId) -> Name<'_> {
        Name::Numbered("function", id.0)
    }

    /// The name of a closure.
    fn closure_name(&self, id: ClosureId) -> Name<'_> {
        Name::Numbered("closure", id.0)
    }

    /// The name of a foreign type.
    fn foreign_name(&self, id: ForeignId) -> Name<'_> {
        Name::Numbered("Foreign", id.0)
    }

    /// The name of a parameter that stands for a type or a constant.
    fn parameter_name(&self, index: u32) -> Name<'_> {
        parameter_name(index)
    }

    /// The name of a parameter that stands for a lifetime, without its quote.
    fn region_parameter_name(&self, index: u32) -> Name<'_> {
        Name::Numbered("p", index)
    }
}

/// Names nothing: everything is shown by a word and its number, as `Adt3`.
#[derive(Clone, Copy)]
pub struct Numbered;

impl TermNames for Numbered {}

/// The name of a parameter: `T`, `U` and `V` for the first three, and else `P` with its number.
pub fn parameter_name(index: u32) -> Name<'static>
    ensures { name_text result ≡ parameter_text index }
{
    match index {
        0 => Name::Given("T"),
        1 => Name::Given("U"),
        2 => Name::Given("V"),
        number => Name::Numbered("P", number),
    }
}
