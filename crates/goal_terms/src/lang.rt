//! Lang items: the traits, items and types that built-in rules know.
use crate::ids::{AdtId, ItemId, TraitId};

/// A trait, an item or a type that built-in rules know.
#[derive(Clone, Copy, PartialEq, Eq, Hash)]
pub enum LangItem {
    Sized,
    Copy,
    Clone,
    Fn,
    FnMut,
    FnOnce,
    FnPtr,
    Tuple,
    Pointee,
    DiscriminantKind,
    Destruct,
    Field,
    Output,
    Metadata,
    Discriminant,
    Base,
    FieldType,
    DynMetadata,
}

/// The row that a lang item names.
#[derive(Clone, Copy, PartialEq, Eq, Hash)]
pub enum LangTarget {
    Trait(TraitId),
    Item(ItemId),
    Adt(AdtId),
}

/// Which row a lang item names.
#[derive(Clone, Copy)]
pub struct LangRow {
    pub item: LangItem,
    pub target: LangTarget,
}
