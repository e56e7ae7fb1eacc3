//! The ids of the program that the rows ask about, and the names of its parts.
use goal_terms::ids::{AdtId, FreeId, InherentId, ItemId, OpaqueId, TraitId};
use goal_text::names::{Name, TermNames};

/// The trait `Sized`.
pub const SIZED: TraitId = TraitId(0);

/// The trait `Copy`.
pub const COPY: TraitId = TraitId(1);

/// The trait `Clone`.
pub const CLONE: TraitId = TraitId(2);

/// The trait `Fn<Args>`.
pub const FN: TraitId = TraitId(3);

/// The trait `FnMut<Args>`.
pub const FN_MUT: TraitId = TraitId(4);

/// The trait `FnOnce<Args>`.
pub const FN_ONCE: TraitId = TraitId(5);

/// The trait `FnPtr`.
pub const FN_PTR: TraitId = TraitId(6);

/// The trait `Tuple`.
pub const TUPLE: TraitId = TraitId(7);

/// The trait `Pointee`.
pub const POINTEE: TraitId = TraitId(8);

/// The trait `DiscriminantKind`.
pub const DISCRIMINANT_KIND: TraitId = TraitId(9);

/// The trait `Destruct`.
pub const DESTRUCT: TraitId = TraitId(10);

/// The trait `Field`.
pub const FIELD: TraitId = TraitId(11);

/// The trait `Tr`.
pub const TR: TraitId = TraitId(12);

/// The trait `Trait<U>`.
pub const TRAIT: TraitId = TraitId(13);

/// The trait `Pair<U>`.
pub const PAIR: TraitId = TraitId(14);

/// The trait `Own`.
pub const OWN: TraitId = TraitId(15);

/// The trait `Foo`.
pub const FOO: TraitId = TraitId(16);

/// The associated type `Output` of `FnOnce<Args>`.
pub const OUTPUT: ItemId = ItemId(0);

/// The associated type `Metadata` of `Pointee`.
pub const METADATA: ItemId = ItemId(1);

/// The associated type `Discriminant` of `DiscriminantKind`.
pub const DISCRIMINANT: ItemId = ItemId(2);

/// The associated type `Base` of `Field`.
pub const BASE: ItemId = ItemId(3);

/// The associated type `Type` of `Field`.
pub const FIELD_TYPE: ItemId = ItemId(4);

/// The associated type `A` of `Tr`.
pub const A: ItemId = ItemId(5);

/// The associated type `Assoc<V>` of `Trait<U>`.
pub const TRAIT_ASSOC: ItemId = ItemId(6);

/// The associated type `A` of `Pair<U>`.
pub const PAIR_A: ItemId = ItemId(7);

/// The associated type `B` of `Own`.
pub const OWN_B: ItemId = ItemId(8);

/// The associated type `Assoc` of `Foo`.
pub const FOO_ASSOC: ItemId = ItemId(9);

/// The struct `DynMetadata<T>`.
pub const DYN_METADATA: AdtId = AdtId(0);

/// The struct `Vec<T>`.
pub const VEC: AdtId = AdtId(1);

/// The struct `Box<T>`.
pub const BOX: AdtId = AdtId(2);

/// The struct `X`.
pub const X: AdtId = AdtId(3);

/// The struct `Y`.
pub const Y: AdtId = AdtId(4);

/// The struct `Z`.
pub const Z: AdtId = AdtId(5);

/// The struct `Q`.
pub const Q: AdtId = AdtId(6);

/// The struct `W`.
pub const W: AdtId = AdtId(7);

/// The struct `P`.
pub const P: AdtId = AdtId(8);

/// The free alias `A<T> = Vec<T>`.
pub const FREE_A: FreeId = FreeId(0);

/// The free alias `B<T> = Vec<T> where T: Tr`.
pub const FREE_B: FreeId = FreeId(1);

/// The free alias `F = u8`.
pub const FREE_F: FreeId = FreeId(2);

/// The free constant `C`.
pub const FREE_C: FreeId = FreeId(3);

/// The opaque type `Hid`.
pub const HID: OpaqueId = OpaqueId(0);

/// The inherent item `I` of `Vec<T>`.
pub const INHERENT_I: InherentId = InherentId(0);

/// The names of the program.
#[derive(Clone, Copy)]
pub struct ProgramNames;

impl TermNames for ProgramNames {
    fn trait_name(&self, id: TraitId) -> Name<'_> {
        match id.0 {
            0 => Name::Given("Sized"),
            1 => Name::Given("Copy"),
            2 => Name::Given("Clone"),
            3 => Name::Given("Fn"),
            4 => Name::Given("FnMut"),
            5 => Name::Given("FnOnce"),
            6 => Name::Given("FnPtr"),
            7 => Name::Given("Tuple"),
            8 => Name::Given("Pointee"),
            9 => Name::Given("DiscriminantKind"),
            10 => Name::Given("Destruct"),
            11 => Name::Given("Field"),
            12 => Name::Given("Tr"),
            13 => Name::Given("Trait"),
            14 => Name::Given("Pair"),
            15 => Name::Given("Own"),
            16 => Name::Given("Foo"),
            number => Name::Numbered("Trait", number),
        }
    }

    fn item_name(&self, id: ItemId) -> Name<'_> {
        match id.0 {
            0 => Name::Given("Output"),
            1 => Name::Given("Metadata"),
            2 => Name::Given("Discriminant"),
            3 => Name::Given("Base"),
            4 => Name::Given("Type"),
            5 | 7 => Name::Given("A"),
            6 | 9 => Name::Given("Assoc"),
            8 => Name::Given("B"),
            number => Name::Numbered("Item", number),
        }
    }

    fn trait_name_of(&self, id: ItemId) -> Name<'_> {
        match id.0 {
            0 => self.trait_name(FN_ONCE),
            1 => self.trait_name(POINTEE),
            2 => self.trait_name(DISCRIMINANT_KIND),
            3 | 4 => self.trait_name(FIELD),
            5 => self.trait_name(TR),
            6 => self.trait_name(TRAIT),
            7 => self.trait_name(PAIR),
            8 => self.trait_name(OWN),
            9 => self.trait_name(FOO),
            number => Name::Numbered("TraitOf", number),
        }
    }

    fn trait_parameters_of(&self, id: ItemId) -> usize {
        match id.0 {
            0 | 6 | 7 => 2,
            _ => 1,
        }
    }

    fn adt_name(&self, id: AdtId) -> Name<'_> {
        match id.0 {
            0 => Name::Given("DynMetadata"),
            1 => Name::Given("Vec"),
            2 => Name::Given("Box"),
            3 => Name::Given("X"),
            4 => Name::Given("Y"),
            5 => Name::Given("Z"),
            6 => Name::Given("Q"),
            7 => Name::Given("W"),
            8 => Name::Given("P"),
            number => Name::Numbered("Adt", number),
        }
    }

    fn free_name(&self, id: FreeId) -> Name<'_> {
        match id.0 {
            0 => Name::Given("A"),
            1 => Name::Given("B"),
            2 => Name::Given("F"),
            3 => Name::Given("C"),
            number => Name::Numbered("Free", number),
        }
    }

    fn opaque_name(&self, id: OpaqueId) -> Name<'_> {
        match id.0 {
            0 => Name::Given("Hid"),
            number => Name::Numbered("Opaque", number),
        }
    }

    fn inherent_name(&self, id: InherentId) -> Name<'_> {
        match id.0 {
            0 => Name::Given("I"),
            number => Name::Numbered("Inherent", number),
        }
    }
}
