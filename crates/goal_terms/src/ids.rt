/// A trait.
#[derive(Clone, Copy, PartialEq, Eq, Hash)]
pub struct TraitId(pub u32);

/// An associated type or constant of a trait.
#[derive(Clone, Copy, PartialEq, Eq, Hash)]
pub struct ItemId(pub u32);

/// An impl of a trait.
#[derive(Clone, Copy, PartialEq, Eq, Hash)]
pub struct ImplId(pub u32);

/// A definition of an item, in a trait or in an impl.
#[derive(Clone, Copy, PartialEq, Eq, Hash)]
pub struct DefId(pub u32);

/// A free type alias or constant.
#[derive(Clone, Copy, PartialEq, Eq, Hash)]
pub struct FreeId(pub u32);

/// An associated item of an inherent impl.
#[derive(Clone, Copy, PartialEq, Eq, Hash)]
pub struct InherentId(pub u32);

/// An inherent impl.
#[derive(Clone, Copy, PartialEq, Eq, Hash)]
pub struct InherentImplId(pub u32);

/// An opaque type.
#[derive(Clone, Copy, PartialEq, Eq, Hash)]
pub struct OpaqueId(pub u32);

/// A struct, an enum or a union.
#[derive(Clone, Copy, PartialEq, Eq, Hash)]
pub struct AdtId(pub u32);

/// A function item.
#[derive(Clone, Copy, PartialEq, Eq, Hash)]
pub struct FnId(pub u32);

/// A closure.
#[derive(Clone, Copy, PartialEq, Eq, Hash)]
pub struct ClosureId(pub u32);

/// A foreign type. It has no row in the tables.
#[derive(Clone, Copy, PartialEq, Eq, Hash)]
pub struct ForeignId(pub u32);
