use crate::ids::{AdtId, ClosureId, FnId, ForeignId, ItemId, TraitId};
use crate::scalars::{FloatTy, IntTy, Mutability, UintTy};
use crate::terms::{AliasTermKind, InferTy, Region};

/// The constructor of a term that is neither an alias nor a variable, with all that it says beside
/// its parts. A count is the number of parts. Regions and numbers of bound lifetimes are the only
/// things in it that erasing forgets.
#[derive(Clone, Copy, PartialEq, Eq, Hash)]
pub enum Head {
    Bool,
    Char,
    Int(IntTy),
    Uint(UintTy),
    Float(FloatTy),
    Str,
    Never,
    Adt(AdtId, usize),
    Foreign(ForeignId),
    Array,
    Slice,
    RawPtr(Mutability),
    Ref(Region, Mutability),
    FnDef(FnId, usize),
    FnPtr {
        bound_regions: u32,
        inputs: usize,
        fn_traits: bool,
    },
    Closure(ClosureId, usize),
    Dynamic(usize, Region),
    Tuple(usize),
    TyParam(u32),
    TyPlaceholder(u32),
    TyError(u32),
    Value(u128),
    ConstParam(u32),
    ConstPlaceholder(u32),
    ConstError(u32),
    Lifetime(Region),
    /// A clause of a `dyn` type that names a trait.
    DynTrait(TraitId, usize),
    /// A clause of a `dyn` type that names an item; its last part is the term.
    DynProjection(ItemId, usize),
    /// An alias that stands where a term of the other sort is wanted.
    Misplaced(AliasTermKind),
}

/// An inference variable that a term holds.
#[derive(Clone, Copy, PartialEq, Eq, Hash)]
pub enum Variable {
    Ty(InferTy),
    Const(u32),
}

/// What stands at a place of a term.
#[derive(Clone, Copy, PartialEq, Eq, Hash)]
pub enum Node {
    Head(Head),
    Alias(AliasTermKind),
    Variable(Variable),
}
