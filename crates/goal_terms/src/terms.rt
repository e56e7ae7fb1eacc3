use crate::ids::{
    AdtId, ClosureId, FnId, ForeignId, FreeId, InherentId, ItemId, OpaqueId, TraitId,
};
use crate::scalars::{FloatTy, IntTy, Mutability, UintTy};

/// A type. An `Error` stands for every type with a fault, numbered by the row that has it.
#[cycle(terms)]
#[derive(Drop)]
pub enum Ty {
    Bool,
    Char,
    Int(IntTy),
    Uint(UintTy),
    Float(FloatTy),
    Str,
    Never,
    Adt(AdtId, Vec<GenericArg>),
    Foreign(ForeignId),
    Array(Box<Ty>, Box<Const>),
    Slice(Box<Ty>),
    RawPtr(Box<Ty>, Mutability),
    Ref(Region, Box<Ty>, Mutability),
    FnDef(FnId, Vec<GenericArg>),
    FnPtr(Box<FnSig>),
    Closure(ClosureId, Vec<GenericArg>),
    Dynamic(Vec<DynClause>, Region),
    Tuple(Vec<Ty>),
    Param(u32),
    Placeholder(u32),
    Alias(AliasTerm),
    Infer(InferTy),
    Error(u32),
}

/// An inference variable that stands for a type: any type, an integer type or a floating type.
#[derive(Clone, Copy, PartialEq, Eq, Hash)]
pub enum InferTy {
    TyVar(u32),
    IntVar(u32),
    FloatVar(u32),
}

/// A constant.
#[cycle(terms)]
#[derive(Drop)]
pub enum Const {
    Value(u128),
    Param(u32),
    Placeholder(u32),
    Infer(u32),
    Alias(AliasTerm),
    Error(u32),
}

/// A lifetime. `Bound(b, k)` is lifetime `k` of the binder `b` levels out, 0 being the innermost.
#[derive(Clone, Copy, PartialEq, Eq, Hash)]
pub enum Region {
    Static,
    Erased,
    Param(u32),
    Bound(u32, u32),
    Placeholder(u32),
    Var(u32),
}

/// What stands for a parameter.
#[cycle(terms)]
#[derive(Drop)]
pub enum GenericArg {
    Ty(Ty),
    Const(Const),
    Lifetime(Region),
}

/// A type or a constant.
#[cycle(terms)]
#[derive(Drop)]
pub enum Term {
    Ty(Ty),
    Const(Const),
}

/// The signature of a function. It binds `bound_regions` lifetimes. `fn_traits` says whether a
/// function with it may be called through `Fn`, `FnMut` and `FnOnce`.
#[cycle(terms)]
#[derive(Drop)]
pub struct FnSig {
    pub bound_regions: u32,
    pub inputs: Vec<Ty>,
    pub output: Ty,
    pub fn_traits: bool,
}

/// A bound of a `dyn` type, whose arguments leave the self type out. It is a binder.
#[cycle(terms)]
#[derive(Drop)]
pub enum DynClause {
    Trait(TraitId, Vec<GenericArg>),
    Projection(ItemId, Vec<GenericArg>, Term),
}

/// An alias with its arguments.
#[cycle(terms)]
#[derive(Drop)]
pub struct AliasTerm {
    pub kind: AliasTermKind,
    pub args: Vec<GenericArg>,
}

/// What an alias names.
#[derive(Clone, Copy, PartialEq, Eq, Hash)]
pub enum AliasTermKind {
    ProjectionTy(ItemId),
    ProjectionConst(ItemId),
    InherentTy(InherentId),
    InherentConst(InherentId),
    OpaqueTy(OpaqueId),
    FreeTy(FreeId),
    FreeConst(FreeId),
    UnevaluatedConst(u32),
}
