//! The types and the aliases that the rows ask about.
ghost use Rattle.std.specs.Prelude.{◌≡◌, IfOk};
ghost use Rattle.goal_terms.specs.TreeOf.{tree_of_ty, tree_of_alias};
ghost use Rattle.goal_program.specs.Asked.{free_tree, bare_tree, output_tree, assoc_tree, pair_tree, inherent_tree, pointer_tree, byte_and_str_tree, vec_of_u32_tree};
ghost use Rattle.goal_program.specs.AskedTerms.{asked_tree, asked_alias_tree};

use crate::names::{
    A, DISCRIMINANT, FREE_F, INHERENT_I, METADATA, OUTPUT, OWN_B, PAIR_A, TRAIT_ASSOC, VEC,
};
use crate::types::{one_type, plain_type, projection_of, struct_of, two_types};
use goal_terms::ids::{AdtId, FreeId, OpaqueId};
use goal_terms::scalars::{IntTy, UintTy};
use goal_terms::terms::{AliasTerm, AliasTermKind, FnSig, GenericArg, Ty};
use std::alloc::{AllocError, Global};

/// A type that a row asks about.
#[derive(Clone, Copy)]
pub enum AskedType {
    Bool,
    Str,
    Byte,
    Unit,
    /// `(u8, str)`.
    ByteAndStr,
    /// The parameter `T`.
    Param,
    /// A struct with no parameters.
    Struct(AdtId),
    /// `Vec` of a struct with no parameters.
    VecOf(AdtId),
    /// `<T as Own>::B`.
    OwnB,
}

/// An alias that a row asks about.
#[derive(Clone, Copy)]
pub enum AskedAlias {
    /// `<TYPE as Pointee>::Metadata`.
    Metadata(AskedType),
    /// `<TYPE as DiscriminantKind>::Discriminant`.
    Discriminant(AskedType),
    /// `<TYPE as Tr>::A`.
    TrA(AskedType),
    /// `<fn(u8) -> bool as FnOnce<(TYPE,)>>::Output`.
    Output(UintTy),
    /// `<Vec<u32> as Trait<i32>>::Assoc<u64>`.
    TraitAssoc,
    /// `<Vec<F> as Pair<TYPE>>::A`, where `F` is a free alias of `u8`.
    PairA(UintTy),
    /// A free alias of `u32`.
    Free(FreeId),
    /// A free constant with no parameters.
    FreeConst(FreeId),
    /// The inherent alias of `Vec<u32>`.
    Inherent,
    /// An opaque type with no parameters.
    Opaque(OpaqueId),
}

#[tactic(auto, using(goal_terms::proofs::TreeLemmas::tree_equations))]
impl AskedType {
    /// The type itself.
    pub fn ty(self, alloc: Global) -> Result<Ty, AllocError>
        ensures { IfOk result (λ ty. tree_of_ty ty ≡ asked_tree self) }
    {
        match self {
            AskedType::Bool => Ok(Ty::Bool),
            AskedType::Str => Ok(Ty::Str),
            AskedType::Byte => Ok(Ty::Uint(UintTy::U8)),
            AskedType::Unit => Ok(Ty::Tuple(Vec::new(alloc))),
            AskedType::ByteAndStr => byte_and_str(alloc),
            AskedType::Param => Ok(Ty::Param(0)),
            AskedType::Struct(id) => Ok(plain_type(alloc, id)),
            AskedType::VecOf(id) => struct_of(alloc, VEC, plain_type(alloc, id)),
            AskedType::OwnB => Ok(Ty::Alias(projection_of(alloc, OWN_B, Ty::Param(0))?)),
        }
    }
}

#[tactic(auto, using(goal_terms::proofs::TreeLemmas::tree_equations))]
impl AskedAlias {
    /// The alias itself.
    pub fn alias(self, alloc: Global) -> Result<AliasTerm, AllocError>
        ensures { IfOk result (λ alias. tree_of_alias alias ≡ asked_alias_tree self) }
    {
        match self {
            AskedAlias::Metadata(asked) => projection_of(alloc, METADATA, asked.ty(alloc)?),
            AskedAlias::Discriminant(asked) => projection_of(alloc, DISCRIMINANT, asked.ty(alloc)?),
            AskedAlias::TrA(asked) => projection_of(alloc, A, asked.ty(alloc)?),
            AskedAlias::Output(input) => output_of_pointer(alloc, input),
            AskedAlias::TraitAssoc => assoc_of_vec(alloc),
            AskedAlias::PairA(other) => pair_of_vec(alloc, other),
            AskedAlias::Free(id) => free_alias(alloc, id),
            AskedAlias::FreeConst(id) => Ok(bare_alias(alloc, AliasTermKind::FreeConst(id))),
            AskedAlias::Inherent => inherent_alias(alloc),
            AskedAlias::Opaque(id) => Ok(bare_alias(alloc, AliasTermKind::OpaqueTy(id))),
        }
    }
}

#[tactic(auto, using(goal_terms::proofs::TreeLemmas::tree_equations))]
/// The type `(u8, str)`.
fn byte_and_str(alloc: Global) -> Result<Ty, AllocError>
    ensures { IfOk result (λ ty. tree_of_ty ty ≡ byte_and_str_tree) }
{
    Ok(Ty::Tuple(vec![in alloc; Ty::Uint(UintTy::U8), Ty::Str]?))
}

#[tactic(auto, using(goal_terms::proofs::TreeLemmas::tree_equations))]
fn vec_of_u32(alloc: Global) -> Result<Ty, AllocError>
    ensures { IfOk result (λ ty. tree_of_ty ty ≡ vec_of_u32_tree) }
{
    struct_of(alloc, VEC, Ty::Uint(UintTy::U32))
}

#[tactic(auto, using(goal_terms::proofs::TreeLemmas::tree_equations))]
/// The type `fn(u8) -> bool`, which may be called.
fn pointer_to_function(alloc: Global) -> Result<Ty, AllocError>
    ensures { IfOk result (λ ty. tree_of_ty ty ≡ pointer_tree) }
{
    let signature = FnSig {
        bound_regions: 0,
        inputs: vec![in alloc; Ty::Uint(UintTy::U8)]?,
        output: Ty::Bool,
        fn_traits: true,
    };
    Ok(Ty::FnPtr(Box::new(alloc, signature)?))
}

#[tactic(auto, using(goal_terms::proofs::TreeLemmas::tree_equations))]
/// An alias with no arguments.
fn bare_alias(alloc: Global, kind: AliasTermKind) -> AliasTerm
    ensures { tree_of_alias result ≡ bare_tree kind }
{
    AliasTerm {
        kind,
        args: Vec::new(alloc),
    }
}

#[tactic(auto, using(goal_terms::proofs::TreeLemmas::tree_equations))]
fn free_alias(alloc: Global, id: FreeId) -> Result<AliasTerm, AllocError>
    ensures { IfOk result (λ alias. tree_of_alias alias ≡ free_tree id) }
{
    Ok(AliasTerm {
        kind: AliasTermKind::FreeTy(id),
        args: one_type(alloc, Ty::Uint(UintTy::U32))?,
    })
}

#[tactic(auto, using(goal_terms::proofs::TreeLemmas::tree_equations))]
fn inherent_alias(alloc: Global) -> Result<AliasTerm, AllocError>
    ensures { IfOk result (λ alias. tree_of_alias alias ≡ inherent_tree) }
{
    Ok(AliasTerm {
        kind: AliasTermKind::InherentTy(INHERENT_I),
        args: one_type(alloc, vec_of_u32(alloc)?)?,
    })
}

#[tactic(auto, using(goal_terms::proofs::TreeLemmas::tree_equations))]
fn output_of_pointer(alloc: Global, input: UintTy) -> Result<AliasTerm, AllocError>
    ensures { IfOk result (λ alias. tree_of_alias alias ≡ output_tree input) }
{
    let inputs = Ty::Tuple(vec![in alloc; Ty::Uint(input)]?);
    Ok(AliasTerm {
        kind: AliasTermKind::ProjectionTy(OUTPUT),
        args: two_types(alloc, pointer_to_function(alloc)?, inputs)?,
    })
}

#[tactic(auto, using(goal_terms::proofs::TreeLemmas::tree_equations))]
fn assoc_of_vec(alloc: Global) -> Result<AliasTerm, AllocError>
    ensures { IfOk result (λ alias. tree_of_alias alias ≡ assoc_tree) }
{
    let list = GenericArg::Ty(vec_of_u32(alloc)?);
    let first = GenericArg::Ty(Ty::Int(IntTy::I32));
    let second = GenericArg::Ty(Ty::Uint(UintTy::U64));
    Ok(AliasTerm {
        kind: AliasTermKind::ProjectionTy(TRAIT_ASSOC),
        args: vec![in alloc; list, first, second]?,
    })
}

#[tactic(auto, using(goal_terms::proofs::TreeLemmas::tree_equations))]
fn pair_of_vec(alloc: Global, other: UintTy) -> Result<AliasTerm, AllocError>
    ensures { IfOk result (λ alias. tree_of_alias alias ≡ pair_tree other) }
{
    let byte = Ty::Alias(bare_alias(alloc, AliasTermKind::FreeTy(FREE_F)));
    let list = struct_of(alloc, VEC, byte)?;
    Ok(AliasTerm {
        kind: AliasTermKind::ProjectionTy(PAIR_A),
        args: two_types(alloc, list, Ty::Uint(other))?,
    })
}
