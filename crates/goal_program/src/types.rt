//! The terms of the program that the rows ask about, and its structs.
ghost use Rattle.std.specs.Prelude.{◌≡◌, IfOk, [], ◌∷◌, map};
ghost use Rattle.goal_terms.specs.TreeOf.{tree_of_ty, tree_of_arg, tree_of_alias};
ghost use Rattle.goal_program.specs.Asked.{plain_tree, struct_tree, projection_tree};

use crate::names::{BOX, DYN_METADATA, P, Q, VEC, W, X, Y, Z};
use goal_tables::rows::{AdtKind, AdtRow};
use goal_terms::answers::ParamKind;
use goal_terms::ids::{AdtId, ItemId, TraitId};
use goal_terms::predicates::{
    BoundConstness, Clause, ClauseKind, HostEffectPredicate, ProjectionPredicate, TraitPredicate,
    TraitRef,
};
use goal_terms::scalars::UintTy;
use goal_terms::terms::{AliasTerm, AliasTermKind, GenericArg, Term, Ty};
use std::alloc::{AllocError, Global};

/// The structs with a type parameter.
const GENERIC_ADTS: [AdtId; 3] = [DYN_METADATA, VEC, BOX];

/// The structs with no parameters.
const PLAIN_ADTS: [AdtId; 6] = [X, Y, Z, Q, W, P];

#[tactic(auto, using(goal_terms::proofs::TreeLemmas::tree_equations))]
/// The type of a struct with no parameters.
pub fn plain_type(alloc: Global, id: AdtId) -> Ty
    ensures { tree_of_ty result ≡ plain_tree id }
{
    Ty::Adt(id, Vec::new(alloc))
}

#[tactic(auto, using(goal_terms::proofs::TreeLemmas::tree_equations))]
/// The arguments that are a self type alone.
pub fn self_arguments(alloc: Global, id: AdtId) -> Result<Vec<GenericArg>, AllocError>
    ensures { IfOk result (λ args. map tree_of_arg args.items ≡ plain_tree id ∷ []) }
{
    Ok(vec![in alloc; GenericArg::Ty(plain_type(alloc, id))]?)
}

#[tactic(auto, using(goal_terms::proofs::TreeLemmas::tree_equations))]
/// The projection of a type from a type, `<TYPE as TRAIT>::ITEM`.
pub fn projection_of(alloc: Global, item: ItemId, ty: Ty) -> Result<AliasTerm, AllocError>
    ensures { IfOk result (λ alias. tree_of_alias alias ≡ projection_tree item (tree_of_ty ty)) }
{
    Ok(AliasTerm {
        kind: AliasTermKind::ProjectionTy(item),
        args: one_type(alloc, ty)?,
    })
}

#[tactic(auto, using(goal_terms::proofs::TreeLemmas::tree_equations))]
/// The arguments that are a type alone.
pub fn one_type(alloc: Global, ty: Ty) -> Result<Vec<GenericArg>, AllocError>
    ensures { IfOk result (λ args. map tree_of_arg args.items ≡ tree_of_ty ty ∷ []) }
{
    Ok(vec![in alloc; GenericArg::Ty(ty)]?)
}

#[tactic(auto, using(goal_terms::proofs::TreeLemmas::tree_equations))]
/// The arguments that are two types.
pub fn two_types(alloc: Global, first: Ty, second: Ty) -> Result<Vec<GenericArg>, AllocError>
    ensures { IfOk result (λ args. map tree_of_arg args.items ≡ tree_of_ty first ∷ tree_of_ty second ∷ []) }
{
    Ok(vec![in alloc; GenericArg::Ty(first), GenericArg::Ty(second)]?)
}

#[tactic(auto, using(goal_terms::proofs::TreeLemmas::tree_equations))]
/// The type of a struct with a type for its parameter.
pub fn struct_of(alloc: Global, id: AdtId, ty: Ty) -> Result<Ty, AllocError>
    ensures { IfOk result (λ made. tree_of_ty made ≡ struct_tree id (tree_of_ty ty)) }
{
    Ok(Ty::Adt(id, vec![in alloc; GenericArg::Ty(ty)]?))
}

/// The trait reference `TYPE: TRAIT`.
pub fn trait_ref(alloc: Global, ty: Ty, def_id: TraitId) -> Result<TraitRef, AllocError>
    ensures named { IfOk result (λ made. made.def_id ≡ def_id) }
    ensures self_type { IfOk result (λ made. map tree_of_arg made.args.items ≡ tree_of_ty ty ∷ []) }
{
    Ok(TraitRef {
        def_id,
        args: one_type(alloc, ty)?,
    })
}

/// The clause that a trait reference holds. It binds no lifetimes.
pub fn trait_clause(trait_ref: TraitRef) -> Clause
    ensures binds_nothing { result.bound_regions ≡ 0 }
    ensures says { result.kind ≡ ClauseKind.Trait (record { trait_ref = trait_ref }) }
{
    Clause {
        bound_regions: 0,
        kind: ClauseKind::Trait(TraitPredicate { trait_ref }),
    }
}

/// The clause that a trait reference holds as a const trait. It binds no lifetimes.
pub fn const_clause(trait_ref: TraitRef, constness: BoundConstness) -> Clause
    ensures binds_nothing { result.bound_regions ≡ 0 }
    ensures says { result.kind ≡ ClauseKind.HostEffect (record { trait_ref = trait_ref; constness = constness }) }
{
    Clause {
        bound_regions: 0,
        kind: ClauseKind::HostEffect(HostEffectPredicate {
            trait_ref,
            constness,
        }),
    }
}

/// The clause that an alias and a term are equal. It binds no lifetimes.
pub fn equation_clause(projection_term: AliasTerm, term: Term) -> Clause
    ensures binds_nothing { result.bound_regions ≡ 0 }
    ensures says { result.kind ≡ ClauseKind.Projection (record { projection_term = projection_term; term = term }) }
{
    Clause {
        bound_regions: 0,
        kind: ClauseKind::Projection(ProjectionPredicate {
            projection_term,
            term,
        }),
    }
}

/// Adds the structs of the program. None has a tail, a constraint, conditions or information on fields.
pub fn push_adt_rows(alloc: Global, rows: &mut Vec<AdtRow>) -> Result<(), AllocError> {
    for id in GENERIC_ADTS {
        rows.push(struct_row(alloc, id, vec![in alloc; ParamKind::Ty]?))?;
    }
    push_plain_adts(alloc, rows)
}

fn push_plain_adts(alloc: Global, rows: &mut Vec<AdtRow>) -> Result<(), AllocError> {
    for id in PLAIN_ADTS {
        rows.push(struct_row(alloc, id, Vec::new(alloc)))?;
    }
    Ok(())
}

/// A struct of which nothing is known but its parameters.
pub fn struct_row(alloc: Global, id: AdtId, params: Vec<ParamKind>) -> AdtRow {
    AdtRow {
        id,
        params,
        kind: AdtKind::Struct,
        tail: None,
        sized_constraint: None,
        discriminant: Ty::Uint(UintTy::U8),
        destruct_conditions: Vec::new(alloc),
        field_info: None,
    }
}
