//! Premises and conditions that ask a trait of each of some types.
ghost use Rattle.std.specs.Prelude.{◌≡◌, List, [], ◌∷◌, map, IfOk};
ghost use Rattle.std.specs.List.{All};
ghost use Rattle.goal_terms.specs.PredicateTrees.{holds};
ghost use Rattle.goal_terms.specs.Tree.{Tree};
ghost use Rattle.goal_lists.specs.Builtins.{each_is};
ghost use Rattle.goal_lists.specs.ConstRules.{each_const};
ghost use Rattle.goal_lists.specs.Interned.{IsIn, AreIn, TraitIn, PremiseIn, ConstRuleIn, erased_at, erased_all, trait_at, premise_at, const_rule_at};
ghost use Rattle.goal_lists.specs.Premises.{predicate};

use crate::candidates::interned::{
    InternedConstRule, InternedPredicate, InternedPremise, InternedTrait,
};
use goal_interner::term_nodes::{OutOfMemory, TermId};
use goal_terms::ids::TraitId;
use std::alloc::Global;

/// A trait of a type alone. Want of memory is the only refusal.
pub(crate) fn trait_of_type(
    alloc: Global,
    trait_id: TraitId,
    ty: TermId,
) -> Result<InternedTrait, OutOfMemory>
    ensures within { (T : List Tree) → IsIn T ty → IfOk result (TraitIn T) }
    ensures made { (T : List Tree) → IfOk result (λ r. trait_at T r ≡ record { def_id = trait_id; args = erased_at T ty ∷ [] }) }
{
    let mut args = Vec::with_capacity(alloc, 1)?;
    args.push(ty)?;
    Ok(InternedTrait {
        def_id: trait_id,
        args,
    })
}

/// That a type has a trait. Want of memory is the only refusal.
pub(crate) fn type_is(
    alloc: Global,
    trait_id: TraitId,
    ty: TermId,
) -> Result<InternedPremise, OutOfMemory>
    ensures within { (T : List Tree) → IsIn T ty → IfOk result (PremiseIn T) }
    ensures premise { (T : List Tree) → IfOk result (λ p. premise_at T p ≡ predicate (holds trait_id (erased_at T ty ∷ []))) }
{
    let holds = trait_of_type(alloc, trait_id, ty)?;
    Ok(InternedPremise::Predicate(InternedPredicate::Trait(holds)))
}

/// That each of some types has a trait. Want of memory is the only refusal.
pub(crate) fn each_is(
    alloc: Global,
    trait_id: TraitId,
    tys: &[TermId],
) -> Result<Vec<InternedPremise>, OutOfMemory>
    ensures within { (T : List Tree) → AreIn T tys.now → IfOk result (λ ps. All (PremiseIn T) ps.items) }
    ensures premises { (T : List Tree) → IfOk result (λ ps. map (premise_at T) ps.items ≡ each_is trait_id (erased_all T tys.now)) }
{
    let mut premises = Vec::with_capacity(alloc, tys.len())?;
    for ty in tys {
        let premise = type_is(alloc, trait_id, *ty)?;
        premises.push(premise)?;
    }
    Ok(premises)
}

/// That each of some types has a trait as a const trait. Want of memory is the only refusal.
pub(crate) fn each_const(
    alloc: Global,
    trait_id: TraitId,
    tys: &[TermId],
) -> Result<InternedConstRule, OutOfMemory>
    ensures within { (T : List Tree) → AreIn T tys.now → IfOk result (ConstRuleIn T) }
    ensures rule { (T : List Tree) → IfOk result (λ r. const_rule_at T r ≡ each_const trait_id (erased_all T tys.now)) }
{
    let mut conditions = Vec::with_capacity(alloc, tys.len())?;
    for ty in tys {
        let condition = trait_of_type(alloc, trait_id, *ty)?;
        conditions.push(condition)?;
    }
    Ok(InternedConstRule {
        premises: Vec::new(alloc),
        conditions,
    })
}
