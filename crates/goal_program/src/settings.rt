//! Under which clauses and in which phase of checking the rows ask.
ghost use Rattle.std.specs.Prelude.{◌≡◌, [], ◌∷◌, IfOk, map};
ghost use Rattle.goal_terms.specs.PredicateTrees.{tree_of_trait_ref, tree_of_whole_clause, holds};
ghost use Rattle.goal_program.specs.Asked.{param_tree};
ghost use Rattle.goal_program.specs.Settings.{assumed, param_holds, param_term, IsMode};

use crate::names::{A, OWN, SIZED, TR};
use crate::types::{const_clause, equation_clause, projection_of, trait_clause, trait_ref};
use goal_terms::ids::TraitId;
use goal_terms::modes::TypingMode;
use goal_terms::predicates::{BoundConstness, Clause, TraitRef};
use goal_terms::scalars::UintTy;
use goal_terms::terms::{Term, Ty};
use std::alloc::{AllocError, Global};

/// What a row assumes of the parameter `T`.
#[derive(Clone, Copy)]
pub enum Environment {
    /// Nothing.
    Empty,
    /// `T: Sized`.
    IsSized,
    /// `T: Own`.
    IsOwn,
    /// `T: Tr` and `T: [const] Tr`.
    IsMaybeConst,
    /// `T: Tr`, `<T as Tr>::A == u8` and `<T as Tr>::A == u16`.
    HasTwoTerms,
}

/// The phase of checking in which a row asks. No opaque type is being defined in it.
#[derive(Clone, Copy)]
pub enum Mode {
    Analysis,
    PostAnalysis,
    Erased,
    /// The erased mode, where a goal that reads the mode is to be run again in another one.
    ErasedThatStops,
}

#[tactic(auto, using(goal_terms::proofs::TreeLemmas::tree_equations))]
impl Environment {
    /// The clauses that are assumed.
    pub fn clauses(self, alloc: Global) -> Result<Vec<Clause>, AllocError>
        ensures { IfOk result (λ clauses. map tree_of_whole_clause clauses.items ≡ assumed self) }
    {
        match self {
            Environment::Empty => Ok(Vec::new(alloc)),
            Environment::IsSized => Ok(vec![in alloc; param_clause(alloc, SIZED)?]?),
            Environment::IsOwn => Ok(vec![in alloc; param_clause(alloc, OWN)?]?),
            Environment::IsMaybeConst => maybe_const_clauses(alloc),
            Environment::HasTwoTerms => two_term_clauses(alloc),
        }
    }
}

impl Mode {
    /// The mode itself.
    pub fn typing_mode(self, alloc: Global) -> TypingMode
        ensures { IsMode self result }
    {
        match self {
            Mode::Analysis => TypingMode::Analysis {
                defining_opaque_types: Vec::new(alloc),
            },
            Mode::PostAnalysis => TypingMode::PostAnalysis,
            Mode::Erased | Mode::ErasedThatStops => TypingMode::ErasedNotCoherence,
        }
    }

    /// Whether a goal that reads the mode is to be run again in another one.
    pub fn stops_on_rerun(self) -> bool {
        matches!(self, Mode::ErasedThatStops)
    }
}

#[tactic(auto, using(goal_terms::proofs::TreeLemmas::tree_equations))]
/// The trait reference `T: TRAIT`.
fn param_ref(alloc: Global, id: TraitId) -> Result<TraitRef, AllocError>
    ensures { IfOk result (λ made. tree_of_trait_ref made ≡ holds id (param_tree ∷ [])) }
{
    trait_ref(alloc, Ty::Param(0), id)
}

#[tactic(auto, using(goal_terms::proofs::TreeLemmas::tree_equations))]
/// The clause `T: TRAIT`.
fn param_clause(alloc: Global, id: TraitId) -> Result<Clause, AllocError>
    ensures { IfOk result (λ clause. tree_of_whole_clause clause ≡ param_holds id) }
{
    Ok(trait_clause(param_ref(alloc, id)?))
}

#[tactic(auto, using(goal_terms::proofs::TreeLemmas::tree_equations))]
fn maybe_const_clauses(alloc: Global) -> Result<Vec<Clause>, AllocError>
    ensures { IfOk result (λ clauses. map tree_of_whole_clause clauses.items ≡ assumed Environment.IsMaybeConst) }
{
    let holds = param_clause(alloc, TR)?;
    let holds_const = const_clause(param_ref(alloc, TR)?, BoundConstness::Maybe);
    Ok(vec![in alloc; holds, holds_const]?)
}

#[tactic(auto, using(goal_terms::proofs::TreeLemmas::tree_equations))]
fn two_term_clauses(alloc: Global) -> Result<Vec<Clause>, AllocError>
    ensures { IfOk result (λ clauses. map tree_of_whole_clause clauses.items ≡ assumed Environment.HasTwoTerms) }
{
    let holds = param_clause(alloc, TR)?;
    let first = term_clause(alloc, UintTy::U8)?;
    let second = term_clause(alloc, UintTy::U16)?;
    Ok(vec![in alloc; holds, first, second]?)
}

#[tactic(auto, using(goal_terms::proofs::TreeLemmas::tree_equations))]
/// The clause `<T as Tr>::A == TYPE`.
fn term_clause(alloc: Global, ty: UintTy) -> Result<Clause, AllocError>
    ensures { IfOk result (λ clause. tree_of_whole_clause clause ≡ param_term ty) }
{
    let alias = projection_of(alloc, A, Ty::Param(0))?;
    Ok(equation_clause(alias, Term::Ty(Ty::Uint(ty))))
}
