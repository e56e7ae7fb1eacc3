//! What an evaluation does with lifetimes; its other effects stay as they are.
ghost use Rattle.std.specs.Prelude.{◌≡◌, ◌<◌, ◌==◌, IfOk, IfSome, length};
ghost use Rattle.indexmap.specs.IndexMap.{get};
ghost use Rattle.goal_terms.specs.Erased.{erased};
ghost use Rattle.goal_interner.specs.TableMeaning.{AreBelow, tree_at, Keeps};
ghost use Rattle.goal_eval.specs.CacheEntries.{IsKeptAt};
ghost use Rattle.goal_eval.specs.Effects.{KeepsButRegions};
ghost use Rattle.goal_eval.specs.EvaluationCache.{consts_of};
ghost use Rattle.goal_eval.specs.declared.eval.outcomes.Found.{Found as founds};
ghost use Rattle.goal_lists.specs.declared.outcomes.Outcome.{Outcome as outcomes};
ghost use Rattle.goal_lists.specs.declared.outcomes.TraitOutcome.{TraitOutcome as trait_outcomes};

use crate::eval::effects::Effects;
use crate::eval::listed_regions::{KeptGoal, RegionMark};
use crate::eval::outcomes::Found;
use crate::eval::region_constraints::RegionConstraints;
use crate::relate::region_pairs::{equate_forms, equate_lists, equate_terms};
use goal_interner::term_nodes::{OutOfMemory, TermId};
use goal_interner::term_table::TermTable;
use goal_lists::outcomes::{Outcome, TraitOutcome};
use goal_terms::predicates::BoundConstness;
use goal_terms::terms::Region;

#[tactic(auto, unfolding(crate::specs::Effects::KeepsButRegions))]
impl Effects {
    /// Lists the lifetimes at equal places of two terms. Only memory is refused.
    pub fn equate_terms(
        &mut self,
        terms: &TermTable,
        left: TermId,
        right: TermId,
    ) -> Result<(), OutOfMemory>
        requires first { left.0 < length terms.now }
        requires second { right.0 < length terms.now }
        ensures aside { KeepsButRegions self.old self.new }
    {
        equate_terms(terms, &mut self.regions, left, right)
    }

    /// Lists the lifetimes at equal places of two lists of terms. Only memory is refused.
    pub(crate) fn equate_lists(
        &mut self,
        terms: &TermTable,
        left: &[TermId],
        right: &[TermId],
    ) -> Result<(), OutOfMemory>
        requires first { AreBelow (length terms.now) left.now }
        requires second { AreBelow (length terms.now) right.now }
        ensures aside { KeepsButRegions self.old self.new }
    {
        equate_lists(terms, &mut self.regions, left, right)
    }

    /// Lists the lifetimes at equal places of two head forms. Only memory is refused.
    pub(crate) fn equate_forms(
        &mut self,
        terms: &TermTable,
        left: TermId,
        right: TermId,
    ) -> Result<(), OutOfMemory>
        requires first { left.0 < length terms.now }
        requires second { right.0 < length terms.now }
        ensures aside { KeepsButRegions self.old self.new }
    {
        equate_forms(terms, &mut self.regions, left, right)
    }

    /// The lifetime that an impl has for a parameter of its own. Only memory is refused.
    pub(crate) fn own_lifetime(&mut self) -> Result<Region, OutOfMemory>
        ensures aside { KeepsButRegions self.old self.new }
    {
        self.regions.own_lifetime()
    }

    /// The number of a term with a fresh region variable for each erased lifetime in it. Only memory is refused.
    pub(crate) fn with_fresh_lifetimes(
        &mut self,
        terms: &mut TermTable,
        id: TermId,
    ) -> Result<TermId, OutOfMemory>
        requires { id.0 < length terms.old }
        ensures aside { KeepsButRegions self.old self.new }
        ensures kept { Keeps terms.old terms.new }
        ensures within { IfOk result (λ r. r.0 < length terms.new) }
        ensures same { IfOk result (λ r. erased (tree_at terms.new r) ≡ erased (tree_at terms.old id)) }
    {
        self.regions.with_fresh_lifetimes(terms, id)
    }

    /// Takes back what was listed since a list began, unless the list holds.
    pub(crate) fn end_list(&mut self, before: RegionMark, outcome: Outcome)
        ensures aside { KeepsButRegions self.old self.new }
    {
        match outcome {
            Outcome::Holds => {}
            Outcome::Refuted | Outcome::Undecided => self.regions.cut(before),
        }
    }

    /// Takes back what impls have listed that are more special than a candidate: what was listed since its own list
    /// came to an end. Unless each of them is refuted, the candidate doesn't decide, and what it has listed since it
    /// began is taken back, too.
    pub(crate) fn end_special(&mut self, before: RegionMark, own: RegionMark, more_special: Outcome)
        ensures aside { KeepsButRegions self.old self.new }
    {
        match more_special {
            Outcome::Refuted => self.regions.cut(own),
            Outcome::Holds | Outcome::Undecided => self.regions.cut(before),
        }
    }

    /// Takes back what was listed since a candidate began, if an earlier one that gives the term decides.
    pub(crate) fn end_candidate(&mut self, before: RegionMark, decided: bool)
        ensures aside { KeepsButRegions self.old self.new }
    {
        if decided {
            self.regions.cut(before);
        }
    }

    /// Lists nothing from here on, and tells whether something was.
    pub(crate) fn leave_out_regions(&mut self) -> bool
        ensures aside { KeepsButRegions self.old self.new }
    {
        self.regions.leave_out()
    }

    /// Lists again, if something was listed before.
    pub(crate) fn list_regions_again(&mut self, lists: bool)
        ensures aside { KeepsButRegions self.old self.new }
    {
        self.regions.list_again(lists);
    }

    /// Begins a goal whose answer is going to be kept.
    pub(crate) fn begin_goal(&mut self) -> RegionMark
        ensures aside { KeepsButRegions self.old self.new }
    {
        self.regions.begin()
    }

    /// Ends such a goal: what was listed since is kept where it holds, and else taken back. Only memory is refused.
    pub(crate) fn end_goal(
        &mut self,
        goal: KeptGoal,
        before: RegionMark,
        outcome: Outcome,
    ) -> Result<(), OutOfMemory>
        ensures aside { KeepsButRegions self.old self.new }
    {
        let holds = match outcome {
            Outcome::Holds => true,
            Outcome::Refuted | Outcome::Undecided => false,
        };
        self.regions.end(goal, before, holds)
    }

    /// What a trait goal comes to at a depth, if that is known with what it lists, which is listed. Only memory is
    /// refused.
    pub(crate) fn known_trait(
        &mut self,
        goal: TermId,
        depth: u32,
    ) -> Result<Option<TraitOutcome>, OutOfMemory>
        ensures known { IfOk result (λ o. IfSome o (λ x. IsKeptAt (get ◌==◌ self.old.cache.traits.entries goal.0) depth trait_outcomes.Undecided x)) }
        ensures aside { KeepsButRegions self.old self.new }
    {
        let undecided = TraitOutcome::Undecided;
        let Some(known) = self.cache.traits.get(goal, depth, undecided) else {
            return Ok(None);
        };
        if self.lists_known(KeptGoal::Plain(goal), known.held())? {
            return Ok(Some(known));
        }
        Ok(None)
    }

    /// What a const trait goal comes to, as `known_trait` says it of a trait goal.
    pub(crate) fn known_const(
        &mut self,
        constness: BoundConstness,
        goal: TermId,
        depth: u32,
    ) -> Result<Option<Outcome>, OutOfMemory>
        ensures known { IfOk result (λ o. IfSome o (λ x. IsKeptAt (get ◌==◌ (consts_of self.old.cache constness).entries goal.0) depth outcomes.Undecided x)) }
        ensures aside { KeepsButRegions self.old self.new }
    {
        let Some(known) = self.cache.const_outcome(constness, goal, depth) else {
            return Ok(None);
        };
        if self.lists_known(KeptGoal::Const(constness, goal), known)? {
            return Ok(Some(known));
        }
        Ok(None)
    }

    /// What was found for an alias, as `known_trait` says it of a trait goal.
    pub(crate) fn known_alias(
        &mut self,
        alias: TermId,
        depth: u32,
    ) -> Result<Option<Found>, OutOfMemory>
        ensures known { IfOk result (λ o. IfSome o (λ x. IsKeptAt (get ◌==◌ self.old.cache.aliases.entries alias.0) depth founds.Undecided x)) }
        ensures aside { KeepsButRegions self.old self.new }
    {
        let Some(known) = self.cache.aliases.get(alias, depth, Found::Undecided) else {
            return Ok(None);
        };
        if self.lists_known(KeptGoal::Plain(alias), known.held())? {
            return Ok(Some(known));
        }
        Ok(None)
    }

    /// Lists what belongs to the known answer of a goal. It is no where that was left out when the goal was answered.
    fn lists_known(&mut self, goal: KeptGoal, outcome: Outcome) -> Result<bool, OutOfMemory>
        ensures aside { KeepsButRegions self.old self.new }
    {
        match outcome {
            Outcome::Holds => self.regions.list_kept(goal),
            Outcome::Refuted | Outcome::Undecided => Ok(true),
        }
    }

    /// What was listed, as an answer lists it, in place of what an earlier run listed. Only memory is refused.
    pub fn list_regions(&self, listed: &mut RegionConstraints) -> Result<(), OutOfMemory> {
        *listed = self.regions.constraints()?;
        Ok(())
    }
}

impl Found {
    /// Whether a term is found.
    pub(crate) fn held(self) -> Outcome {
        match self {
            Found::Is(_) => Outcome::Holds,
            Found::Refuted => Outcome::Refuted,
            Found::Undecided => Outcome::Undecided,
        }
    }
}
