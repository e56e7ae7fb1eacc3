//! Goals with inference variables that a trait holds as a const trait.
ghost use Rattle.std.specs.Prelude.{◌≡◌, ◌<◌, ℕ, suc, Option, Result, Err, IfOk, IfSome, IsOkUnless};
ghost use Rattle.goal_solver.specs.Binding.{IsApplicable};
ghost use Rattle.goal_kinds.specs.Collecting.{kind_of};
ghost use Rattle.goal_solver.specs.GoingBack.{GoesBack, restored, at_depth};
ghost use Rattle.goal_solver.specs.OpenGoals.{WhenAnswered};
ghost use Rattle.goal_solver.specs.OpenHostGoals.{ByRuleGroups, GroupAnswers, host_kind, IsPlain, MergesConst, MergesHostEffect, rules_of_groups};
ghost use Rattle.goal_solver.specs.Promises.{LeavesUndecided, MergesOpenHostEffect};
ghost use Rattle.goal_solver.specs.Relating.{IsFaultFor};
ghost use Rattle.goal_solver.specs.State.{State as state};

use crate::assembly::asked_goals::AskedGoal;
use crate::assembly::formed_rules::Merging;
use crate::assembly::merged_rules::Merged;
use crate::context::EvalCtxt;
use crate::context::respond::copied_args;
use crate::eval::where_goals::copied_clauses;
use crate::faults::Fault;
use crate::normalizes_to::open::proven_class;
use goal_kinds::assembly::group_rules::GroupRules;
use goal_kinds::goal_kind::GoalKind;
use goal_kinds::rules::Rule;
use goal_terms::answers::{Certainty, Response, TraitGoalProvenVia};
use goal_terms::predicates::{Clause, Goal, HostEffectPredicate, TraitPredicate, TraitRef};

impl EvalCtxt<'_> {
    /// What `compute_host_effect_goal` answers to a goal with inference variables. At depth 0 that is undecided.
    pub(crate) fn const_goal_response(
        &mut self,
        goal: &Goal<HostEffectPredicate>,
    ) -> Result<Response, Fault>
        ensures merged { MergesOpenHostEffect self.old self.new goal.now result }
        ensures at_once { self.old.remaining_depth ≡ 0 → LeavesUndecided self.old result }
        ensures applies { IfOk result (IsApplicable self.new) }
        ensures unchanged { self.new ≡ restored self.old self.new }
        ensures goes_back { GoesBack self.old self.new }
        ensures fault { IsFaultFor self.old self.new result }
    {
        self.is_well_formed();
        if self.remaining_depth() == 0 {
            return Ok(self.respond(Certainty::Maybe, None));
        }
        self.hold_const_below(goal)
    }

    /// What a host effect goal with inference variables is answered, at one less of the depth: by its plain trait
    /// goal, and then by its candidates. Inference state, added goals and storage are as before.
    #[cycle(open)]
    pub(crate) fn hold_const_below(
        &mut self,
        goal: &Goal<HostEffectPredicate>,
    ) -> Result<Response, Fault>
        requires positive { 0 < self.old.remaining_depth }
        ensures merges { (n : ℕ) → self.old.remaining_depth ≡ suc n → WhenAnswered result (MergesHostEffect goal.now (at_depth n self.old) result (at_depth n self.new)) }
        ensures applies { IfOk result (IsApplicable self.new) }
        ensures unchanged { self.new ≡ restored self.old self.new }
        ensures goes_back { GoesBack self.old self.new }
        ensures fault { IsFaultFor self.old self.new result }
    {
        self.holds_together();
        let depth = self.remaining_depth;
        self.remaining_depth = depth - 1;
        let answer = self.hold_const(goal);
        self.remaining_depth = depth;
        answer
    }

    /// What such a goal is answered at the remaining depth. Its plain trait goal is answered first: its refusal is
    /// the answer, and where it is undecided so is the goal.
    #[cycle(open)]
    fn hold_const(&mut self, goal: &Goal<HostEffectPredicate>) -> Result<Response, Fault>
        ensures merges { WhenAnswered result (MergesHostEffect goal.now self.old result self.new) }
        ensures applies { IfOk result (IsApplicable self.new) }
        ensures unchanged { self.new ≡ restored self.old self.new }
        ensures goes_back { GoesBack self.old self.new }
        ensures fault { IsFaultFor self.old self.new result }
    {
        self.is_well_formed();
        if self.remaining_depth() == 0 {
            return Ok(self.respond(Certainty::Maybe, None));
        }
        let plain = plain_goal(goal)?;
        let answer = self.merge_below(&plain)?;
        match proven_class(&answer) {
            None => Ok(self.respond(Certainty::Maybe, None)),
            Some(class) => self.merge_const_through(class, goal),
        }
    }

    /// What the candidates of a host effect goal make of it at the remaining depth, if its plain goal holds through
    /// a class. Inference state, added goals and storage are as before.
    #[cycle(open)]
    fn merge_const_through(
        &mut self,
        class: TraitGoalProvenVia,
        goal: &Goal<HostEffectPredicate>,
    ) -> Result<Response, Fault>
        ensures merges { WhenAnswered result (MergesConst host_kind class goal.now self.old result self.new) }
        ensures applies { IfOk result (IsApplicable self.new) }
        ensures unchanged { self.new ≡ restored self.old self.new }
        ensures goes_back { GoesBack self.old self.new }
        ensures fault { IsFaultFor self.old self.new result }
    {
        match self.considered_groups(class, goal)? {
            None => self.merge_open(AskedGoal::HostEffect(class, goal)),
            Some(rules) => self.merge_const_groups(&rules),
        }
    }

    /// The same of a goal of a kind.
    pub(crate) fn merge_const_goal<G: GoalKind + Drop>(
        &mut self,
        class: TraitGoalProvenVia,
        goal: &Goal<G>,
    ) -> Result<Response, Fault>
        ensures merges { WhenAnswered result (MergesConst (kind_of G.words G.has_fault) class goal.now self.old result self.new) }
        ensures applies { IfOk result (IsApplicable self.new) }
        ensures unchanged { self.new ≡ restored self.old self.new }
        ensures goes_back { GoesBack self.old self.new }
        ensures fault { IsFaultFor self.old self.new result }
    {
        match self.considered_groups(class, goal)? {
            None => self.merge_open_goal(Merging::Groups(class), goal),
            Some(rules) => self.merge_const_groups(&rules),
        }
    }

    /// What the groups of candidates make of a host effect goal: the first that isn't wholly refused decides.
    #[cycle(open)]
    pub(crate) fn merge_const_groups(&mut self, rules: &GroupRules) -> Result<Response, Fault>
        ensures decides { WhenAnswered result (ByRuleGroups rules.now.param_env.items (rules_of_groups rules.now) self.old result self.new) }
        ensures applies { IfOk result (IsApplicable self.new) }
        ensures unchanged { self.new ≡ restored self.old self.new }
        ensures goes_back { GoesBack self.old self.new }
        ensures fault { IsFaultFor self.old self.new result }
    {
        if let Some(answer) = self.group_answer(&rules.param_env, &rules.environment)? {
            return Ok(answer);
        }
        if let Some(answer) = self.group_answer(&rules.param_env, &rules.later)? {
            return Ok(answer);
        }
        Err(Fault::NoSolution)
    }

    /// What a group of candidates answers to a goal, by its rules: nothing where all of them are refused.
    #[cycle(open)]
    fn group_answer(
        &mut self,
        environment: &[Clause],
        rules: &[Rule],
    ) -> Result<Option<Response>, Fault>
        ensures answers { IfOk result (λ a. GroupAnswers environment.now rules.now self.old a self.new) }
        ensures applies { IfOk result (λ a. IfSome a (IsApplicable self.new)) }
        ensures never { result ≡ Err Fault.NoSolution → ⊥ }
        ensures unchanged { self.new ≡ restored self.old self.new }
        ensures goes_back { GoesBack self.old self.new }
        ensures fault { IsFaultFor self.old self.new result }
    {
        self.is_well_formed();
        match self.merge_rules(environment, rules)? {
            Merged::Refuted => Ok(None),
            Merged::Answered(response) => Ok(Some(response)),
            Merged::Split => Ok(Some(self.respond(Certainty::Maybe, None))),
        }
    }
}

/// The goal that the trait holds, in the same environment.
fn plain_goal(goal: &Goal<HostEffectPredicate>) -> Result<Goal<TraitPredicate>, Fault>
    ensures plain { IfOk result (IsPlain goal.now) }
    ensures only_memory { IsOkUnless result Fault.OutOfMemory }
{
    let alloc = *goal.param_env.allocator();
    let Ok(param_env) = copied_clauses(alloc, &goal.param_env) else {
        return Err(Fault::OutOfMemory);
    };
    let held = &goal.predicate.trait_ref;
    let Ok(args) = copied_args(alloc, &held.args) else {
        return Err(Fault::OutOfMemory);
    };
    let def_id = held.def_id;
    let trait_ref = TraitRef { def_id, args };
    let predicate = TraitPredicate { trait_ref };
    Ok(Goal {
        param_env,
        predicate,
    })
}
