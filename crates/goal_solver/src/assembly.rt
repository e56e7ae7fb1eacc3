//! The candidates of goals of each kind, assembled and merged.
ghost use Rattle.std.specs.Prelude.{◌≡◌, suc, length, Some, None, IfOk, IsOkUnless};
ghost use Rattle.goal_lists.specs.Answers.{maybe};
ghost use Rattle.goal_solver.specs.Answers.{IsQuiet, IsQuietAside, IsFaultOf};
ghost use Rattle.goal_solver.specs.Assembling.{AnswersAsTrait, MergesAsTrait, AnswersAsHost, MergesAsHost, AnswersAsAlias, MergesAsAlias, MergesGiven, AppliesAssembled, goal_via, step};
ghost use Rattle.goal_solver.specs.Binding.{IsApplicable};
ghost use Rattle.goal_kinds.specs.Collecting.{kind_of};
ghost use Rattle.goal_solver.specs.GoingBack.{GoesBack, restored};
ghost use Rattle.goal_solver.specs.HostGoals.{AnswersHostGiven, host_with};
ghost use Rattle.goal_solver.specs.OpenAnswers.{MergesGoal};
ghost use Rattle.goal_solver.specs.OpenGoals.{WhenAnswered};
ghost use Rattle.goal_solver.specs.OpenHostGoals.{MergesConst};
ghost use Rattle.goal_solver.specs.Promises.{AnswersGiven, AnswersTraitAbove, AppliesGiven, IsClosedGoal, IsUndecidedResponse, given_through};
ghost use Rattle.goal_solver.specs.State.{kinds_of};

pub(crate) mod asked_goals;
pub(crate) mod formed_rules;
pub(crate) mod merged_rules;
pub(crate) mod more_special;
pub(crate) mod opened_self;

use crate::context::EvalCtxt;
use crate::effect_goals::proven_via::HostEffectThrough;
use crate::eval::closed_goals::has_variable;
use crate::faults::Fault;
use crate::normalizes_to::open::asks_open;
use goal_kinds::goal_kind::{GoalKind, MergeRule};
use goal_terms::answers::{Certainty, Response, TraitGoalProvenVia};
use goal_terms::predicates::Goal;

impl EvalCtxt<'_> {
    /// What the candidates of a goal at the remaining depth make it, which is the goal's answer one height above.
    /// A trait goal, also one with inference variables, is answered as [`EvalCtxt::compute_trait_goal`] would one
    /// above, and `proven_via` isn't read. For a projection `proven_via` is taken for the class through which its
    /// trait goal holds: `Yes` gives the term that the candidates then give, as the value of the goal's expected
    /// variable, `NoSolution` says that they give none, and `Maybe`, for a closed goal whose
    /// expected term is a general variable, that neither is so, at least of no type and no constant. Where the trait
    /// goal does hold through that class at the remaining depth, this is the alias's answer one above, as
    /// [`EvalCtxt::compute_normalizes_to_goal`] would give it. A projection with inference variables besides the
    /// expected one is answered by its candidates as that call does it once the trait goal holds. For a host effect
    /// goal `proven_via` is taken for the class through which its plain goal holds. Where that does hold through the
    /// class at the remaining depth, a closed goal is answered as [`EvalCtxt::compute_host_effect_goal`] would answer
    /// it one above; one with inference variables by its candidates, as that call does it. Without a class a
    /// projection and a host effect goal are `Maybe`. In the erased mode what is answered to a closed goal is so of
    /// each headline mode, as long as no access is recorded. The response to a closed goal lists the expected
    /// variable's value and lifetimes alone, and names no class but a trait goal's. Inference state, added goals and
    /// storage are as before.
    pub fn assemble_and_merge_candidates<G: GoalKind + Drop>(
        &mut self,
        proven_via: Option<TraitGoalProvenVia>,
        goal: &Goal<G>,
    ) -> Result<Response, Fault>
        ensures trait_goals { AnswersAsTrait G.words G.has_passing goal.now (step self.old self.new result) }
        ensures merged { MergesAsTrait (kind_of G.words G.has_fault) G.has_passing goal.now (step self.old self.new result) }
        ensures host_effects { AnswersAsHost G.words G.has_passing (goal_via goal.now proven_via) (step self.old self.new result) }
        ensures merged_host { MergesAsHost (kind_of G.words G.has_fault) G.has_passing (goal_via goal.now proven_via) (step self.old self.new result) }
        ensures given { AnswersAsAlias G.words G.normalization (goal_via goal.now proven_via) (step self.old self.new result) }
        ensures merged_through { MergesAsAlias (kind_of G.words G.has_fault) G.normalization (goal_via goal.now proven_via) (step self.old self.new result) }
        ensures applies { AppliesAssembled G.words G.normalization (goal_via goal.now proven_via) (step self.old self.new result) }
        ensures unchanged { self.new ≡ restored self.old self.new }
        ensures goes_back { GoesBack self.old self.new }
        ensures fault { IsFaultOf self.old self.new result }
    {
        match G::merge_rule() {
            MergeRule::TraitGoals => self.merge_trait_goal(goal),
            MergeRule::HostEffectGoals => match proven_via {
                None => Ok(self.undecided()),
                Some(class) => self.merge_host_effect(class, goal),
            },
            MergeRule::Projections => match proven_via {
                None => Ok(self.undecided()),
                Some(class) => self.merge_projection(class, goal),
            },
        }
    }

    /// What the candidates of a trait goal make it.
    fn merge_trait_goal<G: GoalKind + Drop>(&mut self, goal: &Goal<G>) -> Result<Response, Fault>
        ensures answers { IsClosedGoal G.has_passing goal.now → AnswersTraitAbove self.old self.new goal.now.param_env.items (G.words.asked goal.now.predicate self.old.tables) result }
        ensures unchanged { self.new ≡ restored self.old self.new }
        ensures goes_back { GoesBack self.old self.new }
        ensures fault { IsFaultOf self.old self.new result }
        ensures merged { (IsClosedGoal G.has_passing goal.now → ⊥) → WhenAnswered result (MergesGoal (kind_of G.words G.has_fault) goal.now self.old result self.new) }
        ensures applies { IfOk result (IsApplicable self.new) }
    {
        if has_variable(goal) {
            return self.merge_goal(goal);
        }
        let Some(asked) = goal.predicate.trait_ref(self.tables) else {
            return Ok(self.undecided());
        };
        let above = self.depth_above()?;
        self.answer_trait(asked.def_id, asked.args, &goal.param_env, above)
    }

    /// What the candidates of a host effect goal make it, if its plain goal holds through a class.
    fn merge_host_effect<G: GoalKind + Drop>(
        &mut self,
        class: TraitGoalProvenVia,
        goal: &Goal<G>,
    ) -> Result<Response, Fault>
        ensures host_effects { IsClosedGoal G.has_passing goal.now →
            AnswersHostGiven self.old self.new goal.now.param_env.items (host_with class (G.words.constness goal.now.predicate) (G.words.asked goal.now.predicate self.old.tables)) result }
        ensures merged { (IsClosedGoal G.has_passing goal.now → ⊥) → WhenAnswered result (MergesConst (kind_of G.words G.has_fault) class goal.now self.old result self.new) }
        ensures unchanged { self.new ≡ restored self.old self.new }
        ensures goes_back { GoesBack self.old self.new }
        ensures fault { IsFaultOf self.old self.new result }
        ensures applies { IfOk result (IsApplicable self.new) }
    {
        self.is_well_formed();
        if has_variable(goal) {
            return self.merge_const_goal(class, goal);
        }
        let Some(constness) = goal.predicate.constness() else {
            return Ok(self.undecided());
        };
        let Some(asked) = goal.predicate.trait_ref(self.tables) else {
            return Ok(self.undecided());
        };
        let through = HostEffectThrough {
            class,
            constness,
            asked,
        };
        self.answer_host_effect_through(&through, &goal.param_env)
    }

    /// What the candidates of a projection make it, if its trait goal holds through a class.
    fn merge_projection<G: GoalKind + Drop>(
        &mut self,
        class: TraitGoalProvenVia,
        goal: &Goal<G>,
    ) -> Result<Response, Fault>
        ensures given { AnswersGiven self.old self.new goal.now.param_env.items (given_through (Some class) (G.normalization goal.now.predicate)) result }
        ensures merged_through { MergesGiven (kind_of G.words G.has_fault) (given_through (Some class) (G.normalization goal.now.predicate)) goal.now (step self.old self.new result) }
        ensures applies { AppliesGiven self.old self.new goal.now.param_env.items (given_through (Some class) (G.normalization goal.now.predicate)) result }
        ensures unchanged { self.new ≡ restored self.old self.new }
        ensures goes_back { GoesBack self.old self.new }
        ensures fault { IsFaultOf self.old self.new result }
    {
        self.is_well_formed();
        let Some(asked) = goal.predicate.normalizes_to() else {
            return Ok(self.undecided());
        };
        if asks_open(asked, &goal.param_env) {
            return self.merge_through(class, asked, goal);
        }
        self.answer_through(class, asked, &goal.param_env)
    }

    /// One more than the remaining depth, which leaves room for it: no context has a depth above 128. Where it
    /// didn't, want of memory would be the refusal.
    fn depth_above(&self) -> Result<u32, Fault>
        ensures above { IfOk result (λ depth. depth ≡ suc self.now.remaining_depth) }
        ensures only_memory { IsOkUnless result Fault.OutOfMemory }
    {
        match self.remaining_depth.checked_add(1) {
            None => Err(Fault::OutOfMemory),
            Some(depth) => Ok(depth),
        }
    }

    /// The answer that leaves a goal undecided. It takes no memory.
    fn undecided(&self) -> Response
        ensures maybe { result.certainty ≡ Certainty.Maybe }
        ensures nothing { IsUndecidedResponse self.now result }
        ensures quiet { IsQuiet (length (kinds_of self.now)) result }
        ensures aside { IsQuietAside (length (kinds_of self.now)) result }
        ensures applies { IsApplicable self.now result }
    {
        self.is_well_formed();
        self.respond(Certainty::Maybe, None)
    }
}
