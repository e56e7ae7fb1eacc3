//! Goals that a trait holds as a const trait.
ghost use Rattle.std.specs.Prelude.{◌≡◌, IfOk};
ghost use Rattle.goal_lists.specs.Answers.{whether};
ghost use Rattle.goal_solver.specs.Accesses.{RecordsCaused, RecordsCausedFaults};
ghost use Rattle.goal_solver.specs.Answers.{IsFaultOf};
ghost use Rattle.goal_solver.specs.Binding.{IsApplicable};
ghost use Rattle.goal_solver.specs.GoingBack.{GoesBack, restored};
ghost use Rattle.goal_solver.specs.Promises.{AnswersHostEffect, IsClosedHostEffect, LeavesUndecided, MergesOpenHostEffect, NoTwoDisagree, const_asked};

pub(crate) mod open;
pub(crate) mod proven_via;

use crate::context::EvalCtxt;
use crate::eval::closed_goals::has_variable;
use crate::eval::predicate_views::PredicateView;
use crate::faults::Fault;
use goal_terms::answers::Response;
use goal_terms::predicates::{Goal, HostEffectPredicate};

impl EvalCtxt<'_> {
    /// Whether a trait holds as a const trait, of the goal's constness. `Yes`: a derivation no higher than the
    /// remaining depth shows it; then the plain goal holds too, and the goal of `[const]` is refuted nowhere where
    /// this one is of `const`. `NoSolution`: a refutation no higher does. `Maybe`, for a closed goal: there is
    /// neither. What is decided stays so at every greater depth. That is so in the context's own mode; in the erased
    /// one it is so of each headline mode, too, as long as no access is recorded. No two answers at any depths
    /// disagree.
    ///
    /// A goal with inference variables is answered at one less of the depth: by its plain goal, whose refusal is the
    /// answer, and which leaves it undecided where it is. Else by its candidates for the head form of the self type:
    /// those of the environment come first; then the bounds of the self type, if the plain goal holds by the
    /// environment or a bound, and all others together, if it holds by the rest. Of the first of these that isn't wholly
    /// refused, all that aren't refused must have the same response, which is the answer; else it is `Maybe`.
    /// Where all are refused it is `NoSolution`.
    ///
    /// In the erased mode an access is recorded where a rule reads the mode, and an opaque type stays as it is.
    /// `RerunNonErased`: the erased mode doesn't suffice; an access is recorded. Inference state, added goals and
    /// storage are as before; the answer can be applied, lists lifetimes alone, as that of a trait goal does, and names
    /// no class. At depth 0 it is `Maybe`, which takes no memory.
    pub fn compute_host_effect_goal(
        &mut self,
        goal: &Goal<HostEffectPredicate>,
    ) -> Result<Response, Fault>
        ensures closed { IsClosedHostEffect goal.now → AnswersHostEffect self.old self.new goal.now.param_env.items goal.now.predicate result }
        ensures merged { (IsClosedHostEffect goal.now → ⊥) → MergesOpenHostEffect self.old self.new goal.now result }
        ensures at_once { self.old.remaining_depth ≡ 0 → LeavesUndecided self.old result }
        ensures agrees { NoTwoDisagree self.old.tables goal.now.param_env.items (whether (const_asked goal.now.predicate)) }
        ensures unchanged { self.new ≡ restored self.old self.new }
        ensures goes_back { GoesBack self.old self.new }
        ensures fault { IsFaultOf self.old self.new result }
        ensures caused { IsClosedHostEffect goal.now → RecordsCaused self.old self.new }
        ensures faults { IsClosedHostEffect goal.now → RecordsCausedFaults self.old self.new }
        ensures applies { IfOk result (IsApplicable self.new) }
    {
        if has_variable(goal) {
            return self.const_goal_response(goal);
        }
        let asked = PredicateView::HostEffect(&goal.predicate);
        self.answer_predicate(asked, &goal.param_env)
    }
}
