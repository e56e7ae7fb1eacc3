//! Goals that an alias and a term are equal.
ghost use Rattle.std.specs.Prelude.{◌≡◌, ◌<◌, ℕ, suc, IfOk};
ghost use Rattle.goal_lists.specs.Answers.{whether};
ghost use Rattle.goal_solver.specs.Accesses.{RecordsCaused, RecordsCausedFaults};
ghost use Rattle.goal_solver.specs.Answers.{IsFaultOf};
ghost use Rattle.goal_solver.specs.Binding.{IsApplicable};
ghost use Rattle.goal_solver.specs.GoingBack.{GoesBack, restored, at_depth};
ghost use Rattle.goal_solver.specs.OpenGoals.{WhenAnswered};
ghost use Rattle.goal_solver.specs.OpenProjections.{RunsEquation};
ghost use Rattle.goal_solver.specs.Promises.{AnswersProjection, IsClosedProjection, LeavesUndecided, MergesOpenEquation, NoTwoDisagree, equation_asked};
ghost use Rattle.goal_solver.specs.Relating.{IsFaultFor};

use crate::context::EvalCtxt;
use crate::eval::closed_goals::has_variable;
use crate::eval::predicate_views::PredicateView;
use crate::faults::Fault;
use goal_kinds::rules::projections::projection_rule;
use goal_terms::answers::{Certainty, Response};
use goal_terms::predicates::{Goal, ProjectionPredicate};

impl EvalCtxt<'_> {
    /// Whether an alias and a term are equal, lifetimes aside. `Yes`: a derivation no higher than the remaining
    /// depth shows it. `NoSolution`: a refutation no higher does. `Maybe`, for a closed goal: there is neither. What
    /// is decided stays so at every greater depth. That is so in the context's own mode; in the erased one it is so
    /// of each headline mode, too, as long as no access is recorded. No two answers at any depths disagree.
    ///
    /// A goal with inference variables is answered at one less of the depth, as [`EvalCtxt::eq`] answers it for the
    /// alias and the term: `Yes` lists what was bound. `NoSolution`: the two can't be made equal.
    ///
    /// In the erased mode an access is recorded where a rule reads the mode, and an opaque type stays as it is.
    /// `RerunNonErased`: the erased mode doesn't suffice; an access is recorded. Inference state, added goals and
    /// storage are as before; the answer can be applied, lists lifetimes alone, as that of a trait goal does, and names
    /// no class. At depth 0 it is `Maybe`, which takes no memory.
    pub fn compute_projection_goal(
        &mut self,
        goal: &Goal<ProjectionPredicate>,
    ) -> Result<Response, Fault>
        ensures closed { IsClosedProjection goal.now → AnswersProjection self.old self.new goal.now.param_env.items goal.now.predicate result }
        ensures merged { (IsClosedProjection goal.now → ⊥) → MergesOpenEquation self.old self.new goal.now result }
        ensures at_once { self.old.remaining_depth ≡ 0 → LeavesUndecided self.old result }
        ensures agrees { NoTwoDisagree self.old.tables goal.now.param_env.items (whether (equation_asked goal.now.predicate)) }
        ensures unchanged { self.new ≡ restored self.old self.new }
        ensures goes_back { GoesBack self.old self.new }
        ensures fault { IsFaultOf self.old self.new result }
        ensures caused { IsClosedProjection goal.now → RecordsCaused self.old self.new }
        ensures faults { IsClosedProjection goal.now → RecordsCausedFaults self.old self.new }
        ensures applies { IfOk result (IsApplicable self.new) }
    {
        if has_variable(goal) {
            return self.equation_response(goal);
        }
        let asked = PredicateView::Projection(&goal.predicate);
        self.answer_predicate(asked, &goal.param_env)
    }

    /// What is answered to a goal with inference variables. At depth 0 that is undecided.
    fn equation_response(&mut self, goal: &Goal<ProjectionPredicate>) -> Result<Response, Fault>
        ensures merged { MergesOpenEquation self.old self.new goal.now result }
        ensures at_once { self.old.remaining_depth ≡ 0 → LeavesUndecided self.old result }
        ensures applies { IfOk result (IsApplicable self.new) }
        ensures unchanged { self.new ≡ restored self.old self.new }
        ensures goes_back { GoesBack self.old self.new }
        ensures fault { IsFaultFor self.old self.new result }
    {
        self.is_well_formed();
        if self.remaining_depth() == 0 {
            return Ok(self.respond(Certainty::Maybe, None));
        }
        self.equate_below(goal)
    }

    /// What a goal with inference variables is answered: its alias and its term are made equal, at one less of the
    /// depth, in a trial. Inference state, added goals and storage are as before.
    fn equate_below(&mut self, goal: &Goal<ProjectionPredicate>) -> Result<Response, Fault>
        requires positive { 0 < self.old.remaining_depth }
        ensures runs { (n : ℕ) → self.old.remaining_depth ≡ suc n → WhenAnswered result (RunsEquation goal.now (at_depth n self.old) result (at_depth n self.new)) }
        ensures applies { IfOk result (IsApplicable self.new) }
        ensures unchanged { self.new ≡ restored self.old self.new }
        ensures goes_back { GoesBack self.old self.new }
        ensures fault { IsFaultFor self.old self.new result }
    {
        self.holds_together();
        let depth = self.remaining_depth;
        self.remaining_depth = depth - 1;
        let answer = self.run_equation(goal);
        self.remaining_depth = depth;
        answer
    }

    /// Runs the list of such a goal.
    fn run_equation(&mut self, goal: &Goal<ProjectionPredicate>) -> Result<Response, Fault>
        ensures runs { WhenAnswered result (RunsEquation goal.now self.old result self.new) }
        ensures applies { IfOk result (IsApplicable self.new) }
        ensures unchanged { self.new ≡ restored self.old self.new }
        ensures goes_back { GoesBack self.old self.new }
        ensures fault { IsFaultFor self.old self.new result }
    {
        let rule = projection_rule(self.tables, goal)?;
        self.run_open(&goal.param_env, &rule.entries)
    }
}
