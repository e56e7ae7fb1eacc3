//! Goals of opaque types that are being defined.
ghost use Rattle.std.specs.Prelude.{◌≡◌, ◌<◌, true, Some, IfOk};
ghost use Rattle.goal_lists.specs.OpaqueUses.{first_use_of};
ghost use Rattle.goal_lists.specs.declared.lists.FirstUse.{FirstUse};
ghost use Rattle.goal_solver.specs.Binding.{IsApplicable};
ghost use Rattle.goal_solver.specs.GoingBack.{GoesBack, restored};
ghost use Rattle.goal_solver.specs.OpenGoals.{WhenAnswered};
ghost use Rattle.goal_solver.specs.Promises.{RunsHidden, is_defined, IsFirstUse, RunsWhereDefined};
ghost use Rattle.goal_solver.specs.Relating.{IsFaultFor};

use crate::context::EvalCtxt;
use crate::eval::closed_goals::is_closed_alias;
use crate::faults::Fault;
use goal_kinds::rules::aliases::alias_rule;
use goal_lists::lists::opaque_uses::first_use_of;
use goal_terms::answers::Response;
use goal_terms::node_tests::general_variable;
use goal_terms::predicates::{Goal, NormalizesTo};

impl EvalCtxt<'_> {
    /// Whether the goal is one of an opaque type that the mode defines, without other variables than the expected
    /// one, and there is a depth for it.
    pub(crate) fn defines(&self, goal: &Goal<NormalizesTo>) -> bool
        ensures { result ≡ is_defined self.now goal.now }
    {
        let asked = &goal.predicate;
        self.remaining_depth > 0
            && general_variable(asked.term.view().node()).is_some()
            && is_closed_alias(&asked.alias, &goal.param_env)
            && first_use_of(self.tables.rows(), &self.typing_mode, asked.alias.kind).is_some()
    }

    /// What such a goal is answered, at one less of the depth. Inference state, added goals and storage are as
    /// before.
    pub(crate) fn define_below(&mut self, goal: &Goal<NormalizesTo>) -> Result<Response, Fault>
        requires defined { is_defined self.old goal.now ≡ true }
        ensures runs { RunsWhereDefined self.old self.new goal.now result }
        ensures applies { IfOk result (IsApplicable self.new) }
        ensures unchanged { self.new ≡ restored self.old self.new }
        ensures goes_back { GoesBack self.old self.new }
        ensures fault { IsFaultFor self.old self.new result }
    {
        self.holds_together();
        let depth = self.remaining_depth;
        self.remaining_depth = depth - 1;
        let answer = self.run_definition(goal);
        self.remaining_depth = depth;
        answer
    }

    /// Runs the list of an opaque type that the mode defines.
    fn run_definition(&mut self, goal: &Goal<NormalizesTo>) -> Result<Response, Fault>
        requires kind { (f : FirstUse) × (first_use_of self.old.tables self.old.typing_mode goal.now.predicate.alias.kind ≡ Some f) }
        ensures runs { (f : FirstUse) → IsFirstUse self.old goal.now f → WhenAnswered result (RunsHidden goal.now f self.old result self.new) }
        ensures applies { IfOk result (IsApplicable self.new) }
        ensures unchanged { self.new ≡ restored self.old self.new }
        ensures goes_back { GoesBack self.old self.new }
        ensures fault { IsFaultFor self.old self.new result }
    {
        let rule = alias_rule(self.tables, &self.typing_mode, goal)?;
        self.run_open(&goal.param_env, &rule.entries)
    }
}
