//! The goals that were added to a context.
ghost use Rattle.std.specs.Prelude.{◌≡◌, ◌∷◌, [], OnOk, OnErr, IsOkUnless};
ghost use Rattle.goal_solver.specs.GoingBack.{GoesBack};
ghost use Rattle.goal_solver.specs.Added.{has_goals, with_goals};

use crate::context::EvalCtxt;
use crate::faults::Fault;
use goal_terms::answers::GoalSource;
use goal_terms::predicates::{Goal, Predicate};

impl EvalCtxt<'_> {
    /// Adds a goal after those that were added before. Only memory is refused; then nothing is added.
    pub fn add_goal(&mut self, source: GoalSource, goal: Goal<Predicate>) -> Result<(), Fault>
        ensures added { OnOk result (self.new ≡ with_goals ((source, goal) ∷ []) self.old) }
        ensures unchanged { OnErr result (self.new ≡ self.old) }
        ensures goes_back { GoesBack self.old self.new }
        ensures only_memory { IsOkUnless result Fault.OutOfMemory }
    {
        if self.goals.push((source, goal)).is_err() {
            return Err(Fault::OutOfMemory);
        }
        Ok(())
    }

    /// Adds goals after those that were added before, in their order. Only memory is refused; then
    /// none is added.
    pub fn add_goals(&mut self, goals: Vec<(GoalSource, Goal<Predicate>)>) -> Result<(), Fault>
        ensures added { OnOk result (self.new ≡ with_goals goals.items self.old) }
        ensures unchanged { OnErr result (self.new ≡ self.old) }
        ensures goes_back { GoesBack self.old self.new }
        ensures only_memory { IsOkUnless result Fault.OutOfMemory }
    {
        let mut added = goals;
        if self.goals.append(&mut added).is_err() {
            return Err(Fault::OutOfMemory);
        }
        Ok(())
    }

    /// Whether there are goals that were added and not taken out.
    pub(crate) fn has_goals(&self) -> bool
        ensures { result ≡ has_goals self.now }
    {
        self.taken.len() < self.goals.len()
    }
}
