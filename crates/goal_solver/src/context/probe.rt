//! Trying something out in a context.
ghost use Rattle.std.specs.Prelude.{◌≡◌};
ghost use Rattle.std.specs.Fn.{FnOnceReturnsAtMut};
ghost use Rattle.goal_solver.specs.GoingBack.{GoesBack, restored, begun};
ghost use Rattle.goal_solver.specs.State.{State};

use crate::context::EvalCtxt;
use crate::faults::Fault;

impl<'t> EvalCtxt<'t> {
    /// What `f` answers. Inference state, added goals and storage are as before, whatever it answers;
    /// accesses, delayed faults and the numbers of terms stay. It takes no memory of its own. `f` must
    /// leave a context that goes back to the one that it was handed, as every call on a context does.
    pub fn probe<R, F: FnOnce(&mut EvalCtxt<'t>) -> Result<R, Fault>>(
        &mut self,
        f: F,
    ) -> Result<R, Fault>
        requires callable { F.IsAlwaysCallable f }
        requires restores { (r : _) (after : State) → FnOnceReturnsAtMut F.FnOnce f (begun self.old) r after → GoesBack (begun self.old) after }
        ensures restored { self.new ≡ restored self.old self.new }
        ensures answer { (after : State) × FnOnceReturnsAtMut F.FnOnce f (begun self.old) result after × (self.new ≡ restored self.old after) }
        ensures goes_back { GoesBack self.old self.new }
    {
        self.holds_together();
        let before = self.snapshot();
        let around = self.begin();
        let answered = f(self);
        self.rollback(before);
        self.end(around);
        answered
    }
}
