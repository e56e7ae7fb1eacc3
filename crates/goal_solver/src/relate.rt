//! Equating terms in a context.
ghost use Rattle.std.specs.Prelude.{◌≡◌, ◌∷◌, [], OnErr};
ghost use Rattle.goal_terms.specs.TreeOf.{tree_of_term, trees_of};
ghost use Rattle.goal_lists.specs.Interned.{AreIn};
ghost use Rattle.goal_solver.specs.Accesses.{RecordsCausedFaults};
ghost use Rattle.goal_solver.specs.Equating.{IsEquated, equation, equation_at, certainty_of};
ghost use Rattle.goal_solver.specs.GoingBack.{GoesBack, restored};
ghost use Rattle.goal_solver.specs.Relating.{ChangesRecords};
ghost use Rattle.goal_solver.specs.Relating.{IsFaultFor};

pub(crate) mod headers;
pub(crate) mod lifetimes;
pub(crate) mod lists;
pub(crate) mod resolved;

use crate::context::EvalCtxt;
use crate::faults::Fault;
use goal_eval::eval::interning::{intern_args, intern_pair};
use goal_eval::eval::outcomes::Stop;
use goal_interner::term_nodes::TermId;
use goal_lists::outcomes::Outcome;
use goal_terms::answers::Certainty;
use goal_terms::predicates::Clause;
use goal_terms::terms::{GenericArg, Term};

impl EvalCtxt<'_> {
    /// Makes two terms equal, at the remaining depth. A variable is bound where the terms can be the same in no
    /// other way, two terms of one constructor are compared part by part, and an alias and another term are
    /// compared by their head forms where both and the environment hold no variable. Bindings are followed. Where
    /// the terms are then identical, lifetimes aside, the lifetimes at equal places are equated, from left to
    /// right, with fresh region variables for those that a binder in the terms binds.
    ///
    /// `Yes`: the terms are equal, whatever stands for the variables that are unbound then. `Maybe`: an alias, or
    /// a variable that wasn't made, stands in the way, or a rule reads the mode; what was bound is so wherever
    /// the terms are the same. In coherence only terms that never unify are refused.
    ///
    /// `NoSolution`: the terms are unequal, or can't be made identical. `RerunNonErased`: the erased mode doesn't
    /// suffice. `OutOfMemory`: a growth was refused. After each of these inference state, added goals and
    /// hidden types are as before. `NotForThisKind` is never answered.
    pub fn eq(
        &mut self,
        environment: &[Clause],
        left: &Term,
        right: &Term,
    ) -> Result<Certainty, Fault>
        ensures equated { IsEquated self.old self.new (equation environment.now (tree_of_term left.now ∷ []) (tree_of_term right.now ∷ [])) result }
        ensures alone { ChangesRecords self.old self.new }
        ensures unchanged { OnErr result (self.new ≡ restored self.old self.new) }
        ensures faults { RecordsCausedFaults self.old self.new }
        ensures goes_back { GoesBack self.old self.new }
        ensures fault { IsFaultFor self.old self.new result }
    {
        self.holds_together();
        let Ok((first, second)) = intern_pair(&mut self.terms, left, right) else {
            return Err(Fault::OutOfMemory);
        };
        self.equate(environment, &[first], &[second])
    }

    /// Makes two lists of arguments equal in pairs, from left to right, as `eq` does two terms: each pair under the
    /// bindings that came of those before it. Lists that differ in length are unequal. Two lifetimes always are
    /// equal, and are equated.
    pub fn eq_args(
        &mut self,
        environment: &[Clause],
        left: &[GenericArg],
        right: &[GenericArg],
    ) -> Result<Certainty, Fault>
        ensures equated { IsEquated self.old self.new (equation environment.now (trees_of left.now) (trees_of right.now)) result }
        ensures alone { ChangesRecords self.old self.new }
        ensures unchanged { OnErr result (self.new ≡ restored self.old self.new) }
        ensures faults { RecordsCausedFaults self.old self.new }
        ensures goes_back { GoesBack self.old self.new }
        ensures fault { IsFaultFor self.old self.new result }
    {
        self.holds_together();
        let alloc = self.allocator();
        let Ok(first) = intern_args(alloc, &mut self.terms, left) else {
            return Err(Fault::OutOfMemory);
        };
        let Ok(second) = intern_args(alloc, &mut self.terms, right) else {
            return Err(Fault::OutOfMemory);
        };
        self.equate(environment, &first, &second)
    }

    /// Makes two lists of terms equal in pairs, as `eq_args` does. What it answers speaks of the terms themselves.
    fn equate(
        &mut self,
        environment: &[Clause],
        left: &[TermId],
        right: &[TermId],
    ) -> Result<Certainty, Fault>
        requires first { AreIn self.old.terms left.now }
        requires second { AreIn self.old.terms right.now }
        ensures equated { IsEquated self.old self.new (equation_at self.old.terms environment.now left.now right.now) result }
        ensures alone { ChangesRecords self.old self.new }
        ensures unchanged { OnErr result (self.new ≡ restored self.old self.new) }
        ensures faults { RecordsCausedFaults self.old self.new }
        ensures goes_back { GoesBack self.old self.new }
        ensures fault { IsFaultFor self.old self.new result }
    {
        self.holds_together();
        let before = self.snapshot();
        let depth = self.remaining_depth();
        let outcome = match self.relate_all(environment, left, right, depth) {
            Ok(outcome) => outcome,
            Err(stop) => {
                self.rollback(before);
                return self.undecided_by(stop);
            }
        };
        if outcome.is_refuted() {
            self.rollback(before);
            return Err(Fault::NoSolution);
        }
        self.holds_together();
        if self.equate_lifetimes(left, right).is_err() {
            self.rollback(before);
            return Err(Fault::OutOfMemory);
        }
        Ok(certainty_of(outcome))
    }
}

/// What is answered of lists that aren't refuted.
fn certainty_of(outcome: Outcome) -> Certainty
    ensures { result ≡ certainty_of outcome }
{
    match outcome {
        Outcome::Holds => Certainty::Yes,
        Outcome::Refuted | Outcome::Undecided => Certainty::Maybe,
    }
}
