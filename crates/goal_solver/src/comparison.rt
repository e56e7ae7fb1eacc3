//! Two runs of one goal, compared.
ghost use Rattle.std.specs.Prelude.{◌≡◌, ◌≢◌, ◌↔◌, true, IsTrue, Ok, Some, None, IfOk, IsOkUnless};
ghost use Rattle.goal_interner.specs.TableMeaning.{HasTerm};
ghost use Rattle.goal_tables.specs.Faults.{IsChecked};
ghost use Rattle.goal_tables.specs.Predicates.{normalization_of};
ghost use Rattle.goal_lists.specs.Answers.{decides, yes_with};
ghost use Rattle.goal_lists.specs.Interned.{erased_at};
ghost use Rattle.goal_lists.specs.Settings.{is_headline};
ghost use Rattle.goal_solver.specs.Comparisons.{AreComparable, ComparesExactly, DifferInOrder, IsAcceptedOver, IsAnswerHere, IsAnswerIn, IsCompared, MayRun, answer_of, over, WhereAsked};

use crate::context::{EvalCtxt, GREATEST_LIMIT};
use crate::faults::Fault;
use goal_checks::checked::CheckedTables;
use goal_checks::predicate_terms::PredicateTerms;
use goal_eval::eval::outcomes::Found;
use goal_eval::eval::region_constraints::RegionConstraints;
use goal_interner::term_nodes::TermId;
use goal_terms::answers::Certainty;
use goal_terms::compare::{Regions, same};
use goal_terms::modes::TypingMode;
use goal_terms::predicates::{Goal, NormalizesTo, Predicate};
use goal_terms::terms::Term;

/// What two runs of one goal come to.
#[derive(Clone, Copy, Debug, PartialEq, Eq)]
pub enum Comparison {
    /// Both leave the goal undecided, both refute it, or both answer `Yes` with the same term, lifetimes aside.
    Same,
    /// One of them leaves the goal undecided.
    OneUndecided,
    /// Both decide the goal, and they differ.
    Different,
}

/// What a run answers.
#[derive(Drop)]
pub(crate) enum RunAnswer {
    Yes,
    YesWith(Term),
    NoSolution,
    Maybe,
}

/// Runs a goal in a new context over each of two tables, and compares the answers. No inference variable stands in
/// the goal but the one that takes an alias's term, and [`crate::eval::goals::check_goal`] accepts it for both
/// tables: in a new context that variable is the first. The mode is of the headline, without opaque types that are
/// being defined. A limit above 128 counts as 128.
///
/// Over tables that differ in the order of their impls alone it is never `Different`, whatever the limits. Only
/// memory is refused.
pub fn compare_runs(
    a: &CheckedTables,
    b: &CheckedTables,
    mode: &TypingMode,
    goal: &Goal<Predicate>,
    limit_a: u32,
    limit_b: u32,
) -> Result<Comparison, Fault>
    ensures exact { ComparesExactly (over a.now limit_a) (over b.now limit_b) mode.now goal.now result }
    ensures order { AreComparable (over a.now limit_a) (over b.now limit_b) mode.now goal.now → DifferInOrder a.now b.now → result ≢ Ok Comparison.Different }
    ensures only_memory { is_headline mode.now ≡ true → IsOkUnless result Fault.OutOfMemory }
{
    let one = run(a, mode, goal, limit_a)?;
    let other = run(b, mode, goal, limit_b)?;
    Ok(one.compared_with(&other))
}

/// What a new context over some tables answers to a goal. Only memory is refused.
fn run(
    tables: &CheckedTables,
    mode: &TypingMode,
    goal: &Goal<Predicate>,
    limit: u32,
) -> Result<RunAnswer, Fault>
    ensures right { MayRun tables.now mode.now goal.now limit → IfOk result (λ x. IsAnswerIn tables.now mode.now goal.now limit (answer_of x)) }
    ensures only_memory { is_headline mode.now ≡ true → IsOkUnless result Fault.OutOfMemory }
    ensures checked { IsChecked tables.now }
{
    let _rows = tables.rows();
    let Ok(copy) = mode.clone() else {
        return Err(Fault::OutOfMemory);
    };
    let Ok(mut context) = EvalCtxt::new(tables, copy, limit.min(GREATEST_LIMIT), false) else {
        unreachable!()
    };
    context.run(goal)
}

impl EvalCtxt<'_> {
    /// What is answered to a goal at the remaining depth. Only memory is refused.
    fn run(&mut self, goal: &Goal<Predicate>) -> Result<RunAnswer, Fault>
        ensures right { WhereAsked self.old goal.now (IsAcceptedOver self.old.tables goal.now → IfOk result (λ x. IsAnswerHere self.old goal.now (answer_of x))) }
        ensures only_memory { is_headline self.old.typing_mode ≡ true → IsOkUnless result Fault.OutOfMemory }
    {
        match goal.predicate.normalizes_to() {
            None => self.run_predicate(goal),
            Some(asked) => self.run_alias(goal, asked),
        }
    }

    /// Whether a goal's predicate holds.
    fn run_predicate(&mut self, goal: &Goal<Predicate>) -> Result<RunAnswer, Fault>
        requires { normalization_of goal.now.predicate ≡ None }
        ensures right { WhereAsked self.old goal.now (IfOk result (λ x. IsAnswerHere self.old goal.now (answer_of x))) }
        ensures only_memory { is_headline self.old.typing_mode ≡ true → IsOkUnless result Fault.OutOfMemory }
    {
        match self.evaluate_goal(goal) {
            Ok(Certainty::Yes) => Ok(RunAnswer::Yes),
            Ok(Certainty::Maybe) => Ok(RunAnswer::Maybe),
            Err(Fault::NoSolution) => Ok(RunAnswer::NoSolution),
            Err(fault) => Err(fault),
        }
    }

    /// Which term a goal's alias has.
    fn run_alias(
        &mut self,
        goal: &Goal<Predicate>,
        asked: &NormalizesTo,
    ) -> Result<RunAnswer, Fault>
        requires { normalization_of goal.now.predicate ≡ Some asked.now }
        ensures right { is_headline self.old.typing_mode ≡ true → IsAcceptedOver self.old.tables goal.now → IfOk result (λ x. IsAnswerHere self.old goal.now (answer_of x)) }
        ensures only_memory { is_headline self.old.typing_mode ≡ true → IsOkUnless result Fault.OutOfMemory }
    {
        self.is_well_formed();
        let mut listed = RegionConstraints::new(self.allocator());
        match self.alias_outcome(&asked.alias, &goal.param_env, &mut listed) {
            Ok(Found::Is(id)) => self.found_answer(id),
            Ok(Found::Refuted) => Ok(RunAnswer::NoSolution),
            Ok(Found::Undecided) => Ok(RunAnswer::Maybe),
            Err(stop) => {
                self.undecided_by(stop)?;
                Ok(RunAnswer::Maybe)
            }
        }
    }

    /// The answer that gives what was found. Only a type or a constant can be given. Only memory is refused.
    fn found_answer(&self, id: TermId) -> Result<RunAnswer, Fault>
        ensures given { HasTerm self.now.terms id → IfOk result (λ x. answer_of x ≡ yes_with (erased_at self.now.terms id)) }
        ensures only_memory { IsOkUnless result Fault.OutOfMemory }
    {
        if !self.terms.contains(id) {
            return Ok(RunAnswer::Maybe);
        }
        Ok(RunAnswer::YesWith(self.terms.to_term(id)?))
    }
}

impl RunAnswer {
    /// What this answer and another come to.
    fn compared_with(&self, other: &RunAnswer) -> Comparison
        ensures { IsCompared (answer_of self.now) (answer_of other.now) result }
    {
        if self.is_same(other) {
            return Comparison::Same;
        }
        if self.decides() && other.decides() {
            return Comparison::Different;
        }
        Comparison::OneUndecided
    }

    /// Whether another answer is the same, lifetimes aside.
    fn is_same(&self, other: &RunAnswer) -> bool
        ensures { IsTrue result ↔ (answer_of self.now ≡ answer_of other.now) }
    {
        match (self, other) {
            (RunAnswer::Yes, RunAnswer::Yes) => true,
            (RunAnswer::YesWith(term), RunAnswer::YesWith(given)) => {
                same(term.view(), given.view(), Regions::Forgotten)
            }
            (RunAnswer::NoSolution, RunAnswer::NoSolution) => true,
            (RunAnswer::Maybe, RunAnswer::Maybe) => true,
            _ => false,
        }
    }

    /// Whether the goal is decided.
    fn decides(&self) -> bool
        ensures { result ≡ decides (answer_of self.now) }
    {
        !matches!(self, RunAnswer::Maybe)
    }
}
