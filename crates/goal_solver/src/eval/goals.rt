//! The check of goals.
ghost use Rattle.std.specs.Prelude.{◌≡◌, ◌||◌, OnOk, IfErr};
ghost use Rattle.goal_tables.specs.Predicates.{lies_in_env as in_env};
ghost use Rattle.goal_solver.specs.Goals.{has_in_goal, fault_lies_in, flaw_of, is_flawed_goal, words_of, IsAcceptedBy, IsSmallestOf, wants_taken};

use crate::context::EvalCtxt;
use goal_checks::checked::CheckedTables;
use goal_checks::checker::Checker;
use goal_checks::predicate_terms::{PredicateTerms, lies_in_env, some_never_const};
use goal_tables::faults::TermFault;
use goal_terms::node_tests::NodeTest;
use goal_terms::predicates::Goal;
use thiserror::Error;

/// Why a goal is refused. Of several faults that apply, the one of the smallest number is answered.
#[derive(Clone, Copy, Debug, PartialEq, Eq, Error)]
pub enum GoalFault {
    /// An id stands that no row has.
    #[error("unknown item")]
    UnknownItem = 1,
    /// An argument list has another length than its item's parameters.
    #[error("wrong argument count")]
    WrongArgumentCount = 2,
    /// An argument, a term or an alias has another kind than its place.
    #[error("wrong argument kind")]
    WrongArgumentKind = 3,
    /// A variable stands that the context hasn't made, or made of another kind.
    #[error("unknown variable")]
    UnknownVariable = 4,
    /// The expected term of an alias is no unbound general variable, or stands in the alias, in the
    /// environment or in a hidden type of the context, bindings being followed.
    #[error("the expected term is not free")]
    ExpectedTermNotFree = 5,
    /// Something const is said of a trait that doesn't allow it.
    #[error("never const")]
    NeverConst = 6,
    /// Goals were added to the context.
    #[error("goals are pending")]
    GoalsPending = 7,
}

/// Whether a goal may be handed to a context. Parameters and placeholders of any number may stand
/// in it. It takes no memory.
pub fn check_goal<P: PredicateTerms>(
    tables: &CheckedTables,
    context: &EvalCtxt<'_>,
    goal: &Goal<P>,
) -> Result<(), GoalFault>
    ensures accepted { OnOk result (IsAcceptedBy (has_in_goal (words_of P.has_fault P.has_passing P.normalization) tables.now context.now goal.now)) }
    ensures refused { IfErr result (IsSmallestOf (has_in_goal (words_of P.has_fault P.has_passing P.normalization) tables.now context.now goal.now)) }
{
    if is_flawed(tables, context, goal) {
        return Err(first_flaw(tables, goal));
    }
    if lacks_free_term(context, goal) {
        return Err(GoalFault::ExpectedTermNotFree);
    }
    if is_never_const(tables, goal) {
        return Err(GoalFault::NeverConst);
    }
    if context.has_goals() {
        return Err(GoalFault::GoalsPending);
    }
    Ok(())
}

/// Whether one of the first four faults applies. The goal's terms are walked once.
fn is_flawed<P: PredicateTerms>(
    tables: &CheckedTables,
    context: &EvalCtxt<'_>,
    goal: &Goal<P>,
) -> bool
    ensures { result ≡ is_flawed_goal (words_of P.has_fault P.has_passing P.normalization) tables.now context.now goal.now }
{
    let test = NodeTest::Unmade(context.variables());
    goal.predicate.is_flawed(tables.rows(), test)
        || Checker::of(tables.rows()).flaw_lies_in_env(test, &goal.param_env)
}

/// The first fault of a goal to which one of the first four applies. The goal's terms are walked for each fault alone.
fn first_flaw<P: PredicateTerms>(tables: &CheckedTables, goal: &Goal<P>) -> GoalFault
    ensures { result ≡ flaw_of (fault_lies_in (words_of P.has_fault P.has_passing P.normalization) tables.now goal.now.predicate goal.now.param_env.items) }
{
    if lies_in_goal(tables, TermFault::UnknownItem, goal) {
        return GoalFault::UnknownItem;
    }
    if lies_in_goal(tables, TermFault::WrongArgumentCount, goal) {
        return GoalFault::WrongArgumentCount;
    }
    if lies_in_goal(tables, TermFault::WrongArgumentKind, goal) {
        return GoalFault::WrongArgumentKind;
    }
    GoalFault::UnknownVariable
}

pub(crate) fn lies_in_goal<P: PredicateTerms>(
    tables: &CheckedTables,
    fault: TermFault,
    goal: &Goal<P>,
) -> bool
    ensures { result ≡ (P.has_fault goal.now.predicate tables.now fault || in_env tables.now fault goal.now.param_env.items) }
{
    goal.predicate.lies_in(tables.rows(), fault)
        || lies_in_env(tables.rows(), fault, &goal.param_env)
}

fn is_never_const<P: PredicateTerms>(tables: &CheckedTables, goal: &Goal<P>) -> bool
    ensures { result ≡ (P.has_fault goal.now.predicate tables.now TermFault.NeverConst || in_env tables.now TermFault.NeverConst goal.now.param_env.items) }
{
    goal.predicate.is_never_const(tables.rows()) || some_never_const(tables.rows(), &goal.param_env)
}

fn lacks_free_term<P: PredicateTerms>(context: &EvalCtxt<'_>, goal: &Goal<P>) -> bool
    ensures { result ≡ wants_taken context.now (P.normalization goal.now.predicate) goal.now.param_env.items }
{
    match goal.predicate.normalizes_to() {
        None => false,
        Some(asked) => context.lacks_free_term(asked, &goal.param_env),
    }
}
