//! Which goals hold an inference variable.
ghost use Rattle.std.specs.Prelude.{◌≡◌, ◌||◌};
ghost use Rattle.goal_terms.specs.NodeTests.{is_any_infer};
ghost use Rattle.goal_tables.specs.Predicates.{some_in_env as some_env};
ghost use Rattle.goal_solver.specs.Answers.{is_closed_alias};

use goal_checks::predicate_terms::{PredicateTerms, some_in_env};
use goal_terms::node_tests::NodeTest;
use goal_terms::predicates::{Clause, Goal};
use goal_terms::terms::AliasTerm;
use goal_terms::view::TermRef;

/// Whether an inference variable stands in a goal or in its environment. Region variables do not count.
pub(crate) fn has_variable<P: PredicateTerms>(goal: &Goal<P>) -> bool
    ensures { result ≡ (P.has_passing goal.now.predicate is_any_infer || some_env is_any_infer goal.now.param_env.items) }
{
    goal.predicate.some_passes(NodeTest::IsAnyInfer)
        || some_in_env(NodeTest::IsAnyInfer, &goal.param_env)
}

/// Whether neither an alias nor an environment holds an inference variable.
pub(crate) fn is_closed_alias(alias: &AliasTerm, environment: &[Clause]) -> bool
    ensures { result ≡ is_closed_alias alias.now environment.now }
{
    TermRef::Alias(alias).is_closed() && !some_in_env(NodeTest::IsAnyInfer, environment)
}
