//! The where clauses of a row, as goals.
ghost use Rattle.std.specs.Prelude.{◌≡◌, IfOk};
ghost use Rattle.std.specs.List.{AllZip};
ghost use Rattle.goal_terms.specs.PredicateTrees.{tree_of_kind};
ghost use Rattle.goal_terms.specs.TreeOf.{trees_of};
ghost use Rattle.goal_solver.specs.OpenRuns.{predicate_of};
ghost use Rattle.goal_solver.specs.TranslatedArgs.{Asks, IsSameEnvironment, AsksUnder, IsGoalUnder};

use goal_terms::answers::GoalSource;
use goal_terms::instantiate::instantiate;
use goal_terms::predicates::{Clause, ClauseKind, Goal, Predicate};
use goal_terms::terms::GenericArg;
use std::alloc::{AllocError, Global};

/// A goal for each where clause, which asks in an environment what the clause says under arguments. No goal
/// names a source.
pub(crate) fn goals_under(
    alloc: Global,
    environment: &[Clause],
    clauses: &[Clause],
    args: &[GenericArg],
) -> Result<Vec<(GoalSource, Goal<Predicate>)>, AllocError>
    ensures { IfOk result (λ goals. AllZip (IsGoalUnder environment.now (trees_of args.now)) clauses.now goals.items) }
{
    let mut goals = Vec::with_capacity(alloc, clauses.len())?;
    for clause in clauses {
        let goal = goal_under(alloc, environment, clause, args)?;
        goals.push((GoalSource::Misc, goal))?;
    }
    Ok(goals)
}

/// The goal that asks in an environment what a clause says under arguments.
fn goal_under(
    alloc: Global,
    environment: &[Clause],
    clause: &Clause,
    args: &[GenericArg],
) -> Result<Goal<Predicate>, AllocError>
    ensures { IfOk result (AsksUnder environment.now (trees_of args.now) clause.now) }
{
    let param_env = copied_clauses(alloc, environment)?;
    let instance = instantiate(alloc, clause, args)?;
    let predicate = predicate_of(instance.kind);
    Ok(Goal {
        param_env,
        predicate,
    })
}

/// Copies of clauses.
pub(crate) fn copied_clauses(alloc: Global, clauses: &[Clause]) -> Result<Vec<Clause>, AllocError>
    ensures { IfOk result (λ copies. IsSameEnvironment clauses.now copies.items) }
{
    clauses.to_vec(alloc)
}

/// The predicate that asks what a clause says.
pub(crate) fn predicate_of(kind: ClauseKind) -> Predicate
    ensures is { result ≡ predicate_of kind }
    ensures asks { Asks result (tree_of_kind kind) }
{
    match kind {
        ClauseKind::Trait(predicate) => Predicate::Trait(predicate),
        ClauseKind::Projection(predicate) => Predicate::Projection(predicate),
        ClauseKind::HostEffect(predicate) => Predicate::HostEffect(predicate),
    }
}
