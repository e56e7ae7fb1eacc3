//! Goals that a context is asked, and goals that are added to it.
use crate::tests::entries::{ResponseSketch, response_of};
use crate::tests::expected::Expected;
use crate::tests::sketches::{Asked, TypeSketch, V1, alias_goal_of, goal_of, trait_goal_of, ty_of};
use goal_checks::checked::CheckedTables;
use goal_solver::context::EvalCtxt;
use goal_solver::eval::goals::{GoalFault, check_goal};
use goal_solver::faults::Fault;
use goal_terms::answers::{Certainty, GoalSource, Response, TraitGoalProvenVia};
use goal_terms::ids::TraitId;
use goal_terms::predicates::{Goal, NormalizesTo, TraitPredicate};
use goal_terms::terms::{AliasTermKind, Term};
use std::alloc::Global;
use std::process::Abort;
use std::test::Fail;

/// What is done with goals, and what is answered.
pub enum GoalStep {
    /// A goal is checked.
    Check(Asked, Option<GoalFault>),
    /// Goals are added.
    Add(&'static [Asked]),
    /// The added goals are evaluated.
    Evaluate(Expected),
    /// What came so far is answered by a response.
    Respond(ResponseSketch),
    /// The candidates of a trait goal are merged.
    Merge(TraitId, &'static [TypeSketch], Expected),
    /// A trait goal is asked, and its response is applied.
    Apply(TraitId, &'static [TypeSketch], Expected),
    /// The term of an alias is asked for the variable 1, and the response lists values of variables.
    Project(Projected, Expected, &'static [(u32, TypeSketch)]),
}

/// An alias. With a class its candidates are merged as those of a projection whose trait goal holds through it.
pub struct Projected {
    pub class: Option<TraitGoalProvenVia>,
    pub kind: AliasTermKind,
    pub parts: &'static [TypeSketch],
}

/// Asserts what a context answers.
pub fn assert_goal_step(
    rt: &impl Abort,
    alloc: Global,
    tables: &CheckedTables,
    context: &mut EvalCtxt<'_>,
    step: &GoalStep,
) -> Result<(), Fail> {
    match step {
        GoalStep::Check(asked, fault) => assert_checked(rt, alloc, tables, context, asked, *fault),
        GoalStep::Add(asked) => add(alloc, context, asked),
        GoalStep::Evaluate(expected) => assert_evaluated(rt, context, *expected),
        GoalStep::Respond(response) => assert_response(rt, alloc, context, response),
        GoalStep::Merge(id, parts, expected) => {
            assert_merged(rt, alloc, context, (*id, parts), *expected)
        }
        GoalStep::Apply(id, parts, expected) => {
            assert_applied(rt, alloc, context, (*id, parts), *expected)
        }
        GoalStep::Project(asked, expected, values) => {
            assert_projected(rt, alloc, context, asked, (*expected, values))
        }
    }
}

/// Asserts what the check of a goal says.
fn assert_checked(
    rt: &impl Abort,
    alloc: Global,
    tables: &CheckedTables,
    context: &EvalCtxt<'_>,
    asked: &Asked,
    expected: Option<GoalFault>,
) -> Result<(), Fail> {
    let goal = goal_of(alloc, &[], asked)?;
    let fault = check_goal(tables, context, &goal).err();
    assert_eq!(rt; fault, expected);
    Ok(())
}

/// Adds goals to a context.
fn add(alloc: Global, context: &mut EvalCtxt<'_>, asked: &[Asked]) -> Result<(), Fail> {
    let mut goals = Vec::new(alloc);
    for goal in asked {
        goals.push((GoalSource::Misc, goal_of(alloc, &[], goal)?))?;
    }
    Ok(context.add_goals(goals)?)
}

/// Asserts what the added goals of a context come to.
fn assert_evaluated(
    rt: &impl Abort,
    context: &mut EvalCtxt<'_>,
    expected: Expected,
) -> Result<(), Fail> {
    let answer = context.try_evaluate_added_goals();
    assert_eq!(rt; answer, expected);
    Ok(())
}

/// Asserts what a context answers of all that came so far.
fn assert_response(
    rt: &impl Abort,
    alloc: Global,
    context: &mut EvalCtxt<'_>,
    expected: &ResponseSketch,
) -> Result<(), Fail> {
    let response = context.evaluate_added_goals_and_make_canonical_response(Certainty::Yes)?;
    assert!(rt; response == response_of(alloc, expected)?);
    Ok(())
}

/// How certain the merged candidates of a goal are in a context.
fn merged(context: &mut EvalCtxt<'_>, goal: &Goal<TraitPredicate>) -> Expected {
    let response = context.assemble_and_merge_candidates(None, goal)?;
    Ok(response.certainty)
}

/// Asserts how certain the merged candidates of a goal are.
fn assert_merged(
    rt: &impl Abort,
    alloc: Global,
    context: &mut EvalCtxt<'_>,
    asked: (TraitId, &[TypeSketch]),
    expected: Expected,
) -> Result<(), Fail> {
    let goal = trait_goal_of(alloc, asked.0, asked.1)?;
    assert_eq!(rt; merged(context, &goal), expected);
    Ok(())
}

/// How certain a goal is, whose response is applied to a context.
fn applied(context: &mut EvalCtxt<'_>, goal: &Goal<TraitPredicate>) -> Expected {
    let response = context.compute_trait_goal(goal)?;
    context.apply_response(&response)
}

/// Asserts how certain a goal is, whose response is applied.
fn assert_applied(
    rt: &impl Abort,
    alloc: Global,
    context: &mut EvalCtxt<'_>,
    asked: (TraitId, &[TypeSketch]),
    expected: Expected,
) -> Result<(), Fail> {
    let goal = trait_goal_of(alloc, asked.0, asked.1)?;
    assert_eq!(rt; applied(context, &goal), expected);
    Ok(())
}

/// What a context answers to the goal of an alias's term.
fn answer_to(
    context: &mut EvalCtxt<'_>,
    class: Option<TraitGoalProvenVia>,
    goal: &Goal<NormalizesTo>,
) -> Result<Response, Fault> {
    if class.is_some() {
        context.assemble_and_merge_candidates(class, goal)
    } else {
        context.compute_normalizes_to_goal(goal)
    }
}

/// How certain an answer is.
fn certainty_of(answer: &Result<Response, Fault>) -> Expected {
    match answer {
        Ok(response) => Ok(response.certainty),
        Err(fault) => Err(*fault),
    }
}

/// Whether a response lists a term as the value of a variable.
fn lists(response: &Response, number: u32, term: &Term) -> bool {
    for (listed, value) in &response.var_values {
        if *listed == number {
            return value == term;
        }
    }
    false
}

/// Asserts which values of variables a response lists.
fn assert_values(
    rt: &impl Abort,
    alloc: Global,
    response: &Response,
    values: &[(u32, TypeSketch)],
) -> Result<(), Fail> {
    for (number, ty) in values {
        let term = Term::Ty(ty_of(alloc, ty)?);
        assert_eq!(rt; lists(response, *number, &term), true, "{number}");
    }
    Ok(())
}

/// Asserts how certain the term of an alias is, and which values the response lists.
fn assert_projected(
    rt: &impl Abort,
    alloc: Global,
    context: &mut EvalCtxt<'_>,
    asked: &Projected,
    expected: (Expected, &[(u32, TypeSketch)]),
) -> Result<(), Fail> {
    let goal = alias_goal_of(alloc, asked.kind, asked.parts, &V1)?;
    let answer = answer_to(context, asked.class, &goal);
    assert_eq!(rt; certainty_of(&answer), expected.0);
    match &answer {
        Ok(response) => assert_values(rt, alloc, response, expected.1),
        Err(_) => Ok(()),
    }
}
