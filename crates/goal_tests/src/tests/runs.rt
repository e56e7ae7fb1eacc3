//! Lists that a context runs.
use crate::tests::entries::{Entry, ResponseSketch, response_of, rule_of};
use crate::tests::expected::Expected;
use goal_kinds::rules::Rule;
use goal_solver::context::EvalCtxt;
use goal_solver::faults::Fault;
use goal_terms::answers::{OpaqueAccess, Response};
use std::alloc::Global;
use std::process::Abort;
use std::test::Fail;

/// What is run, and what it comes to.
pub enum Run {
    /// A list.
    List(&'static [Entry], Expected),
    /// A list that is answered by a response.
    ListTo(&'static [Entry], ResponseSketch),
    /// So many faults are delayed so far, and these accesses recorded.
    Recorded(usize, &'static [OpaqueAccess]),
}

/// Asserts what a context answers.
pub fn assert_run(
    rt: &impl Abort,
    alloc: Global,
    context: &mut EvalCtxt<'_>,
    asked: &Run,
) -> Result<(), Fail> {
    match asked {
        Run::List(entries, expected) => assert_list(rt, alloc, context, entries, *expected),
        Run::ListTo(entries, response) => assert_list_to(rt, alloc, context, entries, response),
        Run::Recorded(faults, accesses) => assert_recorded(rt, context, *faults, accesses),
    }
}

/// What a list is answered in a context.
fn response_to(context: &mut EvalCtxt<'_>, rule: &Rule) -> Result<Response, Fault> {
    let candidate = context.run_rule(&[], rule)?;
    Ok(candidate.result)
}

/// How certain a list is in a context.
fn run_certainty(context: &mut EvalCtxt<'_>, rule: &Rule) -> Expected {
    let response = response_to(context, rule)?;
    Ok(response.certainty)
}

/// Asserts how certain a list is.
fn assert_list(
    rt: &impl Abort,
    alloc: Global,
    context: &mut EvalCtxt<'_>,
    entries: &[Entry],
    expected: Expected,
) -> Result<(), Fail> {
    let rule = rule_of(alloc, entries)?;
    assert_eq!(rt; run_certainty(context, &rule), expected);
    Ok(())
}

/// Asserts by which response a list is answered.
fn assert_list_to(
    rt: &impl Abort,
    alloc: Global,
    context: &mut EvalCtxt<'_>,
    entries: &[Entry],
    expected: &ResponseSketch,
) -> Result<(), Fail> {
    let rule = rule_of(alloc, entries)?;
    let response = response_to(context, &rule)?;
    assert!(rt; response == response_of(alloc, expected)?);
    Ok(())
}

/// Asserts what a context has recorded so far.
fn assert_recorded(
    rt: &impl Abort,
    context: &EvalCtxt<'_>,
    faults: usize,
    accesses: &[OpaqueAccess],
) -> Result<(), Fail> {
    assert_eq!(rt; context.delayed_faults().len(), faults);
    assert!(rt; context.opaque_accesses() == accesses);
    Ok(())
}
