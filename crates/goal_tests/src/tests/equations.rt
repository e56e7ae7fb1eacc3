//! Terms that a context makes equal, and their head forms.
use crate::tests::equated::equate;
use crate::tests::expected::Expected;
use crate::tests::sketches::{TermSketch, TypeSketch, args_of, term_of, ty_of};
use goal_solver::context::EvalCtxt;
use goal_solver::faults::Fault;
use goal_terms::terms::Term;
use std::alloc::{AllocError, Global};
use std::process::Abort;
use std::test::Fail;

/// The head form of a term, if it is known, or a fault.
pub type Form = Result<Option<TermSketch>, Fault>;

/// What is made equal, and what is answered.
pub enum Equation {
    /// Two types.
    Two(TypeSketch, TypeSketch, Expected),
    /// Two lists of types.
    Lists(&'static [TypeSketch], &'static [TypeSketch], Expected),
    /// A type and each of others, in trials, in both orders.
    Each(TypeSketch, &'static [TypeSketch], Expected),
    /// A term and its head form.
    Form(TermSketch, Form),
}

/// Asserts what a context answers.
pub fn assert_equation(
    rt: &impl Abort,
    alloc: Global,
    context: &mut EvalCtxt<'_>,
    equation: &Equation,
) -> Result<(), Fail> {
    match equation {
        Equation::Two(left, right, expected) => {
            assert_equated(rt, alloc, context, (left, right), *expected)
        }
        Equation::Lists(left, right, expected) => {
            assert_lists_equated(rt, alloc, context, (left, right), *expected)
        }
        Equation::Each(left, others, expected) => {
            assert_each(rt, alloc, context, left, others, *expected)
        }
        Equation::Form(term, form) => assert_form(rt, alloc, context, term, form),
    }
}

/// Asserts what making two types equal comes to.
fn assert_equated(
    rt: &impl Abort,
    alloc: Global,
    context: &mut EvalCtxt<'_>,
    sides: (&TypeSketch, &TypeSketch),
    expected: Expected,
) -> Result<(), Fail> {
    let left = Term::Ty(ty_of(alloc, sides.0)?);
    let right = Term::Ty(ty_of(alloc, sides.1)?);
    let answer = equate(context, &left, &right);
    assert_eq!(rt; answer, expected);
    Ok(())
}

/// Asserts what making two lists of types equal comes to.
fn assert_lists_equated(
    rt: &impl Abort,
    alloc: Global,
    context: &mut EvalCtxt<'_>,
    sides: (&[TypeSketch], &[TypeSketch]),
    expected: Expected,
) -> Result<(), Fail> {
    let left = args_of(alloc, sides.0)?;
    let right = args_of(alloc, sides.1)?;
    let answer = context.eq_args(&[], &left, &right);
    assert_eq!(rt; answer, expected);
    Ok(())
}

/// Asserts what making a type equal to each of others comes to, in trials, in both orders.
fn assert_each(
    rt: &impl Abort,
    alloc: Global,
    context: &mut EvalCtxt<'_>,
    left: &TypeSketch,
    others: &[TypeSketch],
    expected: Expected,
) -> Result<(), Fail> {
    for right in others {
        assert_tried(rt, alloc, context, (left, right), expected)?;
        assert_tried(rt, alloc, context, (right, left), expected)?;
    }
    Ok(())
}

/// What making two terms equal comes to in a trial.
fn try_equate(context: &mut EvalCtxt<'_>, left: &Term, right: &Term) -> Expected {
    context.probe(|trial| equate(trial, left, right))
}

/// Asserts what making two types equal comes to in a trial.
fn assert_tried(
    rt: &impl Abort,
    alloc: Global,
    context: &mut EvalCtxt<'_>,
    sides: (&TypeSketch, &TypeSketch),
    expected: Expected,
) -> Result<(), Fail> {
    let left = Term::Ty(ty_of(alloc, sides.0)?);
    let right = Term::Ty(ty_of(alloc, sides.1)?);
    assert_eq!(rt; try_equate(context, &left, &right), expected);
    Ok(())
}

/// The head form of a sketch, as it is answered.
fn form_of(alloc: Global, form: &Form) -> Result<Result<Option<Term>, Fault>, AllocError> {
    Ok(match form {
        Ok(Some(sketch)) => Ok(Some(term_of(alloc, sketch)?)),
        Ok(None) => Ok(None),
        Err(fault) => Err(*fault),
    })
}

/// Asserts which head form a term has.
fn assert_form(
    rt: &impl Abort,
    alloc: Global,
    context: &mut EvalCtxt<'_>,
    term: &TermSketch,
    form: &Form,
) -> Result<(), Fail> {
    let term = term_of(alloc, term)?;
    let found = context.structurally_normalize_term(&[], &term);
    assert!(rt; found == form_of(alloc, form)?);
    Ok(())
}
