//! Trials within trials: each leaves nothing behind but records, whatever it answers.
ghost use Rattle.goal_solver.specs.GoingBack.{GoesBack};

use crate::tests::equated::equate;
use crate::tests::equations::Equation;
use crate::tests::expected::{Expected, NO, YES};
use crate::tests::given::Given;
use crate::tests::goal_steps::GoalStep;
use crate::tests::scenes::{Mode, checked_after, context_in};
use crate::tests::sketches::{Asked, STR, STRUCT_Z, V0, alias_goal_of};
use crate::tests::steps::{Step, assert_steps};
use goal_checks::checked::CheckedTables;
use goal_program::names::{HID, TR};
use goal_solver::context::EvalCtxt;
use goal_solver::context::laws::going_back_composes;
use goal_solver::faults::Fault;
use goal_terms::answers::{Certainty, GoalSource, OpaqueAccess, VarKind};
use goal_terms::predicates::{Goal, NormalizesTo, Predicate};
use goal_terms::terms::{AliasTermKind, InferTy, Term, Ty};
use std::alloc::Global;
use std::process::Abort;
use std::test::Fail;

/// Equates the first variable with a type.
fn equate_first(context: &mut EvalCtxt<'_>, ty: Ty) -> Expected
    ensures goes_back { GoesBack context.old context.new }
{
    let first = Term::Ty(Ty::Infer(InferTy::TyVar(0)));
    equate(context, &first, &Term::Ty(ty))
}

/// Equates the first variable with a type, if a trial answered what it had to.
fn equate_after(context: &mut EvalCtxt<'_>, is_expected: bool, ty: Ty) -> Expected
    ensures goes_back { GoesBack context.old context.new }
{
    going_back_composes();
    if !is_expected {
        return Err(Fault::NotForThisKind);
    }
    equate_first(context, ty)
}

/// Equates the first variable with a type, and fails.
fn innermost(context: &mut EvalCtxt<'_>) -> Expected
    ensures goes_back { GoesBack context.old context.new }
{
    equate_first(context, Ty::Bool)?;
    Err(Fault::NoSolution)
}

/// Tries the innermost trial, which fails: then the first variable is unbound, and may be another type.
fn middle(context: &mut EvalCtxt<'_>) -> Expected
    ensures goes_back { GoesBack context.old context.new }
{
    going_back_composes();
    let answer = context.probe(|trial| innermost(trial));
    equate_after(context, matches!(answer, Err(Fault::NoSolution)), Ty::Char)
}

/// Tries the middle trial: then the first variable is unbound, and may be a third type.
fn try_middle(context: &mut EvalCtxt<'_>) -> Expected
    ensures goes_back { GoesBack context.old context.new }
{
    going_back_composes();
    let answer = context.probe(|trial| middle(trial));
    equate_after(context, matches!(answer, Ok(Certainty::Yes)), Ty::Never)
}

/// Makes a variable, adds a goal and tries the middle trial.
fn outermost(alloc: Global, context: &mut EvalCtxt<'_>) -> Expected
    ensures goes_back { GoesBack context.old context.new }
{
    going_back_composes();
    context.next_ty_infer()?;
    let goal = Goal {
        param_env: Vec::new(alloc),
        predicate: Predicate::Ambiguous,
    };
    context.add_goal(GoalSource::Misc, goal)?;
    try_middle(context)
}

/// What the outermost trial answers.
fn try_outermost(alloc: Global, context: &mut EvalCtxt<'_>) -> Expected {
    context.probe(|trial| outermost(alloc, trial))
}

/// What a context answers after the trial: no goal is pending, the first variable is unbound, and no other is made.
const AS_BEFORE: &[Step] = &[
    Step::Goal(GoalStep::Check(Asked::Holds(TR, &[STRUCT_Z]), None)),
    Step::Equation(Equation::Two(V0, STR, YES)),
    Step::Given(Given::Fresh(VarKind::Ty, 1)),
];

/// Asserts that trials within trials leave a context as it was.
fn assert_deep(rt: &impl Abort, alloc: Global, tables: &CheckedTables) -> Result<(), Fail> {
    let mut context = context_in(alloc, tables, Mode::PostAnalysis, 1, &[VarKind::Ty])?;
    assert_eq!(rt; try_outermost(alloc, &mut context), YES);
    assert_steps(rt, alloc, tables, &mut context, AS_BEFORE)
}

#[test]
fn three_deep(rt: HostRuntime) -> Result<(), Fail> {
    let alloc = rt.alloc();
    let tables = checked_after(alloc, &[])?;
    assert_deep(&rt, alloc, &tables)
}

/// Asks a goal, and answers that there is no solution.
fn ask_in_vain(context: &mut EvalCtxt<'_>, goal: &Goal<NormalizesTo>) -> Expected
    ensures goes_back { GoesBack context.old context.new }
{
    context.compute_normalizes_to_goal(goal)?;
    Err(Fault::NoSolution)
}

/// What asking a goal in vain answers in a trial.
fn try_in_vain(context: &mut EvalCtxt<'_>, goal: &Goal<NormalizesTo>) -> Expected {
    context.probe(|trial| ask_in_vain(trial, goal))
}

/// Asserts that what a failed trial of a goal of the opaque type `Hid` records stays recorded.
fn assert_recorded(rt: &impl Abort, alloc: Global, context: &mut EvalCtxt<'_>) -> Result<(), Fail> {
    let goal = alias_goal_of(alloc, AliasTermKind::OpaqueTy(HID), &[], &V0)?;
    assert_eq!(rt; try_in_vain(context, &goal), NO);
    let expected = [OpaqueAccess::IfPostAnalysis];
    assert!(rt; context.opaque_accesses() == expected.as_slice());
    Ok(())
}

/// Asserts the same in the erased mode.
fn assert_erased(rt: &impl Abort, alloc: Global, tables: &CheckedTables) -> Result<(), Fail> {
    let mut context = context_in(alloc, tables, Mode::Erased, 1, &[VarKind::Ty])?;
    assert_recorded(rt, alloc, &mut context)
}

#[test]
fn records_stay(rt: HostRuntime) -> Result<(), Fail> {
    let alloc = rt.alloc();
    let tables = checked_after(alloc, &[])?;
    assert_erased(&rt, alloc, &tables)
}
