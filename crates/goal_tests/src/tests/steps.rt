//! What a context is handed step by step, as constant data.
use crate::tests::bindings::{Binding, assert_bound};
use crate::tests::equations::{Equation, assert_equation};
use crate::tests::given::{Given, assert_given};
use crate::tests::goal_steps::{GoalStep, assert_goal_step};
use crate::tests::runs::{Run, assert_run};
use crate::tests::scenes::{Mode, checked_after, context_in};
use crate::tests::translations::{Translation, assert_translated};
use goal_checks::checked::CheckedTables;
use goal_solver::context::EvalCtxt;
use goal_terms::answers::VarKind;
use std::alloc::Global;
use std::process::Abort;
use std::test::Fail;

/// What a context is handed, and what it answers.
pub enum Step {
    Given(Given),
    Goal(GoalStep),
    Equation(Equation),
    Run(Run),
    Translation(Translation),
    Binding(Binding),
}

/// Turns of steps, each in a context of its own with these variables.
pub struct Scene {
    pub mode: Mode,
    pub limit: u32,
    pub variables: &'static [VarKind],
    pub turns: &'static [&'static [Step]],
}

/// No steps, in analysis to the depth 0, with one variable for any type.
pub const AT_ONCE: Scene = Scene {
    mode: Mode::Analysis,
    limit: 0,
    variables: &[VarKind::Ty],
    turns: &[],
};

/// Two variables, for any types.
pub const TWO_VARIABLES: &[VarKind] = &[VarKind::Ty, VarKind::Ty];

/// Asserts what contexts answer in scenes, over the program's tables.
pub fn assert_scenes(rt: &impl Abort, alloc: Global, scenes: &[Scene]) -> Result<(), Fail> {
    let tables = checked_after(alloc, &[])?;
    for scene in scenes {
        assert_scene_over(rt, alloc, &tables, scene)?;
    }
    Ok(())
}

/// Asserts what contexts answer in a scene, over the program's tables.
pub fn assert_scene(rt: &impl Abort, alloc: Global, scene: &Scene) -> Result<(), Fail> {
    let tables = checked_after(alloc, &[])?;
    assert_scene_over(rt, alloc, &tables, scene)
}

/// Asserts what contexts answer in a scene, over some tables.
pub fn assert_scene_over(
    rt: &impl Abort,
    alloc: Global,
    tables: &CheckedTables,
    scene: &Scene,
) -> Result<(), Fail> {
    for turn in scene.turns {
        assert_turn(rt, alloc, tables, scene, turn)?;
    }
    Ok(())
}

/// Asserts what a context answers in a turn of a scene.
fn assert_turn(
    rt: &impl Abort,
    alloc: Global,
    tables: &CheckedTables,
    scene: &Scene,
    turn: &[Step],
) -> Result<(), Fail> {
    let mut context = context_in(alloc, tables, scene.mode, scene.limit, scene.variables)?;
    assert_steps(rt, alloc, tables, &mut context, turn)
}

/// Asserts what a context answers to steps, one after the other.
pub fn assert_steps(
    rt: &impl Abort,
    alloc: Global,
    tables: &CheckedTables,
    context: &mut EvalCtxt<'_>,
    steps: &[Step],
) -> Result<(), Fail> {
    for step in steps {
        assert_step(rt, alloc, tables, context, step)?;
    }
    Ok(())
}

/// Asserts what a context answers to a step.
fn assert_step(
    rt: &impl Abort,
    alloc: Global,
    tables: &CheckedTables,
    context: &mut EvalCtxt<'_>,
    step: &Step,
) -> Result<(), Fail> {
    match step {
        Step::Given(given) => assert_given(rt, alloc, context, given),
        Step::Goal(goal) => assert_goal_step(rt, alloc, tables, context, goal),
        Step::Equation(equation) => assert_equation(rt, alloc, context, equation),
        Step::Run(run) => assert_run(rt, alloc, context, run),
        Step::Translation(asked) => assert_translated(rt, alloc, context, asked),
        Step::Binding(binding) => assert_bound(rt, alloc, tables, context, binding),
    }
}
