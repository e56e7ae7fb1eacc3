//! Variables that are given an alias or a type, and what they stand for then.
use crate::tests::bindings::Binding;
use crate::tests::equations::Equation;
use crate::tests::expected::{NO, YES};
use crate::tests::goal_steps::GoalStep;
use crate::tests::sketches::{A_OF_Z, BOOL, STRUCT_Z, TR_A, TermSketch, U8, U16, V0};
use crate::tests::steps::{AT_ONCE, Scene, Step, assert_scene};
use std::test::Fail;

/// `<Z as Tr>::A`, which is `u8`.
const ALIASES: &Scene = &Scene {
    limit: 4,
    turns: &[
        &[
            Step::Binding(Binding::Related(TR_A, &[STRUCT_Z])),
            Step::Equation(Equation::Two(V0, BOOL, NO)),
            Step::Equation(Equation::Two(V0, U8, YES)),
        ],
        &[
            Step::Binding(Binding::Structural(TR_A, &[STRUCT_Z])),
            Step::Equation(Equation::Form(TermSketch::Ty(V0), Ok(Some(TermSketch::Ty(U8))))),
        ],
    ],
    ..AT_ONCE
};

#[test]
fn given_aliases(rt: HostRuntime) -> Result<(), Fail> {
    assert_scene(&rt, rt.alloc(), ALIASES)
}

const TERMS: &Scene = &Scene {
    limit: 4,
    turns: &[
        &[
            Step::Binding(Binding::Instantiated(TR_A, &[STRUCT_Z], U16)),
            Step::Equation(Equation::Two(V0, U8, NO)),
            Step::Equation(Equation::Two(V0, U16, YES)),
        ],
        &[
            Step::Binding(Binding::Instantiated(TR_A, &[STRUCT_Z], A_OF_Z)),
            Step::Goal(GoalStep::Evaluate(YES)),
            Step::Equation(Equation::Two(V0, U16, NO)),
            Step::Equation(Equation::Two(V0, U8, YES)),
        ],
    ],
    ..AT_ONCE
};

#[test]
fn given_terms(rt: HostRuntime) -> Result<(), Fail> {
    assert_scene(&rt, rt.alloc(), TERMS)
}
