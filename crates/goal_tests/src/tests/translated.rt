//! Arguments that are translated for a definition elsewhere.
use crate::tests::changes::Change;
use crate::tests::equations::Equation;
use crate::tests::expected::{NO, YES};
use crate::tests::given::Given;
use crate::tests::goal_steps::GoalStep;
use crate::tests::runs::Run;
use crate::tests::scenes::{Mode, checked_after};
use crate::tests::sketches::{
    ClauseSketch, I32, STRUCT_Z, T, TypeSketch, U8, U32, U64, V1, VEC_OF_U32,
};
use crate::tests::steps::{
    AT_ONCE, Scene, Step, TWO_VARIABLES, assert_scene, assert_scene_over, assert_scenes,
};
use crate::tests::translations::Translation;
use goal_program::names::{FREE_A, HID, TR, TRAIT, VEC};
use goal_solver::faults::Fault;
use goal_tables::rows::Container;
use goal_terms::answers::{Certainty, OpaqueAccess, VarKind};
use goal_terms::ids::ImplId;
use goal_terms::terms::{AliasTermKind, InferTy};
use std::test::Fail;

const V2: TypeSketch = TypeSketch::Infer(InferTy::TyVar(2));

const V3: TypeSketch = TypeSketch::Infer(InferTy::TyVar(3));

const VEC_OF_V1: TypeSketch = TypeSketch::Adt(VEC, &[V1]);

const VEC_OF_Z: TypeSketch = TypeSketch::Adt(VEC, &[STRUCT_Z]);

/// The free alias `A<u32>`, which stands for `Vec<u32>`.
const LIST_ALIAS: TypeSketch = TypeSketch::Alias(AliasTermKind::FreeTy(FREE_A), &[U32]);

/// The opaque type `Hid`.
const OPAQUE: TypeSketch = TypeSketch::Alias(AliasTermKind::OpaqueTy(HID), &[]);

/// The impl `impl<T> Trait<i32> for Vec<T>`.
const AT_I32: ImplId = ImplId(0);

/// The impl `impl<T, U> Trait<U> for Vec<T>`.
const AT_ANY: ImplId = ImplId(1);

/// Translations without variables.
const CLOSED: &Scene = &Scene {
    variables: TWO_VARIABLES,
    turns: &[
        &[Step::Translation(Translation {
            impl_id: AT_I32,
            container: Container::Trait(TRAIT),
            self_type: VEC_OF_U32,
            other: I32,
            answer: Ok((&[VEC_OF_U32, I32, U64], Certainty::Yes)),
        })],
        &[Step::Translation(Translation {
            impl_id: AT_I32,
            container: Container::Impl(AT_I32),
            self_type: VEC_OF_U32,
            other: I32,
            answer: Ok((&[U32, U64], Certainty::Yes)),
        })],
        &[Step::Translation(Translation {
            impl_id: AT_I32,
            container: Container::Impl(AT_ANY),
            self_type: VEC_OF_U32,
            other: I32,
            answer: Ok((&[U32, I32, U64], Certainty::Yes)),
        })],
        &[Step::Translation(Translation {
            impl_id: AT_ANY,
            container: Container::Impl(AT_I32),
            self_type: VEC_OF_U32,
            other: U8,
            answer: Err(Fault::NoSolution),
        })],
    ],
    ..AT_ONCE
};

#[test]
fn translations(rt: HostRuntime) -> Result<(), Fail> {
    assert_scene(&rt, rt.alloc(), CLOSED)
}

/// Translations with the variable 1.
const WITH_VARIABLES: &Scene = &Scene {
    variables: TWO_VARIABLES,
    turns: &[
        &[Step::Translation(Translation {
            impl_id: AT_ANY,
            container: Container::Impl(AT_I32),
            self_type: V1,
            other: I32,
            answer: Ok((&[V2, U64], Certainty::Yes)),
        })],
        &[
            Step::Translation(Translation {
                impl_id: AT_ANY,
                container: Container::Impl(AT_I32),
                self_type: VEC_OF_V1,
                other: U8,
                answer: Err(Fault::NoSolution),
            }),
            Step::Given(Given::Fresh(VarKind::Ty, 2)),
        ],
        &[
            Step::Equation(Equation::Two(V1, U32, YES)),
            Step::Translation(Translation {
                impl_id: AT_I32,
                container: Container::Impl(AT_ANY),
                self_type: VEC_OF_V1,
                other: I32,
                answer: Ok((&[U32, I32, U64], Certainty::Yes)),
            }),
            Step::Given(Given::Fresh(VarKind::Ty, 2)),
        ],
        &[
            Step::Translation(Translation {
                impl_id: AT_I32,
                container: Container::Impl(AT_ANY),
                self_type: VEC_OF_V1,
                other: I32,
                answer: Ok((&[V2, V3, U64], Certainty::Yes)),
            }),
            Step::Equation(Equation::Two(V3, I32, YES)),
            Step::Equation(Equation::Two(V2, U32, YES)),
            Step::Equation(Equation::Two(V1, U8, NO)),
        ],
    ],
    ..AT_ONCE
};

#[test]
fn translations_with_variables(rt: HostRuntime) -> Result<(), Fail> {
    assert_scene(&rt, rt.alloc(), WITH_VARIABLES)
}

/// Translations that the depth or the mode leaves open.
const OPEN: &[Scene] = &[
    Scene {
        limit: 1,
        variables: TWO_VARIABLES,
        turns: &[&[Step::Translation(Translation {
            impl_id: AT_I32,
            container: Container::Impl(AT_ANY),
            self_type: LIST_ALIAS,
            other: I32,
            answer: Ok((&[V2, V3, U64], Certainty::Maybe)),
        })]],
        ..AT_ONCE
    },
    Scene {
        limit: 2,
        variables: TWO_VARIABLES,
        turns: &[&[Step::Translation(Translation {
            impl_id: AT_I32,
            container: Container::Impl(AT_ANY),
            self_type: LIST_ALIAS,
            other: I32,
            answer: Ok((&[U32, I32, U64], Certainty::Yes)),
        })]],
        ..AT_ONCE
    },
    Scene {
        mode: Mode::Coherence,
        variables: TWO_VARIABLES,
        turns: &[&[Step::Translation(Translation {
            impl_id: AT_ANY,
            container: Container::Impl(AT_I32),
            self_type: VEC_OF_U32,
            other: U8,
            answer: Ok((&[V2, U64], Certainty::Maybe)),
        })]],
        ..AT_ONCE
    },
    Scene {
        mode: Mode::ErasedThatStops,
        limit: 2,
        variables: TWO_VARIABLES,
        turns: &[&[
            Step::Translation(Translation {
                impl_id: AT_ANY,
                container: Container::Impl(AT_I32),
                self_type: OPAQUE,
                other: I32,
                answer: Err(Fault::RerunNonErased),
            }),
            Step::Run(Run::Recorded(0, &[OpaqueAccess::IfPostAnalysis])),
        ]],
        ..AT_ONCE
    },
];

#[test]
fn open_translations(rt: HostRuntime) -> Result<(), Fail> {
    assert_scenes(&rt, rt.alloc(), OPEN)
}

/// The impl of `Trait<U>` for `Vec<T>` has the where clause `T: Tr`.
const BOUND: &[Change] = &[Change(AT_ANY, ClauseSketch::Holds(TR, &[T]))];

const CLAUSES: &Scene = &Scene {
    limit: 1,
    variables: TWO_VARIABLES,
    turns: &[
        &[
            Step::Translation(Translation {
                impl_id: AT_I32,
                container: Container::Impl(AT_ANY),
                self_type: VEC_OF_Z,
                other: I32,
                answer: Ok((&[STRUCT_Z, I32, U64], Certainty::Yes)),
            }),
            Step::Goal(GoalStep::Evaluate(YES)),
        ],
        &[
            Step::Translation(Translation {
                impl_id: AT_I32,
                container: Container::Impl(AT_ANY),
                self_type: VEC_OF_U32,
                other: I32,
                answer: Ok((&[U32, I32, U64], Certainty::Yes)),
            }),
            Step::Goal(GoalStep::Evaluate(NO)),
        ],
    ],
    ..AT_ONCE
};

#[test]
fn where_clauses_of_the_other_impl(rt: HostRuntime) -> Result<(), Fail> {
    let alloc = rt.alloc();
    let tables = checked_after(alloc, BOUND)?;
    assert_scene_over(&rt, alloc, &tables, CLAUSES)
}
