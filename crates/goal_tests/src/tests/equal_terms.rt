//! Terms that contexts make equal, also in trials, and head forms.
use crate::tests::equations::{Equation, Form};
use crate::tests::expected::{MAYBE, NO, YES};
use crate::tests::sketches::{
    A_OF_X, A_OF_Z, BOOL, I32, STR, STRUCT_P, T, TR_A, TermSketch, TypeSketch, U8, U16, V0, V1,
};
use crate::tests::steps::{AT_ONCE, Scene, Step, TWO_VARIABLES, assert_scene, assert_scenes};
use goal_program::names::{BOX, FREE_F, PAIR_A, VEC};
use goal_solver::faults::Fault;
use goal_terms::answers::VarKind;
use goal_terms::scalars::FloatTy;
use goal_terms::terms::{AliasTermKind, InferTy};
use std::test::Fail;

/// A variable of each kind for a type, and another one for any type.
const FOUR_VARIABLES: &[VarKind] = &[VarKind::Ty, VarKind::Int, VarKind::Float, VarKind::Ty];

const INTEGER: TypeSketch = TypeSketch::Infer(InferTy::IntVar(1));

const FLOATING: TypeSketch = TypeSketch::Infer(InferTy::FloatVar(2));

/// The other variable for any type.
const OTHER: TypeSketch = TypeSketch::Infer(InferTy::TyVar(3));

const F32: TypeSketch = TypeSketch::Float(FloatTy::F32);

/// `{error 6}`.
const ERROR: TypeSketch = TypeSketch::Error(6);

/// `<v0 as Tr>::A`.
const A_OF_V0: TypeSketch = TypeSketch::Alias(TR_A, &[V0]);

const VEC_OF_V0: TypeSketch = TypeSketch::Adt(VEC, &[V0]);

const TWICE: TypeSketch = TypeSketch::Tuple(&[V0, V0]);

const UNLIKE: TypeSketch = TypeSketch::Tuple(&[U8, U16]);

const TRIALS: &Scene = &Scene {
    variables: FOUR_VARIABLES,
    turns: &[&[
        Step::Equation(Equation::Each(TWICE, &[UNLIKE], NO)),
        Step::Equation(Equation::Each(V0, &[VEC_OF_V0, TypeSketch::Tuple(&[V0, A_OF_V0])], NO)),
        Step::Equation(Equation::Each(V0, &[A_OF_V0], MAYBE)),
        Step::Equation(Equation::Each(VEC_OF_V0, &[VEC_OF_V0], YES)),
        Step::Equation(Equation::Each(V0, &[V0, BOOL, ERROR, A_OF_Z, OTHER], YES)),
        Step::Equation(Equation::Each(A_OF_Z, &[U8], MAYBE)),
    ]],
    ..AT_ONCE
};

#[test]
fn equations_in_trials(rt: HostRuntime) -> Result<(), Fail> {
    assert_scene(&rt, rt.alloc(), TRIALS)
}

const NUMBERS: &Scene = &Scene {
    variables: FOUR_VARIABLES,
    turns: &[
        &[
            Step::Equation(Equation::Each(INTEGER, &[INTEGER, V0, U8, I32], YES)),
            Step::Equation(Equation::Each(INTEGER, &[FLOATING, F32, BOOL, STR, T, VEC_OF_V0], NO)),
            Step::Equation(Equation::Each(INTEGER, &[A_OF_V0, A_OF_Z], MAYBE)),
        ],
        &[
            Step::Equation(Equation::Each(FLOATING, &[FLOATING, V0, F32], YES)),
            Step::Equation(Equation::Each(FLOATING, &[U8, I32, ERROR, VEC_OF_V0], NO)),
            Step::Equation(Equation::Each(FLOATING, &[A_OF_V0, A_OF_Z], MAYBE)),
        ],
    ],
    ..AT_ONCE
};

#[test]
fn variables_of_numbers(rt: HostRuntime) -> Result<(), Fail> {
    assert_scene(&rt, rt.alloc(), NUMBERS)
}

const EQUATIONS: &[Scene] = &[
    Scene {
        variables: FOUR_VARIABLES,
        turns: &[&[
            Step::Equation(Equation::Two(TWICE, UNLIKE, NO)),
            Step::Equation(Equation::Two(V0, BOOL, YES)),
            Step::Equation(Equation::Two(V0, U8, NO)),
            Step::Equation(Equation::Two(OTHER, V0, YES)),
            Step::Equation(Equation::Two(OTHER, BOOL, YES)),
        ]],
        ..AT_ONCE
    },
    Scene {
        limit: 3,
        turns: &[
            &[Step::Equation(Equation::Two(A_OF_Z, U8, YES))],
            &[Step::Equation(Equation::Two(A_OF_Z, BOOL, NO))],
        ],
        ..AT_ONCE
    },
    Scene {
        limit: 2,
        turns: &[&[Step::Equation(Equation::Two(A_OF_Z, U8, MAYBE))]],
        ..AT_ONCE
    },
];

#[test]
fn equations(rt: HostRuntime) -> Result<(), Fail> {
    assert_scenes(&rt, rt.alloc(), EQUATIONS)
}

const LISTS: &Scene = &Scene {
    limit: 1,
    variables: TWO_VARIABLES,
    turns: &[
        &[Step::Equation(Equation::Lists(&[U8, STR], &[U8, STR], YES))],
        &[Step::Equation(Equation::Lists(&[U8, STR], &[U8, U8], NO))],
        &[Step::Equation(Equation::Lists(&[V0, STR], &[U8, STR], YES))],
        &[Step::Equation(Equation::Lists(&[V0, V0], &[U8, STR], NO))],
        &[Step::Equation(Equation::Lists(&[V0, V1], &[V1, U8], YES))],
    ],
    ..AT_ONCE
};

#[test]
fn lists_of_arguments(rt: HostRuntime) -> Result<(), Fail> {
    assert_scene(&rt, rt.alloc(), LISTS)
}

const VEC_OF_ALIAS: TermSketch = TermSketch::Ty(TypeSketch::Adt(VEC, &[A_OF_Z]));

/// `F`, which is `u8`.
const FREE: TermSketch = TermSketch::Ty(TypeSketch::Alias(AliasTermKind::FreeTy(FREE_F), &[]));

/// `<P as Tr>::A`, where `P` has no impl.
const A_OF_P: TermSketch = TermSketch::Ty(TypeSketch::Alias(TR_A, &[STRUCT_P]));

/// The head form `u8`.
const BYTE: Form = Ok(Some(TermSketch::Ty(U8)));

const FORMS: &[Scene] = &[
    Scene {
        turns: &[&[
            Step::Equation(Equation::Form(VEC_OF_ALIAS, Ok(Some(VEC_OF_ALIAS)))),
            Step::Equation(Equation::Form(TermSketch::Value(3), Ok(Some(TermSketch::Value(3))))),
            Step::Equation(Equation::Form(TermSketch::Ty(V0), Ok(Some(TermSketch::Ty(V0))))),
            Step::Equation(Equation::Form(FREE, Ok(None))),
        ]],
        ..AT_ONCE
    },
    Scene {
        limit: 1,
        turns: &[&[
            Step::Equation(Equation::Form(TermSketch::Ty(A_OF_Z), Ok(None))),
            Step::Equation(Equation::Form(A_OF_P, Ok(None))),
            Step::Equation(Equation::Form(FREE, BYTE)),
        ]],
        ..AT_ONCE
    },
];

#[test]
fn head_forms(rt: HostRuntime) -> Result<(), Fail> {
    assert_scenes(&rt, rt.alloc(), FORMS)
}

const DEEPER_FORMS: &[Scene] = &[
    Scene {
        limit: 2,
        variables: TWO_VARIABLES,
        turns: &[
            &[Step::Equation(Equation::Form(TermSketch::Ty(A_OF_Z), BYTE))],
            &[
                Step::Equation(Equation::Two(V1, A_OF_Z, YES)),
                Step::Equation(Equation::Form(TermSketch::Ty(V1), BYTE)),
            ],
            &[Step::Equation(Equation::Form(A_OF_P, Err(Fault::NoSolution)))],
        ],
        ..AT_ONCE
    },
    Scene {
        limit: 128,
        turns: &[
            &[Step::Equation(Equation::Form(TermSketch::Ty(A_OF_X), Ok(None)))],
            &[Step::Equation(Equation::Form(TermSketch::Ty(A_OF_V0), Ok(None)))],
        ],
        ..AT_ONCE
    },
];

#[test]
fn deeper_head_forms(rt: HostRuntime) -> Result<(), Fail> {
    assert_scenes(&rt, rt.alloc(), DEEPER_FORMS)
}

/// `<Vec<v0> as Pair<u8>>::A`: the one impl of `Pair<T>` for `Vec<T>` says that it is `Box<T>`.
const VEC_PAIRED: TermSketch = TermSketch::Ty(TypeSketch::Alias(A_OF_PAIR, &[VEC_OF_V0, U8]));

/// `<Box<v0> as Pair<u8>>::A`, for which there is no impl.
const BOX_PAIRED: TermSketch = TermSketch::Ty(TypeSketch::Alias(A_OF_PAIR, &[BOX_OF_V0, U8]));

const A_OF_PAIR: AliasTermKind = AliasTermKind::ProjectionTy(PAIR_A);

const BOX_OF_V0: TypeSketch = TypeSketch::Adt(BOX, &[V0]);

const BOX_OF_U8: TypeSketch = TypeSketch::Adt(BOX, &[U8]);

/// What the head form of an alias binds stays bound; where there is none nothing is.
const OPEN_FORMS: &[Scene] = &[
    Scene {
        limit: 2,
        variables: TWO_VARIABLES,
        turns: &[
            &[
                Step::Equation(Equation::Form(VEC_PAIRED, Ok(Some(TermSketch::Ty(BOX_OF_U8))))),
                Step::Equation(Equation::Two(V0, U16, NO)),
                Step::Equation(Equation::Two(V0, U8, YES)),
            ],
            &[
                Step::Equation(Equation::Form(BOX_PAIRED, Err(Fault::NoSolution))),
                Step::Equation(Equation::Two(V0, BOOL, YES)),
            ],
        ],
        ..AT_ONCE
    },
    Scene {
        limit: 1,
        variables: TWO_VARIABLES,
        turns: &[&[
            Step::Equation(Equation::Form(VEC_PAIRED, Ok(None))),
            Step::Equation(Equation::Two(V0, BOOL, YES)),
        ]],
        ..AT_ONCE
    },
];

#[test]
fn head_forms_with_variables(rt: HostRuntime) -> Result<(), Fail> {
    assert_scenes(&rt, rt.alloc(), OPEN_FORMS)
}
