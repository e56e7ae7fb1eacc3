//! What contexts are given and answer: fresh variables, hidden types, goals and responses.
use crate::tests::entries::ResponseSketch;
use crate::tests::equations::Equation;
use crate::tests::expected::{MAYBE, NO, YES};
use crate::tests::given::Given;
use crate::tests::goal_steps::{GoalStep, Projected};
use crate::tests::sketches::{
    Asked, BOOL, STRUCT_P, STRUCT_X, STRUCT_Z, TR_A, TermSketch, TypeSketch, U8, U16, V0, V1,
};
use crate::tests::steps::{AT_ONCE, Scene, Step, TWO_VARIABLES, assert_scene, assert_scenes};
use goal_program::names::{BOX, FREE_A, HID, OWN, PAIR, PAIR_A, TR, VEC};
use goal_solver::eval::goals::GoalFault;
use goal_terms::answers::{ParamKind, TraitGoalProvenVia, VarKind};
use goal_terms::ids::TraitId;
use goal_terms::terms::AliasTermKind;
use std::test::Fail;

/// `Z: Tr`.
const Z_HOLDS: Asked = Asked::Holds(TR, &[STRUCT_Z]);

const GIVEN: &Scene = &Scene {
    variables: &[],
    turns: &[
        &[
            Step::Given(Given::Fresh(VarKind::Ty, 0)),
            Step::Given(Given::Fresh(VarKind::Int, 1)),
            Step::Given(Given::Fresh(VarKind::Float, 2)),
            Step::Given(Given::Fresh(VarKind::Const, 3)),
            Step::Given(Given::Fresh(VarKind::Region, 4)),
        ],
        &[Step::Given(Given::FreshArguments(
            &[ParamKind::Lifetime, ParamKind::Ty, ParamKind::Const],
            &[(VarKind::Region, 0), (VarKind::Ty, 1), (VarKind::Const, 2)],
        ))],
        &[
            Step::Given(Given::Hidden(HID, BOOL, None)),
            Step::Given(Given::Hidden(HID, TypeSketch::Char, Some(BOOL))),
        ],
    ],
    ..AT_ONCE
};

#[test]
fn fresh_variables_and_hidden_types(rt: HostRuntime) -> Result<(), Fail> {
    assert_scene(&rt, rt.alloc(), GIVEN)
}

const TRAIT_GOALS: &Scene = &Scene {
    limit: 1,
    variables: &[],
    turns: &[&[
        Step::Goal(GoalStep::Check(Z_HOLDS, None)),
        Step::Goal(GoalStep::Check(
            Asked::Holds(TraitId(17), &[STRUCT_Z]),
            Some(GoalFault::UnknownItem),
        )),
        Step::Goal(GoalStep::Check(Asked::HoldsConst(TR, &[STRUCT_Z]), None)),
        Step::Goal(GoalStep::Check(
            Asked::HoldsConst(OWN, &[STRUCT_Z]),
            Some(GoalFault::NeverConst),
        )),
        Step::Goal(GoalStep::Check(
            Asked::Holds(TR, &[STRUCT_Z, U8]),
            Some(GoalFault::WrongArgumentCount),
        )),
        Step::Goal(GoalStep::Check(Asked::Holds(TR, &[TypeSketch::Param(7)]), None)),
        Step::Goal(GoalStep::Check(Asked::Holds(TR, &[TypeSketch::Placeholder(7)]), None)),
        Step::Goal(GoalStep::Check(Asked::Holds(TR, &[V0]), Some(GoalFault::UnknownVariable))),
    ]],
    ..AT_ONCE
};

#[test]
fn trait_goals(rt: HostRuntime) -> Result<(), Fail> {
    assert_scene(&rt, rt.alloc(), TRAIT_GOALS)
}

const ALIAS_GOALS: &Scene = &Scene {
    limit: 1,
    variables: &[],
    turns: &[
        &[
            Step::Goal(GoalStep::Check(
                Asked::Equals(TR_A, &[STRUCT_Z], TermSketch::Ty(BOOL)),
                None,
            )),
            Step::Goal(GoalStep::Check(
                Asked::Equals(TR_A, &[STRUCT_Z], TermSketch::Value(3)),
                Some(GoalFault::WrongArgumentKind),
            )),
            Step::Goal(GoalStep::Check(
                Asked::Is(TR_A, &[STRUCT_Z], TermSketch::Ty(BOOL)),
                Some(GoalFault::ExpectedTermNotFree),
            )),
            Step::Goal(GoalStep::Check(Asked::Ambiguous, None)),
        ],
        &[
            Step::Goal(GoalStep::Add(&[Z_HOLDS])),
            Step::Goal(GoalStep::Check(Z_HOLDS, Some(GoalFault::GoalsPending))),
            Step::Goal(GoalStep::Evaluate(YES)),
            Step::Goal(GoalStep::Check(Z_HOLDS, None)),
        ],
    ],
    ..AT_ONCE
};

#[test]
fn alias_goals_and_added_goals(rt: HostRuntime) -> Result<(), Fail> {
    assert_scene(&rt, rt.alloc(), ALIAS_GOALS)
}

const RESPONSES: &[Scene] = &[
    Scene {
        limit: 1,
        variables: &[],
        turns: &[
            &[
                Step::Given(Given::Fresh(VarKind::Ty, 0)),
                Step::Equation(Equation::Two(V0, U8, YES)),
                Step::Goal(GoalStep::Add(&[Z_HOLDS])),
                Step::Goal(GoalStep::Respond(ResponseSketch {
                    base: 0,
                    vars: &[VarKind::Ty],
                    values: &[(0, U8)],
                })),
            ],
            &[Step::Goal(GoalStep::Apply(TR, &[STRUCT_Z], YES))],
        ],
        ..AT_ONCE
    },
    Scene {
        turns: &[&[
            Step::Goal(GoalStep::Merge(TR, &[STRUCT_Z], YES)),
            Step::Goal(GoalStep::Merge(TR, &[STRUCT_P], NO)),
        ]],
        ..AT_ONCE
    },
];

#[test]
fn responses_and_merged_candidates(rt: HostRuntime) -> Result<(), Fail> {
    assert_scenes(&rt, rt.alloc(), RESPONSES)
}

/// `<Z as Tr>::A` is `u8`, `<P as Tr>::A` is refused, and `<X as Tr>::A` leads back to itself.
const A_OF_Z: Asked = Asked::Is(TR_A, &[STRUCT_Z], TermSketch::Ty(V0));

const NORMALIZATIONS: &Scene = &Scene {
    limit: 2,
    variables: TWO_VARIABLES,
    turns: &[
        &[
            Step::Goal(GoalStep::Add(&[A_OF_Z, Z_HOLDS])),
            Step::Goal(GoalStep::Respond(ResponseSketch {
                base: 0,
                vars: TWO_VARIABLES,
                values: &[(0, U8)],
            })),
        ],
        &[
            Step::Goal(GoalStep::Add(&[Asked::Is(TR_A, &[STRUCT_X], TermSketch::Ty(V1)), A_OF_Z])),
            Step::Goal(GoalStep::Evaluate(MAYBE)),
            Step::Equation(Equation::Two(V0, U16, NO)),
            Step::Equation(Equation::Two(V1, U16, YES)),
        ],
        &[
            Step::Goal(GoalStep::Add(&[A_OF_Z, Asked::Is(TR_A, &[STRUCT_P], TermSketch::Ty(V1))])),
            Step::Goal(GoalStep::Evaluate(NO)),
            Step::Equation(Equation::Two(V0, U16, YES)),
        ],
    ],
    ..AT_ONCE
};

#[test]
fn added_normalizations(rt: HostRuntime) -> Result<(), Fail> {
    assert_scene(&rt, rt.alloc(), NORMALIZATIONS)
}

const VEC_OF_V0: TypeSketch = TypeSketch::Adt(VEC, &[V0]);

const BOX_OF_V0: TypeSketch = TypeSketch::Adt(BOX, &[V0]);

/// Trait goals with the unbound variable 0. There is only `impl<T> Pair<T> for Vec<T>`.
const OPEN_GOALS: &[Scene] = &[
    Scene {
        limit: 1,
        turns: &[
            &[
                Step::Goal(GoalStep::Apply(PAIR, &[VEC_OF_V0, U8], YES)),
                Step::Equation(Equation::Two(V0, U16, NO)),
                Step::Equation(Equation::Two(V0, U8, YES)),
            ],
            &[Step::Goal(GoalStep::Apply(PAIR, &[BOX_OF_V0, U8], NO))],
            &[Step::Goal(GoalStep::Apply(PAIR, &[STRUCT_P, V0], NO))],
            &[Step::Goal(GoalStep::Apply(PAIR, &[V0, U8], MAYBE))],
        ],
        ..AT_ONCE
    },
    Scene {
        turns: &[
            &[Step::Goal(GoalStep::Apply(PAIR, &[VEC_OF_V0, U8], MAYBE))],
            &[Step::Goal(GoalStep::Apply(PAIR, &[BOX_OF_V0, U8], MAYBE))],
        ],
        ..AT_ONCE
    },
];

#[test]
fn trait_goals_with_variables(rt: HostRuntime) -> Result<(), Fail> {
    assert_scenes(&rt, rt.alloc(), OPEN_GOALS)
}

const BOX_OF_U8: TypeSketch = TypeSketch::Adt(BOX, &[U8]);

/// The item `A` of `Pair<U>`.
const A_OF_PAIR: AliasTermKind = AliasTermKind::ProjectionTy(PAIR_A);

/// `<Vec<v0> as Pair<u8>>::A`, the variable 0 being `v0`.
const VEC_PAIRED: Projected = Projected {
    class: None,
    kind: A_OF_PAIR,
    parts: &[VEC_OF_V0, U8],
};

/// Projections with the unbound variable 0, and a free alias. The one impl of `Pair` says that `A` is `Box<T>`.
const OPEN_PROJECTIONS: &[Scene] = &[
    Scene {
        limit: 2,
        variables: TWO_VARIABLES,
        turns: &[&[
            Step::Goal(GoalStep::Project(VEC_PAIRED, YES, &[(1, BOX_OF_U8), (0, U8)])),
            Step::Goal(GoalStep::Project(
                Projected {
                    parts: &[BOX_OF_V0, U8],
                    ..VEC_PAIRED
                },
                NO,
                &[],
            )),
            Step::Goal(GoalStep::Project(
                Projected {
                    parts: &[V0, U8],
                    ..VEC_PAIRED
                },
                MAYBE,
                &[],
            )),
            Step::Goal(GoalStep::Project(
                Projected {
                    kind: AliasTermKind::FreeTy(FREE_A),
                    parts: &[V0],
                    ..VEC_PAIRED
                },
                YES,
                &[(1, VEC_OF_V0)],
            )),
        ]],
        ..AT_ONCE
    },
    Scene {
        limit: 1,
        variables: TWO_VARIABLES,
        turns: &[&[Step::Goal(GoalStep::Project(VEC_PAIRED, MAYBE, &[]))]],
        ..AT_ONCE
    },
];

#[test]
fn projections_with_variables(rt: HostRuntime) -> Result<(), Fail> {
    assert_scenes(&rt, rt.alloc(), OPEN_PROJECTIONS)
}

/// `<Vec<v0> as Pair<u8>>::A` as it stands.
const VEC_PAIRED_ITSELF: TypeSketch = TypeSketch::Alias(A_OF_PAIR, &[VEC_OF_V0, U8]);

/// Where its trait goal holds by the rest, the impl gives the term, and else the alias is rigid.
const BY_CLASS: &Scene = &Scene {
    limit: 1,
    variables: TWO_VARIABLES,
    turns: &[&[
        Step::Goal(GoalStep::Project(
            Projected {
                class: Some(TraitGoalProvenVia::Misc),
                ..VEC_PAIRED
            },
            YES,
            &[(1, BOX_OF_U8), (0, U8)],
        )),
        Step::Goal(GoalStep::Project(
            Projected {
                class: Some(TraitGoalProvenVia::AliasBound),
                ..VEC_PAIRED
            },
            YES,
            &[(1, VEC_PAIRED_ITSELF)],
        )),
        Step::Goal(GoalStep::Project(
            Projected {
                class: Some(TraitGoalProvenVia::Misc),
                parts: &[BOX_OF_V0, U8],
                ..VEC_PAIRED
            },
            NO,
            &[],
        )),
    ]],
    ..AT_ONCE
};

#[test]
fn projections_with_variables_by_their_class(rt: HostRuntime) -> Result<(), Fail> {
    assert_scene(&rt, rt.alloc(), BY_CLASS)
}
