//! Lists that are run, closed and with variables.
use crate::tests::entries::{Entry, ResponseSketch};
use crate::tests::expected::{MAYBE, NO, YES};
use crate::tests::runs::Run;
use crate::tests::scenes::Mode;
use crate::tests::sketches::{I32, STRUCT_P, STRUCT_Z, TR_A, TypeSketch, U8, V0, VEC_OF_U32};
use crate::tests::steps::{AT_ONCE, Scene, Step, TWO_VARIABLES, assert_scene, assert_scenes};
use goal_program::names::{HID, TR, VEC, W};
use goal_solver::faults::Fault;
use goal_terms::answers::{DelayedFault, OpaqueAccess};
use goal_terms::ids::{DefId, ImplId};
use goal_terms::terms::AliasTermKind;
use std::test::Fail;

const VEC_OF_V0: TypeSketch = TypeSketch::Adt(VEC, &[V0]);

const IS_Z: Entry = Entry::Equal(V0, STRUCT_Z);

const IS_P: Entry = Entry::Equal(V0, STRUCT_P);

/// The variable 0 is a `Tr`, which `Z` is and `P` isn't.
const HOLDS: Entry = Entry::Holds(TR, &[V0]);

/// The header of `impl<T> Trait<i32> for Vec<T>` fits `Vec` of the variable 0.
const FITS: Entry = Entry::Fits(ImplId(0), &[VEC_OF_V0, I32]);

/// The same header fits the variable 0.
const FITS_ANY: Entry = Entry::Fits(ImplId(0), &[V0, I32]);

/// The same header fits `P`.
const FITS_NONE: Entry = Entry::Fits(ImplId(0), &[STRUCT_P, I32]);

/// The variable 1 stands for `<v0 as Tr>::A`.
const VALUE: Entry = Entry::Value(TypeSketch::Alias(TR_A, &[V0]));

/// `Z: Tr`.
const Z_HOLDS: Entry = Entry::Holds(TR, &[STRUCT_Z]);

/// `P: Tr`.
const P_HOLDS: Entry = Entry::Holds(TR, &[STRUCT_P]);

/// The header of `impl<T> Trait<i32> for Vec<T>` fits `Vec<u32>`.
const FITS_U32: Entry = Entry::Fits(ImplId(0), &[VEC_OF_U32, I32]);

const FAULT: Entry = Entry::Fault(DelayedFault::MissingItem(DefId(6)));

const GOALS: &Scene = &Scene {
    limit: 4,
    turns: &[&[
        Step::Run(Run::List(&[IS_Z], YES)),
        Step::Run(Run::List(&[IS_Z, HOLDS], YES)),
        Step::Run(Run::List(&[HOLDS, IS_Z], YES)),
        Step::Run(Run::List(&[HOLDS], MAYBE)),
        Step::Run(Run::List(&[HOLDS, Entry::Evaluation, IS_Z], YES)),
        Step::Run(Run::List(&[IS_P, HOLDS], NO)),
        Step::Run(Run::List(&[IS_P, HOLDS, Entry::Evaluation], NO)),
        Step::Run(Run::List(&[IS_Z, IS_P], NO)),
    ]],
    ..AT_ONCE
};

#[test]
fn equations_and_goals(rt: HostRuntime) -> Result<(), Fail> {
    assert_scene(&rt, rt.alloc(), GOALS)
}

const ENDS: &Scene = &Scene {
    limit: 4,
    turns: &[&[
        Step::Run(Run::List(&[Entry::Undecided, IS_Z], MAYBE)),
        Step::Run(Run::List(&[IS_Z, Entry::Undecided], MAYBE)),
        Step::Run(Run::List(&[Entry::Undecided, IS_P, HOLDS], NO)),
        Step::Run(Run::List(&[IS_Z, Entry::Refused], NO)),
        Step::Run(Run::List(&[FITS], YES)),
        Step::Run(Run::List(&[FITS_ANY], YES)),
        Step::Run(Run::List(&[HOLDS, FITS_NONE], NO)),
        Step::Run(Run::List(&[IS_P, FITS_ANY], NO)),
    ]],
    ..AT_ONCE
};

#[test]
fn headers_and_undecided_entries(rt: HostRuntime) -> Result<(), Fail> {
    assert_scene(&rt, rt.alloc(), ENDS)
}

const VALUES: &Scene = &Scene {
    limit: 4,
    variables: TWO_VARIABLES,
    turns: &[
        &[
            Step::Run(Run::List(&[IS_Z, VALUE], YES)),
            Step::Run(Run::List(&[VALUE, IS_Z], YES)),
            Step::Run(Run::List(&[VALUE], MAYBE)),
            Step::Run(Run::List(&[Entry::Same(V0)], YES)),
            Step::Run(Run::Recorded(0, &[])),
        ],
        &[Step::Run(Run::ListTo(
            &[IS_Z, VALUE],
            ResponseSketch {
                base: 2,
                vars: &[],
                values: &[(0, STRUCT_Z), (1, U8)],
            },
        ))],
    ],
    ..AT_ONCE
};

#[test]
fn values_of_aliases(rt: HostRuntime) -> Result<(), Fail> {
    assert_scene(&rt, rt.alloc(), VALUES)
}

const OTHER_MODES: &[Scene] = &[
    Scene {
        mode: Mode::Coherence,
        limit: 4,
        turns: &[&[
            Step::Run(Run::List(&[IS_Z, Entry::Refused], NO)),
            Step::Run(Run::List(&[IS_Z, IS_P], NO)),
        ]],
        ..AT_ONCE
    },
    Scene {
        limit: 1,
        turns: &[
            &[
                Step::Run(Run::List(&[Z_HOLDS, FITS_U32], YES)),
                Step::Run(Run::List(&[Z_HOLDS, FITS_NONE], NO)),
                Step::Run(Run::List(&[P_HOLDS], NO)),
            ],
            &[
                Step::Run(Run::List(&[FAULT, Entry::Evaluation], YES)),
                Step::Run(Run::Recorded(1, &[])),
            ],
            &[
                Step::Run(Run::List(&[FAULT, Entry::Undecided], MAYBE)),
                Step::Run(Run::Recorded(1, &[])),
            ],
            &[
                Step::Run(Run::List(&[FAULT, Entry::Refused], NO)),
                Step::Run(Run::Recorded(1, &[])),
            ],
        ],
        ..AT_ONCE
    },
];

#[test]
fn coherence_and_closed_lists(rt: HostRuntime) -> Result<(), Fail> {
    assert_scenes(&rt, rt.alloc(), OTHER_MODES)
}

/// `<W as Tr>::A == u8`; the impl has no value for it.
const MISSING: Entry = Entry::Equal(TypeSketch::Alias(TR_A, &[TypeSketch::Adt(W, &[])]), U8);

/// The remote opaque type is `u8`, which it hides.
const HIDDEN: Entry = Entry::Equal(TypeSketch::Alias(AliasTermKind::OpaqueTy(HID), &[]), U8);

const MET: &[Scene] = &[
    Scene {
        limit: 4,
        turns: &[&[
            Step::Run(Run::List(&[MISSING], NO)),
            Step::Run(Run::Recorded(1, &[])),
            Step::Run(Run::List(&[HIDDEN], NO)),
            Step::Run(Run::Recorded(1, &[])),
        ]],
        ..AT_ONCE
    },
    Scene {
        mode: Mode::PostAnalysis,
        limit: 4,
        turns: &[&[
            Step::Run(Run::List(&[HIDDEN], YES)),
            Step::Run(Run::Recorded(0, &[])),
        ]],
        ..AT_ONCE
    },
    Scene {
        mode: Mode::Erased,
        limit: 4,
        turns: &[&[
            Step::Run(Run::List(&[HIDDEN], NO)),
            Step::Run(Run::Recorded(0, &[OpaqueAccess::IfPostAnalysis])),
        ]],
        ..AT_ONCE
    },
    Scene {
        mode: Mode::ErasedThatStops,
        limit: 4,
        turns: &[&[
            Step::Run(Run::List(&[HIDDEN], Err(Fault::RerunNonErased))),
            Step::Run(Run::Recorded(0, &[OpaqueAccess::IfPostAnalysis])),
        ]],
        ..AT_ONCE
    },
];

#[test]
fn what_entries_meet_is_recorded(rt: HostRuntime) -> Result<(), Fail> {
    assert_scenes(&rt, rt.alloc(), MET)
}
