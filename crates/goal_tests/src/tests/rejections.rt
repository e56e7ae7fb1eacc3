//! Lists of arguments that can't become the same, by fast rejection.
use crate::tests::sketches::{A_OF_Z, T, TypeSketch, U8, U16, V0, args_of};
use goal_lists::fast_reject::{args_may_unify_infer, args_may_unify_rigid};
use goal_program::names::{BOX, VEC};
use std::alloc::Global;
use std::process::Abort;
use std::test::Fail;

/// Two lists, and whether they may become the same where the parameters of the second stand for themselves, and where
/// they stand for any types.
type Row = (&'static [TypeSketch], &'static [TypeSketch], bool, bool);

const ROWS: &[Row] = &[
    (&[U8, U16], &[U8, U16], true, true),
    (&[U8], &[U16], false, false),
    (&[U8], &[U8, U8], false, false),
    (
        &[TypeSketch::Adt(VEC, &[V0])],
        &[TypeSketch::Adt(VEC, &[U8])],
        true,
        true,
    ),
    (
        &[TypeSketch::Adt(VEC, &[U8])],
        &[TypeSketch::Adt(BOX, &[U8])],
        false,
        false,
    ),
    (&[U8], &[T], false, true),
    (&[T], &[U8], false, false),
    (&[A_OF_Z], &[U8], true, true),
];

/// Asserts what fast rejection says of a row.
fn assert_row(rt: &impl Abort, alloc: Global, row: &Row) -> Result<(), Fail> {
    let left = args_of(alloc, row.0)?;
    let right = args_of(alloc, row.1)?;
    assert_eq!(rt; args_may_unify_rigid(&left, &right), row.2);
    assert_eq!(rt; args_may_unify_infer(&left, &right), row.3);
    Ok(())
}

#[test]
fn fast_rejections(rt: HostRuntime) -> Result<(), Fail> {
    let alloc = rt.alloc();
    for row in ROWS {
        assert_row(&rt, alloc, row)?;
    }
    Ok(())
}
