//! The bounds of an opaque type, which are asked of its hidden type.
use crate::tests::expected::{Expected, NO, YES};
use crate::tests::sketches::{ClauseSketch, STRUCT_Z, T, TypeSketch, U8, clause_of, ty_of};
use goal_checks::checked::{CheckedTables, check_tables};
use goal_program::names::TR;
use goal_program::tables::whole_tables;
use goal_solver::context::EvalCtxt;
use goal_tables::rows::OpaqueRow;
use goal_terms::ids::OpaqueId;
use goal_terms::modes::TypingMode;
use std::alloc::{AllocError, Global};
use std::process::Abort;
use std::test::Fail;

/// An opaque type without parameters, so that the first one of its bounds stands for the type itself.
const BOUNDED: OpaqueId = OpaqueId(1);

/// That it is `Tr`.
const IS_TR: ClauseSketch = ClauseSketch::Holds(TR, &[T]);

/// The row of the opaque type.
fn bounded_row(alloc: Global) -> Result<OpaqueRow, AllocError> {
    let mut bounds = Vec::new(alloc);
    bounds.push(clause_of(alloc, &IS_TR)?)?;
    Ok(OpaqueRow {
        id: BOUNDED,
        params: Vec::new(alloc),
        is_local: true,
        hidden: ty_of(alloc, &STRUCT_Z)?,
        typeck_hidden: ty_of(alloc, &STRUCT_Z)?,
        bounds,
        const_bounds: None,
    })
}

/// The tables of the program with the opaque type.
fn tables_with_bounds(alloc: Global) -> Result<CheckedTables, Fail> {
    let mut tables = whole_tables(alloc)?;
    let row = bounded_row(alloc)?;
    tables.opaque_types.push(row)?;
    Ok(check_tables(tables)?)
}

/// Asserts what the bounds come to of a hidden type.
fn assert_bounds(
    rt: &impl Abort,
    alloc: Global,
    tables: &CheckedTables,
    hidden: &TypeSketch,
    expected: Expected,
) -> Result<(), Fail> {
    let mut context = EvalCtxt::new(tables, TypingMode::PostAnalysis, 2, false)?;
    let ty = ty_of(alloc, hidden)?;
    context.add_item_bounds_for_hidden_type(BOUNDED, &[], &[], &ty)?;
    assert_eq!(rt; context.try_evaluate_added_goals(), expected);
    Ok(())
}

#[test]
fn bounds_of_hidden_types(rt: HostRuntime) -> Result<(), Fail> {
    let tables = tables_with_bounds(rt.alloc())?;
    assert_bounds(&rt, rt.alloc(), &tables, &STRUCT_Z, YES)?;
    assert_bounds(&rt, rt.alloc(), &tables, &U8, NO)
}
