//! Runs of a goal over the program's tables and over others, compared.
use crate::tests::scenes::checked_after;
use crate::tests::sketches::{
    ASSOC, Asked, I32, STRUCT_X, STRUCT_Z, TR_A, TermSketch, TypeSketch, U64, V0, VEC_OF_U32,
    goal_of,
};
use goal_checks::checked::{CheckedTables, check_tables};
use goal_program::names::VEC;
use goal_program::tables::{tables_with_specialized_impl, whole_tables};
use goal_solver::comparison::{Comparison, compare_runs};
use goal_tables::rows::{DefRow, DefValue, ImplRow, SourceRow, Tables};
use goal_terms::ids::{DefId, ImplId};
use goal_terms::modes::TypingMode;
use goal_terms::scalars::UintTy;
use goal_terms::terms::{Term, Ty};
use std::alloc::{AllocError, Global};
use std::process::Abort;
use std::test::Fail;

/// How other tables differ from the program's.
#[derive(Clone, Copy)]
enum Other {
    /// The impls stand the other way round.
    Reversed,
    /// `<Z as Tr>::A` is `u16`.
    AnotherValue,
    /// `Z` has no impl of `Tr`.
    WithoutImpl,
    /// An impl lists another as more special, and the impls stand the other way round.
    SpecializedReversed,
}

/// A goal, the limits of its two runs, and what they come to.
struct Compared(Asked, u32, u32, Comparison);

/// The impl of `Tr` for `Z`.
const IMPL_FOR_Z: ImplId = ImplId(5);

/// What that impl says of `A`.
const A_FOR_Z: DefId = DefId(3);

/// `Vec<Z>`.
const VEC_OF_Z: TypeSketch = TypeSketch::Adt(VEC, &[STRUCT_Z]);

/// `<Vec<Z> as Tr>::A`, which the more special of two impls gives.
const A_OF_VEC_OF_Z: Asked = Asked::Is(TR_A, &[VEC_OF_Z], TermSketch::Ty(V0));

/// `<Vec<u32> as Trait<i32>>::Assoc<u64>`, which two impls give.
const ASSOC_OF_VEC: Asked = Asked::Is(ASSOC, &[VEC_OF_U32, I32, U64], TermSketch::Ty(V0));

/// `<X as Tr>::A`, which has no term.
const A_OF_X: Asked = Asked::Is(TR_A, &[STRUCT_X], TermSketch::Ty(V0));

/// `<Z as Tr>::A`, whose derivation has the height 2.
const A_OF_Z: Asked = Asked::Is(TR_A, &[STRUCT_Z], TermSketch::Ty(V0));

const IN_ANOTHER_ORDER: &[Compared] = &[
    Compared(ASSOC_OF_VEC, 2, 128, Comparison::Same),
    Compared(A_OF_Z, 1, 2, Comparison::OneUndecided),
    Compared(A_OF_X, 0, 128, Comparison::Same),
    Compared(Asked::Ambiguous, 0, 1, Comparison::Same),
];

const OF_ANOTHER_VALUE: &[Compared] = &[Compared(A_OF_Z, 2, 2, Comparison::Different)];

const SPECIALIZED: &[Compared] = &[
    Compared(A_OF_VEC_OF_Z, 3, 128, Comparison::Same),
    Compared(A_OF_VEC_OF_Z, 1, 128, Comparison::OneUndecided),
];

const WITHOUT_AN_IMPL: &[Compared] = &[Compared(A_OF_Z, 2, 2, Comparison::Different)];

/// The other tables.
fn tables_of(alloc: Global, other: Other) -> Result<Tables, AllocError> {
    let mut tables = unchanged_tables(alloc, other)?;
    match other {
        Other::Reversed | Other::SpecializedReversed => tables.impls.reverse(),
        Other::AnotherValue => give_value(&mut tables.definitions),
        Other::WithoutImpl => remove_impl(&mut tables),
    }
    Ok(tables)
}

/// The tables from which the other ones are made.
fn unchanged_tables(alloc: Global, other: Other) -> Result<Tables, AllocError> {
    match other {
        Other::SpecializedReversed => tables_with_specialized_impl(alloc),
        _ => whole_tables(alloc),
    }
}

/// Makes `A` of `Z` the type `u16`.
fn give_value(rows: &mut Vec<DefRow>) {
    for row in rows.as_mut_slice() {
        if row.id == A_FOR_Z {
            row.value = DefValue::Term(Term::Ty(Ty::Uint(UintTy::U16)));
        }
    }
}

/// Takes the impl of `Tr` for `Z` out, and what it says.
fn remove_impl(tables: &mut Tables) {
    remove_impl_row(&mut tables.impls);
    remove_source(&mut tables.sources);
    remove_definition(&mut tables.definitions);
}

fn remove_impl_row(rows: &mut Vec<ImplRow>) {
    if let Some(place) = rows.iter().position(|row| row.id == IMPL_FOR_Z) {
        rows.remove(place);
    }
}

fn remove_source(rows: &mut Vec<SourceRow>) {
    if let Some(place) = rows.iter().position(|row| row.impl_id == IMPL_FOR_Z) {
        rows.remove(place);
    }
}

fn remove_definition(rows: &mut Vec<DefRow>) {
    if let Some(place) = rows.iter().position(|row| row.id == A_FOR_Z) {
        rows.remove(place);
    }
}

/// Asserts what runs over the program's tables and over others come to.
fn assert_compared(
    rt: &impl Abort,
    alloc: Global,
    other: Other,
    rows: &[Compared],
) -> Result<(), Fail> {
    let tables = checked_after(alloc, &[])?;
    assert_beside(rt, alloc, &tables, other, rows)
}

/// Asserts what runs over some tables and over others come to.
fn assert_beside(
    rt: &impl Abort,
    alloc: Global,
    tables: &CheckedTables,
    other: Other,
    rows: &[Compared],
) -> Result<(), Fail> {
    let others = check_tables(tables_of(alloc, other)?)?;
    for row in rows {
        assert_row(rt, alloc, tables, &others, row)?;
    }
    Ok(())
}

/// Asserts what the runs of a goal come to.
fn assert_row(
    rt: &impl Abort,
    alloc: Global,
    tables: &CheckedTables,
    others: &CheckedTables,
    row: &Compared,
) -> Result<(), Fail> {
    let Compared(asked, limit, other_limit, expected) = row;
    let goal = goal_of(alloc, &[], asked)?;
    let mode = TypingMode::PostAnalysis;
    let compared = compare_runs(tables, others, &mode, &goal, *limit, *other_limit);
    assert_eq!(rt; compared, Ok(*expected));
    Ok(())
}

#[test]
fn the_order_of_impls(rt: HostRuntime) -> Result<(), Fail> {
    assert_compared(&rt, rt.alloc(), Other::Reversed, IN_ANOTHER_ORDER)
}

#[test]
fn another_value(rt: HostRuntime) -> Result<(), Fail> {
    assert_compared(&rt, rt.alloc(), Other::AnotherValue, OF_ANOTHER_VALUE)
}

#[test]
fn an_impl_less(rt: HostRuntime) -> Result<(), Fail> {
    assert_compared(&rt, rt.alloc(), Other::WithoutImpl, WITHOUT_AN_IMPL)
}

#[test]
fn the_order_of_specialized_impls(rt: HostRuntime) -> Result<(), Fail> {
    let alloc = rt.alloc();
    let tables = check_tables(tables_with_specialized_impl(alloc)?)?;
    assert_beside(&rt, alloc, &tables, Other::SpecializedReversed, SPECIALIZED)
}
