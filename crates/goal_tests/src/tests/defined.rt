//! Opaque types that are being defined after type checking: each is entered once, and its later uses meet the
//! type that was entered.
ghost use Rattle.std.specs.Prelude.{◌≡◌, IfOk};
ghost use Rattle.goal_solver.specs.Binding.{IsApplicable};

use crate::tests::scenes::make_variables;
use crate::tests::sketches::{T, TypeSketch, U8, V0, V1, alias_goal_of, ty_of};
use crate::tests::steps::TWO_VARIABLES;
use goal_checks::checked::{CheckedTables, check_tables};
use goal_program::names::{FREE_F, VEC};
use goal_program::tables::whole_tables;
use goal_solver::context::EvalCtxt;
use goal_solver::eval::goals::check_goal;
use goal_solver::faults::Fault;
use goal_tables::rows::OpaqueRow;
use goal_terms::answers::{Certainty, ParamKind, Response};
use goal_terms::ids::OpaqueId;
use goal_terms::modes::TypingMode;
use goal_terms::predicates::{Goal, NormalizesTo};
use goal_terms::terms::{AliasTermKind, Term};
use std::alloc::{AllocError, Global};
use std::process::Abort;
use std::test::Fail;

/// An opaque type without parameters, which is found to be `u8`.
const LOC: OpaqueId = OpaqueId(1);

/// An opaque type with a parameter `T`, which is found to be `Vec<T>`.
const LOC_P: OpaqueId = OpaqueId(2);

/// The free alias `F`, which stands for `u8`.
const ALIAS_F: TypeSketch = TypeSketch::Alias(AliasTermKind::FreeTy(FREE_F), &[]);

const VEC_OF_T: TypeSketch = TypeSketch::Adt(VEC, &[T]);

const VEC_OF_F: TypeSketch = TypeSketch::Adt(VEC, &[ALIAS_F]);

/// A use of an opaque type: its arguments, the variable that it is asked for with the value that this is
/// given, and how many types are entered.
struct Use {
    id: OpaqueId,
    parts: &'static [TypeSketch],
    expected: TypeSketch,
    value: TypeSketch,
    entered: usize,
}

/// The row of a local opaque type without bounds.
fn opaque_row(
    alloc: Global,
    id: OpaqueId,
    params: &[ParamKind],
    found: &TypeSketch,
) -> Result<OpaqueRow, AllocError> {
    Ok(OpaqueRow {
        id,
        params: params.to_vec(alloc)?,
        is_local: true,
        hidden: ty_of(alloc, &U8)?,
        typeck_hidden: ty_of(alloc, found)?,
        bounds: Vec::new(alloc),
        const_bounds: None,
    })
}

/// The tables of the program with the two opaque types.
fn tables_with_both(alloc: Global) -> Result<CheckedTables, Fail> {
    let mut tables = whole_tables(alloc)?;
    let first = opaque_row(alloc, LOC, &[], &U8)?;
    tables.opaque_types.push(first)?;
    let second = opaque_row(alloc, LOC_P, &[ParamKind::Ty], &VEC_OF_T)?;
    tables.opaque_types.push(second)?;
    Ok(check_tables(tables)?)
}

/// A context in which both are being defined after type checking, with two variables.
fn context_over<'t>(
    alloc: Global,
    tables: &'t CheckedTables,
    limit: u32,
) -> Result<EvalCtxt<'t>, Fail>
    ensures over { IfOk result (λ made. made.tables ≡ tables.now) }
{
    let defining_opaque_types = [LOC, LOC_P].to_vec(alloc)?;
    let mode = TypingMode::Borrowck {
        defining_opaque_types,
    };
    let mut context = EvalCtxt::new(tables, mode, limit, false)?;
    make_variables(&mut context, TWO_VARIABLES)?;
    Ok(context)
}

/// What a use is answered, if the check accepts it. Such an answer can be applied.
fn answer_use(
    tables: &CheckedTables,
    context: &mut EvalCtxt<'_>,
    goal: &Goal<NormalizesTo>,
) -> Result<Response, Fault>
    requires over { context.old.tables ≡ tables.now }
    ensures over { context.new.tables ≡ tables.now }
    ensures applies { IfOk result (IsApplicable context.new) }
{
    match check_goal(tables, context, goal) {
        Err(_) => Err(Fault::NotForThisKind),
        Ok(()) => context.compute_normalizes_to_goal(goal),
    }
}

/// Asserts what a use is answered, and applies the answer.
fn assert_use(
    rt: &impl Abort,
    alloc: Global,
    tables: &CheckedTables,
    context: &mut EvalCtxt<'_>,
    asked: &Use,
) -> Result<(), Fail>
    requires over { context.old.tables ≡ tables.now }
    ensures over { context.new.tables ≡ tables.now }
{
    let kind = AliasTermKind::OpaqueTy(asked.id);
    let goal = alias_goal_of(alloc, kind, asked.parts, &asked.expected)?;
    let response = answer_use(tables, context, &goal)?;
    assert_eq!(rt; response.certainty, Certainty::Yes);
    assert_eq!(rt; response.opaque_entries.len(), asked.entered);
    context.apply_response(&response)?;
    let term = context.structurally_normalize_term(&[], &goal.predicate.term)?;
    assert!(rt; term == Some(Term::Ty(ty_of(alloc, &asked.value)?)));
    Ok(())
}

/// Asserts what uses are answered in a context, one after the other.
fn assert_each(
    rt: &impl Abort,
    alloc: Global,
    tables: &CheckedTables,
    context: &mut EvalCtxt<'_>,
    uses: &[Use],
) -> Result<(), Fail>
    requires over { context.old.tables ≡ tables.now }
{
    for asked in uses {
        assert_use(rt, alloc, tables, context, asked)?;
    }
    Ok(())
}

/// Asserts what uses are answered in a new context, one after the other.
fn assert_uses(rt: &impl Abort, alloc: Global, limit: u32, uses: &[Use]) -> Result<(), Fail> {
    let tables = tables_with_both(alloc)?;
    let mut context = context_over(alloc, &tables, limit)?;
    assert_each(rt, alloc, &tables, &mut context, uses)
}

/// Two uses of the type without parameters.
const WITHOUT_PARAMETERS: &[Use] = &[
    Use {
        id: LOC,
        parts: &[],
        expected: V0,
        value: U8,
        entered: 1,
    },
    Use {
        id: LOC,
        parts: &[],
        expected: V1,
        value: U8,
        entered: 0,
    },
];

#[test]
fn one_entry_of_a_type(rt: HostRuntime) -> Result<(), Fail> {
    assert_uses(&rt, rt.alloc(), 1, WITHOUT_PARAMETERS)
}

/// Two uses of the other one under arguments that are normalized to the same: the second one meets the type that the
/// first one was given, in which the alias stands as it was written there.
const UNDER_ONE_ARGUMENT: &[Use] = &[
    Use {
        id: LOC_P,
        parts: &[ALIAS_F],
        expected: V0,
        value: VEC_OF_F,
        entered: 1,
    },
    Use {
        id: LOC_P,
        parts: &[U8],
        expected: V1,
        value: VEC_OF_F,
        entered: 0,
    },
];

#[test]
fn one_entry_under_an_argument(rt: HostRuntime) -> Result<(), Fail> {
    assert_uses(&rt, rt.alloc(), 2, UNDER_ONE_ARGUMENT)
}
