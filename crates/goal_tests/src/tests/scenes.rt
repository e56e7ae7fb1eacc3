//! Contexts over the tables of the program.
ghost use Rattle.std.specs.Prelude.{◌≡◌};

use crate::tests::changes::{Change, changed_tables};
use goal_checks::checked::{CheckedTables, check_tables};
use goal_solver::context::EvalCtxt;
use goal_solver::faults::Fault;
use goal_terms::answers::VarKind;
use goal_terms::modes::TypingMode;
use goal_terms::terms::GenericArg;
use std::alloc::Global;
use std::test::Fail;

/// The mode that is asked in.
#[derive(Clone, Copy)]
pub enum Mode {
    Coherence,
    /// In which no opaque type is defined.
    Analysis,
    PostAnalysis,
    /// Without a mode, where a goal that needs one is undecided.
    Erased,
    /// Without a mode, where a goal that needs one is refused.
    ErasedThatStops,
}

/// The tables of the program after changes, checked.
pub fn checked_after(alloc: Global, changes: &[Change]) -> Result<CheckedTables, Fail> {
    Ok(check_tables(changed_tables(alloc, changes)?)?)
}

/// A context in a mode, with a limit on the depth and variables.
pub fn context_in<'t>(
    alloc: Global,
    tables: &'t CheckedTables,
    mode: Mode,
    limit: u32,
    variables: &[VarKind],
) -> Result<EvalCtxt<'t>, Fail> {
    let stops = matches!(mode, Mode::ErasedThatStops);
    let mut context = EvalCtxt::new(tables, typing_mode(alloc, mode), limit, stops)?;
    make_variables(&mut context, variables)?;
    Ok(context)
}

/// Makes variables of kinds.
pub fn make_variables(context: &mut EvalCtxt<'_>, kinds: &[VarKind]) -> Result<(), Fault>
    ensures over { context.new.tables ≡ context.old.tables }
{
    for kind in kinds {
        fresh(context, *kind)?;
    }
    Ok(())
}

/// A fresh variable of a kind.
pub fn fresh(context: &mut EvalCtxt<'_>, kind: VarKind) -> Result<GenericArg, Fault>
    ensures over { context.new.tables ≡ context.old.tables }
{
    match kind {
        VarKind::Ty => Ok(GenericArg::Ty(context.next_ty_infer()?)),
        VarKind::Int => Ok(GenericArg::Ty(context.next_int_infer()?)),
        VarKind::Float => Ok(GenericArg::Ty(context.next_float_infer()?)),
        VarKind::Const => Ok(GenericArg::Const(context.next_const_infer()?)),
        VarKind::Region => Ok(GenericArg::Lifetime(context.next_region_var()?)),
    }
}

/// The mode of a context.
fn typing_mode(alloc: Global, mode: Mode) -> TypingMode {
    match mode {
        Mode::Coherence => TypingMode::Coherence,
        Mode::Analysis => TypingMode::Analysis {
            defining_opaque_types: Vec::new(alloc),
        },
        Mode::PostAnalysis => TypingMode::PostAnalysis,
        Mode::Erased | Mode::ErasedThatStops => TypingMode::ErasedNotCoherence,
    }
}
