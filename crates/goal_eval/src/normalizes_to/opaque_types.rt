//! Opaque types that are being defined.
ghost use Rattle.std.specs.Prelude.{◌≡◌, IfErr, IfOk};
ghost use Rattle.goal_interner.specs.TableMeaning.{Keeps};
ghost use Rattle.goal_lists.specs.HiddenTypes.{HaveForms};
ghost use Rattle.goal_lists.specs.Interned.{AreIn, erased_all};
ghost use Rattle.goal_eval.specs.Effects.{AreSound, IsStop};
ghost use Rattle.goal_eval.specs.Lists.{AtEachLevel};
ghost use Rattle.goal_eval.specs.OpaqueTypes.{SaysChecked, found_where};
ghost use Rattle.goal_eval.specs.Outcomes.{FoundIn};

use crate::eval::effects::Effects;
use crate::eval::head_forms::head_form;
use crate::eval::id_lists::joined;
use crate::eval::outcomes::{Found, Setting, Stop};
use crate::eval::premises::clauses_outcome;
use crate::eval::row_values::{ValueOfRow, value_under};
use crate::normalizes_to::projections::head_forms_outcome;
use goal_interner::term_nodes::TermId;
use goal_interner::term_table::TermTable;
use goal_lists::lists::{RowValue, RowValueTerm};
use goal_lists::outcomes::Outcome;
use goal_tables::rows::OpaqueRow;

/// What type checking found for an opaque type, under its arguments: that type's head form, where the arguments have
/// head forms and the opaque type's bounds hold with the type in its own place.
#[tactic(auto, using(crate::proofs::CacheLemmas::caching))]
#[cycle(closed)]
pub(crate) fn checked_type(
    setting: &Setting<'_>,
    terms: &mut TermTable,
    effects: &mut Effects,
    row: &OpaqueRow,
    args: &[TermId],
    depth: u32,
) -> Result<Found, Stop>
    requires effects { AreSound setting.now terms.old effects.old }
    requires args { AreIn terms.old args.now }
    ensures effects { AreSound setting.now terms.new effects.new }
    ensures kept { Keeps terms.old terms.new }
    ensures within { IfOk result (FoundIn terms.new) }
    ensures stops { IfErr result (IsStop setting.now) }
    ensures says { AtEachLevel setting.now depth (λ L. IfOk result (SaysChecked L (erased_all terms.old args.now) row.now terms.new)) }
{
    match head_forms_outcome(setting, terms, effects, args, depth)? {
        Outcome::Undecided => Ok(Found::Undecided),
        Outcome::Refuted => Ok(Found::Refuted),
        Outcome::Holds => bounded_type(setting, terms, effects, row, args, depth),
    }
}

/// The same where all arguments have head forms.
#[tactic(auto, using(crate::proofs::CacheLemmas::caching))]
#[cycle(closed)]
fn bounded_type(
    setting: &Setting<'_>,
    terms: &mut TermTable,
    effects: &mut Effects,
    row: &OpaqueRow,
    args: &[TermId],
    depth: u32,
) -> Result<Found, Stop>
    requires effects { AreSound setting.now terms.old effects.old }
    requires args { AreIn terms.old args.now }
    ensures effects { AreSound setting.now terms.new effects.new }
    ensures kept { Keeps terms.old terms.new }
    ensures within { IfOk result (FoundIn terms.new) }
    ensures stops { IfErr result (IsStop setting.now) }
    ensures says { AtEachLevel setting.now depth (λ L. HaveForms L (erased_all terms.old args.now) → IfOk result (SaysChecked L (erased_all terms.old args.now) row.now terms.new)) }
{
    let of = ValueOfRow {
        row: RowValue::Opaque(row.id),
        value: RowValueTerm::Ty(&row.typeck_hidden),
    };
    let hidden = value_under(setting, terms, effects, of, args)?;
    let all = joined(setting, args, &[hidden])?;
    let bounds = clauses_outcome(setting, terms, effects, &row.bounds, &all, depth)?;
    if let Outcome::Refuted = bounds {
        return Ok(Found::Refuted);
    }
    let found = head_form(setting, terms, effects, hidden, depth)?;
    Ok(found_where(bounds, found))
}

/// What was found, where something else holds. It is refuted where either is.
fn found_where(holds: Outcome, found: Found) -> Found
    ensures { result ≡ found_where holds found }
{
    match holds {
        Outcome::Holds => found,
        Outcome::Refuted => Found::Refuted,
        Outcome::Undecided => match found {
            Found::Refuted => Found::Refuted,
            _ => Found::Undecided,
        },
    }
}
