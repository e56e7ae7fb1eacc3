//! The values of rows under arguments.
ghost use Rattle.std.specs.Prelude.{◌≡◌, IfOk};
ghost use Rattle.goal_interner.specs.TableMeaning.{Keeps};
ghost use Rattle.goal_terms.specs.View.{tree_of_ref};
ghost use Rattle.goal_lists.specs.Headers.{under};
ghost use Rattle.goal_lists.specs.Interned.{IsIn, AreIn, erased_at, erased_all};
ghost use Rattle.goal_lists.specs.InternedEntries.{value_tree};
ghost use Rattle.goal_eval.specs.Effects.{KeepsButRegions};

use crate::eval::effects::Effects;
use crate::eval::outcomes::Setting;
use goal_interner::term_nodes::{OutOfMemory, TermId};
use goal_interner::term_table::TermTable;
use goal_lists::candidates::premises::term_under;
use goal_lists::lists::{RowValue, RowValueTerm};
use goal_terms::modes::TypingMode;
use goal_terms::view::TermRef;

/// A row's value, and which row it is of.
#[derive(Clone, Copy)]
pub(crate) struct ValueOfRow<'t> {
    pub(crate) row: RowValue,
    pub(crate) value: RowValueTerm<'t>,
}

#[tactic(auto, unfolding(crate::specs::Effects::KeepsButRegions))]
/// The number of a row's value under arguments. A hidden type that is seen through has a region variable of its
/// own for each lifetime that is erased in it, but in `PostAnalysis`. Only memory is refused.
pub(crate) fn value_under(
    setting: &Setting<'_>,
    terms: &mut TermTable,
    effects: &mut Effects,
    of: ValueOfRow<'_>,
    args: &[TermId],
) -> Result<TermId, OutOfMemory>
    requires args { AreIn terms.old args.now }
    ensures aside { KeepsButRegions effects.old effects.new }
    ensures kept { Keeps terms.old terms.new }
    ensures within { IfOk result (IsIn terms.new) }
    ensures tree { IfOk result (λ id. erased_at terms.new id ≡ under (erased_all terms.old args.now) (value_tree of.entry.value)) }
{
    let value = value_view(&of.value);
    if !has_fresh_lifetimes(setting.typing_mode, of.row) {
        return term_under(terms, value, args);
    }
    let hidden = terms.intern_part(value)?;
    let fresh = effects.with_fresh_lifetimes(terms, hidden)?;
    if !terms.contains(fresh) {
        return term_under(terms, value, args);
    }
    let term = terms.to_term(fresh)?;
    term_under(terms, term.view(), args)
}

/// A row's value, to be read under arguments.
fn value_view<'t>(value: &RowValueTerm<'t>) -> TermRef<'t>
    ensures { tree_of_ref result ≡ value_tree value.now }
{
    match value {
        RowValueTerm::Term(term) => term.view(),
        RowValueTerm::Ty(ty) => TermRef::Ty(ty),
    }
}

/// Whether the erased lifetimes of a row's value are fresh ones: those of a hidden type, but in `PostAnalysis`.
fn has_fresh_lifetimes(mode: &TypingMode, row: RowValue) -> bool {
    matches!(row, RowValue::Opaque(_)) && !matches!(mode, TypingMode::PostAnalysis)
}
