//! The item that a projection asks for.
ghost use Rattle.std.specs.Prelude.{◌≡◌, Some, None, MatchOption, ⊤};
ghost use Rattle.goal_tables.specs.Rows.{item_of};
ghost use Rattle.goal_kinds.specs.RuleWords.{projection_in, asked_by};

use goal_lists::lists::projected::projected;
use goal_tables::lookup::IndexedTables;
use goal_tables::rows::ItemRow;
use goal_terms::ids::ItemId;
use goal_terms::terms::AliasTerm;

/// The item of a projection, and how many of its arguments are the trait's.
#[derive(Clone, Copy)]
pub(crate) struct AssocItem<'t> {
    pub(crate) id: ItemId,
    pub(crate) row: &'t ItemRow,
    pub(crate) trait_params: usize,
}

/// The item that an alias projects, if it and its trait have rows.
pub(crate) fn assoc_item<'t>(rows: &'t IndexedTables, alias: &AliasTerm) -> Option<AssocItem<'t>>
    ensures asked { MatchOption result (projection_in rows.now alias.now ≡ None) (λ x. projection_in rows.now alias.now ≡ Some (asked_by x alias.now)) }
    ensures found { MatchOption result ⊤ (λ x. item_of rows.now x.id ≡ Some x.row.now) }
{
    let id = projected(alias.kind)?;
    let row = rows.item_row(id)?;
    let trait_row = rows.trait_row(row.trait_id)?;
    Some(AssocItem {
        id,
        row,
        trait_params: trait_row.params.len(),
    })
}
