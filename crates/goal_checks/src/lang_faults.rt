//! Faults of lang items.
ghost use Rattle.std.specs.Prelude.{◌≡◌};
ghost use Rattle.std.specs.List.{list_any};
ghost use Rattle.std.specs.Option.{option_copied};
ghost use Rattle.goal_tables.specs.Options.{option_holds};
ghost use Rattle.goal_tables.specs.Rows.{trait_of, item_of, adt_of};
ghost use Rattle.goal_tables.specs.Indexed.{lists_number};
ghost use Rattle.goal_tables.specs.LangFaults.{lang_item_missing, params_of_lang, items_of_lang, trait_of_lang, is_adt_lang, lacks_lang_item, has_other_items, has_other_params, is_other_trait, is_in_other_trait, is_other_item, is_other_adt, names_other, builtin_item_mismatch};

use crate::checker::Checker;
use goal_tables::param_kinds::same_kinds;
use goal_tables::rows::{AdtRow, ItemRow, TraitRow};
use goal_terms::answers::ParamKind;
use goal_terms::ids::{AdtId, ItemId, TraitId};
use goal_terms::lang::{LangItem, LangRow, LangTarget};

/// All lang items.
const LANG_ITEMS: [LangItem; 18] = [
    LangItem::Sized,
    LangItem::Copy,
    LangItem::Clone,
    LangItem::Fn,
    LangItem::FnMut,
    LangItem::FnOnce,
    LangItem::FnPtr,
    LangItem::Tuple,
    LangItem::Pointee,
    LangItem::DiscriminantKind,
    LangItem::Destruct,
    LangItem::Field,
    LangItem::Output,
    LangItem::Metadata,
    LangItem::Discriminant,
    LangItem::Base,
    LangItem::FieldType,
    LangItem::DynMetadata,
];

/// The parameters of the trait that the lang item names, if it names a trait.
#[tactic(auto, unfolding(goal_tables::specs::LangFaults::params_of_lang))]
pub fn params_of_lang(item: LangItem) -> Option<&'static [ParamKind]>
    ensures { option_copied result ≡ params_of_lang item }
{
    match item {
        LangItem::Fn | LangItem::FnMut | LangItem::FnOnce => {
            Some(&[ParamKind::Ty, ParamKind::Ty])
        }
        LangItem::Output
        | LangItem::Metadata
        | LangItem::Discriminant
        | LangItem::Base
        | LangItem::FieldType
        | LangItem::DynMetadata => None,
        _ => Some(&[ParamKind::Ty]),
    }
}

/// The lang items that name the items of the trait that the lang item names.
#[tactic(auto, unfolding(goal_tables::specs::LangFaults::items_of_lang))]
fn items_of_lang(item: LangItem) -> &'static [LangItem]
    ensures { result.now ≡ items_of_lang item }
{
    match item {
        LangItem::FnOnce => &[LangItem::Output],
        LangItem::Pointee => &[LangItem::Metadata],
        LangItem::DiscriminantKind => &[LangItem::Discriminant],
        LangItem::Field => &[LangItem::Base, LangItem::FieldType],
        _ => &[],
    }
}

/// The lang item that names the trait of the item that the lang item names, if it names an item.
#[tactic(auto, unfolding(goal_tables::specs::LangFaults::trait_of_lang))]
fn trait_of_lang(item: LangItem) -> Option<LangItem>
    ensures { result ≡ trait_of_lang item }
{
    match item {
        LangItem::Output => Some(LangItem::FnOnce),
        LangItem::Metadata => Some(LangItem::Pointee),
        LangItem::Discriminant => Some(LangItem::DiscriminantKind),
        LangItem::Base | LangItem::FieldType => Some(LangItem::Field),
        _ => None,
    }
}

/// Whether the lang item names an ADT.
#[tactic(auto, unfolding(goal_tables::specs::LangFaults::is_adt_lang))]
fn is_adt_lang(item: LangItem) -> bool
    ensures { result ≡ is_adt_lang item }
{
    matches!(item, LangItem::DynMetadata)
}

/// Whether an ADT's parameters are other than one type.
fn is_other_adt(row: &AdtRow) -> bool
    ensures { result ≡ is_other_adt row.now }
{
    !same_kinds(row.params.as_slice(), &[ParamKind::Ty])
}

/// Whether a trait's parameters are other than those of a lang item's trait.
fn has_other_params(row: &TraitRow, item: LangItem) -> bool
    ensures { result ≡ has_other_params row.now.params.items (params_of_lang item) }
{
    match params_of_lang(item) {
        None => false,
        Some(params) => !same_kinds(row.params.as_slice(), params),
    }
}

/// Whether a trait lists an item.
fn lists(row: &TraitRow, item: ItemId) -> bool
    ensures { result ≡ lists_number row.now item.0 }
{
    row.items.iter().any(|listed| listed.0 == item.0)
}

impl Checker<'_> {
    /// Whether no row names a lang item.
    #[tactic(auto, unfolding(goal_tables::specs::LangFaults::lang_item_missing))]
    pub fn has_lang_item_missing(&self) -> bool
        ensures { result ≡ lang_item_missing self.now }
    {
        LANG_ITEMS
            .iter()
            .any(|item| self.rows.lang_row(*item).is_none())
    }

    /// Whether a trait doesn't list the item of a lang item.
    fn lacks_lang_item(&self, row: &TraitRow, item: LangItem) -> bool
        ensures { result ≡ lacks_lang_item self.now row.now item }
    {
        match self.rows.lang_item(item) {
            None => false,
            Some(id) => !lists(row, id),
        }
    }

    /// Whether a trait doesn't list the item of one of these lang items.
    fn lacks_some_lang_item(&self, row: &TraitRow, items: &[LangItem]) -> bool
        ensures { result ≡ list_any (λ i. lacks_lang_item self.now row.now i) items.now }
    {
        items.iter().any(|item| self.lacks_lang_item(row, *item))
    }

    /// Whether a trait lists other items than those that its lang items name.
    fn has_other_items(&self, row: &TraitRow, item: LangItem) -> bool
        ensures { result ≡ has_other_items self.now item row.now }
    {
        let items = items_of_lang(item);
        row.items.len() != items.len() || self.lacks_some_lang_item(row, items)
    }

    /// Whether a trait is an alias, or has other parameters or items than the trait of a lang item.
    #[tactic(auto, unfolding(goal_tables::specs::LangFaults::is_other_trait))]
    fn is_other_trait(&self, row: &TraitRow, item: LangItem) -> bool
        ensures { result ≡ is_other_trait self.now item row.now }
    {
        has_other_params(row, item) || row.is_alias || self.has_other_items(row, item)
    }

    /// Whether an item is of another trait than the item of a lang item.
    fn is_in_other_trait(&self, row: &ItemRow, item: LangItem) -> bool
        ensures { result ≡ is_in_other_trait self.now item row.now }
    {
        let Some(of_trait) = trait_of_lang(item) else {
            return false;
        };
        match self.rows.lang_trait(of_trait) {
            None => false,
            Some(id) => row.trait_id.0 != id.0,
        }
    }

    /// Whether an item is a constant, has parameters or predicates of its own, or is of another
    /// trait than the item of a lang item.
    #[tactic(auto, unfolding(goal_tables::specs::LangFaults::is_other_item))]
    fn is_other_item(&self, row: &ItemRow, item: LangItem) -> bool
        ensures { result ≡ is_other_item self.now item row.now }
    {
        row.is_const
            || !row.own_params.is_empty()
            || !row.own_predicates.is_empty()
            || self.is_in_other_trait(row, item)
    }

    /// Whether a trait has a row that doesn't fit a lang item.
    fn names_other_trait_as(&self, item: LangItem, id: TraitId) -> bool
        ensures { result ≡ option_holds (is_other_trait self.now item) (trait_of self.now id) }
    {
        match self.rows.trait_row(id) {
            None => false,
            Some(row) => self.is_other_trait(row, item),
        }
    }

    /// Whether an item has a row that doesn't fit a lang item.
    fn names_other_item_as(&self, item: LangItem, id: ItemId) -> bool
        ensures { result ≡ option_holds (is_other_item self.now item) (item_of self.now id) }
    {
        match self.rows.item_row(id) {
            None => false,
            Some(row) => self.is_other_item(row, item),
        }
    }

    /// Whether an ADT has a row that doesn't fit a lang item.
    fn names_other_adt(&self, id: AdtId) -> bool
        ensures { result ≡ option_holds is_other_adt (adt_of self.now id) }
    {
        match self.rows.adt_row(id) {
            None => false,
            Some(row) => is_other_adt(row),
        }
    }

    /// Whether a lang item names what is of another sort, or whose row doesn't fit it.
    fn names_other(&self, row: &LangRow) -> bool
        ensures { result ≡ names_other self.now row.now.item row.now.target }
    {
        match row.target {
            LangTarget::Trait(id) => {
                params_of_lang(row.item).is_none() || self.names_other_trait_as(row.item, id)
            }
            LangTarget::Item(id) => {
                trait_of_lang(row.item).is_none() || self.names_other_item_as(row.item, id)
            }
            LangTarget::Adt(id) => !is_adt_lang(row.item) || self.names_other_adt(id),
        }
    }

    /// Whether a lang item names something that doesn't fit it.
    #[tactic(auto, unfolding(goal_tables::specs::LangFaults::builtin_item_mismatch))]
    pub fn has_builtin_item_mismatch(&self) -> bool
        ensures { result ≡ builtin_item_mismatch self.now }
    {
        self.rows
            .tables()
            .lang_items
            .iter()
            .any(|row| self.names_other(row))
    }
}
