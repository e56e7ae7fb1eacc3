//! Whether the items of traits, the sources of impls and the definitions fit together.
ghost use Rattle.std.specs.Prelude.{◌≡◌, is_none};
ghost use Rattle.std.specs.List.{list_any};
ghost use Rattle.goal_tables.specs.Options.{option_holds};
ghost use Rattle.goal_tables.specs.Rows.{impl_of, source_of};
ghost use Rattle.goal_tables.specs.SourceFaults.{names_other_trait, lists_other_item, is_not_listed, items_mismatch, is_positive, lacks_source, is_of_other_trait, stands_elsewhere, is_outside, is_no_source, names_no_source, source_mismatch, own_parameters_differ, own_parameters_mismatch};

use crate::checker::Checker;
use goal_tables::param_kinds::same_kinds;
use goal_tables::rows::{
    Container, DefRow, ImplPolarity, ImplRow, ItemRow, Source, SourceRow, TraitRow,
};
use goal_terms::ids::{ImplId, ItemId};

impl Checker<'_> {
    /// Whether an item names another trait than this.
    fn names_other_trait(&self, row: &TraitRow, item: ItemId) -> bool
        ensures { result ≡ names_other_trait self.now row.now item }
    {
        match self.rows.item_row(item) {
            None => false,
            Some(named) => named.trait_id.0 != row.id.0,
        }
    }

    /// Whether a trait lists an item of another trait.
    fn lists_other_item(&self, row: &TraitRow) -> bool
        ensures { result ≡ lists_other_item self.now row.now }
    {
        row.items
            .iter()
            .any(|item| self.names_other_trait(row, *item))
    }

    /// Whether an item names a trait that doesn't list it.
    fn is_not_listed(&self, row: &ItemRow) -> bool
        ensures { result ≡ is_not_listed self.now row.now }
    {
        match self.rows.trait_row(row.trait_id) {
            None => false,
            Some(_) => !self.rows.trait_lists(row.trait_id, row.id),
        }
    }

    /// Whether some trait lists an item of another trait.
    fn some_trait_lists_other(&self) -> bool
        ensures { result ≡ list_any (λ r. lists_other_item self.now r) self.now.traits.items }
    {
        self.rows
            .tables()
            .traits
            .iter()
            .any(|row| self.lists_other_item(row))
    }

    /// Whether some item names a trait that doesn't list it.
    fn some_is_not_listed(&self) -> bool
        ensures { result ≡ list_any (λ r. is_not_listed self.now r) self.now.items.items }
    {
        self.rows
            .tables()
            .items
            .iter()
            .any(|row| self.is_not_listed(row))
    }

    /// Whether the lists of items in traits don't fit the rows of the items.
    fn has_items_mismatch(&self) -> bool
        ensures { result ≡ items_mismatch self.now }
    {
        self.some_trait_lists_other()
            || self.rows.some_trait_lists_twice()
            || self.some_is_not_listed()
    }

    /// Whether an impl has no source for one of these items.
    fn lacks_source_of(&self, impl_id: ImplId, items: &[ItemId]) -> bool
        ensures { result ≡ list_any (λ i. is_none (source_of self.now impl_id i)) items.now }
    {
        items
            .iter()
            .any(|item| self.rows.source_row(impl_id, *item).is_none())
    }

    /// Whether a positive impl has no source for an item of its trait.
    fn lacks_source(&self, row: &ImplRow) -> bool
        ensures { result ≡ lacks_source self.now row.now }
    {
        row.polarity.is_positive()
            && self.lacks_source_of(row.id, self.rows.items_of_trait(row.trait_id))
    }

    /// Whether an item is of another trait than an impl.
    fn is_of_other_trait(&self, row: &ImplRow, item: ItemId) -> bool
        ensures { result ≡ is_of_other_trait self.now row.now item }
    {
        match self.rows.item_row(item) {
            None => false,
            Some(named) => named.trait_id.0 != row.trait_id.0,
        }
    }

    /// Whether a source stands for an impl that isn't positive, or for an item of another trait.
    fn stands_elsewhere(&self, row: &SourceRow) -> bool
        ensures { result ≡ stands_elsewhere self.now row.now }
    {
        match self.rows.impl_row(row.impl_id) {
            None => false,
            Some(named) => {
                !named.polarity.is_positive() || self.is_of_other_trait(named, row.item_id)
            }
        }
    }

    /// Whether a definition stands neither in the trait of an impl nor in an impl of that trait.
    fn is_outside(&self, row: &ImplRow, container: Container) -> bool
        ensures { result ≡ is_outside self.now row.now container }
    {
        match container {
            Container::Impl(id) => match self.rows.impl_row(id) {
                None => false,
                Some(other) => other.trait_id.0 != row.trait_id.0,
            },
            Container::Trait(id) => id.0 != row.trait_id.0,
        }
    }

    /// Whether a definition stands outside the trait of a source's impl.
    fn is_outside_source(&self, row: &SourceRow, container: Container) -> bool
        ensures { result ≡ option_holds (λ q. is_outside self.now q container) (impl_of self.now row.now.impl_id) }
    {
        match self.rows.impl_row(row.impl_id) {
            None => false,
            Some(named) => self.is_outside(named, container),
        }
    }

    /// Whether a definition is none for a source's impl and item.
    fn is_no_source(&self, row: &SourceRow, definition: &DefRow) -> bool
        ensures { result ≡ is_no_source self.now row.now definition.now }
    {
        definition.item.0 != row.item_id.0 || self.is_outside_source(row, definition.container)
    }

    /// Whether a source names a definition that is none for its impl and item.
    fn names_no_source(&self, row: &SourceRow) -> bool
        ensures { result ≡ names_no_source self.now row.now row.now.source }
    {
        let Source::Def { def_id, .. } = row.source else {
            return false;
        };
        match self.rows.definition_row(def_id) {
            None => false,
            Some(definition) => self.is_no_source(row, definition),
        }
    }

    /// Whether some positive impl has no source for an item of its trait.
    fn some_lacks_source(&self) -> bool
        ensures { result ≡ list_any (λ r. lacks_source self.now r) self.now.impls.items }
    {
        self.rows
            .tables()
            .impls
            .iter()
            .any(|row| self.lacks_source(row))
    }

    /// Whether some source stands for an impl that isn't positive, or for an item of another trait.
    fn some_stands_elsewhere(&self) -> bool
        ensures { result ≡ list_any (λ r. stands_elsewhere self.now r) self.now.sources.items }
    {
        self.rows
            .tables()
            .sources
            .iter()
            .any(|row| self.stands_elsewhere(row))
    }

    /// Whether some source names a definition that is none for its impl and item.
    fn some_names_no_source(&self) -> bool
        ensures { result ≡ list_any (λ r. names_no_source self.now r r.source) self.now.sources.items }
    {
        self.rows
            .tables()
            .sources
            .iter()
            .any(|row| self.names_no_source(row))
    }

    /// Whether the items of traits and the sources of impls don't fit together.
    #[tactic(auto, unfolding(goal_tables::specs::SourceFaults::source_mismatch))]
    pub fn has_source_mismatch(&self) -> bool
        ensures { result ≡ source_mismatch self.now }
    {
        self.has_items_mismatch()
            || self.some_lacks_source()
            || self.rows.has_doubled_source()
            || self.some_stands_elsewhere()
            || self.some_names_no_source()
    }

    /// Whether a definition's own parameters have other kinds than its item's.
    fn own_parameters_differ(&self, row: &DefRow) -> bool
        ensures { result ≡ own_parameters_differ self.now row.now }
    {
        match self.rows.item_row(row.item) {
            None => false,
            Some(item) => !same_kinds(item.own_params.as_slice(), row.own_params.as_slice()),
        }
    }

    /// Whether the own parameters of some definition have other kinds than its item's.
    #[tactic(auto, unfolding(goal_tables::specs::SourceFaults::own_parameters_mismatch))]
    pub fn has_own_parameters_mismatch(&self) -> bool
        ensures { result ≡ own_parameters_mismatch self.now }
    {
        self.rows
            .tables()
            .definitions
            .iter()
            .any(|row| self.own_parameters_differ(row))
    }
}
