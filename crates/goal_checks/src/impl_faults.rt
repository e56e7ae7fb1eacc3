//! Faults of impls.
ghost use Rattle.std.specs.Prelude.{◌≡◌};
ghost use Rattle.std.specs.List.{list_any};
ghost use Rattle.goal_tables.specs.ImplFaults.{is_reservation, reserves_items, reservation_with_items, allows_impls, bars_impls, is_builtin_trait, is_trait_alias, impl_of_builtin_trait, inherent_const_without_value, must_not_list, cannot_specialize, lists_wrongly, specialization_mismatch};

use crate::checker::Checker;
use crate::lang_faults::params_of_lang;
use goal_tables::rows::{ImplPolarity, ImplRow};
use goal_terms::ids::{ImplId, TraitId};
use goal_terms::lang::{LangItem, LangTarget};

/// Whether the trait of the lang item may have impls beside its built-in ones.
fn allows_impls(item: LangItem) -> bool
    ensures { result ≡ allows_impls item }
{
    matches!(item, LangItem::Copy | LangItem::Clone)
}

/// Whether the lang item names a trait, and that trait may not have impls.
fn bars_impls(item: LangItem) -> bool
    ensures { result ≡ bars_impls item }
{
    params_of_lang(item).is_some() && !allows_impls(item)
}

impl Checker<'_> {
    /// Whether an impl is a reservation of a trait that has items.
    fn reserves_items(&self, row: &ImplRow) -> bool
        ensures { result ≡ reserves_items self.now row.now }
    {
        row.polarity.is_reservation() && !self.rows.items_of_trait(row.trait_id).is_empty()
    }

    /// Whether a trait with items has a reservation impl.
    #[tactic(auto, unfolding(goal_tables::specs::ImplFaults::reservation_with_items))]
    pub fn has_reservation_with_items(&self) -> bool
        ensures { result ≡ reservation_with_items self.now }
    {
        self.rows
            .tables()
            .impls
            .iter()
            .any(|row| self.reserves_items(row))
    }

    /// Whether built-in rules alone say which types have a trait.
    fn is_builtin_trait(&self, id: TraitId) -> bool
        ensures { result ≡ is_builtin_trait self.now id }
    {
        match self.rows.lang_naming(LangTarget::Trait(id)) {
            None => false,
            Some(row) => bars_impls(row.item),
        }
    }

    /// Whether a trait is an alias.
    fn is_trait_alias(&self, id: TraitId) -> bool
        ensures { result ≡ is_trait_alias self.now id }
    {
        match self.rows.trait_row(id) {
            None => false,
            Some(row) => row.is_alias,
        }
    }

    /// Whether a trait that built-in rules decide, or a trait alias, has an impl.
    #[tactic(auto, unfolding(goal_tables::specs::ImplFaults::impl_of_builtin_trait))]
    pub fn has_impl_of_builtin_trait(&self) -> bool
        ensures { result ≡ impl_of_builtin_trait self.now }
    {
        self.rows.tables().impls.iter().any(|row| self.is_builtin_trait(row.trait_id)
            || self.is_trait_alias(row.trait_id))
    }

    /// Whether a constant of an inherent impl has no value.
    #[tactic(auto, unfolding(goal_tables::specs::ImplFaults::inherent_const_without_value))]
    pub fn has_inherent_const_without_value(&self) -> bool
        ensures { result ≡ inherent_const_without_value self.now }
    {
        self.rows
            .tables()
            .inherent_items
            .iter()
            .any(|row| row.is_const && row.value.is_none())
    }
}

impl Checker<'_> {
    /// Whether an impl isn't positive, or of another trait than one that lists it.
    fn cannot_specialize(&self, row: &ImplRow, id: ImplId) -> bool
        ensures { result ≡ cannot_specialize self.now row.now id }
    {
        match self.rows.impl_row(id) {
            None => false,
            Some(listed) => {
                !listed.polarity.is_positive() || listed.trait_id.0 != row.trait_id.0
            }
        }
    }

    /// Whether an impl lists one that cannot specialize it.
    fn lists_unfit(&self, row: &ImplRow) -> bool
        ensures { result ≡ list_any (λ i. cannot_specialize self.now row.now i) row.now.more_special.items }
    {
        row.more_special
            .iter()
            .any(|id| self.cannot_specialize(row, *id))
    }

    /// Whether an impl must not have its list of more special ones, or lists one that cannot specialize it.
    fn lists_wrongly(&self, row: &ImplRow) -> bool
        ensures { result ≡ lists_wrongly self.now row.now }
    {
        must_not_list(row) || self.lists_unfit(row)
    }

    /// Whether an impl has a list that is wrong.
    #[tactic(auto, unfolding(goal_tables::specs::ImplFaults::specialization_mismatch))]
    pub fn has_specialization_mismatch(&self) -> bool
        ensures { result ≡ specialization_mismatch self.now }
    {
        self.rows
            .tables()
            .impls
            .iter()
            .any(|row| self.lists_wrongly(row))
    }
}

/// Whether an impl isn't positive, and has a list of more special ones.
fn must_not_list(row: &ImplRow) -> bool
    ensures { result ≡ must_not_list row.now }
{
    !row.polarity.is_positive() && !row.more_special.is_empty()
}
