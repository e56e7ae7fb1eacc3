//! Tables whose rows are found by their ids.
ghost use Rattle.std.specs.Prelude.{◌≡◌, ◌==◌, ◌<◌, ◌&&◌, IfOk, Some, find, length, map, slice_get};
ghost use Rattle.std.specs.List.{All, list_any};
ghost use Rattle.std.specs.Option.{option_copied};
ghost use Rattle.std.specs.HashMap.{get};
ghost use Rattle.goal_tables.specs.ImplFaults.{unfixed_parameter};
ghost use Rattle.goal_tables.specs.ImplsByHead.{impls_with_head};
ghost use Rattle.goal_tables.specs.Options.{option_holds};
ghost use Rattle.goal_tables.specs.Specialized.{specialization_cycle};
ghost use Rattle.goal_tables.specs.declared.rows.ImplRow.{ImplRow as impl_row};
ghost use Rattle.goal_tables.specs.declared.rows.Tables.{Tables as tables_of};
ghost use Rattle.goal_tables.specs.Places.{same_pair};
ghost use Rattle.goal_tables.specs.Indexed.{IsRowIndex, IsSourceIndex, IsLangIndex, AreListings, AreMoreSpecial, AreSpecialLists, IfSpecialLists, list_at, lists_number as lists_item_number, lists_twice};
ghost use Rattle.goal_tables.specs.Rows.{trait_of, item_of, impl_of, definition_of, free_of, inherent_impl_of, inherent_of, opaque_of, adt_of, function_of, closure_of, source_of, impls_of, items_of, same_lang_item, same_lang_target, lang_of, lang_naming, lang_trait_of, lang_item_of, lang_adt_of, doubled_id, doubled_source, doubled_lang};

use crate::impls_by_head::places_with_head;
use crate::index::{RowIndex, place_of, row_at};
use crate::listings::{lists_number, some_lists_twice};
use crate::rows::{
    AdtRow, ClosureRow, DefRow, FnRow, FreeRow, ImplRow, InherentImplRow, InherentRow, ItemRow,
    OpaqueRow, SourceRow, Tables, TraitRow,
};
use crate::tables_index::{Index, LangIndex, SourceIndex, TraitIndex};
use goal_terms::heads::Node;
use goal_terms::ids::{
    AdtId, ClosureId, DefId, FnId, FreeId, ImplId, InherentId, InherentImplId, ItemId, OpaqueId,
    TraitId,
};
use goal_terms::lang::{LangItem, LangRow, LangTarget};
use indexmap::IndexMap;
use std::alloc::{AllocError, Global};
use std::marker::Model;

/// Tables with an index, so that the row of an id is found without a scan.
pub struct IndexedTables {
    tables: Tables,
    index: Index,
}

impl Drop for IndexedTables {
    fn drop(self) {
        let IndexedTables {
            tables: _,
            index: _,
        } = self;
    }
}

impl Model for IndexedTables {
    ghost use Rattle.goal_tables.specs.declared.rows.Tables.{Tables};
    ghost use Rattle.goal_tables.specs.contracts.rows.Tables as held;
    ghost use Rattle.std.specs.Coded.{codes};

    ghost Value = { Tables };

    ghost coded = { Prim.hlevel (codes, held.the_row.coded) };

    ghost use Rattle.goal_tables.specs.Indexed.{IsIndexed};

    ghost view = { λ a. a.tables };

    ghost invariant = { λ a. IsIndexed a.tables a.index };
}

impl IndexedTables {
    /// Makes the index. Want of memory is the only refusal.
    pub fn new(alloc: Global, tables: Tables) -> Result<Self, AllocError>
        ensures { IfOk result (λ made. made ≡ tables) }
    {
        let index = Index::new(alloc, &tables)?;
        Ok(IndexedTables { tables, index })
    }

    /// The rows.
    pub fn tables(&self) -> &Tables
        ensures { result.now ≡ self.now }
    {
        &self.tables
    }

    /// The row of a trait.
    pub fn trait_row(&self, id: TraitId) -> Option<&TraitRow>
        ensures { option_copied result ≡ trait_of self.now id }
    {
        self.index
            .holds
            .of_traits
            .traits
            .row(self.tables.traits.as_slice(), id.0)
    }

    /// The row of an item.
    pub fn item_row(&self, id: ItemId) -> Option<&ItemRow>
        ensures { option_copied result ≡ item_of self.now id }
    {
        self.index
            .holds
            .of_traits
            .items
            .row(self.tables.items.as_slice(), id.0)
    }

    /// The row of an impl.
    pub fn impl_row(&self, id: ImplId) -> Option<&ImplRow>
        ensures { option_copied result ≡ impl_of self.now id }
    {
        self.index
            .holds
            .of_impls
            .impls
            .row(self.tables.impls.as_slice(), id.0)
    }

    /// The row of a definition.
    pub fn definition_row(&self, id: DefId) -> Option<&DefRow>
        ensures { option_copied result ≡ definition_of self.now id }
    {
        self.index
            .holds
            .of_impls
            .definitions
            .row(self.tables.definitions.as_slice(), id.0)
    }

    /// The row of a free alias.
    pub fn free_row(&self, id: FreeId) -> Option<&FreeRow>
        ensures { option_copied result ≡ free_of self.now id }
    {
        self.index
            .terms
            .of_aliases
            .free_aliases
            .row(self.tables.free_aliases.as_slice(), id.0)
    }

    /// The row of an inherent impl.
    pub fn inherent_impl_row(&self, id: InherentImplId) -> Option<&InherentImplRow>
        ensures { option_copied result ≡ inherent_impl_of self.now id }
    {
        self.index
            .terms
            .of_inherent
            .impls
            .row(self.tables.inherent_impls.as_slice(), id.0)
    }

    /// The row of an inherent item.
    pub fn inherent_row(&self, id: InherentId) -> Option<&InherentRow>
        ensures { option_copied result ≡ inherent_of self.now id }
    {
        self.index
            .terms
            .of_inherent
            .items
            .row(self.tables.inherent_items.as_slice(), id.0)
    }

    /// The row of an opaque type.
    pub fn opaque_row(&self, id: OpaqueId) -> Option<&OpaqueRow>
        ensures { option_copied result ≡ opaque_of self.now id }
    {
        self.index
            .terms
            .of_aliases
            .opaque_types
            .row(self.tables.opaque_types.as_slice(), id.0)
    }

    /// The row of an ADT.
    pub fn adt_row(&self, id: AdtId) -> Option<&AdtRow>
        ensures { option_copied result ≡ adt_of self.now id }
    {
        self.index
            .terms
            .of_types
            .adts
            .row(self.tables.adts.as_slice(), id.0)
    }

    /// The row of a function item.
    pub fn function_row(&self, id: FnId) -> Option<&FnRow>
        ensures { option_copied result ≡ function_of self.now id }
    {
        self.index
            .terms
            .of_types
            .functions
            .row(self.tables.functions.as_slice(), id.0)
    }

    /// The row of a closure.
    pub fn closure_row(&self, id: ClosureId) -> Option<&ClosureRow>
        ensures { option_copied result ≡ closure_of self.now id }
    {
        self.index
            .terms
            .of_types
            .closures
            .row(self.tables.closures.as_slice(), id.0)
    }

    /// What an impl uses for an item.
    pub fn source_row(&self, impl_id: ImplId, item_id: ItemId) -> Option<&SourceRow>
        ensures { option_copied result ≡ source_of self.now impl_id item_id }
    {
        source_at(
            &self.index.holds.of_sources,
            self.tables.sources.as_slice(),
            (impl_id.0, item_id.0),
        )
    }

    /// The places of the impls of a trait, in the order of their rows.
    pub fn impls_of_trait(&self, id: TraitId) -> &[usize]
        ensures { map (slice_get self.now.impls.items) result.now ≡ map Some (impls_of self.now id) }
    {
        list_of(&self.index.holds.of_impls.by_trait, id.0)
    }

    /// The places of the impls of a trait whose self type may have a head, in the order of their rows. Want of
    /// memory is the only refusal.
    pub fn impls_with_head(&self, id: TraitId, head: Node) -> Result<Vec<usize>, AllocError>
        ensures { IfOk result (λ places. map (slice_get self.now.impls.items) places.items ≡ map Some (impls_with_head self.now id head)) }
    {
        let alloc = *self.tables.traits.allocator();
        places_with_head(alloc, &self.index.holds.of_impls.by_head, id, head)
    }

    /// The impl at a place.
    pub fn impl_at(&self, place: usize) -> &ImplRow
        requires { place < length self.now.impls.items }
        ensures { slice_get self.now.impls.items place ≡ Some result.now }
    {
        &self.tables.impls.as_slice()[place]
    }

    /// The places of the impls that are more special than an impl: those that it lists, those that these list, and
    /// so on.
    pub fn more_special(&self, id: ImplId) -> &[usize]
        ensures listed { (r : impl_row) → impl_of self.now id ≡ Some r → AreMoreSpecial self.now r result.now }
        ensures within { All (λ p. p < length self.now.impls.items) result.now }
    {
        let of_impls = &self.index.holds.of_impls;
        special_list_of(&of_impls.impls, of_impls.more_special.as_slice(), id)
    }

    /// The items of a trait, as its row lists them.
    pub fn items_of_trait(&self, id: TraitId) -> &[ItemId]
        ensures { result.now ≡ items_of self.now id }
    {
        match self.trait_row(id) {
            None => &[],
            Some(row) => row.items.as_slice(),
        }
    }

    /// The row of a lang item.
    pub fn lang_row(&self, item: LangItem) -> Option<&LangRow>
        ensures { option_copied result ≡ lang_of self.now item }
    {
        lang_at(&self.index.lang, self.tables.lang_items.as_slice(), item)
    }

    /// The row of the lang item that names something.
    pub fn lang_naming(&self, target: LangTarget) -> Option<&LangRow>
        ensures { option_copied result ≡ lang_naming self.now target }
    {
        naming_at(&self.index.lang, self.tables.lang_items.as_slice(), target)
    }

    /// The trait of a lang item.
    pub fn lang_trait(&self, item: LangItem) -> Option<TraitId>
        ensures { result ≡ lang_trait_of self.now item }
    {
        match self.lang_row(item)?.target {
            LangTarget::Trait(id) => Some(id),
            _ => None,
        }
    }

    /// The item of a lang item.
    pub fn lang_item(&self, item: LangItem) -> Option<ItemId>
        ensures { result ≡ lang_item_of self.now item }
    {
        match self.lang_row(item)?.target {
            LangTarget::Item(id) => Some(id),
            _ => None,
        }
    }

    /// The ADT of a lang item.
    pub fn lang_adt(&self, item: LangItem) -> Option<AdtId>
        ensures { result ≡ lang_adt_of self.now item }
    {
        match self.lang_row(item)?.target {
            LangTarget::Adt(id) => Some(id),
            _ => None,
        }
    }

    /// Whether two rows of one list have one id.
    #[tactic(auto, unfolding(crate::specs::Rows::doubled_id))]
    pub fn has_doubled_id(&self) -> bool
        ensures { result ≡ doubled_id self.now }
    {
        let holds = &self.index.holds;
        let terms = &self.index.terms;
        holds.of_traits.traits.doubled
            || holds.of_traits.items.doubled
            || holds.of_impls.impls.doubled
            || holds.of_impls.definitions.doubled
            || terms.of_aliases.free_aliases.doubled
            || terms.of_aliases.opaque_types.doubled
            || terms.of_inherent.impls.doubled
            || terms.of_inherent.items.doubled
            || terms.of_types.adts.doubled
            || terms.of_types.functions.doubled
            || terms.of_types.closures.doubled
    }

    /// Whether an impl has two sources for one item.
    #[tactic(auto, unfolding(crate::specs::Rows::doubled_source))]
    pub fn has_doubled_source(&self) -> bool
        ensures { result ≡ doubled_source self.now }
    {
        self.index.holds.of_sources.doubled
    }

    /// Whether a lang item is named twice, or two lang items name one row.
    #[tactic(auto, unfolding(crate::specs::Rows::doubled_lang))]
    pub fn has_doubled_lang(&self) -> bool
        ensures { result ≡ doubled_lang self.now }
    {
        self.index.lang.doubled
    }

    /// Whether an impl is more special than itself.
    #[tactic(auto, unfolding(crate::specs::Specialized::specialization_cycle))]
    pub fn has_specialization_cycle(&self) -> bool
        ensures { result ≡ specialization_cycle self.now }
    {
        self.index.holds.of_impls.cyclic
    }

    /// Whether a type or const parameter of an impl doesn't stand in its header outside aliases.
    #[tactic(auto, unfolding(crate::specs::ImplFaults::unfixed_parameter))]
    pub fn has_unfixed_parameter(&self) -> bool
        ensures { result ≡ unfixed_parameter self.now }
    {
        self.index.holds.of_impls.unfixed || self.index.terms.of_inherent.unfixed
    }

    /// Whether a trait lists an item.
    pub fn trait_lists(&self, id: TraitId, item: ItemId) -> bool
        ensures { result ≡ option_holds (λ r. lists_item_number r item.0) (trait_of self.now id) }
    {
        lists_in(
            &self.index.holds.of_traits,
            self.tables.traits.as_slice(),
            id,
            item,
        )
    }

    /// Whether some trait lists an item twice.
    pub fn some_trait_lists_twice(&self) -> bool
        ensures { result ≡ list_any lists_twice self.now.traits.items }
    {
        some_lists_twice(
            self.tables.traits.as_slice(),
            self.index.holds.of_traits.listings.as_slice(),
        )
    }
}

/// The list that stands for the impl of an id, if it has a row.
fn special_list_of<'a>(index: &RowIndex, lists: &'a [Vec<usize>], id: ImplId) -> &'a [usize]
    ensures listed { (t : tables_of) (r : impl_row) → IfSpecialLists t index.now lists.now (impl_of t id ≡ Some r → AreMoreSpecial t r result.now) }
    ensures within { (t : tables_of) → AreSpecialLists t t.impls.items lists.now → All (λ p. p < length t.impls.items) result.now }
{
    match place_of(&index.places, id.0) {
        Some(place) if place < lists.len() => lists[place].as_slice(),
        _ => &[],
    }
}

fn source_at<'a>(
    index: &SourceIndex,
    rows: &'a [SourceRow],
    key: (u32, u32),
) -> Option<&'a SourceRow>
    requires { IsSourceIndex rows.now index.now }
    ensures { option_copied result ≡ find (λ r. (r.impl_id.0 == key.0) && (r.item_id.0 == key.1)) rows.now }
{
    let place = place_of_pair(&index.places, key);
    row_at(rows, place)
}

fn lang_at<'a>(index: &LangIndex, rows: &'a [LangRow], item: LangItem) -> Option<&'a LangRow>
    requires { IsLangIndex rows.now index.now }
    ensures { option_copied result ≡ find (λ r. same_lang_item r.item item) rows.now }
{
    let place = place_of_item(&index.items, item);
    row_at(rows, place)
}

fn naming_at<'a>(index: &LangIndex, rows: &'a [LangRow], target: LangTarget) -> Option<&'a LangRow>
    requires { IsLangIndex rows.now index.now }
    ensures { option_copied result ≡ find (λ r. same_lang_target r.target target) rows.now }
{
    let place = place_of_target(&index.targets, target);
    row_at(rows, place)
}

/// The list that a map has for a number.
fn list_of(lists: &IndexMap<u32, Vec<usize>>, number: u32) -> &[usize]
    ensures { result.now ≡ list_at (get ◌==◌ lists.now number) }
{
    match lists.get(&number) {
        None => &[],
        Some(list) => list.as_slice(),
    }
}

fn lists_in(index: &TraitIndex, rows: &[TraitRow], id: TraitId, item: ItemId) -> bool
    requires traits { IsRowIndex (map (λ r. r.id.0) rows.now) index.now.traits }
    requires listings { AreListings rows.now index.now.listings.items }
    ensures { result ≡ option_holds (λ r. lists_item_number r item.0) (find (λ r. r.id.0 == id.0) rows.now) }
{
    let place = place_of(&index.traits.places, id.0);
    lists_number(rows, index.listings.as_slice(), place, item.0)
}

/// The place that an index has for a pair of numbers.
fn place_of_pair(places: &IndexMap<(u32, u32), usize>, key: (u32, u32)) -> Option<usize>
    ensures { result ≡ get same_pair places.now key }
{
    places.get(&key).copied()
}

/// The place that an index has for a lang item.
fn place_of_item(places: &IndexMap<LangItem, usize>, item: LangItem) -> Option<usize>
    ensures { result ≡ get same_lang_item places.now item }
{
    places.get(&item).copied()
}

/// The place that an index has for what a lang item names.
fn place_of_target(places: &IndexMap<LangTarget, usize>, target: LangTarget) -> Option<usize>
    ensures { result ≡ get same_lang_target places.now target }
{
    places.get(&target).copied()
}
