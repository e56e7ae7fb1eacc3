//! Where the rows of all tables stand.
ghost use Rattle.std.specs.Prelude.{◌≡◌, IfOk, map};
ghost use Rattle.goal_tables.specs.Places.{IsIndexOf, same_pair, has_double};
ghost use Rattle.goal_tables.specs.Indexed.{IsSourceIndex, IsLangIndex};
ghost use Rattle.goal_tables.specs.Rows.{same_lang_item, same_lang_target};

use crate::fixed_params::{some_impl_has_unfixed, some_inherent_has_unfixed};
use crate::impl_lists::impl_lists;
use crate::impls_by_head::{ImplKey, key_lists};
use crate::index::{RowIndex, index_of};
use crate::listings::listings;
use crate::rows::{SourceRow, Tables};
use crate::specialized::{some_leads_back, special_lists};
use goal_terms::lang::{LangItem, LangRow, LangTarget};
use indexmap::IndexMap;
use std::alloc::{AllocError, Global};

/// Where the rows of traits and of their items stand, and where each trait lists its items.
pub struct TraitIndex {
    pub traits: RowIndex,
    pub items: RowIndex,
    pub listings: Vec<RowIndex>,
}

impl Drop for TraitIndex {
    fn drop(self) {
        let TraitIndex {
            traits: _,
            items: _,
            listings: _,
        } = self;
    }
}

/// Where the source of an impl and an item stands, and whether an impl has two for one item.
pub struct SourceIndex {
    pub places: IndexMap<(u32, u32), usize>,
    pub doubled: bool,
}

impl Drop for SourceIndex {
    fn drop(self) {
        let SourceIndex {
            places: _,
            doubled: _,
        } = self;
    }
}

/// Where the rows of impls and definitions stand, where those of each trait's impls do, also by the head of
/// their self type, whether a parameter of an impl doesn't stand in its header, where the impls stand that are
/// more special than each, and whether one is so than itself.
pub struct ImplIndex {
    pub impls: RowIndex,
    pub definitions: RowIndex,
    pub by_trait: IndexMap<u32, Vec<usize>>,
    pub by_head: IndexMap<ImplKey, Vec<usize>>,
    pub unfixed: bool,
    pub more_special: Vec<Vec<usize>>,
    pub cyclic: bool,
}

impl Drop for ImplIndex {
    fn drop(self) {
        let ImplIndex {
            impls: _,
            definitions: _,
            by_trait: _,
            by_head: _,
            unfixed: _,
            more_special: _,
            cyclic: _,
        } = self;
    }
}

/// Where the rows of aliases that are no projections stand.
pub struct AliasIndex {
    pub free_aliases: RowIndex,
    pub opaque_types: RowIndex,
}

impl Drop for AliasIndex {
    fn drop(self) {
        let AliasIndex {
            free_aliases: _,
            opaque_types: _,
        } = self;
    }
}

/// Where the rows of inherent impls and their items stand, and whether a parameter of an inherent
/// impl doesn't stand in its self type.
pub struct InherentIndex {
    pub impls: RowIndex,
    pub items: RowIndex,
    pub unfixed: bool,
}

impl Drop for InherentIndex {
    fn drop(self) {
        let InherentIndex {
            impls: _,
            items: _,
            unfixed: _,
        } = self;
    }
}

/// Where the rows of types stand.
pub struct TypeIndex {
    pub adts: RowIndex,
    pub functions: RowIndex,
    pub closures: RowIndex,
}

impl Drop for TypeIndex {
    fn drop(self) {
        let TypeIndex {
            adts: _,
            functions: _,
            closures: _,
        } = self;
    }
}

/// Where lang items and what they name stand, and whether one stands twice.
pub struct LangIndex {
    pub items: IndexMap<LangItem, usize>,
    pub targets: IndexMap<LangTarget, usize>,
    pub doubled: bool,
}

impl Drop for LangIndex {
    fn drop(self) {
        let LangIndex {
            items: _,
            targets: _,
            doubled: _,
        } = self;
    }
}

/// Where the rows of what terms name stand.
pub struct TermIndex {
    pub of_aliases: AliasIndex,
    pub of_inherent: InherentIndex,
    pub of_types: TypeIndex,
}

impl Drop for TermIndex {
    fn drop(self) {
        let TermIndex {
            of_aliases: _,
            of_inherent: _,
            of_types: _,
        } = self;
    }
}

/// Where the rows stand that say which traits hold.
pub struct HoldIndex {
    pub of_traits: TraitIndex,
    pub of_impls: ImplIndex,
    pub of_sources: SourceIndex,
}

impl Drop for HoldIndex {
    fn drop(self) {
        let HoldIndex {
            of_traits: _,
            of_impls: _,
            of_sources: _,
        } = self;
    }
}

/// Where the row of each id stands.
pub struct Index {
    pub holds: HoldIndex,
    pub terms: TermIndex,
    pub lang: LangIndex,
}

impl Drop for Index {
    fn drop(self) {
        let Index {
            holds: _,
            terms: _,
            lang: _,
        } = self;
    }
}

impl TraitIndex {
    ghost use Rattle.std.specs.Prelude.{IfOk};
    ghost use Rattle.goal_tables.specs.Indexed.{IsTraitIndex};

    /// Finds where the rows stand. Want of memory is the only refusal.
    fn new(alloc: Global, tables: &Tables) -> Result<Self, AllocError>
        ensures { IfOk result (IsTraitIndex tables.now) }
    {
        let traits = RowIndex::new(alloc, tables.traits.as_slice())?;
        let items = RowIndex::new(alloc, tables.items.as_slice())?;
        let listings = listings(alloc, tables.traits.as_slice())?;
        Ok(TraitIndex {
            traits,
            items,
            listings,
        })
    }
}

impl ImplIndex {
    ghost use Rattle.std.specs.Prelude.{IfOk};
    ghost use Rattle.goal_tables.specs.Indexed.{IsImplIndex};

    /// Finds where the rows stand. Want of memory is the only refusal.
    fn new(alloc: Global, tables: &Tables) -> Result<Self, AllocError>
        ensures { IfOk result (IsImplIndex tables.now) }
    {
        let impls = RowIndex::new(alloc, tables.impls.as_slice())?;
        let definitions = RowIndex::new(alloc, tables.definitions.as_slice())?;
        let by_trait = impl_lists(alloc, tables.impls.as_slice())?;
        let by_head = key_lists(alloc, tables.impls.as_slice())?;
        let unfixed = some_impl_has_unfixed(alloc, tables.impls.as_slice())?;
        let more_special = special_lists(alloc, tables, &impls)?;
        let cyclic = some_leads_back(tables, more_special.as_slice());
        Ok(ImplIndex {
            impls,
            definitions,
            by_trait,
            by_head,
            unfixed,
            more_special,
            cyclic,
        })
    }
}

impl AliasIndex {
    ghost use Rattle.std.specs.Prelude.{IfOk};
    ghost use Rattle.goal_tables.specs.Indexed.{IsAliasIndex};

    /// Finds where the rows stand. Want of memory is the only refusal.
    fn new(alloc: Global, tables: &Tables) -> Result<Self, AllocError>
        ensures { IfOk result (IsAliasIndex tables.now) }
    {
        let free_aliases = RowIndex::new(alloc, tables.free_aliases.as_slice())?;
        let opaque_types = RowIndex::new(alloc, tables.opaque_types.as_slice())?;
        Ok(AliasIndex {
            free_aliases,
            opaque_types,
        })
    }
}

impl InherentIndex {
    ghost use Rattle.std.specs.Prelude.{IfOk};
    ghost use Rattle.goal_tables.specs.Indexed.{IsInherentIndex};

    /// Finds where the rows stand. Want of memory is the only refusal.
    fn new(alloc: Global, tables: &Tables) -> Result<Self, AllocError>
        ensures { IfOk result (IsInherentIndex tables.now) }
    {
        let impls = RowIndex::new(alloc, tables.inherent_impls.as_slice())?;
        let items = RowIndex::new(alloc, tables.inherent_items.as_slice())?;
        let unfixed = some_inherent_has_unfixed(alloc, tables.inherent_impls.as_slice())?;
        Ok(InherentIndex {
            impls,
            items,
            unfixed,
        })
    }
}

impl TypeIndex {
    ghost use Rattle.std.specs.Prelude.{IfOk};
    ghost use Rattle.goal_tables.specs.Indexed.{IsTypeIndex};

    /// Finds where the rows stand. Want of memory is the only refusal.
    fn new(alloc: Global, tables: &Tables) -> Result<Self, AllocError>
        ensures { IfOk result (IsTypeIndex tables.now) }
    {
        let adts = RowIndex::new(alloc, tables.adts.as_slice())?;
        let functions = RowIndex::new(alloc, tables.functions.as_slice())?;
        let closures = RowIndex::new(alloc, tables.closures.as_slice())?;
        Ok(TypeIndex {
            adts,
            functions,
            closures,
        })
    }
}

impl TermIndex {
    ghost use Rattle.std.specs.Prelude.{IfOk};
    ghost use Rattle.goal_tables.specs.Indexed.{IsTermIndex};

    /// Finds where the rows stand. Want of memory is the only refusal.
    fn new(alloc: Global, tables: &Tables) -> Result<Self, AllocError>
        ensures { IfOk result (IsTermIndex tables.now) }
    {
        let of_aliases = AliasIndex::new(alloc, tables)?;
        let of_inherent = InherentIndex::new(alloc, tables)?;
        let of_types = TypeIndex::new(alloc, tables)?;
        Ok(TermIndex {
            of_aliases,
            of_inherent,
            of_types,
        })
    }
}

impl HoldIndex {
    ghost use Rattle.std.specs.Prelude.{IfOk};
    ghost use Rattle.goal_tables.specs.Indexed.{IsHoldIndex};

    /// Finds where the rows stand. Want of memory is the only refusal.
    fn new(alloc: Global, tables: &Tables) -> Result<Self, AllocError>
        ensures { IfOk result (IsHoldIndex tables.now) }
    {
        let of_traits = TraitIndex::new(alloc, tables)?;
        let of_impls = ImplIndex::new(alloc, tables)?;
        let of_sources = index_sources(alloc, tables.sources.as_slice())?;
        Ok(HoldIndex {
            of_traits,
            of_impls,
            of_sources,
        })
    }
}

impl Index {
    ghost use Rattle.std.specs.Prelude.{IfOk};
    ghost use Rattle.goal_tables.specs.Indexed.{IsIndexed};

    /// Finds where the rows stand. Want of memory is the only refusal.
    pub fn new(alloc: Global, tables: &Tables) -> Result<Self, AllocError>
        ensures { IfOk result (IsIndexed tables.now) }
    {
        let holds = HoldIndex::new(alloc, tables)?;
        let terms = TermIndex::new(alloc, tables)?;
        let lang = index_lang(alloc, tables.lang_items.as_slice())?;
        Ok(Index { holds, terms, lang })
    }
}

fn source_keys(alloc: Global, rows: &[SourceRow]) -> Result<Vec<(u32, u32)>, AllocError>
    ensures { IfOk result (λ made. made.items ≡ map (λ r. (r.impl_id.0, r.item_id.0)) rows.now) }
{
    rows.iter()
        .map(|row| (row.impl_id.0, row.item_id.0))
        .collect(alloc)
}

fn index_sources(alloc: Global, rows: &[SourceRow]) -> Result<SourceIndex, AllocError>
    ensures { IfOk result (IsSourceIndex rows.now) }
{
    let keys = source_keys(alloc, rows)?;
    let (places, doubled) = index_of(alloc, keys.as_slice())?;
    Ok(SourceIndex { places, doubled })
}

fn lang_keys(alloc: Global, rows: &[LangRow]) -> Result<Vec<LangItem>, AllocError>
    ensures { IfOk result (λ made. made.items ≡ map (λ r. r.item) rows.now) }
{
    rows.iter().map(|row| row.item).collect(alloc)
}

fn target_keys(alloc: Global, rows: &[LangRow]) -> Result<Vec<LangTarget>, AllocError>
    ensures { IfOk result (λ made. made.items ≡ map (λ r. r.target) rows.now) }
{
    rows.iter().map(|row| row.target).collect(alloc)
}

fn index_lang_items(
    alloc: Global,
    rows: &[LangRow],
) -> Result<(IndexMap<LangItem, usize>, bool), AllocError>
    ensures places { IfOk result (λ made. IsIndexOf same_lang_item (map (λ r. r.item) rows.now) made.0) }
    ensures doubled { IfOk result (λ made. made.1 ≡ has_double same_lang_item (map (λ r. r.item) rows.now)) }
{
    let keys = lang_keys(alloc, rows)?;
    index_of(alloc, keys.as_slice())
}

fn index_lang_targets(
    alloc: Global,
    rows: &[LangRow],
) -> Result<(IndexMap<LangTarget, usize>, bool), AllocError>
    ensures places { IfOk result (λ made. IsIndexOf same_lang_target (map (λ r. r.target) rows.now) made.0) }
    ensures doubled { IfOk result (λ made. made.1 ≡ has_double same_lang_target (map (λ r. r.target) rows.now)) }
{
    let keys = target_keys(alloc, rows)?;
    index_of(alloc, keys.as_slice())
}

fn index_lang(alloc: Global, rows: &[LangRow]) -> Result<LangIndex, AllocError>
    ensures { IfOk result (IsLangIndex rows.now) }
{
    let (items, doubled_item) = index_lang_items(alloc, rows)?;
    let (targets, doubled_target) = index_lang_targets(alloc, rows)?;
    Ok(LangIndex {
        items,
        targets,
        doubled: doubled_item | doubled_target,
    })
}
