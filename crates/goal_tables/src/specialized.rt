//! Impls that specialize others: which are more special than an impl, and what may be wrong with the lists.
ghost use Rattle.std.specs.Prelude.{◌≡◌, ◌<◌, ◌==◌, [], ◌∷◌, false, length, map, slice_get, Some, IfOk};
ghost use Rattle.std.specs.List.{list_any};
ghost use Rattle.goal_tables.specs.Indexed.{IsRowIndex, AreMoreSpecial, AreSpecialLists};
ghost use Rattle.goal_tables.specs.Rows.{impl_of};
ghost use Rattle.goal_tables.specs.SpecialSearch.{unmarked, IfSearchedAt, IsSearch, Finds};
ghost use Rattle.goal_tables.specs.Options.{option_holds};
ghost use Rattle.goal_tables.specs.Specialized.{if_row, listed_by, leads_back, specialization_cycle};
ghost use Rattle.goal_tables.specs.declared.rows.ImplRow.{ImplRow as impl_row};
ghost use Rattle.goal_tables.specs.declared.rows.Tables.{Tables as tables_of};

use crate::index::{RowIndex, place_of};
use crate::rows::{ImplRow, Tables};
use goal_terms::ids::ImplId;
use std::alloc::{AllocError, Global};

/// The impls that were found along the lists of more special ones: their places, each once, and a mark for each
/// impl that is among them.
struct Search {
    marks: Vec<bool>,
    found: Vec<usize>,
}

impl Drop for Search {
    fn drop(self) {
        let Search { marks: _, found: _ } = self;
    }
}

impl Search {
    /// Nothing is found yet of some impls. Want of memory is the only refusal.
    fn new(alloc: Global, rows: &[ImplRow]) -> Result<Self, AllocError>
        ensures valid { IfOk result (IsSearch (length rows.now)) }
        ensures nothing { IfOk result (λ made. made.found.items ≡ []) }
        ensures clear { IfOk result (λ made. unmarked made.marks.items ≡ length rows.now) }
    {
        let marks = no_marks(alloc, rows)?;
        let found = Vec::new(alloc);
        Ok(Search { marks, found })
    }

    /// Adds the impl at a place, unless it was found. Want of memory is the only refusal.
    fn add_place(&mut self, place: usize) -> Result<(), AllocError>
        requires within { place < length self.old.marks.items }
        ensures finds { (t : tables_of) → IfSearchedAt t place self.old (λ q. IfOk result (λ _. Finds t (q ∷ []) self.old self.new)) }
    {
        if self.marks[place] {
            return Ok(());
        }
        self.found.push(place)?;
        self.marks[place] = true;
        Ok(())
    }

    /// Adds an impl, if it has a row. Want of memory is the only refusal.
    fn add_impl(&mut self, tables: &Tables, places: &RowIndex, id: ImplId) -> Result<(), AllocError>
        requires index { IsRowIndex (map (λ r. r.id.0) tables.now.impls.items) places.now }
        requires valid { IsSearch (length tables.now.impls.items) self.old }
        ensures finds { IfOk result (λ _. Finds tables.now (if_row (impl_of tables.now id)) self.old self.new) }
    {
        match place_of(&places.places, id.0) {
            None => Ok(()),
            Some(place) => self.add_place(place),
        }
    }

    /// Adds the impls that an impl lists. Want of memory is the only refusal.
    fn add_listed(
        &mut self,
        tables: &Tables,
        places: &RowIndex,
        row: &ImplRow,
    ) -> Result<(), AllocError>
        requires index { IsRowIndex (map (λ r. r.id.0) tables.now.impls.items) places.now }
        requires valid { IsSearch (length tables.now.impls.items) self.old }
        ensures finds { IfOk result (λ _. Finds tables.now (listed_by tables.now row.now) self.old self.new) }
    {
        let ids = row.more_special.as_slice();
        for i in 0..ids.len() {
            let id = ids[i];
            self.add_impl(tables, places, id)?;
        }
        Ok(())
    }

    /// Finds the impls that are more special than one: what it lists, what these list, and so on. Nothing was
    /// found before. Want of memory is the only refusal.
    fn follow(
        &mut self,
        tables: &Tables,
        places: &RowIndex,
        row: &ImplRow,
    ) -> Result<(), AllocError>
        requires index { IsRowIndex (map (λ r. r.id.0) tables.now.impls.items) places.now }
        requires valid { IsSearch (length tables.now.impls.items) self.old }
        requires nothing { self.old.found.items ≡ [] }
        requires clear { unmarked self.old.marks.items ≡ length tables.now.impls.items }
        ensures found { IfOk result (λ _. AreMoreSpecial tables.now row.now self.new.found.items) }
    {
        self.add_listed(tables, places, row)?;
        let mut i = 0;
        while i < self.found.len() {
            let listed = &tables.impls.as_slice()[self.found[i]];
            self.add_listed(tables, places, listed)?;
            i += 1;
        }
        Ok(())
    }

    /// What was found.
    fn into_found(self) -> Vec<usize>
        ensures { result ≡ self.found }
    {
        let Search { marks: _, found } = self;
        found
    }
}

/// A mark for each element, not set. Want of memory is the only refusal.
fn no_marks<X>(alloc: Global, all: &[X]) -> Result<Vec<bool>, AllocError>
    ensures { IfOk result (λ made. made.items ≡ map (λ x. false) all.now) }
{
    all.iter().map(|_| false).collect(alloc)
}

/// The places of the impls that are more special than one. Want of memory is the only refusal.
fn special_list(
    alloc: Global,
    tables: &Tables,
    places: &RowIndex,
    row: &ImplRow,
) -> Result<Vec<usize>, AllocError>
    requires index { IsRowIndex (map (λ r. r.id.0) tables.now.impls.items) places.now }
    ensures listed { IfOk result (λ made. AreMoreSpecial tables.now row.now made.items) }
{
    if row.more_special.is_empty() {
        return Ok(Vec::new(alloc));
    }
    let mut search = Search::new(alloc, tables.impls.as_slice())?;
    search.follow(tables, places, row)?;
    Ok(search.into_found())
}

/// For each impl the places of those that are more special. Want of memory is the only refusal.
pub fn special_lists(
    alloc: Global,
    tables: &Tables,
    places: &RowIndex,
) -> Result<Vec<Vec<usize>>, AllocError>
    requires index { IsRowIndex (map (λ r. r.id.0) tables.now.impls.items) places.now }
    ensures lists { IfOk result (λ made. AreSpecialLists tables.now tables.now.impls.items made.items) }
{
    let rows = tables.impls.as_slice();
    let mut lists = Vec::with_capacity(alloc, rows.len())?;
    for i in 0..rows.len() {
        let list = special_list(alloc, tables, places, &rows[i])?;
        lists.push(list)?;
    }
    Ok(lists)
}

/// Whether the impl of an id stands at a place.
fn is_at(rows: &[ImplRow], place: usize, id: ImplId) -> bool
    ensures { result ≡ option_holds (λ q. q.id.0 == id.0) (slice_get rows.now place) }
{
    match rows.get(place) {
        None => false,
        Some(row) => row.id.0 == id.0,
    }
}

/// Whether an impl stands at one of some places, by its id.
fn is_among(rows: &[ImplRow], places: &[usize], row: &ImplRow) -> bool
    ensures { result ≡ list_any (λ p. option_holds (λ q. q.id.0 == row.now.id.0) (slice_get rows.now p)) places.now }
{
    places.iter().any(|place| is_at(rows, *place, row.id))
}

/// Whether the impl at a place is more special than itself, by the places of those that are more special than each.
fn leads_back(tables: &Tables, lists: &[Vec<usize>], place: usize) -> bool
    requires within { place < length tables.now.impls.items }
    requires lists { AreSpecialLists tables.now tables.now.impls.items lists.now }
    ensures { (r : impl_row) → slice_get tables.now.impls.items place ≡ Some r → result ≡ leads_back tables.now (length tables.now.impls.items) r }
{
    let rows = tables.impls.as_slice();
    is_among(rows, lists[place].as_slice(), &rows[place])
}

/// Whether some impl is more special than itself, by the places of those that are more special than each.
#[tactic(auto, using(crate::proofs::MarkLemmas::gathering))]
pub fn some_leads_back(tables: &Tables, lists: &[Vec<usize>]) -> bool
    requires lists { AreSpecialLists tables.now tables.now.impls.items lists.now }
    ensures { result ≡ specialization_cycle tables.now }
{
    let rows = tables.impls.as_slice();
    let mut some = false;
    for i in 0..rows.len() {
        let found = leads_back(tables, lists, i);
        some = some | found;
    }
    some
}
