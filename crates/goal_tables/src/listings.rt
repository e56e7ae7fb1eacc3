//! Where traits list their items.
ghost use Rattle.std.specs.Prelude.{◌≡◌, ◌==◌, IfOk, is_some, slice_get};
ghost use Rattle.std.specs.HashMap.{get};
ghost use Rattle.std.specs.List.{list_any};
ghost use Rattle.std.specs.Option.{option_and_then};
ghost use Rattle.goal_tables.specs.Options.{option_holds};
ghost use Rattle.goal_tables.specs.Indexed.{IsRowIndex, AreListings, listed_numbers, lists_number as lists_item, lists_twice};

use crate::index::RowIndex;
use crate::rows::TraitRow;
use std::alloc::{AllocError, Global};

/// Where the items of a trait stand in its list.
fn listing_of(alloc: Global, row: &TraitRow) -> Result<RowIndex, AllocError>
    ensures { IfOk result (IsRowIndex (listed_numbers row.now)) }
{
    let numbers: Vec<u32> = row.items.iter().map(|item| item.0).collect(alloc)?;
    RowIndex::of_numbers(alloc, numbers.as_slice())
}

/// Where the items of each trait stand in its list. Want of memory is the only refusal.
pub fn listings(alloc: Global, rows: &[TraitRow]) -> Result<Vec<RowIndex>, AllocError>
    ensures { IfOk result (λ made. AreListings rows.now made.items) }
{
    let mut lists = Vec::with_capacity(alloc, rows.len())?;
    for i in 0..rows.len() {
        let list = listing_of(alloc, &rows[i])?;
        lists.push(list)?;
    }
    Ok(lists)
}

/// Whether a number stands in an index.
fn has_number(index: &RowIndex, number: u32) -> bool
    ensures { result ≡ is_some (get ◌==◌ index.now.places number) }
{
    index.places.get(&number).is_some()
}

#[tactic(auto, using(crate::proofs::IndexLemmas::listing))]
/// Whether the trait at a place lists the item of a number.
pub fn lists_number(
    rows: &[TraitRow],
    lists: &[RowIndex],
    place: Option<usize>,
    number: u32,
) -> bool
    requires { AreListings rows.now lists.now }
    ensures { result ≡ option_holds (λ r. lists_item r number) (option_and_then (slice_get rows.now) place) }
{
    match place {
        Some(place) if place < lists.len() => has_number(&lists[place], number),
        _ => false,
    }
}

/// Whether a number stands twice in some index.
fn some_is_doubled(lists: &[RowIndex]) -> bool
    ensures { result ≡ list_any (λ i. i.doubled) lists.now }
{
    lists.iter().any(|list| list.doubled)
}

#[tactic(auto, using(crate::proofs::IndexLemmas::doubling))]
/// Whether some trait lists an item twice.
pub fn some_lists_twice(rows: &[TraitRow], lists: &[RowIndex]) -> bool
    requires { AreListings rows.now lists.now }
    ensures { result ≡ list_any lists_twice rows.now }
{
    some_is_doubled(lists)
}
