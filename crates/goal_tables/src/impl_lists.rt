//! Where the impls of each trait stand.
ghost use Rattle.std.specs.Prelude.{◌≡◌, ◌++◌, ◌∷◌, [], IfOk, ℕ, ◌==◌, if◌then◌else◌};
ghost use Rattle.std.specs.HashMap.{get};
ghost use Rattle.goal_tables.specs.Indexed.{AreImplLists, list_at};

use crate::rows::ImplRow;
use indexmap::IndexMap;
use std::alloc::{AllocError, Global};

/// Puts a place at the end of the list of a number.
fn add_place(
    lists: IndexMap<u32, Vec<usize>>,
    alloc: Global,
    number: u32,
    place: usize,
) -> Result<IndexMap<u32, Vec<usize>>, AllocError>
    ensures { IfOk result (λ made. (k : ℕ) → list_at (get ◌==◌ made k) ≡ (if number == k then list_at (get ◌==◌ lists k) ++ place ∷ [] else list_at (get ◌==◌ lists k))) }
{
    let mut lists = lists;
    let mut list = match lists.swap_remove(&number) {
        Some(list) => list,
        None => Vec::new(alloc),
    };
    list.push(place)?;
    lists.insert(number, list)?;
    Ok(lists)
}

/// The places of each trait's impls, in the order of their rows. Want of memory is the only refusal.
pub fn impl_lists(alloc: Global, rows: &[ImplRow]) -> Result<IndexMap<u32, Vec<usize>>, AllocError>
    ensures { IfOk result (AreImplLists rows.now) }
{
    let mut lists = IndexMap::new(alloc);
    for i in 0..rows.len() {
        lists = add_place(lists, alloc, rows[i].trait_id.0, i)?;
    }
    Ok(lists)
}
