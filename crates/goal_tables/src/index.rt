//! Where rows stand: maps from ids to places, made once.
ghost use Rattle.std.specs.Prelude.{◌≡◌, ◌<◌, IfOk, map, find, length, slice_get, ◌==◌};
ghost use Rattle.std.specs.Option.{option_copied, option_and_then, ForSome};
ghost use Rattle.std.specs.HashMap.{get};
ghost use Rattle.goal_tables.specs.Places.{IsIndexOf, has_double};

use crate::row::Row;
use indexmap::IndexMap;
use std::alloc::{AllocError, Global};
use std::hash::Hash;

/// A map from each key to the place where it stands first, and whether a key stands twice.
pub fn index_of<K: Eq + Hash + Copy>(
    alloc: Global,
    keys: &[K],
) -> Result<(IndexMap<K, usize>, bool), AllocError>
    ensures places { IfOk result (λ made. IsIndexOf K.eq keys.now made.0) }
    ensures doubled { IfOk result (λ made. made.1 ≡ has_double K.eq keys.now) }
{
    let mut places = IndexMap::with_capacity(alloc, keys.len())?;
    let mut doubled = false;
    for i in (0..keys.len()).rev() {
        let later = places.insert(keys[i], i)?;
        doubled = later.is_some() | doubled;
    }
    Ok((places, doubled))
}

/// The numbers of rows.
fn numbers_of<R: Row>(alloc: Global, rows: &[R]) -> Result<Vec<u32>, AllocError>
    ensures { IfOk result (λ made. made.items ≡ map R.id_number rows.now) }
{
    rows.iter().map(|row| row.number()).collect(alloc)
}

/// Where the row of each id stands in a list, and whether two rows have one id.
pub struct RowIndex {
    pub places: IndexMap<u32, usize>,
    pub doubled: bool,
}

impl Drop for RowIndex {
    fn drop(self) {
        let RowIndex {
            places: _,
            doubled: _,
        } = self;
    }
}

impl RowIndex {
    ghost use Rattle.goal_tables.specs.Indexed.{IsRowIndex};

    /// Finds where the numbers stand. Want of memory is the only refusal.
    pub fn of_numbers(alloc: Global, numbers: &[u32]) -> Result<Self, AllocError>
        ensures { IfOk result (IsRowIndex numbers.now) }
    {
        let (places, doubled) = index_of(alloc, numbers)?;
        Ok(RowIndex { places, doubled })
    }

    /// Finds where the rows stand. Want of memory is the only refusal.
    pub fn new<R: Row>(alloc: Global, rows: &[R]) -> Result<Self, AllocError>
        ensures { IfOk result (IsRowIndex (map R.id_number rows.now)) }
    {
        let numbers = numbers_of(alloc, rows)?;
        RowIndex::of_numbers(alloc, numbers.as_slice())
    }

    /// The first row of a number.
    pub fn row<'a, R: Row>(&self, rows: &'a [R], number: u32) -> Option<&'a R>
        requires { IsRowIndex (map R.id_number rows.now) self.now }
        ensures { option_copied result ≡ find (λ r. R.id_number r == number) rows.now }
    {
        let place = place_of(&self.places, number);
        row_at(rows, place)
    }
}

/// The place that an index has for a number.
pub fn place_of(places: &IndexMap<u32, usize>, number: u32) -> Option<usize>
    ensures { result ≡ get ◌==◌ places.now number }
{
    places.get(&number).copied()
}

/// The row at a place, if there is a place.
pub fn row_at<R>(rows: &[R], place: Option<usize>) -> Option<&R>
    requires { ForSome place (λ n. n < length rows.now) }
    ensures { option_copied result ≡ option_and_then (slice_get rows.now) place }
{
    match place {
        None => None,
        Some(place) => Some(&rows[place]),
    }
}
