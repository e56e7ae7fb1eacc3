//! Where the impls of each trait stand, by the head of their self type.
ghost use Rattle.std.specs.Prelude.{◌≡◌, ◌++◌, ◌∷◌, ◌||◌, ◌<◌, ◌≤◌, [], true, false, List, length, get_or, IfOk, if◌then◌else◌};
ghost use Rattle.goal_tables.specs.ImplsByHead.{known_head, self_head, may_have_head, same_key, places_for, places_of, AreKeyLists, IfPlacesApart};
ghost use Rattle.goal_tables.specs.declared.impls_by_head.ImplKey.{ImplKey as impl_key};
ghost use Rattle.goal_tables.specs.declared.rows.ImplRow.{ImplRow as impl_row};

use crate::rows::ImplRow;
use goal_terms::compare::Regions;
use goal_terms::heads::{Head, Node};
use goal_terms::ids::TraitId;
use indexmap::IndexMap;
use std::alloc::{AllocError, Global};

/// By what an impl is found: its trait, and the head of its self type, without lifetimes. There is no head
/// where the self type stands for other terms, as a parameter, an alias or a variable does.
#[derive(Clone, Copy, PartialEq, Eq, Hash)]
pub struct ImplKey {
    pub trait_id: TraitId,
    pub head: Option<Node>,
}

/// The head of a term, without lifetimes, unless the term stands for others.
fn known_head(node: Node) -> Option<Node>
    ensures { result ≡ known_head node }
{
    match node {
        Node::Head(Head::TyParam(_) | Head::ConstParam(_)) => None,
        Node::Head(_) => Some(node.compared(Regions::Forgotten)),
        Node::Alias(_) | Node::Variable(_) => None,
    }
}

/// The head of an impl's self type.
fn self_head(row: &ImplRow) -> Option<Node>
    ensures { result ≡ self_head row.now }
{
    let args = row.trait_args.as_slice();
    if args.is_empty() {
        return None;
    }
    known_head(args[0].view().node())
}

/// Puts a place at the end of the list of a key.
fn add_place(
    lists: IndexMap<ImplKey, Vec<usize>>,
    alloc: Global,
    key: ImplKey,
    place: usize,
) -> Result<IndexMap<ImplKey, Vec<usize>>, AllocError>
    ensures { IfOk result (λ made. (k : impl_key) → places_for made k ≡ (if same_key key k then places_for lists k ++ place ∷ [] else places_for lists k)) }
{
    let mut lists = lists;
    let mut list = match lists.swap_remove(&key) {
        Some(list) => list,
        None => Vec::new(alloc),
    };
    list.push(place)?;
    lists.insert(key, list)?;
    Ok(lists)
}

/// The places of the impls of each key, in the order of their rows. Want of memory is the only refusal.
pub fn key_lists(
    alloc: Global,
    rows: &[ImplRow],
) -> Result<IndexMap<ImplKey, Vec<usize>>, AllocError>
    ensures { IfOk result (AreKeyLists rows.now) }
{
    let mut lists = IndexMap::new(alloc);
    for i in 0..rows.len() {
        let key = ImplKey {
            trait_id: rows[i].trait_id,
            head: self_head(&rows[i]),
        };
        lists = add_place(lists, alloc, key, i)?;
    }
    Ok(lists)
}

/// Whether a number stands at a place and is less than another.
fn is_less_at(numbers: &[usize], place: usize, other: usize) -> bool
    ensures less { result ≡ true → (place < length numbers.now) × (get_or numbers.now place 0 < other) }
    ensures not_less { result ≡ false → place < length numbers.now → other ≤ get_or numbers.now place 0 }
{
    place < numbers.len() && numbers[place] < other
}

/// Two lists of places as one that rises, if they are those of elements that never pass both of two tests.
/// Want of memory is the only refusal.
fn merged(alloc: Global, left: &[usize], right: &[usize]) -> Result<Vec<usize>, AllocError>
    ensures { IfPlacesApart left.now right.now (λ p q rows. IfOk result (λ made. made.items ≡ places_of (λ r. p r || q r) rows)) }
{
    let mut made = Vec::new(alloc);
    let mut i = 0;
    let mut j = 0;
    while i < left.len() {
        if is_less_at(right, j, left[i]) {
            made.push(right[j])?;
            j += 1;
        } else {
            made.push(left[i])?;
            i += 1;
        }
    }
    made.extend_from_slice(&right[j..])?;
    Ok(made)
}

/// The list that a map has for a key.
fn list_of(lists: &IndexMap<ImplKey, Vec<usize>>, key: ImplKey) -> &[usize]
    ensures { result.now ≡ places_for lists.now key }
{
    match lists.get(&key) {
        None => &[],
        Some(list) => list.as_slice(),
    }
}

/// The places of the impls of a trait whose self type may have a head, in the order of their rows. Want of
/// memory is the only refusal.
pub(crate) fn places_with_head(
    alloc: Global,
    lists: &IndexMap<ImplKey, Vec<usize>>,
    trait_id: TraitId,
    head: Node,
) -> Result<Vec<usize>, AllocError>
    ensures { (rows : List impl_row) → AreKeyLists rows lists.now → IfOk result (λ places. places.items ≡ places_of (λ r. may_have_head trait_id head r) rows) }
{
    let head = Some(head.compared(Regions::Forgotten));
    let known = list_of(lists, ImplKey { trait_id, head });
    let any = ImplKey {
        trait_id,
        head: None,
    };
    merged(alloc, known, list_of(lists, any))
}
