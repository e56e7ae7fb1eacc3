//! Where the first place of a header's parameter leads to in given terms.
ghost use Rattle.std.specs.Prelude.{◌≡◌, ◌<◌, length, map};
ghost use Rattle.goal_interner.specs.TableMeaning.{tree_at, AreBelow};
ghost use Rattle.goal_terms.specs.View.{tree_of_ref, trees_seen};
ghost use Rattle.goal_lists.specs.Headers.{is_number, has_place, PartAmong};
ghost use Rattle.goal_lists.specs.Interned.{erased_at};
ghost use Rattle.goal_eval.specs.HeaderWords.{parameter_at, erased_ref, MayStand, MayAllStand, PlaceIn, FindsPart, erased_refs, erased_trees};

use goal_interner::term_nodes::TermId;
use goal_interner::term_table::TermTable;
use goal_terms::compare::Regions;
use goal_terms::heads::{Head, Node};
use goal_terms::view::{Parts, TermRef};

/// Where the first place of a parameter leads to: to a given term, nowhere, or to a constructor of the
/// header against which an alias stands.
#[derive(Clone, Copy)]
pub enum Place<'a> {
    Is(TermId),
    Missing,
    Behind(TermRef<'a>, TermId),
}

/// A part of a header, and the given term against which it stands.
#[derive(Clone, Copy)]
pub struct Against<'a> {
    pub header: TermRef<'a>,
    pub given: TermId,
}

/// The number of the type or const parameter that a node is.
pub(crate) fn parameter_at(node: Node) -> Option<u32>
    ensures { result ≡ parameter_at node }
{
    match node {
        Node::Head(Head::TyParam(index)) => Some(index),
        Node::Head(Head::ConstParam(index)) => Some(index),
        _ => None,
    }
}

/// Whether a number is the one found.
fn is_number(number: usize, found: Option<u32>) -> bool
    ensures { result ≡ is_number number found }
{
    match found {
        Some(other) => other as usize == number,
        None => false,
    }
}

/// Whether a parameter stands in a header outside of aliases.
fn has_place(number: usize, term: TermRef<'_>) -> bool
    ensures { result ≡ has_place number (tree_of_ref term.entry) }
{
    let node = term.node();
    if let Node::Alias(_) = node {
        return false;
    }
    if is_number(number, parameter_at(node)) {
        return true;
    }
    let parts = term.parts();
    for i in 0..parts.len() {
        if has_place(number, parts.at(i)) {
            return true;
        }
    }
    false
}

/// Where the first place of a parameter in a header leads to in a given term.
#[cycle(places)]
pub(crate) fn find_place<'a>(
    terms: &TermTable,
    number: usize,
    header: TermRef<'a>,
    given: TermId,
) -> Place<'a>
    requires within { given.0 < length terms.now }
    requires stands { MayStand (tree_of_ref header) (tree_at terms.now given) }
    ensures within { PlaceIn terms.now number result }
    ensures says { FindsPart number terms.now result (λ L. L.part number (erased_ref header.entry) (erased_at terms.now given)) }
{
    let node = header.node();
    let Node::Head(_) = node else {
        return Place::Missing;
    };
    if is_number(number, parameter_at(node)) {
        return Place::Is(given);
    }
    let other = terms.node(given);
    match other {
        Node::Alias(_) => Place::Behind(header, given),
        Node::Variable(_) => Place::Missing,
        Node::Head(_) => {
            if node.is_same(other, Regions::Forgotten) {
                find_among(terms, number, header.parts(), terms.parts(given))
            } else {
                Place::Missing
            }
        }
    }
}

/// The same among the parts of a header.
#[cycle(places)]
pub(crate) fn find_among<'a>(
    terms: &TermTable,
    number: usize,
    parts: Parts<'a>,
    given: &[TermId],
) -> Place<'a>
    requires within { AreBelow (length terms.now) given.now }
    requires stand { MayAllStand (trees_seen parts) (map (tree_at terms.now) given.now) }
    ensures within { PlaceIn terms.now number result }
    ensures says { FindsPart number terms.now result (λ L. PartAmong L number (erased_refs parts.entry) (erased_trees terms.now given.now)) }
{
    for i in 0..parts.len() {
        if i >= given.len() {
            return Place::Missing;
        }
        let part = parts.at(i);
        if has_place(number, part) {
            return find_place(terms, number, part, given[i]);
        }
    }
    Place::Missing
}
