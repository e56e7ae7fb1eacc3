//! Comparisons of terms as far as no alias has to be opened, and what they leave to be compared.
ghost use Rattle.std.specs.Prelude.{◌≡◌, ◌||◌, ◌<◌, [], IfOk, length};
ghost use Rattle.std.specs.List.{All};
ghost use Rattle.goal_lists.specs.Interned.{erased_at, erased_all};
ghost use Rattle.goal_lists.specs.Words.{Pairs, SomePair};
ghost use Rattle.goal_lists.specs.Joined.{both};
ghost use Rattle.goal_eval.specs.Pending.{is_alias, is_variable, AreOfOneKind, AreListsOfOneKind, forms_of, TopsSay, IsOpen, Adds};

use crate::eval::outcomes::Found;
use goal_interner::term_nodes::{OutOfMemory, TermId};
use goal_interner::term_table::TermTable;
use goal_lists::outcomes::Outcome;
use goal_tables::lookup::IndexedTables;
use goal_terms::compare::Regions;
use goal_terms::heads::Node;

/// Two terms that are to be compared.
#[derive(Clone, Copy)]
pub struct TermPair {
    pub left: TermId,
    pub right: TermId,
}

/// What a comparison leaves: pairs of terms of which one is an alias, and what all other places come to.
#[derive(Drop)]
pub struct Pending {
    pub outcome: Outcome,
    pub pairs: Vec<TermPair>,
}

/// What the tops of two terms say: an outcome, or that head forms or the parts decide.
#[derive(Clone, Copy)]
pub enum Tops {
    Settled(Outcome),
    NeedForms,
    NeedParts,
}

/// The head forms of two terms, or what is said of these where not both are found.
#[derive(Clone, Copy)]
pub enum Forms {
    Found(TermId, TermId),
    Lacking(Outcome),
}

impl Pending {
    /// Nothing is left to be compared. It takes no memory.
    pub fn new(rows: &IndexedTables) -> Self
        ensures outcome { result.outcome ≡ Outcome.Holds }
        ensures pairs { result.pairs.items ≡ [] }
    {
        let alloc = *rows.tables().traits.allocator();
        Pending {
            outcome: Outcome::Holds,
            pairs: Vec::new(alloc),
        }
    }
}

/// The head forms of two terms, from what is found of each.
pub(crate) fn pair_forms(left: Found, right: Found) -> Forms
    ensures { result ≡ forms_of left right }
{
    match (left, right) {
        (Found::Is(form), Found::Is(other)) => Forms::Found(form, other),
        (Found::Refuted, _) | (_, Found::Refuted) => Forms::Lacking(Outcome::Refuted),
        (Found::Undecided, _) | (_, Found::Undecided) => Forms::Lacking(Outcome::Undecided),
    }
}

/// Whether one of two nodes is an alias.
fn either_alias(node: Node, other: Node) -> bool
    ensures { result ≡ is_alias node || is_alias other }
{
    matches!(node, Node::Alias(_)) || matches!(other, Node::Alias(_))
}

/// Whether one of two nodes is a variable.
fn either_variable(node: Node, other: Node) -> bool
    ensures { result ≡ is_variable node || is_variable other }
{
    matches!(node, Node::Variable(_)) || matches!(other, Node::Variable(_))
}

/// What the tops of two terms say of whether these are equal, lifetimes aside. It takes no memory.
pub fn compare_tops(terms: &TermTable, left: TermId, right: TermId) -> Tops
    requires first { left.0 < length terms.now }
    requires second { right.0 < length terms.now }
    ensures { TopsSay terms.now left right result }
{
    if terms.same_term(left, right) {
        return Tops::Settled(Outcome::Holds);
    }
    let node = terms.node(left);
    let other = terms.node(right);
    if either_alias(node, other) {
        return if terms.same_erased(left, right) {
            Tops::Settled(Outcome::Holds)
        } else {
            Tops::NeedForms
        };
    }
    if either_variable(node, other) {
        return Tops::Settled(Outcome::Undecided);
    }
    if node.is_same(other, Regions::Forgotten) {
        Tops::NeedParts
    } else {
        Tops::Settled(Outcome::Refuted)
    }
}

/// Adds the question whether two terms are equal, lifetimes aside, to what is left to be compared.
#[cycle(collection)]
pub(crate) fn collect(
    terms: &TermTable,
    pending: &mut Pending,
    left: TermId,
    right: TermId,
) -> Result<(), OutOfMemory>
    requires alike { AreOfOneKind terms.now left right }
    requires open { All (IsOpen terms.now) pending.old.pairs.items }
    ensures open { IfOk result (λ u. All (IsOpen terms.now) pending.new.pairs.items) }
    ensures adds { IfOk result (λ u. Adds terms.now pending.old pending.new
        (λ L. L.equal (erased_at terms.now left) (erased_at terms.now right))
        (λ L. L.unequal (erased_at terms.now left) (erased_at terms.now right))) }
{
    match compare_tops(terms, left, right) {
        Tops::Settled(outcome) => {
            pending.outcome = pending.outcome.and(outcome);
            Ok(())
        }
        Tops::NeedForms => {
            pending.pairs.push(TermPair { left, right })?;
            Ok(())
        }
        Tops::NeedParts => collect_lists(terms, pending, terms.parts(left), terms.parts(right)),
    }
}

/// Adds the question whether two lists of terms are equal in pairs, lifetimes aside, to what is left to be
/// compared. Once something is refuted nothing more is added.
#[cycle(collection)]
pub(crate) fn collect_lists(
    terms: &TermTable,
    pending: &mut Pending,
    left: &[TermId],
    right: &[TermId],
) -> Result<(), OutOfMemory>
    requires alike { AreListsOfOneKind terms.now left.now right.now }
    requires open { All (IsOpen terms.now) pending.old.pairs.items }
    ensures open { IfOk result (λ u. All (IsOpen terms.now) pending.new.pairs.items) }
    ensures adds { IfOk result (λ u. Adds terms.now pending.old pending.new
        (λ L. Pairs L.equal (erased_all terms.now left.now) (erased_all terms.now right.now))
        (λ L. SomePair L.unequal (erased_all terms.now left.now) (erased_all terms.now right.now))) }
{
    let count = left.len();
    if right.len() != count {
        pending.outcome = Outcome::Refuted;
        return Ok(());
    }
    for i in 0..count {
        if pending.outcome.is_refuted() {
            return Ok(());
        }
        collect(terms, pending, left[i], right[i])?;
    }
    Ok(())
}
