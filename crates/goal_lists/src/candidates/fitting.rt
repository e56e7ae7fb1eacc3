//! Which impls and which clauses of an environment may fit given arguments, by the heads of theirs. It takes no memory.
ghost use Rattle.std.specs.Prelude.{◌≡◌, ◌<◌, length};
ghost use Rattle.goal_terms.specs.PredicateTrees.{tree_of_kind};
ghost use Rattle.goal_interner.specs.TableMeaning.{tree_at, AreBelow};
ghost use Rattle.goal_terms.specs.TreeOf.{trees_of, tree_of_alias};
ghost use Rattle.goal_terms.specs.View.{tree_of_ref, trees_seen};
ghost use Rattle.goal_lists.specs.Answers.{erased_predicate};
ghost use Rattle.goal_lists.specs.CandidateWords.{about};
ghost use Rattle.goal_lists.specs.Candidates.{by_impl};
ghost use Rattle.goal_lists.specs.FastReject.{heads_agree};
ghost use Rattle.goal_lists.specs.Fitting.{trees_at, head_agrees, is_item, may_fit, trait_may_fit, alias_may_fit, clause_may_fit};
ghost use Rattle.goal_lists.specs.Interned.{AreIn};
ghost use Rattle.goal_lists.specs.Projections.{projected_item};
ghost use Rattle.goal_lists.specs.declared.fast_reject.Parameters.TheVariants.{Inferred};

use crate::candidates::lists::Sought;
use crate::fast_reject::{Parameters, is_open};
use goal_interner::term_nodes::TermId;
use goal_interner::term_table::TermTable;
use goal_tables::rows::ImplRow;
use goal_terms::compare::Regions;
use goal_terms::ids::ItemId;
use goal_terms::predicates::{ClauseKind, TraitRef};
use goal_terms::terms::{AliasTerm, AliasTermKind};
use goal_terms::view::{Parts, TermRef};

/// Whether no head of a header's term differs from that of a given term, where both reach a place through
/// the same heads. What stands for other terms differs from none: an alias, an inference variable, and a
/// parameter of the header that is to be inferred.
#[cycle(heads)]
fn head_agrees(
    terms: &TermTable,
    given: TermId,
    header: TermRef<'_>,
    parameters: Parameters,
) -> bool
    requires { given.0 < length terms.now }
    ensures { result ≡ head_agrees parameters (tree_at terms.now given) (tree_of_ref header.entry) }
{
    let node = terms.node(given);
    let other = header.node();
    let given_open = is_open(node, Parameters::Rigid);
    let header_open = is_open(other, parameters);
    if given_open || header_open {
        return true;
    }
    if !node.is_same(other, Regions::Forgotten) {
        return false;
    }
    parts_agree(terms, terms.parts(given), header.parts(), parameters)
}

/// Whether no head of a header's terms differs from that of the given term at its place.
#[cycle(heads)]
fn parts_agree(
    terms: &TermTable,
    given: &[TermId],
    header: Parts<'_>,
    parameters: Parameters,
) -> bool
    requires { AreBelow (length terms.now) given.now }
    ensures { result ≡ heads_agree parameters (trees_at terms.now given.now) (trees_seen header.entry) }
{
    let count = given.len();
    if header.len() != count {
        return false;
    }
    for i in 0..count {
        if !head_agrees(terms, given[i], header.at(i), parameters) {
            return false;
        }
    }
    true
}

/// Whether an impl may fit given arguments: no head of its header differs from theirs.
pub(crate) fn may_fit(terms: &TermTable, given: &[TermId], row: &ImplRow) -> bool
    requires { AreIn terms.now given.now }
    ensures { result ≡ may_fit (trees_at terms.now given.now) (by_impl row.now) }
{
    let header = Parts::Args(row.trait_args.as_slice());
    parts_agree(terms, given, header, Parameters::Inferred)
}

/// Whether a trait with arguments may be the one that is sought: it is that trait, and no head of its arguments
/// differs from theirs. A parameter stands for itself.
fn trait_may_fit(terms: &TermTable, sought: &Sought<'_>, held: &TraitRef) -> bool
    requires { AreIn terms.now sought.now.args.now }
    ensures { result ≡ trait_may_fit (about terms.now sought.now) held.now.def_id (trees_of held.now.args.items) }
{
    if held.def_id.0 != sought.trait_id.0 {
        return false;
    }
    let args = Parts::Args(held.args.as_slice());
    parts_agree(terms, sought.args, args, Parameters::Rigid)
}

/// Whether an alias is of an item.
fn is_of_item(kind: AliasTermKind, item: ItemId) -> bool
    ensures { result ≡ is_item item (projected_item kind) }
{
    match kind {
        AliasTermKind::ProjectionTy(id) | AliasTermKind::ProjectionConst(id) => id.0 == item.0,
        _ => false,
    }
}

/// Whether an alias may be that of an item with the arguments that are sought, as `trait_may_fit` says of a trait.
#[tactic(auto, using(goal_terms::proofs::TreeLemmas::tree_equations))]
fn alias_may_fit(terms: &TermTable, sought: &Sought<'_>, item: ItemId, held: &AliasTerm) -> bool
    requires { AreIn terms.now sought.now.args.now }
    ensures { result ≡ alias_may_fit item (trees_at terms.now sought.now.args.now) (tree_of_alias held.now) }
{
    if !is_of_item(held.kind, item) {
        return false;
    }
    let args = Parts::Args(held.args.as_slice());
    parts_agree(terms, sought.args, args, Parameters::Rigid)
}

/// Whether a clause of an environment may be about what is sought: about the trait, or about the item if one is sought.
pub(crate) fn clause_may_fit(terms: &TermTable, sought: &Sought<'_>, clause: &ClauseKind) -> bool
    requires { AreIn terms.now sought.now.args.now }
    ensures { result ≡ clause_may_fit (about terms.now sought.now) (erased_predicate (tree_of_kind clause.now)) }
{
    match (clause, sought.item) {
        (ClauseKind::Trait(held), None) => trait_may_fit(terms, sought, &held.trait_ref),
        (ClauseKind::HostEffect(held), None) => trait_may_fit(terms, sought, &held.trait_ref),
        (ClauseKind::Projection(held), Some(item)) => {
            alias_may_fit(terms, sought, item, &held.projection_term)
        }
        _ => false,
    }
}
