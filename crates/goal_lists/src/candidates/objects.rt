//! What the clauses of a `dyn` self type say, as candidates.
ghost use Rattle.std.specs.Prelude.{◌≡◌, ◌<◌, ◌≤◌, ◌∷◌, length, map, take, Some, IfOk};
ghost use Rattle.std.specs.List.{All};
ghost use Rattle.goal_terms.specs.Erased.{erased};
ghost use Rattle.goal_terms.specs.Sorts.{IsArgument, Fits};
ghost use Rattle.goal_interner.specs.TableMeaning.{Keeps, tree_at};
ghost use Rattle.goal_terms.specs.Tree.{node_of, parts_of};
ghost use Rattle.goal_lists.specs.CandidateWords.{AddsCandidates};
ghost use Rattle.goal_lists.specs.Candidates.{object_bound, object_bounds};
ghost use Rattle.goal_lists.specs.CandidateTops.{clause_trait, clause_item};
ghost use Rattle.goal_lists.specs.Interned.{IsIn, AreIn, CandidateIn, erased_at, erased_all};

use crate::candidates::interned::{InternedCandidate, InternedPredicate, InternedTrait};
use crate::candidates::tops::{clause_item, clause_trait, is_object};
use goal_interner::term_nodes::{OutOfMemory, TermId};
use goal_interner::term_table::TermTable;
use goal_terms::heads::Node;
use goal_terms::ids::{ItemId, TraitId};
use goal_terms::terms::AliasTermKind;

/// A self type and then the first arguments of one of its clauses.
fn self_and_first(
    terms: &TermTable,
    self_ty: TermId,
    clause: TermId,
    count: usize,
) -> Result<Vec<TermId>, OutOfMemory>
    requires known { IsIn terms.now self_ty }
    requires clause { clause.0 < length terms.now }
    requires arguments { All IsArgument (parts_of (tree_at terms.now clause)) }
    requires count { count ≤ length (parts_of (tree_at terms.now clause)) }
    ensures within { IfOk result (λ ids. AreIn terms.now ids.items) }
    ensures trees { IfOk result (λ ids. erased_all terms.now ids.items ≡ erased_at terms.now self_ty ∷ map erased (take count (parts_of (tree_at terms.now clause)))) }
{
    let mut ids = Vec::new(terms.allocator());
    ids.push(self_ty)?;
    let parts = &terms.parts(clause)[..count];
    ids.extend_from_slice(parts)?;
    Ok(ids)
}

/// Adds what a clause of a trait says of its `dyn` type.
fn push_trait_clause<'t>(
    terms: &TermTable,
    found: &mut Vec<InternedCandidate<'t>>,
    self_ty: TermId,
    clause: TermId,
    top: (TraitId, usize),
) -> Result<(), OutOfMemory>
    requires known { IsIn terms.now self_ty }
    requires clause { clause.0 < length terms.now }
    requires top { clause_trait (node_of (tree_at terms.now clause)) ≡ Some top }
    requires fits { Fits (node_of (tree_at terms.now clause)) (parts_of (tree_at terms.now clause)) }
    requires within { All (CandidateIn terms.now) found.old.items }
    ensures within { IfOk result (λ _. All (CandidateIn terms.now) found.new.items) }
    ensures pushed { IfOk result (λ _. AddsCandidates terms.now terms.now found.old found.new (object_bound (erased_at terms.now self_ty) (erased_at terms.now clause))) }
{
    let (def_id, count) = top;
    let args = self_and_first(terms, self_ty, clause, count)?;
    let of = InternedTrait { def_id, args };
    found.push(InternedCandidate::Assumption(InternedPredicate::Trait(of)))?;
    Ok(())
}

/// Adds what a clause of an item says of its `dyn` type. The table gets the item's alias. Want of memory
/// or of numbers is the only refusal.
fn push_item_clause<'t>(
    terms: &mut TermTable,
    found: &mut Vec<InternedCandidate<'t>>,
    self_ty: TermId,
    clause: TermId,
    top: (ItemId, usize),
) -> Result<(), OutOfMemory>
    requires known { IsIn terms.old self_ty }
    requires clause { clause.0 < length terms.old }
    requires top { clause_item (node_of (tree_at terms.old clause)) ≡ Some top }
    requires fits { Fits (node_of (tree_at terms.old clause)) (parts_of (tree_at terms.old clause)) }
    requires within { All (CandidateIn terms.old) found.old.items }
    ensures kept { Keeps terms.old terms.new }
    ensures within { IfOk result (λ _. All (CandidateIn terms.new) found.new.items) }
    ensures pushed { IfOk result (λ _. AddsCandidates terms.old terms.new found.old found.new (object_bound (erased_at terms.old self_ty) (erased_at terms.old clause))) }
{
    let (item, count) = top;
    let term = terms.part(clause, count);
    let args = self_and_first(terms, self_ty, clause, count)?;
    let alias = terms.intern_node(Node::Alias(AliasTermKind::ProjectionTy(item)), args)?;
    found.push(InternedCandidate::Assumption(InternedPredicate::Projection(alias, term)))?;
    Ok(())
}

/// Adds what a clause of a `dyn` type says of that type. The table gets its terms. Want of memory or of
/// numbers is the only refusal.
fn push_object_bound<'t>(
    terms: &mut TermTable,
    found: &mut Vec<InternedCandidate<'t>>,
    self_ty: TermId,
    clause: TermId,
) -> Result<(), OutOfMemory>
    requires known { IsIn terms.old self_ty }
    requires clause { clause.0 < length terms.old }
    requires within { All (CandidateIn terms.old) found.old.items }
    ensures kept { Keeps terms.old terms.new }
    ensures within { IfOk result (λ _. All (CandidateIn terms.new) found.new.items) }
    ensures pushed { IfOk result (λ _. AddsCandidates terms.old terms.new found.old found.new (object_bound (erased_at terms.old self_ty) (erased_at terms.old clause))) }
{
    let node = terms.node(clause);
    if let Some(top) = clause_trait(node) {
        return push_trait_clause(terms, found, self_ty, clause, top);
    }
    if let Some(top) = clause_item(node) {
        return push_item_clause(terms, found, self_ty, clause, top);
    }
    Ok(())
}

/// Adds what the clauses of a `dyn` self type say. The table gets their terms. Want of memory or of
/// numbers is the only refusal.
pub fn push_object_bounds<'t>(
    terms: &mut TermTable,
    found: &mut Vec<InternedCandidate<'t>>,
    self_ty: TermId,
) -> Result<(), OutOfMemory>
    requires known { IsIn terms.old self_ty }
    requires within { All (CandidateIn terms.old) found.old.items }
    ensures kept { Keeps terms.old terms.new }
    ensures within { IfOk result (λ _. All (CandidateIn terms.new) found.new.items) }
    ensures pushed { IfOk result (λ _. AddsCandidates terms.old terms.new found.old found.new (object_bounds (erased_at terms.old self_ty))) }
{
    if !is_object(terms.node(self_ty)) {
        return Ok(());
    }
    let count = terms.parts(self_ty).len();
    for place in 0..count {
        let clause = terms.part(self_ty, place);
        push_object_bound(terms, found, self_ty, clause)?;
    }
    Ok(())
}
