//! The bounds of a self type that is a rigid projection or opaque type, as candidates.
ghost use Rattle.std.specs.Prelude.{◌≡◌, ◌++◌, [], ◌∷◌, map, IfOk};
ghost use Rattle.std.specs.List.{All};
ghost use Rattle.goal_terms.specs.Erased.{erased};
ghost use Rattle.goal_terms.specs.Sorts.{IsArgument};
ghost use Rattle.goal_interner.specs.TableMeaning.{Keeps, tree_at};
ghost use Rattle.goal_terms.specs.Tree.{parts_of};
ghost use Rattle.goal_tables.specs.Rows.{item_of, opaque_of};
ghost use Rattle.goal_lists.specs.CandidateWords.{AddsCandidates, row_bounds};
ghost use Rattle.goal_lists.specs.Candidates.{bounds_under, const_bounds_under, item_bounds, opaque_bounds, bounds_of};
ghost use Rattle.goal_lists.specs.Interned.{IsIn, AreIn, CandidateIn, erased_at, erased_all};

use crate::candidates::interned::InternedCandidate;
use crate::candidates::premises::{predicate_under, trait_under, traits_under};
use crate::candidates::tops::{opaque_number, projected_item};
use goal_interner::term_nodes::{OutOfMemory, TermId};
use goal_interner::term_table::TermTable;
use goal_tables::lookup::IndexedTables;
use goal_tables::rows::ConstBounds;
use goal_terms::ids::{ItemId, OpaqueId};
use goal_terms::predicates::Clause;

/// Adds a row's clauses under arguments. The table gets their terms. Want of memory or of numbers is the
/// only refusal.
fn push_bounds<'t>(
    terms: &mut TermTable,
    found: &mut Vec<InternedCandidate<'t>>,
    bounds: &[Clause],
    args: &[TermId],
) -> Result<(), OutOfMemory>
    requires known { AreIn terms.old args.now }
    requires within { All (CandidateIn terms.old) found.old.items }
    ensures kept { Keeps terms.old terms.new }
    ensures within { IfOk result (λ _. All (CandidateIn terms.new) found.new.items) }
    ensures pushed { IfOk result (λ _. AddsCandidates terms.old terms.new found.old found.new (bounds_under (erased_all terms.old args.now) bounds.now)) }
{
    for i in 0..bounds.len() {
        let predicate = predicate_under(terms, &bounds[i].kind, args)?;
        found.push(InternedCandidate::Assumption(predicate))?;
    }
    Ok(())
}

/// Adds the const bounds of a row under arguments. The table gets their terms. Want of memory or of
/// numbers is the only refusal.
fn push_const_bounds<'t>(
    terms: &mut TermTable,
    found: &mut Vec<InternedCandidate<'t>>,
    bounds: &ConstBounds,
    args: &[TermId],
) -> Result<(), OutOfMemory>
    requires known { AreIn terms.old args.now }
    requires within { All (CandidateIn terms.old) found.old.items }
    ensures kept { Keeps terms.old terms.new }
    ensures within { IfOk result (λ _. All (CandidateIn terms.new) found.new.items) }
    ensures pushed { IfOk result (λ _. AddsCandidates terms.old terms.new found.old found.new (const_bounds_under (erased_all terms.old args.now) (Some bounds.now))) }
{
    let implied = bounds.implied.as_slice();
    let conditions = bounds.conditions.as_slice();
    for i in 0..implied.len() {
        let bound = trait_under(terms, &implied[i], args)?;
        let under = traits_under(terms, conditions, args)?;
        found.push(InternedCandidate::ImpliedBound(bound, under))?;
    }
    Ok(())
}

/// Adds the bounds and the const bounds of a row under arguments. The table gets their terms. Want of
/// memory or of numbers is the only refusal.
fn push_row_bounds<'t>(
    terms: &mut TermTable,
    found: &mut Vec<InternedCandidate<'t>>,
    bounds: &[Clause],
    const_bounds: &Option<ConstBounds>,
    args: &[TermId],
) -> Result<(), OutOfMemory>
    requires known { AreIn terms.old args.now }
    requires within { All (CandidateIn terms.old) found.old.items }
    ensures kept { Keeps terms.old terms.new }
    ensures within { IfOk result (λ _. All (CandidateIn terms.new) found.new.items) }
    ensures pushed { IfOk result (λ _. AddsCandidates terms.old terms.new found.old found.new (row_bounds (erased_all terms.old args.now) bounds.now const_bounds.now)) }
{
    push_bounds(terms, found, bounds, args)?;
    match const_bounds {
        None => Ok(()),
        Some(const_bounds) => push_const_bounds(terms, found, const_bounds, args),
    }
}

/// Adds the bounds that an item's row declares for its alias, which is the last argument. The table gets
/// their terms. Want of memory or of numbers is the only refusal.
fn push_item_bounds<'t>(
    rows: &IndexedTables,
    terms: &mut TermTable,
    found: &mut Vec<InternedCandidate<'t>>,
    item: ItemId,
    args: &[TermId],
) -> Result<(), OutOfMemory>
    requires known { AreIn terms.old args.now }
    requires within { All (CandidateIn terms.old) found.old.items }
    ensures kept { Keeps terms.old terms.new }
    ensures within { IfOk result (λ _. All (CandidateIn terms.new) found.new.items) }
    ensures pushed { IfOk result (λ _. AddsCandidates terms.old terms.new found.old found.new (item_bounds (erased_all terms.old args.now) (item_of rows.now item))) }
{
    match rows.item_row(item) {
        None => Ok(()),
        Some(row) => {
            push_row_bounds(terms, found, row.bounds.as_slice(), &row.const_bounds, args)
        }
    }
}

/// Adds the bounds that an opaque type's row declares for it, which is the last argument. The table gets
/// their terms. Want of memory or of numbers is the only refusal.
fn push_opaque_bounds<'t>(
    rows: &IndexedTables,
    terms: &mut TermTable,
    found: &mut Vec<InternedCandidate<'t>>,
    opaque: OpaqueId,
    args: &[TermId],
) -> Result<(), OutOfMemory>
    requires known { AreIn terms.old args.now }
    requires within { All (CandidateIn terms.old) found.old.items }
    ensures kept { Keeps terms.old terms.new }
    ensures within { IfOk result (λ _. All (CandidateIn terms.new) found.new.items) }
    ensures pushed { IfOk result (λ _. AddsCandidates terms.old terms.new found.old found.new (opaque_bounds (erased_all terms.old args.now) (opaque_of rows.now opaque))) }
{
    match rows.opaque_row(opaque) {
        None => Ok(()),
        Some(row) => {
            push_row_bounds(terms, found, row.bounds.as_slice(), &row.const_bounds, args)
        }
    }
}

/// The arguments of an alias and then the alias itself.
fn args_and_self(terms: &TermTable, alias: TermId) -> Result<Vec<TermId>, OutOfMemory>
    requires alias { IsIn terms.now alias }
    requires arguments { All IsArgument (parts_of (tree_at terms.now alias)) }
    ensures within { IfOk result (λ ids. AreIn terms.now ids.items) }
    ensures trees { IfOk result (λ ids. erased_all terms.now ids.items ≡ map erased (parts_of (tree_at terms.now alias)) ++ erased_at terms.now alias ∷ []) }
{
    let mut ids = Vec::new(terms.allocator());
    ids.extend_from_slice(terms.parts(alias))?;
    ids.push(alias)?;
    Ok(ids)
}

/// Adds the bounds of a self type that is a rigid projection or opaque type. The table gets their terms.
/// Want of memory or of numbers is the only refusal.
pub fn push_alias_bounds<'t>(
    rows: &IndexedTables,
    terms: &mut TermTable,
    found: &mut Vec<InternedCandidate<'t>>,
    self_ty: TermId,
) -> Result<(), OutOfMemory>
    requires known { IsIn terms.old self_ty }
    requires within { All (CandidateIn terms.old) found.old.items }
    ensures kept { Keeps terms.old terms.new }
    ensures within { IfOk result (λ _. All (CandidateIn terms.new) found.new.items) }
    ensures pushed { IfOk result (λ _. AddsCandidates terms.old terms.new found.old found.new (bounds_of rows.now (erased_at terms.old self_ty))) }
{
    let node = terms.node(self_ty);
    if let Some(item) = projected_item(node) {
        let args = args_and_self(terms, self_ty)?;
        return push_item_bounds(rows, terms, found, item, args.as_slice());
    }
    if let Some(opaque) = opaque_number(node) {
        let args = args_and_self(terms, self_ty)?;
        return push_opaque_bounds(rows, terms, found, opaque, args.as_slice());
    }
    Ok(())
}
