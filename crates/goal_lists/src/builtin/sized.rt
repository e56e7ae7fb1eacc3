//! The rule of `Sized`.
ghost use Rattle.std.specs.Prelude.{◌≡◌, List, map, Some, IfOk, IfSome};
ghost use Rattle.std.specs.List.{All};
ghost use Rattle.std.specs.Option.{option_map};
ghost use Rattle.goal_tables.specs.Rows.{adt_of};
ghost use Rattle.goal_terms.specs.Erased.{erased_head};
ghost use Rattle.goal_terms.specs.Sorts.{IsArgument, HeadFits};
ghost use Rattle.goal_interner.specs.TableMeaning.{tree_at, Keeps};
ghost use Rattle.goal_terms.specs.Tree.{Tree, parts_of};
ghost use Rattle.goal_lists.specs.BuiltinWords.{parts_at, ArePremises, rule_at};
ghost use Rattle.goal_lists.specs.Builtins.{last_is, constraint_is, sized_of_head, sized_rule};
ghost use Rattle.goal_lists.specs.Candidates.{last_of};
ghost use Rattle.goal_lists.specs.Interned.{IsIn, AreIn, PremiseIn, erased_at, erased_all, premise_at};

use crate::builtin::constituents::each_is;
use crate::candidates::interned::InternedPremise;
use crate::candidates::row_terms::{allocator_of, arguments_of, last_part, option_under};
use goal_interner::term_nodes::{OutOfMemory, TermId};
use goal_interner::term_table::TermTable;
use goal_tables::lookup::IndexedTables;
use goal_tables::rows::AdtRow;
use goal_terms::heads::{Head, Node};
use goal_terms::ids::{AdtId, TraitId};
use std::alloc::Global;

/// That a type has a trait, if there is one. Want of memory is the only refusal.
fn last_is(
    alloc: Global,
    trait_id: TraitId,
    ty: Option<TermId>,
) -> Result<Vec<InternedPremise>, OutOfMemory>
    ensures within { (T : List Tree) → IfSome ty (IsIn T) → IfOk result (λ ps. All (PremiseIn T) ps.items) }
    ensures premises { (T : List Tree) → IfOk result (λ ps. map (premise_at T) ps.items ≡ last_is trait_id (option_map (erased_at T) ty)) }
{
    match ty {
        None => Ok(Vec::new(alloc)),
        Some(ty) => each_is(alloc, trait_id, &[ty]),
    }
}

/// What an ADT's `Sized` constraint asks. The table gets its term. Want of memory or of numbers is the
/// only refusal.
fn constraint_is(
    alloc: Global,
    terms: &mut TermTable,
    trait_id: TraitId,
    row: &AdtRow,
    args: &[TermId],
) -> Result<Vec<InternedPremise>, OutOfMemory>
    requires { AreIn terms.old args.now }
    ensures kept { Keeps terms.old terms.new }
    ensures within { IfOk result (λ ps. All (PremiseIn terms.new) ps.items) }
    ensures premises { IfOk result (ArePremises terms.new (constraint_is trait_id (erased_all terms.old args.now) row.now)) }
{
    let ty = option_under(terms, &row.sized_constraint, args)?;
    last_is(alloc, trait_id, ty)
}

/// The rule for an ADT.
fn sized_adt(
    rows: &IndexedTables,
    terms: &mut TermTable,
    trait_id: TraitId,
    adt: AdtId,
    self_ty: TermId,
) -> Result<Option<Vec<InternedPremise>>, OutOfMemory>
    requires within { IsIn terms.old self_ty }
    requires arguments { All IsArgument (parts_of (tree_at terms.old self_ty)) }
    ensures kept { Keeps terms.old terms.new }
    ensures within { IfOk result (λ o. IfSome o (λ ps. All (PremiseIn terms.new) ps.items)) }
    ensures premises { IfOk result (λ o. rule_at terms.new o ≡ option_map (constraint_is trait_id (parts_at terms.old self_ty)) (adt_of rows.now adt)) }
{
    let alloc = allocator_of(rows);
    let Some(row) = rows.adt_row(adt) else {
        return Ok(None);
    };
    let args = arguments_of(alloc, terms, self_ty)?;
    let premises = constraint_is(alloc, terms, trait_id, row, args.as_slice())?;
    Ok(Some(premises))
}

/// The rule for a tuple.
fn sized_tuple(
    alloc: Global,
    terms: &TermTable,
    trait_id: TraitId,
    self_ty: TermId,
) -> Result<Option<Vec<InternedPremise>>, OutOfMemory>
    requires within { IsIn terms.now self_ty }
    requires arguments { All IsArgument (parts_of (tree_at terms.now self_ty)) }
    ensures within { IfOk result (λ o. IfSome o (λ ps. All (PremiseIn terms.now) ps.items)) }
    ensures premises { IfOk result (λ o. rule_at terms.now o ≡ Some (last_is trait_id (last_of (parts_at terms.now self_ty)))) }
{
    let ty = last_part(terms, self_ty);
    let premises = last_is(alloc, trait_id, ty)?;
    Ok(Some(premises))
}

#[tactic(auto, unfolding(crate::specs::Builtins::sized_of_head))]
/// The rule for a constructor.
fn sized_of_head(
    rows: &IndexedTables,
    terms: &mut TermTable,
    trait_id: TraitId,
    head: Head,
    self_ty: TermId,
) -> Result<Option<Vec<InternedPremise>>, OutOfMemory>
    requires within { IsIn terms.old self_ty }
    requires fits { HeadFits head (parts_of (tree_at terms.old self_ty)) }
    ensures kept { Keeps terms.old terms.new }
    ensures within { IfOk result (λ o. IfSome o (λ ps. All (PremiseIn terms.new) ps.items)) }
    ensures premises { IfOk result (λ o. rule_at terms.new o ≡ sized_of_head rows.now trait_id (erased_head head) (parts_at terms.old self_ty)) }
{
    match head {
        Head::Str
        | Head::Slice
        | Head::Dynamic(_, _)
        | Head::Foreign(_)
        | Head::TyParam(_)
        | Head::TyPlaceholder(_) => Ok(None),
        Head::Tuple(_) => sized_tuple(allocator_of(rows), terms, trait_id, self_ty),
        Head::Adt(adt, _) => sized_adt(rows, terms, trait_id, adt, self_ty),
        _ => Ok(Some(Vec::new(allocator_of(rows)))),
    }
}

/// What `Sized` asks of a type: of a tuple's last element, and of an ADT's constraint; many types have it
/// always or never. The table gets the terms. Want of memory or of numbers is the only refusal.
pub(crate) fn sized_rule(
    rows: &IndexedTables,
    terms: &mut TermTable,
    trait_id: TraitId,
    self_ty: TermId,
) -> Result<Option<Vec<InternedPremise>>, OutOfMemory>
    requires { IsIn terms.old self_ty }
    ensures kept { Keeps terms.old terms.new }
    ensures within { IfOk result (λ o. IfSome o (λ ps. All (PremiseIn terms.new) ps.items)) }
    ensures premises { IfOk result (λ o. rule_at terms.new o ≡ sized_rule rows.now trait_id (erased_at terms.old self_ty)) }
{
    match terms.node(self_ty) {
        Node::Head(head) => sized_of_head(rows, terms, trait_id, head, self_ty),
        Node::Alias(_) => Ok(None),
        Node::Variable(_) => Ok(Some(Vec::new(allocator_of(rows)))),
    }
}
