//! The rule of `Destruct`, as a const trait.
ghost use Rattle.std.specs.Prelude.{◌≡◌, List, [], Some, IfOk, IfSome};
ghost use Rattle.std.specs.List.{All};
ghost use Rattle.std.specs.Option.{option_map};
ghost use Rattle.goal_tables.specs.Rows.{adt_of, closure_of};
ghost use Rattle.goal_terms.specs.Erased.{erased_head};
ghost use Rattle.goal_terms.specs.Sorts.{IsArgument, HeadFits};
ghost use Rattle.goal_interner.specs.TableMeaning.{tree_at, Keeps};
ghost use Rattle.goal_terms.specs.Tree.{Tree, parts_of};
ghost use Rattle.goal_lists.specs.BuiltinWords.{parts_at, GivesConstRule, destruct_row};
ghost use Rattle.goal_lists.specs.Builtins.{upvars_of};
ghost use Rattle.goal_lists.specs.ConstRules.{each_const, first_part, destruct_of_head, destruct_rule};
ghost use Rattle.goal_lists.specs.Interned.{IsIn, ConstRuleIn, erased_at, const_rule_at};

use crate::builtin::constituents::each_const;
use crate::builtin::copy_clone::upvars_of;
use crate::candidates::interned::InternedConstRule;
use crate::candidates::premises::traits_under;
use crate::candidates::row_terms::{allocator_of, arguments_of};
use goal_interner::term_nodes::{OutOfMemory, TermId};
use goal_interner::term_table::TermTable;
use goal_tables::lookup::IndexedTables;
use goal_terms::heads::{Head, Node};
use goal_terms::ids::{AdtId, ClosureId, TraitId};
use std::alloc::Global;

/// The rule for a type that holds all its parts.
fn destruct_parts(
    alloc: Global,
    terms: &TermTable,
    trait_id: TraitId,
    self_ty: TermId,
) -> Result<Option<InternedConstRule>, OutOfMemory>
    requires within { IsIn terms.now self_ty }
    requires arguments { All IsArgument (parts_of (tree_at terms.now self_ty)) }
    ensures within { IfOk result (λ o. IfSome o (ConstRuleIn terms.now)) }
    ensures rule { GivesConstRule terms.now result (Some (each_const trait_id (parts_at terms.now self_ty))) }
{
    let parts = arguments_of(alloc, terms, self_ty)?;
    let rule = each_const(alloc, trait_id, parts.as_slice())?;
    Ok(Some(rule))
}

/// The rule for a type that holds its first part.
fn destruct_first(
    alloc: Global,
    terms: &TermTable,
    trait_id: TraitId,
    self_ty: TermId,
) -> Result<Option<InternedConstRule>, OutOfMemory>
    requires within { IsIn terms.now self_ty }
    requires arguments { All IsArgument (parts_of (tree_at terms.now self_ty)) }
    ensures within { IfOk result (λ o. IfSome o (ConstRuleIn terms.now)) }
    ensures rule { GivesConstRule terms.now result (Some (each_const trait_id (first_part (parts_at terms.now self_ty)))) }
{
    let mut parts = arguments_of(alloc, terms, self_ty)?;
    parts.truncate(1);
    let rule = each_const(alloc, trait_id, parts.as_slice())?;
    Ok(Some(rule))
}

/// The rule for a closure, which holds its captured variables.
fn destruct_closure(
    rows: &IndexedTables,
    terms: &mut TermTable,
    trait_id: TraitId,
    closure: ClosureId,
    self_ty: TermId,
) -> Result<Option<InternedConstRule>, OutOfMemory>
    requires within { IsIn terms.old self_ty }
    requires arguments { All IsArgument (parts_of (tree_at terms.old self_ty)) }
    ensures kept { Keeps terms.old terms.new }
    ensures within { IfOk result (λ o. IfSome o (ConstRuleIn terms.new)) }
    ensures rule { GivesConstRule terms.new result (option_map (λ r. each_const trait_id (upvars_of (parts_at terms.old self_ty) r)) (closure_of rows.now closure)) }
{
    let Some(tys) = upvars_of(rows, terms, closure, self_ty)? else {
        return Ok(None);
    };
    let rule = each_const(allocator_of(rows), trait_id, tys.as_slice())?;
    Ok(Some(rule))
}

/// The rule for an ADT, whose row has its conditions.
fn destruct_adt(
    rows: &IndexedTables,
    terms: &mut TermTable,
    adt: AdtId,
    self_ty: TermId,
) -> Result<Option<InternedConstRule>, OutOfMemory>
    requires within { IsIn terms.old self_ty }
    requires arguments { All IsArgument (parts_of (tree_at terms.old self_ty)) }
    ensures kept { Keeps terms.old terms.new }
    ensures within { IfOk result (λ o. IfSome o (ConstRuleIn terms.new)) }
    ensures rule { GivesConstRule terms.new result (option_map (destruct_row (parts_at terms.old self_ty)) (adt_of rows.now adt)) }
{
    let alloc = allocator_of(rows);
    let Some(row) = rows.adt_row(adt) else {
        return Ok(None);
    };
    let args = arguments_of(alloc, terms, self_ty)?;
    let conditions = traits_under(terms, row.destruct_conditions.as_slice(), args.as_slice())?;
    Ok(Some(InternedConstRule {
        premises: Vec::new(alloc),
        conditions,
    }))
}

/// The rule for a type that holds nothing.
fn destruct_nothing(
    alloc: Global,
    trait_id: TraitId,
) -> Result<Option<InternedConstRule>, OutOfMemory>
    ensures within { (T : List Tree) → IfOk result (λ o. IfSome o (ConstRuleIn T)) }
    ensures rule { (T : List Tree) → IfOk result (λ o. option_map (const_rule_at T) o ≡ Some (each_const trait_id [])) }
{
    let rule = each_const(alloc, trait_id, &[])?;
    Ok(Some(rule))
}

#[tactic(auto, unfolding(crate::specs::ConstRules::destruct_of_head))]
/// The rule for a constructor.
fn destruct_of_head(
    rows: &IndexedTables,
    terms: &mut TermTable,
    trait_id: TraitId,
    head: Head,
    self_ty: TermId,
) -> Result<Option<InternedConstRule>, OutOfMemory>
    requires within { IsIn terms.old self_ty }
    requires fits { HeadFits head (parts_of (tree_at terms.old self_ty)) }
    ensures kept { Keeps terms.old terms.new }
    ensures within { IfOk result (λ o. IfSome o (ConstRuleIn terms.new)) }
    ensures rule { GivesConstRule terms.new result (destruct_of_head rows.now trait_id (erased_head head) (parts_at terms.old self_ty)) }
{
    let alloc = allocator_of(rows);
    match head {
        Head::Dynamic(_, _) | Head::Foreign(_) | Head::TyParam(_) | Head::TyPlaceholder(_) => {
            Ok(None)
        }
        Head::Tuple(_) => destruct_parts(alloc, terms, trait_id, self_ty),
        Head::Array => destruct_first(alloc, terms, trait_id, self_ty),
        Head::Slice => destruct_first(alloc, terms, trait_id, self_ty),
        Head::Closure(closure, _) => destruct_closure(rows, terms, trait_id, closure, self_ty),
        Head::Adt(adt, _) => destruct_adt(rows, terms, adt, self_ty),
        _ => destruct_nothing(alloc, trait_id),
    }
}

/// What `Destruct` asks of a type as a const trait: the same of all that the type holds. The table gets the
/// terms. Want of memory or of numbers is the only refusal.
pub(crate) fn destruct_rule(
    rows: &IndexedTables,
    terms: &mut TermTable,
    trait_id: TraitId,
    self_ty: TermId,
) -> Result<Option<InternedConstRule>, OutOfMemory>
    requires { IsIn terms.old self_ty }
    ensures kept { Keeps terms.old terms.new }
    ensures within { IfOk result (λ o. IfSome o (ConstRuleIn terms.new)) }
    ensures rule { GivesConstRule terms.new result (destruct_rule rows.now trait_id (erased_at terms.old self_ty)) }
{
    match terms.node(self_ty) {
        Node::Head(head) => destruct_of_head(rows, terms, trait_id, head, self_ty),
        Node::Alias(_) => Ok(None),
        Node::Variable(_) => destruct_nothing(allocator_of(rows), trait_id),
    }
}
