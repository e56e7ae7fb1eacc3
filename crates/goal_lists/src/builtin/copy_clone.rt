//! The rules of `Copy` and `Clone`.
ghost use Rattle.std.specs.Prelude.{◌≡◌, IfOk, IfSome};
ghost use Rattle.std.specs.List.{All};
ghost use Rattle.std.specs.Option.{option_map};
ghost use Rattle.goal_tables.specs.Rows.{closure_of};
ghost use Rattle.goal_terms.specs.Erased.{erased_head};
ghost use Rattle.goal_terms.specs.Sorts.{IsArgument, HeadFits};
ghost use Rattle.goal_interner.specs.TableMeaning.{tree_at, Keeps};
ghost use Rattle.goal_terms.specs.Tree.{parts_of};
ghost use Rattle.goal_lists.specs.BuiltinWords.{parts_at, rule_at, types_at, GivesConstRule};
ghost use Rattle.goal_lists.specs.Builtins.{each_is, upvars_of, copied_parts_of_head, copied_parts};
ghost use Rattle.goal_lists.specs.ConstRules.{each_const};
ghost use Rattle.goal_lists.specs.Interned.{IsIn, AreIn, PremiseIn, ConstRuleIn, erased_at};

use crate::builtin::constituents::{each_const, each_is};
use crate::candidates::interned::{InternedConstRule, InternedPremise};
use crate::candidates::row_terms::{allocator_of, arguments_of, types_under};
use goal_interner::term_nodes::{OutOfMemory, TermId};
use goal_interner::term_table::TermTable;
use goal_tables::lookup::IndexedTables;
use goal_terms::heads::{Head, Node};
use goal_terms::ids::{ClosureId, TraitId};

/// The types of a closure's captured variables. The table gets them. Want of memory or of numbers is the
/// only refusal.
pub(crate) fn upvars_of(
    rows: &IndexedTables,
    terms: &mut TermTable,
    closure: ClosureId,
    self_ty: TermId,
) -> Result<Option<Vec<TermId>>, OutOfMemory>
    requires within { IsIn terms.old self_ty }
    requires arguments { All IsArgument (parts_of (tree_at terms.old self_ty)) }
    ensures kept { Keeps terms.old terms.new }
    ensures within { IfOk result (λ o. IfSome o (λ ids. AreIn terms.new ids.items)) }
    ensures types { IfOk result (λ o. types_at terms.new o ≡ option_map (upvars_of (parts_at terms.old self_ty)) (closure_of rows.now closure)) }
{
    let alloc = allocator_of(rows);
    let Some(row) = rows.closure_row(closure) else {
        return Ok(None);
    };
    let args = arguments_of(alloc, terms, self_ty)?;
    let tys = types_under(alloc, terms, row.upvars.as_slice(), args.as_slice())?;
    Ok(Some(tys))
}

#[tactic(auto, unfolding(crate::specs::Builtins::copied_parts_of_head))]
/// The types that must be `Copy` or `Clone` with a type of a constructor.
fn copied_parts_of_head(
    rows: &IndexedTables,
    terms: &mut TermTable,
    head: Head,
    self_ty: TermId,
) -> Result<Option<Vec<TermId>>, OutOfMemory>
    requires within { IsIn terms.old self_ty }
    requires fits { HeadFits head (parts_of (tree_at terms.old self_ty)) }
    ensures kept { Keeps terms.old terms.new }
    ensures within { IfOk result (λ o. IfSome o (λ ids. AreIn terms.new ids.items)) }
    ensures types { IfOk result (λ o. types_at terms.new o ≡ copied_parts_of_head rows.now (erased_head head) (parts_at terms.old self_ty)) }
{
    let alloc = allocator_of(rows);
    match head {
        Head::FnDef(_, _) | Head::FnPtr { .. } | Head::TyError(_) => Ok(Some(Vec::new(alloc))),
        Head::Tuple(_) => {
            let elements = arguments_of(alloc, terms, self_ty)?;
            Ok(Some(elements))
        }
        Head::Closure(closure, _) => upvars_of(rows, terms, closure, self_ty),
        _ => Ok(None),
    }
}

/// The types that must be `Copy` or `Clone` with a type; nothing where only impls say that it is so. The
/// table gets them. Want of memory or of numbers is the only refusal.
pub(crate) fn copied_parts(
    rows: &IndexedTables,
    terms: &mut TermTable,
    self_ty: TermId,
) -> Result<Option<Vec<TermId>>, OutOfMemory>
    requires { IsIn terms.old self_ty }
    ensures kept { Keeps terms.old terms.new }
    ensures within { IfOk result (λ o. IfSome o (λ ids. AreIn terms.new ids.items)) }
    ensures types { IfOk result (λ o. types_at terms.new o ≡ copied_parts rows.now (erased_at terms.old self_ty)) }
{
    match terms.node(self_ty) {
        Node::Head(head) => copied_parts_of_head(rows, terms, head, self_ty),
        Node::Alias(_) => Ok(None),
        Node::Variable(_) => Ok(None),
    }
}

/// What `Copy` or `Clone` asks of a type: that each of its parts has that trait. The table gets the terms.
/// Want of memory or of numbers is the only refusal.
pub(crate) fn copy_rule(
    rows: &IndexedTables,
    terms: &mut TermTable,
    trait_id: TraitId,
    self_ty: TermId,
) -> Result<Option<Vec<InternedPremise>>, OutOfMemory>
    requires { IsIn terms.old self_ty }
    ensures kept { Keeps terms.old terms.new }
    ensures within { IfOk result (λ o. IfSome o (λ ps. All (PremiseIn terms.new) ps.items)) }
    ensures premises { IfOk result (λ o. rule_at terms.new o ≡ option_map (each_is trait_id) (copied_parts rows.now (erased_at terms.old self_ty))) }
{
    let Some(tys) = copied_parts(rows, terms, self_ty)? else {
        return Ok(None);
    };
    let premises = each_is(allocator_of(rows), trait_id, tys.as_slice())?;
    Ok(Some(premises))
}

/// What `Copy` or `Clone` asks of a type as a const trait: that each of its parts has that const trait. The
/// table gets the terms. Want of memory or of numbers is the only refusal.
pub(crate) fn const_copy_rule(
    rows: &IndexedTables,
    terms: &mut TermTable,
    trait_id: TraitId,
    self_ty: TermId,
) -> Result<Option<InternedConstRule>, OutOfMemory>
    requires { IsIn terms.old self_ty }
    ensures kept { Keeps terms.old terms.new }
    ensures within { IfOk result (λ o. IfSome o (ConstRuleIn terms.new)) }
    ensures rule { GivesConstRule terms.new result (option_map (each_const trait_id) (copied_parts rows.now (erased_at terms.old self_ty))) }
{
    let Some(tys) = copied_parts(rows, terms, self_ty)? else {
        return Ok(None);
    };
    let rule = each_const(allocator_of(rows), trait_id, tys.as_slice())?;
    Ok(Some(rule))
}
