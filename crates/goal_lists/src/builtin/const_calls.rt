//! The rules of `Fn`, `FnMut` and `FnOnce` as const traits.
ghost use Rattle.std.specs.Prelude.{◌≡◌, true, map, IfOk, IfSome};
ghost use Rattle.std.specs.List.{All};
ghost use Rattle.goal_terms.specs.Erased.{erased_head};
ghost use Rattle.goal_terms.specs.Sorts.{IsArgument, HeadFits};
ghost use Rattle.goal_interner.specs.TableMeaning.{tree_at, Keeps};
ghost use Rattle.goal_terms.specs.Tree.{parts_of};
ghost use Rattle.goal_lists.specs.BuiltinWords.{parts_at, GivesConstRule, const_function_rule, const_closure_rule};
ghost use Rattle.goal_lists.specs.Builtins.{is_fn_ptr};
ghost use Rattle.goal_lists.specs.ConstRules.{const_call, const_function, const_closure, const_call_of_head, const_call_rule};
ghost use Rattle.goal_lists.specs.Interned.{IsIn, AreIn, TraitIn, ConstRuleIn, erased_at, erased_all, trait_at};

use crate::builtin::call_premises::{call_premises, output_of};
use crate::builtin::calls::{closure_sig, function_sig};
use crate::candidates::interned::{InternedConstRule, InternedTrait};
use crate::candidates::premises::traits_under;
use crate::candidates::row_terms::{allocator_of, arguments_of};
use goal_interner::term_nodes::{OutOfMemory, TermId};
use goal_interner::term_table::TermTable;
use goal_tables::lookup::IndexedTables;
use goal_tables::rows::{ClosureRow, FnRow};
use goal_terms::heads::{Head, Node};
use goal_terms::ids::{ClosureId, FnId};
use goal_terms::lang::LangItem;

/// What a call by a signature asks whose const conditions are these. The table gets the terms. Want of
/// memory or of numbers is the only refusal.
fn const_call(
    rows: &IndexedTables,
    terms: &mut TermTable,
    args: &[TermId],
    conditions: Vec<InternedTrait>,
    sig: TermId,
) -> Result<Option<InternedConstRule>, OutOfMemory>
    requires args { AreIn terms.old args.now }
    requires conditions { All (TraitIn terms.old) conditions.items }
    requires signature { IsIn terms.old sig }
    requires pointer { is_fn_ptr (erased_at terms.old sig) ≡ true }
    ensures kept { Keeps terms.old terms.new }
    ensures within { IfOk result (λ o. IfSome o (ConstRuleIn terms.new)) }
    ensures rule { GivesConstRule terms.new result (const_call rows.now (erased_all terms.old args.now) (map (trait_at terms.old) conditions.items) (erased_at terms.old sig)) }
{
    let Some(output) = output_of(terms, sig) else {
        return Ok(None);
    };
    let Some(sized) = rows.lang_trait(LangItem::Sized) else {
        return Ok(None);
    };
    let premises = call_premises(allocator_of(rows), terms, sized, sig, args, output)?;
    Ok(Some(InternedConstRule {
        premises,
        conditions,
    }))
}

/// What a call of a function item asks, whose own arguments are given. The table gets the terms. Want of
/// memory or of numbers is the only refusal.
fn const_function(
    rows: &IndexedTables,
    terms: &mut TermTable,
    row: &FnRow,
    own: &[TermId],
    args: &[TermId],
) -> Result<Option<InternedConstRule>, OutOfMemory>
    requires own { AreIn terms.old own.now }
    requires args { AreIn terms.old args.now }
    ensures kept { Keeps terms.old terms.new }
    ensures within { IfOk result (λ o. IfSome o (ConstRuleIn terms.new)) }
    ensures rule { GivesConstRule terms.new result (const_function rows.now (erased_all terms.old own.now) (erased_all terms.old args.now) row.now) }
{
    if !row.is_const {
        return Ok(None);
    }
    let Some(sig) = function_sig(terms, row, own)? else {
        return Ok(None);
    };
    let conditions = traits_under(terms, row.const_conditions.as_slice(), own)?;
    const_call(rows, terms, args, conditions, sig)
}

/// What a call of a closure asks, whose own arguments are given. The table gets the terms. Want of memory
/// or of numbers is the only refusal.
fn const_closure(
    rows: &IndexedTables,
    terms: &mut TermTable,
    by: LangItem,
    row: &ClosureRow,
    own: &[TermId],
    args: &[TermId],
) -> Result<Option<InternedConstRule>, OutOfMemory>
    requires own { AreIn terms.old own.now }
    requires args { AreIn terms.old args.now }
    ensures kept { Keeps terms.old terms.new }
    ensures within { IfOk result (λ o. IfSome o (ConstRuleIn terms.new)) }
    ensures rule { GivesConstRule terms.new result (const_closure rows.now by (erased_all terms.old own.now) (erased_all terms.old args.now) row.now) }
{
    if !row.is_const {
        return Ok(None);
    }
    let Some(sig) = closure_sig(terms, by, row, own)? else {
        return Ok(None);
    };
    let conditions = traits_under(terms, row.const_conditions.as_slice(), own)?;
    const_call(rows, terms, args, conditions, sig)
}

/// The rule for a function item.
fn const_call_of_function(
    rows: &IndexedTables,
    terms: &mut TermTable,
    function: FnId,
    self_ty: TermId,
    args: &[TermId],
) -> Result<Option<InternedConstRule>, OutOfMemory>
    requires within { IsIn terms.old self_ty }
    requires arguments { All IsArgument (parts_of (tree_at terms.old self_ty)) }
    requires args { AreIn terms.old args.now }
    ensures kept { Keeps terms.old terms.new }
    ensures within { IfOk result (λ o. IfSome o (ConstRuleIn terms.new)) }
    ensures rule { GivesConstRule terms.new result (const_function_rule rows.now function (parts_at terms.old self_ty) (erased_all terms.old args.now)) }
{
    let Some(row) = rows.function_row(function) else {
        return Ok(None);
    };
    let own = arguments_of(allocator_of(rows), terms, self_ty)?;
    const_function(rows, terms, row, own.as_slice(), args)
}

/// The rule for a closure.
fn const_call_of_closure(
    rows: &IndexedTables,
    terms: &mut TermTable,
    by: LangItem,
    closure: ClosureId,
    self_ty: TermId,
    args: &[TermId],
) -> Result<Option<InternedConstRule>, OutOfMemory>
    requires within { IsIn terms.old self_ty }
    requires arguments { All IsArgument (parts_of (tree_at terms.old self_ty)) }
    requires args { AreIn terms.old args.now }
    ensures kept { Keeps terms.old terms.new }
    ensures within { IfOk result (λ o. IfSome o (ConstRuleIn terms.new)) }
    ensures rule { GivesConstRule terms.new result (const_closure_rule rows.now by closure (parts_at terms.old self_ty) (erased_all terms.old args.now)) }
{
    let Some(row) = rows.closure_row(closure) else {
        return Ok(None);
    };
    let own = arguments_of(allocator_of(rows), terms, self_ty)?;
    const_closure(rows, terms, by, row, own.as_slice(), args)
}

#[tactic(auto, unfolding(crate::specs::ConstRules::const_call_of_head))]
/// The rule for a constructor.
fn const_call_of_head(
    rows: &IndexedTables,
    terms: &mut TermTable,
    by: LangItem,
    head: Head,
    self_ty: TermId,
    args: &[TermId],
) -> Result<Option<InternedConstRule>, OutOfMemory>
    requires within { IsIn terms.old self_ty }
    requires fits { HeadFits head (parts_of (tree_at terms.old self_ty)) }
    requires args { AreIn terms.old args.now }
    ensures kept { Keeps terms.old terms.new }
    ensures within { IfOk result (λ o. IfSome o (ConstRuleIn terms.new)) }
    ensures rule { GivesConstRule terms.new result (const_call_of_head rows.now by (erased_head head) (parts_at terms.old self_ty) (erased_all terms.old args.now)) }
{
    match head {
        Head::FnDef(function, _) => const_call_of_function(rows, terms, function, self_ty, args),
        Head::Closure(closure, _) => {
            const_call_of_closure(rows, terms, by, closure, self_ty, args)
        }
        _ => Ok(None),
    }
}

/// What `Fn`, `FnMut` and `FnOnce` ask of a type as const traits; nothing where it can't be called so, as
/// pointers to functions. The table gets the terms. Want of memory or of numbers is the only refusal.
pub(crate) fn const_call_rule(
    rows: &IndexedTables,
    terms: &mut TermTable,
    by: LangItem,
    self_ty: TermId,
    args: &[TermId],
) -> Result<Option<InternedConstRule>, OutOfMemory>
    requires within { IsIn terms.old self_ty }
    requires args { AreIn terms.old args.now }
    ensures kept { Keeps terms.old terms.new }
    ensures within { IfOk result (λ o. IfSome o (ConstRuleIn terms.new)) }
    ensures rule { GivesConstRule terms.new result (const_call_rule rows.now by (erased_at terms.old self_ty) (erased_all terms.old args.now)) }
{
    match terms.node(self_ty) {
        Node::Head(head) => const_call_of_head(rows, terms, by, head, self_ty, args),
        Node::Alias(_) => Ok(None),
        Node::Variable(_) => Ok(None),
    }
}
