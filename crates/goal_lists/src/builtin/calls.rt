//! Calls: the signature by which a type is called, and the rules of `Fn`, `FnMut` and `FnOnce`.
ghost use Rattle.std.specs.Prelude.{◌≡◌, true, map, IfOk, IfSome};
ghost use Rattle.std.specs.List.{All};
ghost use Rattle.std.specs.Option.{option_map, option_and_then};
ghost use Rattle.goal_tables.specs.Rows.{function_of, closure_of};
ghost use Rattle.goal_terms.specs.Erased.{erased_head};
ghost use Rattle.goal_terms.specs.Sorts.{IsArgument, HeadFits};
ghost use Rattle.goal_interner.specs.TableMeaning.{tree_at, Keeps};
ghost use Rattle.goal_terms.specs.Tree.{node_of, parts_of};
ghost use Rattle.goal_terms.specs.TreeOf.{tree_of_sig};
ghost use Rattle.goal_lists.specs.BuiltinWords.{parts_at, function_sig};
ghost use Rattle.goal_lists.specs.Builtins.{callable_sig, is_callable_by, closure_sig, is_fn_ptr, signature_of_head, signature_of};
ghost use Rattle.goal_lists.specs.Headers.{under};
ghost use Rattle.goal_lists.specs.Interned.{IsIn, AreIn, erased_at, erased_all};

use crate::candidates::row_terms::{allocator_of, arguments_of, signature_under};
use goal_interner::term_nodes::{OutOfMemory, TermId};
use goal_interner::term_table::TermTable;
use goal_tables::lookup::IndexedTables;
use goal_tables::rows::{ClosureKind, ClosureRow, FnRow};
use goal_terms::heads::{Head, Node};
use goal_terms::ids::{ClosureId, FnId};
use goal_terms::lang::LangItem;

/// A signature, if its functions have the traits `Fn`.
fn callable_sig(terms: &TermTable, sig: TermId) -> Option<TermId>
    requires { IsIn terms.now sig }
    ensures within { IfSome result (IsIn terms.now) }
    ensures pointer { IfSome result (λ s. is_fn_ptr (erased_at terms.now s) ≡ true) }
    ensures signature { option_map (erased_at terms.now) result ≡ callable_sig (erased_at terms.now sig) }
{
    match terms.node(sig) {
        Node::Head(head) => match head {
            Head::FnPtr { fn_traits, .. } => { if fn_traits { Some(sig) } else { None } }
            _ => None,
        },
        Node::Alias(_) => None,
        Node::Variable(_) => None,
    }
}

/// Whether closures of a kind may be called by a trait.
fn is_callable_by(kind: ClosureKind, by: LangItem) -> bool
    ensures { result ≡ is_callable_by kind by }
{
    match kind {
        ClosureKind::Fn => true,
        ClosureKind::FnMut => !matches!(by, LangItem::Fn),
        ClosureKind::FnOnce => matches!(by, LangItem::FnOnce),
    }
}

/// A function item's signature, if functions with it have the traits `Fn`. The table gets it. Want of
/// memory or of numbers is the only refusal.
pub(crate) fn function_sig(
    terms: &mut TermTable,
    row: &FnRow,
    args: &[TermId],
) -> Result<Option<TermId>, OutOfMemory>
    requires { AreIn terms.old args.now }
    ensures kept { Keeps terms.old terms.new }
    ensures within { IfOk result (λ o. IfSome o (IsIn terms.new)) }
    ensures pointer { IfOk result (λ o. IfSome o (λ s. is_fn_ptr (erased_at terms.new s) ≡ true)) }
    ensures signature { IfOk result (λ o. option_map (erased_at terms.new) o ≡ callable_sig (under (erased_all terms.old args.now) (tree_of_sig row.now.sig))) }
{
    let sig = signature_under(terms, &row.sig, args)?;
    Ok(callable_sig(terms, sig))
}

/// A closure's signature, if it may be called by a trait. The table gets it. Want of memory or of numbers
/// is the only refusal.
pub(crate) fn closure_sig(
    terms: &mut TermTable,
    by: LangItem,
    row: &ClosureRow,
    args: &[TermId],
) -> Result<Option<TermId>, OutOfMemory>
    requires { AreIn terms.old args.now }
    ensures kept { Keeps terms.old terms.new }
    ensures within { IfOk result (λ o. IfSome o (IsIn terms.new)) }
    ensures pointer { IfOk result (λ o. IfSome o (λ s. is_fn_ptr (erased_at terms.new s) ≡ true)) }
    ensures signature { IfOk result (λ o. option_map (erased_at terms.new) o ≡ closure_sig by (erased_all terms.old args.now) row.now) }
{
    if !is_callable_by(row.kind, by) {
        return Ok(None);
    }
    let sig = signature_under(terms, &row.sig, args)?;
    Ok(Some(sig))
}

/// The signature of a function item.
fn signature_of_function(
    rows: &IndexedTables,
    terms: &mut TermTable,
    function: FnId,
    self_ty: TermId,
) -> Result<Option<TermId>, OutOfMemory>
    requires within { IsIn terms.old self_ty }
    requires arguments { All IsArgument (parts_of (tree_at terms.old self_ty)) }
    ensures kept { Keeps terms.old terms.new }
    ensures within { IfOk result (λ o. IfSome o (IsIn terms.new)) }
    ensures pointer { IfOk result (λ o. IfSome o (λ s. is_fn_ptr (erased_at terms.new s) ≡ true)) }
    ensures signature { IfOk result (λ o. option_map (erased_at terms.new) o ≡ option_and_then (function_sig (parts_at terms.old self_ty)) (function_of rows.now function)) }
{
    let Some(row) = rows.function_row(function) else {
        return Ok(None);
    };
    let args = arguments_of(allocator_of(rows), terms, self_ty)?;
    function_sig(terms, row, args.as_slice())
}

/// The signature of a closure.
fn signature_of_closure(
    rows: &IndexedTables,
    terms: &mut TermTable,
    by: LangItem,
    closure: ClosureId,
    self_ty: TermId,
) -> Result<Option<TermId>, OutOfMemory>
    requires within { IsIn terms.old self_ty }
    requires arguments { All IsArgument (parts_of (tree_at terms.old self_ty)) }
    ensures kept { Keeps terms.old terms.new }
    ensures within { IfOk result (λ o. IfSome o (IsIn terms.new)) }
    ensures pointer { IfOk result (λ o. IfSome o (λ s. is_fn_ptr (erased_at terms.new s) ≡ true)) }
    ensures signature { IfOk result (λ o. option_map (erased_at terms.new) o ≡ option_and_then (closure_sig by (parts_at terms.old self_ty)) (closure_of rows.now closure)) }
{
    let Some(row) = rows.closure_row(closure) else {
        return Ok(None);
    };
    let args = arguments_of(allocator_of(rows), terms, self_ty)?;
    closure_sig(terms, by, row, args.as_slice())
}

#[tactic(auto, unfolding(crate::specs::Builtins::signature_of_head))]
/// The signature by which a type with a constructor is called.
fn signature_of_head(
    rows: &IndexedTables,
    terms: &mut TermTable,
    by: LangItem,
    head: Head,
    self_ty: TermId,
) -> Result<Option<TermId>, OutOfMemory>
    requires within { IsIn terms.old self_ty }
    requires top { Node.Head head ≡ node_of (tree_at terms.old self_ty) }
    requires fits { HeadFits head (parts_of (tree_at terms.old self_ty)) }
    ensures kept { Keeps terms.old terms.new }
    ensures within { IfOk result (λ o. IfSome o (IsIn terms.new)) }
    ensures pointer { IfOk result (λ o. IfSome o (λ s. is_fn_ptr (erased_at terms.new s) ≡ true)) }
    ensures signature { IfOk result (λ o. option_map (erased_at terms.new) o ≡ signature_of_head rows.now by (erased_head head) (parts_at terms.old self_ty)) }
{
    match head {
        Head::FnDef(function, _) => signature_of_function(rows, terms, function, self_ty),
        Head::FnPtr { .. } => Ok(callable_sig(terms, self_ty)),
        Head::Closure(closure, _) => signature_of_closure(rows, terms, by, closure, self_ty),
        _ => Ok(None),
    }
}

/// The signature by which a type is called through a trait, as a pointer to such a function; nothing
/// where the type can't be called so. The table gets the signature. Want of memory or of numbers is the
/// only refusal.
pub(crate) fn signature_of(
    rows: &IndexedTables,
    terms: &mut TermTable,
    by: LangItem,
    self_ty: TermId,
) -> Result<Option<TermId>, OutOfMemory>
    requires { IsIn terms.old self_ty }
    ensures kept { Keeps terms.old terms.new }
    ensures within { IfOk result (λ o. IfSome o (IsIn terms.new)) }
    ensures pointer { IfOk result (λ o. IfSome o (λ s. is_fn_ptr (erased_at terms.new s) ≡ true)) }
    ensures signature { IfOk result (λ o. option_map (erased_at terms.new) o ≡ signature_of rows.now by (erased_at terms.old self_ty)) }
{
    match terms.node(self_ty) {
        Node::Head(head) => signature_of_head(rows, terms, by, head, self_ty),
        Node::Alias(_) => Ok(None),
        Node::Variable(_) => Ok(None),
    }
}
