//! Terms of rows under arguments, and the parts of terms.
ghost use Rattle.std.specs.Prelude.{◌≡◌, map, IfOk, IfSome};
ghost use Rattle.std.specs.List.{All};
ghost use Rattle.std.specs.Option.{option_map};
ghost use Rattle.goal_terms.specs.Sorts.{IsArgument};
ghost use Rattle.goal_interner.specs.TableMeaning.{tree_at, Keeps};
ghost use Rattle.goal_terms.specs.Tree.{parts_of};
ghost use Rattle.goal_terms.specs.TreeOf.{tree_of_ty, tree_of_sig};
ghost use Rattle.goal_lists.specs.Candidates.{last_of};
ghost use Rattle.goal_lists.specs.Headers.{under};
ghost use Rattle.goal_lists.specs.Interned.{IsIn, AreIn, erased_at, erased_all};

use crate::candidates::premises::term_under;
use goal_interner::term_nodes::{OutOfMemory, TermId};
use goal_interner::term_table::TermTable;
use goal_tables::lookup::IndexedTables;
use goal_terms::terms::{FnSig, Ty};
use goal_terms::view::TermRef;
use std::alloc::Global;

/// What lists of terms are made with.
pub(crate) fn allocator_of(rows: &IndexedTables) -> Global {
    *rows.tables().traits.allocator()
}

/// A row's type under arguments. The table gets it. Want of memory or of numbers is the only refusal.
pub(crate) fn type_under(
    terms: &mut TermTable,
    ty: &Ty,
    args: &[TermId],
) -> Result<TermId, OutOfMemory>
    requires { AreIn terms.old args.now }
    ensures kept { Keeps terms.old terms.new }
    ensures within { IfOk result (IsIn terms.new) }
    ensures term { IfOk result (λ id. erased_at terms.new id ≡ under (erased_all terms.old args.now) (tree_of_ty ty.now)) }
{
    term_under(terms, TermRef::Ty(ty), args)
}

/// A row's signature under arguments, as a pointer to such a function. The table gets it. Want of memory
/// or of numbers is the only refusal.
pub(crate) fn signature_under(
    terms: &mut TermTable,
    sig: &FnSig,
    args: &[TermId],
) -> Result<TermId, OutOfMemory>
    requires { AreIn terms.old args.now }
    ensures kept { Keeps terms.old terms.new }
    ensures within { IfOk result (IsIn terms.new) }
    ensures term { IfOk result (λ id. erased_at terms.new id ≡ under (erased_all terms.old args.now) (tree_of_sig sig.now)) }
{
    term_under(terms, TermRef::Signature(sig), args)
}

/// A row's types under arguments. The table gets them. Want of memory or of numbers is the only refusal.
pub(crate) fn types_under(
    alloc: Global,
    terms: &mut TermTable,
    tys: &[Ty],
    args: &[TermId],
) -> Result<Vec<TermId>, OutOfMemory>
    requires { AreIn terms.old args.now }
    ensures kept { Keeps terms.old terms.new }
    ensures within { IfOk result (λ ids. AreIn terms.new ids.items) }
    ensures terms { IfOk result (λ ids. erased_all terms.new ids.items ≡ map (λ ty. under (erased_all terms.old args.now) (tree_of_ty ty)) tys.now) }
{
    let mut numbers = Vec::with_capacity(alloc, tys.len())?;
    for ty in tys {
        let number = type_under(terms, ty, args)?;
        numbers.push(number)?;
    }
    Ok(numbers)
}

/// The numbers of the parts of a term, each an argument. Want of memory is the only refusal.
pub(crate) fn arguments_of(
    alloc: Global,
    terms: &TermTable,
    id: TermId,
) -> Result<Vec<TermId>, OutOfMemory>
    requires within { IsIn terms.now id }
    requires arguments { All IsArgument (parts_of (tree_at terms.now id)) }
    ensures within { IfOk result (λ ids. AreIn terms.now ids.items) }
    ensures trees { IfOk result (λ ids. map (tree_at terms.now) ids.items ≡ parts_of (tree_at terms.now id)) }
    ensures terms { IfOk result (λ ids. erased_all terms.now ids.items ≡ parts_of (erased_at terms.now id)) }
{
    let parts = terms.parts(id);
    let mut numbers = Vec::with_capacity(alloc, parts.len())?;
    for part in parts {
        numbers.push(*part)?;
    }
    Ok(numbers)
}

/// A row's type under arguments, if it has one. The table gets it. Want of memory or of numbers is the
/// only refusal.
pub(crate) fn option_under(
    terms: &mut TermTable,
    ty: &Option<Ty>,
    args: &[TermId],
) -> Result<Option<TermId>, OutOfMemory>
    requires { AreIn terms.old args.now }
    ensures kept { Keeps terms.old terms.new }
    ensures within { IfOk result (λ o. IfSome o (IsIn terms.new)) }
    ensures term { IfOk result (λ o. option_map (erased_at terms.new) o ≡ option_map (λ ty. under (erased_all terms.old args.now) (tree_of_ty ty)) ty.now) }
{
    match ty {
        None => Ok(None),
        Some(ty) => {
            let number = type_under(terms, ty, args)?;
            Ok(Some(number))
        }
    }
}

/// The number of the last part of a term whose parts are arguments. It takes no memory.
pub(crate) fn last_part(terms: &TermTable, id: TermId) -> Option<TermId>
    requires within { IsIn terms.now id }
    requires arguments { All IsArgument (parts_of (tree_at terms.now id)) }
    ensures within { IfSome result (IsIn terms.now) }
    ensures term { option_map (erased_at terms.now) result ≡ last_of (parts_of (erased_at terms.now id)) }
{
    let parts = terms.parts(id);
    let count = parts.len();
    if count == 0 {
        return None;
    }
    Some(parts[count - 1])
}
