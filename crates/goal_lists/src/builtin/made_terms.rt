//! Terms that rules make of rows and of other terms.
ghost use Rattle.std.specs.Prelude.{◌≡◌, ◌<◌, [], IfOk, IsTrue};
ghost use Rattle.std.specs.List.{All};
ghost use Rattle.goal_terms.specs.Erased.{erased_head};
ghost use Rattle.goal_terms.specs.Sorts.{HeadFits, IsArgument, is_argument_sort, sort_of_head};
ghost use Rattle.goal_interner.specs.TableMeaning.{tree_at, Keeps};
ghost use Rattle.goal_terms.specs.Tree.{parts_of};
ghost use Rattle.goal_terms.specs.TreeOf.{leaf, tree_of_ty};
ghost use Rattle.goal_lists.specs.Headers.{under};
ghost use Rattle.goal_lists.specs.Interned.{IsIn, erased_at};

use crate::candidates::row_terms;
use crate::candidates::row_terms::arguments_of;
use goal_interner::term_nodes::{OutOfMemory, TermId};
use goal_interner::term_table::TermTable;
use goal_terms::heads::{Head, Node};
use goal_terms::terms::Ty;
use std::alloc::Global;

/// The number of an argument without parts. The table gets it. Want of memory or of numbers is the only
/// refusal.
pub(crate) fn intern_leaf(
    alloc: Global,
    terms: &mut TermTable,
    head: Head,
) -> Result<TermId, OutOfMemory>
    requires fits { HeadFits head [] }
    requires argument { IsTrue (is_argument_sort (sort_of_head head)) }
    ensures kept { Keeps terms.old terms.new }
    ensures within { IfOk result (IsIn terms.new) }
    ensures tree { IfOk result (λ id. erased_at terms.new id ≡ leaf (erased_head head)) }
{
    let id = terms.intern_node(Node::Head(head), Vec::new(alloc))?;
    Ok(id)
}

/// The number of a row's type under the arguments of a term. The table gets the type. Want of memory or of
/// numbers is the only refusal.
pub(crate) fn type_under(
    alloc: Global,
    terms: &mut TermTable,
    ty: &Ty,
    of: TermId,
) -> Result<TermId, OutOfMemory>
    requires here { IsIn terms.old of }
    requires arguments { All IsArgument (parts_of (tree_at terms.old of)) }
    ensures kept { Keeps terms.old terms.new }
    ensures within { IfOk result (IsIn terms.new) }
    ensures tree { IfOk result (λ id. erased_at terms.new id ≡ under (parts_of (erased_at terms.old of)) (tree_of_ty ty.now)) }
{
    let args = arguments_of(alloc, terms, of)?;
    row_terms::type_under(terms, ty, &args)
}
