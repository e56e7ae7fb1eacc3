//! Terms of rows under arguments.
ghost use Rattle.std.specs.Prelude.{◌≡◌, ◌∷◌, [], IfOk};
ghost use Rattle.goal_terms.specs.Erased.{erased};
ghost use Rattle.goal_terms.specs.TreeOf.{tree_of_ty};
ghost use Rattle.goal_lists.specs.Headers.{under};
ghost use Rattle.goal_eval.specs.Outcomes.{header_terms};

use crate::eval::outcomes::Setting;
use goal_interner::term_nodes::OutOfMemory;
use goal_interner::term_table::TermTable;
use goal_terms::terms::{GenericArg, Ty};
use goal_terms::view::TermRef;

/// A type as the one argument of a header.
pub(crate) fn header_of_type(setting: &Setting<'_>, ty: &Ty) -> Result<Vec<GenericArg>, OutOfMemory>
    ensures { IfOk result (λ made. header_terms made.items ≡ erased (tree_of_ty ty.now) ∷ []) }
{
    let copy = ty.clone()?;
    let mut made = Vec::with_capacity(setting.allocator(), 1)?;
    made.push(GenericArg::Ty(copy))?;
    Ok(made)
}
