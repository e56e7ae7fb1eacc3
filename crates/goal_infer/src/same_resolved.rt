//! Whether two terms are identical after the bindings of their variables.
ghost use Rattle.std.specs.Prelude.{◌≡◌, ◌<◌, ◌↔◌, IsTrue, length};
ghost use Rattle.goal_infer.specs.Resolution.{resolved, IsSolved};

use crate::resolve::resolve;
use crate::state::InferState;
use goal_interner::term_nodes::TermId;
use goal_interner::term_table::TermTable;
use goal_terms::compare::Regions;

/// Whether two terms are identical but for lifetimes and numbers of bound lifetimes, once each variable
/// is replaced by what it is bound to. It takes no memory.
pub fn same_resolved(table: &TermTable, state: &InferState, left: TermId, right: TermId) -> bool
    requires first { left.0 < length table.now }
    requires second { right.0 < length table.now }
    requires solved { IsSolved table.now state.now }
    ensures { IsTrue result ↔ (resolved table.now state.now left ≡ resolved table.now state.now right) }
{
    let left = resolve(table, state, left);
    let right = resolve(table, state, right);
    if table.same_term(left, right) {
        return true;
    }
    if !table
        .node(left)
        .is_same(table.node(right), Regions::Forgotten)
    {
        return false;
    }
    let parts = table.parts(left);
    let others = table.parts(right);
    let count = parts.len();
    if others.len() != count {
        return false;
    }
    for i in 0..count {
        if !same_resolved(table, state, parts[i], others[i]) {
            return false;
        }
    }
    true
}
