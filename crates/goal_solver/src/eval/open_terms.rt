//! Inference variables in terms that are given by their numbers.
ghost use Rattle.std.specs.Prelude.{◌≡◌, ◌<◌, length, map};
ghost use Rattle.std.specs.List.{list_any};
ghost use Rattle.goal_terms.specs.NodeTests.{some_node, is_any_infer};
ghost use Rattle.goal_interner.specs.TableMeaning.{tree_at, AreBelow};

use goal_interner::term_nodes::TermId;
use goal_interner::term_table::TermTable;

/// Whether an inference variable stands in some terms. Region variables do not count. It takes no
/// memory.
pub(crate) fn any_variable(terms: &TermTable, ids: &[TermId]) -> bool
    requires { AreBelow (length terms.now) ids.now }
    ensures { result ≡ list_any (some_node is_any_infer) (map (tree_at terms.now) ids.now) }
{
    for i in 0..ids.len() {
        if terms.has_infer(ids[i]) {
            return true;
        }
    }
    false
}
