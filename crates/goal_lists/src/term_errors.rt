//! Errors in terms that are given by their numbers.
ghost use Rattle.std.specs.Prelude.{◌≡◌};
ghost use Rattle.goal_lists.specs.Interned.{AreIn, erased_all};
ghost use Rattle.goal_lists.specs.TraitGoals.{any_error};

use goal_interner::term_nodes::TermId;
use goal_interner::term_table::TermTable;

/// Whether an error stands in some terms, lifetimes aside. It takes no memory.
pub fn any_error(terms: &TermTable, ids: &[TermId]) -> bool
    requires { AreIn terms.now ids.now }
    ensures { result ≡ any_error (erased_all terms.now ids.now) }
{
    for i in 0..ids.len() {
        if terms.has_error(ids[i]) {
            return true;
        }
    }
    false
}
