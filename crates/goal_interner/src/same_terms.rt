//! Comparisons of terms by their numbers, without lifetimes and numbers of bound lifetimes. They take
//! no memory.
ghost use Rattle.std.specs.Prelude.{◌≡◌, ◌<◌, ◌↔◌, IsTrue, length};
ghost use Rattle.goal_terms.specs.Erased.{erased};
ghost use Rattle.goal_interner.specs.TableMeaning.{tree_at};

use crate::term_nodes::TermId;
use crate::term_table::TermTable;
use goal_terms::compare::Regions;

impl TermTable {
    /// Whether two terms are identical but for lifetimes and numbers of bound lifetimes.
    pub fn same_erased(&self, a: TermId, b: TermId) -> bool
        requires first { a.0 < length self.now }
        requires second { b.0 < length self.now }
        ensures { IsTrue result ↔ (erased (tree_at self.now a) ≡ erased (tree_at self.now b)) }
    {
        if a.0 == b.0 {
            return true;
        }
        if !self.node(a).is_same(self.node(b), Regions::Forgotten) {
            return false;
        }
        let parts = self.parts(a);
        let others = self.parts(b);
        let count = parts.len();
        if others.len() != count {
            return false;
        }
        for i in 0..count {
            if !self.same_erased(parts[i], others[i]) {
                return false;
            }
        }
        true
    }
}
