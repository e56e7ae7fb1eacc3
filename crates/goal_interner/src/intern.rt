//! Interning of terms.
ghost use Rattle.std.specs.Prelude.{◌≡◌, ◌<◌, ◌≤◌, ◌+◌, length, IfOk};
ghost use Rattle.goal_terms.specs.Tree.{tree_size};
ghost use Rattle.goal_interner.specs.TableMeaning.{tree_at, Keeps, IsOnly};
ghost use Rattle.goal_terms.specs.TreeOf.{tree_of_term};
ghost use Rattle.goal_terms.specs.View.{tree_of_ref};

use crate::term_nodes::{OutOfMemory, TermId};
use crate::term_table::TermTable;
use goal_terms::terms::Term;
use goal_terms::view::TermRef;

impl TermTable {
    /// The number of a type or a constant, which it adds if it isn't there yet. Want of memory or of
    /// numbers is the only refusal; then the table may have got some of the term's parts.
    pub fn intern(&mut self, term: &Term) -> Result<TermId, OutOfMemory>
        ensures within { IfOk result (λ id. id.0 < length self.new) }
        ensures tree { IfOk result (λ id. tree_at self.new id ≡ tree_of_term term.now) }
        ensures only { IfOk result (λ id. IsOnly self.new id (tree_of_term term.now)) }
        ensures kept { Keeps self.old self.new }
        ensures grown { length self.new ≤ length self.old + tree_size (tree_of_term term.now) }
    {
        self.intern_part(term.view())
    }

    #[tactic(auto, using(crate::proofs::InternLemmas::interning))]
    /// The number of a part of a term, as `intern` gives it.
    pub fn intern_part(&mut self, term: TermRef<'_>) -> Result<TermId, OutOfMemory>
        ensures within { IfOk result (λ id. id.0 < length self.new) }
        ensures tree { IfOk result (λ id. tree_at self.new id ≡ tree_of_ref term.entry) }
        ensures only { IfOk result (λ id. IsOnly self.new id (tree_of_ref term.entry)) }
        ensures kept { Keeps self.old self.new }
        ensures grown { length self.new ≤ length self.old + tree_size (tree_of_ref term.entry) }
    {
        let parts = term.parts();
        let mut numbers = Vec::with_capacity(self.allocator(), parts.len())?;
        for i in 0..parts.len() {
            let number = self.intern_part(parts.at(i))?;
            numbers.push(number)?;
        }
        self.intern_node(term.node(), numbers)
    }
}
