//! What occurs in a term.
ghost use Rattle.std.specs.Prelude.{◌≡◌};
ghost use Rattle.goal_terms.specs.Occurrences.{occurs, occurs_outside_aliases, has_error};
ghost use Rattle.goal_terms.specs.View.{tree_of_ref};

use crate::heads::Variable;
use crate::node_tests::{NodeTest, Within};
use crate::view::TermRef;

impl TermRef<'_> {
    /// Whether an inference variable stands anywhere in the term.
    #[tactic(auto, unfolding(crate::specs::Occurrences::occurs))]
    pub fn occurs(self, variable: Variable) -> bool
        ensures { result ≡ occurs variable (tree_of_ref self.entry) }
    {
        NodeTest::IsInfer(variable).passes_within(Within::Everything, self)
    }

    /// Whether an inference variable stands in the term, and not only in the arguments of aliases.
    #[tactic(auto, unfolding(crate::specs::Occurrences::occurs_outside_aliases))]
    pub fn occurs_outside_aliases(self, variable: Variable) -> bool
        ensures { result ≡ occurs_outside_aliases variable (tree_of_ref self.entry) }
    {
        NodeTest::IsInfer(variable).passes_within(Within::OutsideAliases, self)
    }

    /// Whether an error stands anywhere in the term: a type or a constant that is one.
    #[tactic(auto, unfolding(crate::specs::Occurrences::has_error))]
    pub fn has_error(self) -> bool
        ensures { result ≡ has_error (tree_of_ref self.entry) }
    {
        NodeTest::IsError.passes_within(Within::Everything, self)
    }
}
