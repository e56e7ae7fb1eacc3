//! Which terms hold an inference variable.
ghost use Rattle.std.specs.Prelude.{◌≡◌};
ghost use Rattle.goal_terms.specs.Closed.{is_closed};
ghost use Rattle.goal_terms.specs.View.{tree_of_ref};

use crate::node_tests::{NodeTest, Within};
use crate::view::TermRef;

impl TermRef<'_> {
    #[tactic(auto, unfolding(crate::specs::Closed::is_closed))]
    /// Whether no inference variable stands in the term. Region variables do not count.
    pub fn is_closed(self) -> bool
        ensures { result ≡ is_closed (tree_of_ref self.entry) }
    {
        !NodeTest::IsAnyInfer.passes_within(Within::Everything, self)
    }
}
