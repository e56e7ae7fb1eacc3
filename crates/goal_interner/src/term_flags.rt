//! What is known of whole terms, without going over them.
ghost use Rattle.std.specs.Prelude.{◌≡◌, ◌<◌, length, map};
ghost use Rattle.goal_terms.specs.NodeTests.{some_node, is_alias, is_any_infer};
ghost use Rattle.goal_terms.specs.Occurrences.{has_error};
ghost use Rattle.goal_terms.specs.Sorts.{Fits};
ghost use Rattle.goal_interner.specs.TableMeaning.{tree_at, AreBelow};
ghost use Rattle.goal_interner.specs.TermFlags.{flags_of, flags_of_node, union};
ghost use Rattle.goal_terms.specs.TreeWith.{tree_with};

use crate::term_nodes::TermId;
use crate::term_table::TermTable;
use goal_terms::heads::Node;
use goal_terms::node_tests::NodeTest;

/// Whether an error, an alias or an inference variable stands anywhere in a term.
#[derive(Clone, Copy)]
pub struct TermFlags {
    pub has_error: bool,
    pub has_alias: bool,
    pub has_infer: bool,
}

impl TermFlags {
    /// The flags of a node, its parts aside.
    fn of_node(node: Node) -> Self
        ensures { result ≡ flags_of_node node }
    {
        TermFlags {
            has_error: NodeTest::IsError.passes(node),
            has_alias: matches!(node, Node::Alias(_)),
            has_infer: NodeTest::IsAnyInfer.passes(node),
        }
    }

    /// The flags that one of two has.
    fn union(self, other: Self) -> Self
        ensures { result ≡ union self other }
    {
        TermFlags {
            has_error: self.has_error || other.has_error,
            has_alias: self.has_alias || other.has_alias,
            has_infer: self.has_infer || other.has_infer,
        }
    }
}

impl TermTable {
    /// The flags of the term with this node and these parts, from those of the parts.
    pub(crate) fn flags_with(&self, node: Node, parts: &[TermId]) -> TermFlags
        requires within { AreBelow (length self.now) parts.now }
        requires fits { Fits node (map (tree_at self.now) parts.now) }
        ensures { result ≡ flags_of (tree_with node (map (tree_at self.now) parts.now)) }
    {
        let mut flags = TermFlags::of_node(node);
        for i in 0..parts.len() {
            flags = flags.union(self.flags(parts[i]));
        }
        flags
    }

    /// Whether an error stands anywhere in a term: a type or a constant that is one. Nothing is gone
    /// over, and it takes no memory.
    pub fn has_error(&self, id: TermId) -> bool
        requires { id.0 < length self.now }
        ensures { result ≡ has_error (tree_at self.now id) }
    {
        self.flags(id).has_error
    }

    /// Whether an alias stands anywhere in a term. One that stands where a term of the other sort is
    /// wanted does not count. Nothing is gone over, and it takes no memory.
    pub fn has_alias(&self, id: TermId) -> bool
        requires { id.0 < length self.now }
        ensures { result ≡ some_node is_alias (tree_at self.now id) }
    {
        self.flags(id).has_alias
    }

    /// Whether an inference variable stands anywhere in a term. Region variables do not count.
    /// Nothing is gone over, and it takes no memory.
    pub fn has_infer(&self, id: TermId) -> bool
        requires { id.0 < length self.now }
        ensures { result ≡ some_node is_any_infer (tree_at self.now id) }
    {
        self.flags(id).has_infer
    }
}
