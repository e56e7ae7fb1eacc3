//! Whether a variable stands in a term.
ghost use Rattle.std.specs.Prelude.{◌≡◌, ◌<◌, length};
ghost use Rattle.goal_infer.specs.Occurrence.{joined, within_alias, place_under, place_of};
ghost use Rattle.goal_infer.specs.Resolution.{resolved, IsSolved};

use crate::resolve::resolve;
use crate::state::InferState;
use goal_interner::term_nodes::TermId;
use goal_interner::term_table::TermTable;
use goal_terms::compare::Regions;
use goal_terms::heads::{Node, Variable};

/// Where a variable stands in a term.
#[derive(Clone, Copy, PartialEq, Eq)]
pub enum Occurrence {
    Nowhere,
    /// In aliases, and nowhere else.
    InAliasesAlone,
    Outside,
}

impl Occurrence {
    /// Where it stands in two terms, of which one says this.
    fn and(self, other: Occurrence) -> Occurrence
        ensures { result ≡ joined self other }
    {
        match (self, other) {
            (Occurrence::Nowhere, _) => other,
            (Occurrence::InAliasesAlone, Occurrence::Outside) => Occurrence::Outside,
            _ => self,
        }
    }

    /// Where it stands below a node, in the parts of which it stands so.
    fn under(self, node: Node) -> Occurrence
        ensures { result ≡ place_under node self }
    {
        match (node, self) {
            (Node::Alias(_), Occurrence::Outside) => Occurrence::InAliasesAlone,
            _ => self,
        }
    }
}

/// Where a variable stands in a term, once each variable is replaced by what it is bound to. It takes no
/// memory.
pub fn occurs(table: &TermTable, state: &InferState, variable: Variable, id: TermId) -> Occurrence
    requires within { id.0 < length table.now }
    requires solved { IsSolved table.now state.now }
    ensures { result ≡ place_of variable (resolved table.now state.now id) }
{
    let id = resolve(table, state, id);
    let node = table.node(id);
    if let Node::Variable(_) = node {
        return if node.is_same(Node::Variable(variable), Regions::Forgotten) {
            Occurrence::Outside
        } else {
            Occurrence::Nowhere
        };
    }
    let mut place = Occurrence::Nowhere;
    for part in table.parts(id) {
        place = place.and(occurs(table, state, variable, *part));
    }
    place.under(node)
}
