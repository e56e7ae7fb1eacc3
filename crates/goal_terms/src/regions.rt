//! Which lifetime a node names.
ghost use Rattle.std.specs.Prelude.{◌≡◌};
ghost use Rattle.goal_terms.specs.Regions.{region_of};

use crate::heads::{Head, Node};
use crate::terms::Region;

/// The lifetime that a node names itself.
#[tactic(auto, unfolding(crate::specs::Regions::region_of))]
pub fn region_of(node: Node) -> Option<Region>
    ensures { result ≡ region_of node }
{
    match node {
        Node::Head(Head::Ref(region, _)) => Some(region),
        Node::Head(Head::Dynamic(_, region)) => Some(region),
        Node::Head(Head::Lifetime(region)) => Some(region),
        _ => None,
    }
}
