//! Nodes and the binders above them.
ghost use Rattle.std.specs.Prelude.{◌≡◌};
ghost use Rattle.goal_terms.specs.Folding.{shifting};
ghost use Rattle.goal_terms.specs.Tops.{depth_of_parts, folded_top};

use crate::folders::shift_region;
use crate::heads::{Head, Node};

impl Node {
    #[tactic(auto, unfolding(crate::specs::Folding::depth_below))]
    /// How many binders stand above the parts, where so many stand above the whole.
    pub fn binders_below(self, binders: u32) -> u32
        ensures { result ≡ depth_of_parts self binders }
    {
        match self {
            Node::Head(Head::FnPtr { .. } | Head::DynTrait(_, _) | Head::DynProjection(_, _)) =>
                binders.saturating_add(1),
            _ => binders,
        }
    }

    #[tactic(auto, unfolding(crate::specs::Tops::folded_top))]
    /// The node with its own lifetime shifted.
    pub fn shifted(self, by: u32, binders: u32) -> Node
        ensures { result ≡ folded_top (shifting by) binders self }
    {
        let Node::Head(head) = self else {
            return self;
        };
        Node::Head(match head {
            Head::Ref(region, mutability) => {
                Head::Ref(shift_region(by, binders, region), mutability)
            }
            Head::Dynamic(count, region) => {
                Head::Dynamic(count, shift_region(by, binders, region))
            }
            Head::Lifetime(region) => Head::Lifetime(shift_region(by, binders, region)),
            other => other,
        })
    }
}
