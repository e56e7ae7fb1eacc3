ghost use Rattle.std.specs.Prelude.{◌≡◌};
ghost use Rattle.goal_terms.specs.Erased.{compared, compared_node, erased_head};
ghost use Rattle.goal_terms.specs.SameTree.{same_tree, same_node};
ghost use Rattle.goal_terms.specs.View.{tree_of_ref};

use crate::heads::{Head, Node};
use crate::terms::Region;
use crate::view::TermRef;

/// Whether lifetimes and numbers of bound lifetimes count in a comparison.
#[derive(Clone, Copy)]
pub enum Regions {
    Compared,
    Forgotten,
}

impl Head {
    /// The head without its lifetimes and its number of bound lifetimes.
    pub fn erased(self) -> Head
        ensures { result ≡ erased_head self }
    {
        match self {
            Head::Ref(_, mutability) => Head::Ref(Region::Erased, mutability),
            Head::FnPtr {
                inputs,
                fn_traits,
                ..
            } => Head::FnPtr {
                bound_regions: 0,
                inputs,
                fn_traits,
            },
            Head::Dynamic(count, _) => Head::Dynamic(count, Region::Erased),
            Head::Lifetime(_) => Head::Lifetime(Region::Erased),
            other => other,
        }
    }
}

impl Node {
    /// The node as it is compared.
    pub fn compared(self, regions: Regions) -> Node
        ensures { result ≡ compared_node regions self }
    {
        match (regions, self) {
            (Regions::Forgotten, Node::Head(head)) => Node::Head(head.erased()),
            (_, node) => node,
        }
    }

    /// Whether two nodes are the same, as the regions are to be compared.
    #[tactic(auto, unfolding(crate::specs::SameTree::same_node))]
    pub fn is_same(self, other: Node, regions: Regions) -> bool
        ensures { result ≡ same_node (compared_node regions self) (compared_node regions other) }
    {
        self.compared(regions) == other.compared(regions)
    }
}

#[tactic(auto, using(crate::proofs::WalkLemmas::walking))]
/// Whether two terms are the same, as the regions are to be compared.
pub fn same(a: TermRef<'_>, b: TermRef<'_>, regions: Regions) -> bool
    ensures { result ≡ same_tree (compared regions (tree_of_ref a.entry)) (compared regions (tree_of_ref b.entry)) }
{
    if !a.node().is_same(b.node(), regions) {
        return false;
    }
    let parts = a.parts();
    let others = b.parts();
    let count = parts.len();
    if others.len() != count {
        return false;
    }
    for i in 0..count {
        if !same(parts.at(i), others.at(i), regions) {
            return false;
        }
    }
    true
}
