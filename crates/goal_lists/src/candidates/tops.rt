//! What stands at the top of self types and of clauses of `dyn` types, as far as candidates come from it.
ghost use Rattle.std.specs.Prelude.{◌≡◌};
ghost use Rattle.goal_lists.specs.CandidateTops.{projected_item, opaque_number, is_object, clause_trait, clause_item};

use goal_terms::heads::{Head, Node};
use goal_terms::ids::{ItemId, OpaqueId, TraitId};
use goal_terms::terms::AliasTermKind;

/// The item of a projection to a type.
#[tactic(auto, unfolding(crate::specs::CandidateTops::projected_item))]
pub fn projected_item(node: Node) -> Option<ItemId>
    ensures { result ≡ projected_item node }
{
    match node {
        Node::Alias(AliasTermKind::ProjectionTy(item)) => Some(item),
        _ => None,
    }
}

/// The number of an opaque type.
#[tactic(auto, unfolding(crate::specs::CandidateTops::opaque_number))]
pub fn opaque_number(node: Node) -> Option<OpaqueId>
    ensures { result ≡ opaque_number node }
{
    match node {
        Node::Alias(AliasTermKind::OpaqueTy(opaque)) => Some(opaque),
        _ => None,
    }
}

/// Whether it is that of a `dyn` type.
#[tactic(auto, unfolding(crate::specs::CandidateTops::is_object))]
pub fn is_object(node: Node) -> bool
    ensures { result ≡ is_object node }
{
    matches!(node, Node::Head(Head::Dynamic(_, _)))
}

/// The trait of a clause of a trait, and the number of its arguments.
#[tactic(auto, unfolding(crate::specs::CandidateTops::clause_trait))]
pub fn clause_trait(node: Node) -> Option<(TraitId, usize)>
    ensures { result ≡ clause_trait node }
{
    match node {
        Node::Head(Head::DynTrait(id, count)) => Some((id, count)),
        _ => None,
    }
}

/// The item of a clause of an item, and the number of its arguments.
#[tactic(auto, unfolding(crate::specs::CandidateTops::clause_item))]
pub fn clause_item(node: Node) -> Option<(ItemId, usize)>
    ensures { result ≡ clause_item node }
{
    match node {
        Node::Head(Head::DynProjection(item, count)) => Some((item, count)),
        _ => None,
    }
}
