//! The item that a kind of alias projects.
ghost use Rattle.std.specs.Prelude.{◌≡◌, ◌≢◌, true, false, Some};
ghost use Rattle.goal_lists.specs.Projections.{projected_item};

use goal_terms::ids::ItemId;
use goal_terms::terms::AliasTermKind;

/// The item that a kind of alias projects.
pub fn projected(kind: AliasTermKind) -> Option<ItemId>
    ensures { result ≡ projected_item kind }
{
    match kind {
        AliasTermKind::ProjectionTy(id) | AliasTermKind::ProjectionConst(id) => Some(id),
        AliasTermKind::InherentTy(_)
        | AliasTermKind::InherentConst(_)
        | AliasTermKind::OpaqueTy(_)
        | AliasTermKind::FreeTy(_)
        | AliasTermKind::FreeConst(_)
        | AliasTermKind::UnevaluatedConst(_) => None,
    }
}

/// Whether a kind of alias projects an item.
pub(crate) fn projects(kind: AliasTermKind, id: ItemId) -> bool
    ensures same { result ≡ true → projected_item kind ≡ Some id }
    ensures other { result ≡ false → projected_item kind ≢ Some id }
{
    match projected(kind) {
        None => false,
        Some(item) => item == id,
    }
}
