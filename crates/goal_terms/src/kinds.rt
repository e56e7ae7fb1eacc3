//! Which kind a term is of.
ghost use Rattle.std.specs.Prelude.{◌≡◌};
ghost use Rattle.goal_terms.specs.Kinds.{same_kind, kind_of_alias, kind_of_misplaced, kind_of_head, kind_of};

use crate::answers::ParamKind;
use crate::heads::{Head, Node, Variable};
use crate::terms::AliasTermKind;

/// Whether two kinds are the same.
pub fn same_kind(kind: ParamKind, other: ParamKind) -> bool
    ensures { result ≡ same_kind kind other }
{
    match (kind, other) {
        (ParamKind::Ty, ParamKind::Ty)
        | (ParamKind::Const, ParamKind::Const)
        | (ParamKind::Lifetime, ParamKind::Lifetime) => true,
        _ => false,
    }
}

/// The kind of what an alias stands for.
pub fn kind_of_alias(kind: AliasTermKind) -> ParamKind
    ensures { result ≡ kind_of_alias kind }
{
    if kind.is_type() {
        ParamKind::Ty
    } else {
        ParamKind::Const
    }
}

/// The kind of a misplaced alias: what it isn't.
fn kind_of_misplaced(kind: AliasTermKind) -> ParamKind
    ensures { result ≡ kind_of_misplaced kind }
{
    if kind.is_type() {
        ParamKind::Const
    } else {
        ParamKind::Ty
    }
}

#[tactic(auto, unfolding(crate::specs::Kinds::kind_of_head))]
fn kind_of_head(head: Head) -> ParamKind
    ensures { result ≡ kind_of_head head }
{
    match head {
        Head::Value(_) | Head::ConstParam(_) | Head::ConstPlaceholder(_) | Head::ConstError(_) => {
            ParamKind::Const
        }
        Head::Lifetime(_) => ParamKind::Lifetime,
        Head::Misplaced(kind) => kind_of_misplaced(kind),
        _ => ParamKind::Ty,
    }
}

#[tactic(auto, unfolding(crate::specs::Kinds::kind_of))]
/// The kind of a term with this at its top.
pub fn kind_of(node: Node) -> ParamKind
    ensures { result ≡ kind_of node }
{
    match node {
        Node::Head(head) => kind_of_head(head),
        Node::Alias(kind) => kind_of_alias(kind),
        Node::Variable(Variable::Ty(_)) => ParamKind::Ty,
        Node::Variable(Variable::Const(_)) => ParamKind::Const,
    }
}
