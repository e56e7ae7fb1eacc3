ghost use Rattle.std.specs.Prelude.{◌≡◌};
ghost use Rattle.goal_terms.specs.Sorts.{sort_of, sort_of_head};

use crate::heads::{Head, Node, Variable};

/// What a part of a term is.
#[derive(Clone, Copy)]
pub enum Sort {
    Ty,
    Const,
    Lifetime,
    /// A clause of a `dyn` type.
    Clause,
}

impl Head {
    /// What the constructor makes.
    pub fn sort(self) -> Sort
        ensures { result ≡ sort_of_head self }
    {
        match self {
            Head::Value(_) | Head::ConstParam(_) | Head::ConstPlaceholder(_) => Sort::Const,
            Head::ConstError(_) => Sort::Const,
            Head::Lifetime(_) => Sort::Lifetime,
            Head::DynTrait(_, _) | Head::DynProjection(_, _) => Sort::Clause,
            Head::Misplaced(kind) if kind.is_type() => Sort::Const,
            _ => Sort::Ty,
        }
    }
}

impl Node {
    /// What has the node at its top.
    pub fn sort(self) -> Sort
        ensures { result ≡ sort_of self }
    {
        match self {
            Node::Head(head) => head.sort(),
            Node::Alias(kind) if kind.is_type() => Sort::Ty,
            Node::Alias(_) => Sort::Const,
            Node::Variable(Variable::Ty(_)) => Sort::Ty,
            Node::Variable(Variable::Const(_)) => Sort::Const,
        }
    }
}
