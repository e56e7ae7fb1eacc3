//! Fast rejection: lists of arguments that cannot become the same, found by heads and kinds alone. It takes
//! no memory.
ghost use Rattle.std.specs.Prelude.{◌≡◌};
ghost use Rattle.goal_terms.specs.TreeOf.{trees_of};
ghost use Rattle.goal_terms.specs.View.{tree_of_ref, trees_seen};
ghost use Rattle.goal_lists.specs.FastReject.{is_open, may_unify, lists_may_unify};
ghost use Rattle.goal_lists.specs.declared.fast_reject.Parameters.TheVariants.{Rigid, Inferred};

use goal_terms::compare::Regions;
use goal_terms::heads::{Head, Node};
use goal_terms::kinds::{kind_of, same_kind};
use goal_terms::terms::GenericArg;
use goal_terms::view::{Parts, TermRef};

/// What the type and const parameters of the right list stand for: themselves alone, or any terms of
/// their kinds.
#[derive(Clone, Copy, PartialEq, Eq)]
pub enum Parameters {
    Rigid,
    Inferred,
}

/// Whether two lists of arguments may become the same, where the parameters of both stand for themselves
/// alone. `false` says that the lists differ in length, or that two heads or two kinds differ at a place
/// which both reach through the same heads. Lifetimes never differ. An alias and an inference variable,
/// even one of integer or floating types, differ only from what is of another kind; what stands in an
/// alias isn't looked at.
pub fn args_may_unify_rigid(left: &[GenericArg], right: &[GenericArg]) -> bool
    ensures exact { result ≡ lists_may_unify Rigid (trees_of left.now) (trees_of right.now) }
{
    parts_may_unify(Parts::Args(left), Parts::Args(right), Parameters::Rigid)
}

/// Whether two lists of arguments may become the same, as [`args_may_unify_rigid`] says, but the type
/// and const parameters of the right list stand for any terms: each differs only from what is of another
/// kind. The left list's parameters stand for themselves alone.
pub fn args_may_unify_infer(left: &[GenericArg], right: &[GenericArg]) -> bool
    ensures exact { result ≡ lists_may_unify Inferred (trees_of left.now) (trees_of right.now) }
{
    parts_may_unify(Parts::Args(left), Parts::Args(right), Parameters::Inferred)
}

/// Whether a node stands for terms that are not known.
#[tactic(auto, unfolding(crate::specs::FastReject::is_open))]
pub(crate) fn is_open(node: Node, parameters: Parameters) -> bool
    ensures { result ≡ is_open parameters node }
{
    match (parameters, node) {
        (_, Node::Alias(_) | Node::Variable(_)) => true,
        (Parameters::Rigid, Node::Head(_)) => false,
        (Parameters::Inferred, Node::Head(head)) => {
            matches!(head, Head::TyParam(_) | Head::ConstParam(_))
        }
    }
}

/// Whether two terms may become the same.
#[cycle(walk)]
fn may_unify(left: TermRef<'_>, right: TermRef<'_>, parameters: Parameters) -> bool
    ensures { result ≡ may_unify parameters (tree_of_ref left.entry) (tree_of_ref right.entry) }
{
    let node = left.node();
    let other = right.node();
    let left_open = is_open(node, Parameters::Rigid);
    let right_open = is_open(other, parameters);
    if left_open || right_open {
        return same_kind(kind_of(node), kind_of(other));
    }
    if !node.is_same(other, Regions::Forgotten) {
        return false;
    }
    parts_may_unify(left.parts(), right.parts(), parameters)
}

/// Whether the parts of two terms may become the same, in pairs.
#[cycle(walk)]
fn parts_may_unify(left: Parts<'_>, right: Parts<'_>, parameters: Parameters) -> bool
    ensures { result ≡ lists_may_unify parameters (trees_seen left.entry) (trees_seen right.entry) }
{
    let count = left.len();
    if right.len() != count {
        return false;
    }
    for i in 0..count {
        if !may_unify(left.at(i), right.at(i), parameters) {
            return false;
        }
    }
    true
}
