//! What stands in a term.
ghost use Rattle.std.specs.Prelude.{◌≡◌};
ghost use Rattle.goal_terms.specs.View.{tree_of_ref};
ghost use Rattle.goal_terms.specs.NodeTests.{same_var_kind, is_made, region_is_unmade, is_unmade, general_variable_at, has_number, is_infer, is_any_infer, is_error, passes, is_left_out, some_node, some_node_within};

use crate::answers::VarKind;
use crate::heads::{Head, Node, Variable};
use crate::regions::region_of;
use crate::terms::{InferTy, Region};
use crate::view::TermRef;

/// A test of what stands at a place of a term.
#[derive(Clone, Copy)]
pub enum NodeTest<'a> {
    /// A variable that isn't among these, or is of another kind there.
    Unmade(&'a [VarKind]),
    /// The general variable of this number.
    IsVariable(u32),
    /// This inference variable.
    IsInfer(Variable),
    /// Any inference variable. Region variables do not count.
    IsAnyInfer,
    /// A type or a constant that is an error.
    IsError,
}

/// Where a test looks.
#[derive(Clone, Copy)]
pub enum Within {
    Everything,
    /// Neither at an alias nor in its arguments.
    OutsideAliases,
}

fn same_var_kind_as(kind: VarKind, other: VarKind) -> bool
    ensures { result ≡ same_var_kind kind other }
{
    match kind {
        VarKind::Ty => matches!(other, VarKind::Ty),
        VarKind::Int => matches!(other, VarKind::Int),
        VarKind::Float => matches!(other, VarKind::Float),
        VarKind::Const => matches!(other, VarKind::Const),
        VarKind::Region => matches!(other, VarKind::Region),
    }
}

#[tactic(auto, using(crate::proofs::NodeTestLemmas::making))]
fn is_made_among(made: &[VarKind], number: u32, kind: VarKind) -> bool
    ensures { result ≡ is_made made.now number kind }
{
    let place = number as usize;
    if place >= made.len() {
        return false;
    }
    same_var_kind_as(made[place], kind)
}

fn region_is_unmade_among(made: &[VarKind], region: Option<Region>) -> bool
    ensures { result ≡ region_is_unmade made.now region }
{
    match region {
        Some(Region::Var(number)) => !is_made_among(made, number, VarKind::Region),
        _ => false,
    }
}

fn is_unmade_among(made: &[VarKind], node: Node) -> bool
    ensures { result ≡ is_unmade made.now node }
{
    match node {
        Node::Variable(Variable::Ty(InferTy::TyVar(number))) => {
            !is_made_among(made, number, VarKind::Ty)
        }
        Node::Variable(Variable::Ty(InferTy::IntVar(number))) => {
            !is_made_among(made, number, VarKind::Int)
        }
        Node::Variable(Variable::Ty(InferTy::FloatVar(number))) => {
            !is_made_among(made, number, VarKind::Float)
        }
        Node::Variable(Variable::Const(number)) => !is_made_among(made, number, VarKind::Const),
        Node::Head(_) => region_is_unmade_among(made, region_of(node)),
        Node::Alias(_) => false,
    }
}

/// The number of a general variable.
pub fn general_variable(node: Node) -> Option<u32>
    ensures { result ≡ general_variable_at node }
{
    match node {
        Node::Variable(Variable::Ty(InferTy::TyVar(number))) => Some(number),
        Node::Variable(Variable::Const(number)) => Some(number),
        _ => None,
    }
}

fn is_number(number: u32, found: Option<u32>) -> bool
    ensures { result ≡ has_number number found }
{
    match found {
        Some(other) => other == number,
        None => false,
    }
}

#[tactic(auto, unfolding(crate::specs::SameTree::same_node))]
fn is_this_infer(variable: Variable, node: Node) -> bool
    ensures { result ≡ is_infer variable node }
{
    node == Node::Variable(variable)
}

fn is_some_infer(node: Node) -> bool
    ensures { result ≡ is_any_infer node }
{
    match node {
        Node::Head(_) => false,
        Node::Alias(_) => false,
        Node::Variable(_) => true,
    }
}

fn is_some_error(node: Node) -> bool
    ensures { result ≡ is_error node }
{
    match node {
        Node::Head(Head::TyError(_)) => true,
        Node::Head(Head::ConstError(_)) => true,
        _ => false,
    }
}

impl Within {
    /// Whether a test doesn't look at a node, nor at what stands in it.
    pub fn leaves_out(self, node: Node) -> bool
        ensures { result ≡ is_left_out self node }
    {
        match (self, node) {
            (Within::OutsideAliases, Node::Alias(_)) => true,
            _ => false,
        }
    }
}

impl NodeTest<'_> {
    /// Whether what stands at a place passes.
    pub fn passes(self, node: Node) -> bool
        ensures { result ≡ passes self.entry node }
    {
        match self {
            NodeTest::Unmade(made) => is_unmade_among(made, node),
            NodeTest::IsVariable(number) => is_number(number, general_variable(node)),
            NodeTest::IsInfer(variable) => is_this_infer(variable, node),
            NodeTest::IsAnyInfer => is_some_infer(node),
            NodeTest::IsError => is_some_error(node),
        }
    }

    /// Whether something in a term passes.
    pub fn passes_in(self, term: TermRef<'_>) -> bool
        ensures { result ≡ some_node (passes self.entry) (tree_of_ref term.entry) }
    {
        self.passes_within(Within::Everything, term)
    }

    #[tactic(auto, using(crate::proofs::NodeTestLemmas::testing))]
    /// Whether something in a term passes, where the test is to look.
    pub fn passes_within(self, within: Within, term: TermRef<'_>) -> bool
        ensures { result ≡ some_node_within within (passes self.entry) (tree_of_ref term.entry) }
    {
        let node = term.node();
        if within.leaves_out(node) {
            return false;
        }
        if self.passes(node) {
            return true;
        }
        let parts = term.parts();
        for i in 0..parts.len() {
            if self.passes_within(within, parts.at(i)) {
                return true;
            }
        }
        false
    }
}
