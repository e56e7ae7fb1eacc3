//! Unification of terms, as far as their structure goes.
ghost use Rattle.std.specs.Prelude.{◌≡◌, ◌≢◌, ◌<◌, ◌||◌, length, IsTrue, IfOk, None};
ghost use Rattle.goal_terms.specs.Tree.{node_of};
ghost use Rattle.goal_interner.specs.TableMeaning.{tree_at};
ghost use Rattle.goal_infer.specs.Replacement.{takes, is_integer, is_floating};
ghost use Rattle.goal_infer.specs.Resolution.{binding_at, binding_of, IsSolved};
ghost use Rattle.goal_infer.specs.Unification.{IsOther, Becomes, MakesSame, IsUnified, Advances};
ghost use Rattle.goal_infer.specs.Unification.{is_made_in, taker, is_alias, TopsSay, TopsDecide};
ghost use Rattle.goal_infer.specs.Unification.{BindingDecides, IsDecided, IsDecidedWherePlain};
ghost use Rattle.goal_infer.specs.Unification.{sides, TopsIdentify, IsIdentified};
ghost use Rattle.goal_infer.specs.Unification.{TopsClash, IsClashing, IsUntouched};

use crate::occurs::{Occurrence, occurs};
use crate::resolve::{kind, number, resolve, same_kind};
use crate::same_resolved::same_resolved;
use crate::state::InferState;
use goal_interner::term_nodes::{OutOfMemory, TermId};
use goal_interner::term_table::TermTable;
use goal_terms::compare::Regions;
use goal_terms::heads::{Head, Node, Variable};
use goal_terms::sorts::Sort;
use goal_terms::terms::InferTy;

/// Whether two terms were made the same.
#[derive(Clone, Copy, PartialEq, Eq)]
pub enum Unified {
    Yes,
    Undecided,
    No,
}

fn is_integer_type(node: Node) -> bool
    ensures { result ≡ is_integer node }
{
    match node {
        Node::Head(Head::Int(_)) | Node::Head(Head::Uint(_)) => true,
        Node::Variable(Variable::Ty(InferTy::IntVar(_))) => true,
        _ => false,
    }
}

fn is_floating_type(node: Node) -> bool
    ensures { result ≡ is_floating node }
{
    match node {
        Node::Head(Head::Float(_)) => true,
        Node::Variable(Variable::Ty(InferTy::FloatVar(_))) => true,
        _ => false,
    }
}

/// Whether a variable may stand for what has this node at its top.
#[tactic(auto, unfolding(crate::specs::Replacement::takes))]
pub(crate) fn may_be(variable: Variable, node: Node) -> bool
    ensures { result ≡ takes variable node }
{
    match variable {
        Variable::Ty(InferTy::TyVar(_)) => matches!(node.sort(), Sort::Ty),
        Variable::Ty(InferTy::IntVar(_)) => is_integer_type(node),
        Variable::Ty(InferTy::FloatVar(_)) => is_floating_type(node),
        Variable::Const(_) => matches!(node.sort(), Sort::Const),
    }
}

/// Whether a variable was made, with its kind.
pub(crate) fn was_made(state: &InferState, variable: Variable) -> bool
    ensures { result ≡ is_made_in state.now variable }
{
    let place = number(variable);
    if place as usize >= state.len() {
        return false;
    }
    same_kind(state.variable(place).kind, kind(variable))
}

/// Binds an unbound variable to another, resolved term that it may stand for, if it doesn't stand in it.
fn bind_resolved(
    table: &TermTable,
    state: &mut InferState,
    variable: Variable,
    id: TermId,
) -> Result<Unified, OutOfMemory>
    requires within { id.0 < length table.now }
    requires solved { IsSolved table.now state.old }
    requires unbound { binding_of state.old variable ≡ None }
    requires ended { binding_at state.old (node_of (tree_at table.now id)) ≡ None }
    requires other { IsOther table.now variable id }
    requires takes { IsTrue (takes variable (node_of (tree_at table.now id))) }
    ensures advances { Advances table.now state.old state.new }
    ensures answer { IfOk result
        (λ u. IsUnified table.now state.old state.new (Becomes table.now variable id) u) }
    ensures decided { IfOk result (λ u. BindingDecides table.now state.old state.new variable id u) }
{
    match occurs(table, state, variable, id) {
        Occurrence::Outside => Ok(Unified::No),
        Occurrence::InAliasesAlone => Ok(Unified::Undecided),
        Occurrence::Nowhere => {
            if !was_made(state, variable) {
                return Ok(Unified::Undecided);
            }
            state.bind(number(variable), id)?;
            Ok(Unified::Yes)
        }
    }
}

/// The variable at the first node, if it may stand for what has the second at its top.
fn taking(node: Node, other: Node) -> Option<Variable>
    ensures { result ≡ taker node other }
{
    match node {
        Node::Variable(variable) if may_be(variable, other) => Some(variable),
        _ => None,
    }
}

/// Whether one of two nodes is an alias.
fn either_alias(node: Node, other: Node) -> bool
    ensures { result ≡ is_alias node || is_alias other }
{
    matches!(node, Node::Alias(_)) || matches!(other, Node::Alias(_))
}

/// What the tops of two resolved terms say: an answer, or nothing where both have one constructor and
/// their parts decide.
fn unify_tops(
    table: &TermTable,
    state: &mut InferState,
    left: TermId,
    right: TermId,
) -> Result<Option<Unified>, OutOfMemory>
    requires first { left.0 < length table.now }
    requires second { right.0 < length table.now }
    requires solved { IsSolved table.now state.old }
    requires first_ended { binding_at state.old (node_of (tree_at table.now left)) ≡ None }
    requires second_ended { binding_at state.old (node_of (tree_at table.now right)) ≡ None }
    ensures advances { Advances table.now state.old state.new }
    ensures answer { IfOk result (λ u. TopsSay table.now state.old state.new left right u) }
    ensures plain { IfOk result (λ u. TopsDecide table.now state.old state.new left right u) }
    ensures identified { IfOk result (λ u. TopsIdentify table.now state.old state.new left right u) }
    ensures clash { IfOk result (λ u. TopsClash table.now state.old left right u) }
    ensures closed { IsUntouched table.now state.old state.new left right }
{
    if table.same_term(left, right) {
        return Ok(Some(Unified::Yes));
    }
    let node = table.node(left);
    let other = table.node(right);
    if let Some(variable) = taking(node, other) {
        let bound = bind_resolved(table, state, variable, right)?;
        return Ok(Some(bound));
    }
    if let Some(variable) = taking(other, node) {
        let bound = bind_resolved(table, state, variable, left)?;
        return Ok(Some(bound));
    }
    if either_alias(node, other) {
        return Ok(Some(if same_resolved(table, state, left, right) {
            Unified::Yes
        } else {
            Unified::Undecided
        }));
    }
    if node.is_same(other, Regions::Forgotten) {
        Ok(None)
    } else {
        Ok(Some(Unified::No))
    }
}

/// Makes two terms of a table the same, as far as their structure goes: lifetimes do not count, and no
/// alias is looked into. It binds a variable only where the terms can be the same in no other way.
///
/// `Yes`: what the state now says is what it said before, and that the terms are the same. `Undecided`:
/// an alias, or a variable that wasn't made, stands in the way; what was bound is so wherever the terms
/// are the same. `No`: they never are, whatever stands for the unbound variables. Where neither term
/// holds an alias or a variable that wasn't made, it is not `Undecided`; nor is it where such things
/// stand only at places at which the terms are identical, or below constructors that differ. Terms that
/// are identical after the bindings are `Yes`, and nothing is bound. Between terms without variables
/// nothing is ever bound, and `No` comes only of two constructors that differ at a place that both
/// reach through the same constructors, or of parts that differ in number.
///
/// `OutOfMemory` where the state could not grow; it may have got some of the bindings. After that, and
/// after each answer, the state goes back by a rollback to what it was before the call.
pub fn unify(
    table: &TermTable,
    state: &mut InferState,
    left: TermId,
    right: TermId,
) -> Result<Unified, OutOfMemory>
    requires first { left.0 < length table.now }
    requires second { right.0 < length table.now }
    requires solved { IsSolved table.now state.old }
    ensures advances { Advances table.now state.old state.new }
    ensures answer { IfOk result
        (λ u. IsUnified table.now state.old state.new (MakesSame table.now left right) u) }
    ensures decided { IfOk result (λ u. IsDecided table.now state.old state.new (sides left right) u) }
    ensures plain { IfOk result
        (λ u. IsDecidedWherePlain table.now state.old state.new (sides left right) u) }
    ensures identified { IfOk result (λ u. IsIdentified table.now state.old state.new (sides left right) u) }
    ensures clash { IfOk result (λ u. IsClashing table.now state.old left right u) }
    ensures closed { IsUntouched table.now state.old state.new left right }
{
    let left = resolve(table, state, left);
    let right = resolve(table, state, right);
    if let Some(answer) = unify_tops(table, state, left, right)? {
        return Ok(answer);
    }
    let parts = table.parts(left);
    let others = table.parts(right);
    let count = parts.len();
    if others.len() != count {
        return Ok(Unified::No);
    }
    let mut answer = Unified::Yes;
    for i in 0..count {
        match unify(table, state, parts[i], others[i])? {
            Unified::Yes => {}
            Unified::Undecided => answer = Unified::Undecided,
            Unified::No => return Ok(Unified::No),
        }
    }
    Ok(answer)
}
