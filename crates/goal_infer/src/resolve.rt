//! What a term is after the bindings of its variables.
ghost use Rattle.std.specs.Prelude.{◌≡◌, ◌<◌, length, None};
ghost use Rattle.goal_terms.specs.NodeTests.{same_var_kind};
ghost use Rattle.goal_terms.specs.Tree.{node_of};
ghost use Rattle.goal_interner.specs.TableMeaning.{tree_at};
ghost use Rattle.goal_infer.specs.Replacement.{number_of, kind_of_variable};
ghost use Rattle.goal_infer.specs.Resolution.{binding_of, binding_at, resolved, IsSolved};

use crate::state::InferState;
use goal_interner::term_nodes::TermId;
use goal_interner::term_table::TermTable;
use goal_terms::answers::VarKind;
use goal_terms::heads::{Node, Variable};
use goal_terms::terms::InferTy;

pub(crate) fn same_kind(kind: VarKind, other: VarKind) -> bool
    ensures { result ≡ same_var_kind kind other }
{
    match kind {
        VarKind::Ty => matches!(other, VarKind::Ty),
        VarKind::Int => matches!(other, VarKind::Int),
        VarKind::Float => matches!(other, VarKind::Float),
        VarKind::Const => matches!(other, VarKind::Const),
        VarKind::Region => matches!(other, VarKind::Region),
    }
}

/// The number of a variable among all.
pub fn number(variable: Variable) -> u32
    ensures { result ≡ number_of variable }
{
    match variable {
        Variable::Ty(InferTy::TyVar(number)) => number,
        Variable::Ty(InferTy::IntVar(number)) => number,
        Variable::Ty(InferTy::FloatVar(number)) => number,
        Variable::Const(number) => number,
    }
}

/// What a variable stands for.
pub fn kind(variable: Variable) -> VarKind
    ensures { result ≡ kind_of_variable variable }
{
    match variable {
        Variable::Ty(InferTy::TyVar(_)) => VarKind::Ty,
        Variable::Ty(InferTy::IntVar(_)) => VarKind::Int,
        Variable::Ty(InferTy::FloatVar(_)) => VarKind::Float,
        Variable::Const(_) => VarKind::Const,
    }
}

/// The number of the term that a variable is bound to. It is nothing where the variable is unbound,
/// was not made, or was made with another kind.
pub fn binding(state: &InferState, variable: Variable) -> Option<TermId>
    ensures { result ≡ binding_of state.now variable }
{
    let place = number(variable);
    if place as usize >= state.len() {
        return None;
    }
    let found = state.variable(place);
    if same_kind(found.kind, kind(variable)) {
        found.binding
    } else {
        None
    }
}

/// What a node is bound to, if it is a bound variable.
fn binding_of_node(state: &InferState, node: Node) -> Option<TermId>
    ensures { result ≡ binding_at state.now node }
{
    match node {
        Node::Variable(variable) => binding(state, variable),
        _ => None,
    }
}

/// The number of a term that is no bound variable, and is the same as that of `id` once each variable
/// is replaced by what it is bound to. Only the top of the term is looked at, and it takes no memory.
pub fn resolve(table: &TermTable, state: &InferState, id: TermId) -> TermId
    requires within { id.0 < length table.now }
    requires solved { IsSolved table.now state.now }
    ensures within { result.0 < length table.now }
    ensures unbound { binding_at state.now (node_of (tree_at table.now result)) ≡ None }
    ensures same { resolved table.now state.now result ≡ resolved table.now state.now id }
    ensures itself { binding_at state.now (node_of (tree_at table.now id)) ≡ None → result ≡ id }
{
    let mut current = id;
    for _ in 0..state.len() {
        match binding_of_node(state, table.node(current)) {
            Some(next) => current = next,
            None => return current,
        }
    }
    current
}
