//! Undoing of bindings.
ghost use Rattle.std.specs.Prelude.{◌≡◌, drop};
ghost use Rattle.goal_infer.specs.Undo.{unbound_at, unbound};

use goal_interner::term_nodes::TermId;
use goal_terms::answers::VarKind;

/// An inference variable: its kind, and the number of the term that it is bound to, if it is.
#[derive(Clone, Copy, PartialEq, Eq)]
pub struct InferVariable {
    pub kind: VarKind,
    pub binding: Option<TermId>,
}

/// Takes the binding from a variable, if there is one of the number.
fn unbind(variables: &mut Vec<InferVariable>, number: u32)
    ensures { variables.new.items ≡ unbound_at number variables.old.items }
{
    let place = number as usize;
    if place < variables.len() {
        variables[place].binding = None;
    }
}

/// Takes the bindings from some variables.
fn unbind_all(variables: &mut Vec<InferVariable>, numbers: &[u32])
    ensures { variables.new.items ≡ unbound numbers.now variables.old.items }
{
    for number in numbers {
        unbind(variables, *number);
    }
}

/// Takes the bindings from the variables of a trail, from a place of it on.
pub(crate) fn unbind_from(variables: &mut Vec<InferVariable>, trail: &[u32], from: usize)
    ensures { variables.new.items ≡ unbound (drop from trail.now) variables.old.items }
{
    if from < trail.len() {
        unbind_all(variables, &trail[from..]);
    }
}
