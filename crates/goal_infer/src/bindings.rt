//! Binding of one variable.
ghost use Rattle.std.specs.Prelude.{◌≡◌, ◌↔◌, ◌<◌, length, IsTrue, OnOk, OnErr, None};
ghost use Rattle.goal_interner.specs.TableMeaning.{tree_at};
ghost use Rattle.goal_terms.specs.Tree.{node_of};
ghost use Rattle.goal_infer.specs.Binding.{IsBound, MayBecome, bound_to};
ghost use Rattle.goal_infer.specs.Occurrence.{place_of};
ghost use Rattle.goal_infer.specs.Replacement.{takes};
ghost use Rattle.goal_infer.specs.Resolution.{binding_at, binding_of, resolved, IsSolved};
ghost use Rattle.goal_infer.specs.Unification.{is_made_in, Becomes, IsUnified, Advances};
ghost use Rattle.goal_infer.specs.declared.occurs.Occurrence.TheVariants.{Nowhere};
ghost use Rattle.goal_infer.specs.declared.unify.Unified.TheVariants.{Yes};

use crate::occurs::{Occurrence, occurs};
use crate::resolve::{number, resolve};
use crate::state::InferState;
use crate::unify::{may_be, was_made};
use goal_interner::term_nodes::{OutOfMemory, TermId};
use goal_interner::term_table::TermTable;
use goal_terms::heads::Variable;

/// Binds an unbound variable to a term as it stands after the bindings, which it may stand for and in
/// which it doesn't stand. The state then says what it said before, and that the variable is the term;
/// no other variable gets a binding. It is bound to the term itself, if that is no bound variable. Want of
/// memory is the only refusal, and then the state stays as it was.
pub fn bind_term(
    table: &TermTable,
    state: &mut InferState,
    variable: Variable,
    id: TermId,
) -> Result<(), OutOfMemory>
    requires within { id.0 < length table.now }
    requires solved { IsSolved table.now state.old }
    requires made { IsTrue (is_made_in state.old variable) }
    requires unbound { binding_of state.old variable ≡ None }
    requires takes { IsTrue (takes variable (node_of (resolved table.now state.old id))) }
    requires free { place_of variable (resolved table.now state.old id) ≡ Nowhere }
    ensures advances { OnOk result (Advances table.now state.old state.new) }
    ensures answer { OnOk result (IsUnified table.now state.old state.new (Becomes table.now variable id) Yes) }
    ensures bound { OnOk result (IsBound table.now state.old state.new variable id) }
    ensures itself { binding_at state.old (node_of (tree_at table.now id)) ≡ None → OnOk result (state.new ≡ bound_to state.old variable id) }
    ensures unchanged { OnErr result (state.new ≡ state.old) }
{
    let root = resolve(table, state, id);
    state.bind(number(variable), root)
}

/// Whether a variable can be bound to a term: it was made, may stand for it, and doesn't stand in it, bindings
/// followed. It takes no memory.
pub fn may_become(table: &TermTable, state: &InferState, variable: Variable, id: TermId) -> bool
    requires within { id.0 < length table.now }
    requires solved { IsSolved table.now state.now }
    ensures { IsTrue result ↔ MayBecome table.now state.now variable id }
{
    let root = resolve(table, state, id);
    if !was_made(state, variable) {
        return false;
    }
    if !may_be(variable, table.node(root)) {
        return false;
    }
    is_nowhere(occurs(table, state, variable, id))
}

/// Whether a variable stands at no place.
fn is_nowhere(place: Occurrence) -> bool
    ensures { IsTrue result ↔ (place ≡ Nowhere) }
{
    matches!(place, Occurrence::Nowhere)
}
