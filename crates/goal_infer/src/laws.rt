//! Laws, each the contract of a function that does nothing.
ghost use Rattle.std.specs.Prelude.{◌≡◌, ◌≢◌, ◌<◌, ◌↔◌, IsTrue, length, List, [], ◌∷◌, ◌++◌, Some, None};
ghost use Rattle.goal_terms.specs.Tree.{Tree};
ghost use Rattle.goal_interner.specs.TableMeaning.{Keeps};
ghost use Rattle.goal_terms.specs.declared.heads.Variable.{Variable};
ghost use Rattle.goal_interner.specs.declared.term_nodes.TermId.{TermId};
ghost use Rattle.goal_terms.specs.declared.terms.Region.{Region};
ghost use Rattle.goal_infer.specs.Binding.{IsBound};
ghost use Rattle.goal_infer.specs.Inference.{Inference, GoesBack};
ghost use Rattle.goal_infer.specs.Replacement.{OfKinds};
ghost use Rattle.goal_infer.specs.Resolution.{binding_of, resolved, Agrees, IsSolved};
ghost use Rattle.goal_infer.specs.Unification.{is_made_in};
ghost use Rattle.goal_infer.specs.declared.undo.InferVariable.{InferVariable};

/// Every state goes back to itself, and what goes back to a state that goes back to another goes back
/// to that.
pub fn going_back_composes()
    ensures itself { (s : Inference) → GoesBack s s }
    ensures through { (a b c : Inference) → GoesBack a b → GoesBack b c → GoesBack a c }
{}

/// A state without variables is solved. So is a solved state with one more variable or equation, and
/// over a table that has grown.
pub fn solved_states()
    ensures first { (T : List Tree) → IsSolved T (record { variables = []; trail = []; equations = [] }) }
    ensures variable { (T : List Tree) (s : Inference) (v : InferVariable) → v.binding ≡ None → IsSolved T s →
        IsSolved T (record s { variables = s.variables ++ v ∷ [] }) }
    ensures equation { (T : List Tree) (s : Inference) (e : Region × Region) → IsSolved T s →
        IsSolved T (record s { equations = s.equations ++ e ∷ [] }) }
    ensures table { (T U : List Tree) (s : Inference) → Keeps T U → IsSolved T s → IsSolved U s }
{}

/// Over a table that has grown, a solved state says of replacements and of the terms that were there what
/// it said before.
pub fn growth_changes_nothing()
    ensures agreement { (T U : List Tree) (s : Inference) → Keeps T U → IsSolved T s →
        (ρ : Variable → Tree) → Agrees U s ρ ↔ Agrees T s ρ }
    ensures terms { (T U : List Tree) (s : Inference) → Keeps T U → IsSolved T s →
        (id : TermId) → id.0 < length T → resolved U s id ≡ resolved T s id }
{}

/// For the variables of a solved state there are trees, of their kinds, with which each bound one is the
/// term that it is bound to.
pub fn solved_states_can_be_met()
    ensures { (T : List Tree) (s : Inference) → IsSolved T s →
        (ρ : Variable → Tree) × OfKinds ρ × Agrees T s ρ }
{}

/// A variable that was made and got a binding is bound to its number, and every other variable, with
/// another number or of another kind, is bound as it was.
pub fn one_binding_changes_one_variable()
    ensures own { (T : List Tree) (before after : Inference) (v : Variable) (id : TermId) → IsTrue (is_made_in before v) →
        (bound : IsBound T before after v id) → binding_of after v ≡ Some bound.root }
    ensures others { (T : List Tree) (before after : Inference) (v : Variable) (id : TermId) → IsTrue (is_made_in before v) →
        IsBound T before after v id → (w : Variable) → w ≢ v → binding_of after w ≡ binding_of before w }
{}
