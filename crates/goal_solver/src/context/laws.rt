//! The laws of going back, the contract of a function that does nothing.
ghost use Rattle.goal_solver.specs.GoingBack.{GoesBack};
ghost use Rattle.goal_solver.specs.State.{State};

/// Every context goes back to itself, and what goes back to a context that goes back to another goes
/// back to that.
pub fn going_back_composes()
    ensures itself { (s : State) → GoesBack s s }
    ensures through { (a b c : State) → GoesBack a b → GoesBack b c → GoesBack a c }
{}
