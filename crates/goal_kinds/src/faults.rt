//! Why a goal gets no answer.
use goal_interner::term_nodes::OutOfMemory;
use thiserror::Error;

/// Why a goal gets no answer.
#[derive(Clone, Copy, Debug, PartialEq, Eq, Error)]
pub enum Fault {
    /// The goal is refuted.
    #[error("no solution")]
    NoSolution = 1,
    /// The erased mode doesn't suffice.
    #[error("to be run again in another mode")]
    RerunNonErased = 2,
    /// A growth was refused.
    #[error("out of memory")]
    OutOfMemory = 3,
    /// A rule was called for a kind of goal that it isn't for.
    #[error("not for this kind of goal")]
    NotForThisKind = 4,
}

impl From<OutOfMemory> for Fault {
    ghost use Rattle.std.specs.Prelude.{◌≡◌};
    ghost use Rattle.goal_kinds.specs.declared.faults.Fault.TheVariants as fault;

    ghost from_gives = { λ _ e. e ≡ fault.OutOfMemory };

    fn from(_: OutOfMemory) -> Self {
        Fault::OutOfMemory
    }
}
