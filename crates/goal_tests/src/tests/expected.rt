//! What a context is expected to answer, as constant data.
use goal_solver::faults::Fault;
use goal_terms::answers::Certainty;

/// How certain an answer is, or a fault.
pub type Expected = Result<Certainty, Fault>;

pub const YES: Expected = Ok(Certainty::Yes);

pub const MAYBE: Expected = Ok(Certainty::Maybe);

pub const NO: Expected = Err(Fault::NoSolution);
