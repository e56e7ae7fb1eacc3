pub use goal_kinds::faults::Fault;
use thiserror::Error;

/// A depth limit above 128.
#[derive(Clone, Copy, Debug, PartialEq, Eq, Error)]
#[error("the depth limit is above 128")]
pub struct DepthTooLarge;
