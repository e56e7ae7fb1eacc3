//! What a table of terms is made of.
use goal_terms::heads::Node;
use std::alloc::{AllocError, AllocFailed};
use thiserror::Error;

/// The number of a term in a table.
#[derive(Clone, Copy, PartialEq, Eq, Hash)]
pub struct TermId(pub u32);

/// What stands at the top of a term, with the numbers of its parts.
#[derive(Drop, PartialEq, Eq, Hash)]
pub struct TermNode {
    pub node: Node,
    pub parts: Vec<TermId>,
}

/// A growth was refused, or a table would have had more numbers than a `u32` can tell apart.
#[derive(Clone, Copy, Debug, Error, PartialEq, Eq)]
#[error("out of memory")]
pub struct OutOfMemory;

impl From<AllocError> for OutOfMemory {
    fn from(_: AllocError) -> Self {
        OutOfMemory
    }
}

impl<T: Drop> From<AllocFailed<T>> for OutOfMemory {
    fn from(_: AllocFailed<T>) -> Self {
        OutOfMemory
    }
}
