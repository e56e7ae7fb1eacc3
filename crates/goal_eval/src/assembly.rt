//! Candidates: what a class of them comes to.
pub mod candidates;
pub mod merging;
pub mod specialized;
