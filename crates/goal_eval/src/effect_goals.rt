//! What a closed host effect goal comes to.
pub mod evaluation;
