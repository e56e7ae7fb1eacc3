//! What a closed trait goal comes to.
pub mod evaluation;
