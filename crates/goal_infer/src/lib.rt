//! The state of inference: variables with what they are bound to, region equations, and a trail by
//! which changes are undone.
#![tactic(auto)]

pub mod bindings;
pub mod followed;
pub mod fresh_lifetimes;
pub mod laws;
pub mod occurs;
pub mod region_equations;
pub mod renumbering;
pub mod resolve;
pub mod same_resolved;
pub mod state;
pub mod undo;
pub mod unify;
pub mod unify_all;
