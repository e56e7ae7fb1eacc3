//! What the names of a text are, and what its traits say through their supertraits.
#![tactic(auto)]

pub mod attributes;
pub mod builtins;
pub mod definitions;
pub mod elaboration;
pub mod faults;
pub mod modes;
pub mod prelude;
