//! The solver: which term an alias stands for, and whether a trait holds.
#![tactic(auto)]

mod assembly;
pub mod comparison;
pub mod context;
pub mod effect_goals;
pub mod eval;
pub mod faults;
pub mod normalizes_to;
mod project_goals;
pub mod relate;
pub mod trait_goals;
