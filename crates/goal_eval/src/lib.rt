//! The evaluation of closed goals: which term an alias stands for, and whether a trait holds.
#![tactic(auto)]

pub mod assembly;
pub mod effect_goals;
pub mod eval;
pub mod normalizes_to;
pub mod relate;
pub mod trait_goals;
