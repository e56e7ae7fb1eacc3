//! Kinds of goals, and the rules of their candidates and of aliases over terms; and the laws of what may be
//! derived and refuted.
#![tactic(auto)]

pub mod assembly;
pub mod faults;
pub mod goal_kind;
pub mod laws;
pub mod rules;

pub use goal_lists::fast_reject;
