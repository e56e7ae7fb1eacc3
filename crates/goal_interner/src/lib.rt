//! The table of terms: each distinct term stands in it once, and has a number.
#![tactic(auto)]

mod intern;
mod intern_under;
mod rebuild;
mod same_terms;
pub mod term_flags;
pub mod term_nodes;
pub mod term_table;
