//! A small program: its tables and names, and what is asked of it.
#![tactic(auto)]

mod aliases;
pub mod asked_terms;
mod impls;
pub mod names;
pub mod settings;
pub mod tables;
mod traits;
pub mod types;
