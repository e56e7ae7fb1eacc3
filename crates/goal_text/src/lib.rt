//! How terms are written, and the names by which they are.
#![tactic(auto)]

mod lifetime_text;
pub mod names;
mod object_text;
mod row_text;
mod scalar_text;
pub mod text;
