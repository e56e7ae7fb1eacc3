//! What the items, terms and goals of a text mean: its clauses, its environments and the rows of its items.
#![tactic(auto)]

pub mod clauses;
pub mod definitions;
pub mod environment;
pub mod goals;
pub mod names;
pub mod rows;
pub mod scope;
pub mod terms;
