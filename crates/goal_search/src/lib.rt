//! Goals with inference variables that others ask: which of them are being answered, and what is known of others.
#![tactic(auto)]

pub mod canonical;
pub mod search_graph;
pub mod written_out;
