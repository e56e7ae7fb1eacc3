//! What a text says, as it stands: its nodes, the tokens that they are made of, and what is wrong with it.
#![tactic(auto)]

pub mod ast;
pub mod mistake;
pub mod phrase;
pub mod token;
