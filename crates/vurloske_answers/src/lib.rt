//! What a goal is answered: what its evaluation came to, and the words for it.
#![tactic(auto)]

pub mod answers;
