//! What may be derived and what may be refuted: the definitions that the solver's answers are proved
//! against, and the rule of each candidate and alias, as a list over numbers of a term table.
#![tactic(auto)]

pub mod builtin;
pub mod candidates;
pub mod fast_reject;
pub mod lists;
pub mod outcomes;
pub mod term_errors;
