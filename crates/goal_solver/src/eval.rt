//! Evaluation: how deep a goal is gone into, what it comes to, and running the lists of rules.
pub mod added_evaluation;
pub(crate) mod closed_goals;
pub(crate) mod conclusions;
pub(crate) mod evaluations;
pub(crate) mod free_variables;
pub(crate) mod goal_outcomes;
pub mod goals;
pub(crate) mod instantiated;
pub(crate) mod open_forms;
pub(crate) mod open_terms;
pub mod predicate_views;
pub(crate) mod questions;
pub(crate) mod recalled;
pub(crate) mod reruns;
pub mod run_rule;
pub mod structural;
pub(crate) mod where_goals;
