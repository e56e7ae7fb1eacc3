//! Evaluation of closed goals: what an evaluation leaves, keeps and answers, and running lists.
pub mod effects;
pub mod entering;
pub mod evaluation_cache;
pub mod head_forms;
pub mod id_lists;
pub mod instances;
pub mod interning;
pub mod listed_regions;
pub mod lists;
pub mod mode_tests;
pub mod outcomes;
pub mod premises;
pub mod region_constraints;
pub mod region_effects;
pub(crate) mod row_values;
pub mod self_types;
