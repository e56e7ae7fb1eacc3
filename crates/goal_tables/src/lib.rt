//! The tables of the solver: their rows, look-ups in them, and what may be wrong with them.
#![tactic(auto)]

pub mod faults;
pub mod fixed_params;
pub mod impl_lists;
pub mod impls_by_head;
pub mod index;
pub mod listings;
pub mod lookup;
pub mod param_kinds;
pub mod row;
pub mod rows;
pub mod specialized;
pub mod tables_index;

pub use goal_terms::lang;
