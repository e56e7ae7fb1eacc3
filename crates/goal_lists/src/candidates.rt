//! The candidates of a goal, as data over the numbers of a term table.
pub mod bounds;
pub mod environment;
pub(crate) mod fitting;
pub mod interned;
pub mod lists;
pub(crate) mod objects;
pub mod premises;
pub(crate) mod row_terms;
pub(crate) mod tops;
