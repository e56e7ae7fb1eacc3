//! Equality of terms, and headers that are matched.
pub mod equality;
pub mod header_args;
pub mod header_clashes;
pub mod header_parts;
pub mod header_places;
pub mod header_questions;
pub mod headers;
pub mod pairs;
pub mod region_pairs;
