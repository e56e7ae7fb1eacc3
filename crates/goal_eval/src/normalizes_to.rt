//! Which term a closed alias stands for.
pub mod alias_terms;
pub(crate) mod opaque_types;
pub mod projection_args;
pub mod projection_candidates;
pub mod projections;
