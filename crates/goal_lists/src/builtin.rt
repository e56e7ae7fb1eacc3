//! What is built in: what each lang trait asks for, and what its items stand for.
pub(crate) mod call_premises;
pub(crate) mod calls;
pub(crate) mod const_calls;
pub(crate) mod constituents;
pub mod consts;
pub(crate) mod copy_clone;
pub(crate) mod destruct;
pub(crate) mod item_terms;
pub(crate) mod made_terms;
pub(crate) mod markers;
pub(crate) mod outputs;
pub(crate) mod sized;
pub mod terms;
pub mod traits;
