//! The terms of the solver: types, constants, regions and what is made of them.
#![tactic(auto)]

pub mod answers;
mod binders;
mod closed;
pub mod compare;
mod copy;
mod equality;
pub mod fold;
pub mod foldable;
pub mod folders;
pub mod heads;
pub mod ids;
pub mod instantiate;
pub mod kinds;
pub mod lang;
pub mod modes;
pub mod node_tests;
mod occurrences;
pub mod predicates;
pub mod regions;
pub mod scalars;
pub mod slices;
pub mod sorts;
pub mod terms;
pub mod view;
