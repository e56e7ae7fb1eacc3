//! The rules of a goal's candidates, as lists, class by class.
pub mod class_rules;
pub(crate) mod collecting;
pub mod group_rules;
