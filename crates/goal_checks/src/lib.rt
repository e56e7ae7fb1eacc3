//! The check that accepts tables once, and what may be wrong in a goal over them.
#![tactic(auto)]

pub mod checked;
pub mod checker;
pub mod clauses;
pub mod faults;
pub mod flaws;
pub mod impl_faults;
pub mod kinds;
pub mod lang_faults;
pub mod params;
pub mod predicate_terms;
pub mod row_faults;
pub mod scopes;
pub mod sites;
pub mod sources;
pub mod trait_faults;
