//! What is found of several questions, as one.
ghost use Rattle.goal_eval.specs.Outcomes.{FoundIn};
ghost use Rattle.goal_eval.specs.ProjectionParts.{MergesTo};

use crate::eval::outcomes::Found;
use goal_interner::term_table::TermTable;

/// What two candidates give together: both have to give one term, lifetimes aside, where they give one.
pub(crate) fn merge_terms(terms: &TermTable, first: Found, second: Found) -> Found
    requires first { FoundIn terms.now first }
    requires second { FoundIn terms.now second }
    ensures { MergesTo terms.now first second result }
{
    match first {
        Found::Undecided => Found::Undecided,
        Found::Refuted => second,
        Found::Is(term) => match second {
            Found::Undecided => Found::Undecided,
            Found::Refuted => Found::Is(term),
            Found::Is(other) => {
                if terms.same_erased(term, other) {
                    Found::Is(term)
                } else {
                    Found::Undecided
                }
            }
        },
    }
}
