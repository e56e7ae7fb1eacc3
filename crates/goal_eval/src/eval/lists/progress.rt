//! How far a list of entries was run.
ghost use Rattle.std.specs.Prelude.{◌≡◌, [], true, false, IfOk, None};
ghost use Rattle.goal_eval.specs.Lists.{TakenIn, NamesOn, run_asking, reached_asking, TakesOn, GivesOn, reached_giving};
ghost use Rattle.goal_lists.specs.Interned.{IsIn};
ghost use Rattle.goal_eval.specs.Outcomes.{FoundIn};

use crate::eval::lists::ListOutcome;
use crate::eval::outcomes::{Found, HeaderMatch};
use goal_interner::term_nodes::{OutOfMemory, TermId};
use goal_interner::term_table::TermTable;
use goal_lists::outcomes::Outcome;
use std::alloc::Global;

/// How far a list of entries was run: the lists of arguments that were named so far, whether all entries so
/// far hold, and the term that was found.
#[derive(Drop)]
pub struct ListRun {
    pub named: Vec<Vec<TermId>>,
    pub holds: bool,
    pub term: Option<TermId>,
}

/// Where an entry leads: to the next one, or to what the whole list comes to.
#[derive(Clone, Copy)]
pub enum Reached {
    Next,
    Refuted,
    Undecided,
}

impl ListRun {
    /// A run before the first entry.
    pub fn new(alloc: Global) -> ListRun
        ensures named { result.named.items ≡ [] }
        ensures holds { result.holds ≡ true }
        ensures term { result.term ≡ None }
    {
        ListRun {
            named: Vec::new(alloc),
            holds: true,
            term: None,
        }
    }

    /// Goes on after an entry that names arguments.
    pub fn name(&mut self, found: HeaderMatch) -> Result<Reached, OutOfMemory>
        ensures { IfOk result (λ r. NamesOn found self.old self.new r) }
    {
        match found {
            HeaderMatch::Clashes => Ok(Reached::Refuted),
            HeaderMatch::Unknown => Ok(Reached::Undecided),
            HeaderMatch::Fits(args) => {
                self.named.push(args)?;
                Ok(Reached::Next)
            }
            HeaderMatch::Known(args) => {
                self.named.push(args)?;
                self.holds = false;
                Ok(Reached::Next)
            }
        }
    }

    /// Goes on after an entry that has to hold.
    pub fn ask(&mut self, outcome: Outcome) -> Reached
        ensures run { self.new ≡ run_asking outcome self.old }
        ensures reached { result ≡ reached_asking outcome }
    {
        match outcome {
            Outcome::Holds => Reached::Next,
            Outcome::Refuted => Reached::Refuted,
            Outcome::Undecided => {
                self.holds = false;
                Reached::Next
            }
        }
    }

    /// Goes on after an entry for the expected term.
    pub(crate) fn give(&mut self, terms: &TermTable, found: Found) -> Reached
        requires term { TakenIn terms.now self.old.term }
        requires found { FoundIn terms.now found }
        ensures run { GivesOn terms.now found self.old self.new }
        ensures reached { result ≡ reached_giving found }
    {
        match found {
            Found::Refuted => Reached::Refuted,
            Found::Undecided => {
                self.holds = false;
                Reached::Next
            }
            Found::Is(id) => {
                self.take(terms, id);
                Reached::Next
            }
        }
    }

    /// Takes a term for the expected one. One that is found second, and is another, leaves the list undecided.
    fn take(&mut self, terms: &TermTable, id: TermId)
        requires term { TakenIn terms.now self.old.term }
        requires found { IsIn terms.now id }
        ensures { TakesOn terms.now id self.old.term self.old self.new }
    {
        match self.term {
            None => self.term = Some(id),
            Some(first) => {
                if !terms.same_erased(first, id) {
                    self.holds = false;
                }
            }
        }
    }

    /// What the list comes to where all of it was run.
    pub fn outcome(&self) -> ListOutcome
        ensures holds { self.now.holds ≡ true → result ≡ ListOutcome.Holds self.now.term }
        ensures undecided { self.now.holds ≡ false → result ≡ ListOutcome.Undecided }
    {
        if self.holds {
            ListOutcome::Holds(self.term)
        } else {
            ListOutcome::Undecided
        }
    }
}
