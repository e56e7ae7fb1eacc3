//! What an evaluation keeps of the goals that it has answered, so that it evaluates none twice.
ghost use Rattle.std.specs.Prelude.{◌≡◌, ◌==◌, [], IfSome};
ghost use Rattle.indexmap.specs.IndexMap.{get};
ghost use Rattle.goal_eval.specs.CacheEntries.{IsKnownAt, entry_of, kept, trait_decided, outcome_decided, found_decided, EntersBy, IsKeptAt};
ghost use Rattle.goal_eval.specs.EvaluationCache.{IsEmptyCache, consts_of, KeepsButConsts};
ghost use Rattle.goal_lists.specs.declared.outcomes.Outcome.{Outcome as outcomes};

use crate::eval::outcomes::Found;
use goal_interner::term_nodes::TermId;
use goal_lists::outcomes::{Outcome, TraitOutcome};
use goal_terms::predicates::BoundConstness;
use indexmap::IndexMap;
use std::alloc::Global;

/// What is known of a goal: the least depth at which it was decided, with what it came to, and the greatest
/// depth at which it was undecided.
#[derive(Clone, Copy)]
pub struct CacheEntry<A> {
    pub decided: Option<(u32, A)>,
    pub undecided: u32,
}

impl<A: Copy> CacheEntry<A> {
    /// What the goal comes to at a depth, if that is known: more depth keeps what is decided, and less depth
    /// decides no more.
    fn at(&self, depth: u32, undecided: A) -> Option<A>
        ensures { IfSome result (IsKnownAt self.now depth undecided) }
    {
        if let Some((least, answer)) = self.decided {
            if least <= depth {
                return Some(answer);
            }
        }
        if depth <= self.undecided {
            return Some(undecided);
        }
        None
    }

    /// The entry of a goal that has come to an answer at a depth.
    fn with(self, depth: u32, answer: A, is_decided: bool) -> Self
        ensures { result ≡ kept self depth answer is_decided }
    {
        if is_decided {
            CacheEntry {
                decided: Some((depth, answer)),
                undecided: self.undecided,
            }
        } else {
            CacheEntry {
                decided: self.decided,
                undecided: depth,
            }
        }
    }
}

/// What is known of the goals of one sort, by their numbers.
#[derive(Drop)]
pub struct Answered<A> {
    pub entries: IndexMap<u32, CacheEntry<A>>,
}

impl<A: Copy> Answered<A> {
    /// Nothing is known. It takes no memory.
    pub fn new(alloc: Global) -> Self
        ensures { result.entries.entries ≡ [] }
    {
        Answered {
            entries: IndexMap::new(alloc),
        }
    }

    /// What a goal comes to at a depth, if that is known.
    pub fn get(&self, goal: TermId, depth: u32, undecided: A) -> Option<A>
        ensures { IfSome result (λ o. IsKeptAt (get ◌==◌ self.now.entries goal.0) depth undecided o) }
    {
        match self.entries.get(&goal.0) {
            Some(entry) => entry.at(depth, undecided),
            None => None,
        }
    }

    /// What is known of a goal, which may be nothing.
    fn entry(&self, goal: TermId) -> CacheEntry<A>
        ensures { result ≡ entry_of (get ◌==◌ self.now.entries goal.0) }
    {
        match self.entries.get(&goal.0) {
            Some(entry) => *entry,
            None => CacheEntry {
                decided: None,
                undecided: 0,
            },
        }
    }

    /// Keeps what a goal came to at a depth. Where memory is refused it isn't kept.
    pub(crate) fn keep(&mut self, goal: TermId, depth: u32, answer: A, is_decided: bool)
        ensures { EntersBy self.old.entries self.new.entries goal.0 (λ e. kept e depth answer is_decided) }
    {
        let entry = self.entry(goal).with(depth, answer, is_decided);
        let _unless_refused = self.entries.insert(goal.0, entry);
    }
}

/// What an evaluation keeps: of trait goals, of const trait goals by their constness, and of aliases. It is for
/// one setting and one table of terms.
pub struct EvaluationCache {
    pub traits: Answered<TraitOutcome>,
    pub consts: Answered<Outcome>,
    pub maybe_consts: Answered<Outcome>,
    pub aliases: Answered<Found>,
}

impl Drop for EvaluationCache {
    fn drop(self) {
        let EvaluationCache {
            traits: _,
            consts: _,
            maybe_consts: _,
            aliases: _,
        } = self;
    }
}

impl EvaluationCache {
    /// Nothing is known. It takes no memory.
    pub fn new(alloc: Global) -> Self
        ensures { IsEmptyCache result }
    {
        EvaluationCache {
            traits: Answered::new(alloc),
            consts: Answered::new(alloc),
            maybe_consts: Answered::new(alloc),
            aliases: Answered::new(alloc),
        }
    }

    /// Keeps what a trait goal came to at a depth.
    pub(crate) fn keep_trait(&mut self, goal: TermId, depth: u32, outcome: TraitOutcome)
        ensures entered { EntersBy self.old.traits.entries self.new.traits.entries goal.0 (λ e. kept e depth outcome (trait_decided outcome)) }
        ensures unchanged { self.new ≡ record self.old { traits = self.new.traits } }
    {
        let is_decided = match outcome {
            TraitOutcome::Holds(_) | TraitOutcome::Refuted => true,
            TraitOutcome::Undecided => false,
        };
        self.traits.keep(goal, depth, outcome, is_decided);
    }

    /// What a const trait goal comes to at a depth, if that is known.
    pub(crate) fn const_outcome(
        &self,
        constness: BoundConstness,
        goal: TermId,
        depth: u32,
    ) -> Option<Outcome>
        ensures { IfSome result (λ o. IsKeptAt (get ◌==◌ (consts_of self.now constness).entries goal.0) depth outcomes.Undecided o) }
    {
        match constness {
            BoundConstness::Const => self.consts.get(goal, depth, Outcome::Undecided),
            BoundConstness::Maybe => self.maybe_consts.get(goal, depth, Outcome::Undecided),
        }
    }

    /// Keeps what a const trait goal came to at a depth.
    pub(crate) fn keep_const(
        &mut self,
        constness: BoundConstness,
        goal: TermId,
        depth: u32,
        outcome: Outcome,
    )
        ensures entered { EntersBy (consts_of self.old constness).entries (consts_of self.new constness).entries goal.0 (λ e. kept e depth outcome (outcome_decided outcome)) }
        ensures unchanged { KeepsButConsts constness self.old self.new }
    {
        let is_decided = match outcome {
            Outcome::Holds | Outcome::Refuted => true,
            Outcome::Undecided => false,
        };
        match constness {
            BoundConstness::Const => self.consts.keep(goal, depth, outcome, is_decided),
            BoundConstness::Maybe => self.maybe_consts.keep(goal, depth, outcome, is_decided),
        }
    }

    /// Keeps what was found for an alias at a depth.
    pub(crate) fn keep_alias(&mut self, alias: TermId, depth: u32, found: Found)
        ensures entered { EntersBy self.old.aliases.entries self.new.aliases.entries alias.0 (λ e. kept e depth found (found_decided found)) }
        ensures unchanged { self.new ≡ record self.old { aliases = self.new.aliases } }
    {
        let is_decided = match found {
            Found::Is(_) | Found::Refuted => true,
            Found::Undecided => false,
        };
        self.aliases.keep(alias, depth, found, is_decided);
    }
}
