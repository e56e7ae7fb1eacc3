//! The goals with inference variables that are being answered, each asked by the one before it, and what is known of
//! those that were answered.

use crate::canonical::{CanonicalResponse, ResponseCounts};
use goal_checks::predicate_terms::some_in_env;
use goal_interner::term_nodes::{OutOfMemory, TermId};
use goal_terms::answers::VarKind;
use goal_terms::node_tests::NodeTest;
use goal_terms::predicates::{BoundConstness, Clause};
use goal_terms::terms::Region;
use indexmap::IndexMap;
use std::alloc::Global;

/// A goal with inference variables: the number of a trait with its arguments, or of an alias whose head form is asked
/// for, by canonical variables; whether it is of a const trait; and the number of its environment.
#[derive(Clone, Copy, PartialEq, Eq, Hash)]
pub struct CanonicalInput {
    pub goal: TermId,
    pub constness: Option<BoundConstness>,
    pub environment: usize,
}

/// How many variables there were, how many of them were bound, and how many lifetimes equated, when a goal began.
#[derive(Clone, Copy)]
pub struct Begun {
    pub variables: usize,
    pub bound: usize,
    pub equated: usize,
}

/// The places on the stack of the goals to which one led back: the first, and one that isn't before the last.
#[derive(Clone, Copy)]
struct CycleHeads {
    first: usize,
    last: usize,
}

impl CycleHeads {
    /// These and others.
    fn with(self, other: CycleHeads) -> CycleHeads {
        CycleHeads {
            first: self.first.min(other.first),
            last: self.last.max(other.last),
        }
    }

    /// Those before a place of the stack.
    fn before(self, place: usize) -> Option<CycleHeads> {
        if self.first >= place {
            return None;
        }
        Some(CycleHeads {
            first: self.first,
            last: self.last.min(place - 1),
        })
    }
}

/// An environment by its number, and whether no variable stands in it, lifetimes too.
#[derive(Clone, Copy)]
pub struct KnownEnvironment {
    pub number: usize,
    pub is_closed: bool,
}

/// A goal that is asked.
#[derive(Drop)]
pub struct AskedInput {
    pub input: CanonicalInput,
    /// Whether its answer is kept, and its variables are canonical: no variable stands in the environment, and no type
    /// is hidden.
    pub lasts: bool,
    pub begun: Begun,
    /// The numbers of its variables, each with its canonical one.
    pub names: Vec<(u32, u32)>,
}

impl AskedInput {
    /// What it leaves, by the place of a response.
    pub fn into_answer(self, response: usize) -> KeptAnswer {
        let AskedInput {
            input: _,
            lasts: _,
            begun: _,
            names,
        } = self;
        KeptAnswer { response, names }
    }
}

/// A goal that is being answered.
#[derive(Drop)]
pub struct StackEntry {
    pub asked: AskedInput,
    /// Which of all goals it is that were ever begun.
    number: u64,
    heads: Option<CycleHeads>,
}

impl StackEntry {
    /// The goal itself.
    pub fn into_asked(self) -> AskedInput {
        let StackEntry {
            asked,
            number: _,
            heads: _,
        } = self;
        asked
    }
}

/// What a goal that holds leaves: the place of its response, and the numbers of the goal's variables, each with its
/// canonical one.
#[derive(Drop)]
pub struct KeptAnswer {
    pub response: usize,
    pub names: Vec<(u32, u32)>,
}

/// That a goal is undecided. If it led back, that is so while the last one of the goals that it led back to, which
/// has this number, is being answered.
#[derive(Clone, Copy)]
struct Undecided {
    depth: u32,
    heads: Option<CycleHeads>,
    number: u64,
}

/// What is known of a goal: the least depth at which it was decided, with the place of its response if it holds, and the
/// greatest depth at which it was undecided.
#[derive(Clone, Copy)]
struct CacheEntry {
    decided: Option<(u32, Option<usize>)>,
    undecided: Option<Undecided>,
}

/// What is known of a canonical goal at a depth.
#[derive(Clone, Copy)]
enum Known {
    Holds(usize),
    Refuted,
    Undecided,
}

impl Known {
    /// The same of the goal that is asked.
    fn of(self, asked: AskedInput) -> Recalled {
        match self {
            Known::Holds(response) => Recalled::Holds(asked.into_answer(response)),
            Known::Refuted => Recalled::Refuted,
            Known::Undecided => Recalled::Undecided,
        }
    }
}

/// What is known of a goal at a depth.
#[derive(Drop)]
pub enum Recalled {
    Holds(KeptAnswer),
    Refuted,
    Undecided,
}

/// The goals with inference variables that are being answered, and what is known of others.
pub struct SearchGraph {
    stack: Vec<StackEntry>,
    cache: IndexMap<CanonicalInput, CacheEntry>,
    responses: Vec<CanonicalResponse>,
    environments: Vec<Vec<Clause>>,
    begun: u64,
}

impl Drop for SearchGraph {
    fn drop(self) {
        let SearchGraph {
            stack: _,
            cache: _,
            responses: _,
            environments: _,
            begun: _,
        } = self;
    }
}

impl SearchGraph {
    /// Nothing is asked or known. It takes no memory.
    pub fn new(alloc: Global) -> SearchGraph {
        SearchGraph {
            stack: Vec::new(alloc),
            cache: IndexMap::new(alloc),
            responses: Vec::new(alloc),
            environments: Vec::new(alloc),
            begun: 0,
        }
    }

    /// What is known of an environment. Only memory is refused.
    pub fn environment(&mut self, environment: &[Clause]) -> Result<KnownEnvironment, OutOfMemory> {
        let is_closed = !some_in_env(NodeTest::Unmade(&[]), environment);
        if let Some(number) = self
            .environments
            .iter()
            .position(|other| other.as_slice() == environment)
        {
            return Ok(KnownEnvironment { number, is_closed });
        }
        let copy = environment.to_vec(*self.environments.allocator())?;
        let number = self.environments.len();
        self.environments.push(copy)?;
        Ok(KnownEnvironment { number, is_closed })
    }

    /// What is known of a goal at a depth, or else nothing, and it is being answered from now on. One that is being
    /// answered already is undecided. Only memory is refused.
    pub fn begin(
        &mut self,
        asked: AskedInput,
        depth: u32,
    ) -> Result<Option<Recalled>, OutOfMemory> {
        if let Some(known) = self.recall(asked.input, asked.lasts, depth) {
            return Ok(Some(known.of(asked)));
        }
        self.begun = self.begun.wrapping_add(1);
        let entry = StackEntry {
            asked,
            number: self.begun,
            heads: None,
        };
        self.stack.push(entry)?;
        Ok(None)
    }

    /// What is known of a goal at a depth.
    fn recall(&mut self, input: CanonicalInput, lasts: bool, depth: u32) -> Option<Known> {
        if let Some(place) = self
            .stack
            .iter()
            .position(|other| other.asked.input == input)
        {
            self.lead_back(CycleHeads {
                first: place,
                last: place,
            });
            return Some(Known::Undecided);
        }
        if !lasts {
            return None;
        }
        let known = *self.cache.get(&input)?;
        match known.decided {
            Some((least, response)) if least <= depth => Some(known_by(response)),
            _ => self.recall_undecided(known.undecided?, depth),
        }
    }

    /// That a goal is undecided at a depth, if that is known. Then the goal that asks it leads back as it does.
    fn recall_undecided(&mut self, known: Undecided, depth: u32) -> Option<Known> {
        if known.depth < depth {
            return None;
        }
        if let Some(heads) = known.heads {
            if self.stack.get(heads.last)?.number != known.number {
                return None;
            }
            self.lead_back(heads);
        }
        Some(Known::Undecided)
    }

    /// The goal that was begun last leads back.
    fn lead_back(&mut self, heads: CycleHeads) {
        if let Some(mut entry) = self.stack.pop() {
            entry.heads = match entry.heads {
                None => Some(heads),
                Some(others) => Some(others.with(heads)),
            };
            let _there_was_room = self.stack.push(entry);
        }
    }

    /// The goal that was begun last is answered.
    pub fn pop(&mut self) -> Option<StackEntry> {
        self.stack.pop()
    }

    /// The goal that was just answered is undecided, and so the one that asks it leads back as it did.
    pub fn end_undecided(&mut self, ended: &StackEntry, depth: u32) {
        let heads = match ended.heads {
            None => None,
            Some(heads) => heads.before(self.stack.len()),
        };
        let mut number = 0;
        if let Some(others) = heads {
            if let Some(head) = self.stack.get(others.last) {
                number = head.number;
            }
            self.lead_back(others);
        }
        let known = self.known_of(ended.asked.input);
        let undecided = Some(Undecided {
            depth,
            heads,
            number,
        });
        self.keep(
            &ended.asked,
            CacheEntry {
                decided: known.decided,
                undecided,
            },
        );
    }

    /// The goal that was just answered holds, and leaves a response, or is refuted.
    pub fn end_decided(&mut self, ended: &AskedInput, depth: u32, response: Option<usize>) {
        let known = self.known_of(ended.input);
        self.keep(
            ended,
            CacheEntry {
                decided: Some((depth, response)),
                undecided: known.undecided,
            },
        );
    }

    /// What is known of a goal, which may be nothing.
    fn known_of(&self, input: CanonicalInput) -> CacheEntry {
        match self.cache.get(&input) {
            Some(known) => *known,
            None => CacheEntry {
                decided: None,
                undecided: None,
            },
        }
    }

    /// Keeps what is known of a goal, if its answers last. Where memory is refused it isn't kept.
    fn keep(&mut self, ended: &AskedInput, known: CacheEntry) {
        if ended.lasts {
            let _unless_refused = self.cache.insert(ended.input, known);
        }
    }

    /// Keeps a response, and answers its place. Only memory is refused.
    pub fn add_response(&mut self, response: CanonicalResponse) -> Result<usize, OutOfMemory> {
        let place = self.responses.len();
        self.responses.push(response)?;
        Ok(place)
    }

    /// How much a response has of each.
    pub fn counts(&self, response: usize) -> ResponseCounts {
        match self.responses.get(response) {
            Some(kept) => kept.counts(),
            None => ResponseCounts {
                vars: 0,
                var_values: 0,
                region_equations: 0,
            },
        }
    }

    /// The kind of a variable that is made for a response, by its place among them.
    pub fn var_kind(&self, response: usize, place: usize) -> Option<VarKind> {
        let kept = self.responses.get(response)?;
        Some(*kept.vars.get(place)?)
    }

    /// A variable with its value in a response, by its place among them.
    pub fn var_value(&self, response: usize, place: usize) -> Option<(TermId, TermId)> {
        let kept = self.responses.get(response)?;
        Some(*kept.var_values.get(place)?)
    }

    /// An equation of lifetimes in a response, by its place among them.
    pub fn region_equation(&self, response: usize, place: usize) -> Option<(Region, Region)> {
        let kept = self.responses.get(response)?;
        Some(*kept.region_equations.get(place)?)
    }

    /// The head form in a response.
    pub fn form(&self, response: usize) -> Option<TermId> {
        self.responses.get(response)?.form
    }
}

/// What is known of a goal that was decided, by the place of its response, if it has one.
fn known_by(response: Option<usize>) -> Known {
    match response {
        Some(place) => Known::Holds(place),
        None => Known::Refuted,
    }
}
