//! What an evaluation goes over, and what its parts come to.
use goal_interner::term_nodes::{OutOfMemory, TermId};
use goal_tables::lookup::IndexedTables;
use goal_tables::rows::ItemRow;
use goal_terms::answers::OpaqueAccess;
use goal_terms::modes::TypingMode;
use goal_terms::predicates::Clause;
use std::alloc::Global;

/// What a run does where a rule reads a mode that isn't one of the headline: it ends there, or records the
/// access and goes on.
#[derive(Clone, Copy)]
pub enum OnAccess {
    Stop,
    Record,
}

/// What goals are evaluated over: tables, a typing mode with what is done where it is read, and an environment.
#[derive(Clone, Copy)]
pub struct Setting<'e> {
    pub rows: &'e IndexedTables,
    pub typing_mode: &'e TypingMode,
    pub on_access: OnAccess,
    pub environment: &'e [Clause],
}

impl Setting<'_> {
    /// What the lists of an evaluation are made with.
    pub fn allocator(&self) -> Global {
        *self.rows.tables().traits.allocator()
    }
}

/// Why an evaluation ends without an outcome: a growth was refused, or a rule reads a mode that isn't one of
/// the headline, and the run stops there or the rule has no answer without a mode.
#[derive(Clone, Copy)]
pub enum Stop {
    OutOfMemory,
    ReadsMode(OpaqueAccess),
}

impl From<OutOfMemory> for Stop {
    ghost use Rattle.std.specs.Prelude.{◌≡◌};
    ghost use Rattle.goal_eval.specs.declared.eval.outcomes.Stop.TheVariants.{OutOfMemory};

    ghost from_gives = { λ _ e. e ≡ OutOfMemory };

    fn from(_: OutOfMemory) -> Self {
        Stop::OutOfMemory
    }
}

/// Which term is found.
#[derive(Clone, Copy)]
pub enum Found {
    Is(TermId),
    Refuted,
    Undecided,
}

/// What a header, or an impl, comes to for given arguments. Where its parameters are known, these are their
/// terms.
#[derive(Drop)]
pub enum HeaderMatch {
    Fits(Vec<TermId>),
    Known(Vec<TermId>),
    Clashes,
    Unknown,
}

/// A projection as it is asked: its item, how many of its arguments are the trait's, all arguments, the self
/// type being a head form, and the alias of these.
#[derive(Clone, Copy)]
pub struct Projection<'e> {
    pub item: &'e ItemRow,
    pub trait_params: usize,
    pub args: &'e [TermId],
    pub rigid_alias: TermId,
}
