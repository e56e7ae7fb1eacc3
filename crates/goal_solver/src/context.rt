//! The context of an evaluation.
ghost use Rattle.std.specs.Prelude.{◌≡◌, ◌<◌, [], ◌↔◌, length, IsErr, IfOk};
ghost use Rattle.goal_tables.specs.Faults.{IsChecked};
ghost use Rattle.goal_solver.specs.Answers.{IsQuiet, IsQuietAside};
ghost use Rattle.goal_eval.specs.Effects.{AreNone};
ghost use Rattle.goal_solver.specs.GoingBack.{GoesBack, lengths_of, restored, begun};
ghost use Rattle.goal_solver.specs.State.{State, IsValid, kinds_of, fresh_state};
ghost use Rattle.goal_solver.specs.Stored.{HasOneTypeAKey};

pub mod added_goals;
pub(crate) mod apply;
pub(crate) mod instantiate;
pub mod laws;
pub mod probe;
pub(crate) mod rebuilding;
pub mod records;
pub(crate) mod respond;
pub mod storage;
pub mod variables;

use crate::faults::DepthTooLarge;
use goal_checks::checked::CheckedTables;
use goal_eval::eval::effects::Effects;
use goal_eval::eval::region_constraints::RegionConstraints;
use goal_infer::state;
use goal_infer::state::InferState;
use goal_interner::term_table::TermTable;
use goal_search::search_graph::SearchGraph;
use goal_terms::answers::{
    Certainty, DelayedFault, GoalSource, OpaqueAccess, OpaqueTypeKey, Response, TraitGoalProvenVia,
    VarKind,
};
use goal_terms::modes::TypingMode;
use goal_terms::predicates::{Goal, Predicate};
use goal_terms::terms::Ty;
use std::alloc::Global;
use std::marker::Model;

/// The greatest depth limit that a context takes.
pub const GREATEST_LIMIT: u32 = 128;

/// What an evaluation goes over: the tables, which it borrows, and what was made, added, entered and
/// recorded so far.
pub struct EvalCtxt<'t> {
    pub(crate) tables: &'t CheckedTables,
    pub(crate) typing_mode: TypingMode,
    pub(crate) remaining_depth: u32,
    pub(crate) stop_on_rerun: bool,
    pub(crate) terms: TermTable,
    pub(crate) inference: InferState,
    /// The kinds of the variables, in step with them.
    pub(crate) kinds: Vec<VarKind>,
    pub(crate) goals: Vec<(GoalSource, Goal<Predicate>)>,
    /// The places of the goals that were taken out, in order.
    pub(crate) taken: Vec<usize>,
    pub(crate) storage: Vec<(OpaqueTypeKey, Ty)>,
    pub(crate) accesses: Vec<OpaqueAccess>,
    pub(crate) delayed_faults: Vec<DelayedFault>,
    pub(crate) mark: Mark,
    /// The goals with inference variables that are being answered, and what is known of others.
    pub(crate) search_graph: SearchGraph,
}

impl Drop for EvalCtxt<'_> {
    fn drop(self) {
        let EvalCtxt {
            tables: _,
            typing_mode: _,
            remaining_depth: _,
            stop_on_rerun: _,
            terms: _,
            inference: _,
            kinds: _,
            goals: _,
            taken: _,
            storage: _,
            accesses: _,
            delayed_faults: _,
            mark: _,
            search_graph: _,
        } = self;
    }
}

impl<'t> Model for EvalCtxt<'t> {
    ghost use Rattle.std.specs.Prelude.{◌≡◌, ◌<◌, ◌^◌, length};
    ghost use Rattle.std.specs.Coded.{codes};
    ghost use Rattle.goal_infer.specs.Resolution.{IsSolved};
    ghost use Rattle.goal_solver.specs.State.{State, kinds_in, AreTaken};
    ghost use Rattle.goal_solver.specs.Stored.{HasOneTypeAKey, IsSet};
    ghost use Rattle.goal_tables.specs.contracts.rows.Tables as held;
    ghost use Rattle.goal_terms.specs.TreeCode.{trees_code};
    ghost use Rattle.goal_terms.specs.contracts.answers.OpaqueTypeKey as key;
    ghost use Rattle.goal_terms.specs.contracts.modes.TypingMode as mode;
    ghost use Rattle.goal_terms.specs.contracts.predicates.Goal as goal;
    ghost use Rattle.goal_terms.specs.contracts.predicates.Predicate as predicate;
    ghost use Rattle.goal_terms.specs.contracts.terms.Ty as ty;

    ghost Value = { State };

    ghost coded = { Prim.hlevel (codes, trees_code, held.the_row.coded, mode.the_row.coded, key.the_row.coded, (goal.the_row predicate.the_row).coded, ty.the_row.coded) };

    ghost view = { λ c. record { tables = c.tables.now; typing_mode = c.typing_mode; remaining_depth = c.remaining_depth; stop_on_rerun = c.stop_on_rerun; terms = c.terms; inference = c.inference; goals = c.goals.items; taken = c.taken.items; storage = c.storage.items; accesses = c.accesses.items; delayed_faults = c.delayed_faults.items; mark = c.mark } };

    ghost invariant = { λ c. (length c.kinds.items < 2 ^ 32) × (c.kinds.items ≡ kinds_in c.inference.variables) × HasOneTypeAKey c.storage.items × IsSet c.accesses.items × IsSet c.delayed_faults.items × IsSolved c.terms c.inference × AreTaken c.goals.items c.taken.items };
}

/// How much a context holds of what a rollback undoes.
#[derive(Clone, Copy, PartialEq, Eq)]
pub(crate) struct Snapshot {
    inference: state::Snapshot,
    goals: usize,
    taken: usize,
    storage: usize,
}

/// How much a context held of what a response lists when the innermost trial began.
#[derive(Clone, Copy)]
pub(crate) struct Mark {
    pub(crate) inference: state::Snapshot,
    pub(crate) storage: usize,
}

impl<'t> EvalCtxt<'t> {
    /// A context without variables, whose goals are evaluated to a depth of `limit`. A limit above
    /// 128 is refused, and no other. It takes no memory. `stop_on_rerun` says whether a goal that
    /// the erased mode doesn't suffice for is refused as such.
    pub fn new(
        tables: &'t CheckedTables,
        typing_mode: TypingMode,
        limit: u32,
        stop_on_rerun: bool,
    ) -> Result<EvalCtxt<'t>, DepthTooLarge>
        ensures refused { IsErr result ↔ (128 < limit) }
        ensures made { IfOk result (λ c. c ≡ fresh_state tables.now typing_mode limit stop_on_rerun) }
    {
        if limit > GREATEST_LIMIT {
            return Err(DepthTooLarge);
        }
        let alloc = *tables.rows().tables().traits.allocator();
        let inference = InferState::new(alloc);
        let mark = Mark {
            inference: inference.snapshot(),
            storage: 0,
        };
        Ok(EvalCtxt {
            tables,
            typing_mode,
            remaining_depth: limit,
            stop_on_rerun,
            terms: TermTable::new(alloc),
            inference,
            kinds: Vec::new(alloc),
            goals: Vec::new(alloc),
            taken: Vec::new(alloc),
            storage: Vec::new(alloc),
            accesses: Vec::new(alloc),
            delayed_faults: Vec::new(alloc),
            mark,
            search_graph: SearchGraph::new(alloc),
        })
    }

    /// The typing mode that goals are evaluated in.
    pub fn typing_mode(&self) -> &TypingMode
        ensures { result.now ≡ self.now.typing_mode }
    {
        &self.typing_mode
    }

    /// The depth that is left for goals.
    pub fn remaining_depth(&self) -> u32
        ensures { result ≡ self.now.remaining_depth }
    {
        self.remaining_depth
    }

    /// The tables.
    pub(crate) fn tables(&self) -> &'t CheckedTables
        ensures { result.now ≡ self.now.tables }
    {
        self.tables
    }

    /// The kinds of the variables made so far.
    pub(crate) fn variables(&self) -> &[VarKind]
        ensures { result.now ≡ kinds_of self.now }
    {
        self.kinds.as_slice()
    }

    /// What the context's lists are made with.
    pub(crate) fn allocator(&self) -> Global {
        *self.kinds.allocator()
    }

    /// How much there is now of what a rollback undoes. It takes no memory.
    pub(crate) fn snapshot(&self) -> Snapshot
        ensures { result ≡ lengths_of self.now }
    {
        Snapshot {
            inference: self.inference.snapshot(),
            goals: self.goals.len(),
            taken: self.taken.len(),
            storage: self.storage.len(),
        }
    }

    /// Undoes what was made, bound, added and entered since a snapshot. Terms, accesses and delayed
    /// faults stay. It takes no memory.
    pub(crate) fn rollback(&mut self, snapshot: Snapshot)
        requires valid { (before : State) × (snapshot ≡ lengths_of before) × GoesBack before self.old × IsValid before }
        ensures undone { (before : State) → snapshot ≡ lengths_of before → GoesBack before self.old → self.new ≡ restored before self.old }
    {
        self.inference.rollback(snapshot.inference);
        self.kinds.truncate(self.inference.len());
        self.goals.truncate(snapshot.goals);
        self.taken.truncate(snapshot.taken);
        self.storage.truncate(snapshot.storage);
    }

    /// What is so of every context: its inference state is solved, and the goals that were taken out are some
    /// of those that were added.
    pub(crate) fn holds_together(&self)
        ensures { IsValid self.now }
    {
        let _held = &self.inference;
    }

    /// What is so of every context besides: its tables are accepted, and each key of its storage has one type.
    pub(crate) fn is_well_formed(&self)
        ensures tables { IsChecked self.now.tables }
        ensures storage { HasOneTypeAKey self.now.storage }
    {
        let _rows = self.tables.rows();
        let _held = &self.storage;
    }

    /// Begins a trial: what is made, bound, equated and entered from now on is what a response lists. It
    /// answers where the trial around it began, and takes no memory.
    pub(crate) fn begin(&mut self) -> Mark
        ensures began { self.new ≡ begun self.old }
        ensures around { result ≡ self.old.mark }
    {
        let around = self.mark;
        self.mark = Mark {
            inference: self.inference.snapshot(),
            storage: self.storage.len(),
        };
        around
    }

    /// Ends a trial: the one around it began at `mark`. It takes no memory.
    pub(crate) fn end(&mut self, mark: Mark)
        ensures { self.new ≡ record self.old { mark = mark } }
    {
        self.mark = mark;
    }

    /// The effects of an evaluation that has none yet. If it lists what holds of lifetimes, its region variables come
    /// behind those of the context. It takes no memory.
    pub(crate) fn no_effects(&self, lists_regions: bool) -> Effects
        ensures { AreNone result }
    {
        if lists_regions {
            Effects::listing(self.allocator(), self.kinds.len() as u32)
        } else {
            Effects::new(self.allocator())
        }
    }

    /// A `Yes` that makes region variables and equates lifetimes, and changes nothing else. It takes no memory.
    pub(crate) fn respond_yes(
        &self,
        proven_via: Option<TraitGoalProvenVia>,
        listed: RegionConstraints,
    ) -> Response
        ensures certainty { result.certainty ≡ Certainty.Yes }
        ensures proven_via { result.proven_via ≡ proven_via }
        ensures values { result.var_values.items ≡ [] }
        ensures aside { IsQuietAside (length (kinds_of self.now)) result }
        ensures alone { listed.variables.items ≡ [] → listed.equations.items ≡ [] → IsQuiet (length (kinds_of self.now)) result }
    {
        let RegionConstraints {
            variables,
            equations,
        } = listed;
        let mut response = self.respond(Certainty::Yes, proven_via);
        response.vars = variables;
        response.region_equations = equations;
        response
    }

    /// An answer that changes nothing. It takes no memory.
    pub(crate) fn respond(
        &self,
        certainty: Certainty,
        proven_via: Option<TraitGoalProvenVia>,
    ) -> Response
        ensures certainty { result.certainty ≡ certainty }
        ensures proven_via { result.proven_via ≡ proven_via }
        ensures values { result.var_values.items ≡ [] }
        ensures quiet { IsQuiet (length (kinds_of self.now)) result }
        ensures aside { IsQuietAside (length (kinds_of self.now)) result }
    {
        let alloc = self.allocator();
        Response {
            certainty,
            proven_via,
            base: self.kinds.len() as u32,
            vars: Vec::new(alloc),
            var_values: Vec::new(alloc),
            region_equations: Vec::new(alloc),
            opaque_entries: Vec::new(alloc),
        }
    }
}
