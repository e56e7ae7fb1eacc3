//! Running rules.
ghost use Rattle.std.specs.Prelude.{◌≡◌, ◌⊎◌, ◌∷◌, [], true, length, Some, IfOk, IfErr, OnOk};
ghost use Rattle.std.specs.List.{Contains};
ghost use Rattle.goal_terms.specs.declared.answers.DelayedFault.{DelayedFault as Delayed};
ghost use Rattle.goal_terms.specs.declared.modes.TypingMode.{TypingMode};
ghost use Rattle.goal_kinds.specs.RuleLists.{entries_of};
ghost use Rattle.goal_lists.specs.Settings.{is_headline as is_of_headline};
ghost use Rattle.goal_solver.specs.Accesses.{RecordsCausedFaults};
ghost use Rattle.goal_solver.specs.Answers.{IsOwed, IsMaybe, AnswersQuietly, IsFaultOf};
ghost use Rattle.goal_solver.specs.Binding.{IsApplicable};
ghost use Rattle.goal_solver.specs.GoingBack.{GoesBack, restored};
ghost use Rattle.goal_solver.specs.Added.{RecordsAccess};
ghost use Rattle.goal_eval.specs.Lists.{ListTermIn, RunIn, SaysList};
ghost use Rattle.goal_solver.specs.OpenRuns.{RunsOpen};
ghost use Rattle.goal_solver.specs.Refusals.{WhenRefused, IsRefusedOpen};
ghost use Rattle.goal_solver.specs.RunAnswers.{RunsClosed, RunsInTrial, IsClosedRun, IsRuleAnswerIn, AsksOnce, IsOpenIn};
ghost use Rattle.goal_solver.specs.RunRules.{IsClosedRule, IsRecorded, IsKept, IsRecordedAnswer, AreRecordedWhere, AreListed, response_of, RuleRunsOn};
ghost use Rattle.goal_solver.specs.State.{kinds_of};
ghost use Rattle.goal_solver.specs.Promises.{WhereOwed};
ghost use Rattle.goal_solver.specs.Evaluations.{WhereRun};

pub(crate) mod asked;
pub(crate) mod chosen_terms;
pub(crate) mod hidden_types;
pub(crate) mod interned;
pub(crate) mod open;
pub(crate) mod open_arguments;
pub(crate) mod open_entries;
pub(crate) mod opened_headers;
pub(crate) mod recorded;
pub(crate) mod variables;

use crate::context::EvalCtxt;
use crate::eval::run_rule::asked::{Asked, asked_variable};
use crate::eval::run_rule::interned::run_rule_entry;
use crate::eval::run_rule::recorded::{ToRecord, to_record};
use crate::eval::run_rule::variables::has_variable;
use crate::faults::Fault;
use goal_eval::eval::effects::Effects;
use goal_eval::eval::lists::ListOutcome;
use goal_eval::eval::lists::progress::{ListRun, Reached};
use goal_eval::eval::outcomes::{OnAccess, Setting, Stop};
use goal_eval::eval::region_constraints::RegionConstraints;
use goal_kinds::rules::{Candidate, Rule, RuleEntry};
use goal_terms::answers::{Certainty, OpaqueAccess, Response};
use goal_terms::predicates::Clause;

impl EvalCtxt<'_> {
    /// Runs a rule's list of entries at the remaining depth, under an environment, and hands on where it comes
    /// from. On a closed list and environment, expected terms aside: `Yes`: all entries hold by derivations no
    /// higher than that depth; where the list has a term for an expected variable, the response lists just this
    /// term as the variable's value. `NoSolution`: a refutation no higher refutes an entry, all arguments that
    /// were named before it being known. `Maybe`, where one term at most is asked for, for a
    /// general variable: there is neither.
    ///
    /// A list that defines an opaque type's hidden type, one with inference variables and one under an environment
    /// with some is run in a trial, by one step for each entry, in order: arguments of a header are fresh variables
    /// and the header is equated with what it is matched with, two lists are equated, clauses and normalizations
    /// are added as goals, hidden types are entered. Then the goals are evaluated. `Yes`: each step and the
    /// evaluation are sure. `NoSolution`: one of them is refused. `Maybe`: one is undecided, and none refused. The
    /// response lists what was made, bound, equated and entered in the trial, and can be applied. That of a closed
    /// list can be applied where the value that it may list can be given to its variable.
    ///
    /// An access or a delayed fault is recorded when its entry is reached: nothing before it is refuted, and of a
    /// closed list all arguments that were named before it are known. So after `Yes` all that the list says to
    /// record is recorded. A delayed fault that comes is one that the list names, or has its cause in the tables:
    /// what its entries ask for meets it. Inference state, added goals and storage are as before.
    pub fn run_rule(&mut self, environment: &[Clause], rule: &Rule) -> Result<Candidate, Fault>
        ensures closed { IsClosedRule rule.now.entries.items environment.now → RunsClosed environment.now rule.now self.old self.new (response_of result) }
        ensures open { (IsClosedRule rule.now.entries.items environment.now → ⊥) → RunsInTrial environment.now rule.now self.old self.new (response_of result) }
        ensures recorded { IfOk (response_of result) (IsRecordedAnswer self.new rule.now.entries.items) }
        ensures listed { AreListed rule.now.entries.items self.old self.new }
        ensures source { IfOk result (λ c. c.source ≡ rule.now.source) }
        ensures unchanged { self.new ≡ restored self.old self.new }
        ensures goes_back { GoesBack self.old self.new }
        ensures fault { IsFaultOf self.old self.new (response_of result) }
    {
        self.is_well_formed();
        let result = self.rule_response(environment, rule)?;
        Ok(Candidate {
            source: rule.source,
            result,
        })
    }

    /// What a rule's list of entries is answered.
    fn rule_response(&mut self, environment: &[Clause], rule: &Rule) -> Result<Response, Fault>
        ensures sound { (m : TypingMode) → IsOwed self.new m → IsClosedRun environment.now rule.now → IsRuleAnswerIn self.old m environment.now rule.now result }
        ensures decided { (m : TypingMode) → IsOwed self.new m → IsClosedRun environment.now rule.now → AsksOnce rule.now → IsMaybe result → IsOpenIn self.old m environment.now rule.now }
        ensures recorded { IfOk result (IsRecordedAnswer self.new rule.now.entries.items) }
        ensures listed { AreListed rule.now.entries.items self.old self.new }
        ensures unchanged { self.new ≡ restored self.old self.new }
        ensures goes_back { GoesBack self.old self.new }
        ensures fault { IsFaultOf self.old self.new result }
        ensures quiet { IsClosedRule rule.now.entries.items environment.now → AnswersQuietly (length (kinds_of self.old)) result }
        ensures chain { (IsClosedRule rule.now.entries.items environment.now → ⊥) → IfOk result (RunsOpen environment.now rule.now.entries.items self.old self.new) }
        ensures applies { (IsClosedRule rule.now.entries.items environment.now → ⊥) → IfOk result (IsApplicable self.new) }
        ensures refused { (IsClosedRun environment.now rule.now → ⊥) → WhenRefused result (IsRefusedOpen environment.now rule.now.entries.items self.old self.new) }
    {
        if has_variable(&rule.entries, environment) {
            return self.run_open(environment, &rule.entries);
        }
        match self.entries_outcome(environment, &rule.entries) {
            Ok(ListOutcome::Holds(found)) => match (asked_variable(&rule.entries), found) {
                (Asked::Nothing, _) => Ok(self.respond(Certainty::Yes, None)),
                (Asked::Variable(expected), Some(id)) => {
                    self.respond_found(expected, id, RegionConstraints::new(self.allocator()))
                }
                _ => Ok(self.respond(Certainty::Maybe, None)),
            },
            Ok(ListOutcome::Refuted) => Err(Fault::NoSolution),
            Ok(ListOutcome::Undecided) => Ok(self.respond(Certainty::Maybe, None)),
            Err(stop) => self.stopped(stop),
        }
    }

    /// What a list of entries comes to at the remaining depth, by the runs of the typing mode. There may be more
    /// terms, accesses and delayed faults; nothing else changes.
    fn entries_outcome(
        &mut self,
        environment: &[Clause],
        entries: &[RuleEntry],
    ) -> Result<ListOutcome, Stop>
        ensures within { IfOk result (ListTermIn self.new.terms) }
        ensures recorded { IfOk result (AreRecordedWhere self.new entries.now) }
        ensures listed { AreListed entries.now self.old self.new }
        ensures unchanged { self.new ≡ restored self.old self.new }
        ensures goes_back { GoesBack self.old self.new }
        ensures stops { is_of_headline self.old.typing_mode ≡ true → IfErr result (λ s. s ≡ Stop.OutOfMemory) }
        ensures says { WhereOwed self.old self.new environment.now (λ L. IfOk result (SaysList L (Some (entries_of self.old.tables entries.now)) self.new.terms)) }
    {
        let on_access = self.first_access();
        let first = self.run_entries(on_access, environment, entries);
        if let Some(found) = self.first_answer(first)? {
            return Ok(found);
        }
        self.run_entries(OnAccess::Record, environment, entries)
    }

    /// What one run of a list of entries comes to. There may be more terms, accesses and delayed faults; nothing
    /// else changes.
    fn run_entries(
        &mut self,
        on_access: OnAccess,
        environment: &[Clause],
        entries: &[RuleEntry],
    ) -> Result<ListOutcome, Stop>
        ensures within { IfOk result (ListTermIn self.new.terms) }
        ensures recorded { IfOk result (AreRecordedWhere self.new entries.now) }
        ensures listed { AreListed entries.now self.old self.new }
        ensures unchanged { self.new ≡ restored self.old self.new }
        ensures goes_back { GoesBack self.old self.new }
        ensures stops { is_of_headline self.old.typing_mode ≡ true → IfErr result (λ s. s ≡ Stop.OutOfMemory) }
        ensures says { WhereRun on_access self.old environment.now (λ L. IfOk result (SaysList L (Some (entries_of self.old.tables entries.now)) self.new.terms)) }
    {
        let mut run = ListRun::new(self.allocator());
        for entry in entries {
            self.record_entry(entry)?;
            match self.reach(on_access, environment, &mut run, entry)? {
                Reached::Next => {}
                Reached::Refuted => return Ok(ListOutcome::Refuted),
                Reached::Undecided => return Ok(ListOutcome::Undecided),
            }
        }
        Ok(run.outcome())
    }

    /// Where an entry leads at the remaining depth. Nothing changes but that there may be more terms, accesses and
    /// delayed faults, each of these with its cause in the tables.
    fn reach(
        &mut self,
        on_access: OnAccess,
        environment: &[Clause],
        run: &mut ListRun,
        entry: &RuleEntry,
    ) -> Result<Reached, Stop>
        requires { RunIn self.old.terms run.old }
        ensures unchanged { self.new ≡ restored self.old self.new }
        ensures faults { RecordsCausedFaults self.old self.new }
        ensures goes_back { GoesBack self.old self.new }
        ensures within { IfOk result (λ _. RunIn self.new.terms run.new) }
        ensures stops { is_of_headline self.old.typing_mode ≡ true → IfErr result (λ s. s ≡ Stop.OutOfMemory) }
        ensures says { WhereRun on_access self.old environment.now (λ L. IfOk result (RuleRunsOn self.old.tables L self.old.terms run.old entry.now self.new.terms run.new)) }
    {
        let mut effects = Effects::new(self.allocator());
        let setting = Setting {
            rows: self.tables.rows(),
            typing_mode: &self.typing_mode,
            on_access,
            environment,
        };
        let depth = self.remaining_depth;
        let reached = run_rule_entry(&setting, &mut self.terms, &mut effects, run, entry, depth);
        self.record_effects(&effects)?;
        reached
    }

    /// Records what an entry says to record.
    fn record_entry(&mut self, entry: &RuleEntry) -> Result<(), Stop>
        ensures recorded { OnOk result (IsRecorded self.new entry.now) }
        ensures listed { AreListed (entry.now ∷ []) self.old self.new }
        ensures unchanged { self.new ≡ record self.old { accesses = self.new.accesses; delayed_faults = self.new.delayed_faults } }
        ensures goes_back { GoesBack self.old self.new }
        ensures stops { is_of_headline self.old.typing_mode ≡ true → IfErr result (λ s. s ≡ Stop.OutOfMemory) }
    {
        self.record_at_most(to_record(entry))
    }

    /// Records an access, a delayed fault, or nothing.
    fn record_at_most(&mut self, what: ToRecord) -> Result<(), Stop>
        ensures recorded { OnOk result (IsKept self.new what) }
        ensures listed { (f : Delayed) → Contains self.new.delayed_faults f → Contains self.old.delayed_faults f ⊎ (what ≡ ToRecord.DelayedFault f) }
        ensures unchanged { self.new ≡ record self.old { accesses = self.new.accesses; delayed_faults = self.new.delayed_faults } }
        ensures goes_back { GoesBack self.old self.new }
        ensures stops { is_of_headline self.old.typing_mode ≡ true → IfErr result (λ s. s ≡ Stop.OutOfMemory) }
    {
        match what {
            ToRecord::Access(access) => self.read_mode(access),
            ToRecord::DelayedFault(fault) => self.meet_fault(fault),
            ToRecord::Nothing => Ok(()),
        }
    }

    /// Records that a rule reads the mode. In the erased mode the run is stopped where the context stops then, or
    /// the rule has no answer without a mode.
    pub(crate) fn read_mode(&mut self, access: OpaqueAccess) -> Result<(), Stop>
        ensures entered { OnOk result (RecordsAccess access self.old self.new) }
        ensures recorded { OnOk result (Contains self.new.accesses access) }
        ensures unchanged { self.new ≡ record self.old { accesses = self.new.accesses } }
        ensures goes_back { GoesBack self.old self.new }
        ensures stops { is_of_headline self.old.typing_mode ≡ true → IfErr result (λ s. s ≡ Stop.OutOfMemory) }
    {
        let stops = self.stop_on_rerun || matches!(access, OpaqueAccess::Always);
        if stops && self.is_erased() {
            return Err(Stop::ReadsMode(access));
        }
        let Ok(()) = self.record_access(access) else {
            return Err(Stop::OutOfMemory);
        };
        Ok(())
    }
}
