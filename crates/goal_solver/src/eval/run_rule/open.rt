//! Running lists of entries with inference variables.
ghost use Rattle.std.specs.Prelude.{◌≡◌, ◌∷◌, [], IfOk, OnOk};
ghost use Rattle.goal_solver.specs.Binding.{IsApplicable};
ghost use Rattle.goal_solver.specs.GoingBack.{GoesBack, restored};
ghost use Rattle.goal_solver.specs.OpenRuns.{open_progress, open_start, OpenProgress, Steps, RunsThrough, Closes, RunsOpen};
ghost use Rattle.goal_solver.specs.Refusals.{WhenRefused, StepRefused, StopsAtEntry, StopsSomewhere, IsRefusedOpen};
ghost use Rattle.goal_solver.specs.Relating.{IsFaultFor};
ghost use Rattle.goal_solver.specs.RunRules.{AreListed, AreRecorded, IsRecordedAnswer};
ghost use Rattle.goal_solver.specs.State.{State};

use crate::context::EvalCtxt;
use crate::eval::run_rule::open_arguments::OpenRun;
use crate::faults::Fault;
use goal_kinds::rules::RuleEntry;
use goal_terms::answers::{Certainty, Response};
use goal_terms::predicates::Clause;

impl EvalCtxt<'_> {
    /// What a list of entries with inference variables comes to: in a trial, the step of each entry is taken, in
    /// order, and then the goals are evaluated that are pending. The response lists what came of it, and can be
    /// applied. Inference state, added goals and storage are as before.
    #[cycle(open)]
    pub(crate) fn run_open(
        &mut self,
        environment: &[Clause],
        entries: &[RuleEntry],
    ) -> Result<Response, Fault>
        ensures chain { IfOk result (RunsOpen environment.now entries.now self.old self.new) }
        ensures refused { WhenRefused result (IsRefusedOpen environment.now entries.now self.old self.new) }
        ensures recorded { IfOk result (IsRecordedAnswer self.new entries.now) }
        ensures listed { AreListed entries.now self.old self.new }
        ensures applies { IfOk result (IsApplicable self.new) }
        ensures unchanged { self.new ≡ restored self.old self.new }
        ensures goes_back { GoesBack self.old self.new }
        ensures fault { IsFaultFor self.old self.new result }
    {
        self.holds_together();
        let before = self.snapshot();
        let around = self.begin();
        let response = self.answer_open(environment, entries);
        self.holds_together();
        self.is_well_formed();
        self.rollback(before);
        self.end(around);
        response
    }

    /// Takes the step of each entry, and closes with an evaluation.
    #[cycle(open)]
    fn answer_open(
        &mut self,
        environment: &[Clause],
        entries: &[RuleEntry],
    ) -> Result<Response, Fault>
        ensures answered { IfOk result (λ r. (s : State) × (p : OpenProgress) × RunsThrough environment.now entries.now self.old open_start s p × Closes p.certainty s self.new r) }
        ensures refused { WhenRefused result (StopsSomewhere environment.now entries.now self.old self.new) }
        ensures recorded { IfOk result (IsRecordedAnswer self.new entries.now) }
        ensures listed { AreListed entries.now self.old self.new }
        ensures goes_back { GoesBack self.old self.new }
        ensures fault { IsFaultFor self.old self.new result }
    {
        let certainty = self.run_through(environment, entries)?;
        self.evaluate_added_goals_and_make_canonical_response(certainty)
    }

    /// Takes the step of each entry, in order, and answers how sure all of them are. Where one is refused, what
    /// came before it stays.
    #[cycle(open)]
    fn run_through(
        &mut self,
        environment: &[Clause],
        entries: &[RuleEntry],
    ) -> Result<Certainty, Fault>
        ensures through { IfOk result (λ c. (p : OpenProgress) × RunsThrough environment.now entries.now self.old open_start self.new p × (p.certainty ≡ c)) }
        ensures refused { WhenRefused result (StopsAtEntry environment.now entries.now self.old self.new) }
        ensures recorded { IfOk result (λ c. c ≡ Certainty.Yes → AreRecorded self.new entries.now) }
        ensures listed { AreListed entries.now self.old self.new }
        ensures goes_back { GoesBack self.old self.new }
        ensures fault { IsFaultFor self.old self.new result }
    {
        let mut run = OpenRun::new(self.allocator());
        for entry in entries {
            self.step_or_evaluate(environment, &mut run, entry)?;
        }
        Ok(run.certainty)
    }

    /// Takes the step of an entry, which may be an evaluation or ask for one. Where it is refused, some of it may stay.
    #[cycle(open)]
    fn step_or_evaluate(
        &mut self,
        environment: &[Clause],
        run: &mut OpenRun,
        entry: &RuleEntry,
    ) -> Result<(), Fault>
        ensures steps { OnOk result (Steps environment.now entry.now self.old (open_progress run.old) self.new (open_progress run.new)) }
        ensures refused { WhenRefused result (StepRefused environment.now entry.now self.old (open_progress run.old) self.new) }
        ensures listed { AreListed (entry.now ∷ []) self.old self.new }
        ensures goes_back { GoesBack self.old self.new }
        ensures fault { IsFaultFor self.old self.new result }
    {
        match entry {
            RuleEntry::Evaluation => self.evaluate_pending(),
            RuleEntry::Term(expected, term) => {
                let certainty = self.give_term(environment, &run.named, expected, term)?;
                Ok(run.join(certainty))
            }
            RuleEntry::Arguments(arguments) => {
                let found = self.name_arguments(environment, &run.named, arguments)?;
                run.name(found)
            }
            _ => self.step_through(environment, run, entry),
        }
    }
}
