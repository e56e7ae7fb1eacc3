//! What the calls answer by the outcome of an evaluation, and where it is stopped.
ghost use Rattle.std.specs.Prelude.{◌≡◌, ◌≢◌, ◌⊎◌, true, false, [], None, Ok, Err, IfOk, IfErr};
ghost use Rattle.goal_terms.specs.declared.answers.Certainty.TheVariants as certainty;
ghost use Rattle.goal_terms.specs.declared.modes.TypingMode.{TypingMode as modes};
ghost use Rattle.goal_lists.specs.Settings.{is_headline};
ghost use Rattle.goal_solver.specs.Accesses.{RecordsCaused, EndsFor, RecordsCausedFaults};
ghost use Rattle.goal_solver.specs.Answers.{IsOwed, level_over, IsPredicateAnswer, IsUndecided, IsMaybe, IsFaultOf, IsStopped, AnswersQuietly, AnswersAside, ListsNothing, IsConclusion};
ghost use Rattle.goal_solver.specs.Binding.{IsApplicable};
ghost use Rattle.goal_solver.specs.Evaluations.{predicate_seen};
ghost use Rattle.goal_solver.specs.GoingBack.{GoesBack, restored};
ghost use Rattle.goal_solver.specs.Promises.{LeavesUndecided};
ghost use Rattle.goal_solver.specs.Relating.{SaysYes, Refuses, IsFaultFor};
ghost use Rattle.goal_solver.specs.State.{kinds_of};
ghost use Rattle.std.specs.Prelude.{length};

use crate::context::EvalCtxt;
use crate::eval::predicate_views::PredicateView;
use crate::faults::Fault;
use goal_eval::eval::outcomes::Stop;
use goal_eval::eval::region_constraints::RegionConstraints;
use goal_lists::outcomes::Outcome;
use goal_terms::answers::{Certainty, Response};
use goal_terms::modes::TypingMode;
use goal_terms::predicates::Clause;

impl EvalCtxt<'_> {
    /// The fault that a call answers where its evaluation was stopped. Where a rule reads a mode, the erased mode
    /// records it, and the goal is to be run again in another mode. Inference state, added goals and storage are as
    /// before.
    pub(crate) fn stopped(&mut self, stop: Stop) -> Result<Response, Fault>
        ensures ends { IsStopped result }
        ensures faults { self.new.delayed_faults ≡ self.old.delayed_faults }
        ensures unchanged { self.new ≡ restored self.old self.new }
        ensures goes_back { GoesBack self.old self.new }
        ensures fault { IsFaultOf self.old self.new result }
        ensures quiet { AnswersQuietly (length (kinds_of self.old)) result }
        ensures aside { AnswersAside (length (kinds_of self.old)) result }
        ensures nothing { ListsNothing result }
        ensures unsure { IfOk result (λ r. r.certainty ≢ certainty.Yes) }
        ensures caused { EndsFor self.old stop → RecordsCaused self.old self.new }
        ensures never { result ≡ Err Fault.NoSolution → ⊥ }
    {
        let certainty = self.undecided_by(stop)?;
        Ok(self.respond(certainty, None))
    }

    /// What equating terms answers where its evaluation was stopped, as `stopped` does for a goal. Only a run in the
    /// erased mode is stopped by an access. Inference state, added goals and storage are as before.
    pub(crate) fn undecided_by(&mut self, stop: Stop) -> Result<Certainty, Fault>
        ensures ends { IsStopped result }
        ensures memory { stop ≡ Stop.OutOfMemory → result ≡ Err Fault.OutOfMemory }
        ensures undecided { SaysYes result ⊎ Refuses result → ⊥ }
        ensures caused { EndsFor self.old stop → RecordsCaused self.old self.new }
        ensures alone { self.new ≡ record self.old { accesses = self.new.accesses } }
        ensures goes_back { GoesBack self.old self.new }
        ensures fault { IsFaultFor self.old self.new result }
    {
        let Stop::ReadsMode(access) = stop else {
            return Err(Fault::OutOfMemory);
        };
        if !self.is_erased() {
            return Err(Fault::OutOfMemory);
        }
        self.record_access(access)?;
        Err(Fault::RerunNonErased)
    }

    /// What a call answers to a goal that holds or not. A `Yes` lists region variables and equations.
    pub(crate) fn conclude(
        &mut self,
        outcome: Result<Outcome, Stop>,
        listed: RegionConstraints,
    ) -> Result<Response, Fault>
        ensures owed { IsConclusion outcome result }
        ensures yes { IfOk result (λ r. r.certainty ≡ certainty.Yes → outcome ≡ Ok Outcome.Holds) }
        ensures no { result ≡ Err Fault.NoSolution → outcome ≡ Ok Outcome.Refuted }
        ensures caused { IfErr outcome (EndsFor self.old) → RecordsCaused self.old self.new }
        ensures faults { self.new.delayed_faults ≡ self.old.delayed_faults }
        ensures unchanged { self.new ≡ restored self.old self.new }
        ensures goes_back { GoesBack self.old self.new }
        ensures fault { IsFaultOf self.old self.new result }
        ensures lists { IfOk result (λ r. r.var_values.items ≡ []) }
        ensures no_class { IfOk result (λ r. r.proven_via ≡ None) }
        ensures quiet { AnswersAside (length (kinds_of self.old)) result }
    {
        match outcome {
            Ok(Outcome::Holds) => Ok(self.respond_yes(None, listed)),
            Ok(Outcome::Refuted) => Err(Fault::NoSolution),
            Ok(Outcome::Undecided) => Ok(self.respond(Certainty::Maybe, None)),
            Err(stop) => self.stopped(stop),
        }
    }

    /// What is answered to a closed goal that a trait holds as a const trait, or that an alias and a term are equal.
    pub(crate) fn answer_predicate(
        &mut self,
        asked: PredicateView<'_>,
        environment: &[Clause],
    ) -> Result<Response, Fault>
        ensures sound { (m : modes) → IsOwed self.new m → IsPredicateAnswer (level_over self.old m environment.now) (predicate_seen asked.entry) result }
        ensures decided { (m : modes) → IsOwed self.new m → IsMaybe result → IsUndecided (level_over self.old m environment.now) (predicate_seen asked.entry) }
        ensures unchanged { self.new ≡ restored self.old self.new }
        ensures goes_back { GoesBack self.old self.new }
        ensures fault { IsFaultOf self.old self.new result }
        ensures caused { RecordsCaused self.old self.new }
        ensures faults { RecordsCausedFaults self.old self.new }
        ensures quiet { AnswersAside (length (kinds_of self.old)) result }
        ensures lists { IfOk result (λ r. r.var_values.items ≡ []) }
        ensures no_class { IfOk result (λ r. r.proven_via ≡ None) }
        ensures at_once { self.old.remaining_depth ≡ 0 → LeavesUndecided self.old result }
        ensures applies { IfOk result (IsApplicable self.new) }
    {
        self.is_well_formed();
        if self.remaining_depth() == 0 {
            return Ok(self.respond(Certainty::Maybe, None));
        }
        let mut listed = RegionConstraints::new(self.allocator());
        let outcome = self.predicate_goal_outcome(asked, environment, &mut listed);
        self.conclude(outcome, listed)
    }

    /// Whether the typing mode is the erased one.
    pub(crate) fn is_erased(&self) -> bool
        ensures yes { result ≡ true → self.now.typing_mode ≡ TypingMode.ErasedNotCoherence }
        ensures no { result ≡ false → self.now.typing_mode ≢ TypingMode.ErasedNotCoherence }
    {
        matches!(self.typing_mode, TypingMode::ErasedNotCoherence)
    }
}
