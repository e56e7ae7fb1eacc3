//! Which runs an evaluation takes in a typing mode.
ghost use Rattle.std.specs.Prelude.{◌≡◌, true, false, None, Ok, OnOk, IfOk, IfErr, IfSome};
ghost use Rattle.goal_terms.specs.declared.modes.TypingMode.{TypingMode as modes};
ghost use Rattle.goal_solver.specs.Accesses.{RecordsCaused, EndsFor};
ghost use Rattle.goal_solver.specs.Answers.{IsOwed, IsFinalIn};
ghost use Rattle.goal_solver.specs.GoingBack.{GoesBack};
ghost use Rattle.goal_eval.specs.Outcomes.{RunsAs};
ghost use Rattle.goal_solver.specs.Recording.{is_ambiguous};

use crate::context::EvalCtxt;
use goal_eval::eval::mode_tests::is_headline;
use goal_eval::eval::outcomes::{OnAccess, Stop};
use goal_terms::answers::OpaqueAccess;
use goal_terms::modes::TypingMode;
use goal_terms::terms::AliasTermKind;

impl EvalCtxt<'_> {
    /// What the first run of an evaluation does at an access. In the erased mode it ends there: what it finds
    /// without one is right in every headline mode. In coherence and where opaque types are being defined the
    /// only run goes on.
    #[tactic(auto, unfolding(goal_eval::specs::Outcomes::RunsAs))]
    pub(crate) fn first_access(&self) -> OnAccess
        ensures runs_for { (m : modes) → IsFinalIn self.now.typing_mode m → RunsAs result self.now.typing_mode m }
    {
        if self.is_erased() || is_headline(&self.typing_mode) {
            OnAccess::Stop
        } else {
            OnAccess::Record
        }
    }

    /// What the first run of an evaluation found, or none where it was stopped at an access and another one is to
    /// go on past it; then the access is recorded. Else the stop is handed on.
    pub(crate) fn first_answer<T>(&mut self, first: Result<T, Stop>) -> Result<Option<T>, Stop>
        ensures found { IfOk result (λ o. IfSome o (λ x. (first ≡ Ok x) × (self.new ≡ self.old))) }
        ensures on { IfOk result (λ o. o ≡ None → (m : modes) → IsOwed self.new m → RunsAs OnAccess.Record self.new.typing_mode m) }
        ensures unchanged { self.new ≡ record self.old { accesses = self.new.accesses } }
        ensures goes_back { GoesBack self.old self.new }
        ensures caused { IfErr first (EndsFor self.old) → RecordsCaused self.old self.new }
        ensures ends { IfErr first (EndsFor self.old) → IfErr result (EndsFor self.old) }
        ensures stops { IfErr first (λ s. s ≡ Stop.OutOfMemory) → IfErr result (λ s. s ≡ Stop.OutOfMemory) }
    {
        match first {
            Ok(found) => Ok(Some(found)),
            Err(stop) => {
                self.go_on(stop)?;
                Ok(None)
            }
        }
    }

    /// Records the access at which a run in the erased mode was stopped, if another one may go on past it. Else
    /// the stop is handed on: where the context ends at accesses, where the rule has no answer without a mode,
    /// and where memory was refused.
    fn go_on(&mut self, stop: Stop) -> Result<(), Stop>
        ensures recorded { OnOk result ((m : modes) → IsOwed self.new m → RunsAs OnAccess.Record self.new.typing_mode m) }
        ensures unchanged { self.new ≡ record self.old { accesses = self.new.accesses } }
        ensures goes_back { GoesBack self.old self.new }
        ensures caused { EndsFor self.old stop → RecordsCaused self.old self.new }
        ensures ends { EndsFor self.old stop → IfErr result (EndsFor self.old) }
        ensures stops { stop ≡ Stop.OutOfMemory → IfErr result (λ s. s ≡ Stop.OutOfMemory) }
    {
        let Stop::ReadsMode(access) = stop else {
            return Err(stop);
        };
        if self.is_stopped_by(access) {
            return Err(stop);
        }
        self.meet_access(access)
    }

    /// Whether an access ends the evaluation: in each mode but the erased one; there if the context stops at
    /// accesses, or the rule has no answer without a mode.
    pub(crate) fn is_stopped_by(&self, access: OpaqueAccess) -> bool
        ensures { result ≡ false → self.now.typing_mode ≡ TypingMode.ErasedNotCoherence }
    {
        self.stop_on_rerun || matches!(access, OpaqueAccess::Always) || !self.is_erased()
    }

    /// Whether an alias's goal is ambiguous whatever the rows say: that of an opaque type in coherence.
    pub(crate) fn is_ambiguous(&self, kind: AliasTermKind) -> bool
        ensures { result ≡ is_ambiguous self.now.typing_mode kind }
    {
        match (&self.typing_mode, kind) {
            (TypingMode::Coherence, AliasTermKind::OpaqueTy(_)) => true,
            _ => false,
        }
    }
}
