//! Questions about terms without inference variables, put to the evaluation.
ghost use Rattle.std.specs.Prelude.{◌≡◌, IfOk, IfErr};
ghost use Rattle.goal_interner.specs.TableMeaning.{Keeps};
ghost use Rattle.goal_terms.specs.declared.modes.TypingMode.{TypingMode};
ghost use Rattle.goal_lists.specs.Answers.{setting_of};
ghost use Rattle.goal_eval.specs.Effects.{AreSound, IsStop};
ghost use Rattle.goal_eval.specs.Outcomes.{RunsAs, RunsFor, setting_in};
ghost use Rattle.goal_solver.specs.Accesses.{RecordsCaused, EndsFor, RecordsCausedFaults};
ghost use Rattle.goal_solver.specs.Answers.{IsOwed};
ghost use Rattle.goal_solver.specs.Evaluations.{StopsForMemory};
ghost use Rattle.goal_solver.specs.GoingBack.{GoesBack, restored};

use crate::context::EvalCtxt;
use goal_eval::eval::effects::Effects;
use goal_eval::eval::outcomes::{OnAccess, Setting, Stop};
use goal_eval::eval::region_constraints::RegionConstraints;
use goal_interner::term_table::TermTable;
use goal_terms::predicates::Clause;

/// A question about terms without inference variables, which the evaluation answers at a depth.
pub(crate) trait Question {
    ghost use Rattle.std.specs.Prelude.{ℕ, List};
    ghost use Rattle.goal_terms.specs.Tree.{Tree};
    ghost use Rattle.goal_lists.specs.Settings.{Setting as over};

    type Answer: Drop;

    /// Whether a `Yes` lists what it is asked for of lifetimes.
    const LISTS_REGIONS: bool;

    /// Whether its terms are in a table.
    ghost can_ask: { List Tree → Self → Type 0 };

    /// Whether an answer's terms are in a table.
    ghost within: { List Tree → Self.Answer → Type 0 };

    /// What an answer says over a setting, at a depth: of the question's terms in one table, and the answer's in
    /// another.
    ghost says: { over → ℕ → List Tree → Self → List Tree → Self.Answer → Type 0 };

    /// Where it ends for want of memory alone.
    ghost ends_for_memory: { List Tree → Self → Type 0 };

    /// What it comes to at a depth, in a run.
    fn ask(
        &self,
        setting: &Setting<'_>,
        terms: &mut TermTable,
        effects: &mut Effects,
        depth: u32,
    ) -> Result<Self::Answer, Stop>
        requires effects { AreSound setting.now terms.old effects.old }
        requires asked { can_ask terms.old self.now }
        ensures effects { AreSound setting.now terms.new effects.new }
        ensures kept { Keeps terms.old terms.new }
        ensures within { IfOk result (within terms.new) }
        ensures stops { IfErr result (IsStop setting.now) }
        ensures says { (m : TypingMode) → RunsFor setting.now m →
            IfOk result (says (setting_in setting.now m) depth terms.old self.now terms.new) }
        ensures memory { ends_for_memory terms.old self.now → IfErr result (λ s. s ≡ Stop.OutOfMemory) };

    /// A table that has grown still has its terms.
    ghost asked_again: { (T U : List Tree) (q : Self) → Keeps T U → can_ask T q → can_ask U q };

    /// What is said of its terms in a table that has grown is said of them in the one before.
    ghost said_before: { (S : over) (n : ℕ) (T U V : List Tree) (q : Self) (o : Self.Answer) →
        Keeps T U → can_ask T q → says S n U q V o → says S n T q V o };

    /// Where it ends for want of memory alone, it does so over a table that has grown.
    ghost ends_so_again: { (T U : List Tree) (q : Self) → Keeps T U → can_ask T q → ends_for_memory T q → ends_for_memory U q };
}

impl EvalCtxt<'_> {
    /// What a question comes to at a depth, and what a `Yes` lists of lifetimes if it is asked for. Nothing changes but
    /// that there may be more terms, accesses and delayed faults.
    pub(crate) fn evaluate<Q: Question>(
        &mut self,
        question: &Q,
        environment: &[Clause],
        depth: u32,
        listed: &mut RegionConstraints,
    ) -> Result<Q::Answer, Stop>
        requires { Q.can_ask self.old.terms question.now }
        ensures kept { Keeps self.old.terms self.new.terms }
        ensures unchanged { self.new ≡ restored self.old self.new }
        ensures goes_back { GoesBack self.old self.new }
        ensures within { IfOk result (Q.within self.new.terms) }
        ensures says { (m : TypingMode) → IsOwed self.new m →
            IfOk result (Q.says (setting_of self.old.tables m environment.now) depth self.old.terms question.now self.new.terms) }
        ensures memory { Q.ends_for_memory self.old.terms question.now → IfErr result (λ s. s ≡ Stop.OutOfMemory) }
        ensures caused { RecordsCaused self.old self.new }
        ensures faults { RecordsCausedFaults self.old self.new }
        ensures ends { IfErr result (EndsFor self.old) }
        ensures stops { StopsForMemory self.old result }
    {
        let on_access = self.first_access();
        let first = self.run_question(on_access, question, environment, depth, listed);
        if let Some(answer) = self.first_answer(first)? {
            return Ok(answer);
        }
        self.run_question(OnAccess::Record, question, environment, depth, listed)
    }

    /// One run of a question at a depth.
    fn run_question<Q: Question>(
        &mut self,
        on_access: OnAccess,
        question: &Q,
        environment: &[Clause],
        depth: u32,
        listed: &mut RegionConstraints,
    ) -> Result<Q::Answer, Stop>
        requires { Q.can_ask self.old.terms question.now }
        ensures kept { Keeps self.old.terms self.new.terms }
        ensures unchanged { self.new ≡ restored self.old self.new }
        ensures goes_back { GoesBack self.old self.new }
        ensures within { IfOk result (Q.within self.new.terms) }
        ensures says { (m : TypingMode) → RunsAs on_access self.old.typing_mode m →
            IfOk result (Q.says (setting_of self.old.tables m environment.now) depth self.old.terms question.now self.new.terms) }
        ensures memory { Q.ends_for_memory self.old.terms question.now → IfErr result (λ s. s ≡ Stop.OutOfMemory) }
        ensures caused { RecordsCaused self.old self.new }
        ensures faults { RecordsCausedFaults self.old self.new }
        ensures ends { IfErr result (EndsFor self.old) }
        ensures stops { StopsForMemory self.old result }
    {
        let mut effects = self.no_effects(Q::LISTS_REGIONS);
        let setting = Setting {
            rows: self.tables.rows(),
            typing_mode: &self.typing_mode,
            on_access,
            environment,
        };
        let answer = question.ask(&setting, &mut self.terms, &mut effects, depth);
        self.record_listed(&effects, listed)?;
        answer
    }
}
