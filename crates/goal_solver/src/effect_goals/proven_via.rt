//! Host effect goals whose plain goals hold through a class.
ghost use Rattle.std.specs.Prelude.{◌≡◌, [], None, suc, true, IfOk, IfErr, length};
ghost use Rattle.goal_interner.specs.TableMeaning.{Keeps};
ghost use Rattle.goal_terms.specs.declared.modes.TypingMode.{TypingMode};
ghost use Rattle.goal_lists.specs.Answers.{setting_of};
ghost use Rattle.goal_lists.specs.Settings.{is_headline};
ghost use Rattle.goal_solver.specs.Answers.{IsOwed, level_over, IsPredicateAnswer, IsUndecided, IsMaybe, AnswersAside, IsFaultOf};
ghost use Rattle.goal_solver.specs.Assembled.{level_above};
ghost use Rattle.goal_solver.specs.Binding.{IsApplicable};
ghost use Rattle.goal_eval.specs.Effects.{AreSound, IsStop};
ghost use Rattle.goal_solver.specs.GoingBack.{GoesBack, restored};
ghost use Rattle.goal_solver.specs.HostGoals.{HoldsThroughClass, SaysHostAt, host_asked, through_at};
ghost use Rattle.goal_eval.specs.Outcomes.{RunsFor, setting_in, level_in};
ghost use Rattle.goal_solver.specs.State.{kinds_of};

use crate::context::EvalCtxt;
use crate::eval::questions::Question;
use crate::faults::Fault;
use goal_eval::assembly::candidates::AskedTrait;
use goal_eval::effect_goals::evaluation::groups_outcome;
use goal_eval::eval::effects::Effects;
use goal_eval::eval::head_forms::head_form;
use goal_eval::eval::interning::intern_args;
use goal_eval::eval::outcomes::{Found, Setting, Stop};
use goal_eval::eval::region_constraints::RegionConstraints;
use goal_eval::eval::self_types::{split_self_type, with_self_type};
use goal_interner::term_table::TermTable;
use goal_kinds::goal_kind::TraitView;
use goal_lists::outcomes::Outcome;
use goal_terms::answers::{Response, TraitGoalProvenVia};
use goal_terms::predicates::{BoundConstness, Clause};

/// A host effect goal whose plain goal is taken to hold through a class.
#[derive(Clone, Copy)]
pub(crate) struct HostEffectThrough<'a> {
    pub class: TraitGoalProvenVia,
    pub constness: BoundConstness,
    pub asked: TraitView<'a>,
}

/// What such a goal comes to one above a depth: by the candidates for the head form of its self type. That is
/// so where the plain goal does hold through the class at the depth.
fn outcome_proven_via(
    setting: &Setting<'_>,
    terms: &mut TermTable,
    effects: &mut Effects,
    goal: &HostEffectThrough<'_>,
    depth: u32,
) -> Result<Outcome, Stop>
    requires effects { AreSound setting.now terms.old effects.old }
    ensures effects { AreSound setting.now terms.new effects.new }
    ensures kept { Keeps terms.old terms.new }
    ensures stops { IfErr result (IsStop setting.now) }
    ensures says { (m : TypingMode) → RunsFor setting.now m → HoldsThroughClass (level_in setting.now m depth) (through_at goal.now) →
        IfOk result (SaysHostAt (setting_in setting.now m) (suc depth) (through_at goal.now)) }
{
    let ids = intern_args(setting.allocator(), terms, goal.asked.args)?;
    let Some((first, rest)) = split_self_type(&ids) else {
        return Ok(Outcome::Undecided);
    };
    let found = head_form(setting, terms, effects, first, depth)?;
    let Found::Is(self_ty) = found else {
        return Ok(Outcome::Undecided);
    };
    let replaced = with_self_type(setting.rows, self_ty, rest)?;
    let asked = AskedTrait {
        constness: Some(goal.constness),
        trait_id: goal.asked.def_id,
        self_ty,
        args: replaced.as_slice(),
    };
    groups_outcome(setting, terms, effects, &asked, goal.class, depth)
}

/// What such a goal comes to one above a depth.
impl Question for HostEffectThrough<'_> {
    ghost use Rattle.std.specs.Prelude.{suc};
    ghost use Rattle.goal_lists.specs.Levels.{level};
    ghost use Rattle.goal_solver.specs.HostGoals.{HoldsThroughClass, SaysHostAt, through_at};

    type Answer = Outcome;

    const LISTS_REGIONS: bool = true;

    ghost can_ask = { λ T q. Unit {0} };

    ghost within = { λ T o. Unit {0} };

    ghost says = { λ S n T q U o. HoldsThroughClass (level S n) (through_at q) → SaysHostAt S (suc n) (through_at q) o };

    ghost ends_for_memory = { λ T q. ⊥ };

    fn ask(
        &self,
        setting: &Setting<'_>,
        terms: &mut TermTable,
        effects: &mut Effects,
        depth: u32,
    ) -> Result<Outcome, Stop> {
        outcome_proven_via(setting, terms, effects, self, depth)
    }

    ghost asked_again = { λ T U q k h. tt };

    ghost said_before = { λ S n T U V q o k h says. says };

    ghost ends_so_again = { λ T U q k h never. never };
}

#[tactic(auto, using(crate::proofs::AnswerLemmas::answering))]
impl EvalCtxt<'_> {
    /// What such a goal comes to by the candidates at the remaining depth. Nothing changes but that there may be
    /// more terms, accesses and delayed faults.
    fn host_effect_outcome_through(
        &mut self,
        goal: &HostEffectThrough<'_>,
        environment: &[Clause],
        listed: &mut RegionConstraints,
    ) -> Result<Outcome, Stop>
        ensures kept { Keeps self.old.terms self.new.terms }
        ensures unchanged { self.new ≡ restored self.old self.new }
        ensures goes_back { GoesBack self.old self.new }
        ensures says { (m : TypingMode) → IsOwed self.new m → HoldsThroughClass (level_over self.old m environment.now) (through_at goal.now) →
            IfOk result (SaysHostAt (setting_of self.old.tables m environment.now) (suc self.old.remaining_depth) (through_at goal.now)) }
        ensures stops { is_headline self.old.typing_mode ≡ true → IfErr result (λ s. s ≡ Stop.OutOfMemory) }
    {
        let depth = self.remaining_depth();
        self.evaluate(goal, environment, depth, listed)
    }

    /// What is answered to such a goal by the candidates at the remaining depth, where the plain goal does hold
    /// through the class there. Inference state, added goals and storage are as before; the answer can be applied.
    pub(crate) fn answer_host_effect_through(
        &mut self,
        goal: &HostEffectThrough<'_>,
        environment: &[Clause],
    ) -> Result<Response, Fault>
        ensures sound { (m : TypingMode) → IsOwed self.new m → HoldsThroughClass (level_over self.old m environment.now) (through_at goal.now) →
            IsPredicateAnswer (level_above self.old m environment.now) (host_asked (through_at goal.now)) result }
        ensures decided { (m : TypingMode) → IsOwed self.new m → HoldsThroughClass (level_over self.old m environment.now) (through_at goal.now) → IsMaybe result →
            IsUndecided (level_above self.old m environment.now) (host_asked (through_at goal.now)) }
        ensures unchanged { self.new ≡ restored self.old self.new }
        ensures goes_back { GoesBack self.old self.new }
        ensures fault { IsFaultOf self.old self.new result }
        ensures quiet { AnswersAside (length (kinds_of self.old)) result }
        ensures lists { IfOk result (λ r. r.var_values.items ≡ []) }
        ensures no_class { IfOk result (λ r. r.proven_via ≡ None) }
        ensures applies { IfOk result (IsApplicable self.new) }
    {
        self.is_well_formed();
        let mut listed = RegionConstraints::new(self.allocator());
        let outcome = self.host_effect_outcome_through(goal, environment, &mut listed);
        self.conclude(outcome, listed)
    }
}
