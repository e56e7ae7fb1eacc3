//! Host effect goals: whether a trait holds as a const trait.
ghost use Rattle.std.specs.Prelude.{IfErr, ◌≢◌, IfOk};
ghost use Rattle.goal_interner.specs.TableMeaning.{Keeps};
ghost use Rattle.goal_lists.specs.Interned.{AreIn, erased_all};
ghost use Rattle.goal_eval.specs.AskedTraits.{AskedIn, SaysGroups, asked_via};
ghost use Rattle.goal_eval.specs.Outcomes.{ForEachMode, SaysConst};
ghost use Rattle.goal_eval.specs.Effects.{AreSound, IsStop};

use crate::assembly::candidates::{AskedTrait, candidates_outcome, class_outcome};
use crate::eval::effects::Effects;
use crate::eval::head_forms::head_form;
use crate::eval::interning::intern_trait_ref;
use crate::eval::listed_regions::KeptGoal;
use crate::eval::outcomes::{Found, Setting, Stop};
use crate::eval::self_types::{split_self_type, with_self_type};
use crate::trait_goals::evaluation::evaluate_trait_goal;
use goal_interner::term_nodes::TermId;
use goal_interner::term_table::TermTable;
use goal_lists::candidates::lists::{Sought, second_group};
use goal_lists::outcomes::{Outcome, TraitOutcome};
use goal_terms::answers::TraitGoalProvenVia;
use goal_terms::ids::TraitId;
use goal_terms::predicates::BoundConstness;

/// A trait with its arguments, which is asked as a const trait of a constness.
#[derive(Clone, Copy)]
pub struct ConstGoal<'a> {
    pub constness: BoundConstness,
    pub trait_id: TraitId,
    pub args: &'a [TermId],
}

/// Whether a trait holds at a depth as a const trait of a constness. What an evaluation knows isn't evaluated
/// again.
#[tactic(auto, using(crate::proofs::CacheLemmas::caching))]
#[cycle(closed)]
pub(crate) fn evaluate_host_effect_goal(
    setting: &Setting<'_>,
    terms: &mut TermTable,
    effects: &mut Effects,
    const_goal: &ConstGoal<'_>,
    depth: u32,
) -> Result<Outcome, Stop>
    requires effects { AreSound setting.now terms.old effects.old }
    requires args { AreIn terms.old const_goal.now.args.now }
    ensures effects { AreSound setting.now terms.new effects.new }
    ensures kept { Keeps terms.old terms.new }
    ensures stops { IfErr result (IsStop setting.now) }
    ensures says { ForEachMode setting.now depth (λ _ L. IfOk result (SaysConst L const_goal.now.constness const_goal.now.trait_id (erased_all terms.old const_goal.now.args.now))) }
{
    if depth == 0 {
        return Ok(Outcome::Undecided);
    }
    let ConstGoal {
        constness,
        trait_id,
        args,
    } = *const_goal;
    let goal = intern_trait_ref(setting.allocator(), terms, trait_id, args)?;
    if let Some(known) = effects.known_const(constness, goal, depth)? {
        return Ok(known);
    }
    let before = effects.begin_goal();
    let outcome = fresh_host_effect_outcome(setting, terms, effects, const_goal, depth)?;
    effects.end_goal(KeptGoal::Const(constness, goal), before, outcome)?;
    effects.cache.keep_const(constness, goal, depth, outcome);
    Ok(outcome)
}

/// Whether a const trait goal that isn't known holds at a depth: where the plain goal holds, by the candidates
/// for the head form of its self type.
#[tactic(auto, using(crate::proofs::CacheLemmas::caching))]
#[cycle(closed)]
fn fresh_host_effect_outcome(
    setting: &Setting<'_>,
    terms: &mut TermTable,
    effects: &mut Effects,
    const_goal: &ConstGoal<'_>,
    depth: u32,
) -> Result<Outcome, Stop>
    requires effects { AreSound setting.now terms.old effects.old }
    requires args { AreIn terms.old const_goal.now.args.now }
    requires above { depth ≢ 0 }
    ensures effects { AreSound setting.now terms.new effects.new }
    ensures kept { Keeps terms.old terms.new }
    ensures stops { IfErr result (IsStop setting.now) }
    ensures says { ForEachMode setting.now depth (λ _ L. IfOk result (SaysConst L const_goal.now.constness const_goal.now.trait_id (erased_all terms.old const_goal.now.args.now))) }
{
    let ConstGoal {
        constness,
        trait_id,
        args,
    } = *const_goal;
    let Some((first, rest)) = split_self_type(args) else {
        return Ok(Outcome::Undecided);
    };
    let lists = effects.leave_out_regions();
    let plain = evaluate_trait_goal(setting, terms, effects, trait_id, args, depth - 1)?;
    effects.list_regions_again(lists);
    let TraitOutcome::Holds(class) = plain else {
        return Ok(plain.held());
    };
    let found = head_form(setting, terms, effects, first, depth - 1)?;
    let Found::Is(self_ty) = found else {
        return Ok(Outcome::Undecided);
    };
    let replaced = with_self_type(setting.rows, self_ty, rest)?;
    let asked = AskedTrait {
        constness: Some(constness),
        trait_id,
        self_ty,
        args: replaced.as_slice(),
    };
    groups_outcome(setting, terms, effects, &asked, class, depth - 1)
}

/// Whether the candidates for a trait that holds through a class show at a depth that it does so as it is
/// asked: those of the environment, and if these are refuted, those that go by the class.
#[tactic(auto, using(crate::proofs::CacheLemmas::caching))]
#[cycle(closed)]
pub fn groups_outcome(
    setting: &Setting<'_>,
    terms: &mut TermTable,
    effects: &mut Effects,
    asked: &AskedTrait<'_>,
    class: TraitGoalProvenVia,
    depth: u32,
) -> Result<Outcome, Stop>
    requires effects { AreSound setting.now terms.old effects.old }
    requires asked { AskedIn terms.old asked.now }
    ensures effects { AreSound setting.now terms.new effects.new }
    ensures kept { Keeps terms.old terms.new }
    ensures stops { IfErr result (IsStop setting.now) }
    ensures says { ForEachMode setting.now depth (λ S L. IfOk result (SaysGroups S L terms.old (asked_via asked.now class))) }
{
    let environment = TraitGoalProvenVia::ParamEnv;
    let first = class_outcome(setting, terms, effects, asked, environment, depth)?;
    let Outcome::Refuted = first else {
        return Ok(first);
    };
    let sought = Sought {
        trait_id: asked.trait_id,
        item: None,
        self_ty: asked.self_ty,
        args: asked.args,
    };
    let candidates = second_group(setting.rows, terms, &sought, class)?;
    candidates_outcome(setting, terms, effects, asked, &candidates, depth)
}
