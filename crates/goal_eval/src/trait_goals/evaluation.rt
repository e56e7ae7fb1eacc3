//! Trait goals: by which class of candidates they hold.
ghost use Rattle.std.specs.Prelude.{IfErr, ◌≡◌, ◌≢◌, None, IfOk};
ghost use Rattle.goal_interner.specs.TableMeaning.{Keeps};
ghost use Rattle.goal_lists.specs.Interned.{AreIn, erased_all};
ghost use Rattle.goal_eval.specs.AskedTraits.{AskedIn};
ghost use Rattle.goal_eval.specs.Outcomes.{ForEachMode, SaysTrait};
ghost use Rattle.goal_eval.specs.TraitOutcomes.{SaysAskedClasses};
ghost use Rattle.goal_eval.specs.Effects.{AreSound, IsStop};

use crate::assembly::candidates::{AskedTrait, class_outcome};
use crate::eval::effects::Effects;
use crate::eval::head_forms::head_form;
use crate::eval::interning::intern_trait_ref;
use crate::eval::listed_regions::KeptGoal;
use crate::eval::outcomes::{Found, Setting, Stop};
use crate::eval::self_types::{split_self_type, with_self_type};
use goal_interner::term_nodes::TermId;
use goal_interner::term_table::TermTable;
use goal_lists::outcomes::TraitOutcome;
use goal_terms::answers::TraitGoalProvenVia;
use goal_terms::ids::TraitId;

/// Whether a trait goal holds at a depth, and through which class. What an evaluation knows isn't evaluated again.
#[tactic(auto, using(crate::proofs::CacheLemmas::caching))]
#[cycle(closed)]
pub fn evaluate_trait_goal(
    setting: &Setting<'_>,
    terms: &mut TermTable,
    effects: &mut Effects,
    trait_id: TraitId,
    args: &[TermId],
    depth: u32,
) -> Result<TraitOutcome, Stop>
    requires effects { AreSound setting.now terms.old effects.old }
    requires args { AreIn terms.old args.now }
    ensures effects { AreSound setting.now terms.new effects.new }
    ensures kept { Keeps terms.old terms.new }
    ensures stops { IfErr result (IsStop setting.now) }
    ensures says { ForEachMode setting.now depth (λ _ L. IfOk result (SaysTrait L trait_id (erased_all terms.old args.now))) }
{
    if depth == 0 {
        return Ok(TraitOutcome::Undecided);
    }
    let goal = intern_trait_ref(setting.allocator(), terms, trait_id, args)?;
    if let Some(known) = effects.known_trait(goal, depth)? {
        return Ok(known);
    }
    let before = effects.begin_goal();
    let outcome = fresh_trait_outcome(setting, terms, effects, trait_id, args, depth)?;
    effects.end_goal(KeptGoal::Plain(goal), before, outcome.held())?;
    effects.cache.keep_trait(goal, depth, outcome);
    Ok(outcome)
}

/// Whether a trait goal that isn't known holds at a depth, and through which class: by the head form of its self
/// type.
#[cycle(closed)]
fn fresh_trait_outcome(
    setting: &Setting<'_>,
    terms: &mut TermTable,
    effects: &mut Effects,
    trait_id: TraitId,
    args: &[TermId],
    depth: u32,
) -> Result<TraitOutcome, Stop>
    requires effects { AreSound setting.now terms.old effects.old }
    requires args { AreIn terms.old args.now }
    requires above { depth ≢ 0 }
    ensures effects { AreSound setting.now terms.new effects.new }
    ensures kept { Keeps terms.old terms.new }
    ensures stops { IfErr result (IsStop setting.now) }
    ensures says { ForEachMode setting.now depth (λ _ L. IfOk result (SaysTrait L trait_id (erased_all terms.old args.now))) }
{
    let Some((first, rest)) = split_self_type(args) else {
        return Ok(TraitOutcome::Undecided);
    };
    match head_form(setting, terms, effects, first, depth - 1)? {
        Found::Undecided => Ok(TraitOutcome::Undecided),
        Found::Refuted => Ok(TraitOutcome::Refuted),
        Found::Is(self_ty) => {
            let replaced = with_self_type(setting.rows, self_ty, rest)?;
            let asked = AskedTrait {
                constness: None,
                trait_id,
                self_ty,
                args: replaced.as_slice(),
            };
            decide_trait(setting, terms, effects, &asked, depth - 1)
        }
    }
}

/// What a trait goal comes to at a depth, where its self type is a head form: the first class of candidates
/// that isn't refuted decides.
#[cycle(closed)]
fn decide_trait(
    setting: &Setting<'_>,
    terms: &mut TermTable,
    effects: &mut Effects,
    asked: &AskedTrait<'_>,
    depth: u32,
) -> Result<TraitOutcome, Stop>
    requires effects { AreSound setting.now terms.old effects.old }
    requires asked { AskedIn terms.old asked.now }
    requires plain { asked.now.constness ≡ None }
    ensures effects { AreSound setting.now terms.new effects.new }
    ensures kept { Keeps terms.old terms.new }
    ensures stops { IfErr result (IsStop setting.now) }
    ensures says { ForEachMode setting.now depth (λ S L. IfOk result (SaysAskedClasses S L terms.old asked.now)) }
{
    let class = TraitGoalProvenVia::ParamEnv;
    let environment = class_outcome(setting, terms, effects, asked, class, depth)?;
    if let Some(decided) = environment.through(class) {
        return Ok(decided);
    }
    let class = TraitGoalProvenVia::AliasBound;
    let bounds = class_outcome(setting, terms, effects, asked, class, depth)?;
    if let Some(decided) = bounds.through(class) {
        return Ok(decided);
    }
    let class = TraitGoalProvenVia::Misc;
    let rest = class_outcome(setting, terms, effects, asked, class, depth)?;
    match rest.through(class) {
        Some(decided) => Ok(decided),
        None => Ok(TraitOutcome::Refuted),
    }
}
