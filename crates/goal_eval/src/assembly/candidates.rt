//! The candidates for a trait that is asked, as it is or as a const trait: each is evaluated by its list.
ghost use Rattle.std.specs.Prelude.{IfErr, IfOk, map};
ghost use Rattle.std.specs.List.{All};
ghost use Rattle.goal_interner.specs.TableMeaning.{Keeps};
ghost use Rattle.goal_lists.specs.Causes.{IsCausedList};
ghost use Rattle.goal_lists.specs.Interned.{CandidateIn, candidate_at};
ghost use Rattle.goal_lists.specs.InternedEntries.{ListIn};
ghost use Rattle.goal_eval.specs.AskedTraits.{AskedIn, candidate_list, SaysListed, SaysCandidate, SaysCandidates, asked_class};
ghost use Rattle.goal_eval.specs.SpecialImpls.{IsOfRows};
ghost use Rattle.goal_eval.specs.Lists.{GoesBy};
ghost use Rattle.goal_eval.specs.Outcomes.{ForEachMode, ForEachSetting};
ghost use Rattle.goal_eval.specs.Effects.{AreSound, IsStop};

use crate::assembly::specialized::more_special_outcome;
use crate::eval::effects::Effects;
use crate::eval::lists::run_list;
use crate::eval::outcomes::{Setting, Stop};
use goal_interner::term_nodes::{OutOfMemory, TermId};
use goal_interner::term_table::TermTable;
use goal_lists::candidates::interned::InternedCandidate;
use goal_lists::candidates::lists::{Sought, candidates_of_class};
use goal_lists::lists::InternedEntry;
use goal_lists::lists::effects::effect_list;
use goal_lists::lists::traits::trait_list;
use goal_lists::outcomes::Outcome;
use goal_terms::answers::TraitGoalProvenVia;
use goal_terms::ids::TraitId;
use goal_terms::modes::TypingMode;
use goal_terms::predicates::BoundConstness;

/// A trait whose self type is a head form, which is the first of its arguments. It is asked as a const trait
/// where a constness is.
#[derive(Clone, Copy)]
pub struct AskedTrait<'a> {
    pub constness: Option<BoundConstness>,
    pub trait_id: TraitId,
    pub self_ty: TermId,
    pub args: &'a [TermId],
}

/// The list of a candidate for a trait that is asked, or none where its rule is refused. Want of memory or
/// of numbers is the only fault.
fn candidate_list<'e>(
    setting: &Setting<'e>,
    terms: &mut TermTable,
    asked: &AskedTrait<'_>,
    candidate: &InternedCandidate<'e>,
) -> Result<Option<Vec<InternedEntry<'e>>>, OutOfMemory>
    requires asked { AskedIn terms.old asked.now }
    requires candidate { CandidateIn terms.old candidate.now }
    ensures kept { Keeps terms.old terms.new }
    ensures within { IfOk result (ListIn terms.new) }
    ensures caused { IfOk result (IsCausedList setting.now.rows.now) }
    ensures list { ForEachSetting setting.now (λ S. IfOk result (GoesBy setting.now terms.new (candidate_list S terms.old asked.now (candidate_at terms.old candidate.now)))) }
{
    let erased = TypingMode::ErasedNotCoherence;
    let lists = setting.of_lists(&erased);
    match asked.constness {
        None => trait_list(lists, terms, asked.trait_id, asked.args, candidate),
        Some(constness) => effect_list(
            lists,
            terms,
            constness,
            asked.trait_id,
            asked.args,
            candidate,
        ),
    }
}

/// What the list of a candidate comes to at a depth.
#[tactic(auto, using(crate::proofs::CacheLemmas::caching))]
#[cycle(closed)]
fn listed_outcome(
    setting: &Setting<'_>,
    terms: &mut TermTable,
    effects: &mut Effects,
    asked: &AskedTrait<'_>,
    candidate: &InternedCandidate<'_>,
    depth: u32,
) -> Result<Outcome, Stop>
    requires effects { AreSound setting.now terms.old effects.old }
    requires asked { AskedIn terms.old asked.now }
    requires candidate { CandidateIn terms.old candidate.now }
    ensures effects { AreSound setting.now terms.new effects.new }
    ensures kept { Keeps terms.old terms.new }
    ensures stops { IfErr result (IsStop setting.now) }
    ensures says { ForEachMode setting.now depth (λ S L. IfOk result (SaysListed S L terms.old asked.now (candidate_at terms.old candidate.now))) }
{
    let list = candidate_list(&*setting, terms, asked, &*candidate)?;
    let found = run_list(setting, terms, effects, &list, depth)?;
    Ok(found.held())
}

/// Whether a candidate shows at a depth that a trait holds, and decides. It is refuted where it is ruled out. Only one
/// that decides leaves equations of lifetimes.
#[tactic(auto, using(crate::proofs::CacheLemmas::caching))]
#[cycle(closed)]
pub(crate) fn consider_candidate(
    setting: &Setting<'_>,
    terms: &mut TermTable,
    effects: &mut Effects,
    asked: &AskedTrait<'_>,
    candidate: &InternedCandidate<'_>,
    depth: u32,
) -> Result<Outcome, Stop>
    requires effects { AreSound setting.now terms.old effects.old }
    requires asked { AskedIn terms.old asked.now }
    requires candidate { CandidateIn terms.old candidate.now }
    requires row { IsOfRows setting.now.rows.now candidate.now }
    ensures effects { AreSound setting.now terms.new effects.new }
    ensures kept { Keeps terms.old terms.new }
    ensures stops { IfErr result (IsStop setting.now) }
    ensures says { ForEachMode setting.now depth (λ S L. IfOk result (SaysCandidate S L terms.old asked.now (candidate_at terms.old candidate.now))) }
{
    let before = effects.regions.mark();
    let shown = listed_outcome(setting, terms, effects, asked, candidate, depth)?;
    if let Outcome::Refuted = shown {
        return Ok(Outcome::Refuted);
    }
    let own = effects.regions.mark();
    let special = more_special_outcome(setting, terms, effects, asked.args, candidate, depth)?;
    effects.end_special(before, own, special);
    Ok(shown.beside(special))
}

/// Whether one of some candidates shows at a depth that a trait holds, and decides. They are refuted where each of
/// them is ruled out.
#[cycle(closed)]
pub(crate) fn candidates_outcome(
    setting: &Setting<'_>,
    terms: &mut TermTable,
    effects: &mut Effects,
    asked: &AskedTrait<'_>,
    candidates: &[InternedCandidate<'_>],
    depth: u32,
) -> Result<Outcome, Stop>
    requires effects { AreSound setting.now terms.old effects.old }
    requires asked { AskedIn terms.old asked.now }
    requires candidates { All (CandidateIn terms.old) candidates.now }
    requires rows { All (IsOfRows setting.now.rows.now) candidates.now }
    ensures effects { AreSound setting.now terms.new effects.new }
    ensures kept { Keeps terms.old terms.new }
    ensures stops { IfErr result (IsStop setting.now) }
    ensures says { ForEachMode setting.now depth (λ S L. IfOk result (SaysCandidates S L terms.old asked.now (map (candidate_at terms.old) candidates.now))) }
{
    let mut found = Outcome::Refuted;
    for candidate in candidates {
        let next = consider_candidate(setting, terms, effects, asked, candidate, depth)?;
        found = found.or(next);
        if let Outcome::Holds = found {
            return Ok(Outcome::Holds);
        }
    }
    Ok(found)
}

/// Whether one of the candidates of a class shows at a depth that a trait holds.
#[tactic(auto, using(crate::proofs::CacheLemmas::caching))]
#[cycle(closed)]
pub(crate) fn class_outcome(
    setting: &Setting<'_>,
    terms: &mut TermTable,
    effects: &mut Effects,
    asked: &AskedTrait<'_>,
    class: TraitGoalProvenVia,
    depth: u32,
) -> Result<Outcome, Stop>
    requires effects { AreSound setting.now terms.old effects.old }
    requires asked { AskedIn terms.old asked.now }
    ensures effects { AreSound setting.now terms.new effects.new }
    ensures kept { Keeps terms.old terms.new }
    ensures stops { IfErr result (IsStop setting.now) }
    ensures says { ForEachMode setting.now depth (λ S L. IfOk result (SaysCandidates S L terms.old asked.now (asked_class S terms.old asked.now class))) }
{
    let sought = Sought {
        trait_id: asked.trait_id,
        item: None,
        self_ty: asked.self_ty,
        args: asked.args,
    };
    let rows = setting.rows;
    let candidates = candidates_of_class(rows, setting.environment, terms, &sought, class)?;
    candidates_outcome(setting, terms, effects, asked, &candidates, depth)
}
