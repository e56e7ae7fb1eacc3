//! The terms that candidates give projections, by their lists.
ghost use Rattle.std.specs.Prelude.{◌≡◌, IfErr, IfOk};
ghost use Rattle.goal_interner.specs.TableMeaning.{Keeps};
ghost use Rattle.goal_lists.specs.Causes.{IsCausedList};
ghost use Rattle.goal_lists.specs.Interned.{CandidateIn, candidate_at};
ghost use Rattle.goal_lists.specs.InternedEntries.{ListIn};
ghost use Rattle.goal_eval.specs.Lists.{GoesBy};
ghost use Rattle.goal_eval.specs.Outcomes.{FoundIn, ProjectionIn, ForEachMode, ForEachSetting};
ghost use Rattle.goal_eval.specs.SpecialImpls.{IsOfRows, is_term, given_beside};
ghost use Rattle.goal_eval.specs.ProjectionTerms.{SaysConsidered, SaysGivenBy, term_list};
ghost use Rattle.goal_eval.specs.Effects.{AreSound, IsStop};

use crate::assembly::specialized::more_special_outcome;
use crate::eval::effects::Effects;
use crate::eval::lists::run_list;
use crate::eval::outcomes::{Found, Projection, Setting, Stop};
use goal_interner::term_nodes::OutOfMemory;
use goal_interner::term_table::TermTable;
use goal_lists::candidates::interned::InternedCandidate;
use goal_lists::lists::projections::projection_list;
use goal_lists::lists::{AskedProjection, InternedEntry};
use goal_lists::outcomes::Outcome;
use goal_terms::modes::TypingMode;
use goal_terms::slices::first_of;

/// What a candidate gives a projection: nothing where it is ruled out. Whether it decides is told beside.
#[derive(Clone, Copy)]
pub(crate) struct GivenTerm {
    pub(crate) found: Found,
    pub(crate) decides: bool,
}

/// The term that a candidate gives a projection.
#[tactic(auto, using(crate::proofs::CacheLemmas::caching))]
#[cycle(closed)]
pub(crate) fn candidate_term(
    setting: &Setting<'_>,
    terms: &mut TermTable,
    effects: &mut Effects,
    projection: &Projection<'_>,
    candidate: &InternedCandidate<'_>,
    depth: u32,
) -> Result<Found, Stop>
    requires effects { AreSound setting.now terms.old effects.old }
    requires projection { ProjectionIn terms.old projection.now }
    requires candidate { CandidateIn terms.old candidate.now }
    ensures effects { AreSound setting.now terms.new effects.new }
    ensures kept { Keeps terms.old terms.new }
    ensures within { IfOk result (FoundIn terms.new) }
    ensures stops { IfErr result (IsStop setting.now) }
    ensures says { ForEachMode setting.now depth (λ S L. IfOk result (SaysGivenBy S L terms.old projection.now (candidate_at terms.old candidate.now) terms.new)) }
{
    let list = candidate_list(&*setting, terms, &*projection, &*candidate)?;
    let outcome = run_list(setting, terms, effects, &list, depth)?;
    Ok(outcome.term())
}

/// What a candidate gives a projection, beside the impls that are more special than it. Only one that decides leaves
/// equations of lifetimes.
#[tactic(auto, using(crate::proofs::CacheLemmas::caching))]
#[cycle(closed)]
pub(crate) fn consider_term(
    setting: &Setting<'_>,
    terms: &mut TermTable,
    effects: &mut Effects,
    projection: &Projection<'_>,
    candidate: &InternedCandidate<'_>,
    depth: u32,
) -> Result<GivenTerm, Stop>
    requires effects { AreSound setting.now terms.old effects.old }
    requires projection { ProjectionIn terms.old projection.now }
    requires candidate { CandidateIn terms.old candidate.now }
    requires row { IsOfRows setting.now.rows.now candidate.now }
    ensures effects { AreSound setting.now terms.new effects.new }
    ensures kept { Keeps terms.old terms.new }
    ensures within { IfOk result (λ g. FoundIn terms.new g.found) }
    ensures stops { IfErr result (IsStop setting.now) }
    ensures says { ForEachMode setting.now depth (λ S L. IfOk result (SaysConsidered S L terms.old projection.now (candidate_at terms.old candidate.now) terms.new)) }
{
    let before = effects.regions.mark();
    let found = candidate_term(setting, terms, effects, projection, candidate, depth)?;
    if let Found::Refuted = found {
        return Ok(GivenTerm {
            found: Found::Refuted,
            decides: false,
        });
    }
    let args = first_of(projection.args, projection.trait_params);
    let own = effects.regions.mark();
    let special = more_special_outcome(setting, terms, effects, args, candidate, depth)?;
    effects.end_special(before, own, special);
    Ok(given_beside(special, found))
}

/// What a candidate gives a projection, by what it gives and by what the impls come to that are more special.
fn given_beside(more_special: Outcome, found: Found) -> GivenTerm
    ensures { result ≡ given_beside more_special found }
{
    match more_special {
        Outcome::Holds => GivenTerm {
            found: Found::Refuted,
            decides: false,
        },
        Outcome::Refuted => GivenTerm {
            found,
            decides: is_term(found),
        },
        Outcome::Undecided => GivenTerm {
            found,
            decides: false,
        },
    }
}

/// Whether a term is found.
fn is_term(found: Found) -> bool
    ensures { result ≡ is_term found }
{
    match found {
        Found::Is(_) => true,
        Found::Refuted => false,
        Found::Undecided => false,
    }
}

/// The list of a candidate for a projection's term, by which a run goes, or none where its rule is refused.
/// The table gets the terms. Want of memory or of numbers is the only fault.
fn candidate_list<'t>(
    setting: &Setting<'t>,
    terms: &mut TermTable,
    projection: &Projection<'t>,
    candidate: &InternedCandidate<'t>,
) -> Result<Option<Vec<InternedEntry<'t>>>, OutOfMemory>
    requires projection { ProjectionIn terms.old projection.now }
    requires candidate { CandidateIn terms.old candidate.now }
    ensures kept { Keeps terms.old terms.new }
    ensures within { IfOk result (ListIn terms.new) }
    ensures caused { IfOk result (IsCausedList setting.now.rows.now) }
    ensures list { ForEachSetting setting.now (λ S. IfOk result (GoesBy setting.now terms.new (term_list S terms.old projection.now (candidate_at terms.old candidate.now)))) }
{
    let asked = AskedProjection {
        item: projection.item,
        trait_params: projection.trait_params,
        args: projection.args,
        rigid_alias: projection.rigid_alias,
    };
    let erased = TypingMode::ErasedNotCoherence;
    projection_list(setting.of_lists(&erased), terms, &asked, candidate)
}
