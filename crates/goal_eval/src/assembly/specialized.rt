//! Impls that are more special than another: whether this is passed over, or decides where it holds.
ghost use Rattle.std.specs.Prelude.{◌≡◌, IfErr, IfOk};
ghost use Rattle.goal_interner.specs.TableMeaning.{Keeps};
ghost use Rattle.goal_lists.specs.Causes.{IsCausedList};
ghost use Rattle.goal_lists.specs.Candidates.{by_impl};
ghost use Rattle.goal_lists.specs.Interned.{AreIn, erased_all, candidate_at};
ghost use Rattle.goal_lists.specs.InternedEntries.{ListIn};
ghost use Rattle.goal_eval.specs.Lists.{GoesBy, list_held};
ghost use Rattle.goal_eval.specs.Outcomes.{ForEachMode, ForEachSetting};
ghost use Rattle.goal_eval.specs.SpecialImpls.{IsOfRows, IsOwnRow, SaysMoreSpecial, SaysImpl, list_of_impl};
ghost use Rattle.goal_eval.specs.Effects.{AreSound, IsStop};

use crate::eval::effects::Effects;
use crate::eval::lists::{ListOutcome, run_list};
use crate::eval::outcomes::{Setting, Stop};
use goal_interner::term_nodes::{OutOfMemory, TermId};
use goal_interner::term_table::TermTable;
use goal_lists::candidates::interned::InternedCandidate;
use goal_lists::lists::InternedEntry;
use goal_lists::lists::traits::trait_list;
use goal_lists::outcomes::Outcome;
use goal_tables::rows::ImplRow;
use goal_terms::modes::TypingMode;

/// Whether an impl that is more special than a candidate holds at a depth, for arguments of its trait. If one does,
/// the candidate is passed over; if each of them is refuted, it decides where it holds; if neither, it doesn't decide.
#[cycle(closed)]
pub(crate) fn more_special_outcome(
    setting: &Setting<'_>,
    terms: &mut TermTable,
    effects: &mut Effects,
    args: &[TermId],
    candidate: &InternedCandidate<'_>,
    depth: u32,
) -> Result<Outcome, Stop>
    requires effects { AreSound setting.now terms.old effects.old }
    requires args { AreIn terms.old args.now }
    requires row { IsOfRows setting.now.rows.now candidate.now }
    ensures effects { AreSound setting.now terms.new effects.new }
    ensures kept { Keeps terms.old terms.new }
    ensures stops { IfErr result (IsStop setting.now) }
    ensures says { ForEachMode setting.now depth (λ S L. IfOk result (SaysMoreSpecial S L (erased_all terms.old args.now) (candidate_at terms.old candidate.now))) }
{
    match candidate {
        InternedCandidate::Impl(row) => {
            impls_outcome(setting, terms, effects, args, *row, depth)
        }
        _ => Ok(Outcome::Refuted),
    }
}

/// Whether one of the impls that are more special than an impl holds at a depth. They are refuted where each of them
/// is.
#[cycle(closed)]
fn impls_outcome(
    setting: &Setting<'_>,
    terms: &mut TermTable,
    effects: &mut Effects,
    args: &[TermId],
    row: &ImplRow,
    depth: u32,
) -> Result<Outcome, Stop>
    requires effects { AreSound setting.now terms.old effects.old }
    requires args { AreIn terms.old args.now }
    requires row { IsOwnRow setting.now.rows.now row.now }
    ensures effects { AreSound setting.now terms.new effects.new }
    ensures kept { Keeps terms.old terms.new }
    ensures stops { IfErr result (IsStop setting.now) }
    ensures says { ForEachMode setting.now depth (λ S L. IfOk result (SaysMoreSpecial S L (erased_all terms.old args.now) (by_impl row.now))) }
{
    let places = setting.rows.more_special(row.id);
    let mut found = Outcome::Refuted;
    for i in 0..places.len() {
        let other = setting.rows.impl_at(places[i]);
        let next = impl_outcome(setting, terms, effects, args, other, depth)?;
        found = found.or(next);
        if let Outcome::Holds = found {
            return Ok(Outcome::Holds);
        }
    }
    Ok(found)
}

/// Whether an impl holds at a depth, for arguments of its trait.
#[tactic(auto, using(crate::proofs::CacheLemmas::caching))]
#[cycle(closed)]
fn impl_outcome(
    setting: &Setting<'_>,
    terms: &mut TermTable,
    effects: &mut Effects,
    args: &[TermId],
    row: &ImplRow,
    depth: u32,
) -> Result<Outcome, Stop>
    requires effects { AreSound setting.now terms.old effects.old }
    requires args { AreIn terms.old args.now }
    ensures effects { AreSound setting.now terms.new effects.new }
    ensures kept { Keeps terms.old terms.new }
    ensures stops { IfErr result (IsStop setting.now) }
    ensures says { ForEachMode setting.now depth (λ S L. IfOk result (SaysImpl S L (erased_all terms.old args.now) row.now)) }
{
    let list = impl_list(&*setting, terms, args, &*row)?;
    let found = run_list(setting, terms, effects, &list, depth)?;
    Ok(shows(found))
}

/// Whether an impl holds, by what its list comes to. That it may be passed over itself is not asked.
fn shows(list: ListOutcome) -> Outcome
    ensures { result ≡ list_held list }
{
    list.held()
}

/// The list of an impl for arguments of its trait, or none where its rule is refused. Want of memory or of
/// numbers is the only fault.
fn impl_list<'e>(
    setting: &Setting<'e>,
    terms: &mut TermTable,
    args: &[TermId],
    row: &'e ImplRow,
) -> Result<Option<Vec<InternedEntry<'e>>>, OutOfMemory>
    requires args { AreIn terms.old args.now }
    ensures kept { Keeps terms.old terms.new }
    ensures within { IfOk result (ListIn terms.new) }
    ensures caused { IfOk result (IsCausedList setting.now.rows.now) }
    ensures list { ForEachSetting setting.now (λ S. IfOk result (GoesBy setting.now terms.new (list_of_impl S (erased_all terms.old args.now) row.now))) }
{
    let erased = TypingMode::ErasedNotCoherence;
    let candidate = InternedCandidate::Impl(row);
    trait_list(
        setting.of_lists(&erased),
        terms,
        row.trait_id,
        args,
        &candidate,
    )
}
