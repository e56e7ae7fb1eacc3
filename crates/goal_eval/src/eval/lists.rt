//! Running a list of entries.
ghost use Rattle.std.specs.Prelude.{◌≡◌, IfErr, IfOk};
ghost use Rattle.std.specs.List.{All};
ghost use Rattle.goal_interner.specs.TableMeaning.{Keeps};
ghost use Rattle.goal_terms.specs.declared.modes.TypingMode.{TypingMode};
ghost use Rattle.goal_lists.specs.Causes.{IsCausedEntry, IsCausedList};
ghost use Rattle.goal_lists.specs.InternedEntries.{EntriesIn, entries_at, ListIn, list_at};
ghost use Rattle.goal_eval.specs.Lists.{list_mode, SaysList, SaysEntries, AtEachLevel, ListTermIn, list_held, list_term, ForEachList};
ghost use Rattle.goal_eval.specs.Outcomes.{ForEachMode};
ghost use Rattle.goal_eval.specs.Effects.{AreSound, IsStop};

pub mod entries;
pub mod progress;

use crate::eval::effects::Effects;
use crate::eval::lists::entries::run_entry;
use crate::eval::lists::progress::{ListRun, Reached};
use crate::eval::mode_tests::is_headline;
use crate::eval::outcomes::{Found, OnAccess, Setting, Stop};
use goal_interner::term_nodes::TermId;
use goal_interner::term_table::TermTable;
use goal_lists::lists::{InternedEntry, ListSetting};
use goal_lists::outcomes::Outcome;
use goal_terms::modes::TypingMode;

/// What a list of entries comes to. Where it holds and asks for a term, this is the term.
#[derive(Clone, Copy)]
pub enum ListOutcome {
    Holds(Option<TermId>),
    Refuted,
    Undecided,
}

impl ListOutcome {
    /// Whether the list holds, with whichever term.
    pub(crate) fn held(self) -> Outcome
        ensures { result ≡ list_held self }
    {
        match self {
            ListOutcome::Holds(_) => Outcome::Holds,
            ListOutcome::Refuted => Outcome::Refuted,
            ListOutcome::Undecided => Outcome::Undecided,
        }
    }

    /// Which term the list gives; nothing is found where it asks for none.
    pub(crate) fn term(self) -> Found
        ensures { result ≡ list_term self }
    {
        match self {
            ListOutcome::Holds(Some(id)) => Found::Is(id),
            ListOutcome::Refuted => Found::Refuted,
            ListOutcome::Holds(None) | ListOutcome::Undecided => Found::Undecided,
        }
    }
}

impl<'e> Setting<'e> {
    /// What the lists of a run are made for: its own mode. Where it stops at accesses, a mode that isn't of the
    /// headline goes by the lists of the erased mode, which is handed in; they say where a mode is read.
    pub(crate) fn of_lists<'m>(&'m self, erased: &'m TypingMode) -> ListSetting<'e, 'm>
        requires { erased.now ≡ TypingMode.ErasedNotCoherence }
        ensures rows { result.rows ≡ self.now.rows }
        ensures mode { result.mode.now ≡ list_mode self.now }
    {
        let mode = match self.on_access {
            OnAccess::Stop if !is_headline(self.typing_mode) => erased,
            _ => self.typing_mode,
        };
        ListSetting {
            rows: self.rows,
            mode,
        }
    }
}

/// What a rule's list comes to at a depth; a rule that is refused has none, and is refuted. Only a list that holds
/// leaves equations of lifetimes.
#[tactic(auto, using(crate::proofs::CacheLemmas::caching))]
#[cycle(closed)]
pub(crate) fn run_list(
    setting: &Setting<'_>,
    terms: &mut TermTable,
    effects: &mut Effects,
    list: &Option<Vec<InternedEntry<'_>>>,
    depth: u32,
) -> Result<ListOutcome, Stop>
    requires effects { AreSound setting.now terms.old effects.old }
    requires list { ListIn terms.old list.now }
    requires caused { IsCausedList setting.now.rows.now list.now }
    ensures effects { AreSound setting.now terms.new effects.new }
    ensures kept { Keeps terms.old terms.new }
    ensures within { IfOk result (ListTermIn terms.new) }
    ensures stops { IfErr result (IsStop setting.now) }
    ensures says { ForEachMode setting.now depth (λ _ L. ForEachList setting.now (list_at terms.old list.now) (λ q. IfOk result (SaysList L q terms.new))) }
{
    match list {
        None => Ok(ListOutcome::Refuted),
        Some(entries) => {
            let before = effects.regions.mark();
            let outcome = run_entries(setting, terms, effects, entries, depth)?;
            effects.end_list(before, outcome.held());
            Ok(outcome)
        }
    }
}

/// What a list of entries comes to at a depth.
#[cycle(closed)]
fn run_entries(
    setting: &Setting<'_>,
    terms: &mut TermTable,
    effects: &mut Effects,
    entries: &[InternedEntry<'_>],
    depth: u32,
) -> Result<ListOutcome, Stop>
    requires effects { AreSound setting.now terms.old effects.old }
    requires entries { EntriesIn terms.old entries.now }
    requires caused { All (IsCausedEntry setting.now.rows.now) entries.now }
    ensures effects { AreSound setting.now terms.new effects.new }
    ensures kept { Keeps terms.old terms.new }
    ensures within { IfOk result (ListTermIn terms.new) }
    ensures stops { IfErr result (IsStop setting.now) }
    ensures says { AtEachLevel setting.now depth (λ L. IfOk result (SaysEntries setting.now (entries_at terms.old entries.now) L terms.new)) }
{
    let mut run = ListRun::new(setting.allocator());
    for entry in entries {
        match run_entry(setting, terms, effects, &mut run, entry, depth)? {
            Reached::Next => {}
            Reached::Refuted => return Ok(ListOutcome::Refuted),
            Reached::Undecided => return Ok(ListOutcome::Undecided),
        }
    }
    Ok(run.outcome())
}
