//! What the entries of a list come to.
ghost use Rattle.std.specs.Prelude.{◌≡◌, true, false, List, IfErr, IfOk, IfSome, slice_get};
ghost use Rattle.std.specs.Option.{ForSome, option_copied};
ghost use Rattle.goal_interner.specs.TableMeaning.{Keeps};
ghost use Rattle.goal_terms.specs.Tree.{Tree};
ghost use Rattle.goal_lists.specs.Causes.{IsCaused, IsCausedEntry};
ghost use Rattle.goal_lists.specs.Interned.{AreIn, erased_all};
ghost use Rattle.goal_lists.specs.InternedEntries.{arguments_at, ArgumentsIn, term_at, TermIn, entry_at, EntryIn};
ghost use Rattle.goal_lists.specs.ListModes.{IsAccess};
ghost use Rattle.goal_lists.specs.Settings.{is_headline as is_of_headline};
ghost use Rattle.goal_eval.specs.Lists.{AtEachLevel, NamedIn, named_at, RunIn, RunsOn, WhereStopping, run_state, SaysNamed, SaysHeader, SaysTerm, SaysRow, numbered_at, chosen_term};
ghost use Rattle.goal_eval.specs.Outcomes.{FoundIn, MatchIn};
ghost use Rattle.goal_eval.specs.Effects.{AreSound, IsStop};

use crate::eval::effects::Effects;
use crate::eval::head_forms::{head_form, head_form_under};
use crate::eval::id_lists::joined;
use crate::eval::instances::header_of_type;
use crate::eval::lists::progress::{ListRun, Reached};
use crate::eval::mode_tests::is_headline;
use crate::eval::outcomes::{Found, HeaderMatch, OnAccess, Setting, Stop};
use crate::eval::premises::{clauses_outcome, conditions_outcome, predicate_outcome};
use crate::eval::row_values::ValueOfRow;
use crate::normalizes_to::opaque_types::checked_type;
use crate::relate::equality::compare_lists;
use crate::relate::header_args::instances;
use crate::relate::headers::{AskedHeader, match_header};
use goal_interner::term_nodes::TermId;
use goal_interner::term_table::TermTable;
use goal_lists::candidates::premises::traits_under;
use goal_lists::lists::parts::copied;
use goal_lists::lists::{
    FirstUse, HeaderTerms, InternedArguments, InternedEntry, InternedTerm, RowHeader,
};
use goal_lists::outcomes::Outcome;
use goal_terms::answers::{DelayedFault, OpaqueAccess};
use goal_terms::predicates::{BoundConstness, Clause, TraitRef};

/// What a row asks for under arguments: its clauses, or its const conditions with a constness.
#[derive(Clone, Copy)]
pub enum RowPremises<'t> {
    Clauses(&'t [Clause]),
    Conditions(BoundConstness, &'t [TraitRef]),
}

/// Runs an entry at a depth. An access in a mode that isn't one of the headline stops the run, or is recorded.
#[cycle(closed)]
pub fn run_entry(
    setting: &Setting<'_>,
    terms: &mut TermTable,
    effects: &mut Effects,
    run: &mut ListRun,
    entry: &InternedEntry<'_>,
    depth: u32,
) -> Result<Reached, Stop>
    requires effects { AreSound setting.now terms.old effects.old }
    requires run { RunIn terms.old run.old }
    requires entry { EntryIn terms.old entry.now }
    requires caused { IsCausedEntry setting.now.rows.now entry.now }
    ensures effects { AreSound setting.now terms.new effects.new }
    ensures kept { Keeps terms.old terms.new }
    ensures within { IfOk result (λ _. RunIn terms.new run.new) }
    ensures stops { IfErr result (IsStop setting.now) }
    ensures reads { WhereStopping setting.now (IfOk result (λ _. IsAccess (entry_at terms.old entry.now) → ⊥)) }
    ensures says { AtEachLevel setting.now depth (λ L. IfOk result (RunsOn L (run_state terms.old run.old) entry.now (run_state terms.new run.new))) }
{
    match entry {
        InternedEntry::Arguments(arguments) => {
            let found = arguments_match(setting, terms, effects, &run.named, arguments, depth)?;
            let reached = run.name(found)?;
            Ok(reached)
        }
        InternedEntry::Expected(term) => {
            let found = term_found(setting, terms, effects, &run.named, term, depth)?;
            Ok(run.give(terms, found))
        }
        InternedEntry::EqualTerms(left, right) => {
            let outcome = compare_lists(setting, terms, effects, left, right, depth)?;
            Ok(run.ask(outcome))
        }
        InternedEntry::Clause(_, predicate) => {
            let outcome = predicate_outcome(setting, terms, effects, predicate, depth)?;
            Ok(run.ask(outcome))
        }
        InternedEntry::RowClauses(_, clauses, number) => {
            let args = named_args(&run.named, *number);
            let row = RowPremises::Clauses(clauses);
            let outcome = row_outcome(setting, terms, effects, row, args, depth)?;
            Ok(run.ask(outcome))
        }
        InternedEntry::RowConditions(constness, _, refs, number) => {
            let args = named_args(&run.named, *number);
            let row = RowPremises::Conditions(*constness, refs);
            let outcome = row_outcome(setting, terms, effects, row, args, depth)?;
            Ok(run.ask(outcome))
        }
        InternedEntry::Access(access) => reads_mode(setting, effects, *access),
        InternedEntry::DelayedFault(fault) => {
            effects.meet_fault(*fault)?;
            Ok(Reached::Next)
        }
        InternedEntry::Evaluation => Ok(Reached::Next),
        InternedEntry::Ambiguous | InternedEntry::Undecided => Ok(run.ask(Outcome::Undecided)),
        InternedEntry::Refused => Ok(Reached::Refuted),
    }
}

/// Goes on after an access: in a mode of the headline, and where the run records it. An access without an
/// answer in the erased mode ends every run in another mode.
fn reads_mode(
    setting: &Setting<'_>,
    effects: &mut Effects,
    access: OpaqueAccess,
) -> Result<Reached, Stop>
    requires caused { IsCaused setting.now.rows.now access }
    ensures effects { (T : List Tree) → AreSound setting.now T effects.old → AreSound setting.now T effects.new }
    ensures next { IfOk result (λ r. r ≡ Reached.Next) }
    ensures headline { setting.now.on_access ≡ OnAccess.Stop → IfOk result (λ _. is_of_headline setting.now.typing_mode.now ≡ true) }
    ensures stops { IfErr result (IsStop setting.now) }
{
    if is_headline(setting.typing_mode) {
        return Ok(Reached::Next);
    }
    if ends_run(setting.on_access, access) {
        return Err(Stop::ReadsMode(access));
    }
    effects.read_mode(access)?;
    Ok(Reached::Next)
}

/// Whether a run in a mode that isn't one of the headline ends at an access.
fn ends_run(on_access: OnAccess, access: OpaqueAccess) -> bool
    ensures { on_access ≡ OnAccess.Stop → result ≡ true }
{
    matches!(
        (on_access, access),
        (OnAccess::Stop, _) | (_, OpaqueAccess::Always)
    )
}

/// The arguments of a number, if they were named.
fn named_args(named: &[Vec<TermId>], number: usize) -> Option<&[TermId]>
    ensures within { (T : List Tree) → NamedIn T named.now → IfSome (option_copied result) (AreIn T) }
    ensures numbered { (T : List Tree) → numbered_at T (option_copied result) ≡ slice_get (named_at T named.now) number }
{
    Some(named.get(number)?.as_slice())
}

/// The arguments that an entry names: a match may fail, or not be known.
#[tactic(auto, using(crate::proofs::CacheLemmas::caching))]
#[cycle(closed)]
fn arguments_match(
    setting: &Setting<'_>,
    terms: &mut TermTable,
    effects: &mut Effects,
    named: &[Vec<TermId>],
    arguments: &InternedArguments<'_>,
    depth: u32,
) -> Result<HeaderMatch, Stop>
    requires effects { AreSound setting.now terms.old effects.old }
    requires named { NamedIn terms.old named.now }
    requires arguments { ArgumentsIn terms.old arguments.now }
    ensures effects { AreSound setting.now terms.new effects.new }
    ensures kept { Keeps terms.old terms.new }
    ensures within { IfOk result (MatchIn terms.new) }
    ensures stops { IfErr result (IsStop setting.now) }
    ensures says { AtEachLevel setting.now depth (λ L. IfOk result (SaysNamed L (named_at terms.old named.now) (arguments_at terms.old arguments.now) terms.new)) }
{
    match arguments {
        InternedArguments::Given(ids) => {
            let args = copied(setting.allocator(), ids)?;
            Ok(HeaderMatch::Fits(args))
        }
        InternedArguments::OfHeader(_, header, given) => {
            header_match(setting, terms, effects, header, given, depth)
        }
        InternedArguments::OfOtherHeader(_, _, header, of, number) => {
            let Some(args) = named_args(named, *number) else {
                return Ok(HeaderMatch::Unknown);
            };
            let given = instances(setting.allocator(), terms, of, args)?;
            header_match(setting, terms, effects, header, &given, depth)
        }
        InternedArguments::FollowedBy(number, own) => {
            let Some(args) = named_args(named, *number) else {
                return Ok(HeaderMatch::Unknown);
            };
            let all = joined(setting, args, own)?;
            Ok(HeaderMatch::Fits(all))
        }
    }
}

/// Whether a row's header fits given terms.
#[cycle(closed)]
fn header_match(
    setting: &Setting<'_>,
    terms: &mut TermTable,
    effects: &mut Effects,
    header: &RowHeader<'_>,
    given: &[TermId],
    depth: u32,
) -> Result<HeaderMatch, Stop>
    requires effects { AreSound setting.now terms.old effects.old }
    requires given { AreIn terms.old given.now }
    ensures effects { AreSound setting.now terms.new effects.new }
    ensures kept { Keeps terms.old terms.new }
    ensures within { IfOk result (MatchIn terms.new) }
    ensures stops { IfErr result (IsStop setting.now) }
    ensures says { AtEachLevel setting.now depth (λ L. IfOk result (SaysHeader L header.now (erased_all terms.old given.now) terms.new)) }
{
    match header.terms {
        HeaderTerms::Arguments(args) => {
            let asked = AskedHeader {
                params: header.params,
                header: args,
                given,
            };
            match_header(setting, terms, effects, &asked, depth)
        }
        HeaderTerms::SelfType(ty) => {
            let made = header_of_type(setting, ty)?;
            let asked = AskedHeader {
                params: header.params,
                header: &made,
                given,
            };
            match_header(setting, terms, effects, &asked, depth)
        }
    }
}

/// Whether what a row asks for holds under the arguments of a number. It is undecided where these weren't
/// named.
#[tactic(auto, using(crate::proofs::CacheLemmas::caching))]
#[cycle(closed)]
fn row_outcome(
    setting: &Setting<'_>,
    terms: &mut TermTable,
    effects: &mut Effects,
    row: RowPremises<'_>,
    args: Option<&[TermId]>,
    depth: u32,
) -> Result<Outcome, Stop>
    requires effects { AreSound setting.now terms.old effects.old }
    requires within { ForSome (option_copied args) (AreIn terms.old) }
    ensures effects { AreSound setting.now terms.new effects.new }
    ensures kept { Keeps terms.old terms.new }
    ensures stops { IfErr result (IsStop setting.now) }
    ensures says { AtEachLevel setting.now depth (λ L. IfOk result (SaysRow L row.entry (numbered_at terms.old (option_copied args.entry)))) }
{
    let Some(args) = args else {
        return Ok(Outcome::Undecided);
    };
    match row {
        RowPremises::Clauses(clauses) => {
            clauses_outcome(setting, terms, effects, clauses, args, depth)
        }
        RowPremises::Conditions(constness, refs) => {
            let conditions = traits_under(terms, refs, args)?;
            conditions_outcome(setting, terms, effects, constness, &conditions, depth)
        }
    }
}

/// The expected term of an entry.
#[cycle(closed)]
fn term_found(
    setting: &Setting<'_>,
    terms: &mut TermTable,
    effects: &mut Effects,
    named: &[Vec<TermId>],
    term: &InternedTerm<'_>,
    depth: u32,
) -> Result<Found, Stop>
    requires effects { AreSound setting.now terms.old effects.old }
    requires named { NamedIn terms.old named.now }
    requires term { TermIn terms.old term.now }
    ensures effects { AreSound setting.now terms.new effects.new }
    ensures kept { Keeps terms.old terms.new }
    ensures within { IfOk result (FoundIn terms.new) }
    ensures stops { IfErr result (IsStop setting.now) }
    ensures says { AtEachLevel setting.now depth (λ L. IfOk result (SaysTerm L (named_at terms.old named.now) (term_at terms.old term.now) terms.new)) }
{
    match term {
        InternedTerm::AsItStands(id) => Ok(Found::Is(*id)),
        InternedTerm::HeadFormOf(id) => head_form(setting, terms, effects, *id, depth),
        InternedTerm::ValueUnder(row, value, number) => {
            let Some(args) = named_args(named, *number) else {
                return Ok(Found::Undecided);
            };
            let of = ValueOfRow {
                row: *row,
                value: *value,
            };
            head_form_under(setting, terms, effects, of, args, depth)
        }
        InternedTerm::ChosenBy(predicate, first, second) => {
            let outcome = predicate_outcome(setting, terms, effects, predicate, depth)?;
            Ok(chosen(outcome, *first, *second))
        }
        InternedTerm::HiddenType(_, args, first, row) => match first {
            FirstUse::Expected => Ok(Found::Undecided),
            FirstUse::TypeChecked => checked_type(setting, terms, effects, row, args, depth),
        },
    }
}

/// The first of two terms where something holds, the second where it is refuted.
fn chosen(outcome: Outcome, first: TermId, second: TermId) -> Found
    ensures { result ≡ chosen_term outcome first second }
{
    match outcome {
        Outcome::Holds => Found::Is(first),
        Outcome::Refuted => Found::Is(second),
        Outcome::Undecided => Found::Undecided,
    }
}
