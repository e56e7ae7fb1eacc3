//! Entries that the lists of several kinds of goals have.
ghost use Rattle.std.specs.Prelude.{◌≡◌, ◌∷◌, [], List, Some, map, IfOk};
ghost use Rattle.std.specs.List.{All};
ghost use Rattle.goal_terms.specs.Tree.{Tree};
ghost use Rattle.goal_tables.specs.Rows.{impl_of};
ghost use Rattle.goal_tables.specs.declared.rows.Tables.{Tables};
ghost use Rattle.goal_lists.specs.Entries.{arguments, equal_terms, given_arguments, of_header, followed_by, premise_entry, premise_entries, undecided};
ghost use Rattle.goal_lists.specs.Interned.{IsIn, AreIn, PremiseIn, TraitIn, erased_at, erased_all, premise_at, trait_at};
ghost use Rattle.goal_lists.specs.InternedEntries.{EntryIn, EntriesIn, ListIn, entry_at, entries_at, list_at, header_trees};
ghost use Rattle.goal_lists.specs.NamedRows.{HeaderIsOf, NamesItsRows, ListNamesItsRows};
ghost use Rattle.goal_lists.specs.Premises.{conditions_as};
ghost use Rattle.goal_lists.specs.ProjectionLists.{standing};
ghost use Rattle.goal_lists.specs.TraitLists.{impl_match, reserved_list, list_by_polarity, error_list};

use crate::candidates::interned::{InternedPredicate, InternedPremise, InternedTrait};
use crate::lists::{
    HeaderTerms, InternedArguments, InternedEntry, InternedTerm, RowClauses, RowHeader, RuleHeader,
};
use crate::term_errors::any_error;
use goal_interner::term_nodes::{OutOfMemory, TermId};
use goal_interner::term_table::TermTable;
use goal_tables::rows::{ImplPolarity, ImplRow};
use goal_terms::answers::GoalSource;
use goal_terms::modes::TypingMode;
use goal_terms::predicates::BoundConstness;
use std::alloc::Global;

/// A copy of some numbers. Want of memory is the only refusal.
pub fn copied(alloc: Global, ids: &[TermId]) -> Result<Vec<TermId>, OutOfMemory>
    ensures { IfOk result (λ made. made.items ≡ ids.now) }
{
    let mut made = Vec::new(alloc);
    made.extend_from_slice(ids)?;
    Ok(made)
}

/// A list that decides nothing. Want of memory is the only refusal.
pub(crate) fn undecided<'t>(alloc: Global) -> Result<Vec<InternedEntry<'t>>, OutOfMemory>
    ensures within { (T : List Tree) → IfOk result (λ es. EntriesIn T es.items) }
    ensures entries { (T : List Tree) → IfOk result (λ es. entries_at T es.items ≡ undecided ∷ []) }
    ensures named { (t : Tables) → IfOk result (λ es. All (NamesItsRows t) es.items) }
{
    Ok(vec![in alloc; InternedEntry::Undecided]?)
}

/// A term as it stands, expected. Want of memory is the only refusal.
pub(crate) fn standing<'t>(alloc: Global, id: TermId) -> Result<Vec<InternedEntry<'t>>, OutOfMemory>
    ensures within { (T : List Tree) → IsIn T id → IfOk result (λ es. EntriesIn T es.items) }
    ensures entries { (T : List Tree) → IfOk result (λ es. entries_at T es.items ≡ standing (erased_at T id)) }
    ensures named { (t : Tables) → IfOk result (λ es. All (NamesItsRows t) es.items) }
{
    let term = InternedTerm::AsItStands(id);
    Ok(vec![in alloc; InternedEntry::Expected(term)]?)
}

/// That two lists of terms are equal. Want of memory is the only refusal.
pub(crate) fn equal_terms<'t>(
    alloc: Global,
    left: &[TermId],
    right: &[TermId],
) -> Result<InternedEntry<'t>, OutOfMemory>
    ensures within { (T : List Tree) → AreIn T left.now → AreIn T right.now → IfOk result (EntryIn T) }
    ensures entry { (T : List Tree) → IfOk result (λ e. entry_at T e ≡ equal_terms (erased_all T left.now) (erased_all T right.now)) }
    ensures named { (t : Tables) → IfOk result (NamesItsRows t) }
{
    let first = copied(alloc, left)?;
    let second = copied(alloc, right)?;
    Ok(InternedEntry::EqualTerms(first, second))
}

/// These arguments, named. Want of memory is the only refusal.
pub(crate) fn given_arguments<'t>(
    alloc: Global,
    args: &[TermId],
) -> Result<InternedEntry<'t>, OutOfMemory>
    ensures within { (T : List Tree) → AreIn T args.now → IfOk result (EntryIn T) }
    ensures entry { (T : List Tree) → IfOk result (λ e. entry_at T e ≡ arguments (given_arguments (erased_all T args.now))) }
    ensures named { (t : Tables) → IfOk result (NamesItsRows t) }
{
    let made = copied(alloc, args)?;
    Ok(InternedEntry::Arguments(InternedArguments::Given(made)))
}

/// The arguments of a number and own ones behind them, named. Want of memory is the only refusal.
pub(crate) fn followed_by<'t>(
    alloc: Global,
    number: usize,
    own: &[TermId],
) -> Result<InternedEntry<'t>, OutOfMemory>
    ensures within { (T : List Tree) → AreIn T own.now → IfOk result (EntryIn T) }
    ensures entry { (T : List Tree) → IfOk result (λ e. entry_at T e ≡ arguments (followed_by number (erased_all T own.now))) }
    ensures named { (t : Tables) → IfOk result (NamesItsRows t) }
{
    let made = copied(alloc, own)?;
    Ok(InternedEntry::Arguments(InternedArguments::FollowedBy(number, made)))
}

/// The arguments of a row's header that is matched with given ones, named. Want of memory is the only
/// refusal.
pub(crate) fn of_header<'t>(
    alloc: Global,
    row: RuleHeader,
    header: RowHeader<'t>,
    args: &[TermId],
) -> Result<InternedEntry<'t>, OutOfMemory>
    ensures within { (T : List Tree) → AreIn T args.now → IfOk result (EntryIn T) }
    ensures entry { (T : List Tree) → IfOk result (λ e. entry_at T e ≡ arguments (of_header header.entry.params.now (header_trees header.entry.terms) (erased_all T args.now))) }
    ensures named { (t : Tables) → HeaderIsOf t row header.entry → IfOk result (NamesItsRows t) }
{
    let made = copied(alloc, args)?;
    Ok(InternedEntry::Arguments(InternedArguments::OfHeader(row, header, made)))
}

/// A premise that is asked for. Want of memory is the only refusal.
fn premise_entry<'t>(
    alloc: Global,
    source: GoalSource,
    premise: InternedPremise,
) -> Result<InternedEntry<'t>, OutOfMemory>
    ensures within { (T : List Tree) → PremiseIn T premise → IfOk result (EntryIn T) }
    ensures entry { (T : List Tree) → IfOk result (λ e. entry_at T e ≡ premise_entry source (premise_at T premise)) }
{
    match premise {
        InternedPremise::Predicate(predicate) => Ok(InternedEntry::Clause(source, predicate)),
        InternedPremise::Equation(left, right) => {
            let first = vec![in alloc; left]?;
            let second = vec![in alloc; right]?;
            Ok(InternedEntry::EqualTerms(first, second))
        }
    }
}

/// Premises that are asked for, in order. Want of memory is the only refusal.
pub(crate) fn premise_entries<'t>(
    alloc: Global,
    source: GoalSource,
    premises: Vec<InternedPremise>,
) -> Result<Vec<InternedEntry<'t>>, OutOfMemory>
    ensures within { (T : List Tree) → All (PremiseIn T) premises.items → IfOk result (λ es. EntriesIn T es.items) }
    ensures entries { (T : List Tree) → IfOk result (λ es. entries_at T es.items ≡ premise_entries source (map (premise_at T) premises.items)) }
{
    let mut entries = Vec::new(alloc);
    for premise in premises {
        let entry = premise_entry(alloc, source, premise)?;
        entries.push(entry)?;
    }
    Ok(entries)
}

/// Const conditions that are asked for with a constness, in order. Want of memory is the only refusal.
pub(crate) fn condition_entries<'t>(
    alloc: Global,
    source: GoalSource,
    constness: BoundConstness,
    conditions: &[InternedTrait],
) -> Result<Vec<InternedEntry<'t>>, OutOfMemory>
    ensures within { (T : List Tree) → All (TraitIn T) conditions.now → IfOk result (λ es. EntriesIn T es.items) }
    ensures entries { (T : List Tree) → IfOk result (λ es. entries_at T es.items ≡ premise_entries source (conditions_as constness (map (trait_at T) conditions.now))) }
{
    let mut entries = Vec::new(alloc);
    for i in 0..conditions.len() {
        let condition = &conditions[i];
        let args = copied(alloc, condition.args.as_slice())?;
        let of = InternedTrait {
            def_id: condition.def_id,
            args,
        };
        entries.push(InternedEntry::Clause(source, InternedPredicate::HostEffect(constness, of)))?;
    }
    Ok(entries)
}

/// The match of an impl's header with arguments, and its where clauses under what it names. Want of
/// memory is the only refusal.
pub(crate) fn impl_match<'t>(
    alloc: Global,
    row: &'t ImplRow,
    args: &[TermId],
) -> Result<Vec<InternedEntry<'t>>, OutOfMemory>
    ensures within { (T : List Tree) → AreIn T args.now → IfOk result (λ es. EntriesIn T es.items) }
    ensures entries { (T : List Tree) → IfOk result (λ es. entries_at T es.items ≡ impl_match row.now (erased_all T args.now) []) }
    ensures named { (t : Tables) → impl_of t row.now.id ≡ Some row.now → IfOk result (λ es. All (NamesItsRows t) es.items) }
{
    let header = RowHeader {
        params: row.params.as_slice(),
        terms: HeaderTerms::Arguments(row.trait_args.as_slice()),
    };
    let matched = of_header(alloc, RuleHeader::Impl(row.id), header, args)?;
    let clauses = InternedEntry::RowClauses(RowClauses::Impl(row.id), row.predicates.as_slice(), 0);
    Ok(vec![in alloc; matched, clauses]?)
}

/// The list of a reservation impl: in coherence it bars a refutation as long as what the impl asks for isn't
/// refuted, and elsewhere there is none. Want of memory is the only refusal.
fn reserved_list<'t>(
    alloc: Global,
    mode: &TypingMode,
    mut asked: Vec<InternedEntry<'t>>,
) -> Result<Option<Vec<InternedEntry<'t>>>, OutOfMemory>
    ensures within { (T : List Tree) → EntriesIn T asked.entry.items → IfOk result (ListIn T) }
    ensures list { (T : List Tree) → IfOk result (λ o. list_at T o ≡ reserved_list mode.now (entries_at T asked.entry.items)) }
    ensures named { (t : Tables) → All (NamesItsRows t) asked.entry.items → IfOk result (ListNamesItsRows t) }
{
    match mode {
        TypingMode::Coherence => {
            let mut entries = undecided(alloc)?;
            entries.append(&mut asked)?;
            Ok(Some(entries))
        }
        TypingMode::Analysis { .. }
        | TypingMode::Borrowck { .. }
        | TypingMode::PostBorrowckAnalysis { .. }
        | TypingMode::PostAnalysis
        | TypingMode::ErasedNotCoherence => Ok(None),
    }
}

/// The list of an impl, by its polarity: a negative impl has none. Want of memory is the only refusal.
#[tactic(auto, unfolding(crate::specs::TraitLists::list_by_polarity))]
pub(crate) fn list_by_polarity<'t>(
    alloc: Global,
    mode: &TypingMode,
    polarity: ImplPolarity,
    entries: Vec<InternedEntry<'t>>,
) -> Result<Option<Vec<InternedEntry<'t>>>, OutOfMemory>
    ensures within { (T : List Tree) → EntriesIn T entries.entry.items → IfOk result (ListIn T) }
    ensures list { (T : List Tree) → IfOk result (λ o. list_at T o ≡ list_by_polarity mode.now polarity (entries_at T entries.entry.items)) }
    ensures named { (t : Tables) → All (NamesItsRows t) entries.entry.items → IfOk result (ListNamesItsRows t) }
{
    match polarity {
        ImplPolarity::Positive => Ok(Some(entries)),
        ImplPolarity::Negative => Ok(None),
        ImplPolarity::Reservation => reserved_list(alloc, mode, entries),
    }
}

/// The list of an error in a goal: nothing more is asked for. It takes no memory.
pub(crate) fn error_list<'t>(terms: &TermTable, args: &[TermId]) -> Option<Vec<InternedEntry<'t>>>
    requires { AreIn terms.now args.now }
    ensures within { (T : List Tree) → ListIn T result }
    ensures list { (T : List Tree) → list_at T result ≡ error_list (erased_all terms.now args.now) }
    ensures named { (t : Tables) → ListNamesItsRows t result }
{
    if any_error(terms, args) {
        return Some(Vec::new(terms.allocator()));
    }
    None
}
