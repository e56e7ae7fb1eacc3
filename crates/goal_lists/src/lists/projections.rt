//! The lists of the candidates for the terms of projections, over numbers of a term table.
ghost use Rattle.std.specs.Prelude.{◌≡◌, List, IfOk};
ghost use Rattle.std.specs.List.{All};
ghost use Rattle.goal_interner.specs.TableMeaning.{Keeps};
ghost use Rattle.goal_terms.specs.Tree.{Tree};
ghost use Rattle.goal_lists.specs.ImplTerms.{error_term, taken};
ghost use Rattle.goal_lists.specs.Interned.{IsIn, PredicateIn, CandidateIn, ListedIn, erased_at, predicate_at, candidate_at, listed_at};
ghost use Rattle.goal_lists.specs.InternedEntries.{EntryIn, EntriesIn, ListIn, entry_at, entries_at, list_at, projection_at, ProjectionIn};
ghost use Rattle.goal_lists.specs.ListWords.{GivesEntries, GivesList, asked_at, asked_term_rule, asked_impl_entries, default_of, definition_taken};
ghost use Rattle.goal_lists.specs.NamedRows.{IfRowsOf, ListNamesItsRows, NamesItsRows, ProjectionIsOf, ImplIsOf, DefinitionIsOf, EntriesNameRows};
ghost use Rattle.goal_lists.specs.ProjectionLists.{definition_value, other_impl_entries, taken_entries, rigid_entries, standing, missing_entries, value_entries, definition_entries, source_entries, said_entries, projection_impl_list, projection_assumption_list, equation_clause_list, listed_list, projection_list};
ghost use Rattle.goal_tables.specs.Rows.{definition_of};
ghost use Rattle.goal_tables.specs.declared.rows.Tables.{Tables};

use crate::builtin::made_terms::intern_leaf;
use crate::builtin::terms::term_rule;
use crate::candidates::interned::{
    InternedCandidate, InternedPredicate, InternedTrait, ListedTerm,
};
use crate::lists::parts::{
    copied, equal_terms, followed_by, given_arguments, impl_match, list_by_polarity,
    premise_entries, standing, undecided,
};
use crate::lists::projected::projects;
use crate::lists::{
    AskedProjection, HeaderTerms, InternedArguments, InternedEntry, InternedTerm, ListSetting,
    RowClauses, RowHeader, RowValue, RowValueTerm,
};
use goal_interner::term_nodes::{OutOfMemory, TermId};
use goal_interner::term_table::TermTable;
use goal_tables::rows::{Container, DefRow, DefValue, ImplRow, Source};
use goal_terms::answers::{DelayedFault, GoalSource, OpaqueAccess};
use goal_terms::heads::{Head, Node};
use goal_terms::ids::DefId;
use goal_terms::modes::TypingMode;
use goal_terms::slices::{behind, first_of};
use std::alloc::Global;

/// The value of a definition under the arguments of a number; a constant that would have to be evaluated
/// is undecided.
fn definition_value<'t>(definition: &'t DefRow, number: usize) -> InternedEntry<'t>
    ensures within { (T : List Tree) → EntryIn T result }
    ensures entry { (T : List Tree) → entry_at T result ≡ definition_value definition.now.value number }
    ensures named { (t : Tables) → DefinitionIsOf t definition.now → NamesItsRows t result }
{
    match &definition.value {
        DefValue::Missing => InternedEntry::Undecided,
        DefValue::Evaluated => InternedEntry::Undecided,
        DefValue::Term(term) => {
            let of = RowValueTerm::Term(term);
            let row = RowValue::Definition(definition.id);
            InternedEntry::Expected(InternedTerm::ValueUnder(row, of, number))
        }
    }
}

/// Another impl's arguments: its header is matched with the first impl's, and its where clauses are asked
/// for. Then comes a definition's value. Want of memory is the only refusal.
fn other_impl_entries<'t>(
    alloc: Global,
    row: &'t ImplRow,
    asked: &AskedProjection<'t, '_>,
    definition: &'t DefRow,
    other: &'t ImplRow,
) -> Result<Vec<InternedEntry<'t>>, OutOfMemory>
    ensures within { (T : List Tree) → ProjectionIn T asked.now → IfOk result (λ es. EntriesIn T es.items) }
    ensures entries { (T : List Tree) → IfOk result (λ es. entries_at T es.items ≡ other_impl_entries row.now (projection_at T asked.now) definition.now.value other.now) }
    ensures named { (t : Tables) → ImplIsOf t row.now → ImplIsOf t other.now → DefinitionIsOf t definition.now → IfOk result (EntriesNameRows t) }
{
    let header = RowHeader {
        params: other.params.as_slice(),
        terms: HeaderTerms::Arguments(other.trait_args.as_slice()),
    };
    let args = row.trait_args.as_slice();
    let named = InternedArguments::OfOtherHeader(other.id, row.id, header, args, 0);
    let asked_of = RowClauses::Impl(other.id);
    let clauses = InternedEntry::RowClauses(asked_of, other.predicates.as_slice(), 2);
    let followed = followed_by(alloc, 2, behind(asked.args, asked.trait_params))?;
    let said = definition_value(definition, 3);
    Ok(vec![in alloc; InternedEntry::Arguments(named), clauses, followed, said]?)
}

/// A definition's value under the arguments that it takes: number 0 has the impl's arguments, and number
/// 1 the goal's. Want of memory is the only refusal.
#[tactic(auto, unfolding(crate::specs::ProjectionLists::taken_entries, crate::specs::ImplTerms::taken))]
fn taken_entries<'t>(
    setting: ListSetting<'t, '_>,
    alloc: Global,
    row: &'t ImplRow,
    asked: &AskedProjection<'t, '_>,
    definition: &'t DefRow,
) -> Result<Vec<InternedEntry<'t>>, OutOfMemory>
    ensures within { (T : List Tree) → ProjectionIn T asked.now → IfOk result (λ es. EntriesIn T es.items) }
    ensures entries { (T : List Tree) → GivesEntries T setting.entry result (λ S. definition_taken S row.now (projection_at T asked.now) definition.now) }
    ensures named { ImplIsOf setting.entry.rows.now row.now → DefinitionIsOf setting.entry.rows.now definition.now → IfOk result (EntriesNameRows setting.entry.rows.now) }
{
    match definition.container {
        Container::Trait(_) => Ok(vec![in alloc; definition_value(definition, 1)]?),
        Container::Impl(other) => {
            if other.0 == row.id.0 {
                let own = behind(asked.args, asked.trait_params);
                let followed = followed_by(alloc, 0, own)?;
                return Ok(vec![in alloc; followed, definition_value(definition, 2)]?);
            }
            let Some(found) = setting.rows.impl_row(other) else {
                return undecided(alloc);
            };
            other_impl_entries(alloc, row, asked, definition, found)
        }
    }
}

/// The alias as it stands, but in coherence that is ambiguous. Want of memory is the only refusal.
fn rigid_entries<'t>(
    mode: &TypingMode,
    alloc: Global,
    rigid_alias: TermId,
) -> Result<Vec<InternedEntry<'t>>, OutOfMemory>
    ensures within { (T : List Tree) → IsIn T rigid_alias → IfOk result (λ es. EntriesIn T es.items) }
    ensures entries { (T : List Tree) → IfOk result (λ es. entries_at T es.items ≡ rigid_entries mode.now (erased_at T rigid_alias)) }
    ensures named { (t : Tables) → IfOk result (EntriesNameRows t) }
{
    match mode {
        TypingMode::Coherence => Ok(vec![in alloc; InternedEntry::Ambiguous]?),
        _ => standing(alloc, rigid_alias),
    }
}

/// The error of a number, of an item's sort. The table gets it. Want of memory or of numbers is the only
/// refusal.
fn error_of(terms: &mut TermTable, is_const: bool, number: u32) -> Result<TermId, OutOfMemory>
    ensures kept { Keeps terms.old terms.new }
    ensures within { IfOk result (IsIn terms.new) }
    ensures tree { IfOk result (λ id. erased_at terms.new id ≡ error_term is_const number) }
{
    let alloc = terms.allocator();
    if is_const {
        intern_leaf(alloc, terms, Head::ConstError(number))
    } else {
        intern_leaf(alloc, terms, Head::TyError(number))
    }
}

/// A missing value: an error whose fault is delayed, unless the impl is guaranteed to be unsized. The
/// table gets the error. Want of memory or of numbers is the only refusal.
fn missing_entries<'t>(
    mode: &TypingMode,
    terms: &mut TermTable,
    row: &'t ImplRow,
    asked: &AskedProjection<'t, '_>,
    definition: &'t DefRow,
) -> Result<Vec<InternedEntry<'t>>, OutOfMemory>
    requires { ProjectionIn terms.old asked.now }
    ensures kept { Keeps terms.old terms.new }
    ensures within { IfOk result (λ es. EntriesIn terms.new es.items) }
    ensures entries { IfOk result (λ es. entries_at terms.new es.items ≡ asked_at terms.old asked.now (missing_entries mode.now row.now) definition.now) }
    ensures named { (t : Tables) → IfOk result (EntriesNameRows t) }
{
    let alloc = terms.allocator();
    if row.guaranteed_unsized {
        return rigid_entries(mode, alloc, asked.rigid_alias);
    }
    let error = error_of(terms, asked.item.is_const, definition.id.0)?;
    let fault = InternedEntry::DelayedFault(DelayedFault::MissingItem(definition.id));
    let term = InternedEntry::Expected(InternedTerm::AsItStands(error));
    Ok(vec![in alloc; fault, term]?)
}

/// What a definition says of the item. The table gets the terms. Want of memory or of numbers is the only
/// refusal.
fn value_entries<'t>(
    setting: ListSetting<'t, '_>,
    terms: &mut TermTable,
    row: &'t ImplRow,
    asked: &AskedProjection<'t, '_>,
    definition: &'t DefRow,
) -> Result<Vec<InternedEntry<'t>>, OutOfMemory>
    requires { ProjectionIn terms.old asked.now }
    ensures kept { Keeps terms.old terms.new }
    ensures within { IfOk result (λ es. EntriesIn terms.new es.items) }
    ensures entries { GivesEntries terms.new setting.entry result (λ S. asked_at terms.old asked.now (value_entries S row.now) definition.now definition.now.value) }
    ensures named { ImplIsOf setting.entry.rows.now row.now → DefinitionIsOf setting.entry.rows.now definition.now → IfOk result (EntriesNameRows setting.entry.rows.now) }
{
    match &definition.value {
        DefValue::Missing => missing_entries(setting.mode, terms, row, asked, definition),
        DefValue::Term(_) => taken_entries(setting, terms.allocator(), row, asked, definition),
        DefValue::Evaluated => taken_entries(setting, terms.allocator(), row, asked, definition),
    }
}

/// What the definition of a number says, if it is there. The table gets the terms. Want of memory or of
/// numbers is the only refusal.
fn definition_entries<'t>(
    setting: ListSetting<'t, '_>,
    terms: &mut TermTable,
    row: &'t ImplRow,
    asked: &AskedProjection<'t, '_>,
    id: DefId,
) -> Result<Vec<InternedEntry<'t>>, OutOfMemory>
    requires { ProjectionIn terms.old asked.now }
    ensures kept { Keeps terms.old terms.new }
    ensures within { IfOk result (λ es. EntriesIn terms.new es.items) }
    ensures entries { GivesEntries terms.new setting.entry result (λ S. asked_at terms.old asked.now (definition_entries S row.now) (definition_of setting.entry.rows.now id)) }
    ensures named { ImplIsOf setting.entry.rows.now row.now → IfOk result (EntriesNameRows setting.entry.rows.now) }
{
    let Some(definition) = setting.rows.definition_row(id) else {
        return undecided(terms.allocator());
    };
    value_entries(setting, terms, row, asked, definition)
}

/// What a default says, by the typing mode: it is taken, or stays hidden; in the erased mode that is
/// recorded, and decides nothing. The table gets the terms. Want of memory or of numbers is the only
/// refusal.
fn default_entries<'t>(
    setting: ListSetting<'t, '_>,
    terms: &mut TermTable,
    row: &'t ImplRow,
    asked: &AskedProjection<'t, '_>,
    id: DefId,
) -> Result<Vec<InternedEntry<'t>>, OutOfMemory>
    requires { ProjectionIn terms.old asked.now }
    ensures kept { Keeps terms.old terms.new }
    ensures within { IfOk result (λ es. EntriesIn terms.new es.items) }
    ensures entries { GivesEntries terms.new setting.entry result (λ S. asked_at terms.old asked.now (λ p t. default_of setting.entry id (definition_entries S row.now p t) t)) }
    ensures named { ImplIsOf setting.entry.rows.now row.now → IfOk result (EntriesNameRows setting.entry.rows.now) }
{
    let alloc = terms.allocator();
    match setting.mode {
        TypingMode::PostAnalysis => definition_entries(setting, terms, row, asked, id),
        TypingMode::ErasedNotCoherence => {
            let recorded = InternedEntry::Access(OpaqueAccess::Always);
            Ok(vec![in alloc; recorded, InternedEntry::Undecided]?)
        }
        _ => rigid_entries(setting.mode, alloc, asked.rigid_alias),
    }
}

/// What a source says of the item. The table gets the terms. Want of memory or of numbers is the only
/// refusal.
fn source_entries<'t>(
    setting: ListSetting<'t, '_>,
    terms: &mut TermTable,
    row: &'t ImplRow,
    asked: &AskedProjection<'t, '_>,
    source: Source,
) -> Result<Vec<InternedEntry<'t>>, OutOfMemory>
    requires { ProjectionIn terms.old asked.now }
    ensures kept { Keeps terms.old terms.new }
    ensures within { IfOk result (λ es. EntriesIn terms.new es.items) }
    ensures entries { GivesEntries terms.new setting.entry result (λ S. asked_at terms.old asked.now (source_entries S row.now) source) }
    ensures named { ImplIsOf setting.entry.rows.now row.now → IfOk result (EntriesNameRows setting.entry.rows.now) }
{
    match source {
        Source::Broken(number) => {
            let error = error_of(terms, asked.item.is_const, number)?;
            standing(terms.allocator(), error)
        }
        Source::Def { def_id, is_default } => {
            if is_default {
                default_entries(setting, terms, row, asked, def_id)
            } else {
                definition_entries(setting, terms, row, asked, def_id)
            }
        }
    }
}

/// What an impl says of the item. The table gets the terms. Want of memory or of numbers is the only
/// refusal.
#[tactic(auto, unfolding(crate::specs::ProjectionLists::said_entries))]
fn said_entries<'t>(
    setting: ListSetting<'t, '_>,
    terms: &mut TermTable,
    row: &'t ImplRow,
    asked: &AskedProjection<'t, '_>,
) -> Result<Vec<InternedEntry<'t>>, OutOfMemory>
    requires { ProjectionIn terms.old asked.now }
    ensures kept { Keeps terms.old terms.new }
    ensures within { IfOk result (λ es. EntriesIn terms.new es.items) }
    ensures entries { GivesEntries terms.new setting.entry result (λ S. asked_at terms.old asked.now (said_entries S row.now)) }
    ensures named { ImplIsOf setting.entry.rows.now row.now → IfOk result (EntriesNameRows setting.entry.rows.now) }
{
    let Some(found) = setting.rows.source_row(row.id, asked.item.id) else {
        return undecided(terms.allocator());
    };
    source_entries(setting, terms, row, asked, found.source)
}

/// What an impl asks for: that its header matches the trait's arguments, its where clauses and the item's
/// own. Behind that comes what it says of the item. Want of memory is the only refusal.
fn impl_entries<'t>(
    alloc: Global,
    row: &'t ImplRow,
    asked: &AskedProjection<'t, '_>,
    mut said: Vec<InternedEntry<'t>>,
) -> Result<Vec<InternedEntry<'t>>, OutOfMemory>
    ensures within { (T : List Tree) → ProjectionIn T asked.now → EntriesIn T said.entry.items → IfOk result (λ es. EntriesIn T es.items) }
    ensures entries { (T : List Tree) → IfOk result (λ es. entries_at T es.items ≡ asked_impl_entries T row.now asked.now (entries_at T said.entry.items)) }
    ensures named { (t : Tables) → ImplIsOf t row.now → ProjectionIsOf t asked.now → All (NamesItsRows t) said.entry.items → IfOk result (EntriesNameRows t) }
{
    let mut entries = impl_match(alloc, row, first_of(asked.args, asked.trait_params))?;
    let named = given_arguments(alloc, asked.args)?;
    let asked_of = RowClauses::Item(asked.item.id);
    let own = InternedEntry::RowClauses(asked_of, asked.item.own_predicates.as_slice(), 1);
    let mut further = vec![in alloc; InternedEntry::Evaluation, named, own]?;
    entries.append(&mut further)?;
    entries.append(&mut said)?;
    Ok(entries)
}

/// The list of an impl: its header is matched with the trait's arguments, its where clauses and the item's
/// own are asked for, and then what it says of the item. The table gets the terms. Want of memory or of
/// numbers is the only fault.
fn impl_list<'t>(
    setting: ListSetting<'t, '_>,
    terms: &mut TermTable,
    asked: &AskedProjection<'t, '_>,
    row: &'t ImplRow,
) -> Result<Option<Vec<InternedEntry<'t>>>, OutOfMemory>
    requires { ProjectionIn terms.old asked.now }
    ensures kept { Keeps terms.old terms.new }
    ensures within { IfOk result (ListIn terms.new) }
    ensures list { GivesList terms.new setting.entry result (λ S. asked_at terms.old asked.now (projection_impl_list S) row.now) }
    ensures named { ImplIsOf setting.entry.rows.now row.now → ProjectionIsOf setting.entry.rows.now asked.now → IfOk result (ListNamesItsRows setting.entry.rows.now) }
{
    let alloc = terms.allocator();
    let said = said_entries(setting, terms, row, asked)?;
    let entries = impl_entries(alloc, row, asked, said)?;
    list_by_polarity(alloc, setting.mode, row.polarity, entries)
}

/// The list of a clause: a projection of the same item asks that its arguments are the goal's and that the
/// item's own where clauses hold, and the head form of its term is given. Want of memory is the only
/// fault.
#[tactic(auto, unfolding(crate::specs::ProjectionLists::projection_assumption_list, crate::specs::ProjectionLists::equation_clause_list))]
fn assumption_list<'t>(
    terms: &TermTable,
    asked: &AskedProjection<'t, '_>,
    clause: &InternedPredicate,
) -> Result<Option<Vec<InternedEntry<'t>>>, OutOfMemory>
    requires asked { ProjectionIn terms.now asked.now }
    requires clause { PredicateIn terms.now clause.now }
    ensures within { IfOk result (ListIn terms.now) }
    ensures list { IfOk result (λ o. list_at terms.now o ≡ projection_assumption_list (projection_at terms.now asked.now) (predicate_at terms.now clause.now)) }
    ensures named { (t : Tables) → ProjectionIsOf t asked.now → IfOk result (ListNamesItsRows t) }
{
    match clause {
        InternedPredicate::Projection(alias, term) => equation_list(terms, asked, *alias, *term),
        InternedPredicate::Trait(_) => Ok(None),
        InternedPredicate::HostEffect(_, _) => Ok(None),
    }
}

/// The list of an alias that a clause equates with a term. Want of memory is the only fault.
fn equation_list<'t>(
    terms: &TermTable,
    asked: &AskedProjection<'t, '_>,
    alias: TermId,
    term: TermId,
) -> Result<Option<Vec<InternedEntry<'t>>>, OutOfMemory>
    requires asked { ProjectionIn terms.now asked.now }
    requires alias { IsIn terms.now alias }
    requires term { IsIn terms.now term }
    ensures within { IfOk result (ListIn terms.now) }
    ensures list { IfOk result (λ o. list_at terms.now o ≡ equation_clause_list (projection_at terms.now asked.now) (erased_at terms.now alias) (erased_at terms.now term)) }
    ensures named { (t : Tables) → ProjectionIsOf t asked.now → IfOk result (ListNamesItsRows t) }
{
    let Node::Alias(kind) = terms.node(alias) else {
        return Ok(None);
    };
    if !projects(kind, asked.item.id) {
        return Ok(None);
    }
    let alloc = terms.allocator();
    let equal = equal_terms(alloc, terms.parts(alias), asked.args)?;
    let named = given_arguments(alloc, asked.args)?;
    let asked_of = RowClauses::Item(asked.item.id);
    let own = InternedEntry::RowClauses(asked_of, asked.item.own_predicates.as_slice(), 0);
    let given = InternedEntry::Expected(InternedTerm::HeadFormOf(term));
    Ok(Some(vec![in alloc; equal, named, own, given]?))
}

/// The list of what a built-in rule lists: its term behind its premises, the alias itself, or by whether
/// the self type is `Sized`. The table gets `()`. Want of memory or of numbers is the only fault.
#[tactic(auto, unfolding(crate::specs::ProjectionLists::listed_list))]
fn listed_list<'t>(
    terms: &mut TermTable,
    asked: &AskedProjection<'t, '_>,
    listed: ListedTerm,
) -> Result<Option<Vec<InternedEntry<'t>>>, OutOfMemory>
    requires asked { ProjectionIn terms.old asked.now }
    requires listed { ListedIn terms.old listed }
    ensures kept { Keeps terms.old terms.new }
    ensures within { IfOk result (ListIn terms.new) }
    ensures list { IfOk result (λ o. list_at terms.new o ≡ asked_at terms.old asked.now listed_list (listed_at terms.old listed)) }
    ensures named { (t : Tables) → IfOk result (ListNamesItsRows t) }
{
    let alloc = terms.allocator();
    match listed {
        ListedTerm::Nothing => Ok(None),
        ListedTerm::Behind(premises, term) => {
            let mut entries = premise_entries(alloc, GoalSource::ImplWhereBound, premises)?;
            entries.push(InternedEntry::Expected(InternedTerm::HeadFormOf(term)))?;
            Ok(Some(entries))
        }
        ListedTerm::Rigid => {
            let entries = standing(alloc, asked.rigid_alias)?;
            Ok(Some(entries))
        }
        ListedTerm::BySize(sized) => {
            let args = copied(alloc, first_of(asked.args, 1))?;
            let unit = intern_leaf(alloc, terms, Head::Tuple(0))?;
            let of = InternedTrait {
                def_id: sized,
                args,
            };
            let chosen = InternedTerm::ChosenBy(
                InternedPredicate::Trait(of),
                unit,
                asked.rigid_alias,
            );
            Ok(Some(vec![in alloc; InternedEntry::Expected(chosen)]?))
        }
    }
}

/// The list of a built-in rule of the item. The table gets the terms. Want of memory or of numbers is the
/// only fault.
fn rule_list<'t>(
    setting: ListSetting<'t, '_>,
    terms: &mut TermTable,
    asked: &AskedProjection<'t, '_>,
) -> Result<Option<Vec<InternedEntry<'t>>>, OutOfMemory>
    requires { ProjectionIn terms.old asked.now }
    ensures kept { Keeps terms.old terms.new }
    ensures within { IfOk result (ListIn terms.new) }
    ensures list { IfOk result (λ o. list_at terms.new o ≡ asked_at terms.old asked.now listed_list (asked_term_rule terms.old setting.entry.rows.now asked.now)) }
    ensures named { (t : Tables) → IfOk result (ListNamesItsRows t) }
{
    let listed = term_rule(setting.rows, terms, asked.item.id, asked.args)?;
    listed_list(terms, asked, listed)
}

/// The list of a candidate for the term of a projection, or none where its rule is refused. The table gets
/// the terms. Want of memory or of numbers is the only fault.
#[tactic(auto, unfolding(crate::specs::ProjectionLists::projection_list))]
pub fn projection_list<'t>(
    setting: ListSetting<'t, '_>,
    terms: &mut TermTable,
    asked: &AskedProjection<'t, '_>,
    candidate: &InternedCandidate<'t>,
) -> Result<Option<Vec<InternedEntry<'t>>>, OutOfMemory>
    requires asked { ProjectionIn terms.old asked.now }
    requires candidate { CandidateIn terms.old candidate.now }
    ensures kept { Keeps terms.old terms.new }
    ensures within { IfOk result (ListIn terms.new) }
    ensures list { GivesList terms.new setting.entry result (λ S. asked_at terms.old asked.now (projection_list S) (candidate_at terms.old candidate.now)) }
    ensures named { IfRowsOf setting.entry.rows.now candidate.now asked.now (IfOk result (ListNamesItsRows setting.entry.rows.now)) }
{
    match candidate {
        InternedCandidate::Assumption(clause) => assumption_list(terms, asked, clause),
        InternedCandidate::ImpliedBound(_, _) => Ok(None),
        InternedCandidate::Impl(row) => impl_list(setting, terms, asked, *row),
        InternedCandidate::BuiltIn => rule_list(setting, terms, asked),
        InternedCandidate::Error => Ok(None),
    }
}
