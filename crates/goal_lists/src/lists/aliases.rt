//! The lists of free, inherent and opaque aliases, and of projection goals, over numbers of a term table.
ghost use Rattle.std.specs.Prelude.{◌≡◌, List, Some, IfOk};
ghost use Rattle.std.specs.List.{All};
ghost use Rattle.std.specs.Option.{option_map};
ghost use Rattle.goal_terms.specs.Tree.{Tree, alias};
ghost use Rattle.goal_terms.specs.TreeOf.{tree_of_term};
ghost use Rattle.goal_terms.specs.declared.terms.AliasTermKind.TheVariants.{OpaqueTy};
ghost use Rattle.goal_tables.specs.Rows.{free_of, inherent_of, inherent_impl_of, opaque_of};
ghost use Rattle.goal_tables.specs.declared.rows.Tables.{Tables};
ghost use Rattle.goal_lists.specs.AliasLists.{row_value, entries_of_row, free_list, inherent_list, inherent_alias_list, hidden_list, defined_list, opaque_alias_list, alias_list};
ghost use Rattle.goal_lists.specs.Interned.{IsIn, AreIn, erased_at, erased_all};
ghost use Rattle.goal_lists.specs.InternedEntries.{EntryIn, EntriesIn, entry_at, entries_at};
ghost use Rattle.goal_lists.specs.ListWords.{GivesEntries, ForAliasAt, opaque_entries, GivesOfOpaque, first_use_in};
ghost use Rattle.goal_lists.specs.NamedRows.{NamesItsRows, IsDefined, DefinesKind};
ghost use Rattle.goal_lists.specs.ProjectionLists.{equation_list};
ghost use Rattle.goal_lists.specs.OpaqueUses.{first_use, first_use_of};
ghost use Rattle.goal_lists.specs.RowWords.{value_in};

use crate::builtin::terms::split_self;
use crate::lists::opaque_uses::{OpaqueUse, use_of};
use crate::lists::parts::{
    copied, equal_terms, followed_by, given_arguments, of_header, standing, undecided,
};
use crate::lists::{
    FirstUse, HeaderTerms, InternedEntry, InternedTerm, ListSetting, RowClauses, RowHeader,
    RowValue, RowValueTerm, RuleHeader,
};
use goal_interner::term_nodes::{OutOfMemory, TermId};
use goal_tables::rows::{FreeRow, InherentImplRow, InherentRow, OpaqueRow};
use goal_terms::ids::{FreeId, InherentId, OpaqueId};
use goal_terms::modes::TypingMode;
use goal_terms::terms::{AliasTermKind, Term};
use std::alloc::Global;

/// A row's value under the arguments of a number; a constant that lacks it is undecided.
fn row_value<'t>(row: RowValue, value: &'t Option<Term>, number: usize) -> InternedEntry<'t>
    ensures within { (T : List Tree) → EntryIn T result }
    ensures entry { (T : List Tree) → entry_at T result ≡ row_value value.now number }
    ensures named { (t : Tables) → value_in t row ≡ option_map tree_of_term value.now → NamesItsRows t result }
{
    match value {
        None => InternedEntry::Undecided,
        Some(term) => {
            let of = RowValueTerm::Term(term);
            InternedEntry::Expected(InternedTerm::ValueUnder(row, of, number))
        }
    }
}

/// The list of a free alias: its where clauses are asked for, and its value is the term. Want of memory is
/// the only refusal.
fn free_list<'t>(
    alloc: Global,
    args: &[TermId],
    row: &'t FreeRow,
) -> Result<Vec<InternedEntry<'t>>, OutOfMemory>
    ensures within { (T : List Tree) → AreIn T args.now → IfOk result (λ es. EntriesIn T es.items) }
    ensures entries { (T : List Tree) → IfOk result (λ es. entries_at T es.items ≡ free_list (erased_all T args.now) row.now) }
    ensures named { (t : Tables) → free_of t row.now.id ≡ Some row.now → IfOk result (λ es. All (NamesItsRows t) es.items) }
{
    let named = given_arguments(alloc, args)?;
    let clauses = InternedEntry::RowClauses(RowClauses::Free(row.id), row.predicates.as_slice(), 0);
    let value = row_value(RowValue::Free(row.id), &row.value, 0);
    Ok(vec![in alloc; named, clauses, value]?)
}

/// The list of an inherent alias: the impl's self type is matched with its own, its where clauses are
/// asked for under the impl's arguments and its own, and its value is the term. Want of memory is the only
/// refusal.
fn inherent_list<'t>(
    alloc: Global,
    self_ty: TermId,
    own: &[TermId],
    row: &'t InherentRow,
    of: &'t InherentImplRow,
) -> Result<Vec<InternedEntry<'t>>, OutOfMemory>
    ensures within { (T : List Tree) → IsIn T self_ty → AreIn T own.now → IfOk result (λ es. EntriesIn T es.items) }
    ensures entries { (T : List Tree) → IfOk result (λ es. entries_at T es.items ≡ inherent_list (erased_at T self_ty) (erased_all T own.now) row.now of.now) }
    ensures named { (t : Tables) → inherent_of t row.now.id ≡ Some row.now → inherent_impl_of t of.now.id ≡ Some of.now → IfOk result (λ es. All (NamesItsRows t) es.items) }
{
    let header = RowHeader {
        params: of.params.as_slice(),
        terms: HeaderTerms::SelfType(&of.self_ty),
    };
    let matched = of_header(alloc, RuleHeader::InherentImpl(of.id), header, &[self_ty])?;
    let followed = followed_by(alloc, 0, own)?;
    let asked = RowClauses::Inherent(row.id);
    let clauses = InternedEntry::RowClauses(asked, row.predicates.as_slice(), 1);
    let value = row_value(RowValue::Inherent(row.id), &row.value, 1);
    Ok(vec![in alloc; matched, followed, clauses, value]?)
}

/// The list of an inherent alias of a number: nothing is decided where it, its self type or its impl isn't
/// there. Want of memory is the only refusal.
fn inherent_alias_list<'t>(
    setting: ListSetting<'t, '_>,
    alloc: Global,
    id: InherentId,
    args: &[TermId],
) -> Result<Vec<InternedEntry<'t>>, OutOfMemory>
    ensures within { (T : List Tree) → AreIn T args.now → IfOk result (λ es. EntriesIn T es.items) }
    ensures entries { (T : List Tree) → GivesEntries T setting.entry result (λ S. inherent_alias_list S (inherent_of setting.entry.rows.now id) (erased_all T args.now)) }
    ensures named { IfOk result (λ es. All (NamesItsRows setting.entry.rows.now) es.items) }
{
    let Some((self_ty, own)) = split_self(args) else {
        return undecided(alloc);
    };
    let Some(row) = setting.rows.inherent_row(id) else {
        return undecided(alloc);
    };
    let Some(of) = setting.rows.inherent_impl_row(row.impl_id) else {
        return undecided(alloc);
    };
    inherent_list(alloc, self_ty, own, row, of)
}

/// The list of a free alias of a number. Want of memory is the only refusal.
fn free_alias_list<'t>(
    setting: ListSetting<'t, '_>,
    alloc: Global,
    id: FreeId,
    args: &[TermId],
) -> Result<Vec<InternedEntry<'t>>, OutOfMemory>
    ensures within { (T : List Tree) → AreIn T args.now → IfOk result (λ es. EntriesIn T es.items) }
    ensures entries { (T : List Tree) → IfOk result (λ es. entries_at T es.items ≡ entries_of_row (free_of setting.entry.rows.now id) (free_list (erased_all T args.now))) }
    ensures named { IfOk result (λ es. All (NamesItsRows setting.entry.rows.now) es.items) }
{
    let Some(row) = setting.rows.free_row(id) else {
        return undecided(alloc);
    };
    free_list(alloc, args, row)
}

/// The hidden type of an opaque type, expected. Want of memory is the only refusal.
fn hidden_list<'t>(
    alloc: Global,
    args: &[TermId],
    row: &'t OpaqueRow,
) -> Result<Vec<InternedEntry<'t>>, OutOfMemory>
    ensures within { (T : List Tree) → AreIn T args.now → IfOk result (λ es. EntriesIn T es.items) }
    ensures entries { (T : List Tree) → IfOk result (λ es. entries_at T es.items ≡ hidden_list (erased_all T args.now) row.now) }
    ensures named { (t : Tables) → opaque_of t row.now.id ≡ Some row.now → IfOk result (λ es. All (NamesItsRows t) es.items) }
{
    let named = given_arguments(alloc, args)?;
    let of = RowValueTerm::Ty(&row.hidden);
    let hidden = InternedEntry::Expected(InternedTerm::ValueUnder(RowValue::Opaque(row.id), of, 0));
    Ok(vec![in alloc; named, hidden]?)
}

/// The hidden type of an opaque type that is being defined, by its arguments. Want of memory is the only
/// refusal.
fn defined_list<'t>(
    alloc: Global,
    id: OpaqueId,
    args: &[TermId],
    row: &'t OpaqueRow,
    first: FirstUse,
) -> Result<Vec<InternedEntry<'t>>, OutOfMemory>
    ensures within { (T : List Tree) → AreIn T args.now → IfOk result (λ es. EntriesIn T es.items) }
    ensures entries { (T : List Tree) → IfOk result (λ es. entries_at T es.items ≡ defined_list id (erased_all T args.now) row.now first) }
    ensures named { (t : Tables) → opaque_of t id ≡ Some row.now → IfOk result (λ es. All (NamesItsRows t) es.items) }
    ensures defined { IfOk result (λ es. IsDefined id args.now first es.items) }
{
    let ids = copied(alloc, args)?;
    let hidden = InternedTerm::HiddenType(id, ids, first, row);
    Ok(vec![in alloc; InternedEntry::Expected(hidden)]?)
}

/// The list of an opaque type, by the typing mode: its hidden type, or itself; ambiguous in coherence, the
/// hidden type's entry where it is being defined, and recorded in the erased mode. Want of memory is the only
/// refusal.
fn opaque_list<'t>(
    mode: &TypingMode,
    alloc: Global,
    id: OpaqueId,
    args: &[TermId],
    rigid_alias: TermId,
    row: &'t OpaqueRow,
) -> Result<Vec<InternedEntry<'t>>, OutOfMemory>
    ensures within { (T : List Tree) → AreIn T args.now → IsIn T rigid_alias → IfOk result (λ es. EntriesIn T es.items) }
    ensures entries { (T : List Tree) → IfOk result (λ es. entries_at T es.items ≡ opaque_entries mode.now row.now id (erased_all T args.now) (erased_at T rigid_alias)) }
    ensures named { (t : Tables) → opaque_of t id ≡ Some row.now → opaque_of t row.now.id ≡ Some row.now → IfOk result (λ es. All (NamesItsRows t) es.items) }
    ensures defined { (f : FirstUse) → first_use mode.now row.now ≡ Some f → IfOk result (λ es. IsDefined id args.now f es.items) }
{
    if let TypingMode::Coherence = mode {
        return Ok(vec![in alloc; InternedEntry::Ambiguous]?);
    }
    match use_of(mode, row) {
        OpaqueUse::Revealed => hidden_list(alloc, args, row),
        OpaqueUse::Rigid => standing(alloc, rigid_alias),
        OpaqueUse::Recorded(access) => {
            let term = InternedEntry::Expected(InternedTerm::AsItStands(rigid_alias));
            Ok(vec![in alloc; InternedEntry::Access(access), term]?)
        }
        OpaqueUse::Defining(first) => defined_list(alloc, id, args, row, first),
        OpaqueUse::Undecided => undecided(alloc),
    }
}

/// The list of an opaque type of a number. Want of memory is the only refusal.
fn opaque_alias_list<'t>(
    setting: ListSetting<'t, '_>,
    alloc: Global,
    id: OpaqueId,
    args: &[TermId],
    rigid_alias: TermId,
) -> Result<Vec<InternedEntry<'t>>, OutOfMemory>
    ensures within { (T : List Tree) → AreIn T args.now → IsIn T rigid_alias → IfOk result (λ es. EntriesIn T es.items) }
    ensures entries { ForAliasAt setting.entry rigid_alias (OpaqueTy id) args.now (λ T S ts. GivesOfOpaque T setting.entry id result (opaque_alias_list S id ts)) }
    ensures named { IfOk result (λ es. All (NamesItsRows setting.entry.rows.now) es.items) }
    ensures defined { (f : FirstUse) → first_use_of setting.entry.rows.now setting.entry.mode.now (OpaqueTy id) ≡ Some f → IfOk result (λ es. IsDefined id args.now f es.items) }
{
    let Some(row) = setting.rows.opaque_row(id) else {
        return undecided(alloc);
    };
    opaque_list(setting.mode, alloc, id, args, rigid_alias, row)
}

/// The list of an alias that is no projection, for its arguments and its own number in a table: nothing
/// decides an unevaluated constant. Want of memory is the only refusal.
pub fn alias_list<'t>(
    setting: ListSetting<'t, '_>,
    alloc: Global,
    kind: AliasTermKind,
    args: &[TermId],
    rigid_alias: TermId,
) -> Result<Vec<InternedEntry<'t>>, OutOfMemory>
    ensures within { (T : List Tree) → AreIn T args.now → IsIn T rigid_alias → IfOk result (λ es. EntriesIn T es.items) }
    ensures entries { ForAliasAt setting.entry rigid_alias kind args.now (λ T S ts. IfOk result (λ es. entries_at T es.items ≡ alias_list S kind ts)) }
    ensures named { IfOk result (λ es. All (NamesItsRows setting.entry.rows.now) es.items) }
    ensures defined { (f : FirstUse) → first_use_in setting.entry kind ≡ Some f → IfOk result (λ es. DefinesKind kind args.now f es.items) }
{
    match kind {
        AliasTermKind::InherentTy(id) => inherent_alias_list(setting, alloc, id, args),
        AliasTermKind::InherentConst(id) => inherent_alias_list(setting, alloc, id, args),
        AliasTermKind::OpaqueTy(id) => opaque_alias_list(setting, alloc, id, args, rigid_alias),
        AliasTermKind::FreeTy(id) => free_alias_list(setting, alloc, id, args),
        AliasTermKind::FreeConst(id) => free_alias_list(setting, alloc, id, args),
        AliasTermKind::UnevaluatedConst(_) => undecided(alloc),
        AliasTermKind::ProjectionTy(_) => undecided(alloc),
        AliasTermKind::ProjectionConst(_) => undecided(alloc),
    }
}

/// The list of a projection goal: the alias and the term are equal. Want of memory is the only refusal.
pub fn equation_list<'t>(
    alloc: Global,
    alias: TermId,
    term: TermId,
) -> Result<Vec<InternedEntry<'t>>, OutOfMemory>
    ensures within { (T : List Tree) → IsIn T alias → IsIn T term → IfOk result (λ es. EntriesIn T es.items) }
    ensures entries { (T : List Tree) → IfOk result (λ es. entries_at T es.items ≡ equation_list (erased_at T alias) (erased_at T term)) }
    ensures named { (t : Tables) → IfOk result (λ es. All (NamesItsRows t) es.items) }
{
    let equal = equal_terms(alloc, &[alias], &[term])?;
    Ok(vec![in alloc; equal]?)
}
