//! The lists of the candidates for host effect goals, over numbers of a term table.
ghost use Rattle.std.specs.Prelude.{◌≡◌, List, Some, IfOk};
ghost use Rattle.std.specs.List.{All};
ghost use Rattle.goal_interner.specs.TableMeaning.{Keeps};
ghost use Rattle.goal_terms.specs.Tree.{Tree};
ghost use Rattle.goal_tables.specs.Rows.{impl_of, trait_of};
ghost use Rattle.goal_tables.specs.declared.rows.Tables.{Tables};
ghost use Rattle.goal_lists.specs.Builtins.{lang_of_trait};
ghost use Rattle.goal_lists.specs.ConstGoals.{satisfies};
ghost use Rattle.goal_lists.specs.EffectLists.{effect_assumption_list, implied_list, effect_impl_list, source_of_lang, source_of_const_rule, const_rule_entries, effect_rule_list, effect_list};
ghost use Rattle.goal_lists.specs.Interned.{AreIn, PredicateIn, TraitIn, ConstRuleIn, CandidateIn, erased_all, predicate_at, trait_at, const_rule_at};
ghost use Rattle.goal_lists.specs.InternedEntries.{EntriesIn, ListIn, entries_at, list_at};
ghost use Rattle.goal_lists.specs.ListWords.{GivesList, given_at, traits_at};
ghost use Rattle.goal_lists.specs.NamedRows.{CandidateIsOf, ListNamesItsRows, NamesItsRows};

use crate::builtin::consts::const_rule;
use crate::candidates::interned::{
    InternedCandidate, InternedConstRule, InternedPredicate, InternedTrait,
};
use crate::lists::parts::{
    condition_entries, equal_terms, error_list, impl_match, list_by_polarity, premise_entries,
};
use crate::lists::{InternedEntry, ListSetting};
use goal_interner::term_nodes::{OutOfMemory, TermId};
use goal_interner::term_table::TermTable;
use goal_tables::lookup::IndexedTables;
use goal_tables::rows::ImplRow;
use goal_terms::answers::GoalSource;
use goal_terms::ids::TraitId;
use goal_terms::lang::{LangItem, LangTarget};
use goal_terms::modes::TypingMode;
use goal_terms::predicates::BoundConstness;
use std::alloc::Global;

/// Whether a clause of one constness satisfies a goal of another.
pub fn satisfies(said: BoundConstness, asked: BoundConstness) -> bool
    ensures { result ≡ satisfies said asked }
{
    match said {
        BoundConstness::Const => true,
        BoundConstness::Maybe => matches!(asked, BoundConstness::Maybe),
    }
}

/// The list of a clause: one that the trait is const, with a constness that satisfies the goal's, asks that
/// its arguments are the goal's. Want of memory is the only fault.
#[tactic(auto, unfolding(crate::specs::EffectLists::effect_assumption_list))]
fn assumption_list<'t>(
    alloc: Global,
    constness: BoundConstness,
    trait_id: TraitId,
    args: &[TermId],
    clause: &InternedPredicate,
) -> Result<Option<Vec<InternedEntry<'t>>>, OutOfMemory>
    ensures within { (T : List Tree) → AreIn T args.now → PredicateIn T clause.now → IfOk result (ListIn T) }
    ensures list { (T : List Tree) → IfOk result (λ o. list_at T o ≡ effect_assumption_list constness trait_id (erased_all T args.now) (predicate_at T clause.now)) }
    ensures named { (t : Tables) → IfOk result (ListNamesItsRows t) }
{
    match clause {
        InternedPredicate::HostEffect(said, of) => {
            if of.def_id.0 != trait_id.0 {
                return Ok(None);
            }
            if !satisfies(*said, constness) {
                return Ok(None);
            }
            let equal = equal_terms(alloc, of.args.as_slice(), args)?;
            Ok(Some(vec![in alloc; equal]?))
        }
        InternedPredicate::Trait(_) => Ok(None),
        InternedPredicate::Projection(_, _) => Ok(None),
    }
}

/// The list of an implied const bound: its arguments are the goal's, and the alias's const conditions hold
/// with the goal's constness. Want of memory is the only fault.
fn implied_list<'t>(
    alloc: Global,
    constness: BoundConstness,
    trait_id: TraitId,
    args: &[TermId],
    bound: &InternedTrait,
    conditions: &[InternedTrait],
) -> Result<Option<Vec<InternedEntry<'t>>>, OutOfMemory>
    ensures within { (T : List Tree) → AreIn T args.now → TraitIn T bound.now → All (TraitIn T) conditions.now → IfOk result (ListIn T) }
    ensures list { (T : List Tree) → IfOk result (λ o. list_at T o ≡ implied_list constness trait_id (erased_all T args.now) (trait_at T bound.now) (traits_at T conditions.now)) }
    ensures named { (t : Tables) → IfOk result (ListNamesItsRows t) }
{
    if bound.def_id.0 != trait_id.0 {
        return Ok(None);
    }
    let equal = equal_terms(alloc, bound.args.as_slice(), args)?;
    let source = GoalSource::AliasBoundConstCondition;
    let mut entries = vec![in alloc; equal]?;
    let mut asked = condition_entries(alloc, source, constness, conditions)?;
    entries.append(&mut asked)?;
    Ok(Some(entries))
}

/// The list of an impl: a const impl asks what it does for the trait goal, and its const conditions with
/// the goal's constness. Want of memory is the only fault.
fn impl_list<'t>(
    alloc: Global,
    mode: &TypingMode,
    constness: BoundConstness,
    args: &[TermId],
    row: &'t ImplRow,
) -> Result<Option<Vec<InternedEntry<'t>>>, OutOfMemory>
    ensures within { (T : List Tree) → AreIn T args.now → IfOk result (ListIn T) }
    ensures list { (T : List Tree) → IfOk result (λ o. list_at T o ≡ effect_impl_list mode.now constness (erased_all T args.now) row.now) }
    ensures named { (t : Tables) → impl_of t row.now.id ≡ Some row.now → IfOk result (ListNamesItsRows t) }
{
    if row.is_const {
        let mut entries = impl_match(alloc, row, args)?;
        let conditions = row.const_conditions.as_slice();
        entries.push(InternedEntry::RowConditions(constness, row.id, conditions, 0))?;
        return list_by_polarity(alloc, mode, row.polarity, entries);
    }
    Ok(None)
}

/// As what the const conditions of a lang trait's rule are asked for.
fn source_of_lang(rows: &IndexedTables, trait_id: TraitId) -> GoalSource
    ensures { result ≡ source_of_lang (lang_of_trait rows.now trait_id) }
{
    match rows.lang_naming(LangTarget::Trait(trait_id)) {
        None => GoalSource::ImplWhereBound,
        Some(row) => match row.item {
            LangItem::Destruct => GoalSource::AliasBoundConstCondition,
            _ => GoalSource::ImplWhereBound,
        },
    }
}

/// And those of any trait's rule.
fn source_of_const_rule(rows: &IndexedTables, trait_id: TraitId) -> GoalSource
    ensures { result ≡ source_of_const_rule rows.now trait_id (trait_of rows.now trait_id) }
{
    match rows.trait_row(trait_id) {
        None => GoalSource::ImplWhereBound,
        Some(row) => {
            if row.is_alias {
                GoalSource::Misc
            } else {
                source_of_lang(rows, trait_id)
            }
        }
    }
}

/// The premises of a rule, and its const conditions with the goal's constness. Want of memory is the only
/// refusal.
fn const_rule_entries<'t>(
    alloc: Global,
    source: GoalSource,
    constness: BoundConstness,
    rule: InternedConstRule,
) -> Result<Vec<InternedEntry<'t>>, OutOfMemory>
    ensures within { (T : List Tree) → ConstRuleIn T rule → IfOk result (λ es. EntriesIn T es.items) }
    ensures entries { (T : List Tree) → IfOk result (λ es. entries_at T es.items ≡ const_rule_entries source constness (const_rule_at T rule)) }
    ensures named { (t : Tables) → IfOk result (λ es. All (NamesItsRows t) es.items) }
{
    let conditions = rule.conditions.as_slice();
    let mut asked = condition_entries(alloc, source, constness, conditions)?;
    let mut entries = premise_entries(alloc, source, rule.premises)?;
    entries.append(&mut asked)?;
    Ok(entries)
}

/// The list of a trait alias, or of a built-in rule. Want of memory or of numbers is the only fault.
fn rule_list<'t>(
    rows: &IndexedTables,
    terms: &mut TermTable,
    constness: BoundConstness,
    trait_id: TraitId,
    args: &[TermId],
) -> Result<Option<Vec<InternedEntry<'t>>>, OutOfMemory>
    requires { AreIn terms.old args.now }
    ensures kept { Keeps terms.old terms.new }
    ensures within { IfOk result (ListIn terms.new) }
    ensures list { IfOk result (λ o. list_at terms.new o ≡ effect_rule_list rows.now constness trait_id (erased_all terms.old args.now)) }
    ensures named { (t : Tables) → IfOk result (ListNamesItsRows t) }
{
    let rule = const_rule(rows, terms, trait_id, args)?;
    let Some(asked) = rule else {
        return Ok(None);
    };
    let source = source_of_const_rule(rows, trait_id);
    let entries = const_rule_entries(terms.allocator(), source, constness, asked)?;
    Ok(Some(entries))
}

/// The list of a candidate for a host effect goal, or none where its rule is refused. The table gets the
/// terms. Want of memory or of numbers is the only fault.
#[tactic(auto, unfolding(crate::specs::EffectLists::effect_list))]
pub fn effect_list<'t>(
    setting: ListSetting<'t, '_>,
    terms: &mut TermTable,
    constness: BoundConstness,
    trait_id: TraitId,
    args: &[TermId],
    candidate: &InternedCandidate<'t>,
) -> Result<Option<Vec<InternedEntry<'t>>>, OutOfMemory>
    requires args { AreIn terms.old args.now }
    requires candidate { CandidateIn terms.old candidate.now }
    ensures kept { Keeps terms.old terms.new }
    ensures within { IfOk result (ListIn terms.new) }
    ensures list { GivesList terms.new setting.entry result (λ S. given_at terms.old args.now candidate.now (effect_list S constness trait_id)) }
    ensures named { (t : Tables) → CandidateIsOf t candidate.now → IfOk result (ListNamesItsRows t) }
{
    let alloc = terms.allocator();
    match candidate {
        InternedCandidate::Assumption(clause) => {
            assumption_list(alloc, constness, trait_id, args, clause)
        }
        InternedCandidate::ImpliedBound(bound, conditions) => {
            implied_list(
                alloc,
                constness,
                trait_id,
                args,
                bound,
                conditions.as_slice(),
            )
        }
        InternedCandidate::Impl(row) => impl_list(alloc, setting.mode, constness, args, *row),
        InternedCandidate::BuiltIn => rule_list(setting.rows, terms, constness, trait_id, args),
        InternedCandidate::Error => Ok(error_list(terms, args)),
    }
}
