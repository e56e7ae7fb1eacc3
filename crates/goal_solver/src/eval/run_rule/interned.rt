//! Entries of rules, with numbers for their terms and parts of rows for their ids.
ghost use Rattle.std.specs.Prelude.{◌≡◌, List, IfOk, IfErr, IfSome};
ghost use Rattle.std.specs.Option.{option_copied, option_map};
ghost use Rattle.goal_terms.specs.PredicateTrees.{tree_of_kind};
ghost use Rattle.goal_interner.specs.TableMeaning.{Keeps};
ghost use Rattle.goal_terms.specs.Tree.{Tree};
ghost use Rattle.goal_terms.specs.TreeOf.{trees_of, tree_of_term};
ghost use Rattle.goal_tables.specs.Rows.{impl_of};
ghost use Rattle.goal_lists.specs.Answers.{erased_predicate};
ghost use Rattle.goal_lists.specs.Interned.{PredicateIn, predicate_at};
ghost use Rattle.goal_lists.specs.Entries.{chosen_by, equal_terms, row_clauses, row_conditions};
ghost use Rattle.goal_lists.specs.InternedEntries.{ArgumentsIn, TermIn, EntryIn, arguments_at, term_at, entry_at, header_trees, value_tree};
ghost use Rattle.goal_kinds.specs.RuleLists.{arguments_of, expected_of, entry_of, names_arguments};
ghost use Rattle.goal_lists.specs.RowWords.{header_arguments, other_arguments};
ghost use Rattle.goal_lists.specs.RowWords.{clauses_in, conditions_in, value_in, value_term};
ghost use Rattle.goal_eval.specs.Lists.{AtEachLevel, RunIn};
ghost use Rattle.goal_eval.specs.Outcomes.{header_terms};
ghost use Rattle.goal_solver.specs.RunRules.{RuleRunsOn, header_at, chosen_term};
ghost use Rattle.goal_eval.specs.Effects.{AreSound, IsStop};

use crate::eval::run_rule::recorded::{ToRecord, to_record};
use goal_eval::eval::effects::Effects;
use goal_eval::eval::interning::{intern_args, intern_equation};
use goal_eval::eval::lists::entries::run_entry;
use goal_eval::eval::lists::progress::{ListRun, Reached};
use goal_eval::eval::outcomes::{Setting, Stop};
use goal_interner::term_nodes::OutOfMemory;
use goal_interner::term_table::TermTable;
use goal_kinds::rules::{
    ArgsIndex, RowClauses, RowValue, RuleArguments, RuleEntry, RuleHeader, RuleTerm,
};
use goal_lists::candidates::interned::{InternedPredicate, InternedTrait};
use goal_lists::lists::{
    HeaderTerms, InternedArguments, InternedEntry, InternedTerm, RowHeader, RowValueTerm,
};
use goal_lists::outcomes::Outcome;
use goal_tables::lookup::IndexedTables;
use goal_tables::rows::{DefValue, ImplRow};
use goal_terms::answers::DelayedFault;
use goal_terms::ids::ImplId;
use goal_terms::predicates::{BoundConstness, Clause, ClauseKind, TraitRef};
use goal_terms::terms::{GenericArg, Term};

/// Runs an entry of a rule at a depth. One that says to record something asks for nothing; one whose row is
/// missing is undecided, and ends the list where it names arguments.
#[tactic(auto, using(goal_eval::proofs::CacheLemmas::caching))]
pub(crate) fn run_rule_entry(
    setting: &Setting<'_>,
    terms: &mut TermTable,
    effects: &mut Effects,
    run: &mut ListRun,
    entry: &RuleEntry,
    depth: u32,
) -> Result<Reached, Stop>
    requires effects { AreSound setting.now terms.old effects.old }
    requires run { RunIn terms.old run.old }
    ensures effects { AreSound setting.now terms.new effects.new }
    ensures kept { Keeps terms.old terms.new }
    ensures within { IfOk result (λ _. RunIn terms.new run.new) }
    ensures stops { IfErr result (IsStop setting.now) }
    ensures says { AtEachLevel setting.now depth (λ L. IfOk result (RuleRunsOn setting.now.rows.now L terms.old run.old entry.now terms.new run.new)) }
{
    let ToRecord::Nothing = to_record(entry) else {
        return Ok(Reached::Next);
    };
    match interned_entry(setting, terms, entry)? {
        Some(interned) => run_entry(setting, terms, effects, run, &interned, depth),
        None if names_arguments(entry) => Ok(Reached::Undecided),
        None => Ok(run.ask(Outcome::Undecided)),
    }
}

/// Whether an entry names arguments.
fn names_arguments(entry: &RuleEntry) -> bool
    ensures { result ≡ names_arguments entry.now }
{
    matches!(entry, RuleEntry::Arguments(_))
}

/// An entry with numbers for its terms, which the table gets, and parts of rows for their ids; none where a
/// row that it names isn't there, or has no value. Want of memory or of numbers is the only refusal.
fn interned_entry<'t>(
    setting: &Setting<'t>,
    terms: &mut TermTable,
    entry: &RuleEntry,
) -> Result<Option<InternedEntry<'t>>, OutOfMemory>
    ensures kept { Keeps terms.old terms.new }
    ensures within { IfOk result (λ o. IfSome o (EntryIn terms.new)) }
    ensures entry { IfOk result (λ o. option_map (entry_at terms.new) o ≡ entry_of setting.now.rows.now entry.now) }
{
    match entry {
        RuleEntry::Arguments(arguments) => {
            let Some(made) = interned_arguments(setting, terms, arguments)? else {
                return Ok(None);
            };
            Ok(Some(InternedEntry::Arguments(made)))
        }
        RuleEntry::Equation(left, right) => {
            let made = interned_equation(setting, terms, left, right)?;
            Ok(Some(made))
        }
        RuleEntry::Clause(source, clause) => {
            let made = interned_clause(setting, terms, clause)?;
            Ok(Some(InternedEntry::Clause(*source, made)))
        }
        RuleEntry::RowClauses(row, number) => Ok(row_clauses(setting.rows, *row, *number)),
        RuleEntry::RowConditions(constness, id, number) => {
            Ok(row_conditions(setting.rows, *constness, *id, *number))
        }
        RuleEntry::Term(_, term) => {
            let Some(made) = interned_term(setting, terms, term)? else {
                return Ok(None);
            };
            Ok(Some(InternedEntry::Expected(made)))
        }
        RuleEntry::HiddenType(_, key, first) => {
            let Some(row) = setting.rows.opaque_row(key.def_id) else {
                return Ok(None);
            };
            let ids = intern_args(setting.allocator(), terms, &key.args)?;
            let hidden = InternedTerm::HiddenType(key.def_id, ids, *first, row);
            Ok(Some(InternedEntry::Expected(hidden)))
        }
        RuleEntry::Access(access) => Ok(Some(InternedEntry::Access(*access))),
        RuleEntry::DelayedFault(fault) => Ok(Some(InternedEntry::DelayedFault(*fault))),
        RuleEntry::Evaluation => Ok(Some(InternedEntry::Evaluation)),
        RuleEntry::Ambiguous => Ok(Some(InternedEntry::Ambiguous)),
        RuleEntry::Undecided => Ok(Some(InternedEntry::Undecided)),
        RuleEntry::Refused => Ok(Some(InternedEntry::Refused)),
    }
}

/// Arguments that an entry names, likewise.
fn interned_arguments<'t>(
    setting: &Setting<'t>,
    terms: &mut TermTable,
    arguments: &RuleArguments,
) -> Result<Option<InternedArguments<'t>>, OutOfMemory>
    ensures kept { Keeps terms.old terms.new }
    ensures within { IfOk result (λ o. IfSome o (ArgumentsIn terms.new)) }
    ensures arguments { IfOk result (λ o. option_map (arguments_at terms.new) o ≡ arguments_of setting.now.rows.now arguments.now) }
{
    match arguments {
        RuleArguments::Given(args) => {
            let ids = intern_args(setting.allocator(), terms, args)?;
            Ok(Some(InternedArguments::Given(ids)))
        }
        RuleArguments::Header(header, args) => {
            let Some(row) = row_header(setting.rows, *header) else {
                return Ok(None);
            };
            let ids = intern_args(setting.allocator(), terms, args)?;
            Ok(Some(InternedArguments::OfHeader(*header, row, ids)))
        }
        RuleArguments::OtherImpl(other, of, number) => {
            Ok(other_header(setting.rows, *other, *of, *number))
        }
        RuleArguments::Followed(number, own) => {
            let ids = intern_args(setting.allocator(), terms, own)?;
            Ok(Some(InternedArguments::FollowedBy(*number as usize, ids)))
        }
    }
}

/// The header of a row.
fn row_header(rows: &IndexedTables, header: RuleHeader) -> Option<RowHeader<'_>>
    ensures { (gs : List Tree) → option_map (header_at gs) result ≡ header_arguments rows.now header gs }
{
    match header {
        RuleHeader::Impl(id) => Some(impl_header(rows.impl_row(id)?)),
        RuleHeader::InherentImpl(id) => {
            let row = rows.inherent_impl_row(id)?;
            Some(RowHeader {
                params: row.params.as_slice(),
                terms: HeaderTerms::SelfType(&row.self_ty),
            })
        }
    }
}

/// The header of an impl.
fn impl_header(row: &ImplRow) -> RowHeader<'_>
    ensures params { result.params.now ≡ row.now.params.items }
    ensures terms { header_trees result.terms ≡ trees_of row.now.trait_args.items }
{
    RowHeader {
        params: row.params.as_slice(),
        terms: HeaderTerms::Arguments(row.trait_args.as_slice()),
    }
}

/// The header of an impl, to be matched with that of a second one under the arguments of a number.
fn other_header(
    rows: &IndexedTables,
    other: ImplId,
    of: ImplId,
    number: ArgsIndex,
) -> Option<InternedArguments<'_>>
    ensures within { (T : List Tree) → IfSome result (ArgumentsIn T) }
    ensures arguments { (T : List Tree) → option_map (arguments_at T) result ≡ other_arguments (impl_of rows.now other) (impl_of rows.now of) number }
{
    let header = impl_header(rows.impl_row(other)?);
    let row = rows.impl_row(of)?;
    let args = row.trait_args.as_slice();
    Some(InternedArguments::OfOtherHeader(other, of, header, args, number as usize))
}

/// That two lists of arguments are equal, with numbers for them.
fn interned_equation<'t>(
    setting: &Setting<'t>,
    terms: &mut TermTable,
    left: &[GenericArg],
    right: &[GenericArg],
) -> Result<InternedEntry<'t>, OutOfMemory>
    ensures kept { Keeps terms.old terms.new }
    ensures within { IfOk result (EntryIn terms.new) }
    ensures entry { IfOk result (λ e. entry_at terms.new e ≡ equal_terms (header_terms left.now) (header_terms right.now)) }
{
    let first = intern_args(setting.allocator(), terms, left)?;
    let second = intern_args(setting.allocator(), terms, right)?;
    Ok(InternedEntry::EqualTerms(first, second))
}

/// What a clause says, as it stands.
fn interned_clause(
    setting: &Setting<'_>,
    terms: &mut TermTable,
    clause: &ClauseKind,
) -> Result<InternedPredicate, OutOfMemory>
    ensures kept { Keeps terms.old terms.new }
    ensures within { IfOk result (PredicateIn terms.new) }
    ensures tree { IfOk result (λ p. predicate_at terms.new p ≡ erased_predicate (tree_of_kind clause.now)) }
{
    match clause {
        ClauseKind::Trait(held) => {
            let def_id = held.trait_ref.def_id;
            let args = intern_args(setting.allocator(), terms, &held.trait_ref.args)?;
            Ok(InternedPredicate::Trait(InternedTrait { def_id, args }))
        }
        ClauseKind::Projection(equation) => {
            let (alias, term) = intern_equation(terms, &equation.projection_term, &equation.term)?;
            Ok(InternedPredicate::Projection(alias, term))
        }
        ClauseKind::HostEffect(held) => {
            let def_id = held.trait_ref.def_id;
            let args = intern_args(setting.allocator(), terms, &held.trait_ref.args)?;
            let of = InternedTrait { def_id, args };
            Ok(InternedPredicate::HostEffect(held.constness, of))
        }
    }
}

/// The clauses of a row, under the arguments of a number.
fn row_clauses(
    rows: &IndexedTables,
    row: RowClauses,
    number: ArgsIndex,
) -> Option<InternedEntry<'_>>
    ensures within { (T : List Tree) → IfSome result (EntryIn T) }
    ensures entry { (T : List Tree) → option_map (entry_at T) result ≡ option_map (λ cs. row_clauses cs number) (clauses_in rows.now row) }
{
    let clauses = clauses_of(rows, row)?;
    Some(InternedEntry::RowClauses(row, clauses, number as usize))
}

/// The const conditions of an impl with a constness, under the arguments of a number.
fn row_conditions(
    rows: &IndexedTables,
    constness: BoundConstness,
    id: ImplId,
    number: ArgsIndex,
) -> Option<InternedEntry<'_>>
    ensures within { (T : List Tree) → IfSome result (EntryIn T) }
    ensures entry { (T : List Tree) → option_map (entry_at T) result ≡ option_map (λ rs. row_conditions constness rs number) (conditions_in rows.now id) }
{
    let conditions = conditions_of(rows, id)?;
    Some(InternedEntry::RowConditions(constness, id, conditions, number as usize))
}

/// The clauses of a row.
pub(crate) fn clauses_of(rows: &IndexedTables, row: RowClauses) -> Option<&[Clause]>
    ensures { option_copied result ≡ clauses_in rows.now row }
{
    match row {
        RowClauses::Impl(id) => Some(rows.impl_row(id)?.predicates.as_slice()),
        RowClauses::Item(id) => Some(rows.item_row(id)?.own_predicates.as_slice()),
        RowClauses::Free(id) => Some(rows.free_row(id)?.predicates.as_slice()),
        RowClauses::Inherent(id) => Some(rows.inherent_row(id)?.predicates.as_slice()),
    }
}

/// The const conditions of an impl.
pub(crate) fn conditions_of(rows: &IndexedTables, id: ImplId) -> Option<&[TraitRef]>
    ensures { option_copied result ≡ conditions_in rows.now id }
{
    Some(rows.impl_row(id)?.const_conditions.as_slice())
}

/// What the expected term is, likewise.
fn interned_term<'t>(
    setting: &Setting<'t>,
    terms: &mut TermTable,
    term: &RuleTerm,
) -> Result<Option<InternedTerm<'t>>, OutOfMemory>
    ensures kept { Keeps terms.old terms.new }
    ensures within { IfOk result (λ o. IfSome o (TermIn terms.new)) }
    ensures term { IfOk result (λ o. option_map (term_at terms.new) o ≡ expected_of setting.now.rows.now term.now) }
{
    match term {
        RuleTerm::AsItStands(term) => {
            let id = terms.intern(term)?;
            Ok(Some(InternedTerm::AsItStands(id)))
        }
        RuleTerm::Normalized(term) => {
            let id = terms.intern(term)?;
            Ok(Some(InternedTerm::HeadFormOf(id)))
        }
        RuleTerm::Value(value, number) => {
            let Some(found) = value_of(setting.rows, *value) else {
                return Ok(None);
            };
            Ok(Some(InternedTerm::ValueUnder(*value, found, *number as usize)))
        }
        RuleTerm::ChosenBy(clause, first, second) => {
            let made = chosen_by(setting, terms, clause, first, second)?;
            Ok(Some(made))
        }
    }
}

/// The first of two terms where a clause holds, the second where it is refuted, with numbers for them.
fn chosen_by<'t>(
    setting: &Setting<'t>,
    terms: &mut TermTable,
    clause: &ClauseKind,
    first: &Term,
    second: &Term,
) -> Result<InternedTerm<'t>, OutOfMemory>
    ensures kept { Keeps terms.old terms.new }
    ensures within { IfOk result (TermIn terms.new) }
    ensures term { IfOk result (λ e. term_at terms.new e ≡ chosen_term clause.now first.now second.now) }
{
    let asked = interned_clause(setting, terms, clause)?;
    let held = terms.intern(first)?;
    let refuted = terms.intern(second)?;
    Ok(InternedTerm::ChosenBy(asked, held, refuted))
}

/// The value of a row, if it has one.
fn value_of(rows: &IndexedTables, value: RowValue) -> Option<RowValueTerm<'_>>
    ensures { option_map value_tree result ≡ value_in rows.now value }
{
    match value {
        RowValue::Definition(id) => definition_value(&rows.definition_row(id)?.value),
        RowValue::Free(id) => own_value(&rows.free_row(id)?.value),
        RowValue::Inherent(id) => own_value(&rows.inherent_row(id)?.value),
        RowValue::Opaque(id) => Some(RowValueTerm::Ty(&rows.opaque_row(id)?.hidden)),
    }
}

/// The value of a definition, if it has one that is no constant to be evaluated.
fn definition_value(value: &DefValue) -> Option<RowValueTerm<'_>>
    ensures { option_map value_tree result ≡ value_term value.now }
{
    match value {
        DefValue::Term(term) => Some(RowValueTerm::Term(term)),
        DefValue::Missing | DefValue::Evaluated => None,
    }
}

/// The value of an alias's row, if it has one.
fn own_value(value: &Option<Term>) -> Option<RowValueTerm<'_>>
    ensures { option_map value_tree result ≡ option_map tree_of_term value.now }
{
    match value {
        Some(term) => Some(RowValueTerm::Term(term)),
        None => None,
    }
}
