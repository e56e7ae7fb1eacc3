//! Lists over numbers of a term table, with owned terms in place of the numbers, and ids in place of rows.
ghost use Rattle.std.specs.Prelude.{◌≡◌, None, Some, map, IfOk, IfErr, option_copied};
ghost use Rattle.std.specs.List.{All, AllZip};
ghost use Rattle.goal_terms.specs.Erased.{erased};
ghost use Rattle.goal_terms.specs.PredicateTrees.{tree_of_kind};
ghost use Rattle.goal_terms.specs.Sorts.{IsTerm};
ghost use Rattle.goal_interner.specs.TableMeaning.{tree_at};
ghost use Rattle.goal_terms.specs.TreeOf.{tree_of_alias, tree_of_arg, tree_of_term, trees_of};
ghost use Rattle.goal_tables.specs.declared.rows.Tables.{Tables};
ghost use Rattle.goal_lists.specs.Answers.{erased_predicate};
ghost use Rattle.goal_kinds.specs.CandidateRules.{asked_trait, IsRefusal};
ghost use Rattle.goal_lists.specs.Entries.{ExpectsNone, AsksNoTerm, ListAsksNoTerm, expected};
ghost use Rattle.goal_lists.specs.Interned.{IsIn, AreIn, TraitIn, PredicateIn, erased_at, erased_all, trait_at, predicate_at};
ghost use Rattle.goal_lists.specs.InternedEntries.{ArgumentsIn, TermIn, EntryIn, EntriesIn, ListIn, arguments_at, term_at, entry_at, entries_at, list_at};
ghost use Rattle.goal_lists.specs.NamedRows.{ArgumentsNameRows, TermNamesRow, NamesItsRows, IsAlias, IsSortedPredicate, IsSortedTerm, IsSorted, IsExpected, ListIsSorted, ListNamesItsRows};
ghost use Rattle.goal_kinds.specs.RebuiltKeys.{KeepsKey, KeepsKeyOf, KeepsKeys};
ghost use Rattle.goal_kinds.specs.RuleLists.{arguments_of, entry_of, list_then, IsListed};
ghost use Rattle.goal_lists.specs.RowWords.{given};
ghost use Rattle.goal_lists.specs.Words.{Each};
ghost use Rattle.goal_kinds.specs.RuleWords.{TermIsFor, TermsAreFor};

use crate::faults::Fault;
use crate::rules::parts::{copied_term, with_certainty};
use crate::rules::{ArgsIndex, Rule, RuleArguments, RuleEntry, RuleTerm};
use goal_interner::term_nodes::{OutOfMemory, TermId};
use goal_interner::term_table::TermTable;
use goal_lists::candidates::interned::{InternedPredicate, InternedTrait};
use goal_lists::lists::{InternedArguments, InternedEntry, InternedTerm};
use goal_terms::answers::{CandidateSource, Certainty, OpaqueTypeKey};
use goal_terms::heads::{Head, Node};
use goal_terms::predicates::{
    ClauseKind, HostEffectPredicate, ProjectionPredicate, TraitPredicate, TraitRef,
};
use goal_terms::terms::{AliasTerm, GenericArg, Term};

/// The index of named arguments. Want of numbers is the refusal.
fn numbered(number: usize) -> Result<ArgsIndex, OutOfMemory>
    ensures { IfOk result (λ n. n ≡ number) }
{
    if number > u32::MAX as usize {
        return Err(OutOfMemory);
    }
    Ok(number as u32)
}

#[tactic(auto, using(goal_interner::proofs::RebuildLemmas::rebuilding))]
/// The argument of a number. Want of memory is the only refusal.
fn rebuilt_arg(terms: &TermTable, id: TermId) -> Result<GenericArg, OutOfMemory>
    requires { IsIn terms.now id }
    ensures { IfOk result (λ arg. tree_of_arg arg ≡ tree_at terms.now id) }
{
    if let Node::Head(Head::Lifetime(region)) = terms.node(id) {
        return Ok(GenericArg::Lifetime(region));
    }
    match terms.to_term(id)? {
        Term::Ty(ty) => Ok(GenericArg::Ty(ty)),
        Term::Const(value) => Ok(GenericArg::Const(value)),
    }
}

/// The arguments of some numbers, lifetimes included. Want of memory is the only refusal.
pub fn rebuilt_args(terms: &TermTable, ids: &[TermId]) -> Result<Vec<GenericArg>, OutOfMemory>
    requires { AreIn terms.now ids.now }
    ensures exact { IfOk result (λ args. trees_of args.items ≡ map (tree_at terms.now) ids.now) }
    ensures trees { IfOk result (λ args. given args ≡ erased_all terms.now ids.now) }
{
    let mut args = Vec::with_capacity(terms.allocator(), ids.len())?;
    for id in ids {
        let arg = rebuilt_arg(terms, *id)?;
        args.push(arg)?;
    }
    Ok(args)
}

/// The type or the constant of a number. Want of memory is the only refusal.
fn rebuilt_term(terms: &TermTable, id: TermId) -> Result<Term, OutOfMemory>
    requires within { IsIn terms.now id }
    requires sort { IsTerm (erased_at terms.now id) }
    ensures { IfOk result (λ term. erased (tree_of_term term) ≡ erased_at terms.now id) }
{
    terms.to_term(id)
}

/// The alias of a number. Want of memory is the only refusal.
fn rebuilt_alias(terms: &TermTable, id: TermId) -> Result<AliasTerm, OutOfMemory>
    requires within { IsIn terms.now id }
    requires alias { IsAlias (erased_at terms.now id) }
    ensures { IfOk result (λ alias. erased (tree_of_alias alias) ≡ erased_at terms.now id) }
{
    let Node::Alias(kind) = terms.node(id) else {
        unreachable!();
    };
    let args = rebuilt_args(terms, terms.parts(id))?;
    Ok(AliasTerm { kind, args })
}

/// The trait of numbers. Want of memory is the only refusal.
fn rebuilt_trait(terms: &TermTable, of: &InternedTrait) -> Result<TraitRef, OutOfMemory>
    requires { TraitIn terms.now of.now }
    ensures { IfOk result (λ r. asked_trait r ≡ trait_at terms.now of.now) }
{
    let args = rebuilt_args(terms, &of.args)?;
    Ok(TraitRef {
        def_id: of.def_id,
        args,
    })
}

/// The clause that says what a predicate does. Want of memory is the only refusal.
fn rebuilt_predicate(
    terms: &TermTable,
    predicate: &InternedPredicate,
) -> Result<ClauseKind, OutOfMemory>
    requires within { PredicateIn terms.now predicate.now }
    requires sorted { IsSortedPredicate (predicate_at terms.now predicate.now) }
    ensures { IfOk result (λ k. erased_predicate (tree_of_kind k) ≡ predicate_at terms.now predicate.now) }
{
    match predicate {
        InternedPredicate::Trait(of) => {
            let trait_ref = rebuilt_trait(terms, of)?;
            Ok(ClauseKind::Trait(TraitPredicate { trait_ref }))
        }
        InternedPredicate::Projection(alias, term) => {
            let projection_term = rebuilt_alias(terms, *alias)?;
            let term = rebuilt_term(terms, *term)?;
            Ok(ClauseKind::Projection(ProjectionPredicate {
                projection_term,
                term,
            }))
        }
        InternedPredicate::HostEffect(constness, of) => {
            let trait_ref = rebuilt_trait(terms, of)?;
            Ok(ClauseKind::HostEffect(HostEffectPredicate {
                trait_ref,
                constness: *constness,
            }))
        }
    }
}

/// Arguments that later entries take. Want of memory or of numbers is the only refusal.
fn rebuilt_arguments(
    terms: &TermTable,
    arguments: &InternedArguments<'_>,
) -> Result<RuleArguments, OutOfMemory>
    requires { ArgumentsIn terms.now arguments.now }
    ensures { (t : Tables) → ArgumentsNameRows t arguments.now → IfOk result (λ a. arguments_of t a ≡ Some (arguments_at terms.now arguments.now)) }
{
    match arguments {
        InternedArguments::Given(ids) => {
            let args = rebuilt_args(terms, ids)?;
            Ok(RuleArguments::Given(args))
        }
        InternedArguments::OfHeader(row, _, ids) => {
            let args = rebuilt_args(terms, ids)?;
            Ok(RuleArguments::Header(*row, args))
        }
        InternedArguments::OfOtherHeader(other, row, _, _, number) => {
            let number = numbered(*number)?;
            Ok(RuleArguments::OtherImpl(*other, *row, number))
        }
        InternedArguments::FollowedBy(number, ids) => {
            let number = numbered(*number)?;
            let own = rebuilt_args(terms, ids)?;
            Ok(RuleArguments::Followed(number, own))
        }
    }
}

/// The entry by which a goal's expected variable stands for a term. Want of memory or of numbers is the only refusal.
fn rebuilt_expected(
    terms: &TermTable,
    variable: &Term,
    asked: &InternedTerm<'_>,
) -> Result<RuleEntry, OutOfMemory>
    requires within { TermIn terms.now asked.now }
    requires sorted { IsSortedTerm (term_at terms.now asked.now) }
    ensures entry { (t : Tables) → TermNamesRow t asked.now → IfOk result (λ e. entry_of t e ≡ Some (expected (term_at terms.now asked.now))) }
    ensures variable { IfOk result (TermIsFor (λ t. t ≡ tree_of_term variable.now)) }
    ensures key { IfOk result (KeepsKeyOf terms.now asked.now) }
{
    let variable = copied_term(variable)?;
    match asked {
        InternedTerm::AsItStands(id) => {
            let term = rebuilt_term(terms, *id)?;
            Ok(RuleEntry::Term(variable, RuleTerm::AsItStands(term)))
        }
        InternedTerm::HeadFormOf(id) => {
            let term = rebuilt_term(terms, *id)?;
            Ok(RuleEntry::Term(variable, RuleTerm::Normalized(term)))
        }
        InternedTerm::ValueUnder(row, _, number) => {
            let number = numbered(*number)?;
            Ok(RuleEntry::Term(variable, RuleTerm::Value(*row, number)))
        }
        InternedTerm::ChosenBy(predicate, first, second) => {
            let clause = rebuilt_predicate(terms, predicate)?;
            let first = rebuilt_term(terms, *first)?;
            let second = rebuilt_term(terms, *second)?;
            let chosen = RuleTerm::ChosenBy(clause, first, second);
            Ok(RuleEntry::Term(variable, chosen))
        }
        InternedTerm::HiddenType(def_id, ids, first, _) => {
            let args = rebuilt_args(terms, ids)?;
            let key = OpaqueTypeKey {
                def_id: *def_id,
                args,
            };
            Ok(RuleEntry::HiddenType(variable, key, *first))
        }
    }
}

/// An entry. A goal that asks for no term expects none. Want of memory or of numbers is the only refusal.
fn rebuilt_entry(
    terms: &TermTable,
    expected: Option<&Term>,
    entry: &InternedEntry<'_>,
) -> Result<RuleEntry, OutOfMemory>
    requires within { EntryIn terms.now entry.now }
    requires sorted { IsSorted (entry_at terms.now entry.now) }
    requires asked { expected ≡ None → ExpectsNone (entry_at terms.now entry.now) }
    ensures entry { (t : Tables) → NamesItsRows t entry.now → IfOk result (λ e. entry_of t e ≡ Some (entry_at terms.now entry.now)) }
    ensures expected { IfOk result (TermIsFor (IsExpected (option_copied expected.entry))) }
    ensures key { IfOk result (KeepsKey terms.now entry.now) }
{
    match entry {
        InternedEntry::Arguments(arguments) => {
            let arguments = rebuilt_arguments(terms, arguments)?;
            Ok(RuleEntry::Arguments(arguments))
        }
        InternedEntry::EqualTerms(left, right) => {
            let left = rebuilt_args(terms, left)?;
            let right = rebuilt_args(terms, right)?;
            Ok(RuleEntry::Equation(left, right))
        }
        InternedEntry::Clause(source, predicate) => {
            let clause = rebuilt_predicate(terms, predicate)?;
            Ok(RuleEntry::Clause(*source, clause))
        }
        InternedEntry::RowClauses(row, _, number) => {
            let number = numbered(*number)?;
            Ok(RuleEntry::RowClauses(*row, number))
        }
        InternedEntry::RowConditions(constness, row, _, number) => {
            let number = numbered(*number)?;
            Ok(RuleEntry::RowConditions(*constness, *row, number))
        }
        InternedEntry::Expected(term) => {
            let Some(variable) = expected else {
                unreachable!();
            };
            rebuilt_expected(terms, variable, term)
        }
        InternedEntry::Access(access) => Ok(RuleEntry::Access(*access)),
        InternedEntry::DelayedFault(fault) => Ok(RuleEntry::DelayedFault(*fault)),
        InternedEntry::Evaluation => Ok(RuleEntry::Evaluation),
        InternedEntry::Ambiguous => Ok(RuleEntry::Ambiguous),
        InternedEntry::Undecided => Ok(RuleEntry::Undecided),
        InternedEntry::Refused => Ok(RuleEntry::Refused),
    }
}

/// The entries of a list, in order. Want of memory or of numbers is the only refusal.
pub(crate) fn rebuilt_entries(
    terms: &TermTable,
    expected: Option<&Term>,
    entries: &[InternedEntry<'_>],
) -> Result<Vec<RuleEntry>, OutOfMemory>
    requires within { EntriesIn terms.now entries.now }
    requires sorted { Each IsSorted (entries_at terms.now entries.now) }
    requires asked { expected ≡ None → AsksNoTerm (entries_at terms.now entries.now) }
    ensures entries { (t : Tables) → All (NamesItsRows t) entries.now → IfOk result (λ es. map (entry_of t) es.items ≡ map Some (entries_at terms.now entries.now)) }
    ensures expected { IfOk result (λ es. TermsAreFor (IsExpected (option_copied expected.entry)) es.items) }
    ensures keys { IfOk result (λ es. AllZip (KeepsKey terms.now) entries.now es.items) }
{
    let mut made = Vec::with_capacity(terms.allocator(), entries.len())?;
    for i in 0..entries.len() {
        let entry = rebuilt_entry(terms, expected, &entries[i])?;
        made.push(entry)?;
    }
    Ok(made)
}

/// The rule of a list, with nothing decided behind it where the certainty is `Maybe`. A list that is
/// refused is the refusal `NoSolution`; want of memory or of numbers is the only other one.
pub(crate) fn rule_of_list(
    terms: &TermTable,
    source: CandidateSource,
    expected: Option<&Term>,
    list: &Option<Vec<InternedEntry<'_>>>,
    then: Certainty,
) -> Result<Rule, Fault>
    requires within { ListIn terms.now list.now }
    requires sorted { ListIsSorted (list_at terms.now list.now) }
    requires asked { expected ≡ None → ListAsksNoTerm (list_at terms.now list.now) }
    ensures source { IfOk result (λ r. r.source ≡ source) }
    ensures listed { (t : Tables) → ListNamesItsRows t list.now → IfOk result (λ r. IsListed t r (list_then then (list_at terms.now list.now))) }
    ensures refused { IfErr result (IsRefusal (list_at terms.now list.now ≡ None)) }
    ensures expected { IfOk result (λ r. TermsAreFor (IsExpected (option_copied expected.entry)) r.entries.items) }
    ensures keys { IfOk result (λ r. KeepsKeys terms.now then list.now r.entries.items) }
{
    let Some(entries) = list else {
        return Err(Fault::NoSolution);
    };
    let made = rebuilt_entries(terms, expected, entries)?;
    let entries = with_certainty(made, then)?;
    Ok(Rule { source, entries })
}
