//! The lists of the candidates for trait goals, over numbers of a term table.
ghost use Rattle.std.specs.Prelude.{◌≡◌, List, Some, IfOk};
ghost use Rattle.goal_interner.specs.TableMeaning.{Keeps};
ghost use Rattle.goal_terms.specs.Tree.{Tree};
ghost use Rattle.goal_tables.specs.Rows.{impl_of, trait_of};
ghost use Rattle.goal_tables.specs.declared.rows.Tables.{Tables};
ghost use Rattle.goal_lists.specs.Interned.{AreIn, PredicateIn, CandidateIn, erased_all, predicate_at, candidate_at};
ghost use Rattle.goal_lists.specs.InternedEntries.{ListIn, list_at};
ghost use Rattle.goal_lists.specs.ListWords.{GivesList};
ghost use Rattle.goal_lists.specs.NamedRows.{CandidateIsOf, ListNamesItsRows};
ghost use Rattle.goal_lists.specs.TraitLists.{trait_assumption_list, trait_impl_list, source_of_rule, trait_rule_list, trait_list};

use crate::builtin::traits::trait_rule;
use crate::candidates::interned::{InternedCandidate, InternedPredicate};
use crate::lists::parts::{equal_terms, error_list, impl_match, list_by_polarity, premise_entries};
use crate::lists::{InternedEntry, ListSetting};
use goal_interner::term_nodes::{OutOfMemory, TermId};
use goal_interner::term_table::TermTable;
use goal_tables::lookup::IndexedTables;
use goal_tables::rows::ImplRow;
use goal_terms::answers::GoalSource;
use goal_terms::ids::TraitId;
use goal_terms::modes::TypingMode;
use std::alloc::Global;

/// The list of a clause: one of the trait asks that its arguments are the goal's. Want of memory is the
/// only fault.
#[tactic(auto, unfolding(crate::specs::TraitLists::trait_assumption_list))]
fn assumption_list<'t>(
    alloc: Global,
    trait_id: TraitId,
    args: &[TermId],
    clause: &InternedPredicate,
) -> Result<Option<Vec<InternedEntry<'t>>>, OutOfMemory>
    ensures within { (T : List Tree) → AreIn T args.now → PredicateIn T clause.now → IfOk result (ListIn T) }
    ensures list { (T : List Tree) → IfOk result (λ o. list_at T o ≡ trait_assumption_list trait_id (erased_all T args.now) (predicate_at T clause.now)) }
    ensures named { (t : Tables) → IfOk result (ListNamesItsRows t) }
{
    match clause {
        InternedPredicate::Trait(said) => {
            if said.def_id.0 != trait_id.0 {
                return Ok(None);
            }
            let equal = equal_terms(alloc, said.args.as_slice(), args)?;
            Ok(Some(vec![in alloc; equal]?))
        }
        InternedPredicate::Projection(_, _) => Ok(None),
        InternedPredicate::HostEffect(_, _) => Ok(None),
    }
}

/// The list of an impl: its header is matched with the goal's arguments, and its where clauses are asked
/// for. Want of memory is the only fault.
fn impl_list<'t>(
    alloc: Global,
    mode: &TypingMode,
    args: &[TermId],
    row: &'t ImplRow,
) -> Result<Option<Vec<InternedEntry<'t>>>, OutOfMemory>
    ensures within { (T : List Tree) → AreIn T args.now → IfOk result (ListIn T) }
    ensures list { (T : List Tree) → IfOk result (λ o. list_at T o ≡ trait_impl_list mode.now (erased_all T args.now) row.now) }
    ensures named { (t : Tables) → impl_of t row.now.id ≡ Some row.now → IfOk result (ListNamesItsRows t) }
{
    let entries = impl_match(alloc, row, args)?;
    list_by_polarity(alloc, mode, row.polarity, entries)
}

/// As what the premises of a trait's rule are asked for.
fn source_of_rule(rows: &IndexedTables, trait_id: TraitId) -> GoalSource
    ensures { result ≡ source_of_rule (trait_of rows.now trait_id) }
{
    match rows.trait_row(trait_id) {
        None => GoalSource::ImplWhereBound,
        Some(row) => {
            if row.is_alias {
                GoalSource::Misc
            } else {
                GoalSource::ImplWhereBound
            }
        }
    }
}

/// The list of a trait alias, or of a built-in rule: its premises. Want of memory or of numbers is the
/// only fault.
fn rule_list<'t>(
    rows: &IndexedTables,
    terms: &mut TermTable,
    trait_id: TraitId,
    args: &[TermId],
) -> Result<Option<Vec<InternedEntry<'t>>>, OutOfMemory>
    requires { AreIn terms.old args.now }
    ensures kept { Keeps terms.old terms.new }
    ensures within { IfOk result (ListIn terms.new) }
    ensures list { IfOk result (λ o. list_at terms.new o ≡ trait_rule_list rows.now trait_id (erased_all terms.old args.now)) }
    ensures named { (t : Tables) → IfOk result (ListNamesItsRows t) }
{
    let rule = trait_rule(rows, terms, trait_id, args)?;
    let Some(premises) = rule else {
        return Ok(None);
    };
    let source = source_of_rule(rows, trait_id);
    let entries = premise_entries(terms.allocator(), source, premises)?;
    Ok(Some(entries))
}

/// The list of a candidate for a trait goal, or none where its rule is refused. The table gets the terms.
/// Want of memory or of numbers is the only fault.
#[tactic(auto, unfolding(crate::specs::TraitLists::trait_list))]
pub fn trait_list<'t>(
    setting: ListSetting<'t, '_>,
    terms: &mut TermTable,
    trait_id: TraitId,
    args: &[TermId],
    candidate: &InternedCandidate<'t>,
) -> Result<Option<Vec<InternedEntry<'t>>>, OutOfMemory>
    requires args { AreIn terms.old args.now }
    requires candidate { CandidateIn terms.old candidate.now }
    ensures kept { Keeps terms.old terms.new }
    ensures within { IfOk result (ListIn terms.new) }
    ensures list { GivesList terms.new setting.entry result (λ S. trait_list S trait_id (erased_all terms.old args.now) (candidate_at terms.old candidate.now)) }
    ensures named { (t : Tables) → CandidateIsOf t candidate.now → IfOk result (ListNamesItsRows t) }
{
    let alloc = terms.allocator();
    match candidate {
        InternedCandidate::Assumption(clause) => assumption_list(alloc, trait_id, args, clause),
        InternedCandidate::ImpliedBound(_, _) => Ok(None),
        InternedCandidate::Impl(row) => impl_list(alloc, setting.mode, args, *row),
        InternedCandidate::BuiltIn => rule_list(setting.rows, terms, trait_id, args),
        InternedCandidate::Error => Ok(error_list(terms, args)),
    }
}
