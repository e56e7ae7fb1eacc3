//! The clauses of an environment, as candidates.
ghost use Rattle.std.specs.Prelude.{◌≡◌, ◌∷◌, [], map, IfOk};
ghost use Rattle.std.specs.List.{All};
ghost use Rattle.goal_terms.specs.Erased.{erased};
ghost use Rattle.goal_terms.specs.PredicateTrees.{tree_of_kind};
ghost use Rattle.goal_interner.specs.TableMeaning.{Keeps};
ghost use Rattle.goal_terms.specs.TreeOf.{trees_of};
ghost use Rattle.goal_lists.specs.Answers.{erased_predicate};
ghost use Rattle.goal_lists.specs.CandidateWords.{AddsCandidates, near_for, environment_near};
ghost use Rattle.goal_lists.specs.Candidates.{assumption};
ghost use Rattle.goal_lists.specs.Interned.{AreIn, PredicateIn, CandidateIn, erased_all, predicate_at};

use crate::candidates::fitting::clause_may_fit;
use crate::candidates::interned::{InternedCandidate, InternedPredicate, InternedTrait};
use crate::candidates::lists::Sought;
use goal_interner::term_nodes::{OutOfMemory, TermId};
use goal_interner::term_table::TermTable;
use goal_terms::predicates::{Clause, ClauseKind};
use goal_terms::terms::GenericArg;
use goal_terms::view::TermRef;

/// Arguments as they stand. The table gets them. Want of memory or of numbers is the only refusal.
pub fn args_given(terms: &mut TermTable, given: &[GenericArg]) -> Result<Vec<TermId>, OutOfMemory>
    ensures kept { Keeps terms.old terms.new }
    ensures within { IfOk result (λ ids. AreIn terms.new ids.items) }
    ensures trees { IfOk result (λ ids. erased_all terms.new ids.items ≡ map erased (trees_of given.now)) }
{
    let mut ids = Vec::with_capacity(terms.allocator(), given.len())?;
    for i in 0..given.len() {
        let id = terms.intern_part(given[i].view())?;
        ids.push(id)?;
    }
    Ok(ids)
}

/// What a clause says, as it stands. The table gets its terms. Want of memory or of numbers is the only
/// refusal.
pub fn predicate_given(
    terms: &mut TermTable,
    given: &ClauseKind,
) -> Result<InternedPredicate, OutOfMemory>
    ensures kept { Keeps terms.old terms.new }
    ensures within { IfOk result (PredicateIn terms.new) }
    ensures tree { IfOk result (λ p. predicate_at terms.new p ≡ erased_predicate (tree_of_kind given.now)) }
{
    match given {
        ClauseKind::Trait(clause) => {
            let def_id = clause.trait_ref.def_id;
            let args = args_given(terms, clause.trait_ref.args.as_slice())?;
            Ok(InternedPredicate::Trait(InternedTrait { def_id, args }))
        }
        ClauseKind::Projection(clause) => {
            let alias = terms.intern_part(TermRef::Alias(&clause.projection_term))?;
            let term = terms.intern_part(clause.term.view())?;
            Ok(InternedPredicate::Projection(alias, term))
        }
        ClauseKind::HostEffect(clause) => {
            let def_id = clause.trait_ref.def_id;
            let args = args_given(terms, clause.trait_ref.args.as_slice())?;
            let of = InternedTrait { def_id, args };
            Ok(InternedPredicate::HostEffect(clause.constness, of))
        }
    }
}

/// Adds a clause of an environment, if it may be about what is sought. The table then gets its terms. Want of memory
/// or of numbers is the only refusal.
fn push_clause<'t>(
    terms: &mut TermTable,
    found: &mut Vec<InternedCandidate<'t>>,
    clause: &ClauseKind,
    sought: &Sought<'_>,
) -> Result<(), OutOfMemory>
    requires args { AreIn terms.old sought.now.args.now }
    requires within { All (CandidateIn terms.old) found.old.items }
    ensures kept { Keeps terms.old terms.new }
    ensures within { IfOk result (λ _. All (CandidateIn terms.new) found.new.items) }
    ensures pushed { IfOk result (λ _. AddsCandidates terms.old terms.new found.old found.new (near_for terms.old sought.now (assumption (erased_predicate (tree_of_kind clause.now)) ∷ []))) }
{
    if clause_may_fit(terms, sought, clause) {
        let predicate = predicate_given(terms, clause)?;
        found.push(InternedCandidate::Assumption(predicate))?;
    }
    Ok(())
}

/// Adds the clauses of an environment that may be about what is sought. The table gets their terms. Want of memory or
/// of numbers is the only refusal.
pub fn push_environment<'t>(
    terms: &mut TermTable,
    found: &mut Vec<InternedCandidate<'t>>,
    environment: &[Clause],
    sought: &Sought<'_>,
) -> Result<(), OutOfMemory>
    requires args { AreIn terms.old sought.now.args.now }
    requires within { All (CandidateIn terms.old) found.old.items }
    ensures kept { Keeps terms.old terms.new }
    ensures within { IfOk result (λ _. All (CandidateIn terms.new) found.new.items) }
    ensures pushed { IfOk result (λ _. AddsCandidates terms.old terms.new found.old found.new (environment_near terms.old sought.now environment.now)) }
{
    for i in 0..environment.len() {
        push_clause(terms, found, &environment[i].kind, sought)?;
    }
    Ok(())
}
