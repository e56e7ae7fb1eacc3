//! What rows ask for, under arguments.
ghost use Rattle.std.specs.Prelude.{◌≡◌, map, IfOk};
ghost use Rattle.std.specs.List.{All};
ghost use Rattle.goal_terms.specs.PredicateTrees.{tree_of_kind};
ghost use Rattle.goal_terms.specs.Sorts.{IsArgument};
ghost use Rattle.goal_interner.specs.TableMeaning.{Keeps};
ghost use Rattle.goal_terms.specs.TreeOf.{trees_of};
ghost use Rattle.goal_terms.specs.View.{tree_of_ref};
ghost use Rattle.goal_lists.specs.Headers.{under};
ghost use Rattle.goal_lists.specs.Interned.{IsIn, AreIn, TraitIn, PredicateIn, PremiseIn, erased_at, erased_all, trait_at, predicate_at, premise_at};
ghost use Rattle.goal_lists.specs.Premises.{predicate_under, clauses_under, trait_under, traits_under};

use crate::candidates::interned::{InternedPredicate, InternedPremise, InternedTrait};
use goal_interner::term_nodes::{OutOfMemory, TermId};
use goal_interner::term_table::TermTable;
use goal_terms::predicates::{Clause, ClauseKind, TraitRef};
use goal_terms::terms::GenericArg;
use goal_terms::view::TermRef;

/// A row's term under arguments. The table gets it. Want of memory or of numbers is the only refusal.
pub fn term_under(
    terms: &mut TermTable,
    term: TermRef<'_>,
    args: &[TermId],
) -> Result<TermId, OutOfMemory>
    requires known { AreIn terms.old args.now }
    requires argument { IsArgument (tree_of_ref term) }
    ensures kept { Keeps terms.old terms.new }
    ensures within { IfOk result (IsIn terms.new) }
    ensures tree { IfOk result (λ id. erased_at terms.new id ≡ under (erased_all terms.old args.now) (tree_of_ref term.entry)) }
{
    terms.intern_under(term, args)
}

/// A row's arguments under arguments. The table gets them. Want of memory or of numbers is the only
/// refusal.
pub fn args_under(
    terms: &mut TermTable,
    given: &[GenericArg],
    args: &[TermId],
) -> Result<Vec<TermId>, OutOfMemory>
    requires { AreIn terms.old args.now }
    ensures kept { Keeps terms.old terms.new }
    ensures within { IfOk result (λ ids. AreIn terms.new ids.items) }
    ensures trees { IfOk result (λ ids. erased_all terms.new ids.items ≡ map (under (erased_all terms.old args.now)) (trees_of given.now)) }
{
    let mut ids = Vec::with_capacity(terms.allocator(), given.len())?;
    for i in 0..given.len() {
        let id = term_under(terms, given[i].view(), args)?;
        ids.push(id)?;
    }
    Ok(ids)
}

/// A row's trait reference under arguments. The table gets its terms. Want of memory or of numbers is
/// the only refusal.
pub fn trait_under(
    terms: &mut TermTable,
    given: &TraitRef,
    args: &[TermId],
) -> Result<InternedTrait, OutOfMemory>
    requires { AreIn terms.old args.now }
    ensures kept { Keeps terms.old terms.new }
    ensures within { IfOk result (TraitIn terms.new) }
    ensures tree { IfOk result (λ r. trait_at terms.new r ≡ trait_under (erased_all terms.old args.now) given.now) }
{
    let ids = args_under(terms, given.args.as_slice(), args)?;
    Ok(InternedTrait {
        def_id: given.def_id,
        args: ids,
    })
}

/// What a row's clause says under arguments. The table gets its terms. Want of memory or of numbers is
/// the only refusal.
pub fn predicate_under(
    terms: &mut TermTable,
    given: &ClauseKind,
    args: &[TermId],
) -> Result<InternedPredicate, OutOfMemory>
    requires { AreIn terms.old args.now }
    ensures kept { Keeps terms.old terms.new }
    ensures within { IfOk result (PredicateIn terms.new) }
    ensures tree { IfOk result (λ p. predicate_at terms.new p ≡ predicate_under (erased_all terms.old args.now) (tree_of_kind given.now)) }
{
    match given {
        ClauseKind::Trait(clause) => {
            let of = trait_under(terms, &clause.trait_ref, args)?;
            Ok(InternedPredicate::Trait(of))
        }
        ClauseKind::Projection(clause) => {
            let alias = term_under(terms, TermRef::Alias(&clause.projection_term), args)?;
            let term = term_under(terms, clause.term.view(), args)?;
            Ok(InternedPredicate::Projection(alias, term))
        }
        ClauseKind::HostEffect(clause) => {
            let of = trait_under(terms, &clause.trait_ref, args)?;
            Ok(InternedPredicate::HostEffect(clause.constness, of))
        }
    }
}

/// A row's where clauses under arguments, as premises. The table gets their terms. Want of memory or of
/// numbers is the only refusal.
pub fn clauses_under(
    terms: &mut TermTable,
    clauses: &[Clause],
    args: &[TermId],
) -> Result<Vec<InternedPremise>, OutOfMemory>
    requires { AreIn terms.old args.now }
    ensures kept { Keeps terms.old terms.new }
    ensures within { IfOk result (λ ps. All (PremiseIn terms.new) ps.items) }
    ensures premises { IfOk result (λ ps. map (premise_at terms.new) ps.items ≡ clauses_under (erased_all terms.old args.now) clauses.now) }
{
    let mut premises = Vec::with_capacity(terms.allocator(), clauses.len())?;
    for i in 0..clauses.len() {
        let predicate = predicate_under(terms, &clauses[i].kind, args)?;
        premises.push(InternedPremise::Predicate(predicate))?;
    }
    Ok(premises)
}

/// A row's trait references under arguments. The table gets their terms. Want of memory or of numbers is
/// the only refusal.
pub fn traits_under(
    terms: &mut TermTable,
    refs: &[TraitRef],
    args: &[TermId],
) -> Result<Vec<InternedTrait>, OutOfMemory>
    requires { AreIn terms.old args.now }
    ensures kept { Keeps terms.old terms.new }
    ensures within { IfOk result (λ rs. All (TraitIn terms.new) rs.items) }
    ensures traits { IfOk result (λ rs. map (trait_at terms.new) rs.items ≡ traits_under (erased_all terms.old args.now) refs.now) }
{
    let mut traits = Vec::with_capacity(terms.allocator(), refs.len())?;
    for i in 0..refs.len() {
        let of = trait_under(terms, &refs[i], args)?;
        traits.push(of)?;
    }
    Ok(traits)
}
