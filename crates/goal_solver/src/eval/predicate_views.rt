//! Predicates that hold or not, as they stand in goals.
ghost use Rattle.std.specs.Prelude.{◌≡◌, IfOk};
ghost use Rattle.goal_interner.specs.TableMeaning.{Keeps};
ghost use Rattle.goal_lists.specs.Interned.{PredicateIn, TraitIn, erased_all, predicate_at};
ghost use Rattle.goal_eval.specs.ErasedArgs.{erased_args};
ghost use Rattle.goal_solver.specs.Evaluations.{predicate_seen};

use goal_eval::eval::interning::{intern_args, intern_equation};
use goal_interner::term_nodes::OutOfMemory;
use goal_interner::term_table::TermTable;
use goal_lists::candidates::interned::{InternedPredicate, InternedTrait};
use goal_terms::predicates::{HostEffectPredicate, ProjectionPredicate, TraitPredicate, TraitRef};
use std::alloc::Global;

/// A predicate that holds or not, as it stands in a goal.
#[derive(Clone, Copy)]
pub enum PredicateView<'a> {
    Trait(&'a TraitPredicate),
    HostEffect(&'a HostEffectPredicate),
    Projection(&'a ProjectionPredicate),
}

/// The numbers of a predicate's terms, which the table gets. Want of memory or of numbers is the only refusal.
pub(crate) fn intern_predicate(
    alloc: Global,
    terms: &mut TermTable,
    asked: PredicateView<'_>,
) -> Result<InternedPredicate, OutOfMemory>
    ensures kept { Keeps terms.old terms.new }
    ensures within { IfOk result (PredicateIn terms.new) }
    ensures trees { IfOk result (λ p. predicate_at terms.new p ≡ predicate_seen asked.entry) }
{
    match asked {
        PredicateView::Trait(predicate) => {
            let held = intern_trait(alloc, terms, &predicate.trait_ref)?;
            Ok(InternedPredicate::Trait(held))
        }
        PredicateView::HostEffect(predicate) => {
            let held = intern_trait(alloc, terms, &predicate.trait_ref)?;
            Ok(InternedPredicate::HostEffect(predicate.constness, held))
        }
        PredicateView::Projection(predicate) => {
            let (alias, term) = intern_equation(
                terms,
                &predicate.projection_term,
                &predicate.term,
            )?;
            Ok(InternedPredicate::Projection(alias, term))
        }
    }
}

/// The numbers of a trait's arguments, which the table gets. Want of memory or of numbers is the only refusal.
fn intern_trait(
    alloc: Global,
    terms: &mut TermTable,
    trait_ref: &TraitRef,
) -> Result<InternedTrait, OutOfMemory>
    ensures kept { Keeps terms.old terms.new }
    ensures within { IfOk result (TraitIn terms.new) }
    ensures named { IfOk result (λ q. q.def_id ≡ trait_ref.now.def_id) }
    ensures args { IfOk result (λ q. erased_all terms.new q.args.items ≡ erased_args trait_ref.now.args.items) }
{
    let args = intern_args(alloc, terms, &trait_ref.args)?;
    Ok(InternedTrait {
        def_id: trait_ref.def_id,
        args,
    })
}
