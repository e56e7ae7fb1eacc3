//! Variables that an accepted goal expects its term for, and that are given an alias or a term.
ghost use Rattle.std.specs.Prelude.{◌≡◌, ◌&&◌, true};
ghost use Rattle.goal_terms.specs.Closed.{is_closed};
ghost use Rattle.goal_terms.specs.View.{tree_of_ref};
ghost use Rattle.goal_infer.specs.Replacement.{is_type};
ghost use Rattle.goal_solver.specs.Binding.{IsFreeFor, OfVariable};

use crate::tests::sketches::{TypeSketch, V0, alias_goal_of, ty_of};
use goal_checks::checked::CheckedTables;
use goal_solver::context::EvalCtxt;
use goal_solver::eval::goals::check_goal;
use goal_solver::faults::Fault;
use goal_terms::predicates::{Goal, NormalizesTo};
use goal_terms::sorts::Sort;
use goal_terms::terms::{AliasTermKind, Term};
use goal_terms::view::TermRef;
use std::alloc::{AllocError, Global};
use std::process::Abort;
use std::test::Fail;

/// What the variable 0 is given, which a goal of an alias expects its term for.
pub enum Binding {
    /// The alias, as two terms are related.
    Related(AliasTermKind, &'static [TypeSketch]),
    /// The alias, as a goal's expected term is instantiated by its structure.
    Structural(AliasTermKind, &'static [TypeSketch]),
    /// A type, as a goal's expected term is instantiated.
    Instantiated(AliasTermKind, &'static [TypeSketch], TypeSketch),
}

/// Whether a term is a type.
fn is_type(part: TermRef<'_>) -> bool
    ensures { result ≡ is_type (tree_of_ref part.entry) }
{
    match part.node().sort() {
        Sort::Ty => true,
        Sort::Const | Sort::Lifetime | Sort::Clause => false,
    }
}

/// Whether the expected variable of a goal may be given a term: the check accepts the goal, and the term is a type
/// without inference variables.
fn may_take(
    tables: &CheckedTables,
    context: &EvalCtxt<'_>,
    goal: &Goal<NormalizesTo>,
    part: TermRef<'_>,
) -> bool
    ensures { result ≡ true → OfVariable goal.now.predicate.term (IsFreeFor context.now (tree_of_ref part.entry)) }
{
    match check_goal(tables, context, goal) {
        Err(_) => false,
        Ok(()) => fits_type(goal.predicate.term.view(), part),
    }
}

/// Whether two terms are types, and the second has no inference variables.
fn fits_type(expected: TermRef<'_>, part: TermRef<'_>) -> bool
    ensures { result ≡ (is_type (tree_of_ref expected.entry) && is_type (tree_of_ref part.entry) && is_closed (tree_of_ref part.entry)) }
{
    is_type(expected) && is_type(part) && part.is_closed()
}

/// Gives the expected variable of a goal the goal's alias, by one of two calls.
fn give_alias(
    tables: &CheckedTables,
    context: &mut EvalCtxt<'_>,
    goal: &Goal<NormalizesTo>,
    is_structural: bool,
) -> Result<(), Fault> {
    let alias = &goal.predicate.alias;
    if !may_take(tables, context, goal, TermRef::Alias(alias)) {
        return Err(Fault::NotForThisKind);
    }
    if is_structural {
        context.structurally_instantiate_normalizes_to_term(goal, alias)
    } else {
        context.relate_rigid_alias_non_alias(&goal.param_env, alias, &goal.predicate.term)
    }
}

/// Gives the expected variable of a goal a term.
fn give_term(
    tables: &CheckedTables,
    context: &mut EvalCtxt<'_>,
    goal: &Goal<NormalizesTo>,
    term: Term,
) -> Result<(), Fault> {
    if !may_take(tables, context, goal, term.view()) {
        return Err(Fault::NotForThisKind);
    }
    context.instantiate_normalizes_to_term(goal, term)
}

/// What giving the expected variable of a goal a type comes to.
fn instantiated(
    alloc: Global,
    tables: &CheckedTables,
    context: &mut EvalCtxt<'_>,
    goal: &Goal<NormalizesTo>,
    sketch: &TypeSketch,
) -> Result<Result<(), Fault>, AllocError> {
    let term = Term::Ty(ty_of(alloc, sketch)?);
    Ok(give_term(tables, context, goal, term))
}

/// What giving the variable 0 an alias or a type comes to.
fn given(
    alloc: Global,
    tables: &CheckedTables,
    context: &mut EvalCtxt<'_>,
    binding: &Binding,
) -> Result<Result<(), Fault>, AllocError> {
    match binding {
        Binding::Related(kind, parts) => {
            let goal = alias_goal_of(alloc, *kind, parts, &V0)?;
            Ok(give_alias(tables, context, &goal, false))
        }
        Binding::Structural(kind, parts) => {
            let goal = alias_goal_of(alloc, *kind, parts, &V0)?;
            Ok(give_alias(tables, context, &goal, true))
        }
        Binding::Instantiated(kind, parts, sketch) => {
            let goal = alias_goal_of(alloc, *kind, parts, &V0)?;
            instantiated(alloc, tables, context, &goal, sketch)
        }
    }
}

/// Asserts that the variable 0 can be given an alias or a type.
pub fn assert_bound(
    rt: &impl Abort,
    alloc: Global,
    tables: &CheckedTables,
    context: &mut EvalCtxt<'_>,
    binding: &Binding,
) -> Result<(), Fail> {
    let answer = given(alloc, tables, context, binding)?;
    assert_eq!(rt; answer, Ok(()));
    Ok(())
}
