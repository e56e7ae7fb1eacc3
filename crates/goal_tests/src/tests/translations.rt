//! The arguments that a definition takes, by where it stands, as constant data.
use crate::tests::sketches::{ASSOC, TypeSketch, U32, U64, V0, alias_goal_of, args_of, ref_of};
use goal_program::names::TRAIT;
use goal_solver::context::EvalCtxt;
use goal_solver::faults::Fault;
use goal_tables::rows::Container;
use goal_terms::answers::Certainty;
use goal_terms::ids::ImplId;
use goal_terms::predicates::{Goal, NormalizesTo, TraitRef};
use goal_terms::terms::GenericArg;
use std::alloc::{AllocError, Global};
use std::process::Abort;
use std::test::Fail;

/// The impl that is used for `<SELF as Trait<OTHER>>::Assoc<u64>`, where the definition stands, and what is answered.
pub struct Translation {
    pub impl_id: ImplId,
    pub container: Container,
    pub self_type: TypeSketch,
    pub other: TypeSketch,
    pub answer: Translated,
}

/// Some arguments and how certain they are, or a fault.
pub type Translated = Result<(&'static [TypeSketch], Certainty), Fault>;

/// What is expected, as it is answered.
fn answer_of(
    alloc: Global,
    expected: &Translated,
) -> Result<Result<(Vec<GenericArg>, Certainty), Fault>, AllocError> {
    match expected {
        Ok((parts, certainty)) => Ok(Ok((args_of(alloc, parts)?, *certainty))),
        Err(fault) => Ok(Err(*fault)),
    }
}

/// What a context answers. The impl's own arguments are `u32` alone.
fn translate(
    alloc: Global,
    context: &mut EvalCtxt<'_>,
    asked: &Translation,
    goal: &Goal<NormalizesTo>,
    trait_ref: &TraitRef,
) -> Result<Result<(Vec<GenericArg>, Certainty), Fault>, AllocError> {
    let impl_args = args_of(alloc, &[U32])?;
    Ok(context.translate_args(goal, asked.impl_id, &impl_args, trait_ref, asked.container))
}

/// Asserts what a context answers.
pub fn assert_translated(
    rt: &impl Abort,
    alloc: Global,
    context: &mut EvalCtxt<'_>,
    asked: &Translation,
) -> Result<(), Fail> {
    let goal = alias_goal_of(alloc, ASSOC, &[asked.self_type, asked.other, U64], &V0)?;
    let trait_ref = ref_of(alloc, TRAIT, &[asked.self_type, asked.other])?;
    let found = translate(alloc, context, asked, &goal, &trait_ref)?;
    assert!(rt; found == answer_of(alloc, &asked.answer)?);
    Ok(())
}
