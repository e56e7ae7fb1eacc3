//! What a context is given: fresh variables and hidden types.
use crate::tests::scenes::fresh;
use crate::tests::sketches::{TypeSketch, ty_of};
use goal_solver::context::EvalCtxt;
use goal_terms::answers::{OpaqueTypeKey, ParamKind, VarKind};
use goal_terms::ids::OpaqueId;
use goal_terms::terms::{Const, GenericArg, InferTy, Region, Ty};
use std::alloc::{AllocError, Global};
use std::process::Abort;
use std::test::Fail;

/// What a context is given.
pub enum Given {
    /// A fresh variable, which has a number.
    Fresh(VarKind, u32),
    /// Fresh arguments for parameters, which are variables with numbers.
    FreshArguments(&'static [ParamKind], &'static [(VarKind, u32)]),
    /// A hidden type, in the place of another.
    Hidden(OpaqueId, TypeSketch, Option<TypeSketch>),
}

/// Asserts what a context answers to what it is given.
pub fn assert_given(
    rt: &impl Abort,
    alloc: Global,
    context: &mut EvalCtxt<'_>,
    given: &Given,
) -> Result<(), Fail> {
    match given {
        Given::Fresh(kind, number) => assert_fresh(rt, context, *kind, *number),
        Given::FreshArguments(params, made) => {
            assert_fresh_arguments(rt, alloc, context, params, made)
        }
        Given::Hidden(id, ty, old) => assert_hidden(rt, alloc, context, *id, (ty, old)),
    }
}

/// The variable of a kind and a number.
fn variable_of(kind: VarKind, number: u32) -> GenericArg {
    match kind {
        VarKind::Ty => GenericArg::Ty(Ty::Infer(InferTy::TyVar(number))),
        VarKind::Int => GenericArg::Ty(Ty::Infer(InferTy::IntVar(number))),
        VarKind::Float => GenericArg::Ty(Ty::Infer(InferTy::FloatVar(number))),
        VarKind::Const => GenericArg::Const(Const::Infer(number)),
        VarKind::Region => GenericArg::Lifetime(Region::Var(number)),
    }
}

/// The variables of kinds and numbers.
fn variables_of(alloc: Global, made: &[(VarKind, u32)]) -> Result<Vec<GenericArg>, AllocError> {
    let mut variables = Vec::new(alloc);
    for (kind, number) in made {
        variables.push(variable_of(*kind, *number))?;
    }
    Ok(variables)
}

/// Asserts which variable a context makes.
fn assert_fresh(
    rt: &impl Abort,
    context: &mut EvalCtxt<'_>,
    kind: VarKind,
    number: u32,
) -> Result<(), Fail> {
    let made = fresh(context, kind)?;
    assert!(rt; made == variable_of(kind, number));
    Ok(())
}

/// Asserts which variables a context makes for parameters.
fn assert_fresh_arguments(
    rt: &impl Abort,
    alloc: Global,
    context: &mut EvalCtxt<'_>,
    params: &[ParamKind],
    made: &[(VarKind, u32)],
) -> Result<(), Fail> {
    let expected = variables_of(alloc, made)?;
    assert!(rt; context.fresh_args_for_item(params) == Ok(expected));
    Ok(())
}

/// The type of a sketch, if there is one.
fn some_ty_of(alloc: Global, sketch: &Option<TypeSketch>) -> Result<Option<Ty>, AllocError> {
    match sketch {
        Some(ty) => Ok(Some(ty_of(alloc, ty)?)),
        None => Ok(None),
    }
}

/// Asserts in which type's place a hidden type is entered.
fn assert_hidden(
    rt: &impl Abort,
    alloc: Global,
    context: &mut EvalCtxt<'_>,
    def_id: OpaqueId,
    types: (&TypeSketch, &Option<TypeSketch>),
) -> Result<(), Fail> {
    let ty = ty_of(alloc, types.0)?;
    let args = Vec::new(alloc);
    let old = context.register_hidden_type_in_storage(OpaqueTypeKey { def_id, args }, ty)?;
    assert!(rt; old == some_ty_of(alloc, types.1)?);
    Ok(())
}
