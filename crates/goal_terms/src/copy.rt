//! Clones of terms. A clone has the tree of its source.
ghost use Rattle.std.specs.Prelude.{◌≡◌, map, length, IfOk};
ghost use Rattle.goal_terms.specs.TreeOf.{tree_of_ty, tree_of_const, tree_of_sig, tree_of_arg, tree_of_clause};

use crate::terms::{AliasTerm, Const, DynClause, FnSig, GenericArg, Term, Ty};
use std::alloc::AllocError;

#[tactic(auto, using(crate::proofs::TreeLemmas::tree_equations))]
impl Clone for Ty {
    ghost use Rattle.std.specs.Prelude.{◌≡◌};
    ghost use Rattle.goal_terms.specs.TreeOf.{tree_of_ty};

    ghost is_clone = { λ a b. tree_of_ty b ≡ tree_of_ty a };

    #[cycle(copy)]
    fn clone(&self) -> Result<Ty, AllocError> {
        match self {
            Ty::Bool => Ok(Ty::Bool),
            Ty::Char => Ok(Ty::Char),
            Ty::Int(int) => Ok(Ty::Int(*int)),
            Ty::Uint(int) => Ok(Ty::Uint(*int)),
            Ty::Float(float) => Ok(Ty::Float(*float)),
            Ty::Str => Ok(Ty::Str),
            Ty::Never => Ok(Ty::Never),
            Ty::Adt(id, args) => Ok(Ty::Adt(*id, clone_args(args)?)),
            Ty::Foreign(id) => Ok(Ty::Foreign(*id)),
            Ty::Array(element, length) => Ok(Ty::Array(clone_ty(element)?, clone_const(length)?)),
            Ty::Slice(element) => Ok(Ty::Slice(clone_ty(element)?)),
            Ty::RawPtr(target, mutability) => Ok(Ty::RawPtr(clone_ty(target)?, *mutability)),
            Ty::Ref(region, target, mutability) => {
                Ok(Ty::Ref(*region, clone_ty(target)?, *mutability))
            }
            Ty::FnDef(id, args) => Ok(Ty::FnDef(*id, clone_args(args)?)),
            Ty::FnPtr(sig) => Ok(Ty::FnPtr(clone_sig(sig)?)),
            Ty::Closure(id, args) => Ok(Ty::Closure(*id, clone_args(args)?)),
            Ty::Dynamic(clauses, region) => Ok(Ty::Dynamic(clone_clauses(clauses)?, *region)),
            Ty::Tuple(elements) => Ok(Ty::Tuple(clone_tys(elements)?)),
            Ty::Param(index) => Ok(Ty::Param(*index)),
            Ty::Placeholder(index) => Ok(Ty::Placeholder(*index)),
            Ty::Alias(alias) => Ok(Ty::Alias(alias.clone()?)),
            Ty::Infer(variable) => Ok(Ty::Infer(*variable)),
            Ty::Error(number) => Ok(Ty::Error(*number)),
        }
    }
}

#[tactic(auto, using(crate::proofs::TreeLemmas::tree_equations))]
impl Clone for Const {
    ghost use Rattle.std.specs.Prelude.{◌≡◌};
    ghost use Rattle.goal_terms.specs.TreeOf.{tree_of_const};

    ghost is_clone = { λ a b. tree_of_const b ≡ tree_of_const a };

    #[cycle(copy)]
    fn clone(&self) -> Result<Const, AllocError> {
        match self {
            Const::Value(value) => Ok(Const::Value(*value)),
            Const::Param(index) => Ok(Const::Param(*index)),
            Const::Placeholder(index) => Ok(Const::Placeholder(*index)),
            Const::Infer(index) => Ok(Const::Infer(*index)),
            Const::Alias(alias) => Ok(Const::Alias(alias.clone()?)),
            Const::Error(number) => Ok(Const::Error(*number)),
        }
    }
}

#[tactic(auto, using(crate::proofs::TreeLemmas::tree_equations))]
impl Clone for GenericArg {
    ghost use Rattle.std.specs.Prelude.{◌≡◌};
    ghost use Rattle.goal_terms.specs.TreeOf.{tree_of_arg};

    ghost is_clone = { λ a b. tree_of_arg b ≡ tree_of_arg a };

    #[cycle(copy)]
    fn clone(&self) -> Result<GenericArg, AllocError> {
        match self {
            GenericArg::Ty(ty) => Ok(GenericArg::Ty(ty.clone()?)),
            GenericArg::Const(value) => Ok(GenericArg::Const(value.clone()?)),
            GenericArg::Lifetime(region) => Ok(GenericArg::Lifetime(*region)),
        }
    }
}

#[tactic(auto, using(crate::proofs::TreeLemmas::tree_equations))]
impl Clone for Term {
    ghost use Rattle.std.specs.Prelude.{◌≡◌};
    ghost use Rattle.goal_terms.specs.TreeOf.{tree_of_term};

    ghost is_clone = { λ a b. tree_of_term b ≡ tree_of_term a };

    #[cycle(copy)]
    fn clone(&self) -> Result<Term, AllocError> {
        match self {
            Term::Ty(ty) => Ok(Term::Ty(ty.clone()?)),
            Term::Const(value) => Ok(Term::Const(value.clone()?)),
        }
    }
}

#[tactic(auto, using(crate::proofs::TreeLemmas::tree_equations))]
impl Clone for FnSig {
    ghost use Rattle.std.specs.Prelude.{◌≡◌};
    ghost use Rattle.goal_terms.specs.TreeOf.{tree_of_sig};

    ghost is_clone = { λ a b. tree_of_sig b ≡ tree_of_sig a };

    #[cycle(copy)]
    fn clone(&self) -> Result<FnSig, AllocError> {
        Ok(FnSig {
            bound_regions: self.bound_regions,
            inputs: clone_tys(&self.inputs)?,
            output: self.output.clone()?,
            fn_traits: self.fn_traits,
        })
    }
}

#[tactic(auto, using(crate::proofs::TreeLemmas::tree_equations))]
impl Clone for DynClause {
    ghost use Rattle.std.specs.Prelude.{◌≡◌};
    ghost use Rattle.goal_terms.specs.TreeOf.{tree_of_clause};

    ghost is_clone = { λ a b. tree_of_clause b ≡ tree_of_clause a };

    #[cycle(copy)]
    fn clone(&self) -> Result<DynClause, AllocError> {
        match self {
            DynClause::Trait(id, args) => Ok(DynClause::Trait(*id, clone_args(args)?)),
            DynClause::Projection(id, args, term) => {
                Ok(DynClause::Projection(*id, clone_args(args)?, term.clone()?))
            }
        }
    }
}

#[tactic(auto, using(crate::proofs::TreeLemmas::tree_equations))]
impl Clone for AliasTerm {
    ghost use Rattle.std.specs.Prelude.{◌≡◌};
    ghost use Rattle.goal_terms.specs.TreeOf.{tree_of_alias};

    ghost is_clone = { λ a b. tree_of_alias b ≡ tree_of_alias a };

    #[cycle(copy)]
    fn clone(&self) -> Result<AliasTerm, AllocError> {
        Ok(AliasTerm {
            kind: self.kind,
            args: clone_args(&self.args)?,
        })
    }
}

#[cycle(copy)]
fn clone_args(args: &Vec<GenericArg>) -> Result<Vec<GenericArg>, AllocError>
    ensures trees { IfOk result (λ new. map tree_of_arg new.items ≡ map tree_of_arg args.now.items) }
    ensures count { IfOk result (λ new. length new.items ≡ length args.now.items) }
{
    let mut all = Vec::with_capacity(*args.allocator(), args.len())?;
    for i in 0..args.len() {
        all.push(args[i].clone()?)?;
    }
    Ok(all)
}

#[cycle(copy)]
fn clone_tys(tys: &Vec<Ty>) -> Result<Vec<Ty>, AllocError>
    ensures trees { IfOk result (λ new. map tree_of_ty new.items ≡ map tree_of_ty tys.now.items) }
    ensures count { IfOk result (λ new. length new.items ≡ length tys.now.items) }
{
    let mut all = Vec::with_capacity(*tys.allocator(), tys.len())?;
    for i in 0..tys.len() {
        all.push(tys[i].clone()?)?;
    }
    Ok(all)
}

#[cycle(copy)]
fn clone_clauses(clauses: &Vec<DynClause>) -> Result<Vec<DynClause>, AllocError>
    ensures trees { IfOk result (λ new. map tree_of_clause new.items ≡ map tree_of_clause clauses.now.items) }
    ensures count { IfOk result (λ new. length new.items ≡ length clauses.now.items) }
{
    let mut all = Vec::with_capacity(*clauses.allocator(), clauses.len())?;
    for i in 0..clauses.len() {
        all.push(clauses[i].clone()?)?;
    }
    Ok(all)
}

#[cycle(copy)]
fn clone_ty(ty: &Box<Ty>) -> Result<Box<Ty>, AllocError>
    ensures { IfOk result (λ new. tree_of_ty new.value ≡ tree_of_ty ty.now.value) }
{
    let copy = Ty::clone(ty)?;
    Ok(Box::new(*Box::allocator(ty), copy)?)
}

#[cycle(copy)]
fn clone_const(value: &Box<Const>) -> Result<Box<Const>, AllocError>
    ensures { IfOk result (λ new. tree_of_const new.value ≡ tree_of_const value.now.value) }
{
    let copy = Const::clone(value)?;
    Ok(Box::new(*Box::allocator(value), copy)?)
}

#[cycle(copy)]
fn clone_sig(sig: &Box<FnSig>) -> Result<Box<FnSig>, AllocError>
    ensures { IfOk result (λ new. tree_of_sig new.value ≡ tree_of_sig sig.now.value) }
{
    let copy = FnSig::clone(sig)?;
    Ok(Box::new(*Box::allocator(sig), copy)?)
}
