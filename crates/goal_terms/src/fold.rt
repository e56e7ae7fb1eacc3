//! Rewriting of terms: one walk over all of them, for each use.
ghost use Rattle.std.specs.Prelude.{◌≡◌, map, length, IfOk};
ghost use Rattle.goal_terms.specs.Folding.{raised, folded};
ghost use Rattle.goal_terms.specs.TreeOf.{tree_of_ty, tree_of_const, tree_of_sig, tree_of_arg, tree_of_term, tree_of_clause, tree_of_alias};

use crate::terms::{AliasTerm, Const, DynClause, FnSig, GenericArg, Region, Term, Ty};
use std::alloc::{AllocError, Global};

/// What a rewriting does at the leaves of a term. `binders` is how many binders of the term stand
/// above the leaf; at the largest number it stays.
pub trait TermFolder {
    ghost use Rattle.std.specs.Prelude.{◌≡◌, IfOk};
    ghost use Rattle.goal_terms.specs.Folding.{Folding};
    ghost use Rattle.goal_terms.specs.TreeOf.{tree_of_ty, tree_of_const};

    ghost folding: { Self → Folding };

    /// What stands in place of a lifetime.
    fn fold_region(&self, binders: u32, region: Region) -> Region
        ensures { result ≡ (folding self.now).region binders region };

    /// What stands in place of a type parameter. `AllocError` where a growth is refused.
    fn fold_ty_param(&self, alloc: Global, binders: u32, index: u32) -> Result<Ty, AllocError>
        ensures { IfOk result (λ new. tree_of_ty new ≡ (folding self.now).ty_param binders index) };

    /// What stands in place of a parameter that is a constant. `AllocError` where a growth is
    /// refused.
    fn fold_const_param(&self, alloc: Global, binders: u32, index: u32) -> Result<Const, AllocError>
        ensures { IfOk result (λ new. tree_of_const new ≡ (folding self.now).const_param binders index) };
}

/// The type, rewritten. `AllocError` where a growth is refused; so it is in all calls below.
#[tactic(auto, using(crate::proofs::FoldLemmas::folding_equations))]
#[cycle(fold)]
pub fn fold_ty<F: TermFolder>(
    folder: &F,
    alloc: Global,
    binders: u32,
    ty: &Ty,
) -> Result<Ty, AllocError>
    ensures { IfOk result (λ new. tree_of_ty new ≡ folded (F.folding folder.now) binders (tree_of_ty ty.now)) }
{
    match ty {
        Ty::Bool => Ok(Ty::Bool),
        Ty::Char => Ok(Ty::Char),
        Ty::Int(int) => Ok(Ty::Int(*int)),
        Ty::Uint(int) => Ok(Ty::Uint(*int)),
        Ty::Float(float) => Ok(Ty::Float(*float)),
        Ty::Str => Ok(Ty::Str),
        Ty::Never => Ok(Ty::Never),
        Ty::Adt(id, args) => Ok(Ty::Adt(*id, fold_args(folder, alloc, binders, args)?)),
        Ty::Foreign(id) => Ok(Ty::Foreign(*id)),
        Ty::Array(element, length) => {
            let new = fold_boxed_ty(folder, alloc, binders, element)?;
            Ok(Ty::Array(new, fold_boxed_const(folder, alloc, binders, length)?))
        }
        Ty::Slice(element) => Ok(Ty::Slice(fold_boxed_ty(folder, alloc, binders, element)?)),
        Ty::RawPtr(target, mutability) => {
            Ok(Ty::RawPtr(fold_boxed_ty(folder, alloc, binders, target)?, *mutability))
        }
        Ty::Ref(region, target, mutability) => {
            let new = fold_boxed_ty(folder, alloc, binders, target)?;
            Ok(Ty::Ref(folder.fold_region(binders, *region), new, *mutability))
        }
        Ty::FnDef(id, args) => Ok(Ty::FnDef(*id, fold_args(folder, alloc, binders, args)?)),
        Ty::FnPtr(sig) => Ok(Ty::FnPtr(fold_boxed_sig(folder, alloc, binders, sig)?)),
        Ty::Closure(id, args) => Ok(Ty::Closure(*id, fold_args(folder, alloc, binders, args)?)),
        Ty::Dynamic(clauses, region) => {
            let new = fold_clauses(folder, alloc, binders, clauses)?;
            Ok(Ty::Dynamic(new, folder.fold_region(binders, *region)))
        }
        Ty::Tuple(elements) => Ok(Ty::Tuple(fold_tys(folder, alloc, binders, elements)?)),
        Ty::Param(index) => folder.fold_ty_param(alloc, binders, *index),
        Ty::Placeholder(index) => Ok(Ty::Placeholder(*index)),
        Ty::Alias(alias) => Ok(Ty::Alias(fold_alias(folder, alloc, binders, alias)?)),
        Ty::Infer(variable) => Ok(Ty::Infer(*variable)),
        Ty::Error(number) => Ok(Ty::Error(*number)),
    }
}

/// The constant, rewritten.
#[tactic(auto, using(crate::proofs::FoldLemmas::folding_equations))]
#[cycle(fold)]
pub fn fold_const<F: TermFolder>(
    folder: &F,
    alloc: Global,
    binders: u32,
    value: &Const,
) -> Result<Const, AllocError>
    ensures { IfOk result (λ new. tree_of_const new ≡ folded (F.folding folder.now) binders (tree_of_const value.now)) }
{
    match value {
        Const::Value(value) => Ok(Const::Value(*value)),
        Const::Param(index) => folder.fold_const_param(alloc, binders, *index),
        Const::Placeholder(index) => Ok(Const::Placeholder(*index)),
        Const::Infer(index) => Ok(Const::Infer(*index)),
        Const::Alias(alias) => Ok(Const::Alias(fold_alias(folder, alloc, binders, alias)?)),
        Const::Error(number) => Ok(Const::Error(*number)),
    }
}

/// The argument, rewritten.
#[tactic(auto, using(crate::proofs::FoldLemmas::folding_equations))]
#[cycle(fold)]
pub fn fold_arg<F: TermFolder>(
    folder: &F,
    alloc: Global,
    binders: u32,
    arg: &GenericArg,
) -> Result<GenericArg, AllocError>
    ensures { IfOk result (λ new. tree_of_arg new ≡ folded (F.folding folder.now) binders (tree_of_arg arg.now)) }
{
    match arg {
        GenericArg::Ty(ty) => Ok(GenericArg::Ty(fold_ty(folder, alloc, binders, ty)?)),
        GenericArg::Const(value) => Ok(GenericArg::Const(fold_const(
            folder, alloc, binders, value,
        )?)),
        GenericArg::Lifetime(region) => {
            Ok(GenericArg::Lifetime(folder.fold_region(binders, *region)))
        }
    }
}

/// The term, rewritten.
#[tactic(auto, using(crate::proofs::FoldLemmas::folding_equations))]
#[cycle(fold)]
pub fn fold_term<F: TermFolder>(
    folder: &F,
    alloc: Global,
    binders: u32,
    term: &Term,
) -> Result<Term, AllocError>
    ensures { IfOk result (λ new. tree_of_term new ≡ folded (F.folding folder.now) binders (tree_of_term term.now)) }
{
    match term {
        Term::Ty(ty) => Ok(Term::Ty(fold_ty(folder, alloc, binders, ty)?)),
        Term::Const(value) => Ok(Term::Const(fold_const(folder, alloc, binders, value)?)),
    }
}

/// The signature, rewritten. It is a binder, as a pointer to such a function is.
#[tactic(auto, using(crate::proofs::FoldLemmas::folding_equations))]
#[cycle(fold)]
pub fn fold_sig<F: TermFolder>(
    folder: &F,
    alloc: Global,
    binders: u32,
    sig: &FnSig,
) -> Result<FnSig, AllocError>
    ensures { IfOk result (λ new. tree_of_sig new ≡ folded (F.folding folder.now) binders (tree_of_sig sig.now)) }
{
    let below = binders.saturating_add(1);
    Ok(FnSig {
        bound_regions: sig.bound_regions,
        inputs: fold_tys(folder, alloc, below, &sig.inputs)?,
        output: fold_ty(folder, alloc, below, &sig.output)?,
        fn_traits: sig.fn_traits,
    })
}

/// The clause of a `dyn` type, rewritten. It is a binder.
#[tactic(auto, using(crate::proofs::FoldLemmas::folding_equations))]
#[cycle(fold)]
pub fn fold_clause<F: TermFolder>(
    folder: &F,
    alloc: Global,
    binders: u32,
    clause: &DynClause,
) -> Result<DynClause, AllocError>
    ensures { IfOk result (λ new. tree_of_clause new ≡ folded (F.folding folder.now) binders (tree_of_clause clause.now)) }
{
    let below = binders.saturating_add(1);
    match clause {
        DynClause::Trait(id, args) => {
            Ok(DynClause::Trait(*id, fold_args(folder, alloc, below, args)?))
        }
        DynClause::Projection(id, args, term) => {
            let new = fold_args(folder, alloc, below, args)?;
            Ok(DynClause::Projection(*id, new, fold_term(folder, alloc, below, term)?))
        }
    }
}

/// The alias, with its arguments rewritten.
#[tactic(auto, using(crate::proofs::FoldLemmas::folding_equations))]
#[cycle(fold)]
pub fn fold_alias<F: TermFolder>(
    folder: &F,
    alloc: Global,
    binders: u32,
    alias: &AliasTerm,
) -> Result<AliasTerm, AllocError>
    ensures { IfOk result (λ new. tree_of_alias new ≡ folded (F.folding folder.now) binders (tree_of_alias alias.now)) }
{
    Ok(AliasTerm {
        kind: alias.kind,
        args: fold_args(folder, alloc, binders, &alias.args)?,
    })
}

/// The arguments, each rewritten.
#[cycle(fold)]
pub fn fold_args<F: TermFolder>(
    folder: &F,
    alloc: Global,
    binders: u32,
    args: &[GenericArg],
) -> Result<Vec<GenericArg>, AllocError>
    ensures trees { IfOk result (λ new. map tree_of_arg new.items ≡ map (folded (F.folding folder.now) binders) (map tree_of_arg args.now)) }
    ensures count { IfOk result (λ new. length new.items ≡ length args.now) }
{
    let mut all = Vec::with_capacity(alloc, args.len())?;
    for i in 0..args.len() {
        all.push(fold_arg(folder, alloc, binders, &args[i])?)?;
    }
    Ok(all)
}

/// The types, each rewritten.
#[cycle(fold)]
pub fn fold_tys<F: TermFolder>(
    folder: &F,
    alloc: Global,
    binders: u32,
    tys: &[Ty],
) -> Result<Vec<Ty>, AllocError>
    ensures trees { IfOk result (λ new. map tree_of_ty new.items ≡ map (folded (F.folding folder.now) binders) (map tree_of_ty tys.now)) }
    ensures count { IfOk result (λ new. length new.items ≡ length tys.now) }
{
    let mut all = Vec::with_capacity(alloc, tys.len())?;
    for i in 0..tys.len() {
        all.push(fold_ty(folder, alloc, binders, &tys[i])?)?;
    }
    Ok(all)
}

/// The clauses of a `dyn` type, each rewritten.
#[cycle(fold)]
pub fn fold_clauses<F: TermFolder>(
    folder: &F,
    alloc: Global,
    binders: u32,
    clauses: &[DynClause],
) -> Result<Vec<DynClause>, AllocError>
    ensures trees { IfOk result (λ new. map tree_of_clause new.items ≡ map (folded (F.folding folder.now) binders) (map tree_of_clause clauses.now)) }
    ensures count { IfOk result (λ new. length new.items ≡ length clauses.now) }
{
    let mut all = Vec::with_capacity(alloc, clauses.len())?;
    for i in 0..clauses.len() {
        all.push(fold_clause(folder, alloc, binders, &clauses[i])?)?;
    }
    Ok(all)
}

#[cycle(fold)]
fn fold_boxed_ty<F: TermFolder>(
    folder: &F,
    alloc: Global,
    binders: u32,
    ty: &Box<Ty>,
) -> Result<Box<Ty>, AllocError>
    ensures { IfOk result (λ new. tree_of_ty new.value ≡ folded (F.folding folder.now) binders (tree_of_ty ty.now.value)) }
{
    let new = fold_ty(folder, alloc, binders, ty)?;
    Ok(Box::new(alloc, new)?)
}

#[cycle(fold)]
fn fold_boxed_const<F: TermFolder>(
    folder: &F,
    alloc: Global,
    binders: u32,
    value: &Box<Const>,
) -> Result<Box<Const>, AllocError>
    ensures { IfOk result (λ new. tree_of_const new.value ≡ folded (F.folding folder.now) binders (tree_of_const value.now.value)) }
{
    let new = fold_const(folder, alloc, binders, value)?;
    Ok(Box::new(alloc, new)?)
}

#[cycle(fold)]
fn fold_boxed_sig<F: TermFolder>(
    folder: &F,
    alloc: Global,
    binders: u32,
    sig: &Box<FnSig>,
) -> Result<Box<FnSig>, AllocError>
    ensures { IfOk result (λ new. tree_of_sig new.value ≡ folded (F.folding folder.now) binders (tree_of_sig sig.now.value)) }
{
    let new = fold_sig(folder, alloc, binders, sig)?;
    Ok(Box::new(alloc, new)?)
}
