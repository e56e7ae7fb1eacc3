//! The rewritings: of bound lifetimes that move, of parameters, and of the lifetimes of a binder.
ghost use Rattle.std.specs.Prelude.{◌≡◌};
ghost use Rattle.std.specs.Option.{option_map, option_and_then};
ghost use Rattle.goal_terms.specs.Folding.{shifted_region, argument_of, lifetime_of, first_region};
ghost use Rattle.goal_terms.specs.TreeOf.{tree_of_ty, tree_of_const, trees_of};
ghost use Rattle.goal_terms.specs.declared.answers.ParamKind.TheVariants as kind;

use crate::fold::{TermFolder, fold_const, fold_ty};
use crate::terms::{Const, GenericArg, Region, Ty};
use std::alloc::{AllocError, Global};

/// Moves what a term names beyond itself out over `by` more binders.
#[derive(Clone, Copy)]
pub struct Shifter {
    pub by: u32,
}

/// Puts arguments in place of parameters.
#[derive(Clone, Copy)]
pub struct ArgFolder<'a> {
    pub args: &'a [GenericArg],
}

/// Puts lifetimes, by their numbers, in place of those that the binder right above the term binds.
#[derive(Clone, Copy)]
pub struct BoundFolder<'a> {
    pub regions: &'a [(u32, Region)],
}

#[tactic(auto, unfolding(crate::specs::Folding::shifted_region))]
/// The lifetime that stands below `by` more binders, as seen below `binders` binders of its own.
pub fn shift_region(by: u32, binders: u32, region: Region) -> Region
    ensures { result ≡ shifted_region by binders region }
{
    match region {
        Region::Bound(binder, number) if by != 0 && binder >= binders => {
            Region::Bound(binder.saturating_add(by), number)
        }
        other => other,
    }
}

#[tactic(auto, using(crate::proofs::ArgumentLemmas::arguments))]
fn ty_argument(args: &[GenericArg], index: u32) -> Option<&Ty>
    ensures { option_map (λ t. tree_of_ty t.now) result ≡ argument_of (trees_of args.entry.now) kind.Ty index }
{
    if index as usize >= args.len() {
        return None;
    }
    match &args[index as usize] {
        GenericArg::Ty(ty) => Some(ty),
        GenericArg::Const(_) => None,
        GenericArg::Lifetime(_) => None,
    }
}

#[tactic(auto, using(crate::proofs::ArgumentLemmas::arguments))]
fn const_argument(args: &[GenericArg], index: u32) -> Option<&Const>
    ensures { option_map (λ t. tree_of_const t.now) result ≡ argument_of (trees_of args.entry.now) kind.Const index }
{
    if index as usize >= args.len() {
        return None;
    }
    match &args[index as usize] {
        GenericArg::Const(value) => Some(value),
        GenericArg::Ty(_) => None,
        GenericArg::Lifetime(_) => None,
    }
}

#[tactic(auto, using(crate::proofs::ArgumentLemmas::arguments))]
fn region_argument(args: &[GenericArg], index: u32) -> Option<Region>
    ensures { result ≡ option_and_then lifetime_of (argument_of (trees_of args.now) kind.Lifetime index) }
{
    if index as usize >= args.len() {
        return None;
    }
    match &args[index as usize] {
        GenericArg::Lifetime(region) => Some(*region),
        GenericArg::Ty(_) => None,
        GenericArg::Const(_) => None,
    }
}

#[tactic(auto, unfolding(crate::specs::Folding::first_region))]
fn region_of_number(regions: &[(u32, Region)], number: u32) -> Option<Region>
    ensures { result ≡ first_region regions.now number }
{
    regions
        .iter()
        .find(|pair| pair.0 == number)
        .map(|pair| pair.1)
}

impl TermFolder for Shifter {
    ghost use Rattle.goal_terms.specs.Folding.{shifting};

    ghost folding = { λ s. shifting s.by };

    fn fold_region(&self, binders: u32, region: Region) -> Region {
        shift_region(self.by, binders, region)
    }

    #[tactic(auto, using(crate::proofs::TreeLemmas::tree_equations))]
    fn fold_ty_param(&self, alloc: Global, binders: u32, index: u32) -> Result<Ty, AllocError> {
        Ok(Ty::Param(index))
    }

    #[tactic(auto, using(crate::proofs::TreeLemmas::tree_equations))]
    fn fold_const_param(
        &self,
        alloc: Global,
        binders: u32,
        index: u32,
    ) -> Result<Const, AllocError> {
        Ok(Const::Param(index))
    }
}

impl TermFolder for ArgFolder<'_> {
    ghost use Rattle.goal_terms.specs.Folding.{instantiating};
    ghost use Rattle.goal_terms.specs.TreeOf.{trees_of};

    ghost folding = { λ s. instantiating (trees_of s.args.now) };

    #[tactic(auto, unfolding(crate::specs::Folding::region_instance))]
    fn fold_region(&self, binders: u32, region: Region) -> Region {
        let Region::Param(index) = region else {
            return region;
        };
        match region_argument(self.args, index) {
            Some(arg) => shift_region(binders, 0, arg),
            None => region,
        }
    }

    #[tactic(auto, using(crate::proofs::TreeLemmas::tree_equations))]
    fn fold_ty_param(&self, alloc: Global, binders: u32, index: u32) -> Result<Ty, AllocError> {
        match ty_argument(self.args, index) {
            Some(ty) => fold_ty(&Shifter { by: binders }, alloc, 0, ty),
            None => Ok(Ty::Param(index)),
        }
    }

    #[tactic(auto, using(crate::proofs::TreeLemmas::tree_equations))]
    fn fold_const_param(
        &self,
        alloc: Global,
        binders: u32,
        index: u32,
    ) -> Result<Const, AllocError> {
        match const_argument(self.args, index) {
            Some(value) => fold_const(&Shifter { by: binders }, alloc, 0, value),
            None => Ok(Const::Param(index)),
        }
    }
}

impl TermFolder for BoundFolder<'_> {
    ghost use Rattle.goal_terms.specs.Folding.{entering};

    ghost folding = { λ s. entering s.regions.now };

    #[tactic(auto, unfolding(crate::specs::Folding::region_entered))]
    fn fold_region(&self, binders: u32, region: Region) -> Region {
        let Region::Bound(binder, number) = region else {
            return region;
        };
        if binder != binders {
            return region;
        }
        match region_of_number(self.regions, number) {
            Some(new) => shift_region(binders, 0, new),
            None => region,
        }
    }

    #[tactic(auto, using(crate::proofs::TreeLemmas::tree_equations))]
    fn fold_ty_param(&self, alloc: Global, binders: u32, index: u32) -> Result<Ty, AllocError> {
        Ok(Ty::Param(index))
    }

    #[tactic(auto, using(crate::proofs::TreeLemmas::tree_equations))]
    fn fold_const_param(
        &self,
        alloc: Global,
        binders: u32,
        index: u32,
    ) -> Result<Const, AllocError> {
        Ok(Const::Param(index))
    }
}
