//! Terms with other leaves: instances, shifted terms and binders that are entered.
ghost use Rattle.std.specs.Prelude.{◌≡◌, ◌++◌, map, drop, IfOk};
ghost use Rattle.goal_terms.specs.Folding.{instantiating, instance, entering};
ghost use Rattle.goal_terms.specs.TreeOf.{trees_of};

use crate::fold::fold_args;
use crate::foldable::TermFoldable;
use crate::folders::{ArgFolder, BoundFolder};
use crate::slices::behind;
use crate::terms::{GenericArg, Region};
use std::alloc::{AllocError, Global};

/// The value with arguments in place of its parameters. An argument that comes to stand below
/// binders of the value is shifted by their number. A parameter for which there is no argument of
/// its kind stays. `AllocError` where a growth is refused; so it is in all calls below.
pub fn instantiate<T: TermFoldable>(
    alloc: Global,
    value: &T,
    args: &[GenericArg],
) -> Result<T, AllocError>
    ensures { IfOk result (λ new. T.is_folded (instantiating (trees_of args.now)) 0 value.now new) }
{
    value.fold_with(&ArgFolder { args }, alloc, 0)
}

/// The same of each argument of a list.
pub fn instantiate_args(
    alloc: Global,
    list: &[GenericArg],
    args: &[GenericArg],
) -> Result<Vec<GenericArg>, AllocError>
    ensures { IfOk result (λ new. trees_of new.items ≡ map (instance (trees_of args.now)) (trees_of list.now)) }
{
    fold_args(&ArgFolder { args }, alloc, 0, list)
}

/// What stands right below a binder, with lifetimes in place of those that it binds. They are given
/// by their numbers, and the first of a number counts; one that is not given stays.
pub fn enter_binder<T: TermFoldable>(
    alloc: Global,
    value: &T,
    regions: &[(u32, Region)],
) -> Result<T, AllocError>
    ensures { IfOk result (λ new. T.is_folded (entering regions.now) 0 value.now new) }
{
    value.fold_with(&BoundFolder { regions }, alloc, 0)
}

#[tactic(auto, using(crate::proofs::ArgumentLemmas::rebasing))]
/// The arguments with the first `replaced` of them replaced by others, as those of an impl's item
/// are by its trait's. Where there are fewer, all are replaced.
pub fn rebase_onto(
    alloc: Global,
    args: &[GenericArg],
    replaced: usize,
    first: &[GenericArg],
) -> Result<Vec<GenericArg>, AllocError>
    ensures { IfOk result (λ new. trees_of new.items ≡ trees_of first.now ++ drop replaced (trees_of args.now)) }
{
    let mut all = Vec::new(alloc);
    push_clones(&mut all, first)?;
    push_clones(&mut all, behind(args, replaced))?;
    Ok(all)
}

fn push_clones(all: &mut Vec<GenericArg>, args: &[GenericArg]) -> Result<(), AllocError>
    ensures { IfOk result (λ done. trees_of all.new.items ≡ trees_of all.old.items ++ trees_of args.now) }
{
    for arg in args {
        all.push(arg.clone()?)?;
    }
    Ok(())
}
