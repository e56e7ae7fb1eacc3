//! The arguments that the entries of a list with inference variables name.
ghost use Rattle.std.specs.Prelude.{◌≡◌, ◌∷◌, [], Some, IfOk, IfErr, OnOk, IsOkUnless, slice_get};
ghost use Rattle.std.specs.Option.{option_copied};
ghost use Rattle.goal_terms.specs.TreeOf.{trees_of, tree_of_ty};
ghost use Rattle.goal_lists.specs.declared.lists.RuleHeader.TheVariants as of_header;
ghost use Rattle.goal_solver.specs.Accesses.{RecordsCausedFaults};
ghost use Rattle.goal_solver.specs.GoingBack.{GoesBack};
ghost use Rattle.goal_solver.specs.OpenRuns.{open_progress, impl_header, open_start, after_entry, after_naming, named_trees, open_header, Equates, Matches, Follows, NamesOpen, NamesIf, given_header, Names, header_with};
ghost use Rattle.goal_solver.specs.Refusals.{WhenRefused, RefusesEqual, RefusesMatch, RefusesMatchIf, RefusesNames};
ghost use Rattle.goal_solver.specs.Relating.{IsFaultFor};

use crate::context::EvalCtxt;
use crate::context::respond::{both, copied_args};
use crate::faults::Fault;
use goal_kinds::rules::{ArgsIndex, RuleArguments, RuleHeader};
use goal_terms::answers::{Certainty, ParamKind};
use goal_terms::ids::{ImplId, InherentImplId};
use goal_terms::instantiate::{instantiate_args, rebase_onto};
use goal_terms::predicates::Clause;
use goal_terms::terms::{GenericArg, Ty};
use std::alloc::{AllocError, Global};

/// How far a list with inference variables was run: the lists of arguments that were named so far, and how
/// sure all entries so far are.
#[derive(Drop)]
pub struct OpenRun {
    pub named: Vec<Vec<GenericArg>>,
    pub certainty: Certainty,
}

/// Arguments that an entry names, and how sure it is of them.
#[derive(Drop)]
pub struct NamedArgs {
    pub args: Vec<GenericArg>,
    pub certainty: Certainty,
}

impl OpenRun {
    /// A run before the first entry.
    pub(crate) fn new(alloc: Global) -> OpenRun
        ensures { open_progress result ≡ open_start }
    {
        OpenRun {
            named: Vec::new(alloc),
            certainty: Certainty::Yes,
        }
    }

    /// Goes on after an entry of a certainty.
    pub(crate) fn join(&mut self, certainty: Certainty)
        ensures { open_progress self.new ≡ after_entry (open_progress self.old) certainty }
    {
        self.certainty = both(self.certainty, certainty);
    }

    /// Goes on after an entry that names arguments. Only memory is refused.
    pub(crate) fn name(&mut self, found: NamedArgs) -> Result<(), Fault>
        ensures named { OnOk result (open_progress self.new ≡ after_naming (open_progress self.old) (trees_of found.args.items) found.certainty) }
        ensures only_memory { IsOkUnless result Fault.OutOfMemory }
    {
        self.certainty = both(self.certainty, found.certainty);
        if self.named.push(found.args).is_err() {
            return Err(Fault::OutOfMemory);
        }
        Ok(())
    }
}

/// The arguments of a number, if they were named.
pub(crate) fn args_of_number(
    named: &[Vec<GenericArg>],
    number: ArgsIndex,
) -> Option<&Vec<GenericArg>>
    ensures { option_copied result ≡ slice_get named.now number }
{
    named.get(number as usize)
}

/// No arguments: what should name them isn't there.
fn no_args(alloc: Global) -> NamedArgs
    ensures args { result.args.items ≡ [] }
    ensures certainty { result.certainty ≡ Certainty.Maybe }
{
    NamedArgs {
        args: Vec::new(alloc),
        certainty: Certainty::Maybe,
    }
}

/// Copies of arguments, of which there is no doubt. Only memory is refused.
fn given_args(alloc: Global, args: &[GenericArg]) -> Result<NamedArgs, Fault>
    ensures args { IfOk result (λ n. trees_of n.args.items ≡ trees_of args.now) }
    ensures certainty { IfOk result (λ n. n.certainty ≡ Certainty.Yes) }
    ensures only_memory { IfErr result (λ f. f ≡ Fault.OutOfMemory) }
{
    let Ok(copies) = copied_args(alloc, args) else {
        return Err(Fault::OutOfMemory);
    };
    Ok(NamedArgs {
        args: copies,
        certainty: Certainty::Yes,
    })
}

/// A type as the one argument of a header.
fn only_type(alloc: Global, ty: &Ty) -> Result<Vec<GenericArg>, AllocError>
    ensures { IfOk result (λ made. trees_of made.items ≡ tree_of_ty ty.now ∷ []) }
{
    let copy = ty.clone()?;
    let mut made = Vec::with_capacity(alloc, 1)?;
    made.push(GenericArg::Ty(copy))?;
    Ok(made)
}

impl EvalCtxt<'_> {
    /// The arguments that an entry of a list with inference variables names. Those of a header are fresh
    /// variables, and the header is made equal to what it is matched with. Where a row or earlier arguments
    /// are missing there are none. Where it is refused, variables may have been made.
    pub(crate) fn open_arguments(
        &mut self,
        environment: &[Clause],
        named: &[Vec<GenericArg>],
        arguments: &RuleArguments,
    ) -> Result<NamedArgs, Fault>
        ensures names { IfOk result (λ n. NamesOpen environment.now (named_trees named.now) arguments.now self.old (trees_of n.args.items) n.certainty self.new) }
        ensures refused { WhenRefused result (RefusesNames environment.now (named_trees named.now) arguments.now self.old self.new) }
        ensures faults { RecordsCausedFaults self.old self.new }
        ensures goes_back { GoesBack self.old self.new }
        ensures fault { IsFaultFor self.old self.new result }
    {
        match arguments {
            RuleArguments::Given(args) => given_args(self.allocator(), args),
            RuleArguments::Header(header, args) => {
                self.args_of_header(environment, *header, args)
            }
            RuleArguments::OtherImpl(other, of, number) => {
                self.args_of_matched(environment, named, *other, *of, *number)
            }
            RuleArguments::Followed(number, own) => self.args_behind(named, *number, own),
        }
    }

    /// The arguments of a header that is matched with given ones.
    fn args_of_header(
        &mut self,
        environment: &[Clause],
        header: RuleHeader,
        given: &[GenericArg],
    ) -> Result<NamedArgs, Fault>
        ensures names { IfOk result (λ n. NamesIf environment.now (open_header self.old.tables header) (Some (trees_of given.now)) self.old n self.new) }
        ensures refused { WhenRefused result (RefusesMatchIf environment.now (open_header self.old.tables header) (Some (trees_of given.now)) self.old self.new) }
        ensures faults { RecordsCausedFaults self.old self.new }
        ensures goes_back { GoesBack self.old self.new }
        ensures fault { IsFaultFor self.old self.new result }
    {
        match header {
            RuleHeader::Impl(id) => self.args_of_impl(environment, id, given),
            RuleHeader::InherentImpl(id) => self.args_of_inherent(environment, id, given),
        }
    }

    /// The arguments of an impl whose header is matched with given ones.
    fn args_of_impl(
        &mut self,
        environment: &[Clause],
        id: ImplId,
        given: &[GenericArg],
    ) -> Result<NamedArgs, Fault>
        ensures names { IfOk result (λ n. NamesIf environment.now (open_header self.old.tables (of_header.Impl id)) (Some (trees_of given.now)) self.old n self.new) }
        ensures refused { WhenRefused result (RefusesMatchIf environment.now (open_header self.old.tables (of_header.Impl id)) (Some (trees_of given.now)) self.old self.new) }
        ensures faults { RecordsCausedFaults self.old self.new }
        ensures goes_back { GoesBack self.old self.new }
        ensures fault { IsFaultFor self.old self.new result }
    {
        let tables = self.tables();
        let Some(row) = tables.rows().impl_row(id) else {
            return Ok(no_args(self.allocator()));
        };
        self.match_open(environment, &row.params, &row.trait_args, given)
    }

    /// The arguments of an inherent impl whose self type is matched with a given one.
    fn args_of_inherent(
        &mut self,
        environment: &[Clause],
        id: InherentImplId,
        given: &[GenericArg],
    ) -> Result<NamedArgs, Fault>
        ensures names { IfOk result (λ n. NamesIf environment.now (open_header self.old.tables (of_header.InherentImpl id)) (Some (trees_of given.now)) self.old n self.new) }
        ensures refused { WhenRefused result (RefusesMatchIf environment.now (open_header self.old.tables (of_header.InherentImpl id)) (Some (trees_of given.now)) self.old self.new) }
        ensures faults { RecordsCausedFaults self.old self.new }
        ensures goes_back { GoesBack self.old self.new }
        ensures fault { IsFaultFor self.old self.new result }
    {
        let tables = self.tables();
        let Some(row) = tables.rows().inherent_impl_row(id) else {
            return Ok(no_args(self.allocator()));
        };
        let Ok(header) = only_type(self.allocator(), &row.self_ty) else {
            return Err(Fault::OutOfMemory);
        };
        self.match_open(environment, &row.params, &header, given)
    }

    /// The arguments of an impl whose header is matched with that of another impl, under the arguments of a
    /// number.
    fn args_of_matched(
        &mut self,
        environment: &[Clause],
        named: &[Vec<GenericArg>],
        other: ImplId,
        of: ImplId,
        number: ArgsIndex,
    ) -> Result<NamedArgs, Fault>
        ensures names { IfOk result (λ n. NamesIf environment.now (impl_header self.old.tables other) (given_header self.old.tables of named.now number) self.old n self.new) }
        ensures refused { WhenRefused result (RefusesMatchIf environment.now (impl_header self.old.tables other) (given_header self.old.tables of named.now number) self.old self.new) }
        ensures faults { RecordsCausedFaults self.old self.new }
        ensures goes_back { GoesBack self.old self.new }
        ensures fault { IsFaultFor self.old self.new result }
    {
        let tables = self.tables();
        let Some(row) = tables.rows().impl_row(of) else {
            return Ok(no_args(self.allocator()));
        };
        let Some(args) = args_of_number(named, number) else {
            return Ok(no_args(self.allocator()));
        };
        let Ok(given) = instantiate_args(self.allocator(), &row.trait_args, args) else {
            return Err(Fault::OutOfMemory);
        };
        self.args_of_impl(environment, other, &given)
    }

    /// The arguments of a number, and own ones behind them. Only memory is refused.
    fn args_behind(
        &self,
        named: &[Vec<GenericArg>],
        number: ArgsIndex,
        own: &[GenericArg],
    ) -> Result<NamedArgs, Fault>
        ensures names { IfOk result (λ n. Follows (slice_get (named_trees named.now) number) (trees_of own.now) self.now (trees_of n.args.items) n.certainty self.now) }
        ensures only_memory { IfErr result (λ f. f ≡ Fault.OutOfMemory) }
    {
        let Some(args) = args_of_number(named, number) else {
            return Ok(no_args(self.allocator()));
        };
        let Ok(all) = rebase_onto(self.allocator(), own, 0, args) else {
            return Err(Fault::OutOfMemory);
        };
        Ok(NamedArgs {
            args: all,
            certainty: Certainty::Yes,
        })
    }

    /// Matches a header: fresh variables stand for its parameters, and its terms are made equal to given ones.
    fn match_open(
        &mut self,
        environment: &[Clause],
        params: &[ParamKind],
        header: &[GenericArg],
        given: &[GenericArg],
    ) -> Result<NamedArgs, Fault>
        ensures matches { IfOk result (λ n. Names environment.now (header_with params.now header.now) (trees_of given.now) self.old n self.new) }
        ensures refused { WhenRefused result (RefusesMatch environment.now (header_with params.now header.now) (trees_of given.now) self.old self.new) }
        ensures faults { RecordsCausedFaults self.old self.new }
        ensures goes_back { GoesBack self.old self.new }
        ensures fault { IsFaultFor self.old self.new result }
    {
        let args = self.fresh_args_for_item(params)?;
        let Ok(terms) = instantiate_args(self.allocator(), header, &args) else {
            return Err(Fault::OutOfMemory);
        };
        let certainty = self.equate_args(environment, &terms, given)?;
        Ok(NamedArgs { args, certainty })
    }

    /// Makes two lists of arguments equal, as `eq_args` does.
    pub(crate) fn equate_args(
        &mut self,
        environment: &[Clause],
        left: &[GenericArg],
        right: &[GenericArg],
    ) -> Result<Certainty, Fault>
        ensures equates { IfOk result (Equates environment.now (trees_of left.now) (trees_of right.now) self.old self.new) }
        ensures refused { WhenRefused result (RefusesEqual environment.now (trees_of left.now) (trees_of right.now) self.old self.new) }
        ensures faults { RecordsCausedFaults self.old self.new }
        ensures goes_back { GoesBack self.old self.new }
        ensures fault { IsFaultFor self.old self.new result }
    {
        self.eq_args(environment, left, right)
    }
}
