//! The hidden types of opaque types that are being defined.
ghost use Rattle.std.specs.Prelude.{◌≡◌, Some, IfOk, IfErr, IsOkUnless, option_map};
ghost use Rattle.goal_terms.specs.Folding.{instance};
ghost use Rattle.goal_terms.specs.TreeOf.{tree_of_arg, tree_of_term, tree_of_ty, trees_of};
ghost use Rattle.goal_solver.specs.Accesses.{RecordsCausedFaults};
ghost use Rattle.goal_solver.specs.GoingBack.{GoesBack};
ghost use Rattle.goal_solver.specs.HiddenTypes.{NormalizesArg, NormalizesArgs, behind_all, RefusesArg, RefusesArgs, EntersHidden, checked_in};
ghost use Rattle.goal_solver.specs.OpenRuns.{TakesFirstOf, MeetsHidden, DefinesUnder, Defines};
ghost use Rattle.goal_solver.specs.Refusals.{RefusesFirstOf, WhenRefused, RefusesMeeting, RefusesUnder, RefusesHidden};
ghost use Rattle.goal_solver.specs.Relating.{IsFaultFor};

use crate::context::EvalCtxt;
use crate::context::respond::copied_args;
use crate::faults::Fault;
use crate::normalizes_to::open::term_in;
use goal_kinds::rules::FirstUse;
use goal_tables::lookup::IndexedTables;
use goal_terms::answers::{Certainty, OpaqueTypeKey};
use goal_terms::ids::OpaqueId;
use goal_terms::instantiate::instantiate;
use goal_terms::predicates::Clause;
use goal_terms::terms::{GenericArg, Term, Ty};
use std::alloc::{AllocError, Global};

impl EvalCtxt<'_> {
    /// Makes an expected type the hidden type of an opaque type. The arguments are normalized first; where one
    /// is undecided nothing is entered. An earlier type under the same arguments is made equal to the expected
    /// one; else that is entered, and the first use takes the type that type checking found, or leaves it as it
    /// is. The opaque type's bounds are added as goals, with the expected type in its place. A constant is no
    /// hidden type. Where it is refused, some of it may stay.
    pub(crate) fn define_hidden_type(
        &mut self,
        environment: &[Clause],
        expected: &Term,
        key: &OpaqueTypeKey,
        first: FirstUse,
    ) -> Result<Certainty, Fault>
        ensures defines { IfOk result (λ c. Defines environment.now expected.now key.now first self.old c self.new) }
        ensures refused { WhenRefused result (RefusesHidden environment.now expected.now key.now first self.old self.new) }
        ensures faults { RecordsCausedFaults self.old self.new }
        ensures goes_back { GoesBack self.old self.new }
        ensures fault { IsFaultFor self.old self.new result }
    {
        match expected {
            Term::Const(_) => Ok(Certainty::Maybe),
            Term::Ty(ty) => {
                let Some(args) = self.normalized_args(environment, &key.args)? else {
                    return Ok(Certainty::Maybe);
                };
                self.define_under(environment, ty, key, &args, first)
            }
        }
    }

    /// Makes a type the hidden type of an opaque type under its normalized arguments.
    fn define_under(
        &mut self,
        environment: &[Clause],
        ty: &Ty,
        key: &OpaqueTypeKey,
        args: &[GenericArg],
        first: FirstUse,
    ) -> Result<Certainty, Fault>
        ensures defines { IfOk result (λ c. DefinesUnder environment.now (tree_of_ty ty.now) key.now first (Some (trees_of args.now)) self.old c self.new) }
        ensures refused { WhenRefused result (RefusesUnder environment.now (tree_of_ty ty.now) key.now first (trees_of args.now) self.old self.new) }
        ensures faults { RecordsCausedFaults self.old self.new }
        ensures goes_back { GoesBack self.old self.new }
        ensures fault { IsFaultFor self.old self.new result }
    {
        let earlier = self.enter_hidden(key.def_id, args, ty)?;
        let certainty = self.meet_hidden(environment, ty, key, earlier, first)?;
        self.add_item_bounds_for_hidden_type(key.def_id, args, environment, ty)?;
        Ok(certainty)
    }

    /// Enters a type for an opaque type under arguments, as `register_hidden_type_in_storage` does. Only memory
    /// is refused; then nothing changes.
    fn enter_hidden(
        &mut self,
        id: OpaqueId,
        args: &[GenericArg],
        ty: &Ty,
    ) -> Result<Option<Ty>, Fault>
        ensures entered { IfOk result (EntersHidden id (trees_of args.now) (tree_of_ty ty.now) self.old self.new) }
        ensures faults { RecordsCausedFaults self.old self.new }
        ensures goes_back { GoesBack self.old self.new }
        ensures only_memory { IsOkUnless result Fault.OutOfMemory }
    {
        let Ok(args) = copied_args(self.allocator(), args) else {
            return Err(Fault::OutOfMemory);
        };
        let Ok(hidden) = ty.clone() else {
            return Err(Fault::OutOfMemory);
        };
        let key = OpaqueTypeKey { def_id: id, args };
        self.register_hidden_type_in_storage(key, hidden)
    }

    /// Makes a type equal to the one that was entered earlier, if there is one; else what its first use takes.
    fn meet_hidden(
        &mut self,
        environment: &[Clause],
        ty: &Ty,
        key: &OpaqueTypeKey,
        earlier: Option<Ty>,
        first: FirstUse,
    ) -> Result<Certainty, Fault>
        ensures meets { IfOk result (λ c. MeetsHidden environment.now (tree_of_ty ty.now) first key.now earlier self.old c self.new) }
        ensures refused { WhenRefused result (RefusesMeeting environment.now (tree_of_ty ty.now) first key.now earlier self.old self.new) }
        ensures faults { RecordsCausedFaults self.old self.new }
        ensures goes_back { GoesBack self.old self.new }
        ensures fault { IsFaultFor self.old self.new result }
    {
        let Ok(expected) = term_of(ty) else {
            return Err(Fault::OutOfMemory);
        };
        match earlier {
            Some(earlier) => self.equate_terms(environment, &expected, &Term::Ty(earlier)),
            None => self.take_first(environment, &expected, key, first),
        }
    }

    /// What the first use of an opaque type takes as its hidden type: the expected term as it is, or the type
    /// that type checking found, under the arguments as they are given.
    fn take_first(
        &mut self,
        environment: &[Clause],
        expected: &Term,
        key: &OpaqueTypeKey,
        first: FirstUse,
    ) -> Result<Certainty, Fault>
        ensures takes { IfOk result (λ c. TakesFirstOf environment.now expected.now first key.now self.old c self.new) }
        ensures refused { WhenRefused result (RefusesFirstOf environment.now expected.now first key.now self.old self.new) }
        ensures faults { RecordsCausedFaults self.old self.new }
        ensures goes_back { GoesBack self.old self.new }
        ensures fault { IsFaultFor self.old self.new result }
    {
        match first {
            FirstUse::Expected => Ok(Certainty::Yes),
            FirstUse::TypeChecked => {
                let tables = self.tables();
                let Ok(found) = checked_under(self.allocator(), tables.rows(), key) else {
                    return Err(Fault::OutOfMemory);
                };
                match found {
                    Some(checked) => self.equate_terms(environment, expected, &checked),
                    None => Ok(Certainty::Maybe),
                }
            }
        }
    }

    /// Arguments, each normalized; none where the head form of one is undecided.
    fn normalized_args(
        &mut self,
        environment: &[Clause],
        args: &[GenericArg],
    ) -> Result<Option<Vec<GenericArg>>, Fault>
        ensures normalized { IfOk result (λ o. NormalizesArgs environment.now args.now self.old (option_map (λ made. trees_of made.items) o) self.new) }
        ensures refused { WhenRefused result (RefusesArgs environment.now args.now self.old self.new) }
        ensures faults { RecordsCausedFaults self.old self.new }
        ensures goes_back { GoesBack self.old self.new }
        ensures fault { IsFaultFor self.old self.new result }
    {
        let mut made = Some(Vec::new(self.allocator()));
        for arg in args {
            let normalized = self.normalized_arg(environment, arg)?;
            made = with_arg(made, normalized)?;
        }
        Ok(made)
    }

    /// An argument with the head form of its type or constant; none where that is undecided.
    fn normalized_arg(
        &mut self,
        environment: &[Clause],
        arg: &GenericArg,
    ) -> Result<Option<GenericArg>, Fault>
        ensures normalized { IfOk result (λ o. NormalizesArg environment.now arg.now self.old (option_map tree_of_arg o) self.new) }
        ensures refused { WhenRefused result (RefusesArg environment.now arg.now self.old self.new) }
        ensures faults { RecordsCausedFaults self.old self.new }
        ensures goes_back { GoesBack self.old self.new }
        ensures fault { IsFaultFor self.old self.new result }
    {
        let Some(term) = term_in(arg)? else {
            let Ok(copy) = arg.clone() else {
                return Err(Fault::OutOfMemory);
            };
            return Ok(Some(copy));
        };
        let form = self.closed_form(environment, &term)?;
        Ok(arg_of(form))
    }
}

/// Arguments with one more behind them, if all are there. Only memory is refused.
fn with_arg(
    made: Option<Vec<GenericArg>>,
    arg: Option<GenericArg>,
) -> Result<Option<Vec<GenericArg>>, Fault>
    ensures behind { IfOk result (λ o. option_map (λ all. trees_of all.items) o ≡ behind_all (option_map (λ all. trees_of all.items) made) (option_map tree_of_arg arg)) }
    ensures only_memory { IfErr result (λ f. f ≡ Fault.OutOfMemory) }
{
    match (made, arg) {
        (Some(args), Some(arg)) => {
            let mut all = args;
            if all.push(arg).is_err() {
                return Err(Fault::OutOfMemory);
            }
            Ok(Some(all))
        }
        _ => Ok(None),
    }
}

/// A term as an argument, if there is one.
#[tactic(auto, using(goal_terms::proofs::TreeLemmas::tree_equations))]
fn arg_of(form: Option<Term>) -> Option<GenericArg>
    ensures { option_map tree_of_arg result ≡ option_map tree_of_term form }
{
    match form {
        None => None,
        Some(Term::Ty(ty)) => Some(GenericArg::Ty(ty)),
        Some(Term::Const(constant)) => Some(GenericArg::Const(constant)),
    }
}

/// A copy of a type as a term.
#[tactic(auto, using(goal_terms::proofs::TreeLemmas::tree_equations))]
fn term_of(ty: &Ty) -> Result<Term, AllocError>
    ensures { IfOk result (λ made. tree_of_term made ≡ tree_of_ty ty.now) }
{
    Ok(Term::Ty(ty.clone()?))
}

/// The type that type checking found for an opaque type, under its arguments, if it has a row.
#[tactic(auto, using(goal_terms::proofs::TreeLemmas::tree_equations))]
fn checked_under(
    alloc: Global,
    rows: &IndexedTables,
    key: &OpaqueTypeKey,
) -> Result<Option<Term>, AllocError>
    ensures { IfOk result (λ o. option_map tree_of_term o ≡ option_map (instance (trees_of key.now.args.items)) (checked_in rows.now key.now.def_id)) }
{
    let Some(row) = rows.opaque_row(key.def_id) else {
        return Ok(None);
    };
    let made = instantiate(alloc, &row.typeck_hidden, &key.args)?;
    Ok(Some(Term::Ty(made)))
}
