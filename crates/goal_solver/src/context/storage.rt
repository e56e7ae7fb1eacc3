//! The hidden types of opaque types that were entered in a context, and the bounds of these.
ghost use Rattle.std.specs.Prelude.{◌≡◌, ◌↔◌, ◌++◌, ◌∷◌, [], ℕ, map, Some, slice_get, IsTrue, IfOk, IfSome, IfNone, OnOk, OnErr, IsOkUnless};
ghost use Rattle.goal_terms.specs.TreeOf.{tree_of_arg, tree_of_ty, trees_of};
ghost use Rattle.goal_terms.specs.declared.answers.OpaqueTypeKey.{OpaqueTypeKey as Key};
ghost use Rattle.goal_terms.specs.declared.terms.Ty.{Ty as Hidden};
ghost use Rattle.goal_solver.specs.Accesses.{RecordsCausedFaults};
ghost use Rattle.goal_solver.specs.Added.{EntersType, IsEarlierType};
ghost use Rattle.goal_solver.specs.GoingBack.{GoesBack, restored};
ghost use Rattle.goal_solver.specs.HiddenTypes.{bounds_in};
ghost use Rattle.goal_solver.specs.OpenRuns.{AddsBounds, hidden_as};
ghost use Rattle.goal_solver.specs.Stored.{HasOneTypeAKey, IsSameKey};

use crate::context::EvalCtxt;
use crate::context::respond::copied_args;
use crate::faults::Fault;
use goal_tables::lookup::IndexedTables;
use goal_terms::answers::{GoalSource, OpaqueTypeKey};
use goal_terms::ids::OpaqueId;
use goal_terms::predicates::Clause;
use goal_terms::terms::{GenericArg, Ty};
use std::alloc::{AllocError, Global};

impl EvalCtxt<'_> {
    /// Enters the hidden type of an opaque type. If one was entered for the identical key, lifetimes
    /// too, a copy of that is answered, and nothing changes. So each key has one type. Only memory is
    /// refused; then nothing changes.
    pub fn register_hidden_type_in_storage(
        &mut self,
        key: OpaqueTypeKey,
        hidden: Ty,
    ) -> Result<Option<Ty>, Fault>
        ensures entered { IfOk result (EntersType key hidden self.old self.new) }
        ensures one_type { HasOneTypeAKey self.new.storage }
        ensures unchanged { OnErr result (self.new ≡ self.old) }
        ensures goes_back { GoesBack self.old self.new }
        ensures only_memory { IsOkUnless result Fault.OutOfMemory }
    {
        match hidden_type_of(self.storage.as_slice(), &key) {
            Err(_) => Err(Fault::OutOfMemory),
            Ok(Some(earlier)) => Ok(Some(earlier)),
            Ok(None) => {
                if self.storage.push((key, hidden)).is_err() {
                    return Err(Fault::OutOfMemory);
                }
                Ok(None)
            }
        }
    }

    /// Adds the bounds of an opaque type as goals, in an environment: under its arguments, and with a hidden type
    /// in its place. Only memory is refused; then nothing is added.
    pub fn add_item_bounds_for_hidden_type(
        &mut self,
        id: OpaqueId,
        args: &[GenericArg],
        environment: &[Clause],
        hidden: &Ty,
    ) -> Result<(), Fault>
        ensures added { OnOk result (AddsBounds environment.now (hidden_as id (trees_of args.now) (tree_of_ty hidden.now)) self.old self.new) }
        ensures unchanged { OnErr result (self.new ≡ restored self.old self.new) }
        ensures faults { RecordsCausedFaults self.old self.new }
        ensures goes_back { GoesBack self.old self.new }
        ensures only_memory { IsOkUnless result Fault.OutOfMemory }
    {
        self.holds_together();
        let before = self.snapshot();
        let added = self.ask_bounds(id, args, environment, hidden);
        if added.is_err() {
            self.rollback(before);
        }
        added
    }

    /// Adds these goals. Only memory is refused; then some of them may stay.
    fn ask_bounds(
        &mut self,
        id: OpaqueId,
        args: &[GenericArg],
        environment: &[Clause],
        hidden: &Ty,
    ) -> Result<(), Fault>
        ensures added { OnOk result (AddsBounds environment.now (hidden_as id (trees_of args.now) (tree_of_ty hidden.now)) self.old self.new) }
        ensures faults { RecordsCausedFaults self.old self.new }
        ensures goes_back { GoesBack self.old self.new }
        ensures only_memory { IsOkUnless result Fault.OutOfMemory }
    {
        let Ok(all) = with_hidden(self.allocator(), args, hidden) else {
            return Err(Fault::OutOfMemory);
        };
        let tables = self.tables();
        let bounds = bounds_of(tables.rows(), id);
        self.ask_clauses(environment, GoalSource::AliasWellFormed, bounds, &all)
    }
}

/// The bounds of an opaque type; none where it has no row.
fn bounds_of(rows: &IndexedTables, id: OpaqueId) -> &[Clause]
    ensures { result.now ≡ bounds_in rows.now id }
{
    match rows.opaque_row(id) {
        None => &[],
        Some(row) => row.bounds.as_slice(),
    }
}

/// Arguments with a type behind them.
fn with_hidden(
    alloc: Global,
    args: &[GenericArg],
    hidden: &Ty,
) -> Result<Vec<GenericArg>, AllocError>
    ensures { IfOk result (λ all. trees_of all.items ≡ trees_of args.now ++ tree_of_ty hidden.now ∷ []) }
{
    let mut all = copied_args(alloc, args)?;
    all.push(GenericArg::Ty(hidden.clone()?))?;
    Ok(all)
}

/// A copy of the type that was entered for a key, if one was.
fn hidden_type_of(
    entries: &[(OpaqueTypeKey, Ty)],
    key: &OpaqueTypeKey,
) -> Result<Option<Ty>, AllocError>
    ensures { IfOk result (IsEarlierType key.now entries.now) }
{
    let Some(place) = place_of_key(entries, key) else {
        return Ok(None);
    };
    Ok(Some(entries[place].1.clone()?))
}

/// The place of the entry of a key.
fn place_of_key(entries: &[(OpaqueTypeKey, Ty)], key: &OpaqueTypeKey) -> Option<usize>
    ensures found { IfSome result (λ i. (e : Key × Hidden) × (slice_get entries.now i ≡ Some e) × IsSameKey e.0 key.now) }
    ensures absent { IfNone result ((i : ℕ) (e : Key × Hidden) → slice_get entries.now i ≡ Some e → IsSameKey e.0 key.now → ⊥) }
{
    for i in 0..entries.len() {
        if is_same_key(&entries[i].0, key) {
            return Some(i);
        }
    }
    None
}

/// Whether two keys are identical, lifetimes too.
fn is_same_key(a: &OpaqueTypeKey, b: &OpaqueTypeKey) -> bool
    ensures { IsTrue result ↔ IsSameKey a.now b.now }
{
    a.def_id == b.def_id && has_same_args(&a.args, &b.args)
}

fn has_same_args(a: &Vec<GenericArg>, b: &Vec<GenericArg>) -> bool
    ensures { IsTrue result ↔ (map tree_of_arg a.now.items ≡ map tree_of_arg b.now.items) }
{
    a == b
}
