//! Equations of the lifetimes of terms that were made equal.
ghost use Rattle.std.specs.Prelude.{◌≡◌, ◌+◌, ◌<◌, ◌^◌, ◌++◌, ℕ, List, length, map, replicate, OnOk, OnErr};
ghost use Rattle.goal_interner.specs.TableMeaning.{tree_at, AreBelow, Keeps};
ghost use Rattle.goal_terms.specs.Tree.{Tree};
ghost use Rattle.goal_infer.specs.Inference as inferences;
ghost use Rattle.goal_infer.specs.RegionEquations.{AddsRegions, equated};
ghost use Rattle.goal_infer.specs.Resolution.{IsSolved};
ghost use Rattle.goal_lists.specs.Interned.{erased_at};
ghost use Rattle.goal_solver.specs.GoingBack.{GoesBack};
ghost use Rattle.goal_solver.specs.Relating.{ChangesInference, EquatesIdentical, EquatesPair};
ghost use Rattle.goal_solver.specs.State.{kinds_in};

use crate::context::EvalCtxt;
use goal_infer::followed::follow;
use goal_infer::region_equations::equate_regions;
use goal_infer::state::InferState;
use goal_interner::term_nodes::{OutOfMemory, TermId};
use goal_interner::term_table::TermTable;
use goal_terms::answers::VarKind;

impl EvalCtxt<'_> {
    /// Adds the equations of lifetimes for two lists of terms, pair by pair: of a pair that is identical,
    /// lifetimes aside, as it is given, else of one that is so with bindings followed. Where memory is refused,
    /// some of them stay.
    pub(crate) fn equate_lifetimes(
        &mut self,
        left: &[TermId],
        right: &[TermId],
    ) -> Result<(), OutOfMemory>
        requires first { AreBelow (length self.old.terms) left.now }
        requires second { AreBelow (length self.old.terms) right.now }
        ensures kept { Keeps self.old.terms self.new.terms }
        ensures alone { ChangesInference self.old self.new }
        ensures adds { AddsRegions self.old.inference self.new.inference }
        ensures identical { EquatesIdentical self.old (map (tree_at self.old.terms) left.now) (map (tree_at self.old.terms) right.now) result self.new }
        ensures goes_back { GoesBack self.old self.new }
    {
        let count = left.len().min(right.len());
        for i in 0..count {
            self.equate_pair(left[i], right[i])?;
        }
        Ok(())
    }

    /// Adds the equations of lifetimes for two terms that are identical, lifetimes aside, as given or else with
    /// bindings followed. For others there are none. Where memory is refused, inference state is as before.
    fn equate_pair(&mut self, left: TermId, right: TermId) -> Result<(), OutOfMemory>
        requires first { left.0 < length self.old.terms }
        requires second { right.0 < length self.old.terms }
        ensures kept { Keeps self.old.terms self.new.terms }
        ensures alone { ChangesInference self.old self.new }
        ensures adds { AddsRegions self.old.inference self.new.inference }
        ensures identical { EquatesPair self.old left right result self.new }
    {
        if self.terms.same_erased(left, right) {
            return self.equate_identical(left, right);
        }
        let first = follow(&mut self.terms, &self.inference, left)?;
        let second = follow(&mut self.terms, &self.inference, right)?;
        if self.terms.same_erased(first, second) {
            return self.equate_identical(first, second);
        }
        Ok(())
    }

    /// Adds the equations of lifetimes for two terms that are identical, lifetimes aside. Only memory is refused;
    /// then nothing changes.
    fn equate_identical(&mut self, left: TermId, right: TermId) -> Result<(), OutOfMemory>
        requires first { left.0 < length self.old.terms }
        requires second { right.0 < length self.old.terms }
        requires identical { erased_at self.old.terms left ≡ erased_at self.old.terms right }
        ensures alone { self.new ≡ record self.old { inference = self.new.inference } }
        ensures adds { AddsRegions self.old.inference self.new.inference }
        ensures equated { OnOk result (self.new.inference ≡ equated (tree_at self.old.terms left) (tree_at self.old.terms right) self.old.inference) }
        ensures unchanged { OnErr result (self.new ≡ self.old) }
    {
        let before = self.inference.snapshot();
        let added = equate_in_step(
            &self.terms,
            &mut self.inference,
            &mut self.kinds,
            left,
            right,
        );
        if added.is_err() {
            self.inference.rollback(before);
        }
        added
    }
}

/// Adds the equations of lifetimes for two terms that are identical, lifetimes aside, and the kinds of the
/// variables that they bring. Where memory is refused no kind is added, and some of the variables and equations
/// stay.
fn equate_in_step(
    terms: &TermTable,
    inference: &mut InferState,
    kinds: &mut Vec<VarKind>,
    left: TermId,
    right: TermId,
) -> Result<(), OutOfMemory>
    requires first { left.0 < length terms.now }
    requires second { right.0 < length terms.now }
    requires identical { erased_at terms.now left ≡ erased_at terms.now right }
    ensures equated { OnOk result (inference.new ≡ equated (tree_at terms.now left) (tree_at terms.now right) inference.old) }
    ensures adds { AddsRegions inference.old inference.new }
    ensures goes_back { inferences.GoesBack inference.old inference.new }
    ensures solved { (T : List Tree) → IsSolved T inference.old → IsSolved T inference.new }
    ensures in_step { kinds.old.items ≡ kinds_in inference.old.variables → OnOk result (kinds.new.items ≡ kinds_in inference.new.variables) }
    ensures few { OnOk result (length kinds.new.items < 2 ^ 32) }
    ensures unchanged { OnErr result (kinds.new.items ≡ kinds.old.items) }
{
    equate_regions(terms, inference, left, right)?;
    add_region_kinds(kinds, inference.len())
}

/// Lengthens a list of kinds to so many by those of region variables. At 2^32 and where memory is refused
/// nothing changes.
fn add_region_kinds(kinds: &mut Vec<VarKind>, count: usize) -> Result<(), OutOfMemory>
    ensures added { (n : ℕ) → count ≡ length kinds.old.items + n → OnOk result (kinds.new.items ≡ kinds.old.items ++ replicate n VarKind.Region) }
    ensures few { OnOk result (length kinds.new.items < 2 ^ 32) }
    ensures unchanged { OnErr result (kinds.new.items ≡ kinds.old.items) }
{
    if count > u32::MAX as usize {
        return Err(OutOfMemory);
    }
    kinds.resize(count, VarKind::Region)?;
    Ok(())
}
