//! What a context records: opaque accesses and delayed faults, each once, in the order of first entry.
ghost use Rattle.std.specs.Prelude.{◌≡◌, ◌⊎◌, ◌↔◌, true, take, OnOk, OnErr, IsOkUnless};
ghost use Rattle.std.specs.List.{All, Contains};
ghost use Rattle.goal_terms.specs.declared.answers.DelayedFault.{DelayedFault as Delayed};
ghost use Rattle.goal_terms.specs.declared.answers.OpaqueAccess.{OpaqueAccess as Access};
ghost use Rattle.goal_lists.specs.Causes.{IsFaultCaused, is_missing};
ghost use Rattle.goal_solver.specs.Accesses.{RecordsCausedFaults, uncaused, uncaused_faults};
ghost use Rattle.goal_eval.specs.Entering.{EntersAtMost};
ghost use Rattle.goal_solver.specs.Added.{RecordsAccess, RecordsFault};
ghost use Rattle.goal_solver.specs.GoingBack.{GoesBack};
ghost use Rattle.goal_solver.specs.Stored.{IsSet};

use crate::context::EvalCtxt;
use crate::context::respond::since;
use crate::faults::Fault;
use goal_checks::checked::CheckedTables;
use goal_eval::eval::effects::Effects;
use goal_eval::eval::entering::{enter_access, enter_fault};
use goal_eval::eval::outcomes::Stop;
use goal_eval::eval::region_constraints::RegionConstraints;
use goal_interner::term_nodes::OutOfMemory;
use goal_tables::rows::DefValue;
use goal_terms::answers::{DelayedFault, OpaqueAccess};

impl EvalCtxt<'_> {
    /// What the answers so far would have read of another typing mode, each access once, in the order
    /// of first entry. It takes no memory.
    pub fn opaque_accesses(&self) -> &[OpaqueAccess]
        ensures recorded { result.now ≡ self.now.accesses }
        ensures once { IsSet result.now }
    {
        self.accesses.as_slice()
    }

    /// The faults of the checked program that were met so far, each once, in the order of first entry.
    /// It takes no memory.
    pub fn delayed_faults(&self) -> &[DelayedFault]
        ensures recorded { result.now ≡ self.now.delayed_faults }
        ensures once { IsSet result.now }
    {
        self.delayed_faults.as_slice()
    }

    /// Records an access. Only memory is refused; then nothing changes.
    pub(crate) fn record_access(&mut self, access: OpaqueAccess) -> Result<(), Fault>
        ensures recorded { OnOk result (RecordsAccess access self.old self.new) }
        ensures unchanged { OnErr result (self.new ≡ self.old) }
        ensures goes_back { GoesBack self.old self.new }
        ensures only_memory { IsOkUnless result Fault.OutOfMemory }
    {
        if enter_access(&mut self.accesses, access).is_err() {
            return Err(Fault::OutOfMemory);
        }
        Ok(())
    }

    /// Records what an evaluation met, in its order. Only memory is refused; then some of it may be recorded.
    pub(crate) fn record_effects(&mut self, effects: &Effects) -> Result<(), Stop>
        ensures listed { (a : Access) → Contains self.new.accesses a → Contains self.old.accesses a ⊎ Contains effects.now.accesses.items a }
        ensures faults { All (IsFaultCaused self.old.tables) effects.now.delayed_faults.items → RecordsCausedFaults self.old self.new }
        ensures unchanged { self.new ≡ record self.old { accesses = self.new.accesses; delayed_faults = self.new.delayed_faults } }
        ensures goes_back { GoesBack self.old self.new }
        ensures only_memory { IsOkUnless result Stop.OutOfMemory }
    {
        self.record_accesses(&effects.accesses)?;
        self.record_faults(&effects.delayed_faults)
    }

    /// Records what an evaluation met, as `record_effects` does, and hands on what it lists of lifetimes.
    pub(crate) fn record_listed(
        &mut self,
        effects: &Effects,
        listed: &mut RegionConstraints,
    ) -> Result<(), Stop>
        ensures listed { (a : Access) → Contains self.new.accesses a → Contains self.old.accesses a ⊎ Contains effects.now.accesses.items a }
        ensures faults { All (IsFaultCaused self.old.tables) effects.now.delayed_faults.items → RecordsCausedFaults self.old self.new }
        ensures unchanged { self.new ≡ record self.old { accesses = self.new.accesses; delayed_faults = self.new.delayed_faults } }
        ensures goes_back { GoesBack self.old self.new }
        ensures only_memory { IsOkUnless result Stop.OutOfMemory }
    {
        self.record_effects(effects)?;
        effects.list_regions(listed)?;
        Ok(())
    }

    /// Records the accesses that an evaluation met, in their order. Only memory is refused; then some of them
    /// may be recorded.
    fn record_accesses(&mut self, accesses: &[OpaqueAccess]) -> Result<(), Stop>
        ensures listed { (a : Access) → Contains self.new.accesses a → Contains self.old.accesses a ⊎ Contains accesses.now a }
        ensures unchanged { self.new ≡ record self.old { accesses = self.new.accesses } }
        ensures goes_back { GoesBack self.old self.new }
        ensures only_memory { IsOkUnless result Stop.OutOfMemory }
    {
        for access in accesses {
            self.meet_access(*access)?;
        }
        Ok(())
    }

    /// Records an access that an evaluation met, as `record_access` does.
    pub(crate) fn meet_access(&mut self, access: OpaqueAccess) -> Result<(), Stop>
        ensures recorded { OnOk result (RecordsAccess access self.old self.new) }
        ensures listed { (a : Access) → Contains self.new.accesses a → Contains self.old.accesses a ⊎ (access ≡ a) }
        ensures unchanged { self.new ≡ record self.old { accesses = self.new.accesses } }
        ensures goes_back { GoesBack self.old self.new }
        ensures only_memory { IsOkUnless result Stop.OutOfMemory }
    {
        let Ok(()) = self.record_access(access) else {
            return Err(Stop::OutOfMemory);
        };
        Ok(())
    }

    /// Records a delayed fault. Only memory is refused; then nothing changes.
    pub(crate) fn record_fault(&mut self, fault: DelayedFault) -> Result<(), Fault>
        ensures recorded { OnOk result (RecordsFault fault self.old self.new) }
        ensures unchanged { OnErr result (self.new ≡ self.old) }
        ensures goes_back { GoesBack self.old self.new }
        ensures only_memory { IsOkUnless result Fault.OutOfMemory }
    {
        if enter_fault(&mut self.delayed_faults, fault).is_err() {
            return Err(Fault::OutOfMemory);
        }
        Ok(())
    }

    /// Records a delayed fault that a run or an evaluation met, as `record_fault` does.
    pub(crate) fn meet_fault(&mut self, fault: DelayedFault) -> Result<(), Stop>
        ensures recorded { OnOk result (Contains self.new.delayed_faults fault) }
        ensures entered { EntersAtMost fault self.old.delayed_faults self.new.delayed_faults }
        ensures listed { (f : Delayed) → Contains self.new.delayed_faults f → Contains self.old.delayed_faults f ⊎ (fault ≡ f) }
        ensures unchanged { self.new ≡ record self.old { delayed_faults = self.new.delayed_faults } }
        ensures goes_back { GoesBack self.old self.new }
        ensures only_memory { IsOkUnless result Stop.OutOfMemory }
    {
        let Ok(()) = self.record_fault(fault) else {
            return Err(Stop::OutOfMemory);
        };
        Ok(())
    }

    /// Records the delayed faults that an evaluation met, in their order. Only memory is refused; then some of
    /// them may be recorded.
    fn record_faults(&mut self, delayed_faults: &[DelayedFault]) -> Result<(), Stop>
        ensures recorded { OnOk result (All (Contains self.new.delayed_faults) delayed_faults.now) }
        ensures faults { All (IsFaultCaused self.old.tables) delayed_faults.now → RecordsCausedFaults self.old self.new }
        ensures unchanged { self.new ≡ record self.old { delayed_faults = self.new.delayed_faults } }
        ensures goes_back { GoesBack self.old self.new }
        ensures only_memory { IsOkUnless result Stop.OutOfMemory }
    {
        for fault in delayed_faults {
            self.meet_fault(*fault)?;
        }
        Ok(())
    }

    /// Lets go of the delayed faults behind the first `count`, if one of those has no cause in the tables. It takes
    /// no memory.
    pub(crate) fn keep_caused_faults(&mut self, count: usize)
        ensures unchanged { self.new ≡ record self.old { delayed_faults = self.new.delayed_faults } }
        ensures kept { take count self.new.delayed_faults ≡ take count self.old.delayed_faults }
        ensures caused { uncaused_faults self.new ≡ uncaused self.old.tables (take count self.old.delayed_faults) }
    {
        if !are_caused(self.tables, since(self.delayed_faults.as_slice(), count)) {
            self.delayed_faults.truncate(count);
        }
    }
}

/// Whether each of some delayed faults has its cause in the tables.
fn are_caused(tables: &CheckedTables, faults: &[DelayedFault]) -> bool
    ensures { result ≡ true → All (IsFaultCaused tables.now) faults.now }
{
    for fault in faults {
        if !is_caused(tables, *fault) {
            return false;
        }
    }
    true
}

/// Whether a delayed fault has its cause in the tables.
fn is_caused(tables: &CheckedTables, fault: DelayedFault) -> bool
    ensures { result ≡ true → IsFaultCaused tables.now fault }
{
    let rows = tables.rows();
    match fault {
        DelayedFault::MissingItem(id) => match rows.definition_row(id) {
            None => false,
            Some(row) => is_missing(&row.value),
        },
        DelayedFault::AutoTrait(id) => match rows.trait_row(id) {
            None => false,
            Some(row) => row.is_auto,
        },
    }
}

/// Whether a definition has no value.
fn is_missing(value: &DefValue) -> bool
    ensures { result ≡ is_missing value.now }
{
    matches!(value, DefValue::Missing)
}
