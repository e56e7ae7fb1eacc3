//! Tables that were accepted by the check.
ghost use Rattle.std.specs.Prelude.{◌≡◌, ◌≢◌, IfOk, IfErr};
ghost use Rattle.goal_tables.specs.Faults.{IsChecked, IsSmallestFault};

use crate::checker::Checker;
use goal_tables::faults::TableFault;
use goal_tables::lookup::IndexedTables;
use goal_tables::rows::Tables;
use std::marker::Model;

/// Tables that the check accepted. Only the check makes them.
pub struct CheckedTables {
    indexed: IndexedTables,
}

impl Drop for CheckedTables {
    fn drop(self) {
        let CheckedTables { indexed: _ } = self;
    }
}

impl Model for CheckedTables {
    ghost use Rattle.goal_tables.specs.declared.rows.Tables.{Tables};
    ghost use Rattle.goal_tables.specs.contracts.rows.Tables as held;
    ghost use Rattle.std.specs.Coded.{codes};

    ghost Value = { Tables };

    ghost coded = { Prim.hlevel (codes, held.the_row.coded) };

    ghost use Rattle.goal_tables.specs.Faults.{IsChecked};

    ghost view = { λ a. a.indexed };

    ghost invariant = { λ a. IsChecked a.indexed };
}

impl CheckedTables {
    /// Accepts tables to which no fault applies. It needs no memory, so a refusal names a fault of
    /// the tables: the one of the smallest number.
    #[tactic(auto, using(crate::proofs::FaultLemmas::deciding))]
    pub fn new(indexed: IndexedTables) -> Result<Self, TableFault>
        ensures accepted { IfOk result (λ made. made ≡ indexed) }
        ensures checked { IfOk result IsChecked }
        ensures refused { IfErr result (IsSmallestFault indexed) }
    {
        match Checker::of(&indexed).first_fault() {
            None => Ok(CheckedTables { indexed }),
            Some(fault) => Err(fault),
        }
    }

    /// The rows, with their look-ups.
    pub fn rows(&self) -> &IndexedTables
        ensures rows { result.now ≡ self.now }
        ensures checked { IsChecked self.now }
    {
        &self.indexed
    }
}

/// Checks tables, and gives them their look-ups. The fault is the one of the smallest number that
/// applies, or want of memory for the look-ups.
pub fn check_tables(tables: Tables) -> Result<CheckedTables, TableFault>
    ensures accepted { IfOk result (λ made. made ≡ tables) }
    ensures checked { IfOk result IsChecked }
    ensures refused { IfErr result (λ fault. fault ≢ TableFault.OutOfMemory → IsSmallestFault tables fault) }
{
    let alloc = *tables.traits.allocator();
    match IndexedTables::new(alloc, tables) {
        Ok(indexed) => CheckedTables::new(indexed),
        Err(_) => Err(TableFault::OutOfMemory),
    }
}
