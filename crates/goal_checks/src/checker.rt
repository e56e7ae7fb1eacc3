//! What tables and goals are checked by.
ghost use Rattle.std.specs.Prelude.{◌≡◌};

use goal_tables::lookup::IndexedTables;
use std::marker::Model;

/// Tables, as their rows and the goals over them are checked.
#[derive(Drop)]
pub struct Checker<'t> {
    pub(crate) rows: &'t IndexedTables,
}

impl<'t> Model for Checker<'t> {
    ghost use Rattle.goal_tables.specs.declared.rows.Tables.{Tables};
    ghost use Rattle.goal_tables.specs.contracts.rows.Tables as held;
    ghost use Rattle.std.specs.Coded.{codes};

    ghost Value = { Tables };

    ghost coded = { Prim.hlevel (codes, held.the_row.coded) };

    ghost view = { λ c. c.rows.now };
}

impl<'t> Checker<'t> {
    /// What checks by these tables.
    pub fn of(rows: &'t IndexedTables) -> Self
        ensures { result ≡ rows.now }
    {
        Checker { rows }
    }
}
