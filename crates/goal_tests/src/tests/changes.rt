//! Changes of the program's tables as constant data, and the tables that they make.
use crate::tests::sketches::{ClauseSketch, clause_of};
use goal_program::tables::whole_tables;
use goal_tables::rows::Tables;
use goal_terms::ids::ImplId;
use std::alloc::{AllocError, Global};

/// A change of tables: an impl has a where clause more.
pub struct Change(pub ImplId, pub ClauseSketch);

/// The tables of the program after changes.
pub fn changed_tables(alloc: Global, changes: &[Change]) -> Result<Tables, AllocError> {
    let mut tables = whole_tables(alloc)?;
    for Change(id, sketch) in changes {
        add_clause(alloc, &mut tables, *id, sketch)?;
    }
    Ok(tables)
}

/// Adds a where clause to an impl.
fn add_clause(
    alloc: Global,
    tables: &mut Tables,
    id: ImplId,
    sketch: &ClauseSketch,
) -> Result<(), AllocError> {
    for row in tables.impls.as_mut_slice() {
        if row.id == id {
            row.predicates.push(clause_of(alloc, sketch)?)?;
        }
    }
    Ok(())
}
