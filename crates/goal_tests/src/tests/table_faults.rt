//! The faults of tables that no text can make, since it has names and no numbers.
use goal_checks::checked::check_tables;
use goal_program::names::P;
use goal_program::tables::whole_tables;
use goal_program::types::struct_row;
use goal_tables::faults::TableFault;
use goal_tables::rows::Tables;
use goal_terms::ids::{ImplId, TraitId};
use std::alloc::{AllocError, Global};
use std::test::Fail;

/// The tables of the program with an impl of a trait that isn't there.
fn of_an_unknown_trait(alloc: Global) -> Result<Tables, AllocError> {
    let mut tables = whole_tables(alloc)?;
    for row in tables.impls.as_mut_slice() {
        row.trait_id = TraitId(99);
    }
    Ok(tables)
}

/// The tables of the program, where each impl says that one that isn't there is more special.
fn with_an_unknown_more_special_impl(alloc: Global) -> Result<Tables, AllocError> {
    let mut tables = whole_tables(alloc)?;
    for row in tables.impls.as_mut_slice() {
        row.more_special.push(ImplId(99))?;
    }
    Ok(tables)
}

/// The tables of the program without what the last source says.
fn without_a_source(alloc: Global) -> Result<Tables, AllocError> {
    let mut tables = whole_tables(alloc)?;
    let _ = tables.sources.pop();
    Ok(tables)
}

/// The tables of the program with two structs of one id.
fn with_two_structs(alloc: Global) -> Result<Tables, AllocError> {
    let mut tables = whole_tables(alloc)?;
    let row = struct_row(alloc, P, Vec::new(alloc));
    tables.adts.push(row)?;
    Ok(tables)
}

/// The fault for which tables are refused.
fn fault_of(tables: Tables) -> Option<TableFault> {
    check_tables(tables).err()
}

#[test]
fn faults_of_ids_and_sources(rt: HostRuntime) -> Result<(), Fail> {
    let alloc = rt.alloc();
    let unknown = fault_of(of_an_unknown_trait(alloc)?);
    assert_eq!(rt; unknown, Some(TableFault::UnknownItem));
    let unlisted = fault_of(with_an_unknown_more_special_impl(alloc)?);
    assert_eq!(rt; unlisted, Some(TableFault::UnknownItem));
    let missing = fault_of(without_a_source(alloc)?);
    assert_eq!(rt; missing, Some(TableFault::SourceMismatch));
    let doubled = fault_of(with_two_structs(alloc)?);
    assert_eq!(rt; doubled, Some(TableFault::DoubledId));
    Ok(())
}
