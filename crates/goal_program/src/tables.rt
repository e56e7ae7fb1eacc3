//! The tables of the program that the rows ask about.
use crate::aliases::{inherent_impl_row, inherent_row, opaque_row, push_free_rows};
use crate::impls::{
    impl_for_vec_of_z, list_more_special, projection_impl, push_definition_rows, push_impl_rows,
    push_source_rows, source_row, u16_for_vec_of_z,
};
use crate::names::A;
use crate::traits::{push_item_rows, push_lang_rows, push_trait_rows};
use crate::types::push_adt_rows;
use goal_tables::rows::Tables;
use goal_terms::ids::{DefId, ImplId};
use std::alloc::{AllocError, Global};

/// The whole tables of the program: its traits, impls, aliases and structs, and the lang items.
pub fn whole_tables(alloc: Global) -> Result<Tables, AllocError> {
    let mut tables = Tables::new(alloc);
    push_rows(alloc, &mut tables)?;
    Ok(tables)
}

/// The whole tables with one impl more, whose header is a projection.
pub fn tables_with_projection_impl(alloc: Global) -> Result<Tables, AllocError> {
    let mut tables = whole_tables(alloc)?;
    push_projection_impl(alloc, &mut tables)?;
    Ok(tables)
}

/// The whole tables with one impl more, for `Vec<Z>`. The impl of the same trait for `Vec<T>` lists it as more special.
pub fn tables_with_specialized_impl(alloc: Global) -> Result<Tables, AllocError> {
    let mut tables = whole_tables(alloc)?;
    push_more_special_impl(alloc, &mut tables)?;
    Ok(tables)
}

fn push_rows(alloc: Global, tables: &mut Tables) -> Result<(), AllocError> {
    push_traits(alloc, tables)?;
    push_impls(alloc, tables)?;
    push_aliases(alloc, tables)?;
    push_adt_rows(alloc, &mut tables.adts)
}

/// Adds the traits, their items, and the lang items.
fn push_traits(alloc: Global, tables: &mut Tables) -> Result<(), AllocError> {
    push_trait_rows(alloc, &mut tables.traits)?;
    push_item_rows(alloc, &mut tables.items)?;
    push_lang_rows(&mut tables.lang_items)
}

/// Adds the impls, their definitions, and which of them they use.
fn push_impls(alloc: Global, tables: &mut Tables) -> Result<(), AllocError> {
    push_impl_rows(alloc, &mut tables.impls)?;
    push_definition_rows(alloc, &mut tables.definitions)?;
    push_source_rows(&mut tables.sources)
}

/// Adds the aliases that no trait has.
fn push_aliases(alloc: Global, tables: &mut Tables) -> Result<(), AllocError> {
    push_free_rows(alloc, &mut tables.free_aliases)?;
    tables.inherent_impls.push(inherent_impl_row(alloc)?)?;
    tables.inherent_items.push(inherent_row(alloc)?)?;
    tables.opaque_types.push(opaque_row(alloc))?;
    Ok(())
}

/// Adds an impl whose header is a projection.
fn push_projection_impl(alloc: Global, tables: &mut Tables) -> Result<(), AllocError> {
    tables.impls.push(projection_impl(alloc)?)?;
    tables.sources.push(source_row(ImplId(10), A, DefId(6)))?;
    Ok(())
}

/// Adds an impl for `Vec<Z>`, and lists it in the one for `Vec<T>`.
fn push_more_special_impl(alloc: Global, tables: &mut Tables) -> Result<(), AllocError> {
    list_more_special(&mut tables.impls)?;
    tables.impls.push(impl_for_vec_of_z(alloc)?)?;
    tables.definitions.push(u16_for_vec_of_z(alloc))?;
    tables.sources.push(source_row(ImplId(21), A, DefId(21)))?;
    Ok(())
}
