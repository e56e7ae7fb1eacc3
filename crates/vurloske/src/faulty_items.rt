//! Where the item stands for whose row tables are refused.
use goal_tables::faults::TableFault;
use goal_tables::rows::{ImplPolarity, ImplRow, InherentRow, TraitRow};
use goal_terms::ids::{ImplId, InherentId, TraitId};
use std::alloc::Global;
use vurloske_ast::ast::{Ast, Position};
use vurloske_items::rows::lower_items;
use vurloske_names::definitions::Definitions;
use vurloske_names::definitions::places::Places;

/// Where the item stands that a fault is about, if its row alone says so.
pub fn faulty_item(
    alloc: Global,
    ast: &Ast,
    definitions: &Definitions,
    fault: TableFault,
) -> Option<Position> {
    let tables = lower_items(alloc, ast, definitions).ok()?;
    let places = &definitions.places;
    match fault {
        TableFault::AutoTrait => trait_place(ast, places, auto_trait(&tables.traits)?),
        TableFault::TraitAliasWithItems => {
            trait_place(ast, places, alias_with_items(&tables.traits)?)
        }
        TableFault::ReservationWithItems => {
            let id = reservation_with_items(&tables.impls, &tables.traits)?;
            impl_place(ast, places, id)
        }
        TableFault::InherentConstWithoutValue => {
            inherent_place(ast, places, const_without_value(&tables.inherent_items)?)
        }
        _ => None,
    }
}

fn auto_trait(rows: &[TraitRow]) -> Option<TraitId> {
    for row in rows {
        if row.is_auto {
            return Some(row.id);
        }
    }
    None
}

fn alias_with_items(rows: &[TraitRow]) -> Option<TraitId> {
    for row in rows {
        if row.is_alias && !row.items.is_empty() {
            return Some(row.id);
        }
    }
    None
}

fn reservation_with_items(impls: &[ImplRow], traits: &[TraitRow]) -> Option<ImplId> {
    for row in impls {
        if is_reservation(row.polarity) && has_items(traits, row.trait_id) {
            return Some(row.id);
        }
    }
    None
}

fn is_reservation(polarity: ImplPolarity) -> bool {
    matches!(polarity, ImplPolarity::Reservation)
}

fn has_items(rows: &[TraitRow], id: TraitId) -> bool {
    for row in rows {
        if row.id == id && !row.items.is_empty() {
            return true;
        }
    }
    false
}

fn const_without_value(rows: &[InherentRow]) -> Option<InherentId> {
    for row in rows {
        if row.is_const && row.value.is_none() {
            return Some(row.id);
        }
    }
    None
}

fn trait_place(ast: &Ast, places: &Places, id: TraitId) -> Option<Position> {
    let place = places.traits.get(id.0 as usize)?;
    Some(ast.items.get(*place)?.at)
}

fn impl_place(ast: &Ast, places: &Places, id: ImplId) -> Option<Position> {
    let place = places.impls.get(id.0 as usize)?;
    Some(ast.items.get(*place)?.at)
}

fn inherent_place(ast: &Ast, places: &Places, id: InherentId) -> Option<Position> {
    let entry = places.inherent_items.get(id.0 as usize)?;
    Some(ast.assoc_items.get(entry.place)?.ident.at)
}
