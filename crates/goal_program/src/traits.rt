//! The traits of the program that the rows ask about, their items, and the lang items.
use crate::names::{
    A, BASE, CLONE, COPY, DESTRUCT, DISCRIMINANT, DISCRIMINANT_KIND, DYN_METADATA, FIELD,
    FIELD_TYPE, FN, FN_MUT, FN_ONCE, FN_PTR, FOO, FOO_ASSOC, METADATA, OUTPUT, OWN, OWN_B, PAIR,
    PAIR_A, POINTEE, SIZED, TR, TRAIT, TRAIT_ASSOC, TUPLE,
};
use crate::types::{trait_clause, trait_ref};
use goal_tables::rows::{ItemRow, TraitRow};
use goal_terms::answers::ParamKind;
use goal_terms::ids::{ItemId, TraitId};
use goal_terms::lang::{LangItem, LangRow, LangTarget};
use goal_terms::predicates::Clause;
use goal_terms::terms::Ty;
use std::alloc::{AllocError, Global};

/// The parameters of a trait with a self type alone.
const SELF_ALONE: &[ParamKind] = &[ParamKind::Ty];

/// The parameters of a trait with a self type and one more type.
const SELF_AND_TYPE: &[ParamKind] = &[ParamKind::Ty, ParamKind::Ty];

/// The traits, with their parameters.
const TRAITS: [(TraitId, &[ParamKind]); 17] = [
    (SIZED, SELF_ALONE),
    (COPY, SELF_ALONE),
    (CLONE, SELF_ALONE),
    (FN, SELF_AND_TYPE),
    (FN_MUT, SELF_AND_TYPE),
    (FN_ONCE, SELF_AND_TYPE),
    (FN_PTR, SELF_ALONE),
    (TUPLE, SELF_ALONE),
    (POINTEE, SELF_ALONE),
    (DISCRIMINANT_KIND, SELF_ALONE),
    (DESTRUCT, SELF_ALONE),
    (FIELD, SELF_ALONE),
    (TR, SELF_ALONE),
    (TRAIT, SELF_AND_TYPE),
    (PAIR, SELF_AND_TYPE),
    (OWN, SELF_ALONE),
    (FOO, SELF_ALONE),
];

/// The items, with their traits and their own parameters.
const ITEMS: [(ItemId, TraitId, &[ParamKind]); 10] = [
    (OUTPUT, FN_ONCE, &[]),
    (METADATA, POINTEE, &[]),
    (DISCRIMINANT, DISCRIMINANT_KIND, &[]),
    (BASE, FIELD, &[]),
    (FIELD_TYPE, FIELD, &[]),
    (A, TR, &[]),
    (TRAIT_ASSOC, TRAIT, &[ParamKind::Ty]),
    (PAIR_A, PAIR, &[]),
    (OWN_B, OWN, &[]),
    (FOO_ASSOC, FOO, &[]),
];

/// The lang items, with what they name.
const LANG_ITEMS: [(LangItem, LangTarget); 18] = [
    (LangItem::Sized, LangTarget::Trait(SIZED)),
    (LangItem::Copy, LangTarget::Trait(COPY)),
    (LangItem::Clone, LangTarget::Trait(CLONE)),
    (LangItem::Fn, LangTarget::Trait(FN)),
    (LangItem::FnMut, LangTarget::Trait(FN_MUT)),
    (LangItem::FnOnce, LangTarget::Trait(FN_ONCE)),
    (LangItem::FnPtr, LangTarget::Trait(FN_PTR)),
    (LangItem::Tuple, LangTarget::Trait(TUPLE)),
    (LangItem::Pointee, LangTarget::Trait(POINTEE)),
    (
        LangItem::DiscriminantKind,
        LangTarget::Trait(DISCRIMINANT_KIND),
    ),
    (LangItem::Destruct, LangTarget::Trait(DESTRUCT)),
    (LangItem::Field, LangTarget::Trait(FIELD)),
    (LangItem::Output, LangTarget::Item(OUTPUT)),
    (LangItem::Metadata, LangTarget::Item(METADATA)),
    (LangItem::Discriminant, LangTarget::Item(DISCRIMINANT)),
    (LangItem::Base, LangTarget::Item(BASE)),
    (LangItem::FieldType, LangTarget::Item(FIELD_TYPE)),
    (LangItem::DynMetadata, LangTarget::Adt(DYN_METADATA)),
];

/// Adds the traits. `Tr` alone allows const, and none is an alias.
pub fn push_trait_rows(alloc: Global, rows: &mut Vec<TraitRow>) -> Result<(), AllocError> {
    for (id, params) in TRAITS {
        rows.push(trait_row(alloc, id, params)?)?;
    }
    Ok(())
}

fn trait_row(alloc: Global, id: TraitId, params: &[ParamKind]) -> Result<TraitRow, AllocError> {
    Ok(TraitRow {
        id,
        params: params.to_vec(alloc)?,
        allows_const: id == TR,
        is_auto: false,
        is_alias: false,
        predicates: Vec::new(alloc),
        const_conditions: Vec::new(alloc),
        items: items_of(alloc, id)?,
    })
}

fn items_of(alloc: Global, id: TraitId) -> Result<Vec<ItemId>, AllocError> {
    let mut items = Vec::new(alloc);
    for (item, trait_id, _) in ITEMS {
        if trait_id == id {
            items.push(item)?;
        }
    }
    Ok(items)
}

/// Adds the items. All are types, and none has where clauses of its own.
pub fn push_item_rows(alloc: Global, rows: &mut Vec<ItemRow>) -> Result<(), AllocError> {
    for (id, trait_id, own_params) in ITEMS {
        rows.push(ItemRow {
            id,
            trait_id,
            is_const: false,
            own_params: own_params.to_vec(alloc)?,
            own_predicates: Vec::new(alloc),
            bounds: bounds_of(alloc, id)?,
            const_bounds: None,
        })?;
    }
    Ok(())
}

/// The bounds of an item: `B: Tr` of `Own::B`, and none of the others. Parameter 1 is the item.
fn bounds_of(alloc: Global, id: ItemId) -> Result<Vec<Clause>, AllocError> {
    let mut bounds = Vec::new(alloc);
    if id == OWN_B {
        bounds.push(trait_clause(trait_ref(alloc, Ty::Param(1), TR)?))?;
    }
    Ok(bounds)
}

/// Adds the lang items.
pub fn push_lang_rows(rows: &mut Vec<LangRow>) -> Result<(), AllocError> {
    for (item, target) in LANG_ITEMS {
        rows.push(LangRow { item, target })?;
    }
    Ok(())
}
