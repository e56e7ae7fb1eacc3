//! The free aliases, the inherent item and the opaque type of the program that the rows ask about.
use crate::names::{FREE_A, FREE_B, FREE_C, FREE_F, HID, INHERENT_I, TR, VEC};
use crate::types::{struct_of, trait_clause, trait_ref};
use goal_tables::rows::{FreeRow, InherentImplRow, InherentRow, OpaqueRow};
use goal_terms::answers::ParamKind;
use goal_terms::ids::{FreeId, InherentImplId};
use goal_terms::scalars::UintTy;
use goal_terms::terms::{Term, Ty};
use std::alloc::{AllocError, Global};

/// Adds the free aliases.
pub fn push_free_rows(alloc: Global, rows: &mut Vec<FreeRow>) -> Result<(), AllocError> {
    rows.push(list_alias(alloc, FREE_A)?)?;
    rows.push(bounded_alias(alloc)?)?;
    rows.push(free_type(alloc, FREE_F, Ty::Uint(UintTy::U8)))?;
    rows.push(free_const(alloc, FREE_C))?;
    Ok(())
}

/// A free type alias with no parameters.
pub fn free_type(alloc: Global, id: FreeId, ty: Ty) -> FreeRow {
    FreeRow {
        id,
        params: Vec::new(alloc),
        is_const: false,
        predicates: Vec::new(alloc),
        value: Some(Term::Ty(ty)),
    }
}

/// A free constant with no parameters and no value.
fn free_const(alloc: Global, id: FreeId) -> FreeRow {
    FreeRow {
        id,
        params: Vec::new(alloc),
        is_const: true,
        predicates: Vec::new(alloc),
        value: None,
    }
}

/// `type A<T> = Vec<T>`, under an id.
fn list_alias(alloc: Global, id: FreeId) -> Result<FreeRow, AllocError> {
    let list = struct_of(alloc, VEC, Ty::Param(0))?;
    let mut row = free_type(alloc, id, list);
    row.params = vec![in alloc; ParamKind::Ty]?;
    Ok(row)
}

/// `type B<T> = Vec<T> where T: Tr`.
fn bounded_alias(alloc: Global) -> Result<FreeRow, AllocError> {
    let mut row = list_alias(alloc, FREE_B)?;
    row.predicates = vec![in alloc; trait_clause(trait_ref(alloc, Ty::Param(0), TR)?)]?;
    Ok(row)
}

/// The inherent impl `impl<T> Vec<T>`.
pub fn inherent_impl_row(alloc: Global) -> Result<InherentImplRow, AllocError> {
    Ok(InherentImplRow {
        id: InherentImplId(0),
        params: vec![in alloc; ParamKind::Ty]?,
        self_ty: struct_of(alloc, VEC, Ty::Param(0))?,
    })
}

/// The inherent item `type I = (T, T)`.
pub fn inherent_row(alloc: Global) -> Result<InherentRow, AllocError> {
    let pair = Ty::Tuple(vec![in alloc; Ty::Param(0), Ty::Param(0)]?);
    Ok(InherentRow {
        id: INHERENT_I,
        impl_id: InherentImplId(0),
        is_const: false,
        own_params: Vec::new(alloc),
        predicates: Vec::new(alloc),
        value: Some(Term::Ty(pair)),
    })
}

/// The opaque type `Hid`, whose hidden type is `u8`.
pub fn opaque_row(alloc: Global) -> OpaqueRow {
    OpaqueRow {
        id: HID,
        params: Vec::new(alloc),
        is_local: false,
        hidden: Ty::Uint(UintTy::U8),
        typeck_hidden: Ty::Uint(UintTy::U8),
        bounds: Vec::new(alloc),
        const_bounds: None,
    }
}
