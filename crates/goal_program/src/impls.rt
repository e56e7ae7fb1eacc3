//! The impls of the program that the rows ask about, their definitions, and which they use.
use crate::names::{
    A, BOX, FOO, FOO_ASSOC, PAIR, PAIR_A, Q, TR, TRAIT, TRAIT_ASSOC, VEC, W, X, Y, Z,
};
use crate::types::{
    one_type, plain_type, projection_of, self_arguments, struct_of, trait_clause, trait_ref,
    two_types,
};
use goal_tables::rows::{Container, DefRow, DefValue, ImplPolarity, ImplRow, Source, SourceRow};
use goal_terms::answers::ParamKind;
use goal_terms::ids::{AdtId, DefId, ImplId, ItemId, TraitId};
use goal_terms::scalars::{IntTy, UintTy};
use goal_terms::terms::{GenericArg, Term, Ty};
use std::alloc::{AllocError, Global};

/// The impls of `Tr` for structs with no parameters, with the structs.
const PLAIN_IMPLS: [(ImplId, AdtId); 5] = [
    (ImplId(3), X),
    (ImplId(4), Y),
    (ImplId(5), Z),
    (ImplId(6), Q),
    (ImplId(7), W),
];

/// What a definition says, `T`, `U` and `V` being its parameters 0 to 2.
#[derive(Clone, Copy)]
enum Value {
    Missing,
    ThreeParams,
    BoxOfParam,
    OwnProjection(AdtId),
    U8,
    Param,
}

/// The definitions, with what holds them, their items, and what they say.
const DEFINITIONS: [(DefId, Container, ItemId, Value); 7] = [
    (
        DefId(0),
        Container::Impl(ImplId(1)),
        TRAIT_ASSOC,
        Value::ThreeParams,
    ),
    (
        DefId(1),
        Container::Impl(ImplId(2)),
        PAIR_A,
        Value::BoxOfParam,
    ),
    (
        DefId(2),
        Container::Impl(ImplId(3)),
        A,
        Value::OwnProjection(X),
    ),
    (DefId(3), Container::Impl(ImplId(5)), A, Value::U8),
    (DefId(4), Container::Impl(ImplId(6)), A, Value::U8),
    (DefId(5), Container::Impl(ImplId(9)), A, Value::Param),
    (DefId(6), Container::Trait(TR), A, Value::Missing),
];

/// The definitions that the impls use for the items of their traits.
const SOURCES: [(ImplId, ItemId, DefId); 9] = [
    (ImplId(0), TRAIT_ASSOC, DefId(0)),
    (ImplId(1), TRAIT_ASSOC, DefId(0)),
    (ImplId(2), PAIR_A, DefId(1)),
    (ImplId(3), A, DefId(2)),
    (ImplId(5), A, DefId(3)),
    (ImplId(6), A, DefId(4)),
    (ImplId(7), A, DefId(6)),
    (ImplId(8), A, DefId(6)),
    (ImplId(9), A, DefId(5)),
];

/// Adds the impls.
pub fn push_impl_rows(alloc: Global, rows: &mut Vec<ImplRow>) -> Result<(), AllocError> {
    push_generic_impls(alloc, rows)?;
    push_plain_impls(alloc, rows)?;
    rows.push(impl_for_str(alloc)?)?;
    rows.push(const_impl_for_vec(alloc)?)?;
    Ok(())
}

/// Adds the impls of `Trait` and of `Pair`.
fn push_generic_impls(alloc: Global, rows: &mut Vec<ImplRow>) -> Result<(), AllocError> {
    rows.push(impl_of_trait_at_i32(alloc)?)?;
    rows.push(impl_of_trait(alloc)?)?;
    rows.push(impl_of_pair(alloc)?)?;
    Ok(())
}

/// A positive impl that is not const and has no where clauses.
pub fn simple_impl(
    alloc: Global,
    id: ImplId,
    trait_id: TraitId,
    params: Vec<ParamKind>,
    trait_args: Vec<GenericArg>,
) -> ImplRow {
    ImplRow {
        id,
        trait_id,
        params,
        trait_args,
        polarity: ImplPolarity::Positive,
        is_const: false,
        guaranteed_unsized: false,
        predicates: Vec::new(alloc),
        const_conditions: Vec::new(alloc),
        more_special: Vec::new(alloc),
    }
}

/// `impl<T> Trait<i32> for Vec<T>`.
fn impl_of_trait_at_i32(alloc: Global) -> Result<ImplRow, AllocError> {
    let params = vec![in alloc; ParamKind::Ty]?;
    let list = struct_of(alloc, VEC, Ty::Param(0))?;
    let args = two_types(alloc, list, Ty::Int(IntTy::I32))?;
    Ok(simple_impl(alloc, ImplId(0), TRAIT, params, args))
}

/// `impl<T, U> Trait<U> for Vec<T>`.
fn impl_of_trait(alloc: Global) -> Result<ImplRow, AllocError> {
    let params = vec![in alloc; ParamKind::Ty, ParamKind::Ty]?;
    let list = struct_of(alloc, VEC, Ty::Param(0))?;
    let args = two_types(alloc, list, Ty::Param(1))?;
    Ok(simple_impl(alloc, ImplId(1), TRAIT, params, args))
}

/// `impl<T> Pair<T> for Vec<T>`.
fn impl_of_pair(alloc: Global) -> Result<ImplRow, AllocError> {
    let params = vec![in alloc; ParamKind::Ty]?;
    let list = struct_of(alloc, VEC, Ty::Param(0))?;
    let args = two_types(alloc, list, Ty::Param(0))?;
    Ok(simple_impl(alloc, ImplId(2), PAIR, params, args))
}

/// Adds the impls of `Tr` for structs with no parameters. That for `Y` is negative, that for `Q` const.
fn push_plain_impls(alloc: Global, rows: &mut Vec<ImplRow>) -> Result<(), AllocError> {
    for (id, self_type) in PLAIN_IMPLS {
        let args = self_arguments(alloc, self_type)?;
        let mut row = simple_impl(alloc, id, TR, Vec::new(alloc), args);
        row.is_const = self_type == Q;
        row.polarity = plain_polarity(self_type);
        rows.push(row)?;
    }
    Ok(())
}

fn plain_polarity(self_type: AdtId) -> ImplPolarity {
    if self_type == Y {
        ImplPolarity::Negative
    } else {
        ImplPolarity::Positive
    }
}

/// `impl Tr for str`, which is known to have no sized self type.
fn impl_for_str(alloc: Global) -> Result<ImplRow, AllocError> {
    let args = one_type(alloc, Ty::Str)?;
    let mut row = simple_impl(alloc, ImplId(8), TR, Vec::new(alloc), args);
    row.guaranteed_unsized = true;
    Ok(row)
}

/// `impl<T> Tr for <T as Foo>::Assoc where T: Foo`. Its header doesn't fix `T`, so no tables with it are
/// accepted.
pub fn projection_impl(alloc: Global) -> Result<ImplRow, AllocError> {
    let params = vec![in alloc; ParamKind::Ty]?;
    let self_type = Ty::Alias(projection_of(alloc, FOO_ASSOC, Ty::Param(0))?);
    let args = one_type(alloc, self_type)?;
    let mut row = simple_impl(alloc, ImplId(10), TR, params, args);
    row.predicates = vec![in alloc; trait_clause(trait_ref(alloc, Ty::Param(0), FOO)?)]?;
    Ok(row)
}

/// `impl<T> const Tr for Vec<T> where T: Tr`, with the const condition `T: Tr`.
fn const_impl_for_vec(alloc: Global) -> Result<ImplRow, AllocError> {
    let params = vec![in alloc; ParamKind::Ty]?;
    let list = struct_of(alloc, VEC, Ty::Param(0))?;
    let args = one_type(alloc, list)?;
    let mut row = simple_impl(alloc, ImplId(9), TR, params, args);
    row.is_const = true;
    row.predicates = vec![in alloc; trait_clause(trait_ref(alloc, Ty::Param(0), TR)?)]?;
    row.const_conditions = vec![in alloc; trait_ref(alloc, Ty::Param(0), TR)?]?;
    Ok(row)
}

/// `impl Tr for Vec<Z>`.
pub fn impl_for_vec_of_z(alloc: Global) -> Result<ImplRow, AllocError> {
    let list = struct_of(alloc, VEC, plain_type(alloc, Z))?;
    let args = one_type(alloc, list)?;
    Ok(simple_impl(alloc, ImplId(21), TR, Vec::new(alloc), args))
}

/// `type A = u16;` of that impl.
pub fn u16_for_vec_of_z(alloc: Global) -> DefRow {
    DefRow {
        id: DefId(21),
        container: Container::Impl(ImplId(21)),
        item: A,
        own_params: Vec::new(alloc),
        value: DefValue::Term(Term::Ty(Ty::Uint(UintTy::U16))),
    }
}

/// Lists that impl as more special in the one for `Vec<T>`.
pub fn list_more_special(rows: &mut Vec<ImplRow>) -> Result<(), AllocError> {
    for row in rows.as_mut_slice() {
        if row.id == ImplId(9) {
            row.more_special.push(ImplId(21))?;
        }
    }
    Ok(())
}

/// Adds the definitions.
pub fn push_definition_rows(alloc: Global, rows: &mut Vec<DefRow>) -> Result<(), AllocError> {
    for (id, container, item, value) in DEFINITIONS {
        rows.push(DefRow {
            id,
            container,
            item,
            own_params: own_params_of(alloc, item)?,
            value: definition_value(alloc, value)?,
        })?;
    }
    Ok(())
}

/// The own parameters of an item's definitions: `Assoc<V>` of `Trait<U>` has one.
fn own_params_of(alloc: Global, item: ItemId) -> Result<Vec<ParamKind>, AllocError> {
    let mut params = Vec::new(alloc);
    if item == TRAIT_ASSOC {
        params.push(ParamKind::Ty)?;
    }
    Ok(params)
}

fn definition_value(alloc: Global, value: Value) -> Result<DefValue, AllocError> {
    let ty = match value {
        Value::Missing => return Ok(DefValue::Missing),
        Value::ThreeParams => {
            Ty::Tuple(vec![in alloc; Ty::Param(0), Ty::Param(1), Ty::Param(2)]?)
        }
        Value::BoxOfParam => struct_of(alloc, BOX, Ty::Param(0))?,
        Value::OwnProjection(id) => Ty::Alias(projection_of(alloc, A, plain_type(alloc, id))?),
        Value::U8 => Ty::Uint(UintTy::U8),
        Value::Param => Ty::Param(0),
    };
    Ok(DefValue::Term(Term::Ty(ty)))
}

/// Adds which definitions the impls use. None is a default.
pub fn push_source_rows(rows: &mut Vec<SourceRow>) -> Result<(), AllocError> {
    for (impl_id, item_id, def_id) in SOURCES {
        rows.push(source_row(impl_id, item_id, def_id))?;
    }
    Ok(())
}

/// That an impl uses a definition for an item, for good.
pub fn source_row(impl_id: ImplId, item_id: ItemId, def_id: DefId) -> SourceRow {
    SourceRow {
        impl_id,
        item_id,
        source: Source::Def {
            def_id,
            is_default: false,
        },
    }
}
