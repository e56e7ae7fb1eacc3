//! The rows of structs, enums and unions.
use crate::rows::{Text, count};
use crate::terms::Lowering;
use goal_tables::rows::{AdtKind, AdtRow, FieldInfo};
use goal_terms::ids::AdtId;
use goal_terms::predicates::TraitRef;
use goal_terms::scalars::UintTy;
use goal_terms::terms::Ty;
use vurloske_ast::ast;
use vurloske_ast::ast::{Adt, Ast, Attr, AttrArg, Run, TermId};
use vurloske_ast::phrase::Phrase;
use vurloske_names::attributes::{args_in_attr, expect_attrs};
use vurloske_names::definitions::places::attrs_at;
use vurloske_names::faults::{ItemFault, wrong_name};

/// The attributes that a struct, an enum or a union may have.
const ATTRS: [&str; 6] = [
    "lang",
    "tail",
    "sized_constraint",
    "discriminant",
    "destruct",
    "field",
];

impl Text<'_> {
    /// Adds the rows of the structs, enums and unions.
    pub(super) fn push_adt_rows(self, rows: &mut Vec<AdtRow>) -> Result<(), ItemFault> {
        for number in 0..count(self.definitions.places.adts.len()) {
            let id = AdtId(number);
            if let Some(node) = self.definitions.places.adt_node(self.ast, id) {
                self.push_adt_row(id, &node, rows)?;
            }
        }
        Ok(())
    }

    fn push_adt_row(self, id: AdtId, node: &Adt, rows: &mut Vec<AdtRow>) -> Result<(), ItemFault> {
        let attrs = attrs_at(self.ast, &self.definitions.places.adts, id.0);
        expect_attrs(self.ast, attrs, &ATTRS)?;
        let mut lowering = self.lowering_of(node.generics);
        let row = lowering.adt_row(id, node, attrs);
        lowering.scope.fault.keep(rows.push(row));
        lowering.scope.fault.result()
    }
}

impl Lowering<'_> {
    fn adt_row(&mut self, id: AdtId, node: &Adt, attrs: Run) -> AdtRow {
        let params = self.scope.param_kinds(self.alloc);
        self.conditions(node.generics);
        let last = self.check_fields(node);
        AdtRow {
            id,
            params,
            kind: adt_kind(node.kind),
            tail: self.tail(attrs, last),
            sized_constraint: self.sized_constraint(attrs, last),
            discriminant: self.discriminant(attrs),
            destruct_conditions: self.destruct_conditions(attrs),
            field_info: self.field_info(attrs),
        }
    }

    /// The type of a struct's last field. A mistake where a field has none.
    fn check_fields(&mut self, node: &Adt) -> Option<TermId> {
        let fields = self.ast.operands(node.fields);
        for field in fields {
            self.ty(*field);
        }
        match node.kind {
            ast::AdtKind::Struct => fields.last().copied(),
            ast::AdtKind::Enum | ast::AdtKind::Union => None,
        }
    }

    /// `#[tail(str)]`, or the last field's type.
    fn tail(&mut self, attrs: Run, last: Option<TermId>) -> Option<Ty> {
        let tail = self.term_of_attr(attrs, "tail").or(last);
        self.optional_ty(tail)
    }

    /// `#[sized_constraint(T)]`, or the last field's type if that has to be sized.
    fn sized_constraint(&mut self, attrs: Run, last: Option<TermId>) -> Option<Ty> {
        match self.term_of_attr(attrs, "sized_constraint") {
            Some(id) => Some(self.ty(id)),
            None => unless_sized(self.optional_ty(last)),
        }
    }

    /// `#[discriminant(u16)]`, or `u8`.
    fn discriminant(&mut self, attrs: Run) -> Ty {
        match self.term_of_attr(attrs, "discriminant") {
            Some(id) => self.ty(id),
            None => Ty::Uint(UintTy::U8),
        }
    }

    /// `#[destruct(T: Destruct, U: Destruct)]`
    fn destruct_conditions(&mut self, attrs: Run) -> Vec<TraitRef> {
        let ast = self.ast;
        let mut conditions = Vec::new(self.alloc);
        if let Some(attr) = ast.attr_named(attrs, "destruct") {
            for arg in args_in_attr(ast, &attr) {
                match arg {
                    AttrArg::Bounds(subject, bounds) => {
                        self.push_trait_refs(*subject, *bounds, &mut conditions);
                    }
                    _ => self.scope.fault.fail(wrong_name(
                        attr.ident,
                        Phrase::ATTRIBUTE_WITH_BOUNDS_OF_TYPES,
                    )),
                }
            }
        }
        conditions
    }

    fn push_trait_refs(&mut self, subject: TermId, bounds: Run, all: &mut Vec<TraitRef>) {
        let ast = self.ast;
        for bound in ast.bounds(bounds) {
            let self_ty = self.ty(subject);
            let trait_ref = self.trait_ref(self_ty, bound.trait_);
            self.scope.fault.keep(all.push(trait_ref));
        }
    }

    /// `#[field(base = T, ty = u16)]`
    fn field_info(&mut self, attrs: Run) -> Option<FieldInfo> {
        let attr = self.ast.attr_named(attrs, "field")?;
        match field_terms(self.ast, &attr) {
            Some((base, ty)) => Some(FieldInfo {
                base: self.ty(base),
                ty: self.ty(ty),
            }),
            None => {
                self.scope.fault.fail(wrong_name(attr.ident, Phrase::FIELD));
                None
            }
        }
    }
}

/// The terms of `base` and of `ty`.
fn field_terms(ast: &Ast, attr: &Attr) -> Option<(TermId, TermId)> {
    match args_in_attr(ast, attr) {
        [AttrArg::Binding(first, base), AttrArg::Binding(second, ty)]
            if ast.name(first.name) == "base" && ast.name(second.name) == "ty" => {
            Some((*base, *ty))
        }
        _ => None,
    }
}

fn adt_kind(written: ast::AdtKind) -> AdtKind {
    match written {
        ast::AdtKind::Struct => AdtKind::Struct,
        ast::AdtKind::Enum => AdtKind::Enum,
        ast::AdtKind::Union => AdtKind::Union,
    }
}

/// What has to be sized for a type to be so. None where the type always is.
fn unless_sized(ty: Option<Ty>) -> Option<Ty> {
    match ty {
        Some(ty) if is_sized(&ty) => None,
        other => other,
    }
}

/// Whether a type is sized whatever its parts are.
fn is_sized(ty: &Ty) -> bool {
    matches!(
        ty,
        Ty::Bool
            | Ty::Char
            | Ty::Int(_)
            | Ty::Uint(_)
            | Ty::Float(_)
            | Ty::Never
            | Ty::Array(_, _)
            | Ty::RawPtr(_, _)
            | Ty::Ref(_, _, _)
            | Ty::FnDef(_, _)
            | Ty::FnPtr(_)
            | Ty::Closure(_, _)
    )
}
