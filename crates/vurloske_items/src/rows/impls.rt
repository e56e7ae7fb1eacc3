//! The rows of impls of traits.
use crate::rows::{Text, count};
use crate::terms::Lowering;
use goal_tables::rows::{ImplPolarity, ImplRow};
use goal_terms::ids::{ImplId, TraitId};
use goal_terms::predicates::TraitRef;
use vurloske_ast::ast::{Ast, Impl, Run, Segment};
use vurloske_ast::phrase::Phrase;
use vurloske_names::attributes::{args_in_attr, expect_attrs, name_in_arg};
use vurloske_names::definitions::places::{Places, attrs_at};
use vurloske_names::faults::{ItemFault, wrong_name};

impl Text<'_> {
    /// Adds the rows of the impls of traits.
    pub(super) fn push_impl_rows(self, rows: &mut Vec<ImplRow>) -> Result<(), ItemFault> {
        for number in 0..count(self.definitions.places.impls.len()) {
            let id = ImplId(number);
            if let Some(node) = self.definitions.places.impl_node(self.ast, id) {
                self.push_impl_row(id, &node, rows)?;
            }
        }
        Ok(())
    }

    fn push_impl_row(
        self,
        id: ImplId,
        node: &Impl,
        rows: &mut Vec<ImplRow>,
    ) -> Result<(), ItemFault> {
        let Some(trait_) = node.trait_ else {
            return Ok(());
        };
        let trait_id = self.trait_named(trait_)?;
        self.expect_impl_attrs(node, trait_, id)?;
        let attrs = attrs_at(self.ast, &self.definitions.places.impls, id.0);
        let more_special = self.more_special(attrs)?;
        let mut lowering = Lowering::of_impl(self.alloc, self.ast, self.definitions, node);
        let mut row = lowering.impl_row(id, trait_id, node, trait_);
        row.polarity = polarity(self.ast, &self.definitions.places, id, node);
        row.guaranteed_unsized = self.ast.has_attr(attrs, "guaranteed_unsized");
        row.more_special = more_special;
        lowering.scope.fault.keep(rows.push(row));
        lowering.scope.fault.result()
    }

    /// The impls that `#[more_special(one, other)]` names, if it stands there.
    fn more_special(self, attrs: Run) -> Result<Vec<ImplId>, ItemFault> {
        let mut listed = Vec::new(self.alloc);
        if let Some(attr) = self.ast.attr_named(attrs, "more_special") {
            for arg in args_in_attr(self.ast, &attr) {
                let Some(name) = name_in_arg(self.ast, arg) else {
                    return Err(wrong_name(attr.ident, Phrase::NAME_OF_AN_IMPL));
                };
                listed.push(self.impl_named(name)?)?;
            }
        }
        Ok(listed)
    }

    /// A mistake where an impl has an attribute that no impl has, or is both negative and a reservation.
    fn expect_impl_attrs(self, node: &Impl, trait_: Segment, id: ImplId) -> Result<(), ItemFault> {
        let attrs = attrs_at(self.ast, &self.definitions.places.impls, id.0);
        expect_attrs(
            self.ast,
            attrs,
            &["name", "more_special", "reservation", "guaranteed_unsized"],
        )?;
        if node.is_negative && self.ast.has_attr(attrs, "reservation") {
            return Err(wrong_name(trait_.ident, Phrase::RESERVATION_WITHOUT_NOT));
        }
        Ok(())
    }
}

impl Lowering<'_> {
    /// The row of a positive impl.
    fn impl_row(&mut self, id: ImplId, trait_id: TraitId, node: &Impl, trait_: Segment) -> ImplRow {
        let params = self.scope.param_kinds(self.alloc);
        let self_ty = self.ty(node.self_ty);
        let TraitRef { def_id: _, args } = self.trait_ref(self_ty, trait_);
        let (predicates, const_conditions) = self.conditions(node.generics).into_parts();
        ImplRow {
            id,
            trait_id,
            params,
            trait_args: args,
            polarity: ImplPolarity::Positive,
            is_const: node.is_const,
            guaranteed_unsized: false,
            predicates,
            const_conditions,
            more_special: Vec::new(self.alloc),
        }
    }
}

/// Whether an impl says that its trait holds.
pub(super) fn polarity(ast: &Ast, places: &Places, id: ImplId, node: &Impl) -> ImplPolarity {
    if node.is_negative {
        return ImplPolarity::Negative;
    }
    if ast.has_attr(attrs_at(ast, &places.impls, id.0), "reservation") {
        ImplPolarity::Reservation
    } else {
        ImplPolarity::Positive
    }
}
