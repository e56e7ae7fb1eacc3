//! The rows of impls of no trait, and of their items.
use crate::rows::{Text, count};
use crate::terms::Lowering;
use goal_tables::rows::{InherentImplRow, InherentRow};
use goal_terms::ids::{InherentId, InherentImplId};
use vurloske_ast::ast::{AssocItem, Impl};
use vurloske_names::attributes::expect_attrs;
use vurloske_names::definitions::places::{InherentEntry, attrs_at};
use vurloske_names::faults::ItemFault;

impl Text<'_> {
    /// Adds the rows of the impls of no trait.
    pub(super) fn push_inherent_impl_rows(
        self,
        rows: &mut Vec<InherentImplRow>,
    ) -> Result<(), ItemFault> {
        for number in 0..count(self.definitions.places.inherent_impls.len()) {
            let id = InherentImplId(number);
            if let Some(node) = self.definitions.places.inherent_impl_node(self.ast, id) {
                self.push_inherent_impl_row(id, &node, rows)?;
            }
        }
        Ok(())
    }

    fn push_inherent_impl_row(
        self,
        id: InherentImplId,
        node: &Impl,
        rows: &mut Vec<InherentImplRow>,
    ) -> Result<(), ItemFault> {
        let attrs = attrs_at(self.ast, &self.definitions.places.inherent_impls, id.0);
        expect_attrs(self.ast, attrs, &[])?;
        let mut lowering = Lowering::of_impl(self.alloc, self.ast, self.definitions, node);
        let row = InherentImplRow {
            id,
            params: lowering.scope.param_kinds(self.alloc),
            self_ty: lowering.ty(node.self_ty),
        };
        lowering.scope.fault.keep(rows.push(row));
        lowering.scope.fault.result()
    }

    /// Adds the rows of the items of impls of no trait.
    pub(super) fn push_inherent_rows(self, rows: &mut Vec<InherentRow>) -> Result<(), ItemFault> {
        for number in 0..count(self.definitions.places.inherent_items.len()) {
            let id = InherentId(number);
            if let Some(node) = self.definitions.places.inherent_node(self.ast, id) {
                self.push_inherent_row(id, &node, rows)?;
            }
        }
        Ok(())
    }

    fn push_inherent_row(
        self,
        id: InherentId,
        node: &AssocItem,
        rows: &mut Vec<InherentRow>,
    ) -> Result<(), ItemFault> {
        let Some(InherentEntry { impl_id, .. }) = self.definitions.places.inherent_entry(id) else {
            return Ok(());
        };
        let Some(impl_node) = self
            .definitions
            .places
            .inherent_impl_node(self.ast, impl_id)
        else {
            return Ok(());
        };
        expect_attrs(self.ast, node.attrs, &[])?;
        let mut lowering = Lowering::of_impl(self.alloc, self.ast, self.definitions, &impl_node);
        let row = lowering.inherent_row(id, impl_id, &impl_node, node);
        lowering.scope.fault.keep(rows.push(row));
        lowering.scope.fault.result()
    }
}

impl Lowering<'_> {
    /// What the impl and then the item itself demand, and what the item is.
    fn inherent_row(
        &mut self,
        id: InherentId,
        impl_id: InherentImplId,
        impl_node: &Impl,
        node: &AssocItem,
    ) -> InherentRow {
        self.declare(node.generics);
        let own_params = self.own_kinds(node.generics.params);
        let mut conditions = self.conditions(impl_node.generics);
        self.generics(node.generics, &mut conditions);
        InherentRow {
            id,
            impl_id,
            is_const: node.is_const,
            own_params,
            predicates: conditions.into_predicates(),
            value: self.optional_value(node.is_const, node.value),
        }
    }
}
