//! The rows of the items of traits.
use crate::rows::conditions::const_bounds;
use crate::rows::{Text, count};
use crate::terms::Lowering;
use goal_tables::rows::ItemRow;
use goal_terms::ids::{ItemId, TraitId};
use vurloske_ast::ast::AssocItem;
use vurloske_names::attributes::expect_attrs;
use vurloske_names::definitions::places::ItemEntry;
use vurloske_names::faults::ItemFault;

impl Text<'_> {
    /// Adds the rows of the items of traits.
    pub(super) fn push_item_rows(self, rows: &mut Vec<ItemRow>) -> Result<(), ItemFault> {
        for number in 0..count(self.definitions.places.items.len()) {
            let id = ItemId(number);
            if let Some(node) = self.definitions.places.item_node(self.ast, id) {
                self.push_item_row(id, &node, rows)?;
            }
        }
        Ok(())
    }

    fn push_item_row(
        self,
        id: ItemId,
        node: &AssocItem,
        rows: &mut Vec<ItemRow>,
    ) -> Result<(), ItemFault> {
        let Some(ItemEntry { trait_id, .. }) = self.definitions.places.item_entry(id) else {
            return Ok(());
        };
        expect_attrs(self.ast, node.attrs, &["lang", "evaluated"])?;
        let mut lowering = Lowering::of_trait(self.alloc, self.ast, self.definitions, trait_id);
        let row = lowering.item_row(id, trait_id, node);
        lowering.scope.fault.keep(rows.push(row));
        lowering.scope.fault.result()
    }
}

impl Lowering<'_> {
    fn item_row(&mut self, id: ItemId, trait_id: TraitId, node: &AssocItem) -> ItemRow {
        self.declare(node.generics);
        let own_params = self.own_kinds(node.generics.params);
        let (own_predicates, conditions) = self.conditions(node.generics).into_parts();
        let (bounds, implied) = self.alias_bounds(node.bounds, node.ident.at);
        ItemRow {
            id,
            trait_id,
            is_const: node.is_const,
            own_params,
            own_predicates,
            bounds,
            const_bounds: const_bounds(implied, conditions),
        }
    }
}
