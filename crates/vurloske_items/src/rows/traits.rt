//! The rows of traits.
use crate::clauses::{Conditions, MaybeConst};
use crate::rows::{Text, count};
use crate::terms::Lowering;
use goal_tables::rows::TraitRow;
use goal_terms::ids::{ItemId, TraitId};
use goal_terms::terms::Ty;
use vurloske_ast::ast::Trait;
use vurloske_names::attributes::expect_attrs;
use vurloske_names::definitions::places::attrs_at;
use vurloske_names::faults::ItemFault;

impl Text<'_> {
    /// Adds the rows of the traits.
    pub(super) fn push_trait_rows(self, rows: &mut Vec<TraitRow>) -> Result<(), ItemFault> {
        for number in 0..count(self.definitions.places.traits.len()) {
            let id = TraitId(number);
            if let Some(node) = self.definitions.places.trait_node(self.ast, id) {
                self.push_trait_row(id, &node, rows)?;
            }
        }
        Ok(())
    }

    fn push_trait_row(
        self,
        id: TraitId,
        node: &Trait,
        rows: &mut Vec<TraitRow>,
    ) -> Result<(), ItemFault> {
        let attrs = attrs_at(self.ast, &self.definitions.places.traits, id.0);
        expect_attrs(self.ast, attrs, &["lang"])?;
        let mut lowering = Lowering::of_trait(self.alloc, self.ast, self.definitions, id);
        let row = lowering.trait_row(id, node);
        lowering.scope.fault.keep(rows.push(row));
        lowering.scope.fault.result()
    }
}

impl Lowering<'_> {
    fn trait_row(&mut self, id: TraitId, node: &Trait) -> TraitRow {
        let params = self.scope.param_kinds(self.alloc);
        let (predicates, const_conditions) = self.aliased_bounds(node).into_parts();
        TraitRow {
            id,
            params,
            allows_const: node.is_const,
            is_auto: node.is_auto,
            is_alias: node.is_alias,
            predicates,
            const_conditions,
            items: self.item_ids(id, node),
        }
    }

    /// What a trait alias stands for: its bounds of the self type, then what else it says. Nothing of
    /// another trait, whose parameters are only checked.
    fn aliased_bounds(&mut self, node: &Trait) -> Conditions {
        if !node.is_alias {
            self.conditions(node.generics);
            return Conditions::new(self.alloc, MaybeConst::Condition);
        }
        let mut conditions = self.conditions_of_bounds(&Ty::Param(0), node.bounds);
        self.generics(node.generics, &mut conditions);
        conditions
    }

    /// The items of a trait.
    fn item_ids(&mut self, id: TraitId, node: &Trait) -> Vec<ItemId> {
        let ast = self.ast;
        let mut items = Vec::new(self.alloc);
        for item in ast.assoc_items(node.items) {
            if let Some(item_id) = self.definitions.item(id, item.ident.name) {
                self.scope.fault.keep(items.push(item_id));
            }
        }
        items
    }
}
