//! The rows of free type aliases and constants.
use crate::rows::{Text, count};
use crate::terms::Lowering;
use goal_tables::rows::FreeRow;
use goal_terms::ids::FreeId;
use vurloske_ast::ast::{Free, FreeValue, TermId};
use vurloske_names::attributes::expect_attrs;
use vurloske_names::definitions::places::attrs_at;
use vurloske_names::faults::ItemFault;

impl Text<'_> {
    /// Adds the rows of the free aliases and constants.
    pub(super) fn push_free_rows(self, rows: &mut Vec<FreeRow>) -> Result<(), ItemFault> {
        for number in 0..count(self.definitions.places.free_aliases.len()) {
            let id = FreeId(number);
            if let Some(node) = self.definitions.places.free_node(self.ast, id) {
                self.push_free_row(id, &node, rows)?;
            }
        }
        Ok(())
    }

    fn push_free_row(
        self,
        id: FreeId,
        node: &Free,
        rows: &mut Vec<FreeRow>,
    ) -> Result<(), ItemFault> {
        let attrs = attrs_at(self.ast, &self.definitions.places.free_aliases, id.0);
        expect_attrs(self.ast, attrs, &[])?;
        let mut lowering = self.lowering_of(node.generics);
        let row = lowering.free_row(id, node);
        lowering.scope.fault.keep(rows.push(row));
        lowering.scope.fault.result()
    }
}

impl Lowering<'_> {
    fn free_row(&mut self, id: FreeId, node: &Free) -> FreeRow {
        FreeRow {
            id,
            params: self.scope.param_kinds(self.alloc),
            is_const: node.is_const,
            predicates: self.conditions(node.generics).into_predicates(),
            value: self.optional_value(node.is_const, value(node)),
        }
    }
}

fn value(node: &Free) -> Option<TermId> {
    match node.value {
        FreeValue::Term(id) => Some(id),
        FreeValue::Absent | FreeValue::Opaque(_) => None,
    }
}
