//! The rows of opaque types.
use crate::rows::conditions::const_bounds;
use crate::rows::{Text, count};
use crate::scope::{Scope, SelfTerm};
use crate::terms::Lowering;
use goal_tables::rows::OpaqueRow;
use goal_terms::ids::OpaqueId;
use vurloske_ast::ast::{Free, FreeValue, Run, TermId};
use vurloske_ast::phrase::Phrase;
use vurloske_names::attributes::expect_attrs;
use vurloske_names::definitions::places::attrs_at;
use vurloske_names::faults::{ItemFault, wrong_name};

impl Text<'_> {
    /// Adds the rows of the opaque types.
    pub(super) fn push_opaque_rows(self, rows: &mut Vec<OpaqueRow>) -> Result<(), ItemFault> {
        for number in 0..count(self.definitions.places.opaque_types.len()) {
            let id = OpaqueId(number);
            if let Some(node) = self.definitions.places.opaque_node(self.ast, id) {
                self.push_opaque_row(id, &node, rows)?;
            }
        }
        Ok(())
    }

    fn push_opaque_row(
        self,
        id: OpaqueId,
        node: &Free,
        rows: &mut Vec<OpaqueRow>,
    ) -> Result<(), ItemFault> {
        let attrs = attrs_at(self.ast, &self.definitions.places.opaque_types, id.0);
        expect_attrs(self.ast, attrs, &["remote", "hidden", "typeck_hidden"])?;
        let scope = Scope::of_item(self.alloc, SelfTerm::Absent);
        let mut lowering = Lowering::new(self.alloc, self.ast, self.definitions, scope);
        let row = lowering.opaque_row(id, node, attrs);
        lowering.scope.fault.keep(rows.push(row));
        lowering.scope.fault.result()
    }
}

impl Lowering<'_> {
    /// Declares the parameters, behind the terms that attributes name. The bounds say what the opaque type
    /// has, and the where clauses its const conditions.
    fn opaque_row(&mut self, id: OpaqueId, node: &Free, attrs: Run) -> OpaqueRow {
        let (hidden, typeck_hidden) = self.hidden_terms(node, attrs);
        self.declare(node.generics);
        let params = self.scope.param_kinds(self.alloc);
        let hidden = self.ty(hidden);
        let typeck_hidden = self.ty(typeck_hidden);
        let (_, conditions) = self.conditions(node.generics).into_parts();
        let (bounds, implied) = self.alias_bounds(written_bounds(node), node.ident.at);
        OpaqueRow {
            id,
            params,
            is_local: !self.ast.has_attr(attrs, "remote"),
            hidden,
            typeck_hidden,
            bounds,
            const_bounds: const_bounds(implied, conditions),
        }
    }

    /// The types that attributes name. A mistake where there is no `#[hidden(..)]`.
    fn hidden_terms(&mut self, node: &Free, attrs: Run) -> (TermId, TermId) {
        let hidden = self.term_of_attr(attrs, "hidden");
        if hidden.is_none() {
            self.scope
                .fault
                .fail(wrong_name(node.ident, Phrase::OPAQUE_WITH_HIDDEN));
        }
        let hidden = hidden.unwrap_or(TermId(0));
        let typeck_hidden = self.term_of_attr(attrs, "typeck_hidden");
        (hidden, typeck_hidden.unwrap_or(hidden))
    }
}

fn written_bounds(node: &Free) -> Run {
    match node.value {
        FreeValue::Opaque(bounds) => bounds,
        FreeValue::Absent | FreeValue::Term(_) => Run::EMPTY,
    }
}
