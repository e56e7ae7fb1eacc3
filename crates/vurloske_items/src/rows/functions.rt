//! The rows of functions.
use crate::rows::{Text, count};
use crate::terms::Lowering;
use goal_tables::rows::FnRow;
use goal_terms::ids::FnId;
use vurloske_ast::ast::{Fn, FnPtr, Run, TermId};
use vurloske_names::attributes::expect_attrs;
use vurloske_names::definitions::places::attrs_at;
use vurloske_names::faults::ItemFault;

impl Text<'_> {
    /// Adds the rows of the functions.
    pub(super) fn push_fn_rows(self, rows: &mut Vec<FnRow>) -> Result<(), ItemFault> {
        for number in 0..count(self.definitions.places.functions.len()) {
            let id = FnId(number);
            if let Some(node) = self.definitions.places.fn_node(self.ast, id) {
                self.push_fn_row(id, &node, rows)?;
            }
        }
        Ok(())
    }

    fn push_fn_row(self, id: FnId, node: &Fn, rows: &mut Vec<FnRow>) -> Result<(), ItemFault> {
        let attrs = attrs_at(self.ast, &self.definitions.places.functions, id.0);
        expect_attrs(self.ast, attrs, &["no_fn_traits"])?;
        let has_no_fn_traits = node.is_unsafe || self.ast.has_attr(attrs, "no_fn_traits");
        let mut lowering = self.lowering_of(node.generics);
        let row = lowering.fn_row(id, node, has_no_fn_traits);
        lowering.scope.fault.keep(rows.push(row));
        lowering.scope.fault.result()
    }
}

impl Lowering<'_> {
    /// An `unsafe` function, and one with `#[no_fn_traits]`, has no `Fn` traits.
    fn fn_row(&mut self, id: FnId, node: &Fn, has_no_fn_traits: bool) -> FnRow {
        let params = self.scope.param_kinds(self.alloc);
        let sig = self.signature(signature(has_no_fn_traits, node.inputs, node.output));
        let (_, const_conditions) = self.conditions(node.generics).into_parts();
        FnRow {
            id,
            params,
            sig,
            is_const: node.is_const,
            const_conditions,
        }
    }
}

/// A signature that binds no lifetimes, as a function pointer has it.
pub(super) fn signature(is_unsafe: bool, inputs: Run, output: Option<TermId>) -> FnPtr {
    FnPtr {
        binder: Run::EMPTY,
        is_unsafe,
        inputs,
        output,
    }
}
