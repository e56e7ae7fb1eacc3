//! The rows of closures.
use crate::rows::functions::signature;
use crate::rows::{Text, count};
use crate::terms::Lowering;
use goal_tables::rows::{ClosureKind, ClosureRow};
use goal_terms::ids::ClosureId;
use goal_terms::terms::{FnSig, Ty};
use vurloske_ast::ast::{Args, AttrArg, Closure, Ident, Run};
use vurloske_ast::phrase::Phrase;
use vurloske_names::attributes::{args_in_attr, expect_attrs};
use vurloske_names::definitions::places::attrs_at;
use vurloske_names::faults::{ItemFault, wrong_name};

impl Text<'_> {
    /// Adds the rows of the closures.
    pub(super) fn push_closure_rows(self, rows: &mut Vec<ClosureRow>) -> Result<(), ItemFault> {
        for number in 0..count(self.definitions.places.closures.len()) {
            let id = ClosureId(number);
            if let Some(node) = self.definitions.places.closure_node(self.ast, id) {
                self.push_closure_row(id, &node, rows)?;
            }
        }
        Ok(())
    }

    fn push_closure_row(
        self,
        id: ClosureId,
        node: &Closure,
        rows: &mut Vec<ClosureRow>,
    ) -> Result<(), ItemFault> {
        let kind = self.closure_kind(node.signature.ident)?;
        let attrs = attrs_at(self.ast, &self.definitions.places.closures, id.0);
        expect_attrs(self.ast, attrs, &["upvars"])?;
        let mut lowering = self.lowering_of(node.generics);
        let row = lowering.closure_row(id, kind, node, attrs);
        lowering.scope.fault.keep(rows.push(row));
        lowering.scope.fault.result()
    }

    /// How a closure may be called, by the name of the narrowest trait that it has.
    fn closure_kind(self, ident: Ident) -> Result<ClosureKind, ItemFault> {
        match self.ast.name(ident.name) {
            "Fn" => Ok(ClosureKind::Fn),
            "FnMut" => Ok(ClosureKind::FnMut),
            "FnOnce" => Ok(ClosureKind::FnOnce),
            _ => Err(wrong_name(ident, Phrase::FN_TRAIT)),
        }
    }
}

impl Lowering<'_> {
    fn closure_row(
        &mut self,
        id: ClosureId,
        kind: ClosureKind,
        node: &Closure,
        attrs: Run,
    ) -> ClosureRow {
        let params = self.scope.param_kinds(self.alloc);
        let sig = self.closure_signature(node);
        let upvars = self.upvars(attrs);
        let (_, const_conditions) = self.conditions(node.generics).into_parts();
        ClosureRow {
            id,
            params,
            kind,
            sig,
            upvars,
            is_const: node.is_const,
            const_conditions,
        }
    }

    /// `(u8) -> bool`
    fn closure_signature(&mut self, node: &Closure) -> FnSig {
        let written = match node.signature.args {
            Args::Paren(inputs, output) => signature(false, inputs, output),
            Args::Absent | Args::Angle(_) => {
                self.scope.fault.fail(wrong_name(
                    node.signature.ident,
                    Phrase::PARENS_BEHIND_TRAIT,
                ));
                signature(false, Run::EMPTY, None)
            }
        };
        self.signature(written)
    }

    /// `#[upvars(T, u8)]`
    fn upvars(&mut self, attrs: Run) -> Vec<Ty> {
        let ast = self.ast;
        let mut upvars = Vec::new(self.alloc);
        if let Some(attr) = ast.attr_named(attrs, "upvars") {
            for arg in args_in_attr(ast, &attr) {
                match arg {
                    AttrArg::Term(id) => {
                        let ty = self.ty(*id);
                        self.scope.fault.keep(upvars.push(ty));
                    }
                    _ => self
                        .scope
                        .fault
                        .fail(wrong_name(attr.ident, Phrase::ATTRIBUTE_WITH_TYPES)),
                }
            }
        }
        upvars
    }
}
