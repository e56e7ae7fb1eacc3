//! Types, constants and aliases.
mod found;
pub(crate) mod lower;
pub(crate) mod parts;

use crate::scope::{ParamName, Scope, SelfTerm};
use goal_terms::answers::ParamKind;
use goal_terms::ids::TraitId;
use goal_terms::predicates::TraitRef;
use goal_terms::terms::{AliasTerm, AliasTermKind, Const, FnSig, Term, Ty};
use parts::position;
use std::alloc::Global;
use vurloske_ast::ast;
use vurloske_ast::ast::{
    Ast, FnPtr, Generics, Ident, Impl, Position, Run, Segment, TermId, WhereKind,
};
use vurloske_ast::phrase::Phrase;
use vurloske_names::definitions::Definitions;
use vurloske_names::faults::{ItemFault, wrong};

/// How deep terms may nest. What a text's own nesting is allowed to be fits in.
pub const DEPTH: u32 = 600;

/// What a term is wanted to be, where its names leave that open.
#[derive(Clone, Copy)]
pub enum Wanted {
    Ty,
    Const,
}

/// Makes terms of what was written, in a scope.
///
/// The scope keeps the first fault, and no term is read from then on: errors stand for them, and what is
/// made of these is of no account. So only who made it asks for the fault.
pub struct Lowering<'a> {
    pub alloc: Global,
    pub ast: &'a Ast,
    pub definitions: &'a Definitions,
    pub scope: Scope<'a>,
}

impl Drop for Lowering<'_> {
    fn drop(self) {
        let Lowering {
            alloc: _,
            ast: _,
            definitions: _,
            scope: _,
        } = self;
    }
}

impl<'a> Lowering<'a> {
    /// In a scope.
    pub fn new(
        alloc: Global,
        ast: &'a Ast,
        definitions: &'a Definitions,
        scope: Scope<'a>,
    ) -> Lowering<'a> {
        Lowering {
            alloc,
            ast,
            definitions,
            scope,
        }
    }

    /// In the scope of an item that declares parameters by itself. A mistake where a name is doubled.
    pub fn of_generics(
        alloc: Global,
        ast: &'a Ast,
        definitions: &'a Definitions,
        generics: Generics,
    ) -> Lowering<'a> {
        let scope = Scope::of_item(alloc, SelfTerm::Absent);
        let mut lowering = Lowering::new(alloc, ast, definitions, scope);
        lowering.declare(generics);
        lowering
    }

    /// In the scope of a trait: its self type, then its parameters with their bounds.
    pub fn of_trait(
        alloc: Global,
        ast: &'a Ast,
        definitions: &'a Definitions,
        id: TraitId,
    ) -> Lowering<'a> {
        let scope = Scope::of_item(alloc, SelfTerm::Param(id));
        let mut lowering = Lowering::new(alloc, ast, definitions, scope);
        if let Some(node) = definitions.places.trait_node(ast, id) {
            let at = node.ident.at;
            lowering.scope.declare(ParamName::SelfTy, ParamKind::Ty, at);
            if let Some(name) = definitions.self_name {
                lowering.scope.note_bounds(name, ast.bounds(node.bounds));
            }
            lowering.declare(node.generics);
        }
        lowering
    }

    /// In the scope of an impl: its parameters with their bounds. `Self` is what it is for, and has the
    /// items of its trait.
    pub fn of_impl(
        alloc: Global,
        ast: &'a Ast,
        definitions: &'a Definitions,
        node: &Impl,
    ) -> Lowering<'a> {
        let scope = Scope::of_item(alloc, SelfTerm::Term(node.self_ty));
        let mut lowering = Lowering::new(alloc, ast, definitions, scope);
        if let (Some(name), Some(trait_)) = (definitions.self_name, node.trait_) {
            lowering.scope.note_bound(name, trait_);
        }
        lowering.declare(node.generics);
        lowering
    }

    /// Declares further parameters with their bounds, as the own ones of an associated item.
    pub fn declare(&mut self, generics: Generics) {
        let ast = self.ast;
        for param in ast.params(generics.params) {
            self.declare_param(param);
        }
        self.note_where(generics.where_clauses);
    }

    /// Declares one more type parameter and gives it. In the bounds of an item or of an opaque type it
    /// stands for the alias itself.
    pub fn declare_alias(&mut self, at: Position) -> Ty {
        self.scope.declare(ParamName::Alias, ParamKind::Ty, at);
        match self.scope.param(ParamName::Alias) {
            Some(param) => Ty::Param(param.number),
            None => {
                self.scope.fault.fail(ItemFault::OutOfMemory);
                Ty::Error(0)
            }
        }
    }

    /// A type. A mistake where the term is none, or names what nothing is.
    pub fn ty(&mut self, id: TermId) -> Ty {
        let term = self.term(id, Wanted::Ty);
        self.as_ty(term, id)
    }

    /// A type, where one is written.
    pub fn optional_ty(&mut self, id: Option<TermId>) -> Option<Ty> {
        match id {
            Some(id) => Some(self.ty(id)),
            None => None,
        }
    }

    /// A constant. A mistake where the term is none, or names what nothing is.
    pub fn constant(&mut self, id: TermId) -> Const {
        let term = self.term(id, Wanted::Const);
        self.as_const(term, id)
    }

    /// What the names of a term say that it is.
    pub fn term(&mut self, id: TermId, wanted: Wanted) -> Term {
        self.term_within(id, wanted, DEPTH)
    }

    /// An alias. A mistake where the term is none.
    pub fn alias(&mut self, id: TermId) -> AliasTerm {
        match self.term(id, Wanted::Ty) {
            Term::Ty(Ty::Alias(alias)) | Term::Const(Const::Alias(alias)) => alias,
            _ => {
                self.scope.fault.fail(wrong(
                    position(self.ast, id),
                    Phrase::ALIAS,
                    Phrase::TERM_THAT_IS_NONE,
                ));
                no_alias(self.alloc)
            }
        }
    }

    /// A trait with its arguments, the self type being the first.
    pub fn trait_ref(&mut self, self_ty: Ty, trait_: Segment) -> TraitRef {
        self.trait_ref_within(self_ty, trait_, DEPTH)
    }

    /// A signature. It is a binder, also where it binds nothing.
    pub fn signature(&mut self, node: FnPtr) -> FnSig {
        self.signature_within(node, DEPTH)
    }

    fn declare_param(&mut self, param: &ast::Param) {
        let Ident { name, at } = param.ident;
        match param.kind {
            ast::ParamKind::Lifetime => {
                let name = ParamName::Lifetime(name);
                self.scope.declare(name, ParamKind::Lifetime, at);
            }
            ast::ParamKind::Const => {
                let name = ParamName::Named(name);
                self.scope.declare(name, ParamKind::Const, at);
            }
            ast::ParamKind::Ty => {
                self.scope
                    .declare(ParamName::Named(name), ParamKind::Ty, at);
                self.scope.note_bounds(name, self.ast.bounds(param.bounds));
            }
        }
    }

    /// Keeps the bounds that stand in where clauses of plain names.
    pub(crate) fn note_where(&mut self, clauses: Run) {
        let ast = self.ast;
        for clause in ast.where_clauses(clauses) {
            if let WhereKind::Bounds(subject, bounds) = clause.kind {
                if let Some(ident) = ast.plain_name(subject) {
                    self.scope.note_bounds(ident.name, ast.bounds(bounds));
                }
            }
        }
    }
}

/// What stands for an alias that was not read.
pub(crate) fn no_alias(alloc: Global) -> AliasTerm {
    AliasTerm {
        kind: AliasTermKind::UnevaluatedConst(0),
        args: Vec::new(alloc),
    }
}
