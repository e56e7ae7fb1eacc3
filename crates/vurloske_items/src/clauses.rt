//! Bounds and where clauses as clauses.
use crate::scope::{Binder, ParamName};
use crate::terms::parts::{position, wanted_of};
use crate::terms::{DEPTH, Lowering};
use goal_terms::answers::ParamKind;
use goal_terms::predicates::{
    BoundConstness, Clause, ClauseKind, HostEffectPredicate, ProjectionPredicate, TraitPredicate,
    TraitRef,
};
use goal_terms::terms::{DynClause, Ty};
use std::alloc::Global;
use vurloske_ast::ast::{
    self, Ast, Bound, Constness, Generics, Ident, Position, Run, TermId, WhereClause, WhereKind,
};
use vurloske_ast::phrase::Phrase;
use vurloske_names::definitions::Definitions;
use vurloske_names::elaboration::dyn_clauses;
use vurloske_names::faults::{ItemFault, wrong, wrong_name};

/// What a `[const]` bound is beside its plain form.
#[derive(Clone, Copy)]
pub enum MaybeConst {
    /// A const condition, as on an impl.
    Condition,
    /// A host effect clause, as in an environment.
    Clause,
}

/// What bounds and where clauses say, in order.
pub struct Conditions {
    pub predicates: Vec<Clause>,
    /// Of `[const]` bounds, if they are conditions.
    pub const_conditions: Vec<TraitRef>,
    pub maybe_const: MaybeConst,
}

impl Drop for Conditions {
    fn drop(self) {
        let Conditions {
            predicates: _,
            const_conditions: _,
            maybe_const: _,
        } = self;
    }
}

impl Conditions {
    /// Nothing is said.
    pub fn new(alloc: Global, maybe_const: MaybeConst) -> Conditions {
        Conditions {
            predicates: Vec::new(alloc),
            const_conditions: Vec::new(alloc),
            maybe_const,
        }
    }

    /// The clauses alone.
    pub fn into_predicates(self) -> Vec<Clause> {
        let Conditions {
            predicates,
            const_conditions: _,
            maybe_const: _,
        } = self;
        predicates
    }

    /// The clauses and the const conditions.
    pub fn into_parts(self) -> (Vec<Clause>, Vec<TraitRef>) {
        let Conditions {
            predicates,
            const_conditions,
            maybe_const: _,
        } = self;
        (predicates, const_conditions)
    }

    /// Adds what a bound says of its trait. A mistake where a const condition would bind lifetimes.
    pub(crate) fn push_bound(
        &mut self,
        trait_ref: TraitRef,
        constness: Constness,
        bound_regions: u32,
        at: Position,
    ) -> Result<(), ItemFault> {
        match constness {
            Constness::Plain => self.push_trait(trait_ref, bound_regions),
            Constness::Const => {
                self.push_new_trait(trait_ref.clone()?, bound_regions)?;
                self.push_host_effect(trait_ref, BoundConstness::Const, bound_regions)
            }
            Constness::Maybe => {
                self.push_new_trait(trait_ref.clone()?, bound_regions)?;
                self.push_maybe_const(trait_ref, bound_regions, at)
            }
        }
    }

    fn push_maybe_const(
        &mut self,
        trait_ref: TraitRef,
        bound_regions: u32,
        at: Position,
    ) -> Result<(), ItemFault> {
        if self.maybe_const == MaybeConst::Clause {
            return self.push_host_effect(trait_ref, BoundConstness::Maybe, bound_regions);
        }
        if bound_regions > 0 {
            return Err(wrong(at, Phrase::CONDITION_WITHOUT_FOR, Phrase::BINDS_LIFETIMES));
        }
        self.const_conditions.push(trait_ref)?;
        Ok(())
    }

    fn push_trait(&mut self, trait_ref: TraitRef, bound_regions: u32) -> Result<(), ItemFault> {
        self.predicates.push(Clause {
            bound_regions,
            kind: ClauseKind::Trait(TraitPredicate { trait_ref }),
        })?;
        Ok(())
    }

    /// Adds that a trait holds, where that was not said before.
    fn push_new_trait(&mut self, trait_ref: TraitRef, bound_regions: u32) -> Result<(), ItemFault> {
        let clause = Clause {
            bound_regions,
            kind: ClauseKind::Trait(TraitPredicate { trait_ref }),
        };
        if !self.predicates.contains(&clause) {
            self.predicates.push(clause)?;
        }
        Ok(())
    }

    fn push_host_effect(
        &mut self,
        trait_ref: TraitRef,
        constness: BoundConstness,
        bound_regions: u32,
    ) -> Result<(), ItemFault> {
        self.predicates.push(Clause {
            bound_regions,
            kind: ClauseKind::HostEffect(HostEffectPredicate {
                trait_ref,
                constness,
            }),
        })?;
        Ok(())
    }

    pub(crate) fn push_equations(
        &mut self,
        equations: Vec<ProjectionPredicate>,
        bound_regions: u32,
    ) -> Result<(), ItemFault> {
        for equation in equations {
            self.predicates.push(Clause {
                bound_regions,
                kind: ClauseKind::Projection(equation),
            })?;
        }
        Ok(())
    }
}

impl Lowering<'_> {
    /// Adds what a bound says of its trait and of the trait's items, under the innermost binder.
    pub(crate) fn push_bound(
        &mut self,
        conditions: &mut Conditions,
        trait_ref: TraitRef,
        bound: &Bound,
        equations: Vec<ProjectionPredicate>,
    ) {
        let bound_regions = self.scope.bound_regions(self.ast);
        let pushed = conditions.push_bound(trait_ref, bound.constness, bound_regions, bound.at);
        self.scope.fault.check(pushed);
        let pushed = conditions.push_equations(equations, bound_regions);
        self.scope.fault.check(pushed);
    }

    /// Adds what parameters' bounds and where clauses say.
    pub fn generics(&mut self, generics: Generics, conditions: &mut Conditions) {
        let ast = self.ast;
        for param in ast.params(generics.params) {
            self.param_bounds(param, conditions);
        }
        self.where_clauses(generics.where_clauses, conditions);
    }

    fn param_bounds(&mut self, param: &ast::Param, conditions: &mut Conditions) {
        match self.scope.param(ParamName::Named(param.ident.name)) {
            Some(found) if found.kind == ParamKind::Ty => {
                self.bounds(&Ty::Param(found.number), param.bounds, conditions);
            }
            _ => {}
        }
    }

    /// Adds what bounds of a type say: a run of `Ast::bounds`.
    pub fn bounds(&mut self, self_ty: &Ty, bounds: Run, conditions: &mut Conditions) {
        let ast = self.ast;
        for bound in ast.bounds(bounds) {
            self.scope.enter(Binder::new(bound.binder));
            match self_ty.clone() {
                Ok(self_ty) => self.bound_within(self_ty, *bound, conditions, DEPTH),
                Err(_) => self.scope.fault.fail(ItemFault::OutOfMemory),
            }
            self.scope.leave();
        }
    }

    /// Adds what where clauses say: a run of `Ast::where_clauses`.
    pub fn where_clauses(&mut self, clauses: Run, conditions: &mut Conditions) {
        let ast = self.ast;
        for clause in ast.where_clauses(clauses) {
            self.where_clause(clause, conditions);
        }
    }

    /// Adds what the where clauses say that speak of `Self`.
    pub fn self_clauses(&mut self, clauses: Run, conditions: &mut Conditions) {
        let ast = self.ast;
        for clause in ast.where_clauses(clauses) {
            if let WhereKind::Bounds(subject, _) = clause.kind {
                if names_self(ast, self.definitions, subject) {
                    self.where_clause(clause, conditions);
                }
            }
        }
    }

    fn where_clause(&mut self, clause: &WhereClause, conditions: &mut Conditions) {
        match clause.kind {
            WhereKind::Bounds(subject, bounds) => {
                self.subject_bounds(clause.binder, subject, bounds, conditions);
            }
            WhereKind::Equal(alias, term) => {
                self.push_equality(clause.binder, alias, term, conditions);
            }
            WhereKind::DeclareTy(id) => self.declare_ty(id),
            WhereKind::DeclareConst(ident) => {
                let name = ParamName::Named(ident.name);
                self.declare_new(name, ParamKind::Const, ident);
            }
            WhereKind::DeclareLifetime(ident) => {
                let name = ParamName::Lifetime(ident.name);
                self.scope.declare(name, ParamKind::Lifetime, ident.at);
            }
        }
    }

    /// `for<'a> &'a T: for<'b> Tr<'a, 'b>`: one binder for both.
    fn subject_bounds(
        &mut self,
        binder: Run,
        subject: TermId,
        bounds: Run,
        conditions: &mut Conditions,
    ) {
        let ast = self.ast;
        for bound in ast.bounds(bounds) {
            self.scope.enter(Binder {
                outer: binder,
                inner: bound.binder,
            });
            let self_ty = self.ty(subject);
            self.bound_within(self_ty, *bound, conditions, DEPTH);
            self.scope.leave();
        }
    }

    /// `for<'a> <T as Tr<'a>>::A == u8`
    fn push_equality(
        &mut self,
        binder: Run,
        alias: TermId,
        term: TermId,
        conditions: &mut Conditions,
    ) {
        self.scope.enter(Binder::new(binder));
        let equation = self.equality(alias, term);
        let bound_regions = self.scope.bound_regions(self.ast);
        self.scope.leave();
        self.scope.fault.keep(
            conditions.predicates.push(Clause {
                bound_regions,
                kind: ClauseKind::Projection(equation),
            }),
        );
    }

    /// `<T as Tr>::A == u8`. A mistake where the first is no alias.
    pub fn equality(&mut self, alias: TermId, term: TermId) -> ProjectionPredicate {
        let projection_term = self.alias(alias);
        let term = self.term(term, wanted_of(projection_term.kind));
        ProjectionPredicate {
            projection_term,
            term,
        }
    }

    /// `T`, by itself in the head of a block.
    fn declare_ty(&mut self, id: TermId) {
        match self.ast.plain_name(id) {
            Some(ident) => self.declare_new(ParamName::Named(ident.name), ParamKind::Ty, ident),
            None => self.scope.fault.fail(wrong(
                position(self.ast, id),
                Phrase::NAME_OF_A_PARAMETER,
                Phrase::ANOTHER_TERM,
            )),
        }
    }

    /// Declares a parameter whose name no item has.
    fn declare_new(&mut self, name: ParamName, kind: ParamKind, ident: Ident) {
        if self.definitions.named(ident.name).is_some() {
            self.scope
                .fault
                .fail(wrong_name(ident, Phrase::NO_ITEM_NAME));
        }
        self.scope.declare(name, kind, ident.at);
    }

    /// The clauses of a `dyn` type, with what they say through supertraits. A mistake where a supertrait
    /// names the self type.
    pub(crate) fn dyn_clauses(&mut self, conditions: Conditions, at: Position) -> Vec<DynClause> {
        let written = conditions.into_predicates();
        if !self.scope.fault.is_there() {
            match dyn_clauses(self.alloc, self.definitions, written, at) {
                Ok(clauses) => return clauses,
                Err(fault) => self.scope.fault.fail(fault),
            }
        }
        Vec::new(self.alloc)
    }
}

/// Whether a term is `Self`.
fn names_self(ast: &Ast, definitions: &Definitions, id: TermId) -> bool {
    match ast.plain_name(id) {
        Some(ident) => definitions.is_self(ident.name),
        None => false,
    }
}
