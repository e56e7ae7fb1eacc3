//! Terms of what was written. `depth` is how deep what is written may still nest.
use crate::clauses::{Conditions, MaybeConst};
use crate::scope::Binder;
use crate::terms::found::Found;
use crate::terms::parts::{
    alias_term, argument, elided, mutability, push_erased, wanted_at, wanted_of,
};
use crate::terms::{Lowering, Wanted};
use goal_terms::predicates::{ProjectionPredicate, TraitRef};
use goal_terms::terms::{AliasTerm, AliasTermKind, FnSig, GenericArg, Term, Ty};
use vurloske_ast::ast::{Arg, Args, Bound, FnPtr, Lifetime, Run, Segment, TermId, TermKind};
use vurloske_names::elaboration::DYN_SELF;
use vurloske_names::faults::ItemFault;

impl Lowering<'_> {
    /// A type or a constant.
    #[cycle(lowering)]
    pub(super) fn term_within(&mut self, id: TermId, wanted: Wanted, depth: u32) -> Term {
        let Some(node) = self.node(id, depth) else {
            return wanted.error(0);
        };
        match self.leaf(node.kind, wanted) {
            Some(term) => term,
            None => self.composed(node.kind, wanted, depth - 1),
        }
    }

    /// A term that leads to others.
    #[cycle(lowering)]
    fn composed(&mut self, kind: TermKind, wanted: Wanted, depth: u32) -> Term {
        match kind {
            TermKind::Unevaluated(number, args) => self.unevaluated(number, args, depth),
            TermKind::Path(segment) => self.path(segment, wanted, depth),
            TermKind::Projection(self_ty, trait_, item) => {
                self.projection(self_ty, trait_, item, depth)
            }
            TermKind::Assoc(self_ty, item) => self.assoc(self_ty, item, depth),
            _ => match self.structural(kind, depth) {
                Some(ty) => Term::Ty(ty),
                None => Term::Ty(Ty::Error(0)),
            },
        }
    }

    /// A type that is built of others by signs. `None` where there is no memory.
    #[cycle(lowering)]
    fn structural(&mut self, kind: TermKind, depth: u32) -> Option<Ty> {
        match kind {
            TermKind::Tuple(run) => Some(Ty::Tuple(self.ty_list(run, depth))),
            TermKind::Slice(element) => {
                let element = self.ty_within(element, depth);
                Some(Ty::Slice(self.in_box(element)?))
            }
            TermKind::Array(element, length) => self.array(element, length, depth),
            TermKind::RawPtr(written, target) => {
                let target = self.ty_within(target, depth);
                Some(Ty::RawPtr(self.in_box(target)?, mutability(written)))
            }
            TermKind::Ref(lifetime, written, target) => {
                let region = self.scope.region(self.ast, lifetime);
                let target = self.ty_within(target, depth);
                Some(Ty::Ref(region, self.in_box(target)?, mutability(written)))
            }
            TermKind::FnPtr(node) => self.fn_ptr(node, depth),
            TermKind::Dyn(bounds, lifetime) => Some(self.dyn_ty(bounds, lifetime, depth)),
            _ => None,
        }
    }

    #[cycle(lowering)]
    fn ty_within(&mut self, id: TermId, depth: u32) -> Ty {
        let term = self.term_within(id, Wanted::Ty, depth);
        self.as_ty(term, id)
    }

    #[cycle(lowering)]
    fn array(&mut self, element: TermId, length: TermId, depth: u32) -> Option<Ty> {
        let element = self.ty_within(element, depth);
        let element = self.in_box(element)?;
        let length_term = self.term_within(length, Wanted::Const, depth);
        let length = self.as_const(length_term, length);
        match Box::new(self.alloc, length) {
            Ok(length) => Some(Ty::Array(element, length)),
            Err(_) => {
                self.scope.fault.fail(ItemFault::OutOfMemory);
                None
            }
        }
    }

    #[cycle(lowering)]
    fn ty_list(&mut self, run: Run, depth: u32) -> Vec<Ty> {
        let ast = self.ast;
        let mut all = Vec::new(self.alloc);
        for id in ast.operands(run) {
            let ty = self.ty_within(*id, depth);
            self.scope.fault.keep(all.push(ty));
        }
        all
    }

    /// `{const 3 <T>}`
    #[cycle(lowering)]
    fn unevaluated(&mut self, number: u32, args: Args, depth: u32) -> Term {
        let kind = AliasTermKind::UnevaluatedConst(number);
        let found = Found::new(self.alloc, kind);
        alias_term(self.with_own_args(found, args, depth))
    }

    /// `for<'a> fn(&'a u8) -> bool`
    #[cycle(lowering)]
    fn fn_ptr(&mut self, node: FnPtr, depth: u32) -> Option<Ty> {
        let sig = self.signature_within(node, depth);
        match Box::new(self.alloc, sig) {
            Ok(sig) => Some(Ty::FnPtr(sig)),
            Err(_) => {
                self.scope.fault.fail(ItemFault::OutOfMemory);
                None
            }
        }
    }

    #[cycle(lowering)]
    pub(super) fn signature_within(&mut self, node: FnPtr, depth: u32) -> FnSig {
        let binder = Binder::new(node.binder);
        self.scope.enter(binder);
        let inputs = self.ty_list(node.inputs, depth);
        let output = match node.output {
            Some(id) => self.ty_within(id, depth),
            None => Ty::Tuple(Vec::new(self.alloc)),
        };
        self.scope.leave();
        FnSig {
            bound_regions: binder.len(self.ast),
            inputs,
            output,
            fn_traits: !node.is_unsafe,
        }
    }

    /// `dyn Tr<u8, A = u16> + 'a`
    #[cycle(lowering)]
    fn dyn_ty(&mut self, bounds: Run, lifetime: Lifetime, depth: u32) -> Ty {
        let region = self.scope.region(self.ast, lifetime);
        let ast = self.ast;
        let mut conditions = Conditions::new(self.alloc, MaybeConst::Clause);
        for bound in ast.bounds(bounds) {
            self.scope.enter(Binder::new(bound.binder));
            self.bound_within(Ty::Infer(DYN_SELF), *bound, &mut conditions, depth);
            self.scope.leave();
        }
        Ty::Dynamic(self.dyn_clauses(conditions, lifetime.at), region)
    }

    /// `Vec<T>`, `u8`, `T`, `Self`
    #[cycle(lowering)]
    fn path(&mut self, segment: Segment, wanted: Wanted, depth: u32) -> Term {
        let ident = segment.ident;
        if let Some(param) = self.param(ident) {
            return self.param_term(param, segment);
        }
        if let Some(id) = self.impl_self(ident) {
            return self.term_within(id, wanted, depth);
        }
        let Some(named) = self.definitions.named(ident.name) else {
            return self.unknown(segment, wanted);
        };
        let mut args = Vec::new(self.alloc);
        self.push_args(&mut args, segment.args, named.generics.params, depth);
        self.defined(named.definition, args, ident)
    }

    /// Adds what is written as arguments, for parameters. Equations of items are left out.
    #[cycle(lowering)]
    fn push_args(&mut self, all: &mut Vec<GenericArg>, args: Args, params: Run, depth: u32) {
        let elided = elided(self.ast, args, params);
        push_erased(&mut self.scope.fault, all, elided);
        match args {
            Args::Absent => {}
            Args::Angle(run) => self.push_written(all, run, params, depth),
            Args::Paren(inputs, _) => {
                let inputs = self.ty_list(inputs, depth);
                self.scope
                    .fault
                    .keep(all.push(GenericArg::Ty(Ty::Tuple(inputs))));
            }
        }
    }

    #[cycle(lowering)]
    fn push_written(&mut self, all: &mut Vec<GenericArg>, run: Run, params: Run, depth: u32) {
        let ast = self.ast;
        let elided = elided(ast, Args::Angle(run), params);
        for (place, arg) in ast.args(run).iter().enumerate() {
            match arg {
                Arg::Lifetime(lifetime) => {
                    let region = self.scope.region(self.ast, *lifetime);
                    self.scope
                        .fault
                        .keep(all.push(GenericArg::Lifetime(region)));
                }
                Arg::Term(id) => {
                    let wanted = wanted_at(ast, params, place.saturating_add(elided));
                    let term = self.term_within(*id, wanted, depth);
                    self.scope.fault.keep(all.push(argument(term)));
                }
                Arg::Binding(_, _) => {}
            }
        }
    }

    /// `<T as Tr<u8>>::A<u16>`
    #[cycle(lowering)]
    fn projection(&mut self, self_id: TermId, trait_: Segment, item: Segment, depth: u32) -> Term {
        let self_ty = self.ty_within(self_id, depth);
        let trait_ref = self.trait_ref_within(self_ty, trait_, depth);
        let found = self.item_of(trait_ref, item.ident);
        alias_term(self.with_own_args(found, item.args, depth))
    }

    /// `T::A`, `Vec<u8>::I`
    #[cycle(lowering)]
    fn assoc(&mut self, self_id: TermId, item: Segment, depth: u32) -> Term {
        let self_ty = self.ty_within(self_id, depth);
        let found = match self.bound_with(self_id, item.ident) {
            Some(trait_) => {
                let trait_ref = self.trait_ref_within(self_ty, trait_, depth);
                self.item_through(trait_ref, item.ident)
            }
            None => self.item_by_type(self_ty, self_id, item.ident),
        };
        alias_term(self.with_own_args(found, item.args, depth))
    }

    /// An alias with the own arguments of its item.
    #[cycle(lowering)]
    fn with_own_args(&mut self, found: Found, args: Args, depth: u32) -> AliasTerm {
        let (kind, mut all, params) = found.into_parts();
        self.push_args(&mut all, args, params, depth);
        AliasTerm { kind, args: all }
    }

    /// A trait with its arguments, the self type being the first.
    #[cycle(lowering)]
    pub(super) fn trait_ref_within(
        &mut self,
        self_ty: Ty,
        trait_: Segment,
        depth: u32,
    ) -> TraitRef {
        let (def_id, params) = self.trait_named(trait_.ident);
        let mut args = Vec::new(self.alloc);
        self.scope.fault.keep(args.push(GenericArg::Ty(self_ty)));
        self.push_args(&mut args, trait_.args, params, depth);
        TraitRef { def_id, args }
    }

    /// Adds what a bound says, whose binder was entered.
    #[cycle(lowering)]
    pub(crate) fn bound_within(
        &mut self,
        self_ty: Ty,
        bound: Bound,
        conditions: &mut Conditions,
        depth: u32,
    ) {
        if !bound.is_relaxed {
            let trait_ref = self.trait_ref_within(self_ty, bound.trait_, depth);
            let equations = self.equations(&trait_ref, bound.trait_.args, depth);
            self.push_bound(conditions, trait_ref, &bound, equations);
        }
    }

    /// `A = u16` in `Tr<u8, A = u16>`, and `-> bool` in `Fn(u8) -> bool`.
    #[cycle(lowering)]
    fn equations(
        &mut self,
        trait_ref: &TraitRef,
        args: Args,
        depth: u32,
    ) -> Vec<ProjectionPredicate> {
        let ast = self.ast;
        let mut all = Vec::new(self.alloc);
        match args {
            Args::Absent | Args::Paren(_, None) => {}
            Args::Angle(run) => {
                for arg in ast.args(run) {
                    if let Arg::Binding(item, id) = arg {
                        let equation = self.equation(trait_ref, *item, *id, depth);
                        self.scope.fault.keep(all.push(equation));
                    }
                }
            }
            Args::Paren(_, Some(output)) => {
                let projection_term = self.output_of(trait_ref, output);
                let term = Term::Ty(self.ty_within(output, depth));
                self.scope.fault.keep(all.push(ProjectionPredicate {
                    projection_term,
                    term,
                }));
            }
        }
        all
    }

    #[cycle(lowering)]
    fn equation(
        &mut self,
        trait_ref: &TraitRef,
        item: Segment,
        id: TermId,
        depth: u32,
    ) -> ProjectionPredicate {
        let found = self.item_through_same(trait_ref, item.ident);
        let projection_term = self.with_own_args(found, item.args, depth);
        let term = self.term_within(id, wanted_of(projection_term.kind), depth);
        ProjectionPredicate {
            projection_term,
            term,
        }
    }
}
