//! Which item an alias names.
use crate::scope::{ParamName, SelfTerm};
use crate::terms::parts::position;
use crate::terms::{Lowering, no_alias};
use goal_terms::ids::{InherentId, ItemId, TraitId};
use goal_terms::predicates::{Clause, ClauseKind, TraitPredicate, TraitRef};
use goal_terms::terms::{AliasTerm, AliasTermKind, GenericArg, Ty};
use std::alloc::Global;
use vurloske_ast::ast::{Ident, Run, Segment, TermId, TermKind};
use vurloske_ast::phrase::Phrase;
use vurloske_names::definitions::Definition;
use vurloske_names::definitions::places::InherentEntry;
use vurloske_names::elaboration::elaborate;
use vurloske_names::faults::{ItemFault, wrong, wrong_name};

/// What an alias names, with the arguments before the item's own, and the item's own parameters.
pub(super) struct Found {
    pub(super) kind: AliasTermKind,
    pub(super) args: Vec<GenericArg>,
    pub(super) params: Run,
}

impl Drop for Found {
    fn drop(self) {
        let Found {
            kind: _,
            args: _,
            params: _,
        } = self;
    }
}

impl Found {
    /// An alias that has no parameters.
    pub(super) fn new(alloc: Global, kind: AliasTermKind) -> Found {
        Found {
            kind,
            args: Vec::new(alloc),
            params: Run::EMPTY,
        }
    }

    pub(super) fn into_parts(self) -> (AliasTermKind, Vec<GenericArg>, Run) {
        let Found { kind, args, params } = self;
        (kind, args, params)
    }
}

impl Lowering<'_> {
    /// What stands for an item that was not found.
    fn not_found(&mut self, fault: ItemFault) -> Found {
        self.scope.fault.fail(fault);
        Found::new(self.alloc, AliasTermKind::UnevaluatedConst(0))
    }

    /// The trait of a name, with its parameters. A mistake where the name is that of no trait.
    pub(super) fn trait_named(&mut self, ident: Ident) -> (TraitId, Run) {
        if let Some(named) = self.definitions.named(ident.name) {
            if let Definition::Trait(id) = named.definition {
                return (id, named.generics.params);
            }
        }
        self.scope.fault.fail(wrong_name(ident, Phrase::TRAIT));
        (TraitId(0), Run::EMPTY)
    }

    /// The item of a trait with a name.
    pub(super) fn item_of(&mut self, trait_ref: TraitRef, ident: Ident) -> Found {
        let TraitRef { def_id, args } = trait_ref;
        match self.definitions.item(def_id, ident.name) {
            Some(id) => self.found(id, args),
            None => self.not_found(wrong_name(ident, Phrase::ITEM_OF_THE_TRAIT)),
        }
    }

    /// The item of a trait, or of a supertrait, with a name.
    pub(super) fn item_through(&mut self, trait_ref: TraitRef, ident: Ident) -> Found {
        let Some(id) = self.definitions.item_through(trait_ref.def_id, ident.name) else {
            return self.not_found(wrong_name(ident, Phrase::ITEM_OF_THE_TRAIT));
        };
        match self.args_through(trait_ref, id, ident) {
            Ok(args) => self.found(id, args),
            Err(fault) => self.not_found(fault),
        }
    }

    /// The same of a trait that is used further.
    pub(super) fn item_through_same(&mut self, trait_ref: &TraitRef, ident: Ident) -> Found {
        match trait_ref.clone() {
            Ok(trait_ref) => self.item_through(trait_ref, ident),
            Err(_) => self.not_found(ItemFault::OutOfMemory),
        }
    }

    fn found(&self, id: ItemId, args: Vec<GenericArg>) -> Found {
        let is_const = match self.definitions.places.item_entry(id) {
            Some(entry) => entry.is_const,
            None => false,
        };
        let params = match self.definitions.places.item_node(self.ast, id) {
            Some(node) => node.generics.params,
            None => Run::EMPTY,
        };
        Found {
            kind: if is_const {
                AliasTermKind::ProjectionConst(id)
            } else {
                AliasTermKind::ProjectionTy(id)
            },
            args,
            params,
        }
    }

    /// The arguments of an item's trait that a trait reference says, by itself or through supertraits.
    fn args_through(
        &self,
        trait_ref: TraitRef,
        id: ItemId,
        ident: Ident,
    ) -> Result<Vec<GenericArg>, ItemFault> {
        let TraitRef { def_id, args } = trait_ref;
        let owner = match self.definitions.places.item_entry(id) {
            Some(entry) => entry.trait_id,
            None => def_id,
        };
        if owner == def_id {
            return Ok(args);
        }
        let mut clauses = Vec::new(self.alloc);
        clauses.push(trait_clause(TraitRef { def_id, args }))?;
        elaborate(self.alloc, self.definitions, &mut clauses, ident.at)?;
        args_of_trait(clauses.as_slice(), owner, ident)
    }

    /// `FnOnce::Output` of a trait reference with the arguments of `FnOnce`.
    pub(super) fn output_of(&mut self, trait_ref: &TraitRef, output: TermId) -> AliasTerm {
        let Some(id) = self.definitions.fn_once_output else {
            self.scope.fault.fail(wrong(
                position(self.ast, output),
                Phrase::FN_ONCE_OUTPUT,
                Phrase::NONE,
            ));
            return no_alias(self.alloc);
        };
        match trait_ref.args.clone() {
            Ok(args) => AliasTerm {
                kind: AliasTermKind::ProjectionTy(id),
                args,
            },
            Err(_) => {
                self.scope.fault.fail(ItemFault::OutOfMemory);
                no_alias(self.alloc)
            }
        }
    }

    /// The first bound of a term that a name is, whose trait has an item of a name.
    pub(super) fn bound_with(&self, self_id: TermId, item: Ident) -> Option<Segment> {
        let subject = self.ast.plain_name(self_id)?.name;
        if self.own_trait_with(self_id, item).is_some() {
            return None;
        }
        self.scope.bound_with(self.definitions, subject, item.name)
    }

    /// The trait whose self type a term is, if it has an item of a name.
    fn own_trait_with(&self, self_id: TermId, item: Ident) -> Option<TraitId> {
        let SelfTerm::Param(id) = self.scope.self_term else {
            return None;
        };
        if !self.definitions.is_self(self.ast.plain_name(self_id)?.name) {
            return None;
        }
        self.definitions.item(id, item.name)?;
        Some(id)
    }

    /// The item with a name that a type has: one of the trait whose self type it is, one of an impl of
    /// no trait, or the only one of this name, if its trait has no parameters.
    pub(super) fn item_by_type(&mut self, self_ty: Ty, self_id: TermId, item: Ident) -> Found {
        if let Some(id) = self.own_trait_with(self_id, item) {
            let trait_ref = self.identity(id);
            return self.item_of(trait_ref, item);
        }
        let mut found = match self.inherent_item(&self_ty, item) {
            Some(found) => found,
            None => self.only_item(item),
        };
        let pushed = found.args.push(GenericArg::Ty(self_ty));
        self.scope.fault.keep(pushed);
        found
    }

    /// A trait with its own parameters as arguments.
    fn identity(&mut self, def_id: TraitId) -> TraitRef {
        let mut args = Vec::new(self.alloc);
        if let Some(node) = self.definitions.places.trait_node(self.ast, def_id) {
            self.push_own_params(&mut args, node.generics.params.len.saturating_add(1));
        }
        TraitRef { def_id, args }
    }

    fn push_own_params(&mut self, args: &mut Vec<GenericArg>, count: usize) {
        for number in 0..count {
            let number = u32::try_from(number).unwrap_or(u32::MAX);
            if let Some(param) = self.scope.params.numbered(number) {
                self.scope.fault.keep(args.push(param.argument()));
            }
        }
    }

    /// The item of this name, if one trait alone has it, and has no parameters.
    fn only_item(&mut self, item: Ident) -> Found {
        if let Some(id) = self.definitions.only_item(item.name) {
            if self.takes_self_alone(id) {
                return self.found(id, Vec::new(self.alloc));
            }
        }
        self.not_found(wrong_name(item, Phrase::ITEM_OF_A_BOUND))
    }

    /// Whether the trait of an item has no parameters but its self type.
    fn takes_self_alone(&self, id: ItemId) -> bool {
        let Some(entry) = self.definitions.places.item_entry(id) else {
            return false;
        };
        match self.definitions.places.trait_node(self.ast, entry.trait_id) {
            Some(node) => node.generics.params.len == 0,
            None => false,
        }
    }

    /// The item of this name in an impl of no trait, for such a type.
    fn inherent_item(&self, self_ty: &Ty, item: Ident) -> Option<Found> {
        for id in self.definitions.inherent_items_named(item.name) {
            if let Some(entry) = self.definitions.places.inherent_entry(*id) {
                if self.is_for(entry.self_ty, self_ty) {
                    return Some(Found {
                        kind: inherent_kind(*id, &entry),
                        args: Vec::new(self.alloc),
                        params: self.inherent_params(*id),
                    });
                }
            }
        }
        None
    }

    fn inherent_params(&self, id: InherentId) -> Run {
        match self.definitions.places.inherent_node(self.ast, id) {
            Some(node) => node.generics.params,
            None => Run::EMPTY,
        }
    }

    /// Whether an impl for a term may be one for a type, by what stands at their tops.
    fn is_for(&self, written: TermId, ty: &Ty) -> bool {
        let Some(term) = self.ast.term(written) else {
            return false;
        };
        match (term.kind, ty) {
            (TermKind::Path(segment), _) => self.is_named(segment.ident, ty),
            (TermKind::Never, Ty::Never) => true,
            (TermKind::Tuple(run), Ty::Tuple(tys)) => run.len == tys.len(),
            (TermKind::Slice(_), Ty::Slice(_)) => true,
            (TermKind::Array(_, _), Ty::Array(_, _)) => true,
            (TermKind::RawPtr(_, _), Ty::RawPtr(_, _)) => true,
            (TermKind::Ref(_, _, _), Ty::Ref(_, _, _)) => true,
            (TermKind::FnPtr(_), Ty::FnPtr(_)) => true,
            (TermKind::Dyn(_, _), Ty::Dynamic(_, _)) => true,
            _ => false,
        }
    }

    /// Whether the name of a type is the one of an item.
    fn is_named(&self, ident: Ident, ty: &Ty) -> bool {
        let Some(named) = self.definitions.named(ident.name) else {
            return false;
        };
        match (named.definition, ty) {
            (Definition::Builtin(builtin), _) => builtin.ty() == *ty,
            (Definition::Adt(id), Ty::Adt(other, _)) => id == *other,
            (Definition::Foreign(id), Ty::Foreign(other)) => id == *other,
            (Definition::Fn(id), Ty::FnDef(other, _)) => id == *other,
            (Definition::Closure(id), Ty::Closure(other, _)) => id == *other,
            _ => false,
        }
    }
}

fn inherent_kind(id: InherentId, entry: &InherentEntry) -> AliasTermKind {
    if entry.is_const {
        AliasTermKind::InherentConst(id)
    } else {
        AliasTermKind::InherentTy(id)
    }
}

/// That a trait holds.
pub(crate) fn trait_clause(trait_ref: TraitRef) -> Clause {
    Clause {
        bound_regions: 0,
        kind: ClauseKind::Trait(TraitPredicate { trait_ref }),
    }
}

/// The arguments of the first clause of a trait that binds no lifetimes.
fn args_of_trait(
    clauses: &[Clause],
    id: TraitId,
    ident: Ident,
) -> Result<Vec<GenericArg>, ItemFault> {
    for clause in clauses {
        if let (0, ClauseKind::Trait(predicate)) = (clause.bound_regions, &clause.kind) {
            if predicate.trait_ref.def_id == id {
                return Ok(predicate.trait_ref.args.clone()?);
            }
        }
    }
    Err(wrong_name(ident, Phrase::ITEM_OF_A_BOUND))
}
