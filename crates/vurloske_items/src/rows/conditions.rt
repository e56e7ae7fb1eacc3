//! What parameters, where clauses and bounds of an item say.
use crate::clauses::{Conditions, MaybeConst};
use crate::terms::Lowering;
use goal_tables::rows::ConstBounds;
use goal_terms::predicates::{Clause, TraitRef};
use goal_terms::terms::{Term, Ty};
use std::alloc::Global;
use vurloske_ast::ast::{Generics, Position, Run, TermId};
use vurloske_names::definitions::Definitions;
use vurloske_names::elaboration::{elaborate, elaborate_const};
use vurloske_names::faults::ItemFault;

impl Lowering<'_> {
    /// The predicates and the const conditions of parameters and where clauses.
    pub(super) fn conditions(&mut self, generics: Generics) -> Conditions {
        let mut conditions = Conditions::new(self.alloc, MaybeConst::Condition);
        self.generics(generics, &mut conditions);
        conditions
    }

    /// What bounds of a type say.
    pub(super) fn conditions_of_bounds(&mut self, self_ty: &Ty, bounds: Run) -> Conditions {
        let mut conditions = Conditions::new(self.alloc, MaybeConst::Condition);
        self.bounds(self_ty, bounds, &mut conditions);
        conditions
    }

    /// The bounds of an alias and its implied const bounds, with what they say through supertraits.
    /// One more type parameter, which is declared, stands for the alias.
    pub(super) fn alias_bounds(
        &mut self,
        bounds: Run,
        at: Position,
    ) -> (Vec<Clause>, Vec<TraitRef>) {
        let alias = self.declare_alias(at);
        let mut conditions = self.conditions_of_bounds(&alias, bounds);
        self.elaborate(&mut conditions, at);
        conditions.into_parts()
    }

    /// Adds what conditions say through supertraits.
    fn elaborate(&mut self, conditions: &mut Conditions, at: Position) {
        if !self.scope.fault.is_there() {
            let done = elaborate_both(self.alloc, self.definitions, conditions, at);
            self.scope.fault.check(done);
        }
    }

    /// A type, or a constant where one is wanted.
    pub(super) fn value(&mut self, is_const: bool, id: TermId) -> Term {
        if is_const {
            Term::Const(self.constant(id))
        } else {
            Term::Ty(self.ty(id))
        }
    }

    /// A type or a constant, where one is written.
    pub(super) fn optional_value(&mut self, is_const: bool, id: Option<TermId>) -> Option<Term> {
        match id {
            Some(id) => Some(self.value(is_const, id)),
            None => None,
        }
    }
}

fn elaborate_both(
    alloc: Global,
    definitions: &Definitions,
    conditions: &mut Conditions,
    at: Position,
) -> Result<(), ItemFault> {
    elaborate(alloc, definitions, &mut conditions.predicates, at)?;
    elaborate_const(alloc, definitions, &mut conditions.const_conditions, at)
}

/// The const bounds of an alias. None where it has neither implied const bounds nor const conditions.
pub(super) fn const_bounds(
    implied: Vec<TraitRef>,
    conditions: Vec<TraitRef>,
) -> Option<ConstBounds> {
    if implied.is_empty() && conditions.is_empty() {
        None
    } else {
        Some(ConstBounds {
            implied,
            conditions,
        })
    }
}
