//! Goals that are asked.
use crate::environment::Environment;
use crate::scope::Scope;
use crate::terms::parts::{has_equations, wanted_of};
use crate::terms::{Lowering, Wanted};
use goal_terms::answers::VarKind;
use goal_terms::predicates::{
    BoundConstness, HostEffectPredicate, ProjectionPredicate, TraitPredicate, TraitRef,
};
use goal_terms::terms::{AliasTerm, Term};
use std::alloc::Global;
use vurloske_ast::ast::{Ast, Bound, Constness, Goal, GoalKind, TermId};
use vurloske_ast::phrase::Phrase;
use vurloske_names::definitions::Definitions;
use vurloske_names::faults::{ItemFault, wrong, wrong_name};

/// What a goal asks.
#[derive(Drop)]
pub enum Asked {
    Trait(TraitPredicate),
    HostEffect(HostEffectPredicate),
    /// Whether an alias and a term are equal.
    Equal(ProjectionPredicate),
    /// Which term an alias stands for.
    Term(AliasTerm),
}

/// A goal with the kinds of its variables, in order of their numbers.
#[derive(Drop)]
pub struct AskedGoal {
    pub variables: Vec<VarKind>,
    pub asked: Asked,
    /// The term that is expected as an answer, if one is.
    pub expected: Option<Term>,
}

/// A goal under an environment, with the term that is expected as its answer, read in the same scope.
/// A mistake where a name is unknown, an alias is none, or the goal's bound is more than one trait.
pub fn lower_goal(
    alloc: Global,
    ast: &Ast,
    definitions: &Definitions,
    environment: &Environment,
    goal: &Goal,
    expected: Option<TermId>,
) -> Result<AskedGoal, ItemFault> {
    let scope = Scope::of_goal(alloc, &environment.params);
    let mut lowering = Lowering::new(alloc, ast, definitions, scope);
    let asked = lowering.asked_goal(goal.kind, expected);
    match lowering.scope.fault.result() {
        Ok(()) => Ok(asked),
        Err(fault) => Err(fault),
    }
}

/// What the answer of a goal is.
fn wanted_answer(asked: &Asked) -> Wanted {
    match asked {
        Asked::Term(alias) => wanted_of(alias.kind),
        _ => Wanted::Ty,
    }
}

impl Lowering<'_> {
    fn asked_goal(&mut self, kind: GoalKind, expected: Option<TermId>) -> AskedGoal {
        let asked = self.asked(kind);
        let expected = self.expected(expected, wanted_answer(&asked));
        AskedGoal {
            variables: self.scope.variable_kinds(self.alloc),
            asked,
            expected,
        }
    }

    fn asked(&mut self, kind: GoalKind) -> Asked {
        match kind {
            GoalKind::Holds(self_ty, bound) => self.asked_bound(self_ty, bound),
            GoalKind::Normalizes(alias) => Asked::Term(self.alias(alias)),
            GoalKind::Equal(alias, term) => Asked::Equal(self.equality(alias, term)),
        }
    }

    fn asked_bound(&mut self, self_ty: TermId, bound: Bound) -> Asked {
        if bound.binder.len > 0 || bound.is_relaxed {
            self.scope
                .fault
                .fail(wrong(bound.at, Phrase::TRAIT, Phrase::ANOTHER_BOUND));
        }
        if has_equations(self.ast, bound.trait_.args) {
            self.scope.fault.fail(wrong_name(bound.trait_.ident, Phrase::TRAIT_WITHOUT_ITEMS));
        }
        let self_ty = self.ty(self_ty);
        let trait_ref = self.trait_ref(self_ty, bound.trait_);
        match bound.constness {
            Constness::Plain => Asked::Trait(TraitPredicate { trait_ref }),
            Constness::Const => host_effect(trait_ref, BoundConstness::Const),
            Constness::Maybe => host_effect(trait_ref, BoundConstness::Maybe),
        }
    }

    fn expected(&mut self, id: Option<TermId>, wanted: Wanted) -> Option<Term> {
        match id {
            Some(id) => Some(self.term(id, wanted)),
            None => None,
        }
    }
}

fn host_effect(trait_ref: TraitRef, constness: BoundConstness) -> Asked {
    Asked::HostEffect(HostEffectPredicate {
        trait_ref,
        constness,
    })
}
