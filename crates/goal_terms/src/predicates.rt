use crate::ids::TraitId;
use crate::terms::{AliasTerm, GenericArg, Term};

/// A trait with its arguments, of which the first is the self type.
#[derive(Clone, PartialEq, Eq, Drop)]
pub struct TraitRef {
    pub def_id: TraitId,
    pub args: Vec<GenericArg>,
}

/// That a type implements a trait.
#[derive(Clone, PartialEq, Eq, Drop)]
pub struct TraitPredicate {
    pub trait_ref: TraitRef,
}

/// That an alias normalizes to a term. In a goal the term is the variable that takes the answer.
#[derive(Drop)]
pub struct NormalizesTo {
    pub alias: AliasTerm,
    pub term: Term,
}

/// That an alias and a term are equal.
#[derive(Clone, PartialEq, Eq, Drop)]
pub struct ProjectionPredicate {
    pub projection_term: AliasTerm,
    pub term: Term,
}

/// `const` or `[const]`.
#[derive(Clone, Copy, PartialEq, Eq, Hash)]
pub enum BoundConstness {
    Const,
    Maybe,
}

/// That a type implements a trait as a const trait.
#[derive(Clone, PartialEq, Eq, Drop)]
pub struct HostEffectPredicate {
    pub trait_ref: TraitRef,
    pub constness: BoundConstness,
}

/// What a clause says.
#[derive(Clone, PartialEq, Eq, Drop)]
pub enum ClauseKind {
    Trait(TraitPredicate),
    Projection(ProjectionPredicate),
    HostEffect(HostEffectPredicate),
}

/// A where clause or a bound. It is a binder of `bound_regions` lifetimes.
#[derive(Clone, PartialEq, Eq, Drop)]
pub struct Clause {
    pub bound_regions: u32,
    pub kind: ClauseKind,
}

/// What a goal may ask.
#[derive(Drop)]
pub enum Predicate {
    Trait(TraitPredicate),
    Projection(ProjectionPredicate),
    HostEffect(HostEffectPredicate),
    NormalizesTo(NormalizesTo),
    /// Neither holds nor is refuted.
    Ambiguous,
}

/// A predicate, asked under an environment of clauses.
#[derive(Drop)]
pub struct Goal<P> {
    pub param_env: Vec<Clause>,
    pub predicate: P,
}
