//! Rules and candidates whose terms are given by their numbers in a table.
use goal_interner::term_nodes::TermId;
use goal_tables::rows::ImplRow;
use goal_terms::ids::TraitId;
use goal_terms::predicates::BoundConstness;

/// A trait with its arguments.
#[derive(Drop)]
pub struct InternedTrait {
    pub def_id: TraitId,
    pub args: Vec<TermId>,
}

/// That a trait holds, that an alias and a term are equal, or that a trait holds as a const trait.
#[derive(Drop)]
pub enum InternedPredicate {
    Trait(InternedTrait),
    Projection(TermId, TermId),
    HostEffect(BoundConstness, InternedTrait),
}

/// What a rule asks for: that a predicate holds, or that two terms are equal.
#[derive(Drop)]
pub enum InternedPremise {
    Predicate(InternedPredicate),
    Equation(TermId, TermId),
}

/// What a rule for const traits asks for. The conditions must hold as the goal's constness says.
#[derive(Drop)]
pub struct InternedConstRule {
    pub premises: Vec<InternedPremise>,
    pub conditions: Vec<InternedTrait>,
}

/// Something that may show that a goal holds, or give its term: a clause, a const bound that holds where
/// its conditions do, an impl, the trait's meaning as a trait alias or a built-in rule, or an error in
/// the goal.
#[derive(Drop)]
pub enum InternedCandidate<'t> {
    Assumption(InternedPredicate),
    ImpliedBound(InternedTrait, Vec<InternedTrait>),
    Impl(&'t ImplRow),
    BuiltIn,
    Error,
}

/// What a built-in rule says of an item's term: nothing, a term that is to be normalized, behind
/// premises, the alias itself, or `()` where the self type is of this trait (`Sized`) and else the alias
/// itself.
#[derive(Drop)]
pub enum ListedTerm {
    Nothing,
    Behind(Vec<InternedPremise>, TermId),
    Rigid,
    BySize(TraitId),
}
