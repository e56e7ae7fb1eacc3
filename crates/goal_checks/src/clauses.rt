//! The faults of trait references, equations and clauses, in a row with parameters or in a goal.
ghost use Rattle.std.specs.Prelude.{◌≡◌};
ghost use Rattle.goal_checks.specs.Params.{params_seen};
ghost use Rattle.goal_tables.specs.ParamKinds.{asks_other_kinds as asks_other};
ghost use Rattle.goal_tables.specs.Sites.{trait_params};
ghost use Rattle.goal_tables.specs.Clauses.{kinds_of, own_fault, lies_in_args, lies_in_trait_args, lies_in_trait_ref, denies_const, const_fault, lies_in_const_ref, lies_in_const_refs, kinds_differ, lies_in_equation, lies_in_clause_kind, lies_in_clauses};

use crate::checker::Checker;
use crate::params::{Params, asks_other_kinds, differs_in_count};
use goal_tables::faults::TermFault;
use goal_terms::ids::TraitId;
use goal_terms::kinds::{kind_of, kind_of_alias, same_kind};
use goal_terms::predicates::{Clause, ClauseKind, TraitRef};
use goal_terms::terms::{AliasTerm, GenericArg, Term};
use goal_terms::view::{Parts, TermRef};

/// Whether an alias and a term are of different kinds, where that is the fault that is looked for.
#[tactic(auto, unfolding(goal_tables::specs::Clauses::kinds_differ))]
pub(crate) fn kinds_differ(fault: TermFault, alias: &AliasTerm, term: &Term) -> bool
    ensures { result ≡ kinds_differ fault alias.now term.now }
{
    match fault {
        TermFault::WrongArgumentKind => {
            !same_kind(kind_of_alias(alias.kind), kind_of(term.view().node()))
        }
        TermFault::UnknownItem
        | TermFault::WrongArgumentCount
        | TermFault::ParameterOutOfRange
        | TermFault::InferInTable
        | TermFault::NeverConst => false,
    }
}

impl Checker<'_> {
    /// Whether the arguments of a trait are of other kinds than its parameters.
    #[tactic(auto, using(crate::proofs::ParamLemmas::kinds_of_args))]
    fn has_other_kinds(&self, id: TraitId, args: &[GenericArg]) -> bool
        ensures { result ≡ asks_other (trait_params self.now id) (kinds_of args.now) }
    {
        asks_other_kinds(self.trait_params(id), Parts::Args(args))
    }

    /// Whether a trait has no row, or is given other arguments than its parameters.
    #[tactic(auto, unfolding(goal_tables::specs::Clauses::own_fault))]
    pub(crate) fn own_fault(&self, fault: TermFault, id: TraitId, args: &[GenericArg]) -> bool
        ensures { result ≡ own_fault self.now fault id args.now }
    {
        match fault {
            TermFault::UnknownItem => self.rows.trait_row(id).is_none(),
            TermFault::WrongArgumentCount => differs_in_count(self.trait_params(id), args.len()),
            TermFault::WrongArgumentKind => self.has_other_kinds(id, args),
            TermFault::ParameterOutOfRange | TermFault::InferInTable | TermFault::NeverConst =>
                false,
        }
    }

    /// Whether a fault lies in some argument.
    fn lies_in_args(&self, params: Params<'_>, fault: TermFault, args: &[GenericArg]) -> bool
        ensures { result ≡ lies_in_args self.now (params_seen params.entry) fault args.now }
    {
        args.iter()
            .any(|argument| self.lies_in(params, fault, argument.view()))
    }

    /// Whether a fault lies in a trait with arguments.
    pub fn lies_in_trait_args(
        &self,
        params: Params<'_>,
        fault: TermFault,
        id: TraitId,
        args: &[GenericArg],
    ) -> bool
        ensures { result ≡ lies_in_trait_args self.now (params_seen params.entry) fault id args.now }
    {
        self.own_fault(fault, id, args) || self.lies_in_args(params, fault, args)
    }

    /// Whether a fault lies in a trait reference.
    pub fn lies_in_trait_ref(
        &self,
        params: Params<'_>,
        fault: TermFault,
        trait_ref: &TraitRef,
    ) -> bool
        ensures { result ≡ lies_in_trait_ref self.now (params_seen params.entry) fault trait_ref.now }
    {
        self.lies_in_trait_args(params, fault, trait_ref.def_id, trait_ref.args.as_slice())
    }

    /// Whether a trait doesn't allow const.
    pub fn denies_const(&self, id: TraitId) -> bool
        ensures { result ≡ denies_const self.now id }
    {
        match self.rows.trait_row(id) {
            None => false,
            Some(row) => !row.allows_const,
        }
    }

    /// Whether a trait doesn't allow const, where that is the fault that is looked for.
    #[tactic(auto, unfolding(goal_tables::specs::Clauses::const_fault))]
    pub fn const_fault(&self, fault: TermFault, id: TraitId) -> bool
        ensures { result ≡ const_fault self.now fault id }
    {
        match fault {
            TermFault::NeverConst => self.denies_const(id),
            TermFault::UnknownItem
            | TermFault::WrongArgumentCount
            | TermFault::WrongArgumentKind
            | TermFault::ParameterOutOfRange
            | TermFault::InferInTable => false,
        }
    }

    /// Whether a fault lies in a trait reference that is meant as a const bound.
    pub fn lies_in_const_ref(
        &self,
        params: Params<'_>,
        fault: TermFault,
        trait_ref: &TraitRef,
    ) -> bool
        ensures { result ≡ lies_in_const_ref self.now (params_seen params.entry) fault trait_ref.now }
    {
        self.lies_in_trait_ref(params, fault, trait_ref)
            || self.const_fault(fault, trait_ref.def_id)
    }

    /// Whether a fault lies in some of these const bounds.
    pub fn lies_in_const_refs(
        &self,
        params: Params<'_>,
        fault: TermFault,
        refs: &[TraitRef],
    ) -> bool
        ensures { result ≡ lies_in_const_refs self.now (params_seen params.entry) fault refs.now }
    {
        refs.iter()
            .any(|bound| self.lies_in_const_ref(params, fault, bound))
    }

    /// Whether a fault lies in an alias, in a term that it is to equal, or between the two.
    pub fn lies_in_equation(
        &self,
        params: Params<'_>,
        fault: TermFault,
        alias: &AliasTerm,
        term: &Term,
    ) -> bool
        ensures { result ≡ lies_in_equation self.now (params_seen params.entry) fault alias.now term.now }
    {
        self.lies_in(params, fault, TermRef::Alias(alias))
            || self.lies_in(params, fault, term.view())
            || kinds_differ(fault, alias, term)
    }

    /// Whether a fault lies in a clause.
    #[tactic(auto, unfolding(goal_tables::specs::Clauses::lies_in_clause_kind))]
    fn lies_in_clause_kind(&self, params: Params<'_>, fault: TermFault, kind: &ClauseKind) -> bool
        ensures { result ≡ lies_in_clause_kind self.now (params_seen params.entry) fault kind.now }
    {
        match kind {
            ClauseKind::Trait(predicate) => {
                self.lies_in_trait_ref(params, fault, &predicate.trait_ref)
            }
            ClauseKind::Projection(predicate) => self.lies_in_equation(
                params,
                fault,
                &predicate.projection_term,
                &predicate.term,
            ),
            ClauseKind::HostEffect(predicate) => {
                self.lies_in_const_ref(params, fault, &predicate.trait_ref)
            }
        }
    }

    /// Whether a fault lies in some clause.
    pub fn lies_in_clauses(&self, params: Params<'_>, fault: TermFault, clauses: &[Clause]) -> bool
        ensures { result ≡ lies_in_clauses self.now (params_seen params.entry) fault clauses.now }
    {
        clauses.iter().any(|clause| self.lies_in_clause_kind(params, fault, &clause.kind))
    }
}
