//! The flaws of goals: an id, a number of arguments or a kind that is wrong, or something that passes a test. One walk
//! looks for all of them.
ghost use Rattle.std.specs.Prelude.{◌≡◌, false};
ghost use Rattle.goal_terms.specs.NodeTests.{passes};
ghost use Rattle.goal_terms.specs.View.{tree_of_ref};
ghost use Rattle.goal_tables.specs.Clauses.{own_fault};
ghost use Rattle.goal_tables.specs.Flaws.{is_flawed, flaw_lies_here, flaw_lies_in, flaw_lies_in_args, flaw_lies_in_trait_ref, flaw_lies_in_equation, flaw_lies_in_clause_kind, flaw_lies_in_env};

use crate::checker::Checker;
use crate::clauses::kinds_differ;
use crate::params::{asks_other_kinds, differs_in_count};
use goal_tables::faults::TermFault;
use goal_terms::ids::TraitId;
use goal_terms::node_tests::NodeTest;
use goal_terms::predicates::{Clause, ClauseKind, TraitRef};
use goal_terms::terms::{AliasTerm, GenericArg, Term};
use goal_terms::view::TermRef;

impl Checker<'_> {
    /// Whether a flaw lies at the top of a term.
    #[tactic(auto, unfolding(goal_tables::specs::Flaws::flaw_lies_here, goal_tables::specs::Sites::lies_here))]
    fn flaw_lies_here(&self, test: NodeTest<'_>, term: TermRef<'_>) -> bool
        ensures { result ≡ flaw_lies_here self.now (passes test.entry) (tree_of_ref term.entry) }
    {
        let node = term.node();
        let params = self.params_of(node);
        self.is_unknown(node)
            || differs_in_count(params, term.parts().len())
            || asks_other_kinds(params, term.parts())
            || self.is_misplaced(node)
            || test.passes(node)
    }

    /// Whether a flaw lies anywhere in a term.
    #[tactic(auto, using(crate::proofs::FlawLemmas::flawing))]
    pub fn flaw_lies_in(&self, test: NodeTest<'_>, term: TermRef<'_>) -> bool
        ensures { result ≡ flaw_lies_in self.now (passes test.entry) (tree_of_ref term.entry) }
    {
        if self.flaw_lies_here(test, term) {
            return true;
        }
        let parts = term.parts();
        for i in 0..parts.len() {
            if self.flaw_lies_in(test, parts.at(i)) {
                return true;
            }
        }
        false
    }

    /// Whether a flaw lies in some argument.
    fn flaw_lies_in_args(&self, test: NodeTest<'_>, args: &[GenericArg]) -> bool
        ensures { result ≡ flaw_lies_in_args self.now (passes test.entry) args.now }
    {
        args.iter()
            .any(|argument| self.flaw_lies_in(test, argument.view()))
    }

    /// Whether a trait has no row, or is given other arguments than its parameters.
    fn own_flaw(&self, id: TraitId, args: &[GenericArg]) -> bool
        ensures { result ≡ is_flawed (λ f. own_fault self.now f id args.now) false }
    {
        self.own_fault(TermFault::UnknownItem, id, args)
            || self.own_fault(TermFault::WrongArgumentCount, id, args)
            || self.own_fault(TermFault::WrongArgumentKind, id, args)
    }

    /// Whether a flaw lies in a trait reference.
    #[tactic(auto, using(crate::proofs::FlawLemmas::joining))]
    pub fn flaw_lies_in_trait_ref(&self, test: NodeTest<'_>, trait_ref: &TraitRef) -> bool
        ensures { result ≡ flaw_lies_in_trait_ref self.now (passes test.entry) trait_ref.now }
    {
        self.own_flaw(trait_ref.def_id, trait_ref.args.as_slice())
            || self.flaw_lies_in_args(test, trait_ref.args.as_slice())
    }

    /// Whether a flaw lies in an alias, in a term that it is to equal, or between the two.
    #[tactic(auto, using(crate::proofs::FlawLemmas::joining))]
    pub fn flaw_lies_in_equation(&self, test: NodeTest<'_>, alias: &AliasTerm, term: &Term) -> bool
        ensures { result ≡ flaw_lies_in_equation self.now (passes test.entry) alias.now term.now }
    {
        self.flaw_lies_in(test, TermRef::Alias(alias))
            || self.flaw_lies_in(test, term.view())
            || kinds_differ(TermFault::WrongArgumentKind, alias, term)
    }

    /// Whether a flaw lies in a clause.
    #[tactic(auto, using(crate::proofs::FlawLemmas::joining))]
    fn flaw_lies_in_clause_kind(&self, test: NodeTest<'_>, kind: &ClauseKind) -> bool
        ensures { result ≡ flaw_lies_in_clause_kind self.now (passes test.entry) kind.now }
    {
        match kind {
            ClauseKind::Trait(predicate) => {
                self.flaw_lies_in_trait_ref(test, &predicate.trait_ref)
            }
            ClauseKind::Projection(predicate) => {
                self.flaw_lies_in_equation(test, &predicate.projection_term, &predicate.term)
            }
            ClauseKind::HostEffect(predicate) => {
                self.flaw_lies_in_trait_ref(test, &predicate.trait_ref)
            }
        }
    }

    /// Whether a flaw lies in an environment.
    pub fn flaw_lies_in_env(&self, test: NodeTest<'_>, env: &[Clause]) -> bool
        ensures { result ≡ flaw_lies_in_env self.now (passes test.entry) env.now }
    {
        env.iter()
            .any(|clause| self.flaw_lies_in_clause_kind(test, &clause.kind))
    }
}
