//! The terms of predicates and of environments, as the checks of goals go over them.
ghost use Rattle.std.specs.Prelude.{◌≡◌, [], Bool, Option, option_copied};
ghost use Rattle.goal_terms.specs.NodeTests.{passes};
ghost use Rattle.goal_tables.specs.Flaws.{is_flawed as flawed};
ghost use Rattle.goal_terms.specs.declared.heads.Node.{Node as node};
ghost use Rattle.goal_terms.specs.declared.predicates.NormalizesTo.{NormalizesTo as normalizes};
ghost use Rattle.goal_tables.specs.Clauses.{lies_in_clause_kind};
ghost use Rattle.goal_tables.specs.Predicates.{lies_in_env as in_env, some_in_args as some_args, some_in_equation as some_equation, some_in_clause_kind as some_clause_kind, some_in_env as some_env};
ghost use Rattle.goal_tables.specs.declared.rows.Tables.{Tables as tables};
ghost use Rattle.goal_tables.specs.declared.faults.TermFault.{TermFault as term_fault};

use crate::checker::Checker;
use crate::params::Params;
use goal_tables::faults::TermFault;
use goal_tables::lookup::IndexedTables;
use goal_terms::node_tests::NodeTest;
use goal_terms::predicates::{
    Clause, ClauseKind, HostEffectPredicate, NormalizesTo, Predicate, ProjectionPredicate,
    TraitPredicate,
};
use goal_terms::terms::{AliasTerm, GenericArg, Term};
use goal_terms::view::TermRef;

/// A predicate whose terms can be checked.
pub trait PredicateTerms {
    /// Whether a fault lies in the predicate.
    ghost has_fault: { Self → tables → term_fault → Bool };

    /// Whether something in the predicate passes a test.
    ghost has_passing: { Self → (node → Bool) → Bool };

    /// The goal of an alias's term, if the predicate is one.
    ghost normalization: { Self → Option normalizes };

    /// Whether a fault lies in the predicate.
    fn lies_in(&self, rows: &IndexedTables, fault: TermFault) -> bool
        ensures { result ≡ has_fault self.now rows.now fault };

    /// Whether something in the predicate passes a test.
    fn some_passes(&self, test: NodeTest<'_>) -> bool
        ensures { result ≡ has_passing self.now (passes test.entry) };

    /// Whether an id, a number of arguments or a kind is wrong in the predicate, or something in it passes a test. Its
    /// terms are walked once.
    fn is_flawed(&self, rows: &IndexedTables, test: NodeTest<'_>) -> bool
        ensures { result ≡ flawed (has_fault self.now rows.now) (has_passing self.now (passes test.entry)) };

    /// Whether the predicate says something const of a trait that doesn't allow it. No term is walked.
    fn is_never_const(&self, rows: &IndexedTables) -> bool
        ensures { result ≡ has_fault self.now rows.now TermFault.NeverConst };

    /// The goal of an alias's term, if the predicate is one.
    fn normalizes_to(&self) -> Option<&NormalizesTo>
        ensures { option_copied result ≡ normalization self.now };
}

impl PredicateTerms for TraitPredicate {
    ghost use Rattle.std.specs.Prelude.{[], None, Some};
    ghost use Rattle.goal_tables.specs.Clauses.{lies_in_trait_ref, lies_in_const_ref, lies_in_equation};
    ghost use Rattle.goal_tables.specs.Predicates.{some_in_args, some_in_equation, lies_in_predicate, some_in_predicate, normalization_of};

    ghost has_fault = { λ p t f. lies_in_trait_ref t [] f p.trait_ref };

    ghost has_passing = { λ p test. some_in_args test p.trait_ref.args.items };

    ghost normalization = { λ p. None };

    fn lies_in(&self, rows: &IndexedTables, fault: TermFault) -> bool {
        Checker::of(rows).lies_in_trait_ref(Params::of(&[]), fault, &self.trait_ref)
    }

    fn some_passes(&self, test: NodeTest<'_>) -> bool {
        some_in_args(test, &self.trait_ref.args)
    }

    #[tactic(auto, unfolding(goal_tables::specs::Flaws::flaw_lies_in_trait_ref))]
    fn is_flawed(&self, rows: &IndexedTables, test: NodeTest<'_>) -> bool {
        Checker::of(rows).flaw_lies_in_trait_ref(test, &self.trait_ref)
    }

    #[tactic(auto, using(crate::proofs::FlawLemmas::telling))]
    fn is_never_const(&self, rows: &IndexedTables) -> bool {
        false
    }

    fn normalizes_to(&self) -> Option<&NormalizesTo> {
        None
    }
}

impl PredicateTerms for HostEffectPredicate {
    ghost use Rattle.std.specs.Prelude.{[], None, Some};
    ghost use Rattle.goal_tables.specs.Clauses.{lies_in_trait_ref, lies_in_const_ref, lies_in_equation};
    ghost use Rattle.goal_tables.specs.Predicates.{some_in_args, some_in_equation, lies_in_predicate, some_in_predicate, normalization_of};

    ghost has_fault = { λ p t f. lies_in_const_ref t [] f p.trait_ref };

    ghost has_passing = { λ p test. some_in_args test p.trait_ref.args.items };

    ghost normalization = { λ p. None };

    fn lies_in(&self, rows: &IndexedTables, fault: TermFault) -> bool {
        Checker::of(rows).lies_in_const_ref(Params::of(&[]), fault, &self.trait_ref)
    }

    fn some_passes(&self, test: NodeTest<'_>) -> bool {
        some_in_args(test, &self.trait_ref.args)
    }

    fn is_flawed(&self, rows: &IndexedTables, test: NodeTest<'_>) -> bool {
        Checker::of(rows).flaw_lies_in_trait_ref(test, &self.trait_ref)
    }

    #[tactic(auto, using(crate::proofs::FlawLemmas::telling))]
    fn is_never_const(&self, rows: &IndexedTables) -> bool {
        Checker::of(rows).denies_const(self.trait_ref.def_id)
    }

    fn normalizes_to(&self) -> Option<&NormalizesTo> {
        None
    }
}

impl PredicateTerms for ProjectionPredicate {
    ghost use Rattle.std.specs.Prelude.{[], None, Some};
    ghost use Rattle.goal_tables.specs.Clauses.{lies_in_trait_ref, lies_in_const_ref, lies_in_equation};
    ghost use Rattle.goal_tables.specs.Predicates.{some_in_args, some_in_equation, lies_in_predicate, some_in_predicate, normalization_of};

    ghost has_fault = { λ p t f. lies_in_equation t [] f p.projection_term p.term };

    ghost has_passing = { λ p test. some_in_equation test p.projection_term p.term };

    ghost normalization = { λ p. None };

    fn lies_in(&self, rows: &IndexedTables, fault: TermFault) -> bool {
        Checker::of(rows).lies_in_equation(
            Params::of(&[]),
            fault,
            &self.projection_term,
            &self.term,
        )
    }

    fn some_passes(&self, test: NodeTest<'_>) -> bool {
        some_in_equation(test, &self.projection_term, &self.term)
    }

    #[tactic(auto, unfolding(goal_tables::specs::Flaws::flaw_lies_in_equation))]
    fn is_flawed(&self, rows: &IndexedTables, test: NodeTest<'_>) -> bool {
        Checker::of(rows).flaw_lies_in_equation(test, &self.projection_term, &self.term)
    }

    #[tactic(auto, using(crate::proofs::FlawLemmas::telling))]
    fn is_never_const(&self, rows: &IndexedTables) -> bool {
        false
    }

    fn normalizes_to(&self) -> Option<&NormalizesTo> {
        None
    }
}

impl PredicateTerms for NormalizesTo {
    ghost use Rattle.std.specs.Prelude.{[], None, Some};
    ghost use Rattle.goal_tables.specs.Clauses.{lies_in_trait_ref, lies_in_const_ref, lies_in_equation};
    ghost use Rattle.goal_tables.specs.Predicates.{some_in_args, some_in_equation, lies_in_predicate, some_in_predicate, normalization_of};

    ghost has_fault = { λ p t f. lies_in_equation t [] f p.alias p.term };

    ghost has_passing = { λ p test. some_in_equation test p.alias p.term };

    ghost normalization = { λ p. Some p };

    fn lies_in(&self, rows: &IndexedTables, fault: TermFault) -> bool {
        Checker::of(rows).lies_in_equation(Params::of(&[]), fault, &self.alias, &self.term)
    }

    fn some_passes(&self, test: NodeTest<'_>) -> bool {
        some_in_equation(test, &self.alias, &self.term)
    }

    #[tactic(auto, unfolding(goal_tables::specs::Flaws::flaw_lies_in_equation))]
    fn is_flawed(&self, rows: &IndexedTables, test: NodeTest<'_>) -> bool {
        Checker::of(rows).flaw_lies_in_equation(test, &self.alias, &self.term)
    }

    #[tactic(auto, using(crate::proofs::FlawLemmas::telling))]
    fn is_never_const(&self, rows: &IndexedTables) -> bool {
        false
    }

    fn normalizes_to(&self) -> Option<&NormalizesTo> {
        Some(self)
    }
}

impl PredicateTerms for Predicate {
    ghost use Rattle.std.specs.Prelude.{[], None, Some};
    ghost use Rattle.goal_tables.specs.Clauses.{lies_in_trait_ref, lies_in_const_ref, lies_in_equation};
    ghost use Rattle.goal_tables.specs.Predicates.{some_in_args, some_in_equation, lies_in_predicate, some_in_predicate, normalization_of};

    ghost has_fault = { λ p t f. lies_in_predicate t f p };

    ghost has_passing = { λ p test. some_in_predicate test p };

    ghost normalization = { λ p. normalization_of p };

    fn lies_in(&self, rows: &IndexedTables, fault: TermFault) -> bool {
        match self {
            Predicate::Trait(predicate) => predicate.lies_in(rows, fault),
            Predicate::Projection(predicate) => predicate.lies_in(rows, fault),
            Predicate::HostEffect(predicate) => predicate.lies_in(rows, fault),
            Predicate::NormalizesTo(predicate) => predicate.lies_in(rows, fault),
            Predicate::Ambiguous => false,
        }
    }

    fn some_passes(&self, test: NodeTest<'_>) -> bool {
        match self {
            Predicate::Trait(predicate) => predicate.some_passes(test),
            Predicate::Projection(predicate) => predicate.some_passes(test),
            Predicate::HostEffect(predicate) => predicate.some_passes(test),
            Predicate::NormalizesTo(predicate) => predicate.some_passes(test),
            Predicate::Ambiguous => false,
        }
    }

    fn is_flawed(&self, rows: &IndexedTables, test: NodeTest<'_>) -> bool {
        match self {
            Predicate::Trait(predicate) => predicate.is_flawed(rows, test),
            Predicate::Projection(predicate) => predicate.is_flawed(rows, test),
            Predicate::HostEffect(predicate) => predicate.is_flawed(rows, test),
            Predicate::NormalizesTo(predicate) => predicate.is_flawed(rows, test),
            Predicate::Ambiguous => false,
        }
    }

    fn is_never_const(&self, rows: &IndexedTables) -> bool {
        match self {
            Predicate::Trait(predicate) => predicate.is_never_const(rows),
            Predicate::Projection(predicate) => predicate.is_never_const(rows),
            Predicate::HostEffect(predicate) => predicate.is_never_const(rows),
            Predicate::NormalizesTo(predicate) => predicate.is_never_const(rows),
            Predicate::Ambiguous => false,
        }
    }

    fn normalizes_to(&self) -> Option<&NormalizesTo> {
        match self {
            Predicate::NormalizesTo(predicate) => Some(predicate),
            Predicate::Trait(_)
            | Predicate::Projection(_)
            | Predicate::HostEffect(_)
            | Predicate::Ambiguous => None,
        }
    }
}

/// Whether a fault lies in an environment.
pub fn lies_in_env(rows: &IndexedTables, fault: TermFault, env: &[Clause]) -> bool
    ensures { result ≡ in_env rows.now fault env.now }
{
    Checker::of(rows).lies_in_clauses(Params::of(&[]), fault, env)
}

/// Whether a clause says something const of a trait that doesn't allow it.
#[tactic(auto, unfolding(goal_tables::specs::Clauses::lies_in_clause_kind))]
fn is_never_const(rows: &IndexedTables, kind: &ClauseKind) -> bool
    ensures { result ≡ lies_in_clause_kind rows.now [] TermFault.NeverConst kind.now }
{
    match kind {
        ClauseKind::Trait(predicate) => predicate.is_never_const(rows),
        ClauseKind::Projection(predicate) => predicate.is_never_const(rows),
        ClauseKind::HostEffect(predicate) => predicate.is_never_const(rows),
    }
}

/// Whether an environment says something const of a trait that doesn't allow it. No term is walked.
pub fn some_never_const(rows: &IndexedTables, env: &[Clause]) -> bool
    ensures { result ≡ in_env rows.now TermFault.NeverConst env.now }
{
    env.iter().any(|clause| is_never_const(rows, &clause.kind))
}

fn some_in_args(test: NodeTest<'_>, args: &[GenericArg]) -> bool
    ensures { result ≡ some_args (passes test.entry) args.now }
{
    args.iter().any(|argument| test.passes_in(argument.view()))
}

fn some_in_equation(test: NodeTest<'_>, alias: &AliasTerm, term: &Term) -> bool
    ensures { result ≡ some_equation (passes test.entry) alias.now term.now }
{
    test.passes_in(TermRef::Alias(alias)) || test.passes_in(term.view())
}

fn some_in_clause_kind(test: NodeTest<'_>, kind: &ClauseKind) -> bool
    ensures { result ≡ some_clause_kind (passes test.entry) kind.now }
{
    match kind {
        ClauseKind::Trait(predicate) => some_in_args(test, &predicate.trait_ref.args),
        ClauseKind::Projection(predicate) => {
            some_in_equation(test, &predicate.projection_term, &predicate.term)
        }
        ClauseKind::HostEffect(predicate) => some_in_args(test, &predicate.trait_ref.args),
    }
}

/// Whether something in an environment passes a test.
pub fn some_in_env(test: NodeTest<'_>, env: &[Clause]) -> bool
    ensures { result ≡ some_env (passes test.entry) env.now }
{
    env.iter()
        .any(|clause| some_in_clause_kind(test, &clause.kind))
}
