//! Whether the term that a goal asks for is free in a context.
ghost use Rattle.std.specs.Prelude.{◌≡◌, ◌<◌};
ghost use Rattle.goal_terms.specs.NodeTests.{some_node_within};
ghost use Rattle.goal_terms.specs.declared.heads.Node.TheVariants as nodes;
ghost use Rattle.goal_terms.specs.declared.node_tests.Within.TheVariants.{Everything};
ghost use Rattle.goal_terms.specs.View.{tree_of_ref};
ghost use Rattle.goal_tables.specs.Predicates.{some_in_args, some_in_equation, some_in_clause_kind, some_in_env};
ghost use Rattle.goal_solver.specs.FreeVariables.{general_variable, is_somewhere, reaches, is_bound, stands_in_storage, is_taken, lacks_free_term};

use crate::context::EvalCtxt;
use goal_infer::occurs::{Occurrence, occurs};
use goal_infer::resolve::binding;
use goal_terms::heads::{Node, Variable};
use goal_terms::node_tests::NodeTest;
use goal_terms::predicates::{Clause, ClauseKind, NormalizesTo};
use goal_terms::terms::{AliasTerm, GenericArg, InferTy, Term};
use goal_terms::view::TermRef;

/// The general variable at a node.
pub(crate) fn general_variable(node: Node) -> Option<Variable>
    ensures { result ≡ general_variable node }
{
    match node {
        Node::Variable(variable) => match variable {
            Variable::Ty(InferTy::TyVar(_)) | Variable::Const(_) => Some(variable),
            _ => None,
        },
        _ => None,
    }
}

/// Whether a variable stands somewhere.
fn is_somewhere(place: Occurrence) -> bool
    ensures { result ≡ is_somewhere place }
{
    match place {
        Occurrence::Nowhere => false,
        Occurrence::InAliasesAlone | Occurrence::Outside => true,
    }
}

impl EvalCtxt<'_> {
    /// Whether the expected term of a goal isn't free, as [`crate::eval::goals::GoalFault::ExpectedTermNotFree`] says. It
    /// takes no memory.
    pub(crate) fn lacks_free_term(&self, asked: &NormalizesTo, env: &[Clause]) -> bool
        ensures { result ≡ lacks_free_term self.now asked.now env.now }
    {
        match general_variable(asked.term.view().node()) {
            None => true,
            Some(variable) => self.is_taken(variable, &asked.alias, env),
        }
    }

    /// Whether a variable is bound, or stands in an alias, in an environment or in a hidden type.
    fn is_taken(&self, variable: Variable, alias: &AliasTerm, env: &[Clause]) -> bool
        ensures { result ≡ is_taken self.now variable alias.now env.now }
    {
        self.is_bound(variable)
            || self.stands_in(variable, TermRef::Alias(alias))
            || self.stands_in_env(variable, env)
            || self.stands_in_storage(variable)
    }

    fn is_bound(&self, variable: Variable) -> bool
        ensures { result ≡ is_bound self.now variable }
    {
        binding(&self.inference, variable).is_some()
    }

    /// Whether a variable stands in what another one stands for.
    fn reaches_from(&self, variable: Variable, found: Variable) -> bool
        ensures { result ≡ reaches self.now variable (nodes.Variable found) }
    {
        self.holds_together();
        match binding(&self.inference, found) {
            None => NodeTest::IsInfer(variable).passes(Node::Variable(found)),
            Some(id) => is_somewhere(occurs(&self.terms, &self.inference, variable, id)),
        }
    }

    /// Whether a variable stands in what a node stands for.
    #[tactic(auto, unfolding(crate::specs::FreeVariables::reaches))]
    fn reaches(&self, variable: Variable, node: Node) -> bool
        ensures { result ≡ reaches self.now variable node }
    {
        match node {
            Node::Head(_) => false,
            Node::Alias(_) => false,
            Node::Variable(found) => self.reaches_from(variable, found),
        }
    }

    /// Whether a variable stands in a term, bindings being followed.
    #[tactic(auto, using(goal_terms::proofs::NodeTestLemmas::testing))]
    fn stands_in(&self, variable: Variable, term: TermRef<'_>) -> bool
        ensures { result ≡ some_node_within Everything (reaches self.now variable) (tree_of_ref term.entry) }
    {
        if self.reaches(variable, term.node()) {
            return true;
        }
        let parts = term.parts();
        for i in 0..parts.len() {
            if self.stands_in(variable, parts.at(i)) {
                return true;
            }
        }
        false
    }

    fn stands_in_args(&self, variable: Variable, args: &[GenericArg]) -> bool
        ensures { result ≡ some_in_args (reaches self.now variable) args.now }
    {
        args.iter()
            .any(|argument| self.stands_in(variable, argument.view()))
    }

    fn stands_in_equation(&self, variable: Variable, alias: &AliasTerm, term: &Term) -> bool
        ensures { result ≡ some_in_equation (reaches self.now variable) alias.now term.now }
    {
        self.stands_in(variable, TermRef::Alias(alias)) || self.stands_in(variable, term.view())
    }

    fn stands_in_clause(&self, variable: Variable, kind: &ClauseKind) -> bool
        ensures { result ≡ some_in_clause_kind (reaches self.now variable) kind.now }
    {
        match kind {
            ClauseKind::Trait(clause) => self.stands_in_args(variable, &clause.trait_ref.args),
            ClauseKind::Projection(clause) => {
                self.stands_in_equation(variable, &clause.projection_term, &clause.term)
            }
            ClauseKind::HostEffect(clause) => self.stands_in_args(variable, &clause.trait_ref.args),
        }
    }

    fn stands_in_env(&self, variable: Variable, env: &[Clause]) -> bool
        ensures { result ≡ some_in_env (reaches self.now variable) env.now }
    {
        env.iter()
            .any(|clause| self.stands_in_clause(variable, &clause.kind))
    }

    /// Whether a variable stands in a hidden type of the storage.
    fn stands_in_storage(&self, variable: Variable) -> bool
        ensures { result ≡ stands_in_storage self.now variable }
    {
        self.storage
            .iter()
            .any(|entry| self.stands_in(variable, TermRef::Ty(&entry.1)))
    }
}
