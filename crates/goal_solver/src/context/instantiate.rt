//! Giving the expected term of an alias its value.
ghost use Rattle.std.specs.Prelude.{◌≡◌, ◌<◌, true, false, length, is_some, None, IfOk, IfSome, OnOk, OnErr, IsOkUnless};
ghost use Rattle.goal_terms.specs.Tree.{node_of, variable as tree_of_variable};
ghost use Rattle.goal_interner.specs.TableMeaning.{tree_at};
ghost use Rattle.goal_terms.specs.TreeOf.{tree_of_alias, tree_of_ty, tree_of_const, tree_of_term};
ghost use Rattle.goal_terms.specs.View.{tree_of_ref};
ghost use Rattle.goal_solver.specs.Binding.{IsFreeFor, BindsTo, OfVariable, AddsNormalization, BindsExpected, AddsExpected, StandsForAlias, StandsForNoAlias};
ghost use Rattle.goal_infer.specs.Binding.{bound_to};
ghost use Rattle.goal_solver.specs.GoingBack.{GoesBack, restored};
ghost use Rattle.goal_solver.specs.Normalizing.{EndsAt};
ghost use Rattle.goal_eval.specs.Pending.{is_alias};

use crate::context::EvalCtxt;
use crate::faults::Fault;
use goal_infer::bindings::bind_term;
use goal_infer::resolve::{binding, resolve};
use goal_interner::term_nodes::TermId;
use goal_terms::answers::GoalSource;
use goal_terms::heads::{Node, Variable};
use goal_terms::predicates::{Clause, Goal, NormalizesTo, Predicate};
use goal_terms::terms::{AliasTerm, Const, Term, Ty};
use goal_terms::view::TermRef;

impl EvalCtxt<'_> {
    /// Binds the variable that `term` is to an alias as it stands. The variable must be unbound and of the alias's
    /// kind, and must not stand in the alias. Only memory is refused; then inference state is as before.
    pub fn relate_rigid_alias_non_alias(
        &mut self,
        environment: &[Clause],
        alias: &AliasTerm,
        term: &Term,
    ) -> Result<(), Fault>
        requires free { OfVariable term.now (IsFreeFor self.old (tree_of_alias alias.now)) }
        ensures bound { OnOk result (OfVariable term.now (BindsTo self.old self.new (tree_of_alias alias.now))) }
        ensures unchanged { OnErr result (self.new ≡ restored self.old self.new) }
        ensures goes_back { GoesBack self.old self.new }
        ensures only_memory { IsOkUnless result Fault.OutOfMemory }
    {
        let _ = environment;
        self.bind_expected(term, TermRef::Alias(alias))
    }

    /// Binds the expected term of a goal to an alias as it stands, as `relate_rigid_alias_non_alias` does.
    pub fn structurally_instantiate_normalizes_to_term(
        &mut self,
        goal: &Goal<NormalizesTo>,
        alias: &AliasTerm,
    ) -> Result<(), Fault>
        requires free { OfVariable goal.now.predicate.term (IsFreeFor self.old (tree_of_alias alias.now)) }
        ensures bound { OnOk result (OfVariable goal.now.predicate.term (BindsTo self.old self.new (tree_of_alias alias.now))) }
        ensures unchanged { OnErr result (self.new ≡ restored self.old self.new) }
        ensures goes_back { GoesBack self.old self.new }
        ensures only_memory { IsOkUnless result Fault.OutOfMemory }
    {
        self.bind_expected(&goal.predicate.term, TermRef::Alias(alias))
    }

    /// Gives the expected term of a goal a term. One that is no alias is bound to it as it stands; for an alias the
    /// goal is added that it normalizes to the expected term. Only memory is refused; then inference state and
    /// added goals are as before.
    pub fn instantiate_normalizes_to_term(
        &mut self,
        goal: &Goal<NormalizesTo>,
        term: Term,
    ) -> Result<(), Fault>
        requires free { OfVariable goal.now.predicate.term (IsFreeFor self.old (tree_of_term term)) }
        ensures bound { is_alias (node_of (tree_of_term term)) ≡ false → OnOk result (BindsExpected self.old self.new goal.now (tree_of_term term)) }
        ensures added { is_alias (node_of (tree_of_term term)) ≡ true → OnOk result (AddsExpected self.old self.new goal.now (tree_of_term term)) }
        ensures unchanged { OnErr result (self.new ≡ restored self.old self.new) }
        ensures goes_back { GoesBack self.old self.new }
        ensures only_memory { IsOkUnless result Fault.OutOfMemory }
    {
        if let Node::Alias(_) = term.view().node() {
            self.add_normalization(&goal.param_env, into_alias(term), &goal.predicate.term)
        } else {
            self.bind_expected(&goal.predicate.term, term.view())
        }
    }

    /// Adds the goal that an alias normalizes to an expected term, in an environment. Only memory is refused; then
    /// nothing is added.
    pub(crate) fn add_normalization(
        &mut self,
        environment: &[Clause],
        alias: AliasTerm,
        expected: &Term,
    ) -> Result<(), Fault>
        ensures added { OnOk result (AddsNormalization self.old self.new (tree_of_alias alias) (tree_of_term expected.now) environment.now) }
        ensures unchanged { OnErr result (self.new ≡ self.old) }
        ensures goes_back { GoesBack self.old self.new }
        ensures only_memory { IsOkUnless result Fault.OutOfMemory }
    {
        let Ok(param_env) = environment.to_vec(self.allocator()) else {
            return Err(Fault::OutOfMemory);
        };
        let Ok(term) = expected.clone() else {
            return Err(Fault::OutOfMemory);
        };
        let predicate = Predicate::NormalizesTo(NormalizesTo { alias, term });
        self.add_goal(
            GoalSource::TypeRelating,
            Goal {
                param_env,
                predicate,
            },
        )
    }

    /// Binds the variable that a term is to a part of a term as it stands. The variable must be unbound and of the
    /// part's kind, and must not stand in the part. Only memory is refused; then inference state is as before.
    fn bind_expected(&mut self, expected: &Term, part: TermRef<'_>) -> Result<(), Fault>
        requires free { OfVariable expected.now (IsFreeFor self.old (tree_of_ref part)) }
        ensures bound { OnOk result (OfVariable expected.now (BindsTo self.old self.new (tree_of_ref part.entry))) }
        ensures unchanged { OnErr result (self.new ≡ restored self.old self.new) }
        ensures goes_back { GoesBack self.old self.new }
        ensures only_memory { IsOkUnless result Fault.OutOfMemory }
    {
        match expected.view().node() {
            Node::Variable(variable) => self.bind_to(variable, part),
            Node::Head(_) | Node::Alias(_) => unreachable!(),
        }
    }

    /// The alias that a term is, or that it stands for, bindings followed at the top. Only memory is refused.
    pub(crate) fn resolved_alias(&self, term: &Term) -> Result<Option<AliasTerm>, Fault>
        ensures alias { IfOk result (λ o. IfSome o (λ a. StandsForAlias self.now (tree_of_term term.now) (tree_of_alias a))) }
        ensures none { IfOk result (λ o. o ≡ None → StandsForNoAlias self.now (tree_of_term term.now)) }
        ensures only_memory { IsOkUnless result Fault.OutOfMemory }
    {
        match term.view().node() {
            Node::Head(_) => Ok(None),
            Node::Variable(variable) => self.alias_behind(variable),
            Node::Alias(_) => match term.clone() {
                Ok(copy) => Ok(Some(into_alias(copy))),
                Err(_) => Err(Fault::OutOfMemory),
            },
        }
    }

    /// The alias that a variable stands for. Only memory is refused.
    fn alias_behind(&self, variable: Variable) -> Result<Option<AliasTerm>, Fault>
        ensures alias { IfOk result (λ o. IfSome o (λ a. StandsForAlias self.now (tree_of_variable variable) (tree_of_alias a))) }
        ensures none { IfOk result (λ o. o ≡ None → StandsForNoAlias self.now (tree_of_variable variable)) }
        ensures only_memory { IsOkUnless result Fault.OutOfMemory }
    {
        self.holds_together();
        match binding(&self.inference, variable) {
            None => Ok(None),
            Some(id) => self.alias_at(resolve(&self.terms, &self.inference, id)),
        }
    }

    /// The alias that the term of a number is. Only memory is refused.
    pub(crate) fn alias_at(&self, id: TermId) -> Result<Option<AliasTerm>, Fault>
        requires { id.0 < length self.now.terms }
        ensures alias { IfOk result (λ o. IfSome o (λ a. tree_of_alias a ≡ tree_at self.now.terms id)) }
        ensures none { IfOk result (λ o. is_some o ≡ is_alias (node_of (tree_at self.now.terms id))) }
        ensures only_memory { IsOkUnless result Fault.OutOfMemory }
    {
        match self.terms.node(id) {
            Node::Head(_) => Ok(None),
            Node::Variable(_) => Ok(None),
            Node::Alias(_) => match self.terms.to_term(id) {
                Ok(copy) => Ok(Some(into_alias(copy))),
                Err(_) => Err(Fault::OutOfMemory),
            },
        }
    }

    /// Binds a variable to a part of a term as it stands. The variable must be unbound and of the part's kind, and
    /// must not stand in the part. Only memory is refused; then inference state is as before.
    pub(crate) fn bind_to(&mut self, variable: Variable, part: TermRef<'_>) -> Result<(), Fault>
        requires free { IsFreeFor self.old (tree_of_ref part) variable }
        ensures bound { OnOk result (BindsTo self.old self.new (tree_of_ref part.entry) variable) }
        ensures unchanged { OnErr result (self.new ≡ restored self.old self.new) }
        ensures goes_back { GoesBack self.old self.new }
        ensures only_memory { IsOkUnless result Fault.OutOfMemory }
    {
        self.holds_together();
        match self.terms.intern_part(part) {
            Ok(id) => self.bind_number(variable, id),
            Err(_) => Err(Fault::OutOfMemory),
        }
    }

    /// Binds a variable to the term of a number, as `bind_to` does. Only memory is refused; then nothing changes.
    pub(crate) fn bind_number(&mut self, variable: Variable, id: TermId) -> Result<(), Fault>
        requires within { id.0 < length self.old.terms }
        requires free { IsFreeFor self.old (tree_at self.old.terms id) variable }
        ensures bound { OnOk result (BindsTo self.old self.new (tree_at self.old.terms id) variable) }
        ensures alone { self.new ≡ record self.old { inference = self.new.inference } }
        ensures itself { EndsAt self.old id → OnOk result (self.new ≡ record self.old { inference = bound_to self.old.inference variable id }) }
        ensures unchanged { OnErr result (self.new ≡ self.old) }
        ensures goes_back { GoesBack self.old self.new }
        ensures only_memory { IsOkUnless result Fault.OutOfMemory }
    {
        let Ok(()) = bind_term(&self.terms, &mut self.inference, variable, id) else {
            return Err(Fault::OutOfMemory);
        };
        Ok(())
    }
}

#[tactic(auto, using(goal_terms::proofs::TreeLemmas::tree_equations))]
/// The alias that a term is.
pub(crate) fn into_alias(term: Term) -> AliasTerm
    requires { is_alias (node_of (tree_of_term term)) ≡ true }
    ensures { tree_of_alias result ≡ tree_of_term term }
{
    match term {
        Term::Ty(ty) => type_alias(ty),
        Term::Const(value) => const_alias(value),
    }
}

#[tactic(auto, using(goal_terms::proofs::TreeLemmas::tree_equations))]
/// The alias that a type is.
fn type_alias(ty: Ty) -> AliasTerm
    requires { is_alias (node_of (tree_of_ty ty)) ≡ true }
    ensures { tree_of_alias result ≡ tree_of_ty ty }
{
    match ty {
        Ty::Alias(alias) => alias,
        _ => unreachable!(),
    }
}

#[tactic(auto, using(goal_terms::proofs::TreeLemmas::tree_equations))]
/// The alias that a constant is.
fn const_alias(value: Const) -> AliasTerm
    requires { is_alias (node_of (tree_of_const value)) ≡ true }
    ensures { tree_of_alias result ≡ tree_of_const value }
{
    match value {
        Const::Alias(alias) => alias,
        _ => unreachable!(),
    }
}
