//! Whether a goal that was added holds.
ghost use Rattle.std.specs.Prelude.{◌≡◌, ◌<◌, ◌||◌, length, None, IfOk, IfErr, IfSome, OnOk, IsOkUnless};
ghost use Rattle.goal_interner.specs.TableMeaning.{Keeps, tree_at};
ghost use Rattle.goal_terms.specs.TreeOf.{tree_of_term};
ghost use Rattle.goal_infer.specs.Resolution.{binding_of};
ghost use Rattle.goal_lists.specs.Interned.{IsIn, AreIn, PredicateIn};
ghost use Rattle.goal_eval.specs.Outcomes.{FoundIn};
ghost use Rattle.goal_solver.specs.Accesses.{RecordsCausedFaults};
ghost use Rattle.goal_solver.specs.AddedGoals.{IsClosedGoal, IsAnswerable, BindsBy, SaysGoal, SaysGoalAt, HoldsNoVariable};
ghost use Rattle.goal_solver.specs.Binding.{IsFreeFor};
ghost use Rattle.goal_solver.specs.Evaluations.{SaysOf, StopsForMemory, predicate_seen};
ghost use Rattle.goal_solver.specs.GoingBack.{GoesBack};
ghost use Rattle.goal_solver.specs.Normalizing.{WhereNormalizable, BindsOutcome, EndsAt, IsBoundAt, GivesFitting};
ghost use Rattle.goal_solver.specs.Relating.{ChangesRecords};

use crate::context::EvalCtxt;
use crate::context::rebuilding::rebuilt_args;
use crate::eval::closed_goals::{has_variable, is_closed_alias};
use crate::eval::free_variables::general_variable;
use crate::eval::open_terms::any_variable;
use crate::eval::predicate_views::PredicateView;
use crate::faults::Fault;
use goal_checks::predicate_terms::some_in_env;
use goal_eval::eval::outcomes::{Found, Stop};
use goal_eval::eval::region_constraints::RegionConstraints;
use goal_infer::bindings::may_become;
use goal_infer::followed::{follow, follow_all};
use goal_infer::resolve::resolve;
use goal_infer::unify::{Unified, unify};
use goal_interner::term_nodes::TermId;
use goal_lists::candidates::interned::{InternedPredicate, InternedTrait};
use goal_lists::outcomes::Outcome;
use goal_search::written_out::may_be_written_out;
use goal_terms::heads::Variable;
use goal_terms::ids::TraitId;
use goal_terms::node_tests::NodeTest;
use goal_terms::predicates::{BoundConstness, Clause, Goal, NormalizesTo, Predicate, TraitRef};
use goal_terms::terms::{AliasTerm, AliasTermKind, GenericArg, Term};

/// A goal with inference variables that its candidates are asked for: a trait with the numbers of its arguments, the
/// bindings of variables followed, and of which constness it is asked as a const trait.
#[derive(Drop)]
pub(crate) struct OpenGoal {
    pub trait_id: TraitId,
    pub args: Vec<TermId>,
    pub constness: Option<BoundConstness>,
}

impl EvalCtxt<'_> {
    /// Whether a goal holds at the remaining depth.
    pub(crate) fn goal_outcome(&mut self, goal: &Goal<Predicate>) -> Result<Outcome, Stop>
        ensures says { SaysGoal self.old self.new goal.now result }
        ensures keeps { BindsBy self.old self.new goal.now result }
        ensures closed { IsClosedGoal goal.now.predicate goal.now.param_env.items → self.new.inference ≡ self.old.inference }
        ensures alone { ChangesRecords self.old self.new }
        ensures faults { RecordsCausedFaults self.old self.new }
        ensures goes_back { GoesBack self.old self.new }
        ensures stops { StopsForMemory self.old result }
    {
        match &goal.predicate {
            Predicate::Trait(predicate) => {
                self.asked_outcome(goal, PredicateView::Trait(predicate))
            }
            Predicate::HostEffect(predicate) => {
                self.asked_outcome(goal, PredicateView::HostEffect(predicate))
            }
            Predicate::Projection(predicate) => {
                self.asked_outcome(goal, PredicateView::Projection(predicate))
            }
            Predicate::NormalizesTo(predicate) => {
                self.normalization_outcome(goal.param_env.as_slice(), predicate)
            }
            Predicate::Ambiguous => Ok(Outcome::Undecided),
        }
    }

    /// A goal with the bindings of its variables followed, if a variable is left in it or stands in its environment,
    /// and its candidates are to be asked for it: a trait goal or a host effect goal that isn't too large to be written
    /// out. Nothing changes but that there may be more terms. Only memory is refused.
    pub(crate) fn open_goal(&mut self, goal: &Goal<Predicate>) -> Result<Option<OpenGoal>, Fault>
        ensures closed { IsAnswerable self.old goal.now.predicate goal.now.param_env.items → IfOk result (λ o. o ≡ None) }
        ensures within { IfOk result (λ o. IfSome o (λ asked. AreIn self.new.terms asked.args.items)) }
        ensures unchanged { self.new ≡ record self.old { terms = self.new.terms } }
        ensures kept { Keeps self.old.terms self.new.terms }
        ensures only_memory { IsOkUnless result Fault.OutOfMemory }
    {
        if !has_variable(goal) {
            return Ok(None);
        }
        match &goal.predicate {
            Predicate::Trait(asked) => self.open_trait(&asked.trait_ref, None, &goal.param_env),
            Predicate::HostEffect(asked) => self.open_trait(
                &asked.trait_ref,
                Some(asked.constness),
                &goal.param_env,
            ),
            _ => Ok(None),
        }
    }

    /// The same of a trait with its arguments, as `open_args` has these. Nothing changes but that there may be more
    /// terms. Only memory is refused.
    fn open_trait(
        &mut self,
        asked: &TraitRef,
        constness: Option<BoundConstness>,
        environment: &[Clause],
    ) -> Result<Option<OpenGoal>, Fault>
        ensures within { IfOk result (λ o. IfSome o (λ asked. AreIn self.new.terms asked.args.items)) }
        ensures unchanged { self.new ≡ record self.old { terms = self.new.terms } }
        ensures kept { Keeps self.old.terms self.new.terms }
        ensures only_memory { IsOkUnless result Fault.OutOfMemory }
    {
        match self.open_args(&asked.args, environment) {
            Ok(Some(args)) => Ok(Some(OpenGoal {
                trait_id: asked.def_id,
                args,
                constness,
            })),
            Ok(None) => Ok(None),
            Err(_) => Err(Fault::OutOfMemory),
        }
    }

    /// The numbers of a goal's arguments with the bindings of their variables followed, if a variable is left in one of
    /// them or stands in the environment, and they aren't too large to be written out. Nothing changes but that there
    /// may be more terms.
    fn open_args(
        &mut self,
        args: &[GenericArg],
        environment: &[Clause],
    ) -> Result<Option<Vec<TermId>>, Stop>
        ensures within { IfOk result (λ o. IfSome o (λ ids. AreIn self.new.terms ids.items)) }
        ensures kept { Keeps self.old.terms self.new.terms }
        ensures unchanged { self.new ≡ record self.old { terms = self.new.terms } }
    {
        let ids = self.interned_args(args)?;
        let ids = self.followed_args(&ids)?;
        let is_open = any_variable(&self.terms, &ids)
            || some_in_env(NodeTest::IsAnyInfer, environment);
        if !is_open || !may_be_written_out(&self.terms, &ids) {
            return Ok(None);
        }
        Ok(Some(ids))
    }

    /// The alias whose term a goal asks for with the bindings of its variables followed, if a variable is left in it or
    /// stands in the goal's environment, and it isn't too large to be written out. Nothing changes but that there may
    /// be more terms. Only memory is refused.
    pub(crate) fn open_normalization(
        &mut self,
        goal: &Goal<Predicate>,
    ) -> Result<Option<AliasTerm>, Fault>
        ensures closed { IsAnswerable self.old goal.now.predicate goal.now.param_env.items → IfOk result (λ o. o ≡ None) }
        ensures unchanged { self.new ≡ record self.old { terms = self.new.terms } }
        ensures kept { Keeps self.old.terms self.new.terms }
        ensures only_memory { IsOkUnless result Fault.OutOfMemory }
    {
        let Predicate::NormalizesTo(asked) = &goal.predicate else {
            return Ok(None);
        };
        if is_closed_alias(&asked.alias, &goal.param_env) {
            return Ok(None);
        }
        match self.open_args(&asked.alias.args, &goal.param_env) {
            Ok(Some(ids)) => self.alias_with(asked.alias.kind, &ids),
            Ok(None) => Ok(None),
            Err(_) => Err(Fault::OutOfMemory),
        }
    }

    /// An alias with the arguments of some numbers. Only memory is refused.
    fn alias_with(&self, kind: AliasTermKind, ids: &[TermId]) -> Result<Option<AliasTerm>, Fault>
        requires { AreIn self.now.terms ids.now }
        ensures only_memory { IsOkUnless result Fault.OutOfMemory }
    {
        match rebuilt_args(&self.terms, ids) {
            Ok(args) => Ok(Some(AliasTerm { kind, args })),
            Err(_) => Err(Fault::OutOfMemory),
        }
    }

    /// Whether a goal's predicate holds at the remaining depth.
    fn asked_outcome(
        &mut self,
        goal: &Goal<Predicate>,
        asked: PredicateView<'_>,
    ) -> Result<Outcome, Stop>
        ensures says { HoldsNoVariable goal.now → SaysOf self.old self.new goal.now.param_env.items (predicate_seen asked.entry) result }
        ensures closed { HoldsNoVariable goal.now → self.new.inference ≡ self.old.inference }
        ensures alone { ChangesRecords self.old self.new }
        ensures faults { RecordsCausedFaults self.old self.new }
        ensures goes_back { GoesBack self.old self.new }
        ensures stops { StopsForMemory self.old result }
    {
        let environment = goal.param_env.as_slice();
        if has_variable(goal) {
            let predicate = self.interned_predicate(asked)?;
            self.open_outcome(environment, predicate)
        } else {
            let mut listed = RegionConstraints::new(self.allocator());
            self.predicate_goal_outcome(asked, environment, &mut listed)
        }
    }

    /// Whether a predicate in which a variable stands holds at the remaining depth. It is asked with the bindings
    /// followed, where no variable is left then. Else an alias and a term are made equal, at the depth below, and
    /// anything else is undecided.
    fn open_outcome(
        &mut self,
        environment: &[Clause],
        predicate: InternedPredicate,
    ) -> Result<Outcome, Stop>
        requires { PredicateIn self.old.terms predicate }
        ensures alone { ChangesRecords self.old self.new }
        ensures faults { RecordsCausedFaults self.old self.new }
        ensures goes_back { GoesBack self.old self.new }
        ensures stops { StopsForMemory self.old result }
    {
        if some_in_env(NodeTest::IsAnyInfer, environment) {
            return self.open_equation(environment, predicate);
        }
        let followed = self.followed(&predicate)?;
        if self.has_open(&followed) {
            return self.open_equation(environment, predicate);
        }
        let mut listed = RegionConstraints::new(self.allocator());
        self.evaluate_predicate(&followed, environment, &mut listed)
    }

    /// Makes an alias and a term equal, at the depth below, where they are what a predicate in which a variable is
    /// left asks for. Anything else is undecided, and so is each at depth 0.
    fn open_equation(
        &mut self,
        environment: &[Clause],
        predicate: InternedPredicate,
    ) -> Result<Outcome, Stop>
        requires { PredicateIn self.old.terms predicate }
        ensures alone { ChangesRecords self.old self.new }
        ensures faults { RecordsCausedFaults self.old self.new }
        ensures goes_back { GoesBack self.old self.new }
        ensures stops { StopsForMemory self.old result }
    {
        let depth = self.remaining_depth();
        match predicate {
            InternedPredicate::Projection(alias, term) if depth > 0 => {
                self.relate_all(environment, &[alias], &[term], depth - 1)
            }
            _ => Ok(Outcome::Undecided),
        }
    }

    /// A predicate with its bindings followed. Nothing changes but that there may be more terms.
    fn followed(&mut self, predicate: &InternedPredicate) -> Result<InternedPredicate, Stop>
        requires { PredicateIn self.old.terms predicate.now }
        ensures kept { Keeps self.old.terms self.new.terms }
        ensures unchanged { self.new ≡ record self.old { terms = self.new.terms } }
        ensures within { IfOk result (λ p. PredicateIn self.new.terms p) }
        ensures stops { IfErr result (λ s. s ≡ Stop.OutOfMemory) }
    {
        match predicate {
            InternedPredicate::Trait(held) => {
                let args = self.followed_args(held.args.as_slice())?;
                Ok(InternedPredicate::Trait(InternedTrait {
                    def_id: held.def_id,
                    args,
                }))
            }
            InternedPredicate::HostEffect(constness, held) => {
                let args = self.followed_args(held.args.as_slice())?;
                Ok(InternedPredicate::HostEffect(
                    *constness,
                    InternedTrait {
                        def_id: held.def_id,
                        args,
                    },
                ))
            }
            InternedPredicate::Projection(alias, term) => {
                let alias = self.followed_term(*alias)?;
                let term = self.followed_term(*term)?;
                Ok(InternedPredicate::Projection(alias, term))
            }
        }
    }

    /// The number of a term with its bindings followed. Nothing changes but that there may be more terms.
    fn followed_term(&mut self, id: TermId) -> Result<TermId, Stop>
        requires { IsIn self.old.terms id }
        ensures kept { Keeps self.old.terms self.new.terms }
        ensures unchanged { self.new ≡ record self.old { terms = self.new.terms } }
        ensures within { IfOk result (IsIn self.new.terms) }
        ensures stops { IfErr result (λ s. s ≡ Stop.OutOfMemory) }
    {
        Ok(follow(&mut self.terms, &self.inference, id)?)
    }

    /// The numbers of arguments with their bindings followed. Nothing changes but that there may be more terms.
    fn followed_args(&mut self, ids: &[TermId]) -> Result<Vec<TermId>, Stop>
        requires { AreIn self.old.terms ids.now }
        ensures kept { Keeps self.old.terms self.new.terms }
        ensures unchanged { self.new ≡ record self.old { terms = self.new.terms } }
        ensures within { IfOk result (λ rs. AreIn self.new.terms rs.items) }
        ensures stops { IfErr result (λ s. s ≡ Stop.OutOfMemory) }
    {
        Ok(follow_all(&mut self.terms, &self.inference, ids)?)
    }

    /// Whether an inference variable stands in a predicate. It takes no memory.
    fn has_open(&self, predicate: &InternedPredicate) -> bool
        requires { PredicateIn self.now.terms predicate.now }
    {
        match predicate {
            InternedPredicate::Trait(held) | InternedPredicate::HostEffect(_, held) => {
                any_variable(&self.terms, held.args.as_slice())
            }
            InternedPredicate::Projection(alias, term) => {
                any_variable(&self.terms, &[*alias, *term])
            }
        }
    }

    /// Whether an alias has a term at the remaining depth, which the expected term then is. It is asked with
    /// the bindings followed, and undecided where a variable is left in the alias or stands in the environment.
    fn normalization_outcome(
        &mut self,
        environment: &[Clause],
        goal: &NormalizesTo,
    ) -> Result<Outcome, Stop>
        ensures says { WhereNormalizable self.old self.new goal.now environment.now (λ L. SaysGoalAt L (Predicate.NormalizesTo goal.now) result) }
        ensures keeps { WhereNormalizable self.old self.new goal.now environment.now (λ L. IfOk result (λ o. BindsOutcome L goal.now self.old o self.new)) }
        ensures alone { ChangesRecords self.old self.new }
        ensures faults { RecordsCausedFaults self.old self.new }
        ensures goes_back { GoesBack self.old self.new }
        ensures stops { StopsForMemory self.old result }
    {
        self.is_well_formed();
        if is_closed_alias(&goal.alias, environment) {
            let mut listed = RegionConstraints::new(self.allocator());
            let found = self.alias_outcome(&goal.alias, environment, &mut listed)?;
            self.expect_found(environment, &goal.term, found, &listed)
        } else {
            self.followed_normalization_outcome(environment, goal)
        }
    }

    /// The same of an alias in which a variable stands, or under an environment with some.
    fn followed_normalization_outcome(
        &mut self,
        environment: &[Clause],
        goal: &NormalizesTo,
    ) -> Result<Outcome, Stop>
        ensures alone { ChangesRecords self.old self.new }
        ensures faults { RecordsCausedFaults self.old self.new }
        ensures goes_back { GoesBack self.old self.new }
        ensures stops { StopsForMemory self.old result }
    {
        let ids = self.interned_args(goal.alias.args.as_slice())?;
        let args = self.followed_args(ids.as_slice())?;
        if some_in_env(NodeTest::IsAnyInfer, environment)
            || any_variable(&self.terms, args.as_slice())
        {
            return Ok(Outcome::Undecided);
        }
        let mut listed = RegionConstraints::new(self.allocator());
        let found = self.evaluate_alias(goal.alias.kind, &args, environment, &mut listed)?;
        self.expect_found(environment, &goal.term, found, &listed)
    }

    /// Makes an expected term what was found for an alias, and enters what the answer lists of lifetimes.
    fn expect_found(
        &mut self,
        environment: &[Clause],
        expected: &Term,
        found: Found,
        listed: &RegionConstraints,
    ) -> Result<Outcome, Stop>
        requires { FoundIn self.old.terms found }
        ensures gives { GivesFitting expected.now found self.old result self.new }
        ensures alone { ChangesRecords self.old self.new }
        ensures faults { RecordsCausedFaults self.old self.new }
        ensures goes_back { GoesBack self.old self.new }
        ensures stops { StopsForMemory self.old result }
    {
        match found {
            Found::Refuted => Ok(Outcome::Refuted),
            Found::Undecided => Ok(Outcome::Undecided),
            Found::Is(id) => {
                self.enter_regions(listed)?;
                self.expect_term(environment, expected, id)
            }
        }
    }

    /// Makes an expected term the term that was found. An unbound general variable is bound to it as it stands,
    /// and anything else is made equal to it at the remaining depth.
    pub(crate) fn expect_term(
        &mut self,
        environment: &[Clause],
        expected: &Term,
        found: TermId,
    ) -> Result<Outcome, Stop>
        requires { IsIn self.old.terms found }
        ensures gives { GivesFitting expected.now (Found.Is found) self.old result self.new }
        ensures alone { ChangesRecords self.old self.new }
        ensures faults { RecordsCausedFaults self.old self.new }
        ensures goes_back { GoesBack self.old self.new }
        ensures stops { StopsForMemory self.old result }
    {
        let expected = self.interned_term(expected)?;
        let top = resolve(&self.terms, &self.inference, expected);
        if let Some(variable) = general_variable(self.terms.node(top)) {
            return self.bind_found(variable, top, found);
        }
        let depth = self.remaining_depth();
        self.relate_all(environment, &[expected], &[found], depth)
    }

    /// The number of a term. Nothing changes but that there may be more terms.
    pub(crate) fn interned_term(&mut self, term: &Term) -> Result<TermId, Stop>
        ensures kept { Keeps self.old.terms self.new.terms }
        ensures unchanged { self.new ≡ record self.old { terms = self.new.terms } }
        ensures within { IfOk result (IsIn self.new.terms) }
        ensures tree { IfOk result (λ id. tree_at self.new.terms id ≡ tree_of_term term.now) }
        ensures stops { IfErr result (λ s. s ≡ Stop.OutOfMemory) }
    {
        Ok(self.terms.intern(term)?)
    }

    /// Makes a variable the term that was found, which is not looked into. It is undecided where the variable
    /// stands in the term.
    fn bind_found(
        &mut self,
        variable: Variable,
        top: TermId,
        found: TermId,
    ) -> Result<Outcome, Stop>
        requires variable { top.0 < length self.old.terms }
        requires unbound { binding_of self.old.inference variable ≡ None }
        requires found { found.0 < length self.old.terms }
        ensures gives { IsFreeFor self.old (tree_at self.old.terms found) variable → IfOk result (λ o. o ≡ Outcome.Holds) }
        ensures bound { IsFreeFor self.old (tree_at self.old.terms found) variable → EndsAt self.old found → OnOk result (IsBoundAt self.old variable found self.new) }
        ensures unchanged { self.new ≡ record self.old { inference = self.new.inference } }
        ensures goes_back { GoesBack self.old self.new }
        ensures stops { IfErr result (λ s. s ≡ Stop.OutOfMemory) }
    {
        self.holds_together();
        if !may_become(&self.terms, &self.inference, variable, found) {
            return self.unify_found(top, found);
        }
        let Ok(()) = self.bind_number(variable, found) else {
            return Err(Stop::OutOfMemory);
        };
        Ok(Outcome::Holds)
    }

    /// Makes two terms the same, as far as their structure goes.
    pub(crate) fn unify_found(&mut self, left: TermId, right: TermId) -> Result<Outcome, Stop>
        requires first { left.0 < length self.old.terms }
        requires second { right.0 < length self.old.terms }
        ensures unchanged { self.new ≡ record self.old { inference = self.new.inference } }
        ensures goes_back { GoesBack self.old self.new }
        ensures stops { IfErr result (λ s. s ≡ Stop.OutOfMemory) }
    {
        match unify(&self.terms, &mut self.inference, left, right)? {
            Unified::Yes => Ok(Outcome::Holds),
            Unified::Undecided => Ok(Outcome::Undecided),
            Unified::No => Ok(Outcome::Refuted),
        }
    }
}
