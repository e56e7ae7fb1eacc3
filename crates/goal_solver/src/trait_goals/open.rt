//! Trait goals with inference variables.
ghost use Rattle.std.specs.Prelude.{◌≡◌, ◌<◌, ℕ, suc, [], true, is_some, length, Option, Result, None, Ok, Err, IfOk, IfErr, IfSome, IsOkUnless};
ghost use Rattle.goal_interner.specs.TableMeaning.{Keeps};
ghost use Rattle.goal_terms.specs.TreeOf.{tree_of_ty};
ghost use Rattle.goal_solver.specs.Binding.{IsApplicable};
ghost use Rattle.goal_solver.specs.Answers.{IsQuiet};
ghost use Rattle.goal_kinds.specs.Collecting.{has_kind_fault, kind_of};
ghost use Rattle.goal_solver.specs.GoingBack.{GoesBack, restored, at_depth};
ghost use Rattle.goal_solver.specs.OpenAnswers.{MergesGoal, MergesTrait};
ghost use Rattle.goal_solver.specs.OpenGoals.{FormsGoal, IsFormless, WhenAnswered, AreOfClass, ConsidersRules, ClassAnswers, ByClasses, proven_by, trait_classes, AsksOpenSelf, IsSelfAlias, IsListedIn, IsBeside, IsAfterTrial};
ghost use Rattle.goal_solver.specs.Relating.{IsFaultFor};
ghost use Rattle.goal_solver.specs.State.{State as state, kinds_of};

use crate::assembly::asked_goals::AskedGoal;
use crate::assembly::formed_rules::{Merging, form_to_consider, has_kind_fault, with_form};
use crate::assembly::merged_rules::Merged;
use crate::context::EvalCtxt;
use crate::faults::Fault;
use goal_kinds::assembly::class_rules::{ClassRules, rules_by_class};
use goal_kinds::goal_kind::GoalKind;
use goal_terms::answers::{Certainty, Response, TraitGoalProvenVia};
use goal_terms::predicates::{Goal, TraitPredicate};
use goal_terms::terms::{AliasTerm, Term, Ty};

impl EvalCtxt<'_> {
    /// What a trait goal with inference variables is answered: by its candidates, at one less of the depth.
    /// Inference state, added goals and storage are as before.
    #[cycle(open)]
    pub(crate) fn merge_below(&mut self, goal: &Goal<TraitPredicate>) -> Result<Response, Fault>
        requires positive { 0 < self.old.remaining_depth }
        ensures merges { (n : ℕ) → self.old.remaining_depth ≡ suc n → WhenAnswered result (MergesTrait goal.now (at_depth n self.old) result (at_depth n self.new)) }
        ensures applies { IfOk result (IsApplicable self.new) }
        ensures unchanged { self.new ≡ restored self.old self.new }
        ensures goes_back { GoesBack self.old self.new }
        ensures fault { IsFaultFor self.old self.new result }
    {
        self.holds_together();
        let depth = self.remaining_depth;
        self.remaining_depth = depth - 1;
        let answer = self.merge_trait(goal);
        self.remaining_depth = depth;
        answer
    }

    /// What the candidates of a trait goal make of it at the remaining depth. Inference state, added goals and
    /// storage are as before.
    #[cycle(open)]
    fn merge_trait(&mut self, goal: &Goal<TraitPredicate>) -> Result<Response, Fault>
        ensures merges { WhenAnswered result (MergesTrait goal.now self.old result self.new) }
        ensures applies { IfOk result (IsApplicable self.new) }
        ensures unchanged { self.new ≡ restored self.old self.new }
        ensures goes_back { GoesBack self.old self.new }
        ensures fault { IsFaultFor self.old self.new result }
    {
        match self.considered_rules(goal)? {
            None => self.merge_open(AskedGoal::Trait(goal)),
            Some(rules) => self.merge_classes(&rules),
        }
    }

    /// What the candidates of a goal make of it at the remaining depth, by the classes of a trait goal. Inference
    /// state, added goals and storage are as before.
    pub(crate) fn merge_goal<G: GoalKind + Drop>(
        &mut self,
        goal: &Goal<G>,
    ) -> Result<Response, Fault>
        ensures merges { WhenAnswered result (MergesGoal (kind_of G.words G.has_fault) goal.now self.old result self.new) }
        ensures applies { IfOk result (IsApplicable self.new) }
        ensures unchanged { self.new ≡ restored self.old self.new }
        ensures goes_back { GoesBack self.old self.new }
        ensures fault { IsFaultFor self.old self.new result }
    {
        match self.considered_rules(goal)? {
            None => self.merge_open_goal(Merging::Classes, goal),
            Some(rules) => self.merge_classes(&rules),
        }
    }

    /// The alias that the self type of a goal is, bindings followed, if an inference variable stands in it or in the
    /// environment. Nothing changes but that there may be more terms. Only memory is refused.
    pub(crate) fn open_self<G: GoalKind>(
        &mut self,
        goal: &Goal<G>,
    ) -> Result<Option<AliasTerm>, Fault>
        ensures none { result ≡ Ok None → AsksOpenSelf G.words.self_type goal.now self.old → ⊥ }
        ensures asks { IfOk result (λ o. IfSome o (λ a. AsksOpenSelf G.words.self_type goal.now self.old)) }
        ensures alias { IfOk result (λ o. IfSome o (IsSelfAlias G.words.self_type goal.now self.new)) }
        ensures kept { Keeps self.old.terms self.new.terms }
        ensures unchanged { self.new ≡ record self.old { terms = self.new.terms } }
        ensures only_memory { IsOkUnless result Fault.OutOfMemory }
    {
        self.holds_together();
        let Some(self_ty) = goal.predicate.self_ty() else {
            return Ok(None);
        };
        let asked = Term::Ty(copied_type(self_ty)?);
        self.open_alias(&goal.param_env, &asked)
    }

    /// A response beside what came before it in the trial: it is applied, and all that came is listed. Only memory is
    /// refused.
    pub(crate) fn beside(&mut self, answer: Response) -> Result<Option<Response>, Fault>
        requires applies { IsApplicable self.old answer }
        ensures beside { IfOk result (λ o. IfSome o (λ r. IsBeside self.old answer r self.new) × (is_some o ≡ true)) }
        ensures lists { IfOk result (λ o. IfSome o (IsListedIn self.new)) }
        ensures goes_back { GoesBack self.old self.new }
        ensures only_memory { IsOkUnless result Fault.OutOfMemory }
    {
        self.apply_response(&answer)?;
        self.holds_together();
        let listed = self.response_since_mark(answer.certainty)?;
        Ok(Some(Response {
            proven_via: answer.proven_via,
            ..listed
        }))
    }

    /// What is answered after a trial: without an answer there the goal is undecided. It takes no memory.
    pub(crate) fn or_undecided(
        &self,
        answer: Result<Option<Response>, Fault>,
    ) -> Result<Response, Fault>
        ensures after { IsAfterTrial answer result }
        ensures left { answer ≡ Ok None → IfOk result (λ r. (r.var_values.items ≡ []) × IsQuiet (length (kinds_of self.now)) r) }
    {
        match answer? {
            Some(response) => Ok(response),
            None => Ok(self.respond(Certainty::Maybe, None)),
        }
    }

    /// The rules of a goal's candidates for the head form of its self type, if candidates are considered for it. Inference state, added goals and storage are as before.
    fn considered_rules<G: GoalKind + Drop>(
        &mut self,
        goal: &Goal<G>,
    ) -> Result<Option<ClassRules>, Fault>
        ensures considers { IfOk result (λ o. ConsidersRules (kind_of G.words G.has_fault) goal.now self.old o self.new) }
        ensures formless { IfErr result (λ f. f ≡ Fault.NoSolution → IsFormless G.words.self_type goal.now self.old self.new) }
        ensures unchanged { self.new ≡ restored self.old self.new }
        ensures goes_back { GoesBack self.old self.new }
        ensures fault { IsFaultFor self.old self.new result }
    {
        let Some(normalized) = self.with_normalized_self_ty(goal)? else {
            return Ok(None);
        };
        let rules = rules_by_class(self.tables, &self.typing_mode, normalized)?;
        Ok(Some(rules))
    }

    /// The goal to consider candidates for: that for the head form of the self type. There is none where the head
    /// form is undecided or a general variable, or where the goal isn't one that a check accepts. Inference
    /// state, added goals and storage are as before.
    pub(crate) fn with_normalized_self_ty<G: GoalKind + Drop>(
        &mut self,
        goal: &Goal<G>,
    ) -> Result<Option<Goal<G>>, Fault>
        ensures forms { IfOk result (FormsGoal G.words.self_type G.words.is_with_self (has_kind_fault G.has_fault self.old.tables) goal.now self.old self.new) }
        ensures formless { IfErr result (λ f. f ≡ Fault.NoSolution → IsFormless G.words.self_type goal.now self.old self.new) }
        ensures unchanged { self.new ≡ restored self.old self.new }
        ensures goes_back { GoesBack self.old self.new }
        ensures fault { IsFaultFor self.old self.new result }
    {
        let Some(self_ty) = goal.predicate.self_ty() else {
            return Ok(None);
        };
        let asked = Term::Ty(copied_type(self_ty)?);
        let found = self.closed_form(&goal.param_env, &asked)?;
        let Some(form) = form_to_consider(found) else {
            return Ok(None);
        };
        let replaced = with_form(goal, form)?;
        if has_kind_fault(self.tables, &replaced) {
            return Ok(None);
        }
        Ok(Some(replaced))
    }

    /// What a trait goal comes to at the remaining depth, by the rules of its classes: those of the environment, then
    /// those of the bounds of its self type, then the rest. Inference state, added goals and storage are as before.
    #[cycle(open)]
    pub(crate) fn merge_classes(&mut self, rules: &ClassRules) -> Result<Response, Fault>
        ensures decides { WhenAnswered result (ByClasses (AreOfClass self.old.typing_mode rules.now) rules.now.param_env.items trait_classes self.old result self.new) }
        ensures applies { IfOk result (IsApplicable self.new) }
        ensures unchanged { self.new ≡ restored self.old self.new }
        ensures goes_back { GoesBack self.old self.new }
        ensures fault { IsFaultFor self.old self.new result }
    {
        if let Some(answer) = self.class_answer(rules, TraitGoalProvenVia::ParamEnv)? {
            return Ok(answer);
        }
        if let Some(answer) = self.class_answer(rules, TraitGoalProvenVia::AliasBound)? {
            return Ok(answer);
        }
        if let Some(answer) = self.class_answer(rules, TraitGoalProvenVia::Misc)? {
            return Ok(answer);
        }
        Err(Fault::NoSolution)
    }

    /// What a class of candidates answers to a goal at the remaining depth, by its rules: nothing where all of them
    /// are refused. Inference state, added goals and storage are as before.
    #[cycle(open)]
    fn class_answer(
        &mut self,
        rules: &ClassRules,
        class: TraitGoalProvenVia,
    ) -> Result<Option<Response>, Fault>
        ensures answers { IfOk result (λ a. ClassAnswers (AreOfClass self.old.typing_mode rules.now) rules.now.param_env.items class self.old a self.new) }
        ensures applies { IfOk result (λ a. IfSome a (IsApplicable self.new)) }
        ensures never { result ≡ Err Fault.NoSolution → ⊥ }
        ensures unchanged { self.new ≡ restored self.old self.new }
        ensures goes_back { GoesBack self.old self.new }
        ensures fault { IsFaultFor self.old self.new result }
    {
        self.is_well_formed();
        match self.merge_rules(&rules.param_env, rules.of_class(class))? {
            Merged::Refuted => Ok(None),
            Merged::Answered(response) => Ok(Some(proven_by(class, response))),
            Merged::Split => Ok(Some(self.respond(Certainty::Maybe, None))),
        }
    }
}

/// A response with the class through which it says yes.
fn proven_by(class: TraitGoalProvenVia, response: Response) -> Response
    ensures { result ≡ proven_by class response }
{
    let proven_via = match response.certainty {
        Certainty::Yes => Some(class),
        Certainty::Maybe => None,
    };
    Response {
        proven_via,
        ..response
    }
}

/// A copy of a type.
fn copied_type(ty: &Ty) -> Result<Ty, Fault>
    ensures same { IfOk result (λ copy. tree_of_ty copy ≡ tree_of_ty ty.now) }
    ensures only_memory { IsOkUnless result Fault.OutOfMemory }
{
    match ty.clone() {
        Ok(copy) => Ok(copy),
        Err(_) => Err(Fault::OutOfMemory),
    }
}
