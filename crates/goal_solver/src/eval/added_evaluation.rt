//! Evaluating the goals that were added to a context.
ghost use Rattle.std.specs.Prelude.{◌≡◌, ◌↔◌, ◌<◌, ℕ, List, [], ◌∷◌, ◌++◌, length, true, false, Some, slice_get, Err, IfOk, IfErr, IfSome, OnOk, OnErr, IsTrue, IsOkUnless};
ghost use Rattle.std.specs.List.{Contains};
ghost use Rattle.goal_terms.specs.declared.modes.TypingMode.{TypingMode as modes};
ghost use Rattle.goal_lists.specs.Interned.{IsIn, AreIn};
ghost use Rattle.goal_lists.specs.Settings.{is_headline};
ghost use Rattle.goal_solver.specs.Accesses.{RecordsCausedFaults};
ghost use Rattle.goal_solver.specs.Added.{has_goals};
ghost use Rattle.goal_solver.specs.AddedGoals.{IsClosedGoal, AnswersGoal, BindsAtMost, IsVerdict, IsPendingAnswer, AllPendingTake, ArePendingClosed, ArePendingAnswerable, ArePendingUndecided, ChangesTaken};
ghost use Rattle.goal_solver.specs.AddedGoals.{AreSplit, AreClosedAt, AreAnswerableAt, AllTakeAt, WhereAnswerableAt, LeavesUndecided, IsListed, JoinsUnless, IsRefusalAt, IsAnswerAt};
ghost use Rattle.goal_solver.specs.Answers.{IsOwed};
ghost use Rattle.goal_solver.specs.Binding.{IsApplicable};
ghost use Rattle.goal_solver.specs.GoingBack.{BeginsWith, GoesBack, lengths_of, restored};
ghost use Rattle.goal_solver.specs.OpenForms.{is_sure};
ghost use Rattle.goal_solver.specs.Refusals.{WhenRefused, RefusesGoal, RefusesListed, RefusesOne};
ghost use Rattle.goal_solver.specs.Relating.{ChangesRecords, IsFaultFor, SaysYes, LeavesOpen};

use crate::assembly::more_special::binds_nothing;
use crate::context::rebuilding::rebuilt_args;
use crate::context::{EvalCtxt, Snapshot};
use crate::eval::goal_outcomes::OpenGoal;
use crate::eval::recalled::{outcome_of, outcome_of_form};
use crate::eval::where_goals::copied_clauses;
use crate::faults::Fault;
use goal_eval::eval::outcomes::Stop;
use goal_interner::term_nodes::TermId;
use goal_lists::outcomes::Outcome;
use goal_terms::answers::{Certainty, GoalSource, Response};
use goal_terms::predicates::{
    Clause, Goal, HostEffectPredicate, Predicate, TraitPredicate, TraitRef,
};
use goal_terms::terms::AliasTerm;
use std::mem;

/// How many times the goals are gone over at most.
const MOST_ROUNDS: usize = 8;

impl EvalCtxt<'_> {
    /// Evaluates the goals that were added and not taken out, in order, in rounds, until a round binds no
    /// variable or eight are done. A goal that holds at the remaining depth is taken out. `Yes`: all were.
    /// `NoSolution`: one is refuted. `Maybe`: some are undecided.
    ///
    /// A goal is asked with the bindings of its variables followed. While one is left in it or one stands in its
    /// environment, a goal of a trait or a const trait is answered by its candidates at one less of the depth, and an
    /// answer that is sure is applied; the term of an alias is the alias's head form, as
    /// `structurally_normalize_term` answers it; an alias and a term are made equal; and any other goal is undecided.
    /// The term of an alias is given to the goal's expected variable: where all goals are closed but for such
    /// variables, each of which is free and stands in one goal, a `Yes` binds each to its alias's term. So goals may
    /// bind variables, and these bindings stay. After a fault inference state, goals and storage are as before.
    #[cycle(open)]
    pub fn try_evaluate_added_goals(&mut self) -> Result<Certainty, Fault>
        ensures sound { (m : modes) → IsOwed self.new m → ArePendingAnswerable self.old → IsPendingAnswer self.old m result }
        ensures decided { (m : modes) → IsOwed self.new m → ArePendingAnswerable self.old → LeavesOpen result → ArePendingUndecided self.old m }
        ensures given { (m : modes) → IsOwed self.new m → ArePendingAnswerable self.old → SaysYes result → AllPendingTake self.old m self.new }
        ensures refused { WhenRefused result (RefusesOne self.old self.new) }
        ensures closed { ArePendingClosed self.old → self.new.inference ≡ self.old.inference }
        ensures taken { SaysYes result → has_goals self.new ≡ false }
        ensures alone { ChangesTaken self.old self.new }
        ensures unchanged { OnErr result (self.new ≡ restored self.old self.new) }
        ensures faults { RecordsCausedFaults self.old self.new }
        ensures goes_back { GoesBack self.old self.new }
        ensures fault { IsFaultFor self.old self.new result }
    {
        self.holds_together();
        let before = self.snapshot();
        let answered = self.evaluate_added_goals();
        if answered.is_err() {
            self.rollback(before);
        }
        answered
    }

    /// Evaluates the goals that were added and not taken out. After a fault some may be taken out, and some
    /// variables bound.
    #[cycle(open)]
    fn evaluate_added_goals(&mut self) -> Result<Certainty, Fault>
        ensures sound { (m : modes) → IsOwed self.new m → ArePendingAnswerable self.old → IsPendingAnswer self.old m result }
        ensures decided { (m : modes) → IsOwed self.new m → ArePendingAnswerable self.old → LeavesOpen result → ArePendingUndecided self.old m }
        ensures given { (m : modes) → IsOwed self.new m → ArePendingAnswerable self.old → SaysYes result → AllPendingTake self.old m self.new }
        ensures refused { WhenRefused result (RefusesOne self.old self.new) }
        ensures closed { ArePendingClosed self.old → OnOk result (self.new.inference ≡ self.old.inference) }
        ensures taken { SaysYes result → has_goals self.new ≡ false }
        ensures alone { ChangesTaken self.old self.new }
        ensures faults { RecordsCausedFaults self.old self.new }
        ensures goes_back { GoesBack self.old self.new }
        ensures fault { IsFaultFor self.old self.new result }
    {
        let alloc = self.allocator();
        let pending = self.pending_places()?;
        let goals = mem::replace(&mut self.goals, Vec::new(alloc));
        let mut taken = mem::replace(&mut self.taken, Vec::new(alloc));
        let answered = self.evaluate_rounds(goals.as_slice(), &mut taken, pending);
        self.goals = goals;
        self.taken = taken;
        answered
    }

    /// The places of the goals that were added and not taken out, in order. Only memory is refused.
    fn pending_places(&self) -> Result<Vec<usize>, Fault>
        ensures split { IfOk result (λ places. AreSplit (length self.now.goals) self.now.taken places.items) }
        ensures only_memory { IfErr result (λ f. f ≡ Fault.OutOfMemory) }
    {
        let mut places = Vec::new(self.allocator());
        for place in 0..self.goals.len() {
            add_pending(self.taken.as_slice(), place, &mut places)?;
        }
        Ok(places)
    }

    /// Evaluates the goals at some places in rounds, until one binds no variable. The places of those that
    /// hold come after the others that were taken out.
    #[cycle(open)]
    fn evaluate_rounds(
        &mut self,
        goals: &[(GoalSource, Goal<Predicate>)],
        taken: &mut Vec<usize>,
        places: Vec<usize>,
    ) -> Result<Certainty, Fault>
        requires split { AreSplit (length goals.now) taken.old.items places.items }
        ensures answer { WhereAnswerableAt self.old self.new goals.now places.items (λ m. IsAnswerAt self.old m goals.now places.items result) }
        ensures given { WhereAnswerableAt self.old self.new goals.now places.items (λ m. SaysYes result → AllTakeAt self.old m goals.now places.items [] self.new) }
        ensures refused { WhenRefused result (RefusesListed self.old self.new goals.now places.items) }
        ensures closed { AreClosedAt goals.now places.items → OnOk result (self.new.inference ≡ self.old.inference) }
        ensures split { (rest : List ℕ) × AreSplit (length goals.now) taken.new.items rest × (SaysYes result → rest ≡ []) }
        ensures taken { BeginsWith taken.new.items taken.old.items }
        ensures alone { ChangesRecords self.old self.new }
        ensures faults { RecordsCausedFaults self.old self.new }
        ensures goes_back { GoesBack self.old self.new }
        ensures fault { IsFaultFor self.old self.new result }
    {
        let mut pending = places;
        for round in 0..MOST_ROUNDS {
            let _ = round;
            let earlier = self.snapshot();
            let left = self.evaluate_round(goals, taken, pending.as_slice())?;
            if left.is_empty() {
                return Ok(Certainty::Yes);
            }
            if self.is_at(earlier) {
                return Ok(Certainty::Maybe);
            }
            pending = left;
        }
        Ok(Certainty::Maybe)
    }

    /// Whether there is as much of what a rollback undoes as a snapshot says.
    fn is_at(&self, earlier: Snapshot) -> bool
        ensures { IsTrue result ↔ (lengths_of self.now ≡ earlier) }
    {
        self.snapshot() == earlier
    }

    /// Evaluates the goals at some places, in order, and answers the places of those that are undecided. The
    /// places of those that hold come after the others that were taken out.
    #[cycle(open)]
    fn evaluate_round(
        &mut self,
        goals: &[(GoalSource, Goal<Predicate>)],
        taken: &mut Vec<usize>,
        places: &[usize],
    ) -> Result<Vec<usize>, Fault>
        requires split { AreSplit (length goals.now) taken.old.items places.now }
        ensures says { WhereAnswerableAt self.old self.new goals.now places.now (λ m. IfOk result (λ left. LeavesUndecided self.old m goals.now places.now [] left.items)) }
        ensures gives { WhereAnswerableAt self.old self.new goals.now places.now (λ m. IfOk result (λ left. AllTakeAt self.old m goals.now places.now left.items self.new)) }
        ensures leaves { WhereAnswerableAt self.old self.new goals.now places.now (λ m. IfOk result (λ left. AreAnswerableAt self.new goals.now left.items)) }
        ensures refuses { WhereAnswerableAt self.old self.new goals.now places.now (λ m. IfErr result (IsRefusalAt self.old m goals.now places.now)) }
        ensures refused { WhenRefused result (RefusesListed self.old self.new goals.now places.now) }
        ensures closed { AreClosedAt goals.now places.now → OnOk result (self.new.inference ≡ self.old.inference) }
        ensures split { (rest : List ℕ) × AreSplit (length goals.now) taken.new.items rest × IfOk result (λ left. rest ≡ left.items) }
        ensures taken { BeginsWith taken.new.items taken.old.items }
        ensures alone { ChangesRecords self.old self.new }
        ensures faults { RecordsCausedFaults self.old self.new }
        ensures goes_back { GoesBack self.old self.new }
        ensures fault { IsFaultFor self.old self.new result }
    {
        let mut left = Vec::new(self.allocator());
        for i in 0..places.len() {
            let place = places[i];
            let added = goal_at(goals, place);
            let answered = self.evaluate_goal(&added.1)?;
            list_place(answered, place, taken, &mut left)?;
        }
        Ok(left)
    }

    /// What a goal comes to at the remaining depth.
    #[cycle(open)]
    pub(crate) fn evaluate_goal(&mut self, goal: &Goal<Predicate>) -> Result<Certainty, Fault>
        ensures answer { AnswersGoal self.old self.new goal.now result }
        ensures keeps { BindsAtMost self.old self.new goal.now result }
        ensures refused { WhenRefused result (RefusesGoal self.old self.new goal.now) }
        ensures closed { IsClosedGoal goal.now.predicate goal.now.param_env.items → self.new.inference ≡ self.old.inference }
        ensures alone { ChangesRecords self.old self.new }
        ensures faults { RecordsCausedFaults self.old self.new }
        ensures goes_back { GoesBack self.old self.new }
        ensures fault { IsFaultFor self.old self.new result }
    {
        match self.open_goal(goal)? {
            Some(asked) => self.evaluate_open(&goal.param_env, &asked),
            None => self.evaluate_alias_or_other(goal),
        }
    }

    /// What a goal comes to at the remaining depth, if its candidates aren't asked for it.
    #[cycle(open)]
    fn evaluate_alias_or_other(&mut self, goal: &Goal<Predicate>) -> Result<Certainty, Fault>
        ensures answer { AnswersGoal self.old self.new goal.now result }
        ensures keeps { BindsAtMost self.old self.new goal.now result }
        ensures refused { WhenRefused result (RefusesGoal self.old self.new goal.now) }
        ensures closed { IsClosedGoal goal.now.predicate goal.now.param_env.items → self.new.inference ≡ self.old.inference }
        ensures alone { ChangesRecords self.old self.new }
        ensures faults { RecordsCausedFaults self.old self.new }
        ensures goes_back { GoesBack self.old self.new }
        ensures fault { IsFaultFor self.old self.new result }
    {
        match self.open_normalization(goal)? {
            Some(alias) => self.evaluate_open_alias(goal, alias),
            None => self.evaluate_other(goal),
        }
    }

    /// What a goal of the term of an alias with inference variables comes to: the alias's head form is made equal to
    /// the goal's expected term. Where that isn't sure nothing is bound.
    #[cycle(open)]
    fn evaluate_open_alias(
        &mut self,
        goal: &Goal<Predicate>,
        alias: AliasTerm,
    ) -> Result<Certainty, Fault>
        ensures unchanged { is_sure result ≡ false → self.new ≡ restored self.old self.new }
        ensures alone { ChangesRecords self.old self.new }
        ensures faults { RecordsCausedFaults self.old self.new }
        ensures goes_back { GoesBack self.old self.new }
        ensures fault { IsFaultFor self.old self.new result }
    {
        self.holds_together();
        let before = self.snapshot();
        let answered = self.expected_form(goal, alias);
        if !is_sure(&answered) {
            self.rollback(before);
        }
        answered
    }

    /// The head form of an alias, made equal to the term that a goal expects.
    #[cycle(open)]
    fn expected_form(
        &mut self,
        goal: &Goal<Predicate>,
        alias: AliasTerm,
    ) -> Result<Certainty, Fault>
        ensures alone { ChangesRecords self.old self.new }
        ensures faults { RecordsCausedFaults self.old self.new }
        ensures goes_back { GoesBack self.old self.new }
        ensures fault { IsFaultFor self.old self.new result }
    {
        let Predicate::NormalizesTo(asked) = &goal.predicate else {
            return Ok(Certainty::Maybe);
        };
        let Some(form) = self.form_once(&goal.param_env, alias)? else {
            return Ok(Certainty::Maybe);
        };
        let outcome = self.expect_term(&goal.param_env, &asked.term, form);
        self.verdict(outcome)
    }

    /// The number of the head form of an alias with inference variables. There is none so far of one whose head form
    /// is being found already; one that is known is given again.
    #[cycle(open)]
    pub(crate) fn form_once(
        &mut self,
        environment: &[Clause],
        alias: AliasTerm,
    ) -> Result<Option<TermId>, Fault>
        ensures within { IfOk result (λ o. IfSome o (IsIn self.new.terms)) }
        ensures alone { ChangesRecords self.old self.new }
        ensures faults { RecordsCausedFaults self.old self.new }
        ensures goes_back { GoesBack self.old self.new }
        ensures fault { IsFaultFor self.old self.new result }
    {
        if let Some(known) = self.begin_form(environment, &alias)? {
            return self.repeat_form(known);
        }
        self.holds_together();
        let before = self.snapshot();
        let form = self.form_number(environment, alias);
        let Some(kept) = self.end_goal(outcome_of_form(&form), number_in(&form))? else {
            return form;
        };
        self.rollback(before);
        self.give_form_again(kept)
    }

    /// The same of an alias whose head form isn't known.
    #[cycle(open)]
    fn form_number(
        &mut self,
        environment: &[Clause],
        alias: AliasTerm,
    ) -> Result<Option<TermId>, Fault>
        ensures within { IfOk result (λ o. IfSome o (IsIn self.new.terms)) }
        ensures alone { ChangesRecords self.old self.new }
        ensures faults { RecordsCausedFaults self.old self.new }
        ensures goes_back { GoesBack self.old self.new }
        ensures fault { IsFaultFor self.old self.new result }
    {
        let Some(form) = self.form_of_open(environment, alias)? else {
            return Ok(None);
        };
        match self.interned_term(&form) {
            Ok(id) => Ok(Some(id)),
            Err(_) => Err(Fault::OutOfMemory),
        }
    }

    /// What a goal comes to at the remaining depth, if its candidates aren't asked for it, and it isn't one of the term of
    /// an alias in which a variable is left.
    fn evaluate_other(&mut self, goal: &Goal<Predicate>) -> Result<Certainty, Fault>
        ensures answer { AnswersGoal self.old self.new goal.now result }
        ensures keeps { BindsAtMost self.old self.new goal.now result }
        ensures refused { WhenRefused result (RefusesGoal self.old self.new goal.now) }
        ensures closed { IsClosedGoal goal.now.predicate goal.now.param_env.items → self.new.inference ≡ self.old.inference }
        ensures alone { ChangesRecords self.old self.new }
        ensures faults { RecordsCausedFaults self.old self.new }
        ensures goes_back { GoesBack self.old self.new }
        ensures fault { IsFaultFor self.old self.new result }
    {
        let outcome = self.goal_outcome(goal);
        self.verdict(outcome)
    }

    /// What a goal with inference variables comes to. One that is being answered already leads back to itself, and is
    /// undecided: asking it again at less depth says nothing that this depth doesn't. One that was answered is answered
    /// so again. Whether it was or not, all that an answer which is kept leaves is what it keeps: so goals that ask the
    /// same are left with the same.
    #[cycle(open)]
    fn evaluate_open(&mut self, environment: &[Clause], goal: &OpenGoal) -> Result<Certainty, Fault>
        requires args { AreIn self.old.terms goal.now.args.items }
        ensures alone { ChangesRecords self.old self.new }
        ensures faults { RecordsCausedFaults self.old self.new }
        ensures goes_back { GoesBack self.old self.new }
        ensures fault { IsFaultFor self.old self.new result }
    {
        if let Some(known) = self.begin_open(environment, goal)? {
            return self.repeat(known);
        }
        self.holds_together();
        let before = self.snapshot();
        let answered = self.evaluate_once(environment, goal);
        let Some(kept) = self.end_goal(outcome_of(&answered), None)? else {
            return answered;
        };
        self.rollback(before);
        self.give_again(kept)
    }

    /// What a goal with inference variables comes to: it is answered by its candidates, at one less of the depth, and
    /// an answer that is sure is applied. At depth 0 it is undecided.
    #[cycle(open)]
    fn evaluate_once(&mut self, environment: &[Clause], goal: &OpenGoal) -> Result<Certainty, Fault>
        requires args { AreIn self.old.terms goal.now.args.items }
        ensures alone { ChangesRecords self.old self.new }
        ensures faults { RecordsCausedFaults self.old self.new }
        ensures goes_back { GoesBack self.old self.new }
        ensures fault { IsFaultFor self.old self.new result }
    {
        if self.remaining_depth == 0 {
            return Ok(Certainty::Maybe);
        }
        let known = self.delayed_faults.len();
        let answered = self.apply_below(environment, goal);
        self.keep_caused_faults(known);
        answered
    }

    /// Applies what a goal with inference variables is answered, if that is sure and tells something.
    #[cycle(open)]
    fn apply_below(&mut self, environment: &[Clause], goal: &OpenGoal) -> Result<Certainty, Fault>
        requires positive { 0 < self.old.remaining_depth }
        requires args { AreIn self.old.terms goal.now.args.items }
        ensures alone { ChangesRecords self.old self.new }
        ensures goes_back { GoesBack self.old self.new }
        ensures fault { IsFaultFor self.old self.new result }
    {
        let response = self.answer_below(environment, goal)?;
        if tells_nothing(&response) {
            return Ok(response.certainty);
        }
        self.apply_sure(&response)
    }

    /// What a goal with inference variables is answered by its candidates, at one less of the depth. Inference
    /// state, added goals and storage are as before.
    #[cycle(open)]
    fn answer_below(&mut self, environment: &[Clause], goal: &OpenGoal) -> Result<Response, Fault>
        requires positive { 0 < self.old.remaining_depth }
        requires args { AreIn self.old.terms goal.now.args.items }
        ensures applies { IfOk result (IsApplicable self.new) }
        ensures unchanged { self.new ≡ restored self.old self.new }
        ensures goes_back { GoesBack self.old self.new }
        ensures fault { IsFaultFor self.old self.new result }
    {
        let (param_env, trait_ref) = self.rebuilt_parts(environment, goal)?;
        match goal.constness {
            None => self.merge_below(&Goal {
                param_env,
                predicate: TraitPredicate { trait_ref },
            }),
            Some(constness) => self.hold_const_below(&Goal {
                param_env,
                predicate: HostEffectPredicate {
                    trait_ref,
                    constness,
                },
            }),
        }
    }

    /// A copy of the environment, and the trait with its arguments, of a goal whose candidates are asked. Only memory is
    /// refused.
    fn rebuilt_parts(
        &self,
        environment: &[Clause],
        goal: &OpenGoal,
    ) -> Result<(Vec<Clause>, TraitRef), Fault>
        requires { AreIn self.now.terms goal.now.args.items }
        ensures only_memory { IsOkUnless result Fault.OutOfMemory }
    {
        let Ok(param_env) = copied_clauses(self.allocator(), environment) else {
            return Err(Fault::OutOfMemory);
        };
        match rebuilt_args(&self.terms, &goal.args) {
            Ok(args) => Ok((
                param_env,
                TraitRef {
                    def_id: goal.trait_id,
                    args,
                },
            )),
            Err(_) => Err(Fault::OutOfMemory),
        }
    }

    /// What is answered to a goal that holds or not. Nothing changes but that an access may be recorded.
    fn verdict(&mut self, outcome: Result<Outcome, Stop>) -> Result<Certainty, Fault>
        ensures owed { IsVerdict outcome result }
        ensures unchanged { self.new ≡ restored self.old self.new }
        ensures alone { self.new ≡ record self.old { accesses = self.new.accesses } }
        ensures goes_back { GoesBack self.old self.new }
        ensures fault { IsFaultFor self.old self.new result }
    {
        match outcome {
            Ok(Outcome::Holds) => Ok(Certainty::Yes),
            Ok(Outcome::Undecided) => Ok(Certainty::Maybe),
            Ok(Outcome::Refuted) => Err(Fault::NoSolution),
            Err(stop) => self.undecided_by(stop),
        }
    }
}

/// Whether an answer is a yes.
pub(crate) fn is_sure(answered: &Result<Certainty, Fault>) -> bool
    ensures { result ≡ is_sure answered.now }
{
    matches!(answered, Ok(Certainty::Yes))
}

/// The number of a head form, if there is one.
fn number_in(found: &Result<Option<TermId>, Fault>) -> Option<TermId> {
    match found {
        Ok(form) => *form,
        Err(_) => None,
    }
}

fn goal_at(goals: &[(GoalSource, Goal<Predicate>)], place: usize) -> &(GoalSource, Goal<Predicate>)
    requires { place < length goals.now }
    ensures { slice_get goals.now place ≡ Some result.now }
{
    &goals[place]
}

fn has_place(places: &[usize], place: usize) -> bool
    ensures { IsTrue result ↔ Contains places.now place }
{
    places.contains(&place)
}

/// Adds a place after the others, unless the goal there was taken out. Only memory is refused; then nothing
/// changes.
fn add_pending(taken: &[usize], place: usize, places: &mut Vec<usize>) -> Result<(), Fault>
    ensures added { OnOk result (JoinsUnless taken.now place places.old.items places.new.items) }
    ensures unchanged { OnErr result (places.new.items ≡ places.old.items) }
    ensures only_memory { IsOkUnless result Fault.OutOfMemory }
{
    if has_place(taken, place) {
        return Ok(());
    }
    add_place(places, place)
}

/// Adds a place to those of the goals that were taken out if its goal holds, and to those that are left if not.
/// Only memory is refused; then nothing changes.
fn list_place(
    answered: Certainty,
    place: usize,
    taken: &mut Vec<usize>,
    left: &mut Vec<usize>,
) -> Result<(), Fault>
    ensures listed { OnOk result (IsListed answered place taken.old.items left.old.items taken.new.items left.new.items) }
    ensures unchanged { OnErr result ((taken.new.items ≡ taken.old.items) × (left.new.items ≡ left.old.items)) }
    ensures only_memory { IsOkUnless result Fault.OutOfMemory }
{
    match answered {
        Certainty::Yes => add_place(taken, place),
        Certainty::Maybe => add_place(left, place),
    }
}

/// Adds a place after the others. Only memory is refused; then nothing changes.
fn add_place(places: &mut Vec<usize>, place: usize) -> Result<(), Fault>
    ensures added { OnOk result (places.new.items ≡ places.old.items ++ place ∷ []) }
    ensures unchanged { OnErr result (places.new.items ≡ places.old.items) }
    ensures only_memory { IsOkUnless result Fault.OutOfMemory }
{
    if places.push(place).is_err() {
        return Err(Fault::OutOfMemory);
    }
    Ok(())
}

/// Whether a response says nothing of what was there before it: no variable but its own is bound, no lifetimes are equated.
fn tells_nothing(response: &Response) -> bool {
    binds_nothing(response) && response.region_equations.is_empty()
}
