//! Trait goals.
ghost use Rattle.std.specs.Prelude.{◌≡◌, ℕ, suc, [], None, length, IfOk};
ghost use Rattle.goal_terms.specs.declared.answers.Certainty.TheVariants as certainty;
ghost use Rattle.goal_terms.specs.declared.modes.TypingMode.{TypingMode};
ghost use Rattle.goal_lists.specs.Answers.{setting_of};
ghost use Rattle.goal_lists.specs.Levels.{level};
ghost use Rattle.goal_solver.specs.Accesses.{RecordsCaused, RecordsCausedFaults};
ghost use Rattle.goal_eval.specs.ErasedArgs.{erased_args};
ghost use Rattle.goal_solver.specs.Answers.{IsOwed, IsTraitAnswer, IsOpen, IsMaybe, AnswersAside, IsFaultOf};
ghost use Rattle.goal_solver.specs.Binding.{IsApplicable};
ghost use Rattle.goal_solver.specs.GoingBack.{GoesBack, restored};
ghost use Rattle.goal_solver.specs.Promises.{AnswersTrait, IsClosedTrait, LeavesUndecided, MergesOpenTrait, NoTwoDisagree, trait_asked, trait_question, WhereOwed, IsAnswerToTrait, IsTraitOpen, MergesTraitAt};
ghost use Rattle.goal_solver.specs.State.{kinds_of};

pub(crate) mod open;

use crate::context::EvalCtxt;
use crate::eval::closed_goals::has_variable;
use crate::faults::Fault;
use goal_eval::eval::region_constraints::RegionConstraints;
use goal_lists::outcomes::TraitOutcome;
use goal_terms::answers::{Certainty, Response};
use goal_terms::ids::TraitId;
use goal_terms::predicates::{Clause, Goal, TraitPredicate};
use goal_terms::terms::GenericArg;

impl EvalCtxt<'_> {
    /// Whether a trait goal holds. For a closed goal, `Yes`: a derivation no higher than the remaining depth shows
    /// it, through the class that the answer names. `NoSolution`: a refutation no higher does. `Maybe`: there is
    /// neither. What is decided stays so at every greater depth. That is so in the context's own mode; in the erased
    /// one it is so of each headline mode, too, as long as no access is recorded. No two answers at any depths
    /// disagree.
    ///
    /// In the erased mode an access is recorded where a rule reads the mode, and an opaque type stays as it is. In
    /// coherence, and where opaque types are being defined, the goal goes by what its candidates say in that mode.
    ///
    /// A goal with inference variables is answered by its candidates at one less of the depth. Those of the
    /// environment come first, then the bounds of its self type, then the rest, each taken for the head form of
    /// the self type. Their rules are run one by one. Of the first class that isn't wholly refused, all that aren't
    /// refused must have the same response, which is the answer; else it is `Maybe`. Where all candidates are
    /// refused it is `NoSolution`. It is `Maybe` where the self type is a general variable, or an alias whose
    /// term isn't known.
    ///
    /// `RerunNonErased`: the erased mode doesn't suffice; an access is recorded. Inference state, added goals and
    /// storage are as before; the answer can be applied. The response to a closed goal lists lifetimes alone: a `Yes`
    /// has a region variable for each lifetime of its own that an impl is matched with, and the equations of lifetimes
    /// that its candidate rests on. At depth 0 it is `Maybe`, which takes no memory.
    pub fn compute_trait_goal(&mut self, goal: &Goal<TraitPredicate>) -> Result<Response, Fault>
        ensures closed { IsClosedTrait goal.now → AnswersTrait self.old self.new goal.now.param_env.items (trait_asked goal.now.predicate) result }
        ensures merged { (IsClosedTrait goal.now → ⊥) → MergesOpenTrait self.old self.new goal.now result }
        ensures at_once { self.old.remaining_depth ≡ 0 → LeavesUndecided self.old result }
        ensures agrees { NoTwoDisagree self.old.tables goal.now.param_env.items (trait_question (trait_asked goal.now.predicate)) }
        ensures unchanged { self.new ≡ restored self.old self.new }
        ensures goes_back { GoesBack self.old self.new }
        ensures fault { IsFaultOf self.old self.new result }
        ensures caused { IsClosedTrait goal.now → RecordsCaused self.old self.new }
        ensures faults { IsClosedTrait goal.now → RecordsCausedFaults self.old self.new }
        ensures applies { IfOk result (IsApplicable self.new) }
    {
        self.trait_goal_response(goal)
    }

    /// What `compute_trait_goal` answers, clause by clause.
    #[cycle(open)]
    pub(crate) fn trait_goal_response(
        &mut self,
        goal: &Goal<TraitPredicate>,
    ) -> Result<Response, Fault>
        ensures sound { WhereOwed self.old self.new goal.now.param_env.items (λ L. IsClosedTrait goal.now → IsAnswerToTrait L goal.now.predicate result) }
        ensures decided { WhereOwed self.old self.new goal.now.param_env.items (λ L. IsClosedTrait goal.now → IsMaybe result → IsTraitOpen L goal.now.predicate) }
        ensures unchanged { self.new ≡ restored self.old self.new }
        ensures goes_back { GoesBack self.old self.new }
        ensures fault { IsFaultOf self.old self.new result }
        ensures caused { IsClosedTrait goal.now → RecordsCaused self.old self.new }
        ensures faults { IsClosedTrait goal.now → RecordsCausedFaults self.old self.new }
        ensures quiet { IsClosedTrait goal.now → AnswersAside (length (kinds_of self.old)) result }
        ensures lists { IsClosedTrait goal.now → IfOk result (λ r. r.var_values.items ≡ []) }
        ensures class { IsClosedTrait goal.now → IfOk result (λ r. r.certainty ≡ certainty.Maybe → r.proven_via ≡ None) }
        ensures at_once { self.old.remaining_depth ≡ 0 → LeavesUndecided self.old result }
        ensures merged { (n : ℕ) → (IsClosedTrait goal.now → ⊥) → self.old.remaining_depth ≡ suc n → MergesTraitAt n self.old goal.now result self.new }
        ensures applies { IfOk result (IsApplicable self.new) }
    {
        self.is_well_formed();
        if self.remaining_depth() == 0 {
            return Ok(self.respond(Certainty::Maybe, None));
        }
        if has_variable(goal) {
            return self.merge_below(goal);
        }
        let trait_ref = &goal.predicate.trait_ref;
        let depth = self.remaining_depth;
        self.answer_trait(trait_ref.def_id, &trait_ref.args, &goal.param_env, depth)
    }

    /// What is answered to a trait goal at a depth, as `compute_trait_goal` does at the remaining one. Inference
    /// state, added goals and storage are as before; the answer can be applied.
    pub(crate) fn answer_trait(
        &mut self,
        trait_id: TraitId,
        args: &[GenericArg],
        environment: &[Clause],
        depth: u32,
    ) -> Result<Response, Fault>
        ensures sound { (m : TypingMode) → IsOwed self.new m → IsTraitAnswer (level (setting_of self.old.tables m environment.now) depth) trait_id (erased_args args.now) result }
        ensures decided { (m : TypingMode) → IsOwed self.new m → IsMaybe result → IsOpen (level (setting_of self.old.tables m environment.now) depth) trait_id (erased_args args.now) }
        ensures unchanged { self.new ≡ restored self.old self.new }
        ensures goes_back { GoesBack self.old self.new }
        ensures fault { IsFaultOf self.old self.new result }
        ensures caused { RecordsCaused self.old self.new }
        ensures faults { RecordsCausedFaults self.old self.new }
        ensures quiet { AnswersAside (length (kinds_of self.old)) result }
        ensures lists { IfOk result (λ r. r.var_values.items ≡ []) }
        ensures class { IfOk result (λ r. r.certainty ≡ certainty.Maybe → r.proven_via ≡ None) }
        ensures applies { IfOk result (IsApplicable self.new) }
    {
        self.is_well_formed();
        let mut listed = RegionConstraints::new(self.allocator());
        match self.trait_outcome_at(trait_id, args, environment, depth, &mut listed) {
            Ok(TraitOutcome::Holds(class)) => Ok(self.respond_yes(Some(class), listed)),
            Ok(TraitOutcome::Refuted) => Err(Fault::NoSolution),
            Ok(TraitOutcome::Undecided) => Ok(self.respond(Certainty::Maybe, None)),
            Err(stop) => self.stopped(stop),
        }
    }
}
