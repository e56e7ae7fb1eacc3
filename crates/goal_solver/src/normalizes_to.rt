//! Normalization of aliases.
ghost use Rattle.std.specs.Prelude.{◌≡◌, ◌⊎◌, ◌∷◌, true, false, [], length, Some, None, IfOk, IsOkUnless};
ghost use Rattle.goal_interner.specs.TableMeaning.{HasTerm};
ghost use Rattle.goal_terms.specs.declared.answers.Certainty.TheVariants as certainty;
ghost use Rattle.goal_terms.specs.declared.terms.Term.{Term as term};
ghost use Rattle.goal_lists.specs.Answers.{maybe};
ghost use Rattle.goal_lists.specs.Interned.{erased_at};
ghost use Rattle.goal_solver.specs.Accesses.{RecordsCaused, RecordsCausedFaults};
ghost use Rattle.goal_solver.specs.Answers.{is_closed_alias, GivesTo, expected_variable, AnswersAside, AnswersQuietly, IsFaultOf};
ghost use Rattle.goal_solver.specs.Binding.{IsApplicable};
ghost use Rattle.goal_solver.specs.Goals.{IsAcceptedNormalization};
ghost use Rattle.goal_solver.specs.GoingBack.{GoesBack, restored};
ghost use Rattle.goal_solver.specs.Promises.{AnswersAlias, DefinesAlias, IsClosedNormalization, LeavesUndecided, ListsTerm, MergesOpenProjection, NeverYes, NoTwoDisagree, is_defined, term_asked, WhereOwed, IsTermAnswer, LeavesTermOpen, LeavesTermMaybe, MergesWhereOpen};
ghost use Rattle.goal_solver.specs.Recording.{is_ambiguous};
ghost use Rattle.goal_solver.specs.State.{kinds_of};

pub(crate) mod hidden_types;
pub(crate) mod open;
pub(crate) mod proven_via;
pub mod translate_args;

use crate::context::EvalCtxt;
use crate::eval::closed_goals::is_closed_alias;
use crate::faults::Fault;
use goal_eval::eval::outcomes::Found;
use goal_eval::eval::region_constraints::RegionConstraints;
use goal_interner::term_nodes::TermId;
use goal_terms::answers::{Certainty, Response};
use goal_terms::node_tests::general_variable;
use goal_terms::predicates::{Goal, NormalizesTo};

impl EvalCtxt<'_> {
    /// The term that an alias normalizes to, as the value of the goal's expected variable. For a closed goal, `Yes`:
    /// a derivation no higher than the remaining depth gives the term. `NoSolution`: a refutation no higher shows
    /// that there is none. `Maybe`, for a goal that [`crate::eval::goals::check_goal`] accepts: there is neither.
    /// What is decided stays so at every greater depth. That is so in the context's own mode; in the erased one it is
    /// so of each headline mode, too, as long as no access is recorded. No two answers at any depths disagree.
    ///
    /// In the erased mode an access is recorded where a rule reads the mode, and an opaque type stays as it is. In
    /// coherence, and where opaque types are being defined, the goal goes by what its candidates say in that mode;
    /// that of an opaque type is `Maybe` in coherence, and never `Yes`, also with inference variables.
    ///
    /// An opaque type that the mode defines is answered at one less of the depth by running the list of
    /// [`goal_kinds::rules::aliases::alias_rule`]: its hidden type under its normalized arguments is the expected
    /// variable, and the response lists the hidden type that is entered.
    ///
    /// A projection with other inference variables is answered at one less of the depth. Its trait goal is answered
    /// first, as [`EvalCtxt::compute_trait_goal`] does it: a refusal is the answer, and where it is `Maybe` so is
    /// the answer. The candidates of the environment then come first; after them the bounds of the self type, or
    /// these and the rest together where the trait goal holds by the rest. Their rules are run one by one. Of the
    /// first of the two groups that isn't wholly refused, all that aren't refused must have the same response, which
    /// is the answer; else it is `Maybe`. Where the environment gives the term, or the bounds in a goal whose trait
    /// goal holds by the environment or the bounds, the head form of each own type or constant argument is asked
    /// for: a refused one makes `NoSolution`, an undecided one or a general variable `Maybe`. Where all are
    /// refused it is `NoSolution` if the trait goal holds by the rest, and else the expected variable's value is the
    /// alias as it stands. An alias of another kind with such variables is answered by its list.
    ///
    /// `RerunNonErased`: the erased mode doesn't suffice; an access is recorded. Inference state, added goals and
    /// storage are as before: the answer says what would change, and it can be applied, if the goal was accepted. The
    /// response to a closed goal lists the expected variable's value and lifetimes alone, as that of a trait goal does,
    /// and names no class. At depth 0 it is `Maybe`, which takes no memory, and so it is where the expected term is no
    /// general variable.
    pub fn compute_normalizes_to_goal(
        &mut self,
        goal: &Goal<NormalizesTo>,
    ) -> Result<Response, Fault>
        ensures closed { IsClosedNormalization goal.now → AnswersAlias self.old self.new goal.now.param_env.items goal.now.predicate result }
        ensures merged { (IsClosedNormalization goal.now → ⊥) → MergesOpenProjection self.old self.new goal.now result }
        ensures at_once { (self.old.remaining_depth ≡ 0) ⊎ (expected_variable goal.now.predicate.term ≡ None) → LeavesUndecided self.old result }
        ensures agrees { NoTwoDisagree self.old.tables goal.now.param_env.items (term_asked goal.now.predicate) }
        ensures ambiguous { IsClosedNormalization goal.now → is_ambiguous self.old.typing_mode goal.now.predicate.alias.kind ≡ true → LeavesUndecided self.old result }
        ensures never { NeverYes self.old goal.now result }
        ensures unchanged { self.new ≡ restored self.old self.new }
        ensures goes_back { GoesBack self.old self.new }
        ensures fault { IsFaultOf self.old self.new result }
        ensures caused { IsClosedNormalization goal.now → is_defined self.old goal.now ≡ false → RecordsCaused self.old self.new }
        ensures faults { IsClosedNormalization goal.now → is_defined self.old goal.now ≡ false → RecordsCausedFaults self.old self.new }
        ensures defines { IsClosedNormalization goal.now → DefinesAlias self.old self.new goal.now result }
        ensures applies { IsAcceptedNormalization self.old goal.now.predicate goal.now.param_env.items → IfOk result (IsApplicable self.new) }
    {
        if self.defines(goal) {
            return self.define_below(goal);
        }
        self.normalizes_to_response(goal)
    }

    /// What `compute_normalizes_to_goal` answers, clause by clause.
    fn normalizes_to_response(&mut self, goal: &Goal<NormalizesTo>) -> Result<Response, Fault>
        ensures sound { WhereOwed self.old self.new goal.now.param_env.items (λ L. IsClosedNormalization goal.now → IsTermAnswer L goal.now.predicate result) }
        ensures decided { LeavesTermOpen self.old self.new goal.now result }
        ensures unchanged { self.new ≡ restored self.old self.new }
        ensures goes_back { GoesBack self.old self.new }
        ensures fault { IsFaultOf self.old self.new result }
        ensures caused { IsClosedNormalization goal.now → RecordsCaused self.old self.new }
        ensures faults { IsClosedNormalization goal.now → RecordsCausedFaults self.old self.new }
        ensures quiet { IsClosedNormalization goal.now → AnswersAside (length (kinds_of self.old)) result }
        ensures lists { IsClosedNormalization goal.now → IfOk result (λ r. r.certainty ≡ certainty.Maybe → r.var_values.items ≡ []) }
        ensures gives { IsClosedNormalization goal.now → IfOk result (λ r. r.certainty ≡ certainty.Yes → ListsTerm goal.now.predicate.term certainty.Yes r.var_values.items) }
        ensures no_class { IsClosedNormalization goal.now → IfOk result (λ r. r.proven_via ≡ None) }
        ensures ambiguous { IsClosedNormalization goal.now → is_ambiguous self.old.typing_mode goal.now.predicate.alias.kind ≡ true → LeavesUndecided self.old result }
        ensures never { NeverYes self.old goal.now result }
        ensures at_once { (self.old.remaining_depth ≡ 0) ⊎ (expected_variable goal.now.predicate.term ≡ None) → LeavesUndecided self.old result }
        ensures whole { LeavesTermMaybe self.old self.new goal.now result }
        ensures applies { IsAcceptedNormalization self.old goal.now.predicate goal.now.param_env.items → IfOk result (IsApplicable self.new) }
        ensures merged { MergesWhereOpen self.old self.new goal.now result }
    {
        self.is_well_formed();
        let Some(expected) = general_variable(goal.predicate.term.view().node()) else {
            return Ok(self.respond(Certainty::Maybe, None));
        };
        if self.remaining_depth() == 0 {
            return Ok(self.respond(Certainty::Maybe, None));
        }
        if !is_closed_alias(&goal.predicate.alias, &goal.param_env) {
            return self.project_below(goal);
        }
        if self.is_ambiguous(goal.predicate.alias.kind) {
            return Ok(self.respond(Certainty::Maybe, None));
        }
        let mut listed = RegionConstraints::new(self.allocator());
        match self.alias_outcome(&goal.predicate.alias, &goal.param_env, &mut listed) {
            Ok(Found::Is(id)) => self.respond_found(expected, id, listed),
            Ok(Found::Refuted) => Err(Fault::NoSolution),
            Ok(Found::Undecided) => Ok(self.respond(Certainty::Maybe, None)),
            Err(stop) => self.stopped(stop),
        }
    }

    /// The answer that gives what was found to a variable, and lists region variables and equations. Only a type or a
    /// constant can be given.
    pub(crate) fn respond_found(
        &self,
        expected: u32,
        id: TermId,
        listed: RegionConstraints,
    ) -> Result<Response, Fault>
        ensures yes { HasTerm self.now.terms id → IfOk result (λ r. (r.certainty ≡ certainty.Yes) × GivesTo expected (erased_at self.now.terms id) r) }
        ensures maybe { (HasTerm self.now.terms id → ⊥) → IfOk result (λ r. r.certainty ≡ certainty.Maybe) }
        ensures gives { IfOk result (λ r. r.certainty ≡ certainty.Yes → (u : term) × (r.var_values.items ≡ (expected, u) ∷ [])) }
        ensures only_memory { IsOkUnless result Fault.OutOfMemory }
        ensures quiet { AnswersAside (length (kinds_of self.now)) result }
        ensures alone { listed.variables.items ≡ [] → listed.equations.items ≡ [] → AnswersQuietly (length (kinds_of self.now)) result }
        ensures lists { IfOk result (λ r. r.certainty ≡ certainty.Maybe → r.var_values.items ≡ []) }
        ensures no_class { IfOk result (λ r. r.proven_via ≡ None) }
    {
        if self.terms.contains(id) {
            self.respond_with(expected, id, listed)
        } else {
            Ok(self.respond(Certainty::Maybe, None))
        }
    }

    /// The answer that gives a term to a variable, and lists region variables and equations. Only memory is refused.
    fn respond_with(
        &self,
        expected: u32,
        id: TermId,
        listed: RegionConstraints,
    ) -> Result<Response, Fault>
        requires { HasTerm self.now.terms id }
        ensures yes { IfOk result (λ r. r.certainty ≡ certainty.Yes) }
        ensures value { IfOk result (GivesTo expected (erased_at self.now.terms id)) }
        ensures only_memory { IsOkUnless result Fault.OutOfMemory }
        ensures quiet { AnswersAside (length (kinds_of self.now)) result }
        ensures alone { listed.variables.items ≡ [] → listed.equations.items ≡ [] → AnswersQuietly (length (kinds_of self.now)) result }
        ensures no_class { IfOk result (λ r. r.proven_via ≡ None) }
    {
        let Ok(value) = self.terms.to_term(id) else {
            return Err(Fault::OutOfMemory);
        };
        let mut response = self.respond_yes(None, listed);
        if response.var_values.push((expected, value)).is_err() {
            return Err(Fault::OutOfMemory);
        }
        Ok(response)
    }
}
