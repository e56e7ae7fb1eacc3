//! Kinds of goals with candidates: what each candidate asks for, as a rule.
ghost use Rattle.std.specs.Prelude.{◌≡◌, ◌≤◌, ℕ, true, false, Option, Some, Ok, Err, IfOk, IfErr, IsOkUnless, option_copied};
ghost use Rattle.std.specs.Option.{option_map};
ghost use Rattle.goal_terms.specs.Tree.{Tree as tree};
ghost use Rattle.goal_terms.specs.TreeOf.{tree_of_ty};
ghost use Rattle.goal_kinds.specs.CandidateRules.{HoldsError, HasNoKindFault, said_by, seen_trait, only_given};
ghost use Rattle.goal_kinds.specs.CandidateRules.{trait_alias, sizedness, copy_clone, fn_ptr_trait, fn_trait, tuple, pointee, discriminant_kind, destruct, field};
ghost use Rattle.goal_lists.specs.Candidates.{Candidate as candidate, built_in, error};
ghost use Rattle.goal_kinds.specs.KindWords.{KindWords, words_for, Gives, Refutes, HasList, GivesBeside, RefutesBeside, GivesAsImpl, RefutesAsImpl, HasListOfImpl, IsRefusalOf, RefusesFinally};
ghost use Rattle.goal_kinds.specs.KindWords.{GiveAdditional, RefuteAdditional, ListAdditional, AddNoImpl, AnswersBy, OtherHeadsAreRefuted, RejectionIsFinal};
ghost use Rattle.goal_lists.specs.Premises.{TraitTree as trait_tree};
ghost use Rattle.goal_kinds.specs.RuleWords.{TermsAreFor, auto_trait_entries};
ghost use Rattle.goal_lists.specs.Settings.{Setting as setting};

use crate::faults::Fault;
use crate::rules::Rule;
use crate::rules::lists::{auto_trait_rule, with_requirements};
use goal_checks::checked::CheckedTables;
use goal_checks::predicate_terms::PredicateTerms;
use goal_terms::answers::{BuiltinImplSource, CandidateSource, Certainty, GoalSource};
use goal_terms::ids::{ImplId, TraitId};
use goal_terms::modes::TypingMode;
use goal_terms::predicates::{BoundConstness, Clause, ClauseKind, Goal};
use goal_terms::terms::{AliasTerm, GenericArg, Ty};

/// How the candidates of a kind of goals are merged.
#[derive(Clone, Copy, PartialEq, Eq)]
pub enum MergeRule {
    /// The first class that isn't wholly refuted decides, and one candidate that holds is enough.
    TraitGoals,
    /// As for trait goals, among the classes that the way the trait goal holds through names.
    HostEffectGoals,
    /// Among those classes the first that isn't wholly refuted gives the term, on which its candidates
    /// must agree.
    Projections,
}

/// A trait with its arguments, as they stand in a predicate. The first argument is the self type.
#[derive(Clone, Copy)]
pub struct TraitView<'a> {
    pub def_id: TraitId,
    pub args: &'a [GenericArg],
}

/// The predicate of a kind of goals that candidates show. A function for a candidate evaluates nothing:
/// it answers a rule. The goal is read as it is given: its bindings are followed, and its self type is
/// a head form. A refusal `NoSolution` says that the candidate is refuted; `OutOfMemory` that a growth
/// was refused; `NotForThisKind` that the function isn't for goals of this kind.
pub trait GoalKind: PredicateTerms {
    /// What this kind of goals says of its goals and of their candidates.
    ghost words: { KindWords Self };

    /// How candidates are merged. It takes no memory.
    fn merge_rule() -> MergeRule
        ensures { result ≡ words.merging };

    /// The trait that a goal is about, with its arguments. It takes no memory.
    fn trait_ref<'a>(&'a self, tables: &'a CheckedTables) -> Option<TraitView<'a>>
        ensures { option_map seen_trait result ≡ words.asked self.now tables.now };

    /// The trait that a goal is about. It takes no memory.
    fn trait_def_id(&self, tables: &CheckedTables) -> Option<TraitId>
        ensures { result ≡ option_map (λ q. q.def_id) (words.asked self.now tables.now) };

    /// The self type. It takes no memory.
    fn self_ty(&self) -> Option<&Ty>
        ensures { option_copied result ≡ words.self_type self.now };

    /// The constness with which the trait is asked for, if it is as a const trait. It takes no memory.
    fn constness(&self) -> Option<BoundConstness>
        ensures { result ≡ words.constness self.now };

    /// The predicate with another self type. Want of memory is the only refusal.
    fn with_replaced_self_ty(&self, self_ty: Ty) -> Result<Self, Fault>
        ensures replaced { IfOk result (words.is_with_self self.now (tree_of_ty self_ty)) }
        ensures memory { IsOkUnless result Fault.OutOfMemory };

    /// Whether a clause may show the goal, as far as heads and kinds say. It takes no memory.
    fn fast_reject_assumption(&self, assumption: &Clause) -> Result<(), Fault>
        ensures passes { words.passes self.now assumption.now.kind ≡ true → result ≡ Ok tt }
        ensures rejected { words.passes self.now assumption.now.kind ≡ false → result ≡ Err Fault.NoSolution };

    /// The rule of a clause that the fast rejection lets pass. Want of memory is the only refusal.
    fn match_assumption(
        tables: &CheckedTables,
        mode: &TypingMode,
        goal: &Goal<Self>,
        source: CandidateSource,
        assumption: &Clause,
        then: Certainty,
    ) -> Result<Rule, Fault>
        requires passes { words.passes goal.now.predicate assumption.now.kind ≡ true }
        ensures source { IfOk result (λ r. r.source ≡ source) }
        ensures list { IfOk result (HasList (words_for words tables.now goal.now mode.now) then (said_by assumption.now.kind)) }
        ensures gives { IfOk result (Gives (words_for words tables.now goal.now mode.now) then (said_by assumption.now.kind)) }
        ensures refuted { IfOk result (Refutes (words_for words tables.now goal.now mode.now) (said_by assumption.now.kind)) }
        ensures given { IfOk result (λ r. only_given r.entries.items ≡ true) }
        ensures expected { IfOk result (λ r. TermsAreFor (words.expected goal.now.predicate) r.entries.items) }
        ensures memory { IsOkUnless result Fault.OutOfMemory };

    /// The rule of an impl of the goal's trait. In the headline modes it holds, gives a term and is refuted
    /// where the impl is; a refusal says that the impl is refuted with no height.
    fn consider_impl_candidate(
        tables: &CheckedTables,
        mode: &TypingMode,
        goal: &Goal<Self>,
        impl_id: ImplId,
        then: Certainty,
    ) -> Result<Rule, Fault>
        requires accepted { HasNoKindFault (λ f. Self.has_fault goal.now.predicate tables.now f) }
        ensures expected { IfOk result (λ r. TermsAreFor (words.expected goal.now.predicate) r.entries.items) }
        ensures source { IfOk result (λ r. r.source ≡ CandidateSource.Impl impl_id) }
        ensures list { HasListOfImpl (words_for words tables.now goal.now mode.now) then impl_id result }
        ensures gives { GivesAsImpl (words_for words tables.now goal.now mode.now) then impl_id result }
        ensures refuted { RefutesAsImpl (words_for words tables.now goal.now mode.now) impl_id result }
        ensures fault { RefusesFinally (words_for words tables.now goal.now mode.now) impl_id result };

    /// The rule of an error that stands in the goal. A refusal says that an error shows nothing.
    fn consider_error_guaranteed_candidate(
        tables: &CheckedTables,
        mode: &TypingMode,
        goal: &Goal<Self>,
    ) -> Result<Rule, Fault>
        requires stands { HoldsError (words.asked goal.now.predicate tables.now) }
        ensures source { IfOk result (λ r. r.source ≡ CandidateSource.BuiltinImpl BuiltinImplSource.Misc) }
        ensures list { IfOk result (HasList (words_for words tables.now goal.now mode.now) Certainty.Yes error) }
        ensures gives { IfOk result (Gives (words_for words tables.now goal.now mode.now) Certainty.Yes error) }
        ensures refuted { IfOk result (Refutes (words_for words tables.now goal.now mode.now) error) }
        ensures fault { IfErr result (IsRefusalOf (words_for words tables.now goal.now mode.now) error) };

    /// The rules of the candidates that an alias has beside its bounds, in their order. Want of memory is
    /// the only refusal.
    fn consider_additional_alias_assumptions(
        tables: &CheckedTables,
        mode: &TypingMode,
        goal: &Goal<Self>,
        alias: &AliasTerm,
    ) -> Result<Vec<Rule>, Fault>
        ensures gives { IfOk result (λ rs. GiveAdditional (words_for words tables.now goal.now mode.now) alias.now rs.items) }
        ensures list { IfOk result (λ rs. ListAdditional (words_for words tables.now goal.now mode.now) alias.now rs.items) }
        ensures refuted { IfOk result (λ rs. RefuteAdditional (words_for words tables.now goal.now mode.now) alias.now rs.items) }
        ensures no_impl { IfOk result (λ rs. AddNoImpl (words_for words tables.now goal.now mode.now) alias.now rs.items) }
        ensures memory { IsOkUnless result Fault.OutOfMemory };

    /// The rule of a clause, which is refused where the fast rejection doesn't let it pass.
    fn probe_and_match_goal_against_assumption(
        tables: &CheckedTables,
        mode: &TypingMode,
        goal: &Goal<Self>,
        source: CandidateSource,
        assumption: &Clause,
        then: Certainty,
    ) -> Result<Rule, Fault>
        ensures source { IfOk result (λ r. r.source ≡ source) }
        ensures list { IfOk result (HasList (words_for words tables.now goal.now mode.now) then (said_by assumption.now.kind)) }
        ensures gives { IfOk result (Gives (words_for words tables.now goal.now mode.now) then (said_by assumption.now.kind)) }
        ensures refuted { IfOk result (Refutes (words_for words tables.now goal.now mode.now) (said_by assumption.now.kind)) }
        ensures given { IfOk result (λ r. only_given r.entries.items ≡ true) }
        ensures expected { IfOk result (λ r. TermsAreFor (words.expected goal.now.predicate) r.entries.items) }
        ensures rejected { words.passes goal.now.predicate assumption.now.kind ≡ false → result ≡ Err Fault.NoSolution }
        ensures memory { words.passes goal.now.predicate assumption.now.kind ≡ true → IsOkUnless result Fault.OutOfMemory }
    {
        goal.predicate.fast_reject_assumption(assumption)?;
        Self::match_assumption(tables, mode, goal, source, assumption, then)
    }

    /// The rule of a clause and of what it requires beside it: the clause shows the goal, and all that is
    /// required holds. It is refused where the fast rejection doesn't let the clause pass.
    fn probe_and_consider_implied_clause(
        tables: &CheckedTables,
        mode: &TypingMode,
        goal: &Goal<Self>,
        source: CandidateSource,
        assumption: &Clause,
        requirements: Vec<(GoalSource, ClauseKind)>,
    ) -> Result<Rule, Fault>
        ensures source { IfOk result (λ r. r.source ≡ source) }
        ensures gives { IfOk result (GivesBeside (words_for words tables.now goal.now mode.now) requirements.items (said_by assumption.now.kind)) }
        ensures refuted { IfOk result (RefutesBeside (words_for words tables.now goal.now mode.now) requirements.items (said_by assumption.now.kind)) }
        ensures expected { IfOk result (λ r. TermsAreFor (words.expected goal.now.predicate) r.entries.items) }
        ensures rejected { words.passes goal.now.predicate assumption.now.kind ≡ false → result ≡ Err Fault.NoSolution }
        ensures memory { words.passes goal.now.predicate assumption.now.kind ≡ true → IsOkUnless result Fault.OutOfMemory }
    {
        let rule = Self::probe_and_match_goal_against_assumption(
            tables,
            mode,
            goal,
            source,
            assumption,
            Certainty::Yes,
        )?;
        Ok(with_requirements(rule, requirements)?)
    }

    /// The rule of a clause of a `dyn` self type: as for any clause, and nothing is added.
    fn probe_and_consider_object_bound_candidate(
        tables: &CheckedTables,
        mode: &TypingMode,
        goal: &Goal<Self>,
        source: CandidateSource,
        assumption: &Clause,
    ) -> Result<Rule, Fault>
        ensures source { IfOk result (λ r. r.source ≡ source) }
        ensures list { IfOk result (HasList (words_for words tables.now goal.now mode.now) Certainty.Yes (said_by assumption.now.kind)) }
        ensures gives { IfOk result (Gives (words_for words tables.now goal.now mode.now) Certainty.Yes (said_by assumption.now.kind)) }
        ensures refuted { IfOk result (Refutes (words_for words tables.now goal.now mode.now) (said_by assumption.now.kind)) }
        ensures expected { IfOk result (λ r. TermsAreFor (words.expected goal.now.predicate) r.entries.items) }
        ensures rejected { words.passes goal.now.predicate assumption.now.kind ≡ false → result ≡ Err Fault.NoSolution }
        ensures memory { words.passes goal.now.predicate assumption.now.kind ≡ true → IsOkUnless result Fault.OutOfMemory }
    {
        Self::probe_and_match_goal_against_assumption(
            tables,
            mode,
            goal,
            source,
            assumption,
            Certainty::Yes,
        )
    }

    /// The rule of an auto trait, which checked tables don't have: it records the fault, and doesn't stand.
    /// A goal whose trait has no row is refused.
    fn consider_auto_trait_candidate(
        tables: &CheckedTables,
        goal: &Goal<Self>,
    ) -> Result<Rule, Fault>
        ensures source { IfOk result (λ r. r.source ≡ CandidateSource.BuiltinImpl BuiltinImplSource.Misc) }
        ensures recorded { (q : trait_tree) → words.asked goal.now.predicate tables.now ≡ Some q → IfOk result (λ r. r.entries.items ≡ auto_trait_entries q.def_id) }
        ensures memory { (q : trait_tree) → words.asked goal.now.predicate tables.now ≡ Some q → IsOkUnless result Fault.OutOfMemory }
    {
        let Some(id) = goal.predicate.trait_def_id(tables) else {
            return Err(Fault::NoSolution);
        };
        Ok(auto_trait_rule(*goal.param_env.allocator(), id)?)
    }

    /// The rule of a trait alias, which asks for its predicates. It says no more than the built-in candidate, and just its list where the kind tells it.
    fn consider_trait_alias_candidate(
        tables: &CheckedTables,
        mode: &TypingMode,
        goal: &Goal<Self>,
    ) -> Result<Rule, Fault>
        ensures answer { AnswersBy (words_for words tables.now goal.now mode.now) trait_alias result }
        ensures list { IfOk result (HasList (words_for words tables.now goal.now mode.now) Certainty.Yes built_in) };

    /// The rule of sized types. It says no more than the built-in candidate, and just its list where the kind tells it.
    fn consider_builtin_sizedness_candidates(
        tables: &CheckedTables,
        mode: &TypingMode,
        goal: &Goal<Self>,
    ) -> Result<Rule, Fault>
        ensures answer { AnswersBy (words_for words tables.now goal.now mode.now) sizedness result }
        ensures list { IfOk result (HasList (words_for words tables.now goal.now mode.now) Certainty.Yes built_in) };

    /// The rule of types that are copied or cloned. It says no more than the built-in candidate, and just its list where the kind tells it.
    fn consider_builtin_copy_clone_candidate(
        tables: &CheckedTables,
        mode: &TypingMode,
        goal: &Goal<Self>,
    ) -> Result<Rule, Fault>
        ensures answer { AnswersBy (words_for words tables.now goal.now mode.now) copy_clone result }
        ensures list { IfOk result (HasList (words_for words tables.now goal.now mode.now) Certainty.Yes built_in) };

    /// The rule of function pointers. It says no more than the built-in candidate, and just its list where the kind tells it.
    fn consider_builtin_fn_ptr_trait_candidate(
        tables: &CheckedTables,
        mode: &TypingMode,
        goal: &Goal<Self>,
    ) -> Result<Rule, Fault>
        ensures answer { AnswersBy (words_for words tables.now goal.now mode.now) fn_ptr_trait result }
        ensures list { IfOk result (HasList (words_for words tables.now goal.now mode.now) Certainty.Yes built_in) };

    /// The rule of types that are called. It says no more than the built-in candidate, and just its list where the kind tells it.
    fn consider_builtin_fn_trait_candidates(
        tables: &CheckedTables,
        mode: &TypingMode,
        goal: &Goal<Self>,
    ) -> Result<Rule, Fault>
        ensures answer { AnswersBy (words_for words tables.now goal.now mode.now) fn_trait result }
        ensures list { IfOk result (HasList (words_for words tables.now goal.now mode.now) Certainty.Yes built_in) };

    /// The rule of tuples. It says no more than the built-in candidate, and just its list where the kind tells it.
    fn consider_builtin_tuple_candidate(
        tables: &CheckedTables,
        mode: &TypingMode,
        goal: &Goal<Self>,
    ) -> Result<Rule, Fault>
        ensures answer { AnswersBy (words_for words tables.now goal.now mode.now) tuple result }
        ensures list { IfOk result (HasList (words_for words tables.now goal.now mode.now) Certainty.Yes built_in) };

    /// The rule of what a pointer points to, and its metadata. It says no more than the built-in candidate, and just its list where the kind tells it.
    fn consider_builtin_pointee_candidate(
        tables: &CheckedTables,
        mode: &TypingMode,
        goal: &Goal<Self>,
    ) -> Result<Rule, Fault>
        ensures answer { AnswersBy (words_for words tables.now goal.now mode.now) pointee result }
        ensures list { IfOk result (HasList (words_for words tables.now goal.now mode.now) Certainty.Yes built_in) };

    /// The rule of discriminants. It says no more than the built-in candidate, and just its list where the kind tells it.
    fn consider_builtin_discriminant_kind_candidate(
        tables: &CheckedTables,
        mode: &TypingMode,
        goal: &Goal<Self>,
    ) -> Result<Rule, Fault>
        ensures answer { AnswersBy (words_for words tables.now goal.now mode.now) discriminant_kind result }
        ensures list { IfOk result (HasList (words_for words tables.now goal.now mode.now) Certainty.Yes built_in) };

    /// The rule of types that are dropped. It says no more than the built-in candidate, and just its list where the kind tells it.
    fn consider_builtin_destruct_candidate(
        tables: &CheckedTables,
        mode: &TypingMode,
        goal: &Goal<Self>,
    ) -> Result<Rule, Fault>
        ensures answer { AnswersBy (words_for words tables.now goal.now mode.now) destruct result }
        ensures list { IfOk result (HasList (words_for words tables.now goal.now mode.now) Certainty.Yes built_in) };

    /// The rule of fields. It says no more than the built-in candidate, and just its list where the kind tells it.
    fn consider_builtin_field_candidate(
        tables: &CheckedTables,
        mode: &TypingMode,
        goal: &Goal<Self>,
    ) -> Result<Rule, Fault>
        ensures answer { AnswersBy (words_for words tables.now goal.now mode.now) field result }
        ensures list { IfOk result (HasList (words_for words tables.now goal.now mode.now) Certainty.Yes built_in) };

    /// What a candidate gives at a height it gives at every greater one, and so is it refuted. It does
    /// nothing.
    fn more_height_keeps_candidates()
        ensures gives { (p : Self) (S : setting) (n m : ℕ) (c : candidate) (t : tree) → n ≤ m → words.gives p S n c t → words.gives p S m c t }
        ensures refuted { (p : Self) (S : setting) (n m : ℕ) (c : candidate) → n ≤ m → words.refuted p S n c → words.refuted p S m c };

    /// Over accepted tables an accepted clause that the fast rejection doesn't let pass is refuted with no
    /// height. It does nothing.
    fn rejected_clauses_are_refuted()
        ensures { RejectionIsFinal words Self.has_fault };

    /// An impl whose header has another head than the goal's arguments is refuted with no height. It does nothing.
    fn other_heads_are_refuted()
        ensures { OtherHeadsAreRefuted words };
}
