//! Host effect goals as a kind of goals with candidates.
ghost use Rattle.std.specs.Prelude.{◌≡◌, true, false, List, None, Err, IfOk, IfErr};
ghost use Rattle.goal_terms.specs.declared.predicates.Clause.{Clause as clause};
ghost use Rattle.goal_kinds.specs.CandidateRules.{IsRefusal};
ghost use Rattle.goal_lists.specs.Candidates.{built_in};
ghost use Rattle.goal_kinds.specs.EffectKind.{asked_effect_list};
ghost use Rattle.goal_lists.specs.InternedEntries.{setting_at};
ghost use Rattle.goal_kinds.specs.RuleLists.{IsListed};

use crate::faults::Fault;
use crate::goal_kind::{GoalKind, MergeRule, TraitView};
use crate::rules::Rule;
use crate::rules::effects::{
    const_built_in_rule, const_error_rule, const_impl_rule, implied_rules, match_effect,
    may_match_effect,
};
use crate::rules::named::{is_alias, is_copy_clone, is_destruct, is_fn_trait, lang_item};
use crate::rules::trait_goal_kind::{first_type, setting_of, with_self};
use goal_checks::checked::CheckedTables;
use goal_lists::lists::ListSetting;
use goal_terms::answers::{CandidateSource, Certainty};
use goal_terms::ids::{ImplId, TraitId};
use goal_terms::modes::TypingMode;
use goal_terms::predicates::{BoundConstness, Clause, Goal, HostEffectPredicate};
use goal_terms::terms::{AliasTerm, Ty};

/// The rule of a trait alias, or a built-in rule, where its function is for the goal's trait. It isn't for
/// other traits, which takes no memory.
fn named_rule(
    setting: ListSetting<'_, '_>,
    asked: &HostEffectPredicate,
    is_for: bool,
) -> Result<Rule, Fault>
    ensures other { is_for ≡ false → result ≡ Err Fault.NotForThisKind }
    ensures listed { (env : List clause) → IfOk result (λ r. IsListed setting.entry.rows.now r (asked_effect_list asked.now (setting_at setting.entry env) built_in)) }
    ensures refused { (env : List clause) → is_for ≡ true → IfErr result (IsRefusal (asked_effect_list asked.now (setting_at setting.entry env) built_in ≡ None)) }
{
    if is_for {
        const_built_in_rule(setting, asked)
    } else {
        Err(Fault::NotForThisKind)
    }
}

impl GoalKind for HostEffectPredicate {
    ghost use Rattle.goal_kinds.specs.KindWords.{host_words};

    ghost words = { host_words };

    fn merge_rule() -> MergeRule {
        MergeRule::HostEffectGoals
    }

    fn trait_ref<'a>(&'a self, _tables: &'a CheckedTables) -> Option<TraitView<'a>> {
        Some(TraitView {
            def_id: self.trait_ref.def_id,
            args: self.trait_ref.args.as_slice(),
        })
    }

    fn trait_def_id(&self, _tables: &CheckedTables) -> Option<TraitId> {
        Some(self.trait_ref.def_id)
    }

    fn self_ty(&self) -> Option<&Ty> {
        first_type(&self.trait_ref.args)
    }

    fn constness(&self) -> Option<BoundConstness> {
        Some(self.constness)
    }

    fn with_replaced_self_ty(&self, self_ty: Ty) -> Result<Self, Fault> {
        let trait_ref = with_self(&self.trait_ref, self_ty)?;
        let constness = self.constness;
        Ok(HostEffectPredicate {
            trait_ref,
            constness,
        })
    }

    fn fast_reject_assumption(&self, assumption: &Clause) -> Result<(), Fault> {
        if may_match_effect(self, assumption) {
            Ok(())
        } else {
            Err(Fault::NoSolution)
        }
    }

    fn match_assumption(
        tables: &CheckedTables,
        mode: &TypingMode,
        goal: &Goal<Self>,
        source: CandidateSource,
        assumption: &Clause,
        then: Certainty,
    ) -> Result<Rule, Fault> {
        let setting = setting_of(tables, mode);
        match_effect(setting, &goal.predicate, source, assumption, then)
    }

    fn consider_impl_candidate(
        tables: &CheckedTables,
        mode: &TypingMode,
        goal: &Goal<Self>,
        impl_id: ImplId,
        then: Certainty,
    ) -> Result<Rule, Fault> {
        let setting = setting_of(tables, mode);
        const_impl_rule(setting, &goal.predicate, impl_id, then)
    }

    fn consider_error_guaranteed_candidate(
        tables: &CheckedTables,
        mode: &TypingMode,
        goal: &Goal<Self>,
    ) -> Result<Rule, Fault> {
        const_error_rule(setting_of(tables, mode), &goal.predicate)
    }

    fn consider_additional_alias_assumptions(
        tables: &CheckedTables,
        mode: &TypingMode,
        goal: &Goal<Self>,
        alias: &AliasTerm,
    ) -> Result<Vec<Rule>, Fault> {
        implied_rules(setting_of(tables, mode), &goal.predicate, alias)
    }

    fn consider_trait_alias_candidate(
        tables: &CheckedTables,
        mode: &TypingMode,
        goal: &Goal<Self>,
    ) -> Result<Rule, Fault> {
        let asked = &goal.predicate;
        let is_for = is_alias(tables.rows(), asked.trait_ref.def_id);
        named_rule(setting_of(tables, mode), asked, is_for)
    }

    fn consider_builtin_sizedness_candidates(
        _tables: &CheckedTables,
        _mode: &TypingMode,
        _goal: &Goal<Self>,
    ) -> Result<Rule, Fault> {
        Err(Fault::NotForThisKind)
    }

    fn consider_builtin_copy_clone_candidate(
        tables: &CheckedTables,
        mode: &TypingMode,
        goal: &Goal<Self>,
    ) -> Result<Rule, Fault> {
        let asked = &goal.predicate;
        let is_for = is_copy_clone(lang_item(tables.rows(), asked.trait_ref.def_id));
        named_rule(setting_of(tables, mode), asked, is_for)
    }

    fn consider_builtin_fn_ptr_trait_candidate(
        _tables: &CheckedTables,
        _mode: &TypingMode,
        _goal: &Goal<Self>,
    ) -> Result<Rule, Fault> {
        Err(Fault::NotForThisKind)
    }

    fn consider_builtin_fn_trait_candidates(
        tables: &CheckedTables,
        mode: &TypingMode,
        goal: &Goal<Self>,
    ) -> Result<Rule, Fault> {
        let asked = &goal.predicate;
        let is_for = is_fn_trait(lang_item(tables.rows(), asked.trait_ref.def_id));
        named_rule(setting_of(tables, mode), asked, is_for)
    }

    fn consider_builtin_tuple_candidate(
        _tables: &CheckedTables,
        _mode: &TypingMode,
        _goal: &Goal<Self>,
    ) -> Result<Rule, Fault> {
        Err(Fault::NotForThisKind)
    }

    fn consider_builtin_pointee_candidate(
        _tables: &CheckedTables,
        _mode: &TypingMode,
        _goal: &Goal<Self>,
    ) -> Result<Rule, Fault> {
        Err(Fault::NotForThisKind)
    }

    fn consider_builtin_discriminant_kind_candidate(
        _tables: &CheckedTables,
        _mode: &TypingMode,
        _goal: &Goal<Self>,
    ) -> Result<Rule, Fault> {
        Err(Fault::NotForThisKind)
    }

    fn consider_builtin_destruct_candidate(
        tables: &CheckedTables,
        mode: &TypingMode,
        goal: &Goal<Self>,
    ) -> Result<Rule, Fault> {
        let asked = &goal.predicate;
        let is_for = is_destruct(lang_item(tables.rows(), asked.trait_ref.def_id));
        named_rule(setting_of(tables, mode), asked, is_for)
    }

    fn consider_builtin_field_candidate(
        _tables: &CheckedTables,
        _mode: &TypingMode,
        _goal: &Goal<Self>,
    ) -> Result<Rule, Fault> {
        Err(Fault::NotForThisKind)
    }

    fn more_height_keeps_candidates() {}

    fn rejected_clauses_are_refuted() {}

    fn other_heads_are_refuted() {}
}
