//! Trait goals as a kind of goals with candidates.
ghost use Rattle.std.specs.Prelude.{◌≡◌, true, false, List, None, Err, Ok, IfOk, IfErr, option_copied};
ghost use Rattle.goal_terms.specs.TreeOf.{tree_of_ty};
ghost use Rattle.goal_terms.specs.declared.predicates.Clause.{Clause as clause};
ghost use Rattle.goal_tables.specs.Faults.{IsChecked};
ghost use Rattle.goal_kinds.specs.CandidateRules.{IsRefusal, IsWithSelf as is_trait_with_self, first_type as first_of};
ghost use Rattle.goal_lists.specs.Candidates.{built_in};
ghost use Rattle.goal_lists.specs.InternedEntries.{setting_at};
ghost use Rattle.goal_kinds.specs.RuleClauses.{asked_trait_list};
ghost use Rattle.goal_kinds.specs.RuleLists.{IsListed};

use crate::faults::Fault;
use crate::goal_kind::{GoalKind, MergeRule, TraitView};
use crate::rules::Rule;
use crate::rules::named::{
    is_alias, is_copy_clone, is_destruct, is_discriminant_kind, is_field, is_fn_ptr_trait,
    is_fn_trait, is_pointee, is_sizedness, is_tuple, lang_item,
};
use crate::rules::traits::{built_in_rule, error_rule, impl_rule, match_trait, may_match_trait};
use goal_checks::checked::CheckedTables;
use goal_interner::term_nodes::OutOfMemory;
use goal_lists::lists::ListSetting;
use goal_terms::answers::{CandidateSource, Certainty};
use goal_terms::ids::{ImplId, TraitId};
use goal_terms::instantiate::rebase_onto;
use goal_terms::modes::TypingMode;
use goal_terms::predicates::{BoundConstness, Clause, Goal, TraitPredicate, TraitRef};
use goal_terms::terms::{AliasTerm, GenericArg, Ty};

/// The first of some arguments, if it is a type. It takes no memory.
pub(crate) fn first_type(args: &[GenericArg]) -> Option<&Ty>
    ensures { option_copied result ≡ first_of args.now }
{
    match args {
        [GenericArg::Ty(ty), ..] => Some(ty),
        _ => None,
    }
}

/// A trait reference with another self type.
pub(crate) fn with_self(asked: &TraitRef, self_ty: Ty) -> Result<TraitRef, OutOfMemory>
    ensures { IfOk result (is_trait_with_self asked.now (tree_of_ty self_ty)) }
{
    let alloc = *asked.args.allocator();
    let first = vec![in alloc; GenericArg::Ty(self_ty)]?;
    let args = rebase_onto(alloc, &asked.args, 1, &first)?;
    Ok(TraitRef {
        def_id: asked.def_id,
        args,
    })
}

/// What lists are made for: the tables, and a typing mode.
pub(crate) fn setting_of<'t, 'm>(
    tables: &'t CheckedTables,
    mode: &'m TypingMode,
) -> ListSetting<'t, 'm>
    ensures rows { result.rows.now ≡ tables.now }
    ensures mode { result.mode.now ≡ mode.now }
    ensures checked { IsChecked tables.now }
{
    ListSetting {
        rows: tables.rows(),
        mode,
    }
}

/// The rule of a trait alias, or a built-in rule, where its function is for the goal's trait. It isn't for
/// other traits, which takes no memory.
fn named_rule(setting: ListSetting<'_, '_>, asked: &TraitRef, is_for: bool) -> Result<Rule, Fault>
    ensures other { is_for ≡ false → result ≡ Err Fault.NotForThisKind }
    ensures listed { (env : List clause) → IfOk result (λ r. IsListed setting.entry.rows.now r (asked_trait_list asked.now (setting_at setting.entry env) built_in)) }
    ensures refused { (env : List clause) → is_for ≡ true → IfErr result (IsRefusal (asked_trait_list asked.now (setting_at setting.entry env) built_in ≡ None)) }
{
    if is_for {
        built_in_rule(setting, asked)
    } else {
        Err(Fault::NotForThisKind)
    }
}

impl GoalKind for TraitPredicate {
    ghost use Rattle.goal_kinds.specs.KindWords.{trait_words};

    ghost words = { trait_words };

    fn merge_rule() -> MergeRule {
        MergeRule::TraitGoals
    }

    fn trait_ref<'a>(&'a self, _tables: &'a CheckedTables) -> Option<TraitView<'a>> {
        Some(TraitView {
            def_id: self.trait_ref.def_id,
            args: self.trait_ref.args.as_slice(),
        })
    }

    fn trait_def_id(&self, _tables: &CheckedTables) -> Option<TraitId> {
        Some(self.trait_ref.def_id)
    }

    fn self_ty(&self) -> Option<&Ty> {
        first_type(&self.trait_ref.args)
    }

    fn constness(&self) -> Option<BoundConstness> {
        None
    }

    fn with_replaced_self_ty(&self, self_ty: Ty) -> Result<Self, Fault> {
        let trait_ref = with_self(&self.trait_ref, self_ty)?;
        Ok(TraitPredicate { trait_ref })
    }

    fn fast_reject_assumption(&self, assumption: &Clause) -> Result<(), Fault> {
        if may_match_trait(&self.trait_ref, assumption) {
            Ok(())
        } else {
            Err(Fault::NoSolution)
        }
    }

    fn match_assumption(
        tables: &CheckedTables,
        mode: &TypingMode,
        goal: &Goal<Self>,
        source: CandidateSource,
        assumption: &Clause,
        then: Certainty,
    ) -> Result<Rule, Fault> {
        let setting = setting_of(tables, mode);
        match_trait(setting, &goal.predicate.trait_ref, source, assumption, then)
    }

    fn consider_impl_candidate(
        tables: &CheckedTables,
        mode: &TypingMode,
        goal: &Goal<Self>,
        impl_id: ImplId,
        then: Certainty,
    ) -> Result<Rule, Fault> {
        let setting = setting_of(tables, mode);
        impl_rule(setting, &goal.predicate.trait_ref, impl_id, then)
    }

    fn consider_error_guaranteed_candidate(
        tables: &CheckedTables,
        mode: &TypingMode,
        goal: &Goal<Self>,
    ) -> Result<Rule, Fault> {
        error_rule(setting_of(tables, mode), &goal.predicate.trait_ref)
    }

    fn consider_additional_alias_assumptions(
        _tables: &CheckedTables,
        _mode: &TypingMode,
        goal: &Goal<Self>,
        _alias: &AliasTerm,
    ) -> Result<Vec<Rule>, Fault> {
        Ok(Vec::new(*goal.predicate.trait_ref.args.allocator()))
    }

    fn consider_trait_alias_candidate(
        tables: &CheckedTables,
        mode: &TypingMode,
        goal: &Goal<Self>,
    ) -> Result<Rule, Fault> {
        let asked = &goal.predicate.trait_ref;
        let is_for = is_alias(tables.rows(), asked.def_id);
        named_rule(setting_of(tables, mode), asked, is_for)
    }

    fn consider_builtin_sizedness_candidates(
        tables: &CheckedTables,
        mode: &TypingMode,
        goal: &Goal<Self>,
    ) -> Result<Rule, Fault> {
        let asked = &goal.predicate.trait_ref;
        let is_for = is_sizedness(lang_item(tables.rows(), asked.def_id));
        named_rule(setting_of(tables, mode), asked, is_for)
    }

    fn consider_builtin_copy_clone_candidate(
        tables: &CheckedTables,
        mode: &TypingMode,
        goal: &Goal<Self>,
    ) -> Result<Rule, Fault> {
        let asked = &goal.predicate.trait_ref;
        let is_for = is_copy_clone(lang_item(tables.rows(), asked.def_id));
        named_rule(setting_of(tables, mode), asked, is_for)
    }

    fn consider_builtin_fn_ptr_trait_candidate(
        tables: &CheckedTables,
        mode: &TypingMode,
        goal: &Goal<Self>,
    ) -> Result<Rule, Fault> {
        let asked = &goal.predicate.trait_ref;
        let is_for = is_fn_ptr_trait(lang_item(tables.rows(), asked.def_id));
        named_rule(setting_of(tables, mode), asked, is_for)
    }

    fn consider_builtin_fn_trait_candidates(
        tables: &CheckedTables,
        mode: &TypingMode,
        goal: &Goal<Self>,
    ) -> Result<Rule, Fault> {
        let asked = &goal.predicate.trait_ref;
        let is_for = is_fn_trait(lang_item(tables.rows(), asked.def_id));
        named_rule(setting_of(tables, mode), asked, is_for)
    }

    fn consider_builtin_tuple_candidate(
        tables: &CheckedTables,
        mode: &TypingMode,
        goal: &Goal<Self>,
    ) -> Result<Rule, Fault> {
        let asked = &goal.predicate.trait_ref;
        let is_for = is_tuple(lang_item(tables.rows(), asked.def_id));
        named_rule(setting_of(tables, mode), asked, is_for)
    }

    fn consider_builtin_pointee_candidate(
        tables: &CheckedTables,
        mode: &TypingMode,
        goal: &Goal<Self>,
    ) -> Result<Rule, Fault> {
        let asked = &goal.predicate.trait_ref;
        let is_for = is_pointee(lang_item(tables.rows(), asked.def_id));
        named_rule(setting_of(tables, mode), asked, is_for)
    }

    fn consider_builtin_discriminant_kind_candidate(
        tables: &CheckedTables,
        mode: &TypingMode,
        goal: &Goal<Self>,
    ) -> Result<Rule, Fault> {
        let asked = &goal.predicate.trait_ref;
        let is_for = is_discriminant_kind(lang_item(tables.rows(), asked.def_id));
        named_rule(setting_of(tables, mode), asked, is_for)
    }

    fn consider_builtin_destruct_candidate(
        tables: &CheckedTables,
        mode: &TypingMode,
        goal: &Goal<Self>,
    ) -> Result<Rule, Fault> {
        let asked = &goal.predicate.trait_ref;
        let is_for = is_destruct(lang_item(tables.rows(), asked.def_id));
        named_rule(setting_of(tables, mode), asked, is_for)
    }

    fn consider_builtin_field_candidate(
        tables: &CheckedTables,
        mode: &TypingMode,
        goal: &Goal<Self>,
    ) -> Result<Rule, Fault> {
        let asked = &goal.predicate.trait_ref;
        let is_for = is_field(lang_item(tables.rows(), asked.def_id));
        named_rule(setting_of(tables, mode), asked, is_for)
    }

    fn more_height_keeps_candidates() {}

    fn rejected_clauses_are_refuted() {}

    fn other_heads_are_refuted() {}
}
