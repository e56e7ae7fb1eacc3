//! Normalizations of projections as a kind of goals with candidates.
ghost use Rattle.std.specs.Prelude.{◌≡◌, ◌||◌, true, false, List, None, Err, IfOk, IfErr};
ghost use Rattle.goal_terms.specs.TreeOf.{tree_of_ty};
ghost use Rattle.goal_terms.specs.declared.predicates.Clause.{Clause as clause};
ghost use Rattle.goal_kinds.specs.CandidateRules.{IsRefusal};
ghost use Rattle.goal_lists.specs.Candidates.{built_in};
ghost use Rattle.goal_lists.specs.InternedEntries.{setting_at};
ghost use Rattle.goal_kinds.specs.ProjectionKind.{asked_projection_list, lang_of_alias, is_lang, IsAliasWithSelf as is_goal_with_self};
ghost use Rattle.goal_kinds.specs.RuleLists.{IsListed};
ghost use Rattle.goal_terms.specs.declared.lang.LangItem.TheVariants as lang_items;

use crate::faults::Fault;
use crate::goal_kind::{GoalKind, MergeRule, TraitView};
use crate::rules::Rule;
use crate::rules::assoc_items::assoc_item;
use crate::rules::parts::{copied_term, first_of};
use crate::rules::projections::{
    built_in_term_rule, impl_term_rule, match_projection, may_match_projection,
};
use crate::rules::trait_goal_kind::{first_type, setting_of};
use goal_checks::checked::CheckedTables;
use goal_interner::term_nodes::OutOfMemory;
use goal_lists::lists::ListSetting;
use goal_lists::lists::projected::projected;
use goal_terms::answers::{CandidateSource, Certainty};
use goal_terms::ids::{ImplId, TraitId};
use goal_terms::instantiate::rebase_onto;
use goal_terms::lang::{LangItem, LangTarget};
use goal_terms::modes::TypingMode;
use goal_terms::predicates::{BoundConstness, Clause, Goal, NormalizesTo};
use goal_terms::terms::{AliasTerm, GenericArg, Ty};

/// The lang item that names the item of a projection. It takes no memory.
fn lang_item_of(tables: &CheckedTables, alias: &AliasTerm) -> Option<LangItem>
    ensures { result ≡ lang_of_alias tables.now alias.now.kind }
{
    let item = projected(alias.kind)?;
    let row = tables.rows().lang_naming(LangTarget::Item(item))?;
    Some(row.item)
}

/// Whether a lang item names the item of a projection. It takes no memory.
fn is_lang_item(tables: &CheckedTables, alias: &AliasTerm, item: LangItem) -> bool
    ensures { result ≡ is_lang (lang_of_alias tables.now alias.now.kind) item }
{
    match lang_item_of(tables, alias) {
        None => false,
        Some(found) => found == item,
    }
}

/// Whether a projection is of an item of fields. It takes no memory.
fn is_of_field(tables: &CheckedTables, alias: &AliasTerm) -> bool
    ensures { result ≡ is_lang (lang_of_alias tables.now alias.now.kind) lang_items.Base || is_lang (lang_of_alias tables.now alias.now.kind) lang_items.FieldType }
{
    is_lang_item(tables, alias, LangItem::Base) || is_lang_item(tables, alias, LangItem::FieldType)
}

/// A goal with another self type of its alias.
fn with_self(asked: &NormalizesTo, self_ty: Ty) -> Result<NormalizesTo, OutOfMemory>
    ensures { IfOk result (is_goal_with_self asked.now (tree_of_ty self_ty)) }
{
    let alloc = *asked.alias.args.allocator();
    let first = vec![in alloc; GenericArg::Ty(self_ty)]?;
    let args = rebase_onto(alloc, &asked.alias.args, 1, &first)?;
    let term = copied_term(&asked.term)?;
    let kind = asked.alias.kind;
    Ok(NormalizesTo {
        alias: AliasTerm { kind, args },
        term,
    })
}

/// The built-in rule of an item, where its function is for the goal's. It isn't for others, which takes no
/// memory.
fn named_rule(
    setting: ListSetting<'_, '_>,
    asked: &NormalizesTo,
    is_for: bool,
) -> Result<Rule, Fault>
    ensures other { is_for ≡ false → result ≡ Err Fault.NotForThisKind }
    ensures listed { (env : List clause) → IfOk result (λ r. IsListed setting.entry.rows.now r (asked_projection_list asked.now.alias (setting_at setting.entry env) built_in)) }
    ensures refused { (env : List clause) → is_for ≡ true → IfErr result (IsRefusal (asked_projection_list asked.now.alias (setting_at setting.entry env) built_in ≡ None)) }
{
    if is_for {
        built_in_term_rule(setting, asked)
    } else {
        Err(Fault::NotForThisKind)
    }
}

impl GoalKind for NormalizesTo {
    ghost use Rattle.goal_kinds.specs.KindWords.{alias_words};

    ghost words = { alias_words };

    fn merge_rule() -> MergeRule {
        MergeRule::Projections
    }

    fn trait_ref<'a>(&'a self, tables: &'a CheckedTables) -> Option<TraitView<'a>> {
        let item = assoc_item(tables.rows(), &self.alias)?;
        Some(TraitView {
            def_id: item.row.trait_id,
            args: first_of(self.alias.args.as_slice(), item.trait_params),
        })
    }

    fn trait_def_id(&self, tables: &CheckedTables) -> Option<TraitId> {
        let item = assoc_item(tables.rows(), &self.alias)?;
        Some(item.row.trait_id)
    }

    fn self_ty(&self) -> Option<&Ty> {
        first_type(&self.alias.args)
    }

    fn constness(&self) -> Option<BoundConstness> {
        None
    }

    fn with_replaced_self_ty(&self, self_ty: Ty) -> Result<Self, Fault> {
        Ok(with_self(self, self_ty)?)
    }

    fn fast_reject_assumption(&self, assumption: &Clause) -> Result<(), Fault> {
        if may_match_projection(&self.alias, assumption) {
            Ok(())
        } else {
            Err(Fault::NoSolution)
        }
    }

    fn match_assumption(
        tables: &CheckedTables,
        mode: &TypingMode,
        goal: &Goal<Self>,
        source: CandidateSource,
        assumption: &Clause,
        then: Certainty,
    ) -> Result<Rule, Fault> {
        let setting = setting_of(tables, mode);
        match_projection(setting, &goal.predicate, source, assumption, then)
    }

    fn consider_impl_candidate(
        tables: &CheckedTables,
        mode: &TypingMode,
        goal: &Goal<Self>,
        impl_id: ImplId,
        then: Certainty,
    ) -> Result<Rule, Fault> {
        let setting = setting_of(tables, mode);
        impl_term_rule(setting, &goal.predicate, impl_id, then)
    }

    fn consider_error_guaranteed_candidate(
        _tables: &CheckedTables,
        _mode: &TypingMode,
        _goal: &Goal<Self>,
    ) -> Result<Rule, Fault> {
        Err(Fault::NoSolution)
    }

    fn consider_additional_alias_assumptions(
        _tables: &CheckedTables,
        _mode: &TypingMode,
        goal: &Goal<Self>,
        _alias: &AliasTerm,
    ) -> Result<Vec<Rule>, Fault> {
        Ok(Vec::new(*goal.predicate.alias.args.allocator()))
    }

    fn consider_trait_alias_candidate(
        _tables: &CheckedTables,
        _mode: &TypingMode,
        _goal: &Goal<Self>,
    ) -> Result<Rule, Fault> {
        Err(Fault::NotForThisKind)
    }

    fn consider_builtin_sizedness_candidates(
        _tables: &CheckedTables,
        _mode: &TypingMode,
        _goal: &Goal<Self>,
    ) -> Result<Rule, Fault> {
        Err(Fault::NotForThisKind)
    }

    fn consider_builtin_copy_clone_candidate(
        _tables: &CheckedTables,
        _mode: &TypingMode,
        _goal: &Goal<Self>,
    ) -> Result<Rule, Fault> {
        Err(Fault::NotForThisKind)
    }

    fn consider_builtin_fn_ptr_trait_candidate(
        _tables: &CheckedTables,
        _mode: &TypingMode,
        _goal: &Goal<Self>,
    ) -> Result<Rule, Fault> {
        Err(Fault::NotForThisKind)
    }

    fn consider_builtin_fn_trait_candidates(
        tables: &CheckedTables,
        mode: &TypingMode,
        goal: &Goal<Self>,
    ) -> Result<Rule, Fault> {
        let asked = &goal.predicate;
        let is_for = is_lang_item(tables, &asked.alias, LangItem::Output);
        named_rule(setting_of(tables, mode), asked, is_for)
    }

    fn consider_builtin_tuple_candidate(
        _tables: &CheckedTables,
        _mode: &TypingMode,
        _goal: &Goal<Self>,
    ) -> Result<Rule, Fault> {
        Err(Fault::NotForThisKind)
    }

    fn consider_builtin_pointee_candidate(
        tables: &CheckedTables,
        mode: &TypingMode,
        goal: &Goal<Self>,
    ) -> Result<Rule, Fault> {
        let asked = &goal.predicate;
        let is_for = is_lang_item(tables, &asked.alias, LangItem::Metadata);
        named_rule(setting_of(tables, mode), asked, is_for)
    }

    fn consider_builtin_discriminant_kind_candidate(
        tables: &CheckedTables,
        mode: &TypingMode,
        goal: &Goal<Self>,
    ) -> Result<Rule, Fault> {
        let asked = &goal.predicate;
        let is_for = is_lang_item(tables, &asked.alias, LangItem::Discriminant);
        named_rule(setting_of(tables, mode), asked, is_for)
    }

    fn consider_builtin_destruct_candidate(
        _tables: &CheckedTables,
        _mode: &TypingMode,
        _goal: &Goal<Self>,
    ) -> Result<Rule, Fault> {
        Err(Fault::NotForThisKind)
    }

    fn consider_builtin_field_candidate(
        tables: &CheckedTables,
        mode: &TypingMode,
        goal: &Goal<Self>,
    ) -> Result<Rule, Fault> {
        let asked = &goal.predicate;
        let is_for = is_of_field(tables, &asked.alias);
        named_rule(setting_of(tables, mode), asked, is_for)
    }

    fn more_height_keeps_candidates() {}

    fn rejected_clauses_are_refuted() {}

    fn other_heads_are_refuted() {}
}
