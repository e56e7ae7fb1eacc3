//! The rules of candidates for host effect goals.
ghost use Rattle.std.specs.Prelude.{◌≡◌, List, Err, true, false, IfOk, IsOkUnless};
ghost use Rattle.goal_interner.specs.TableMeaning.{Keeps};
ghost use Rattle.goal_terms.specs.Tree.{Tree as tree};
ghost use Rattle.goal_terms.specs.declared.predicates.Clause.{Clause as clause};
ghost use Rattle.goal_tables.specs.Rows.{impl_of};
ghost use Rattle.goal_kinds.specs.CandidateRules.{only_given, said_by};
ghost use Rattle.goal_lists.specs.Candidates.{built_in, error};
ghost use Rattle.goal_kinds.specs.EffectKind.{asked_effect_list, is_implied_for, is_of_effect, may_match_effect, refuses_effect_impl};
ghost use Rattle.goal_lists.specs.Interned.{CandidateIn, candidate_at};
ghost use Rattle.goal_lists.specs.NamedRows.{CandidateIsOf};
ghost use Rattle.goal_kinds.specs.RuleClauses.{IsListedAs, IsListedThen, IsImplListedThen, IsRefusedAs, AreImpliedIn, AreForOneMore, bounds_in};
ghost use Rattle.goal_kinds.specs.RuleWords.{TermsAreFor};

use crate::faults::Fault;
use crate::rules::Rule;
use crate::rules::lists::push_rule;
use crate::rules::rebuilt::rule_of_list;
use crate::rules::traits::only_bars;
use goal_interner::term_table::TermTable;
use goal_lists::candidates::bounds::push_alias_bounds;
use goal_lists::candidates::environment::{args_given, predicate_given};
use goal_lists::candidates::interned::InternedCandidate;
use goal_lists::fast_reject::{args_may_unify_infer, args_may_unify_rigid};
use goal_lists::lists::ListSetting;
use goal_lists::lists::effects::{effect_list, satisfies};
use goal_terms::answers::{BuiltinImplSource, CandidateSource, Certainty};
use goal_terms::ids::{ImplId, TraitId};
use goal_terms::predicates::{Clause, ClauseKind, HostEffectPredicate};
use goal_terms::terms::AliasTerm;
use goal_terms::view::TermRef;

/// Whether a clause says that the goal's trait is const, with a constness that satisfies the goal's. It
/// takes no memory.
fn is_of_effect(asked: &HostEffectPredicate, assumption: &Clause) -> bool
    ensures { result ≡ is_of_effect asked.now assumption.now.kind }
{
    match &assumption.kind {
        ClauseKind::HostEffect(said) => {
            said.trait_ref.def_id == asked.trait_ref.def_id
                && satisfies(said.constness, asked.constness)
        }
        ClauseKind::Trait(_) | ClauseKind::Projection(_) => false,
    }
}

/// Whether a clause may show a host effect goal: it says that the goal's trait is const, with a constness
/// that satisfies the goal's, and its arguments may become the goal's, as [`args_may_unify_rigid`] says. It
/// takes no memory.
pub fn may_match_effect(asked: &HostEffectPredicate, assumption: &Clause) -> bool
    ensures { result ≡ may_match_effect asked.now assumption.now.kind }
{
    match &assumption.kind {
        ClauseKind::HostEffect(said) => {
            is_of_effect(asked, assumption)
                && args_may_unify_rigid(&said.trait_ref.args, &asked.trait_ref.args)
        }
        ClauseKind::Trait(_) | ClauseKind::Projection(_) => false,
    }
}

/// The rule of a candidate for a host effect goal: the list of the candidate, with nothing decided behind
/// it where the certainty is `Maybe`. A list that is refused is the refusal `NoSolution`; want of memory or
/// of numbers is the only other one.
fn candidate_rule(
    setting: ListSetting<'_, '_>,
    terms: &mut TermTable,
    asked: &HostEffectPredicate,
    source: CandidateSource,
    candidate: &InternedCandidate<'_>,
    then: Certainty,
) -> Result<Rule, Fault>
    requires within { CandidateIn terms.old candidate.now }
    requires row { CandidateIsOf setting.rows.now candidate.now }
    ensures kept { Keeps terms.old terms.new }
    ensures source { IfOk result (λ r. r.source ≡ source) }
    ensures listed { IsListedThen setting.entry then result (λ S. asked_effect_list asked.now S (candidate_at terms.old candidate.now)) }
    ensures refused { IsRefusedAs setting.entry result (λ S. asked_effect_list asked.now S (candidate_at terms.old candidate.now)) }
    ensures expected { IfOk result (λ r. TermsAreFor (λ t. ⊥) r.entries.items) }
{
    let args = args_given(terms, asked.trait_ref.args.as_slice())?;
    let list = effect_list(
        setting,
        terms,
        asked.constness,
        asked.trait_ref.def_id,
        &args,
        candidate,
    )?;
    rule_of_list(terms, source, None, &list, then)
}

/// The rule of a clause for a host effect goal: the arguments of the two trait references are equal. A
/// clause that doesn't say that the goal's trait is const, or with a constness that doesn't satisfy the
/// goal's, is refused.
pub fn match_effect(
    setting: ListSetting<'_, '_>,
    asked: &HostEffectPredicate,
    source: CandidateSource,
    assumption: &Clause,
    then: Certainty,
) -> Result<Rule, Fault>
    ensures source { IfOk result (λ r. r.source ≡ source) }
    ensures listed { IsListedThen setting.entry then result (λ S. asked_effect_list asked.now S (said_by assumption.now.kind)) }
    ensures given { IfOk result (λ r. only_given r.entries.items ≡ true) }
    ensures expected { IfOk result (λ r. TermsAreFor (λ t. ⊥) r.entries.items) }
    ensures refused { is_of_effect asked.now assumption.now.kind ≡ false → result ≡ Err Fault.NoSolution }
    ensures accepted { is_of_effect asked.now assumption.now.kind ≡ true → IsOkUnless result Fault.OutOfMemory }
{
    if !is_of_effect(asked, assumption) {
        return Err(Fault::NoSolution);
    }
    let mut terms = TermTable::new(*asked.trait_ref.args.allocator());
    let predicate = predicate_given(&mut terms, &assumption.kind)?;
    let candidate = InternedCandidate::Assumption(predicate);
    candidate_rule(setting, &mut terms, asked, source, &candidate, then)
}

/// The rule of an impl for a host effect goal: what it asks for a trait goal, and its const conditions with
/// the goal's constness. A reservation impl only bars a refutation in coherence: there its rule is undecided.
/// An impl is refused that has no row, that isn't const, whose header is rejected by
/// [`args_may_unify_infer`], that is negative, or that is a reservation outside of coherence.
pub fn const_impl_rule(
    setting: ListSetting<'_, '_>,
    asked: &HostEffectPredicate,
    id: ImplId,
    then: Certainty,
) -> Result<Rule, Fault>
    ensures source { IfOk result (λ r. r.source ≡ CandidateSource.Impl id) }
    ensures listed { IsImplListedThen setting.entry id then result (asked_effect_list asked.now) }
    ensures expected { IfOk result (λ r. TermsAreFor (λ t. ⊥) r.entries.items) }
    ensures refused { refuses_effect_impl setting.entry.mode.now asked.now (impl_of setting.entry.rows.now id) ≡ true → result ≡ Err Fault.NoSolution }
    ensures accepted { refuses_effect_impl setting.entry.mode.now asked.now (impl_of setting.entry.rows.now id) ≡ false → IsOkUnless result Fault.OutOfMemory }
{
    let Some(row) = setting.rows.impl_row(id) else {
        return Err(Fault::NoSolution);
    };
    if !args_may_unify_infer(&asked.trait_ref.args, &row.trait_args) {
        return Err(Fault::NoSolution);
    }
    if !row.polarity.is_positive() && !only_bars(setting.mode, row) {
        return Err(Fault::NoSolution);
    }
    if !row.is_const {
        return Err(Fault::NoSolution);
    }
    let mut terms = TermTable::new(*asked.trait_ref.args.allocator());
    let source = CandidateSource::Impl(id);
    let candidate = InternedCandidate::Impl(row);
    candidate_rule(setting, &mut terms, asked, source, &candidate, then)
}

/// The rule of a trait alias or of what is built in for a host effect goal: its premises and its const
/// conditions hold. A type that no rule names is refused.
pub fn const_built_in_rule(
    setting: ListSetting<'_, '_>,
    asked: &HostEffectPredicate,
) -> Result<Rule, Fault>
    ensures source { IfOk result (λ r. r.source ≡ CandidateSource.BuiltinImpl BuiltinImplSource.Misc) }
    ensures listed { IsListedAs setting.entry result (λ S. asked_effect_list asked.now S built_in) }
    ensures refused { IsRefusedAs setting.entry result (λ S. asked_effect_list asked.now S built_in) }
    ensures expected { IfOk result (λ r. TermsAreFor (λ t. ⊥) r.entries.items) }
{
    let mut terms = TermTable::new(*asked.trait_ref.args.allocator());
    let source = CandidateSource::BuiltinImpl(BuiltinImplSource::Misc);
    let candidate = InternedCandidate::BuiltIn;
    candidate_rule(
        setting,
        &mut terms,
        asked,
        source,
        &candidate,
        Certainty::Yes,
    )
}

/// The rule of an error in a host effect goal: it asks for nothing. A goal without an error is refused.
pub fn const_error_rule(
    setting: ListSetting<'_, '_>,
    asked: &HostEffectPredicate,
) -> Result<Rule, Fault>
    ensures source { IfOk result (λ r. r.source ≡ CandidateSource.BuiltinImpl BuiltinImplSource.Misc) }
    ensures listed { IsListedAs setting.entry result (λ S. asked_effect_list asked.now S error) }
    ensures refused { IsRefusedAs setting.entry result (λ S. asked_effect_list asked.now S error) }
    ensures expected { IfOk result (λ r. TermsAreFor (λ t. ⊥) r.entries.items) }
{
    let mut terms = TermTable::new(*asked.trait_ref.args.allocator());
    let source = CandidateSource::BuiltinImpl(BuiltinImplSource::Misc);
    let candidate = InternedCandidate::Error;
    candidate_rule(
        setting,
        &mut terms,
        asked,
        source,
        &candidate,
        Certainty::Yes,
    )
}

/// Whether a candidate is an implied const bound of a trait.
fn is_implied_for(trait_id: TraitId, candidate: &InternedCandidate<'_>) -> bool
    ensures { (T : List tree) → result ≡ is_implied_for trait_id (candidate_at T candidate.now) }
{
    match candidate {
        InternedCandidate::ImpliedBound(bound, _) => bound.def_id == trait_id,
        InternedCandidate::Assumption(_)
        | InternedCandidate::Impl(_)
        | InternedCandidate::BuiltIn
        | InternedCandidate::Error => false,
    }
}

/// The rules of the implied const bounds of an alias that are of the goal's trait, in order: the arguments
/// of the bound are the goal's, and the alias's const conditions hold with the goal's constness. Want of
/// memory or of numbers is the only refusal.
pub fn implied_rules(
    setting: ListSetting<'_, '_>,
    asked: &HostEffectPredicate,
    alias: &AliasTerm,
) -> Result<Vec<Rule>, Fault>
    ensures listed { (env : List clause) → IfOk result (λ rs. AreImpliedIn setting.entry asked.now env (bounds_in setting.entry alias.now) rs.items) }
    ensures only_memory { IsOkUnless result Fault.OutOfMemory }
{
    let alloc = *asked.trait_ref.args.allocator();
    let mut terms = TermTable::new(alloc);
    let self_ty = terms.intern_part(TermRef::Alias(alias))?;
    let mut found = Vec::new(alloc);
    push_alias_bounds(setting.rows, &mut terms, &mut found, self_ty)?;
    let candidates = found.as_slice();
    let mut rules = Vec::new(alloc);
    for i in 0..candidates.len() {
        push_implied_rule(setting, &mut terms, asked, &candidates[i], &mut rules)?;
    }
    Ok(rules)
}

/// Adds the rule of a candidate, if it is an implied const bound of the goal's trait. Want of memory or of
/// numbers is the only refusal.
fn push_implied_rule(
    setting: ListSetting<'_, '_>,
    terms: &mut TermTable,
    asked: &HostEffectPredicate,
    candidate: &InternedCandidate<'_>,
    rules: &mut Vec<Rule>,
) -> Result<(), Fault>
    requires within { CandidateIn terms.old candidate.now }
    ensures kept { Keeps terms.old terms.new }
    ensures added { (env : List clause) → AreForOneMore (AreImpliedIn setting.entry asked.now env) rules.old (candidate_at terms.old candidate.now) result rules.new }
    ensures only_memory { IsOkUnless result Fault.OutOfMemory }
{
    if !is_implied_for(asked.trait_ref.def_id, candidate) {
        return Ok(());
    }
    let source = CandidateSource::AliasBound;
    match candidate_rule(setting, terms, asked, source, candidate, Certainty::Yes) {
        Ok(rule) => Ok(push_rule(rules, rule)?),
        Err(fault) => Err(fault),
    }
}
