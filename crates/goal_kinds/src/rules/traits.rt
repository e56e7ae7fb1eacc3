//! The rules of candidates for trait goals.
ghost use Rattle.std.specs.Prelude.{◌≡◌, Err, true, false, IfOk, IsOkUnless};
ghost use Rattle.goal_tables.specs.Rows.{impl_of};
ghost use Rattle.goal_lists.specs.Settings.{is_coherence};
ghost use Rattle.goal_lists.specs.TraitGoals.{only_bars};
ghost use Rattle.goal_kinds.specs.CandidateRules.{is_of_trait, may_match, only_given, refuses_impl, said_by};
ghost use Rattle.goal_lists.specs.Candidates.{built_in, error};
ghost use Rattle.goal_lists.specs.Interned.{CandidateIn, candidate_at};
ghost use Rattle.goal_lists.specs.NamedRows.{CandidateIsOf};
ghost use Rattle.goal_kinds.specs.RuleClauses.{IsListedAs, IsListedThen, IsImplListedThen, IsRefusedAs, asked_trait_list};
ghost use Rattle.goal_kinds.specs.RuleWords.{TermsAreFor};
ghost use Rattle.goal_lists.specs.RowWords.{given};

use crate::faults::Fault;
use crate::rules::Rule;
use crate::rules::rebuilt::rule_of_list;
use goal_interner::term_table::TermTable;
use goal_lists::candidates::environment::{args_given, predicate_given};
use goal_lists::candidates::interned::InternedCandidate;
use goal_lists::fast_reject::{args_may_unify_infer, args_may_unify_rigid};
use goal_lists::lists::ListSetting;
use goal_lists::lists::traits::trait_list;
use goal_tables::rows::ImplRow;
use goal_terms::answers::{BuiltinImplSource, CandidateSource, Certainty};
use goal_terms::ids::ImplId;
use goal_terms::modes::TypingMode;
use goal_terms::predicates::{Clause, ClauseKind, TraitRef};

/// Whether a clause may say what a trait goal asks: it is of the goal's trait, and its arguments may
/// become the goal's, as [`args_may_unify_rigid`] says. It takes no memory.
pub fn may_match_trait(asked: &TraitRef, assumption: &Clause) -> bool
    ensures { result ≡ may_match asked.now assumption.now.kind }
{
    match &assumption.kind {
        ClauseKind::Trait(said) => {
            said.trait_ref.def_id == asked.def_id
                && args_may_unify_rigid(&said.trait_ref.args, &asked.args)
        }
        ClauseKind::Projection(_) | ClauseKind::HostEffect(_) => false,
    }
}

/// The rule of a candidate for a trait goal: the list of the candidate, with nothing decided behind it
/// where the certainty is `Maybe`. A list that is refused is the refusal `NoSolution`; want of memory or
/// of numbers is the only other one.
fn candidate_rule(
    setting: ListSetting<'_, '_>,
    terms: &mut TermTable,
    asked: &TraitRef,
    source: CandidateSource,
    candidate: &InternedCandidate<'_>,
    then: Certainty,
) -> Result<Rule, Fault>
    requires within { CandidateIn terms.old candidate.now }
    requires row { CandidateIsOf setting.rows.now candidate.now }
    ensures source { IfOk result (λ r. r.source ≡ source) }
    ensures listed { IsListedThen setting.entry then result (λ S. asked_trait_list asked.now S (candidate_at terms.old candidate.now)) }
    ensures refused { IsRefusedAs setting.entry result (λ S. asked_trait_list asked.now S (candidate_at terms.old candidate.now)) }
    ensures expected { IfOk result (λ r. TermsAreFor (λ t. ⊥) r.entries.items) }
{
    let args = args_given(terms, asked.args.as_slice())?;
    let list = trait_list(setting, terms, asked.def_id, &args, candidate)?;
    rule_of_list(terms, source, None, &list, then)
}

/// The rule of a clause for a trait goal: the arguments of the two trait references are equal. A clause
/// that isn't of the goal's trait is refused.
pub fn match_trait(
    setting: ListSetting<'_, '_>,
    asked: &TraitRef,
    source: CandidateSource,
    assumption: &Clause,
    then: Certainty,
) -> Result<Rule, Fault>
    ensures source { IfOk result (λ r. r.source ≡ source) }
    ensures listed { IsListedThen setting.entry then result (λ S. asked_trait_list asked.now S (said_by assumption.now.kind)) }
    ensures given { IfOk result (λ r. only_given r.entries.items ≡ true) }
    ensures expected { IfOk result (λ r. TermsAreFor (λ t. ⊥) r.entries.items) }
    ensures refused { is_of_trait asked.now assumption.now.kind ≡ false → result ≡ Err Fault.NoSolution }
    ensures accepted { is_of_trait asked.now assumption.now.kind ≡ true → IsOkUnless result Fault.OutOfMemory }
{
    let ClauseKind::Trait(said) = &assumption.kind else {
        return Err(Fault::NoSolution);
    };
    if said.trait_ref.def_id.0 != asked.def_id.0 {
        return Err(Fault::NoSolution);
    }
    let mut terms = TermTable::new(*asked.args.allocator());
    let predicate = predicate_given(&mut terms, &assumption.kind)?;
    let candidate = InternedCandidate::Assumption(predicate);
    candidate_rule(setting, &mut terms, asked, source, &candidate, then)
}

/// Whether a mode is that of coherence.
pub(crate) fn is_coherence(mode: &TypingMode) -> bool
    ensures { result ≡ is_coherence mode.now }
{
    match mode {
        TypingMode::Coherence => true,
        TypingMode::Analysis { .. }
        | TypingMode::Borrowck { .. }
        | TypingMode::PostBorrowckAnalysis { .. }
        | TypingMode::PostAnalysis
        | TypingMode::ErasedNotCoherence => false,
    }
}

/// Whether an impl only bars a refutation: a reservation impl in coherence.
pub(crate) fn only_bars(mode: &TypingMode, row: &ImplRow) -> bool
    ensures { result ≡ only_bars mode.now row.now }
{
    is_coherence(mode) && row.polarity.is_reservation()
}

/// The rule of an impl for a trait goal: the impl's header fits the goal's arguments, and its where
/// clauses hold under those that it then has. A reservation impl only bars a refutation in coherence:
/// there its rule is undecided. An impl is refused that has no row, whose header is rejected by
/// [`args_may_unify_infer`], that is negative, or that is a reservation outside of coherence.
pub fn impl_rule(
    setting: ListSetting<'_, '_>,
    asked: &TraitRef,
    id: ImplId,
    then: Certainty,
) -> Result<Rule, Fault>
    ensures source { IfOk result (λ r. r.source ≡ CandidateSource.Impl id) }
    ensures listed { IsImplListedThen setting.entry id then result (asked_trait_list asked.now) }
    ensures expected { IfOk result (λ r. TermsAreFor (λ t. ⊥) r.entries.items) }
    ensures refused { refuses_impl setting.entry.mode.now asked.now (impl_of setting.entry.rows.now id) ≡ true → result ≡ Err Fault.NoSolution }
    ensures accepted { refuses_impl setting.entry.mode.now asked.now (impl_of setting.entry.rows.now id) ≡ false → IsOkUnless result Fault.OutOfMemory }
{
    let Some(row) = setting.rows.impl_row(id) else {
        return Err(Fault::NoSolution);
    };
    if !args_may_unify_infer(&asked.args, &row.trait_args) {
        return Err(Fault::NoSolution);
    }
    if !row.polarity.is_positive() && !only_bars(setting.mode, row) {
        return Err(Fault::NoSolution);
    }
    let mut terms = TermTable::new(*asked.args.allocator());
    let source = CandidateSource::Impl(id);
    let candidate = InternedCandidate::Impl(row);
    candidate_rule(setting, &mut terms, asked, source, &candidate, then)
}

/// The rule of a trait alias or of what is built in for a trait goal: its premises hold. A type that no
/// rule names is refused.
pub fn built_in_rule(setting: ListSetting<'_, '_>, asked: &TraitRef) -> Result<Rule, Fault>
    ensures source { IfOk result (λ r. r.source ≡ CandidateSource.BuiltinImpl BuiltinImplSource.Misc) }
    ensures listed { IsListedAs setting.entry result (λ S. asked_trait_list asked.now S built_in) }
    ensures refused { IsRefusedAs setting.entry result (λ S. asked_trait_list asked.now S built_in) }
    ensures expected { IfOk result (λ r. TermsAreFor (λ t. ⊥) r.entries.items) }
{
    let mut terms = TermTable::new(*asked.args.allocator());
    let source = CandidateSource::BuiltinImpl(BuiltinImplSource::Misc);
    let candidate = InternedCandidate::BuiltIn;
    candidate_rule(
        setting,
        &mut terms,
        asked,
        source,
        &candidate,
        Certainty::Yes,
    )
}

/// The rule of an error in a trait goal: it asks for nothing. A goal without an error is refused.
pub fn error_rule(setting: ListSetting<'_, '_>, asked: &TraitRef) -> Result<Rule, Fault>
    ensures source { IfOk result (λ r. r.source ≡ CandidateSource.BuiltinImpl BuiltinImplSource.Misc) }
    ensures listed { IsListedAs setting.entry result (λ S. asked_trait_list asked.now S error) }
    ensures refused { IsRefusedAs setting.entry result (λ S. asked_trait_list asked.now S error) }
    ensures expected { IfOk result (λ r. TermsAreFor (λ t. ⊥) r.entries.items) }
{
    let mut terms = TermTable::new(*asked.args.allocator());
    let source = CandidateSource::BuiltinImpl(BuiltinImplSource::Misc);
    let candidate = InternedCandidate::Error;
    candidate_rule(
        setting,
        &mut terms,
        asked,
        source,
        &candidate,
        Certainty::Yes,
    )
}
