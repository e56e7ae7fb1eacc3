//! The rules of candidates for the terms of projections, and of projection goals.
ghost use Rattle.std.specs.Prelude.{◌≡◌, ◌↔◌, ℕ, suc, Err, true, false, IfOk, IsOkUnless};
ghost use Rattle.goal_terms.specs.TreeOf.{tree_of_term};
ghost use Rattle.goal_tables.specs.declared.rows.Tables.{Tables};
ghost use Rattle.goal_kinds.specs.CandidateRules.{only_given, said_by};
ghost use Rattle.goal_lists.specs.Candidates.{built_in};
ghost use Rattle.goal_lists.specs.Interned.{CandidateIn, candidate_at};
ghost use Rattle.goal_lists.specs.InternedEntries.{ListIn};
ghost use Rattle.goal_lists.specs.Levels.{level};
ghost use Rattle.goal_lists.specs.ListWords.{GivesList};
ghost use Rattle.goal_lists.specs.NamedRows.{CandidateIsOf, CandidateIsSorted, ListNamesItsRows};
ghost use Rattle.goal_kinds.specs.ProjectionKind.{asked_projection_list, may_match_term};
ghost use Rattle.goal_kinds.specs.RuleClauses.{IsListedAs, IsListedThen, IsImplListedThen, IsRefusedAs, asked_equation_list, EquationHolds, EquationRefuted, refuses_asked_term};
ghost use Rattle.goal_kinds.specs.RuleLists.{IsListed};
ghost use Rattle.goal_kinds.specs.Rules.{RuleHolds, RuleRefuted};
ghost use Rattle.goal_kinds.specs.RuleWords.{TermsAreFor};
ghost use Rattle.goal_lists.specs.Settings.{Setting};

use crate::faults::Fault;
use crate::rules::Rule;
use crate::rules::assoc_items::assoc_item;
use crate::rules::parts::{alias_given, first_of};
use crate::rules::rebuilt::rule_of_list;
use crate::rules::traits::only_bars;
use goal_checks::checked::CheckedTables;
use goal_interner::term_nodes::OutOfMemory;
use goal_interner::term_table::TermTable;
use goal_lists::candidates::environment::predicate_given;
use goal_lists::candidates::interned::InternedCandidate;
use goal_lists::fast_reject::{args_may_unify_infer, args_may_unify_rigid};
use goal_lists::lists::aliases::equation_list;
use goal_lists::lists::projections::projection_list;
use goal_lists::lists::{AskedProjection, InternedEntry, ListSetting};
use goal_terms::answers::{BuiltinImplSource, CandidateSource, Certainty};
use goal_terms::ids::ImplId;
use goal_terms::predicates::{Clause, ClauseKind, Goal, NormalizesTo, ProjectionPredicate};
use goal_terms::terms::AliasTerm;

/// The rule of a projection goal: its alias and its term are equal, which names no row (`list`). It holds and
/// is refuted at each height where the goal is one height above. Want of memory or of numbers is the only
/// refusal.
pub fn projection_rule(
    _tables: &CheckedTables,
    goal: &Goal<ProjectionPredicate>,
) -> Result<Rule, Fault>
    ensures list { (t : Tables) → IfOk result (λ r. IsListed t r (asked_equation_list goal.now.predicate)) }
    ensures holds { (S : Setting) (n : ℕ) → IfOk result (λ r. RuleHolds S (level S n) r ↔ EquationHolds (level S (suc n)) goal.now.predicate) }
    ensures refuted { (S : Setting) (n : ℕ) → IfOk result (λ r. RuleRefuted S (level S n) r ↔ EquationRefuted (level S (suc n)) goal.now.predicate) }
    ensures expected { IfOk result (λ r. TermsAreFor (λ t. t ≡ tree_of_term goal.now.predicate.term) r.entries.items) }
    ensures source { IfOk result (λ r. r.source ≡ CandidateSource.BuiltinImpl BuiltinImplSource.Misc) }
    ensures memory { IsOkUnless result Fault.OutOfMemory }
{
    let asked = &goal.predicate;
    let mut terms = TermTable::new(*asked.projection_term.args.allocator());
    let alias = alias_given(&mut terms, &asked.projection_term)?;
    let term = terms.intern(&asked.term)?;
    let list = Some(equation_list(terms.allocator(), alias.id, term)?);
    let source = CandidateSource::BuiltinImpl(BuiltinImplSource::Misc);
    rule_of_list(&terms, source, Some(&asked.term), &list, Certainty::Yes)
}

/// Whether a clause may give the term of a projection: it is a projection of the same item, and its
/// arguments may become the alias's, as [`args_may_unify_rigid`] says. It takes no memory.
pub fn may_match_projection(asked: &AliasTerm, assumption: &Clause) -> bool
    ensures { result ≡ may_match_term asked.now assumption.now.kind }
{
    match &assumption.kind {
        ClauseKind::Projection(said) => {
            said.projection_term.kind == asked.kind
                && args_may_unify_rigid(&said.projection_term.args, &asked.args)
        }
        ClauseKind::Trait(_) | ClauseKind::HostEffect(_) => false,
    }
}

/// The list of a candidate for the projection that an alias asks for, or none where its rule is refused.
/// Where the alias is no projection of an item that has rows, no rule stands. The table gets the terms.
/// Want of memory or of numbers is the only refusal.
fn asked_list<'t>(
    setting: ListSetting<'t, '_>,
    terms: &mut TermTable,
    asked: &AliasTerm,
    candidate: &InternedCandidate<'t>,
) -> Result<Option<Vec<InternedEntry<'t>>>, OutOfMemory>
    requires { CandidateIn terms.old candidate.now }
    ensures within { IfOk result (ListIn terms.new) }
    ensures list { GivesList terms.new setting.entry result (λ S. asked_projection_list asked.now S (candidate_at terms.old candidate.now)) }
    ensures named { CandidateIsOf setting.entry.rows.now candidate.now → IfOk result (ListNamesItsRows setting.entry.rows.now) }
{
    let Some(item) = assoc_item(setting.rows, asked) else {
        return Ok(Some(vec![in terms.allocator(); InternedEntry::Refused]?));
    };
    let alias = alias_given(terms, asked)?;
    let projection = AskedProjection {
        item: item.row,
        trait_params: item.trait_params,
        args: alias.args.as_slice(),
        rigid_alias: alias.id,
    };
    projection_list(setting, terms, &projection, candidate)
}

/// The rule of a candidate for the term of a projection: the list of the candidate, with nothing decided
/// behind it where the certainty is `Maybe`. A list that is refused is the refusal `NoSolution`; want of
/// memory or of numbers is the only other one.
fn candidate_rule(
    setting: ListSetting<'_, '_>,
    terms: &mut TermTable,
    asked: &NormalizesTo,
    source: CandidateSource,
    candidate: &InternedCandidate<'_>,
    then: Certainty,
) -> Result<Rule, Fault>
    requires within { CandidateIn terms.old candidate.now }
    requires row { CandidateIsOf setting.rows.now candidate.now }
    requires sorted { CandidateIsSorted (candidate_at terms.old candidate.now) }
    ensures source { IfOk result (λ r. r.source ≡ source) }
    ensures listed { IsListedThen setting.entry then result (λ S. asked_projection_list asked.now.alias S (candidate_at terms.old candidate.now)) }
    ensures refused { IsRefusedAs setting.entry result (λ S. asked_projection_list asked.now.alias S (candidate_at terms.old candidate.now)) }
    ensures expected { IfOk result (λ r. TermsAreFor (λ t. t ≡ tree_of_term asked.now.term) r.entries.items) }
{
    let list = asked_list(setting, terms, &asked.alias, candidate)?;
    rule_of_list(terms, source, Some(&asked.term), &list, then)
}

/// The rule of a clause for a projection: a projection of the same item asks that the arguments are
/// equal and that the item's own where clauses hold, and gives the head form of its term. The rule doesn't
/// stand where the alias is no projection of an item that has rows, and else a clause of another item is
/// refused.
pub fn match_projection(
    setting: ListSetting<'_, '_>,
    asked: &NormalizesTo,
    source: CandidateSource,
    assumption: &Clause,
    then: Certainty,
) -> Result<Rule, Fault>
    ensures source { IfOk result (λ r. r.source ≡ source) }
    ensures listed { IsListedThen setting.entry then result (λ S. asked_projection_list asked.now.alias S (said_by assumption.now.kind)) }
    ensures given { IfOk result (λ r. only_given r.entries.items ≡ true) }
    ensures expected { IfOk result (λ r. TermsAreFor (λ t. t ≡ tree_of_term asked.now.term) r.entries.items) }
    ensures refused { IsRefusedAs setting.entry result (λ S. asked_projection_list asked.now.alias S (said_by assumption.now.kind)) }
    ensures accepted { may_match_term asked.now.alias assumption.now.kind ≡ true → IsOkUnless result Fault.OutOfMemory }
{
    let mut terms = TermTable::new(*asked.alias.args.allocator());
    let predicate = predicate_given(&mut terms, &assumption.kind)?;
    let candidate = InternedCandidate::Assumption(predicate);
    candidate_rule(setting, &mut terms, asked, source, &candidate, then)
}

/// The rule of an impl for a projection: its header fits the trait's arguments, its where clauses and the
/// item's own where clauses hold, and what its source row says of the item gives the term. A broken source
/// gives the error of its number. A default that the mode doesn't take leaves the alias as it stands, as
/// does a missing value in an impl whose self type is known to be unsized; another missing value gives the
/// error of its definition, and its fault is recorded. In coherence defaults and such impls are ambiguous,
/// and a reservation impl decides nothing; in the erased mode a default records an access and decides
/// nothing. Refused are an impl without a row, one whose header is rejected by [`args_may_unify_infer`], a
/// negative impl, a reservation outside of coherence, and any impl where the alias is no projection of an
/// item that has rows.
pub fn impl_term_rule(
    setting: ListSetting<'_, '_>,
    asked: &NormalizesTo,
    id: ImplId,
    then: Certainty,
) -> Result<Rule, Fault>
    ensures source { IfOk result (λ r. r.source ≡ CandidateSource.Impl id) }
    ensures listed { IsImplListedThen setting.entry id then result (asked_projection_list asked.now.alias) }
    ensures expected { IfOk result (λ r. TermsAreFor (λ t. t ≡ tree_of_term asked.now.term) r.entries.items) }
    ensures refused { refuses_asked_term setting.entry asked.now.alias id ≡ true → result ≡ Err Fault.NoSolution }
    ensures accepted { refuses_asked_term setting.entry asked.now.alias id ≡ false → IsOkUnless result Fault.OutOfMemory }
{
    let Some(row) = setting.rows.impl_row(id) else {
        return Err(Fault::NoSolution);
    };
    let Some(item) = assoc_item(setting.rows, &asked.alias) else {
        return Err(Fault::NoSolution);
    };
    let args = first_of(asked.alias.args.as_slice(), item.trait_params);
    if !args_may_unify_infer(args, row.trait_args.as_slice()) {
        return Err(Fault::NoSolution);
    }
    if !row.polarity.is_positive() && !only_bars(setting.mode, row) {
        return Err(Fault::NoSolution);
    }
    let mut terms = TermTable::new(*asked.alias.args.allocator());
    let source = CandidateSource::Impl(id);
    let candidate = InternedCandidate::Impl(row);
    candidate_rule(setting, &mut terms, asked, source, &candidate, then)
}

/// The rule of what is built in for a projection: its premises hold, and its term is given. A type that no
/// rule names is refused.
pub fn built_in_term_rule(setting: ListSetting<'_, '_>, asked: &NormalizesTo) -> Result<Rule, Fault>
    ensures source { IfOk result (λ r. r.source ≡ CandidateSource.BuiltinImpl BuiltinImplSource.Misc) }
    ensures listed { IsListedAs setting.entry result (λ S. asked_projection_list asked.now.alias S built_in) }
    ensures refused { IsRefusedAs setting.entry result (λ S. asked_projection_list asked.now.alias S built_in) }
    ensures expected { IfOk result (λ r. TermsAreFor (λ t. t ≡ tree_of_term asked.now.term) r.entries.items) }
{
    let mut terms = TermTable::new(*asked.alias.args.allocator());
    let source = CandidateSource::BuiltinImpl(BuiltinImplSource::Misc);
    let candidate = InternedCandidate::BuiltIn;
    candidate_rule(
        setting,
        &mut terms,
        asked,
        source,
        &candidate,
        Certainty::Yes,
    )
}
