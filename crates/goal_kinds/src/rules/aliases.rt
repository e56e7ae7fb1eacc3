//! The rules of free, inherent and opaque aliases.
ghost use Rattle.std.specs.Prelude.{◌≡◌, ℕ, List, IfOk, IfErr, None, Some, is_some, if◌then◌else◌};
ghost use Rattle.std.specs.List.{All};
ghost use Rattle.goal_terms.specs.Tree.{Tree};
ghost use Rattle.goal_terms.specs.TreeOf.{tree_of_term};
ghost use Rattle.goal_terms.specs.declared.answers.BuiltinImplSource.TheVariants.{Misc};
ghost use Rattle.goal_terms.specs.declared.answers.CandidateSource.TheVariants.{BuiltinImpl as built_in};
ghost use Rattle.goal_terms.specs.declared.ids.OpaqueId.{OpaqueId};
ghost use Rattle.goal_terms.specs.declared.predicates.Clause.{Clause as clause};
ghost use Rattle.goal_lists.specs.AliasLists.{alias_list};
ghost use Rattle.goal_lists.specs.Answers.{setting_of};
ghost use Rattle.goal_lists.specs.InternedEntries.{EntriesIn, entries_at, setting_at};
ghost use Rattle.goal_lists.specs.NamedRows.{NamesItsRows, Defines};
ghost use Rattle.goal_lists.specs.Projections.{projected_item};
ghost use Rattle.goal_kinds.specs.RuleClauses.{asked_alias_list, MeansAlias, GivesNot, IsCoherence, AsksOpaque, DefinesAsked};
ghost use Rattle.goal_kinds.specs.RuleLists.{IsListed};
ghost use Rattle.goal_lists.specs.RowWords.{given};
ghost use Rattle.goal_kinds.specs.RuleModes.{IsRuleIn, accesses_of};
ghost use Rattle.goal_lists.specs.OpaqueUses.{first_use_of, accesses_for};
ghost use Rattle.goal_kinds.specs.RuleWords.{TermsAreFor};
ghost use Rattle.goal_lists.specs.Settings.{Setting};

use crate::faults::Fault;
use crate::rules::parts::alias_given;
use crate::rules::rebuilt::rule_of_list;
use crate::rules::trait_goal_kind::setting_of;
use crate::rules::{FirstUse, Rule};
use goal_checks::checked::CheckedTables;
use goal_interner::term_nodes::OutOfMemory;
use goal_interner::term_table::TermTable;
use goal_lists::lists::aliases::alias_list;
use goal_lists::lists::projected::projected;
use goal_lists::lists::{InternedEntry, ListSetting};
use goal_tables::lookup::IndexedTables;
use goal_tables::rows::OpaqueRow;
use goal_terms::answers::{BuiltinImplSource, CandidateSource, Certainty};
use goal_terms::ids::OpaqueId;
use goal_terms::modes::TypingMode;
use goal_terms::predicates::{Goal, NormalizesTo};
use goal_terms::terms::AliasTerm;

/// The rule of a free, inherent or opaque alias, for a goal whose bindings are followed: its list (`list`). A
/// free alias asks for its where clauses and gives its value; an inherent one matches its self type with that
/// of its impl first, whose arguments stand before its own; an opaque type gives its hidden type where the mode
/// reveals it, and else stands as it is. An unevaluated constant, a constant without a value and an alias
/// without a row decide nothing. In the erased mode the rule of an opaque type records an access. In
/// coherence it is ambiguous. Where the mode defines the opaque type, the rule is the one entry by which the
/// expected term is its hidden type (`defines`).
///
/// In a mode for which the rule stands it gives, one height below, just the terms of the alias, and is
/// refuted just where the alias is (`says`). `NotForThisKind` comes for a projection, before any growth,
/// and only there; want of memory or of numbers is the only other refusal.
pub fn alias_rule(
    tables: &CheckedTables,
    mode: &TypingMode,
    goal: &Goal<NormalizesTo>,
) -> Result<Rule, Fault>
    ensures list { (env : List clause) → IfOk result (λ r. IsListed tables.now r (asked_alias_list goal.now.predicate.alias (setting_of tables.now mode.now env))) }
    ensures says { (S : Setting) (n : ℕ) → S.tables ≡ tables.now → IfOk result (λ r. IsRuleIn mode.now r S.mode → MeansAlias S n goal.now.predicate.alias r) }
    ensures records { IfOk result (λ r. accesses_of r.entries.items ≡ accesses_for tables.now mode.now goal.now.predicate.alias.kind) }
    ensures undecided { (S : Setting) (n : ℕ) (i : OpaqueId) (u : Tree) → IsCoherence mode.now → AsksOpaque goal.now.predicate i → IfOk result (GivesNot S n u) }
    ensures expected { IfOk result (λ r. TermsAreFor (λ t. t ≡ tree_of_term goal.now.predicate.term) r.entries.items) }
    ensures defines { (f : FirstUse) → first_use_of tables.now mode.now goal.now.predicate.alias.kind ≡ Some f → IfOk result (DefinesAsked goal.now.predicate f) }
    ensures source { IfOk result (λ r. r.source ≡ built_in Misc) }
    ensures kinds { IfOk result (λ r. projected_item goal.now.predicate.alias.kind ≡ None) }
    ensures faults { IfErr result (λ f. f ≡ (if is_some (projected_item goal.now.predicate.alias.kind) then Fault.NotForThisKind else Fault.OutOfMemory)) }
{
    let asked = &goal.predicate;
    if projected(asked.alias.kind).is_some() {
        return Err(Fault::NotForThisKind);
    }
    let setting = setting_of(tables, mode);
    let mut terms = TermTable::new(*asked.alias.args.allocator());
    let list = Some(asked_list(setting, &mut terms, &asked.alias)?);
    let source = CandidateSource::BuiltinImpl(BuiltinImplSource::Misc);
    rule_of_list(&terms, source, Some(&asked.term), &list, Certainty::Yes)
}

/// The list of an alias that is no projection. The table gets the terms. Want of memory or of numbers is
/// the only refusal.
fn asked_list<'t>(
    setting: ListSetting<'t, '_>,
    terms: &mut TermTable,
    asked: &AliasTerm,
) -> Result<Vec<InternedEntry<'t>>, OutOfMemory>
    ensures within { IfOk result (λ es. EntriesIn terms.new es.items) }
    ensures entries { (env : List clause) → IfOk result (λ es. entries_at terms.new es.items ≡ alias_list (setting_at setting.entry env) asked.now.kind (given asked.now.args)) }
    ensures named { IfOk result (λ es. All (NamesItsRows setting.entry.rows.now) es.items) }
    ensures defined { (f : FirstUse) → first_use_of setting.entry.rows.now setting.entry.mode.now asked.now.kind ≡ Some f → IfOk result (λ es. Defines terms.new asked.now f es.items) }
{
    let alias = alias_given(terms, asked)?;
    alias_list(
        setting,
        terms.allocator(),
        asked.kind,
        alias.args.as_slice(),
        alias.id,
    )
}
