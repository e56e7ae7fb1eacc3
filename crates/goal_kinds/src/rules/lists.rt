//! Lists of entries that rules of several kinds of goals have.
ghost use Rattle.std.specs.Prelude.{◌≡◌, ◌∷◌, ◌++◌, [], IfOk};
ghost use Rattle.goal_kinds.specs.CandidateRules.{entries_for};
ghost use Rattle.goal_kinds.specs.RuleWords.{auto_trait_entries};

use crate::rules::{Rule, RuleEntry};
use goal_interner::term_nodes::OutOfMemory;
use goal_terms::answers::{BuiltinImplSource, CandidateSource, DelayedFault, GoalSource};
use goal_terms::ids::TraitId;
use goal_terms::predicates::ClauseKind;
use std::alloc::Global;

/// A rule that asks for clauses beside what it asks for already. Want of memory is the only refusal.
pub(crate) fn with_requirements(
    mut rule: Rule,
    requirements: Vec<(GoalSource, ClauseKind)>,
) -> Result<Rule, OutOfMemory>
    ensures source { IfOk result (λ r. r.source ≡ rule.source) }
    ensures entries { IfOk result (λ r. r.entries.items ≡ rule.entries.items ++ entries_for requirements.items) }
{
    for (asked_for, kind) in requirements {
        rule.entries.push(RuleEntry::Clause(asked_for, kind))?;
    }
    Ok(rule)
}

/// The rule of an auto trait: it records the fault, and doesn't stand. Want of memory is the only refusal.
pub(crate) fn auto_trait_rule(alloc: Global, id: TraitId) -> Result<Rule, OutOfMemory>
    ensures source { IfOk result (λ r. r.source ≡ CandidateSource.BuiltinImpl BuiltinImplSource.Misc) }
    ensures entries { IfOk result (λ r. r.entries.items ≡ auto_trait_entries id) }
{
    let fault = RuleEntry::DelayedFault(DelayedFault::AutoTrait(id));
    Ok(Rule {
        source: CandidateSource::BuiltinImpl(BuiltinImplSource::Misc),
        entries: vec![in alloc; fault, RuleEntry::Refused]?,
    })
}

/// Adds a rule. Want of memory is the only refusal.
pub(crate) fn push_rule(found: &mut Vec<Rule>, rule: Rule) -> Result<(), OutOfMemory>
    ensures { IfOk result (λ _. found.new.items ≡ found.old.items ++ rule ∷ []) }
{
    found.push(rule)?;
    Ok(())
}
