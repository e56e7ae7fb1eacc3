//! The terms that aliases stand for, by their lists.
ghost use Rattle.std.specs.Prelude.{◌≢◌, IfErr, IfOk};
ghost use Rattle.std.specs.List.{All};
ghost use Rattle.goal_interner.specs.TableMeaning.{Keeps};
ghost use Rattle.goal_lists.specs.AliasLists.{alias_list};
ghost use Rattle.goal_lists.specs.Causes.{IsCausedEntry};
ghost use Rattle.goal_lists.specs.Interned.{AreIn, erased_all};
ghost use Rattle.goal_lists.specs.InternedEntries.{EntriesIn};
ghost use Rattle.goal_eval.specs.Lists.{AreEntriesOf};
ghost use Rattle.goal_eval.specs.Outcomes.{FoundIn, ForEachMode, SaysAlias, ForEachSetting};
ghost use Rattle.goal_eval.specs.Effects.{AreSound, IsStop};

use crate::eval::effects::Effects;
use crate::eval::listed_regions::KeptGoal;
use crate::eval::lists::run_list;
use crate::eval::outcomes::{Found, Setting, Stop};
use crate::normalizes_to::projection_args::intern_alias;
use crate::normalizes_to::projections::{AliasWithArgs, projection_term};
use goal_interner::term_nodes::{OutOfMemory, TermId};
use goal_interner::term_table::TermTable;
use goal_lists::lists::InternedEntry;
use goal_lists::lists::aliases::alias_list;
use goal_terms::modes::TypingMode;
use goal_terms::terms::AliasTermKind;

/// The term that an alias has at a depth. What an evaluation knows isn't evaluated again.
#[tactic(auto, using(crate::proofs::CacheLemmas::caching))]
#[cycle(closed)]
pub fn alias_term(
    setting: &Setting<'_>,
    terms: &mut TermTable,
    effects: &mut Effects,
    kind: AliasTermKind,
    args: &[TermId],
    depth: u32,
) -> Result<Found, Stop>
    requires effects { AreSound setting.now terms.old effects.old }
    requires args { AreIn terms.old args.now }
    ensures effects { AreSound setting.now terms.new effects.new }
    ensures kept { Keeps terms.old terms.new }
    ensures within { IfOk result (FoundIn terms.new) }
    ensures stops { IfErr result (IsStop setting.now) }
    ensures says { ForEachMode setting.now depth (λ _ L. IfOk result (SaysAlias L kind (erased_all terms.old args.now) terms.new)) }
{
    if depth == 0 {
        return Ok(Found::Undecided);
    }
    let alias = intern_alias(setting.allocator(), terms, kind, args)?;
    if let Some(known) = effects.known_alias(alias, depth)? {
        return Ok(known);
    }
    let before = effects.begin_goal();
    let found = fresh_alias_term(setting, terms, effects, kind, args, depth)?;
    effects.end_goal(KeptGoal::Plain(alias), before, found.held())?;
    effects.cache.keep_alias(alias, depth, found);
    Ok(found)
}

/// The term that an alias has at a depth, which isn't known. Each alias but a projection is normalized by its
/// list.
#[tactic(auto, using(crate::proofs::CacheLemmas::caching))]
#[cycle(closed)]
fn fresh_alias_term(
    setting: &Setting<'_>,
    terms: &mut TermTable,
    effects: &mut Effects,
    kind: AliasTermKind,
    args: &[TermId],
    depth: u32,
) -> Result<Found, Stop>
    requires effects { AreSound setting.now terms.old effects.old }
    requires args { AreIn terms.old args.now }
    requires above { depth ≢ 0 }
    ensures effects { AreSound setting.now terms.new effects.new }
    ensures kept { Keeps terms.old terms.new }
    ensures within { IfOk result (FoundIn terms.new) }
    ensures stops { IfErr result (IsStop setting.now) }
    ensures says { ForEachMode setting.now depth (λ _ L. IfOk result (SaysAlias L kind (erased_all terms.old args.now) terms.new)) }
{
    match kind {
        AliasTermKind::ProjectionTy(item) | AliasTermKind::ProjectionConst(item) => {
            let alias = AliasWithArgs { kind, args };
            projection_term(setting, terms, effects, &alias, item, depth - 1)
        }
        _ => {
            let list = list_of_alias(setting, terms, kind, args)?;
            let outcome = run_list(setting, terms, effects, &Some(list), depth - 1)?;
            Ok(outcome.term())
        }
    }
}

/// The list of an alias that is no projection, by which a run goes. The table gets the alias. Want of
/// memory or of numbers is the only refusal.
fn list_of_alias<'t>(
    setting: &Setting<'t>,
    terms: &mut TermTable,
    kind: AliasTermKind,
    args: &[TermId],
) -> Result<Vec<InternedEntry<'t>>, OutOfMemory>
    requires { AreIn terms.old args.now }
    ensures kept { Keeps terms.old terms.new }
    ensures within { IfOk result (λ es. EntriesIn terms.new es.items) }
    ensures caused { IfOk result (λ es. All (IsCausedEntry setting.now.rows.now) es.items) }
    ensures list { ForEachSetting setting.now (λ S. IfOk result (AreEntriesOf setting.now terms.new (alias_list S kind (erased_all terms.old args.now)))) }
{
    let alloc = setting.allocator();
    let rigid_alias = intern_alias(alloc, terms, kind, args)?;
    let erased = TypingMode::ErasedNotCoherence;
    alias_list(setting.of_lists(&erased), alloc, kind, args, rigid_alias)
}
