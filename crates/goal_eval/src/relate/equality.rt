//! Whether two terms are equal, aliases opened.
ghost use Rattle.std.specs.Prelude.{IfErr, IfOk};
ghost use Rattle.std.specs.List.{All};
ghost use Rattle.goal_interner.specs.TableMeaning.{Keeps};
ghost use Rattle.goal_lists.specs.Interned.{IsIn, AreIn, erased_at, erased_all};
ghost use Rattle.goal_eval.specs.Outcomes.{Says, ForEachMode, SaysEqual, SaysAllEqual, SaysSameForm};
ghost use Rattle.goal_eval.specs.Pending.{IsOpen, Relates, SaysPending};
ghost use Rattle.goal_eval.specs.Effects.{AreSound, IsStop};

use crate::eval::effects::Effects;
use crate::eval::head_forms::head_form;
use crate::eval::outcomes::{Setting, Stop};
use crate::relate::pairs::{Forms, Pending, TermPair, collect, collect_lists, pair_forms};
use goal_interner::term_nodes::TermId;
use goal_interner::term_table::TermTable;
use goal_lists::outcomes::Outcome;
use goal_terms::compare::Regions;

/// Whether two terms are equal at a depth, lifetimes aside. Those at equal places are listed.
#[tactic(auto, using(crate::proofs::CacheLemmas::caching))]
#[cycle(closed)]
pub fn compare_terms(
    setting: &Setting<'_>,
    terms: &mut TermTable,
    effects: &mut Effects,
    left: TermId,
    right: TermId,
    depth: u32,
) -> Result<Outcome, Stop>
    requires effects { AreSound setting.now terms.old effects.old }
    requires first { IsIn terms.old left }
    requires second { IsIn terms.old right }
    ensures effects { AreSound setting.now terms.new effects.new }
    ensures kept { Keeps terms.old terms.new }
    ensures stops { IfErr result (IsStop setting.now) }
    ensures says { ForEachMode setting.now depth (λ _ L. IfOk result (SaysEqual L (erased_at terms.old left) (erased_at terms.old right))) }
{
    effects.equate_terms(terms, left, right)?;
    let mut pending = Pending::new(setting.rows);
    collect(terms, &mut pending, left, right)?;
    compare_pending(setting, terms, effects, &pending, depth)
}

/// Whether two lists of terms are equal in pairs at a depth, lifetimes aside. Those at equal places are listed.
#[tactic(auto, using(crate::proofs::CacheLemmas::caching))]
#[cycle(closed)]
pub(crate) fn compare_lists(
    setting: &Setting<'_>,
    terms: &mut TermTable,
    effects: &mut Effects,
    left: &[TermId],
    right: &[TermId],
    depth: u32,
) -> Result<Outcome, Stop>
    requires effects { AreSound setting.now terms.old effects.old }
    requires first { AreIn terms.old left.now }
    requires second { AreIn terms.old right.now }
    ensures effects { AreSound setting.now terms.new effects.new }
    ensures kept { Keeps terms.old terms.new }
    ensures stops { IfErr result (IsStop setting.now) }
    ensures says { ForEachMode setting.now depth (λ _ L. IfOk result (SaysAllEqual L (erased_all terms.old left.now) (erased_all terms.old right.now))) }
{
    effects.equate_lists(terms, left, right)?;
    let mut pending = Pending::new(setting.rows);
    collect_lists(terms, &mut pending, left, right)?;
    compare_pending(setting, terms, effects, &pending, depth)
}

/// Whether all that is left of a comparison holds at a depth.
#[cycle(closed)]
fn compare_pending(
    setting: &Setting<'_>,
    terms: &mut TermTable,
    effects: &mut Effects,
    pending: &Pending,
    depth: u32,
) -> Result<Outcome, Stop>
    requires effects { AreSound setting.now terms.old effects.old }
    requires within { All (IsOpen terms.old) pending.now.pairs.items }
    ensures effects { AreSound setting.now terms.new effects.new }
    ensures kept { Keeps terms.old terms.new }
    ensures stops { IfErr result (IsStop setting.now) }
    ensures says { ForEachMode setting.now depth (λ _ L. IfOk result (SaysPending L terms.old pending.now)) }
{
    let mut outcome = pending.outcome;
    for pair in &pending.pairs {
        if outcome.is_refuted() {
            return Ok(Outcome::Refuted);
        }
        let next = compare_pair(setting, terms, effects, *pair, depth)?;
        outcome = outcome.and(next);
    }
    Ok(outcome)
}

/// Whether the terms of a pair are equal at a depth, by their head forms one lower.
#[cycle(closed)]
fn compare_pair(
    setting: &Setting<'_>,
    terms: &mut TermTable,
    effects: &mut Effects,
    pair: TermPair,
    depth: u32,
) -> Result<Outcome, Stop>
    requires effects { AreSound setting.now terms.old effects.old }
    requires within { IsOpen terms.old pair }
    ensures effects { AreSound setting.now terms.new effects.new }
    ensures kept { Keeps terms.old terms.new }
    ensures stops { IfErr result (IsStop setting.now) }
    ensures says { ForEachMode setting.now depth (λ _ L. IfOk result (Says (Relates L.equal terms.old pair) (Relates L.unequal terms.old pair))) }
{
    if depth == 0 {
        return Ok(Outcome::Undecided);
    }
    let left = head_form(setting, terms, effects, pair.left, depth - 1)?;
    let right = head_form(setting, terms, effects, pair.right, depth - 1)?;
    match pair_forms(left, right) {
        Forms::Found(form, other) => compare_forms(setting, terms, effects, form, other, depth - 1),
        Forms::Lacking(outcome) => Ok(outcome),
    }
}

/// Whether two head forms are the same at a depth, lifetimes aside: identical, or of one node with equal
/// parts.
#[tactic(auto, using(crate::proofs::CacheLemmas::caching))]
#[cycle(closed)]
fn compare_forms(
    setting: &Setting<'_>,
    terms: &mut TermTable,
    effects: &mut Effects,
    form: TermId,
    other: TermId,
    depth: u32,
) -> Result<Outcome, Stop>
    requires effects { AreSound setting.now terms.old effects.old }
    requires first { IsIn terms.old form }
    requires second { IsIn terms.old other }
    ensures effects { AreSound setting.now terms.new effects.new }
    ensures kept { Keeps terms.old terms.new }
    ensures stops { IfErr result (IsStop setting.now) }
    ensures says { ForEachMode setting.now depth (λ _ L. IfOk result (SaysSameForm L (erased_at terms.old form) (erased_at terms.old other))) }
{
    effects.equate_forms(terms, form, other)?;
    if terms.same_erased(form, other) {
        return Ok(Outcome::Holds);
    }
    let node = terms.node(form);
    if !node.is_same(terms.node(other), Regions::Forgotten) {
        return Ok(Outcome::Refuted);
    }
    let mut pending = Pending::new(setting.rows);
    collect_lists(terms, &mut pending, terms.parts(form), terms.parts(other))?;
    compare_pending(setting, terms, effects, &pending, depth)
}
