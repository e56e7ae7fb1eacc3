//! Whether what a rule asks for holds.
ghost use Rattle.std.specs.Prelude.{IfErr, IfOk, map};
ghost use Rattle.std.specs.List.{All};
ghost use Rattle.goal_interner.specs.TableMeaning.{Keeps};
ghost use Rattle.goal_lists.specs.Interned.{IsIn, AreIn, TraitIn, PredicateIn, PremiseIn, erased_at, erased_all, trait_at, predicate_at, premise_at};
ghost use Rattle.goal_lists.specs.Premises.{clauses_under, conditions_as};
ghost use Rattle.goal_eval.specs.Outcomes.{ForEachMode, SaysHolds, SaysEquation, SaysPremise, SaysPremises};
ghost use Rattle.goal_eval.specs.Effects.{AreSound, IsStop};

use crate::effect_goals::evaluation::{ConstGoal, evaluate_host_effect_goal};
use crate::eval::effects::Effects;
use crate::eval::outcomes::{Setting, Stop};
use crate::relate::equality::compare_terms;
use crate::trait_goals::evaluation::evaluate_trait_goal;
use goal_interner::term_nodes::TermId;
use goal_interner::term_table::TermTable;
use goal_lists::candidates::interned::{InternedPredicate, InternedPremise, InternedTrait};
use goal_lists::candidates::premises::clauses_under;
use goal_lists::outcomes::Outcome;
use goal_terms::predicates::{BoundConstness, Clause};

/// Whether a premise holds at a depth.
#[cycle(closed)]
pub(crate) fn premise_outcome(
    setting: &Setting<'_>,
    terms: &mut TermTable,
    effects: &mut Effects,
    premise: &InternedPremise,
    depth: u32,
) -> Result<Outcome, Stop>
    requires effects { AreSound setting.now terms.old effects.old }
    requires within { PremiseIn terms.old premise.now }
    ensures effects { AreSound setting.now terms.new effects.new }
    ensures kept { Keeps terms.old terms.new }
    ensures stops { IfErr result (IsStop setting.now) }
    ensures says { ForEachMode setting.now depth (λ _ L. IfOk result (SaysPremise L (premise_at terms.old premise.now))) }
{
    match premise {
        InternedPremise::Predicate(predicate) => {
            predicate_outcome(setting, terms, effects, predicate, depth)
        }
        InternedPremise::Equation(left, right) => {
            compare_terms(setting, terms, effects, *left, *right, depth)
        }
    }
}

/// Whether a predicate holds at a depth.
#[cycle(closed)]
pub fn predicate_outcome(
    setting: &Setting<'_>,
    terms: &mut TermTable,
    effects: &mut Effects,
    predicate: &InternedPredicate,
    depth: u32,
) -> Result<Outcome, Stop>
    requires effects { AreSound setting.now terms.old effects.old }
    requires within { PredicateIn terms.old predicate.now }
    ensures effects { AreSound setting.now terms.new effects.new }
    ensures kept { Keeps terms.old terms.new }
    ensures stops { IfErr result (IsStop setting.now) }
    ensures says { ForEachMode setting.now depth (λ _ L. IfOk result (SaysHolds L (predicate_at terms.old predicate.now))) }
{
    match predicate {
        InternedPredicate::Trait(held) => {
            let found = evaluate_trait_goal(
                setting,
                terms,
                effects,
                held.def_id,
                &held.args,
                depth,
            )?;
            Ok(found.held())
        }
        InternedPredicate::Projection(alias, term) => {
            equation_outcome(setting, terms, effects, *alias, *term, depth)
        }
        InternedPredicate::HostEffect(constness, held) => {
            let const_goal = ConstGoal {
                constness: *constness,
                trait_id: held.def_id,
                args: &held.args,
            };
            evaluate_host_effect_goal(setting, terms, effects, &const_goal, depth)
        }
    }
}

/// Whether the goal that an alias and a term are equal holds at a depth. They are compared one lower.
#[cycle(closed)]
fn equation_outcome(
    setting: &Setting<'_>,
    terms: &mut TermTable,
    effects: &mut Effects,
    alias: TermId,
    term: TermId,
    depth: u32,
) -> Result<Outcome, Stop>
    requires effects { AreSound setting.now terms.old effects.old }
    requires first { IsIn terms.old alias }
    requires second { IsIn terms.old term }
    ensures effects { AreSound setting.now terms.new effects.new }
    ensures kept { Keeps terms.old terms.new }
    ensures stops { IfErr result (IsStop setting.now) }
    ensures says { ForEachMode setting.now depth (λ _ L. IfOk result (SaysEquation L (erased_at terms.old alias) (erased_at terms.old term))) }
{
    if depth == 0 {
        return Ok(Outcome::Undecided);
    }
    compare_terms(setting, terms, effects, alias, term, depth - 1)
}

/// Whether all of some premises hold at a depth. One that is refuted refutes them.
#[cycle(closed)]
pub(crate) fn premises_outcome(
    setting: &Setting<'_>,
    terms: &mut TermTable,
    effects: &mut Effects,
    premises: &[InternedPremise],
    depth: u32,
) -> Result<Outcome, Stop>
    requires effects { AreSound setting.now terms.old effects.old }
    requires within { All (PremiseIn terms.old) premises.now }
    ensures effects { AreSound setting.now terms.new effects.new }
    ensures kept { Keeps terms.old terms.new }
    ensures stops { IfErr result (IsStop setting.now) }
    ensures says { ForEachMode setting.now depth (λ _ L. IfOk result (SaysPremises L (map (premise_at terms.old) premises.now))) }
{
    let mut found = Outcome::Holds;
    for premise in premises {
        let next = premise_outcome(setting, terms, effects, premise, depth)?;
        found = found.and(next);
        if let Outcome::Refuted = found {
            return Ok(Outcome::Refuted);
        }
    }
    Ok(found)
}

/// Whether a row's where clauses hold at a depth, under arguments.
#[tactic(auto, using(crate::proofs::CacheLemmas::caching))]
#[cycle(closed)]
pub(crate) fn clauses_outcome(
    setting: &Setting<'_>,
    terms: &mut TermTable,
    effects: &mut Effects,
    clauses: &[Clause],
    args: &[TermId],
    depth: u32,
) -> Result<Outcome, Stop>
    requires effects { AreSound setting.now terms.old effects.old }
    requires args { AreIn terms.old args.now }
    ensures effects { AreSound setting.now terms.new effects.new }
    ensures kept { Keeps terms.old terms.new }
    ensures stops { IfErr result (IsStop setting.now) }
    ensures says { ForEachMode setting.now depth (λ _ L. IfOk result (SaysPremises L (clauses_under (erased_all terms.old args.now) clauses.now))) }
{
    let premises = clauses_under(terms, clauses, args)?;
    premises_outcome(setting, terms, effects, &premises, depth)
}

/// Whether traits hold at a depth as const traits of a constness.
#[cycle(closed)]
pub(crate) fn conditions_outcome(
    setting: &Setting<'_>,
    terms: &mut TermTable,
    effects: &mut Effects,
    constness: BoundConstness,
    conditions: &[InternedTrait],
    depth: u32,
) -> Result<Outcome, Stop>
    requires effects { AreSound setting.now terms.old effects.old }
    requires within { All (TraitIn terms.old) conditions.now }
    ensures effects { AreSound setting.now terms.new effects.new }
    ensures kept { Keeps terms.old terms.new }
    ensures stops { IfErr result (IsStop setting.now) }
    ensures says { ForEachMode setting.now depth (λ _ L. IfOk result (SaysPremises L (conditions_as constness (map (trait_at terms.old) conditions.now)))) }
{
    let mut found = Outcome::Holds;
    for condition in conditions {
        let const_goal = ConstGoal {
            constness,
            trait_id: condition.def_id,
            args: &condition.args,
        };
        let next = evaluate_host_effect_goal(setting, terms, effects, &const_goal, depth)?;
        found = found.and(next);
        if let Outcome::Refuted = found {
            return Ok(Outcome::Refuted);
        }
    }
    Ok(found)
}
