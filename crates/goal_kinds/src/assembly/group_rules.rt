//! The rules of a goal's candidates whose plain goal holds through a class, by their groups.
ghost use Rattle.std.specs.Prelude.{◌≡◌, false, IfOk, IsOkUnless};
ghost use Rattle.goal_kinds.specs.Collecting.{kind_of, goal_in, CollectsFor};
ghost use Rattle.goal_kinds.specs.Collecting.{has_kind_fault};
ghost use Rattle.goal_kinds.specs.Collecting.{CollectsAll, CollectsFirst, CollectsLater};

use crate::assembly::collecting::{class_rules, push_rules};
use crate::faults::Fault;
use crate::goal_kind::GoalKind;
use crate::rules::Rule;
use goal_checks::checked::CheckedTables;
use goal_terms::answers::TraitGoalProvenVia;
use goal_terms::modes::TypingMode;
use goal_terms::predicates::{Clause, Goal};

/// The rules of the groups of a goal's candidates: of the clauses of its environment, and of the candidates after them.
/// They are run under the environment.
pub struct GroupRules {
    pub param_env: Vec<Clause>,
    pub environment: Vec<Rule>,
    pub later: Vec<Rule>,
}

impl Drop for GroupRules {
    fn drop(self) {
        let GroupRules {
            param_env: _,
            environment: _,
            later: _,
        } = self;
    }
}

/// The rules of the candidates of each group for a goal. Want of memory is the only refusal.
pub fn rules_by_group<G: GoalKind + Drop>(
    tables: &CheckedTables,
    mode: &TypingMode,
    class: TraitGoalProvenVia,
    goal: Goal<G>,
) -> Result<GroupRules, Fault>
    requires accepted { has_kind_fault G.has_fault tables.now goal ≡ false }
    ensures first { IfOk result (λ w. CollectsFirst (kind_of G.words G.has_fault) (goal_in tables.now goal mode.now) w.environment.items) }
    ensures later { IfOk result (λ w. CollectsLater (kind_of G.words G.has_fault) (goal_in tables.now goal mode.now) class w.later.items) }
    ensures environment { IfOk result (λ w. w.param_env.items ≡ goal.param_env.items) }
    ensures only_memory { IsOkUnless result Fault.OutOfMemory }
{
    let environment = rules_of(tables, mode, &goal, &[TraitGoalProvenVia::ParamEnv])?;
    let later = later_rules(tables, mode, class, &goal)?;
    Ok(GroupRules {
        param_env: goal.param_env,
        environment,
        later,
    })
}

/// The rules of the candidates of a goal after those of its environment. Want of memory is the only refusal.
fn later_rules<G: GoalKind>(
    tables: &CheckedTables,
    mode: &TypingMode,
    class: TraitGoalProvenVia,
    goal: &Goal<G>,
) -> Result<Vec<Rule>, Fault>
    requires accepted { has_kind_fault G.has_fault tables.now goal.now ≡ false }
    ensures collected { IfOk result (λ rs. CollectsLater (kind_of G.words G.has_fault) (goal_in tables.now goal.now mode.now) class rs.items) }
    ensures only_memory { IsOkUnless result Fault.OutOfMemory }
{
    let classes = [TraitGoalProvenVia::AliasBound, TraitGoalProvenVia::Misc];
    match class {
        TraitGoalProvenVia::ParamEnv => rules_of(
            tables,
            mode,
            goal,
            &[TraitGoalProvenVia::AliasBound],
        ),
        TraitGoalProvenVia::AliasBound => rules_of(
            tables,
            mode,
            goal,
            &[TraitGoalProvenVia::AliasBound],
        ),
        TraitGoalProvenVia::Misc => rules_of(tables, mode, goal, &classes),
    }
}

/// The rules of the candidates of some classes for a goal, one class after the other. Want of memory is the only
/// refusal.
fn rules_of<G: GoalKind>(
    tables: &CheckedTables,
    mode: &TypingMode,
    goal: &Goal<G>,
    classes: &[TraitGoalProvenVia],
) -> Result<Vec<Rule>, Fault>
    requires accepted { has_kind_fault G.has_fault tables.now goal.now ≡ false }
    ensures collected { IfOk result (λ rs. CollectsAll (CollectsFor (kind_of G.words G.has_fault) (goal_in tables.now goal.now mode.now)) classes.now rs.items) }
    ensures only_memory { IsOkUnless result Fault.OutOfMemory }
{
    let mut found = Vec::new(*goal.param_env.allocator());
    for class in classes {
        let rules = class_rules(tables, mode, goal, *class)?;
        push_rules(&mut found, rules)?;
    }
    Ok(found)
}
