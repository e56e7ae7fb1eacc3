//! The rules of a goal's candidates, by their classes.
ghost use Rattle.std.specs.Prelude.{◌≡◌, false, IfOk, IsOkUnless};
ghost use Rattle.goal_terms.specs.declared.answers.TraitGoalProvenVia.{TraitGoalProvenVia as of_class};
ghost use Rattle.goal_kinds.specs.Collecting.{kind_of, goal_in, CollectsFor};
ghost use Rattle.goal_kinds.specs.Collecting.{has_kind_fault, rules_of_class};

use crate::assembly::collecting::class_rules;
use crate::faults::Fault;
use crate::goal_kind::GoalKind;
use crate::rules::Rule;
use goal_checks::checked::CheckedTables;
use goal_terms::answers::TraitGoalProvenVia;
use goal_terms::modes::TypingMode;
use goal_terms::predicates::{Clause, Goal};

/// The rules of a goal's candidates: of the clauses of its environment, of the bounds of its self type, and of the
/// rest. They are run under the environment.
pub struct ClassRules {
    pub param_env: Vec<Clause>,
    pub environment: Vec<Rule>,
    pub bounds: Vec<Rule>,
    pub rest: Vec<Rule>,
}

impl Drop for ClassRules {
    fn drop(self) {
        let ClassRules {
            param_env: _,
            environment: _,
            bounds: _,
            rest: _,
        } = self;
    }
}

impl ClassRules {
    /// The rules of a class.
    pub fn of_class(&self, class: TraitGoalProvenVia) -> &[Rule]
        ensures { result.now ≡ rules_of_class self.now class }
    {
        match class {
            TraitGoalProvenVia::ParamEnv => &self.environment,
            TraitGoalProvenVia::AliasBound => &self.bounds,
            TraitGoalProvenVia::Misc => &self.rest,
        }
    }
}

/// The rules of the candidates of each class for a goal. Want of memory is the only refusal.
pub fn rules_by_class<G: GoalKind + Drop>(
    tables: &CheckedTables,
    mode: &TypingMode,
    goal: Goal<G>,
) -> Result<ClassRules, Fault>
    requires accepted { has_kind_fault G.has_fault tables.now goal ≡ false }
    ensures collected { IfOk result (λ w. (c : of_class) → CollectsFor (kind_of G.words G.has_fault) (goal_in tables.now goal mode.now) c (rules_of_class w c)) }
    ensures environment { IfOk result (λ w. w.param_env.items ≡ goal.param_env.items) }
    ensures only_memory { IsOkUnless result Fault.OutOfMemory }
{
    let environment = class_rules(tables, mode, &goal, TraitGoalProvenVia::ParamEnv)?;
    let bounds = class_rules(tables, mode, &goal, TraitGoalProvenVia::AliasBound)?;
    let rest = class_rules(tables, mode, &goal, TraitGoalProvenVia::Misc)?;
    Ok(ClassRules {
        param_env: goal.param_env,
        environment,
        bounds,
        rest,
    })
}
