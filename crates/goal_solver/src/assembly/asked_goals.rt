//! Goals with inference variables, of the three kinds, that are answered by their candidates.
ghost use Rattle.std.specs.Prelude.{◌≡◌, Result, None, Ok, IfOk, IfSome, IsOkUnless};
ghost use Rattle.goal_interner.specs.TableMeaning.{Keeps};
ghost use Rattle.goal_solver.specs.AskedGoals.{asked_environment, AsksOpen, IsAskedAlias, RulesForAsked};

use crate::assembly::formed_rules::{FormedRules, Merging, rules_for_form};
use crate::context::EvalCtxt;
use crate::faults::Fault;
use goal_checks::checked::CheckedTables;
use goal_terms::answers::TraitGoalProvenVia;
use goal_terms::modes::TypingMode;
use goal_terms::predicates::{Clause, Goal, HostEffectPredicate, NormalizesTo, TraitPredicate};
use goal_terms::terms::{AliasTerm, Term};

/// A goal with inference variables, by which its candidates are found. Beside a host effect goal stands the class
/// through which its plain goal holds, and beside a goal for the term of a projection that through which its trait
/// goal does.
#[derive(Clone, Copy)]
pub(crate) enum AskedGoal<'g> {
    Trait(&'g Goal<TraitPredicate>),
    HostEffect(TraitGoalProvenVia, &'g Goal<HostEffectPredicate>),
    Projection(TraitGoalProvenVia, &'g Goal<NormalizesTo>),
}

/// The environment of a goal.
pub(crate) fn environment_of<'g>(asked: AskedGoal<'g>) -> &'g [Clause]
    ensures { result.now ≡ asked_environment asked.entry }
{
    match asked {
        AskedGoal::Trait(goal) => &goal.param_env,
        AskedGoal::HostEffect(_, goal) => &goal.param_env,
        AskedGoal::Projection(_, goal) => &goal.param_env,
    }
}

/// The rules of a goal's candidates, for what was found as the head form of its self type, if candidates are
/// considered for it. Only memory is refused.
pub(crate) fn rules_for_asked<'g>(
    tables: &CheckedTables,
    mode: &TypingMode,
    asked: AskedGoal<'g>,
    found: Option<Term>,
) -> Result<Option<FormedRules<'g>>, Fault>
    ensures rules { IfOk result (RulesForAsked tables.now mode.now asked.entry found) }
    ensures only_memory { IsOkUnless result Fault.OutOfMemory }
{
    match asked {
        AskedGoal::Trait(goal) => rules_for_form(tables, mode, Merging::Classes, goal, found),
        AskedGoal::HostEffect(class, goal) => {
            rules_for_form(tables, mode, Merging::Groups(class), goal, found)
        }
        AskedGoal::Projection(class, goal) => {
            let by = Merging::Projection(class, &goal.predicate);
            rules_for_form(tables, mode, by, goal, found)
        }
    }
}

impl EvalCtxt<'_> {
    /// The alias that the self type of a goal is, as `open_self` finds it.
    pub(crate) fn open_self_of(&mut self, asked: AskedGoal<'_>) -> Result<Option<AliasTerm>, Fault>
        ensures none { result ≡ Ok None → AsksOpen asked.entry self.old → ⊥ }
        ensures asks { IfOk result (λ o. IfSome o (λ a. AsksOpen asked.entry self.old)) }
        ensures alias { IfOk result (λ o. IfSome o (IsAskedAlias asked.entry self.new)) }
        ensures kept { Keeps self.old.terms self.new.terms }
        ensures unchanged { self.new ≡ record self.old { terms = self.new.terms } }
        ensures only_memory { IsOkUnless result Fault.OutOfMemory }
    {
        match asked {
            AskedGoal::Trait(goal) => self.open_self(goal),
            AskedGoal::HostEffect(_, goal) => self.open_self(goal),
            AskedGoal::Projection(_, goal) => self.open_self(goal),
        }
    }
}
