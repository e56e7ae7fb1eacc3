//! The rules of a goal's candidates, for what was found as the head form of its self type.
ghost use Rattle.std.specs.Prelude.{◌≡◌, false, None, Ok, IfOk, IfSome, IsOkUnless};
ghost use Rattle.goal_terms.specs.TreeOf.{tree_of_ty};
ghost use Rattle.goal_kinds.specs.Collecting.{has_kind_fault, kind_of};
ghost use Rattle.goal_solver.specs.AskedGoals.{AreRulesFor, RulesForForm, merged_as};
ghost use Rattle.goal_solver.specs.OpenGoals.{IsConsidered, TakesSelf, PassesSelf};
ghost use Rattle.goal_solver.specs.TranslatedArgs.{IsSameEnvironment};

use crate::eval::goals::lies_in_goal;
use crate::eval::where_goals::copied_clauses;
use crate::faults::Fault;
use goal_checks::checked::CheckedTables;
use goal_kinds::assembly::class_rules::{ClassRules, rules_by_class};
use goal_kinds::assembly::group_rules::{GroupRules, rules_by_group};
use goal_kinds::goal_kind::GoalKind;
use goal_tables::faults::TermFault;
use goal_terms::answers::TraitGoalProvenVia;
use goal_terms::modes::TypingMode;
use goal_terms::node_tests::general_variable;
use goal_terms::predicates::{Goal, NormalizesTo};
use goal_terms::terms::{Term, Ty};

/// How the candidates of a goal are merged.
#[derive(Clone, Copy)]
pub(crate) enum Merging<'p> {
    /// Class by class, as those of a trait goal.
    Classes,
    /// By the groups behind the class through which the plain goal holds, as those of a host effect goal.
    Groups(TraitGoalProvenVia),
    /// By the groups behind the class through which the trait goal holds, as those that give a projection its term.
    Projection(TraitGoalProvenVia, &'p NormalizesTo),
}

/// The rules of a goal's candidates, as they are merged.
#[derive(Drop)]
pub(crate) enum FormedRules<'p> {
    Classes(ClassRules),
    Groups(GroupRules),
    Projection(TraitGoalProvenVia, &'p NormalizesTo, GroupRules),
}

/// The rules of a goal's candidates, for what was found as the head form of its self type, if candidates are
/// considered for it. Only memory is refused.
pub(crate) fn rules_for_form<'p, G: GoalKind + Drop>(
    tables: &CheckedTables,
    mode: &TypingMode,
    by: Merging<'p>,
    goal: &Goal<G>,
    found: Option<Term>,
) -> Result<Option<FormedRules<'p>>, Fault>
    ensures rules { IfOk result (RulesForForm (kind_of G.words G.has_fault) tables.now mode.now (merged_as by.entry) goal.now found) }
    ensures only_memory { IsOkUnless result Fault.OutOfMemory }
{
    match considered_for(tables, goal, found)? {
        None => Ok(None),
        Some(considered) => Ok(Some(rules_by(tables, mode, by, considered)?)),
    }
}

/// The rules of a goal's candidates. Only memory is refused.
fn rules_by<'p, G: GoalKind + Drop>(
    tables: &CheckedTables,
    mode: &TypingMode,
    by: Merging<'p>,
    goal: Goal<G>,
) -> Result<FormedRules<'p>, Fault>
    requires accepted { has_kind_fault G.has_fault tables.now goal ≡ false }
    ensures rules { IfOk result (AreRulesFor (kind_of G.words G.has_fault) tables.now mode.now (merged_as by.entry) goal) }
    ensures only_memory { IsOkUnless result Fault.OutOfMemory }
{
    match by {
        Merging::Classes => Ok(FormedRules::Classes(rules_by_class(tables, mode, goal)?)),
        Merging::Groups(class) => {
            Ok(FormedRules::Groups(rules_by_group(tables, mode, class, goal)?))
        }
        Merging::Projection(class, asked) => {
            let rules = rules_by_group(tables, mode, class, goal)?;
            Ok(FormedRules::Projection(class, asked, rules))
        }
    }
}

/// The goal to consider candidates for, by what was found as the head form of its self type. There is none where that
/// is undecided or a general variable, or where the goal isn't one that a check accepts. Only memory is refused.
fn considered_for<G: GoalKind + Drop>(
    tables: &CheckedTables,
    goal: &Goal<G>,
    found: Option<Term>,
) -> Result<Option<Goal<G>>, Fault>
    ensures takes { IfOk result (λ o. IfSome o (λ h. TakesSelf G.words.is_with_self goal.now h found × (has_kind_fault G.has_fault tables.now h ≡ false))) }
    ensures passes { result ≡ Ok None → PassesSelf G.words.is_with_self (has_kind_fault G.has_fault tables.now) goal.now found }
    ensures only_memory { IsOkUnless result Fault.OutOfMemory }
{
    let Some(form) = form_to_consider(found) else {
        return Ok(None);
    };
    let replaced = with_form(goal, form)?;
    if has_kind_fault(tables, &replaced) {
        return Ok(None);
    }
    Ok(Some(replaced))
}

/// The goal with another self type, in the same environment.
pub(crate) fn with_form<G: GoalKind + Drop>(goal: &Goal<G>, form: Ty) -> Result<Goal<G>, Fault>
    ensures replaced { IfOk result (λ h. G.words.is_with_self goal.now.predicate (tree_of_ty form) h.predicate) }
    ensures environment { IfOk result (λ h. IsSameEnvironment goal.now.param_env.items h.param_env.items) }
    ensures only_memory { IsOkUnless result Fault.OutOfMemory }
{
    let alloc = *goal.param_env.allocator();
    let Ok(param_env) = copied_clauses(alloc, &goal.param_env) else {
        return Err(Fault::OutOfMemory);
    };
    let predicate = goal.predicate.with_replaced_self_ty(form)?;
    Ok(Goal {
        param_env,
        predicate,
    })
}

/// Whether an id, a number of arguments or a kind is wrong in a goal.
pub(crate) fn has_kind_fault<G: GoalKind>(tables: &CheckedTables, goal: &Goal<G>) -> bool
    ensures { result ≡ has_kind_fault G.has_fault tables.now goal.now }
{
    lies_in_goal(tables, TermFault::UnknownItem, goal)
        || lies_in_goal(tables, TermFault::WrongArgumentCount, goal)
        || lies_in_goal(tables, TermFault::WrongArgumentKind, goal)
}

/// The type that candidates are considered for, if the term is one that isn't a general variable.
pub(crate) fn form_to_consider(found: Option<Term>) -> Option<Ty>
    ensures { IsConsidered found result }
{
    let Some(Term::Ty(form)) = found else {
        return None;
    };
    if general_variable(form.node()).is_some() {
        return None;
    }
    Some(form)
}
