//! Asks goals, each in a context of its own.
ghost use Rattle.std.specs.Prelude.{IfOk};
ghost use Rattle.vurloske.specs.Asked.{IsForKind};

use crate::endings::Ending;
use crate::records::Records;
use crate::scenes::{Progress, Scene};
use goal_checks::checked::CheckedTables;
use goal_checks::predicate_terms::PredicateTerms;
use goal_interner::term_nodes::OutOfMemory;
use goal_solver::context::EvalCtxt;
use goal_solver::eval::goals::check_goal;
use goal_solver::faults::Fault;
use goal_terms::answers::{Response, VarKind};
use goal_terms::predicates::{
    Clause, Goal, HostEffectPredicate, NormalizesTo, ProjectionPredicate, TraitPredicate,
};
use goal_terms::terms::{AliasTermKind, Term};
use std::mem;
use vurloske_answers::answers::{Answer, Refusal, answer_of};
use vurloske_items::goals::Asked;

/// Asks a goal in a new context, whose variables are of these kinds. What the context recorded is kept, which
/// lifetimes the answer equates, and what it gives the variables.
pub fn ask(
    tables: &CheckedTables,
    scene: &mut Scene,
    progress: &mut Progress,
    variables: &[VarKind],
    asked: Asked,
) -> Result<Answer, Ending> {
    progress.records.clear();
    let typing_mode = scene.mode.typing_mode.clone()?;
    let stop_on_rerun = scene.mode.stop_on_rerun;
    let context = EvalCtxt::new(tables, typing_mode, progress.limit, stop_on_rerun);
    let mut context = match context {
        Ok(context) => context,
        Err(fault) => return Ok(Answer::Refused(Refusal::Depth(fault))),
    };
    let clauses = &mut scene.environment.clauses;
    let records = &mut progress.records;
    let answer = ask_in(tables, &mut context, clauses, records, variables, asked);
    progress.records.keep(&context)?;
    answer
}

/// Asks a goal under clauses, in a context that has no variables yet.
fn ask_in(
    tables: &CheckedTables,
    context: &mut EvalCtxt<'_>,
    clauses: &mut Vec<Clause>,
    records: &mut Records,
    variables: &[VarKind],
    asked: Asked,
) -> Result<Answer, Ending> {
    make_variables(context, variables)?;
    match asked {
        Asked::Trait(predicate) => { ask_under(tables, context, clauses, records, predicate, None) }
        Asked::HostEffect(predicate) => {
            ask_under(tables, context, clauses, records, predicate, None)
        }
        Asked::Equal(predicate) => { ask_under(tables, context, clauses, records, predicate, None) }
        Asked::Term(alias) => {
            let variable = u32::try_from(variables.len()).ok();
            let term = expected_term(context, alias.kind)?;
            let predicate = NormalizesTo { alias, term };
            ask_under(tables, context, clauses, records, predicate, variable)
        }
    }
}

/// Makes the variables of a goal, in order.
fn make_variables(context: &mut EvalCtxt<'_>, kinds: &[VarKind]) -> Result<(), Ending> {
    for kind in kinds {
        make_variable(context, *kind)?;
    }
    Ok(())
}

fn make_variable(context: &mut EvalCtxt<'_>, kind: VarKind) -> Result<(), Ending> {
    let is_made = match kind {
        VarKind::Ty => context.next_ty_infer().is_ok(),
        VarKind::Int => context.next_int_infer().is_ok(),
        VarKind::Float => context.next_float_infer().is_ok(),
        VarKind::Const => context.next_const_infer().is_ok(),
        VarKind::Region => context.next_region_var().is_ok(),
    };
    if is_made {
        Ok(())
    } else {
        Err(Ending::OutOfMemory)
    }
}

/// A fresh variable for what an alias stands for, a type or a constant.
fn expected_term(context: &mut EvalCtxt<'_>, kind: AliasTermKind) -> Result<Term, Ending>
    ensures { IfOk result (IsForKind kind) }
{
    if kind.is_type() {
        match context.next_ty_infer() {
            Ok(ty) => Ok(Term::Ty(ty)),
            Err(_) => Err(Ending::OutOfMemory),
        }
    } else {
        match context.next_const_infer() {
            Ok(value) => Ok(Term::Const(value)),
            Err(_) => Err(Ending::OutOfMemory),
        }
    }
}

/// Asks a predicate under clauses, which are lent to the goal and come back. `variable` is the one that
/// takes an alias's term.
fn ask_under<P: Question>(
    tables: &CheckedTables,
    context: &mut EvalCtxt<'_>,
    clauses: &mut Vec<Clause>,
    records: &mut Records,
    predicate: P,
    variable: Option<u32>,
) -> Result<Answer, Ending> {
    let alloc = *clauses.allocator();
    let goal = Goal {
        param_env: mem::replace(clauses, Vec::new(alloc)),
        predicate,
    };
    let answer = goal_answer(tables, context, records, &goal, variable);
    *clauses = goal.param_env;
    answer
}

/// The answer to a goal: it is checked first.
fn goal_answer<P: Question>(
    tables: &CheckedTables,
    context: &mut EvalCtxt<'_>,
    records: &mut Records,
    goal: &Goal<P>,
    variable: Option<u32>,
) -> Result<Answer, Ending> {
    if let Err(fault) = check_goal(tables, context, goal) {
        return Ok(Answer::Refused(Refusal::Goal(fault)));
    }
    let evaluated = match P::evaluated(context, goal) {
        // What was refused may be granted now, and the context is as before.
        Err(Fault::OutOfMemory) => P::evaluated(context, goal),
        evaluated => evaluated,
    };
    if let Ok(response) = &evaluated {
        records.keep_response(response, variable)?;
    }
    match answer_of(evaluated, variable) {
        Ok(answer) => Ok(answer),
        Err(OutOfMemory) => Err(Ending::OutOfMemory),
    }
}

/// What a context evaluates.
trait Question: PredicateTerms + Drop + Sized {
    /// What a goal with this predicate comes to.
    fn evaluated(context: &mut EvalCtxt<'_>, goal: &Goal<Self>) -> Result<Response, Fault>;
}

impl Question for TraitPredicate {
    fn evaluated(context: &mut EvalCtxt<'_>, goal: &Goal<Self>) -> Result<Response, Fault> {
        context.compute_trait_goal(goal)
    }
}

impl Question for HostEffectPredicate {
    fn evaluated(context: &mut EvalCtxt<'_>, goal: &Goal<Self>) -> Result<Response, Fault> {
        context.compute_host_effect_goal(goal)
    }
}

impl Question for ProjectionPredicate {
    fn evaluated(context: &mut EvalCtxt<'_>, goal: &Goal<Self>) -> Result<Response, Fault> {
        context.compute_projection_goal(goal)
    }
}

impl Question for NormalizesTo {
    fn evaluated(context: &mut EvalCtxt<'_>, goal: &Goal<Self>) -> Result<Response, Fault> {
        context.compute_normalizes_to_goal(goal)
    }
}
