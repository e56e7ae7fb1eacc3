//! Terms that a clause chooses, in a list with inference variables.
ghost use Rattle.std.specs.Prelude.{◌≡◌, false, IfOk};
ghost use Rattle.goal_terms.specs.TreeOf.{tree_of_term};
ghost use Rattle.goal_solver.specs.Accesses.{RecordsCausedFaults};
ghost use Rattle.goal_solver.specs.AddedGoals.{AnswersGoal};
ghost use Rattle.goal_solver.specs.GoingBack.{GoesBack, restored};
ghost use Rattle.goal_solver.specs.OpenForms.{is_sure};
ghost use Rattle.goal_solver.specs.OpenRuns.{AnswersAlone, AsksFor, Chooses, GivesTerm, WhenAsked, named_trees};
ghost use Rattle.goal_solver.specs.Refusals.{WhenRefused, RefusesChoice, RefusesTerm};
ghost use Rattle.goal_solver.specs.Relating.{ChangesRecords, IsFaultFor};

use crate::context::EvalCtxt;
use crate::eval::added_evaluation::is_sure;
use crate::eval::where_goals::{copied_clauses, predicate_of};
use crate::faults::Fault;
use goal_kinds::rules::RuleTerm;
use goal_terms::answers::Certainty;
use goal_terms::predicates::{Clause, ClauseKind, Goal, Predicate};
use goal_terms::terms::{GenericArg, Term};
use std::alloc::{AllocError, Global};

impl EvalCtxt<'_> {
    /// Gives an expected term what an entry says.
    #[cycle(open)]
    pub(crate) fn give_term(
        &mut self,
        environment: &[Clause],
        named: &[Vec<GenericArg>],
        expected: &Term,
        term: &RuleTerm,
    ) -> Result<Certainty, Fault>
        ensures gives { IfOk result (λ c. GivesTerm environment.now (named_trees named.now) (tree_of_term expected.now) term.now self.old c self.new) }
        ensures refused { WhenRefused result (RefusesTerm environment.now (named_trees named.now) (tree_of_term expected.now) term.now self.old self.new) }
        ensures faults { RecordsCausedFaults self.old self.new }
        ensures goes_back { GoesBack self.old self.new }
        ensures fault { IsFaultFor self.old self.new result }
    {
        match term {
            RuleTerm::ChosenBy(clause, held, refuted) => {
                self.give_chosen(environment, expected, clause, held, refuted)
            }
            _ => self.give_open(environment, named, expected, term),
        }
    }

    /// Gives an expected term the one of two terms that a clause chooses: the first where the clause holds, the
    /// second where it is refuted. Where the clause is undecided the term is, and nothing is bound.
    #[cycle(open)]
    fn give_chosen(
        &mut self,
        environment: &[Clause],
        expected: &Term,
        clause: &ClauseKind,
        held: &Term,
        refuted: &Term,
    ) -> Result<Certainty, Fault>
        ensures chooses { IfOk result (λ c. Chooses environment.now (tree_of_term expected.now) clause.now (tree_of_term held.now) (tree_of_term refuted.now) self.old c self.new) }
        ensures refused { WhenRefused result (RefusesChoice environment.now (tree_of_term expected.now) clause.now (tree_of_term held.now) (tree_of_term refuted.now) self.old self.new) }
        ensures faults { RecordsCausedFaults self.old self.new }
        ensures goes_back { GoesBack self.old self.new }
        ensures fault { IsFaultFor self.old self.new result }
    {
        match self.ask_alone(environment, clause) {
            Ok(Certainty::Yes) => self.equate_terms(environment, expected, held),
            Ok(Certainty::Maybe) => Ok(Certainty::Maybe),
            Err(Fault::NoSolution) => self.equate_terms(environment, expected, refuted),
            Err(fault) => Err(fault),
        }
    }

    /// What a clause comes to as a goal by itself, at the remaining depth. What it binds stays where it holds; else
    /// nothing does.
    #[cycle(open)]
    fn ask_alone(&mut self, environment: &[Clause], clause: &ClauseKind) -> Result<Certainty, Fault>
        ensures answers { WhenAsked result (AnswersAlone environment.now clause.now self.old self.new result) }
        ensures faults { RecordsCausedFaults self.old self.new }
        ensures goes_back { GoesBack self.old self.new }
        ensures fault { IsFaultFor self.old self.new result }
    {
        let Ok(goal) = goal_of_clause(self.allocator(), environment, clause) else {
            return Err(Fault::OutOfMemory);
        };
        self.ask_goal(&goal)
    }

    /// What a goal by itself comes to, at the remaining depth. What it binds stays where it holds; else nothing does.
    #[cycle(open)]
    fn ask_goal(&mut self, goal: &Goal<Predicate>) -> Result<Certainty, Fault>
        ensures answer { AnswersGoal self.old self.new goal.now result }
        ensures unchanged { is_sure result ≡ false → self.new ≡ restored self.old self.new }
        ensures alone { ChangesRecords self.old self.new }
        ensures faults { RecordsCausedFaults self.old self.new }
        ensures goes_back { GoesBack self.old self.new }
        ensures fault { IsFaultFor self.old self.new result }
    {
        self.holds_together();
        let before = self.snapshot();
        let answered = self.evaluate_goal(goal);
        if !is_sure(&answered) {
            self.rollback(before);
        }
        answered
    }
}

/// The goal that asks in an environment what a clause says.
fn goal_of_clause(
    alloc: Global,
    environment: &[Clause],
    clause: &ClauseKind,
) -> Result<Goal<Predicate>, AllocError>
    ensures { IfOk result (AsksFor environment.now clause.now) }
{
    let param_env = copied_clauses(alloc, environment)?;
    let kind = clause.clone()?;
    let predicate = predicate_of(kind);
    Ok(Goal {
        param_env,
        predicate,
    })
}
