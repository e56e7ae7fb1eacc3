//! The questions of the rows, one function a kind.
ghost use Rattle.std.specs.Prelude.{◌≡◌, ◌↔◌, Ok, Err};

use crate::answer::{Answer, Refusal};
use crate::faults::RowsFault;
use goal_checks::checked::{CheckedTables, check_tables};
use goal_program::asked_terms::{AskedAlias, AskedType};
use goal_program::names::TR;
use goal_program::settings::{Environment, Mode};
use goal_program::tables::tables_with_projection_impl;
use goal_program::types::{trait_ref, two_types};
use goal_solver::context::EvalCtxt;
use goal_solver::eval::goals::check_goal;
use goal_solver::faults::Fault;
use goal_tables::faults::TableFault;
use goal_terms::answers::{Certainty, Response};
use goal_terms::predicates::{
    BoundConstness, Goal, HostEffectPredicate, NormalizesTo, ProjectionPredicate, TraitPredicate,
    TraitRef,
};
use goal_terms::scalars::UintTy;
use goal_terms::terms::{AliasTermKind, Term, Ty};
use std::alloc::Global;

/// What a row asks.
#[derive(Clone, Copy)]
pub enum Asked {
    /// What an alias stands for.
    Term(AskedAlias),
    /// How many faults were delayed once it was asked what an alias stands for.
    DelayedFaults(AskedAlias),
    /// How many opaque accesses were recorded then.
    Accesses(AskedAlias),
    /// Whether an alias and a type are equal.
    Equal(AskedAlias, AskedType),
    /// Whether `TYPE: Tr` holds.
    Holds(AskedType),
    /// Whether `TYPE: const Tr` holds.
    HoldsConst(AskedType),
    /// Whether `TYPE: [const] Tr` holds.
    HoldsMaybeConst(AskedType),
    /// Whether a goal of `Tr` with a type and `u8` for its arguments is taken.
    TwoArguments(AskedType),
    /// Whether the limit on the depth is taken.
    Limit,
    /// Whether the tables are accepted with an impl for a projection.
    ProjectionImpl,
}

/// What is asked, under which clauses, in which phase of checking, and with which limit on the depth.
#[derive(Clone, Copy)]
pub struct Question {
    pub asked: Asked,
    pub environment: Environment,
    pub mode: Mode,
    pub limit: u32,
}

/// A context, and the clauses under which it is asked.
#[derive(Drop)]
struct Asker<'t> {
    alloc: Global,
    tables: &'t CheckedTables,
    context: EvalCtxt<'t>,
    environment: Environment,
}

/// The answer to a question, over the tables of the program.
pub fn ask(alloc: Global, tables: &CheckedTables, question: Question) -> Result<Answer, RowsFault> {
    let mode = question.mode.typing_mode(alloc);
    let stops = question.mode.stops_on_rerun();
    let context = match EvalCtxt::new(tables, mode, question.limit, stops) {
        Ok(context) => context,
        Err(fault) => return Ok(Answer::Refused(Refusal::Depth(fault))),
    };
    let mut asker = Asker {
        alloc,
        tables,
        context,
        environment: question.environment,
    };
    asker.answer(question.asked)
}

impl Asker<'_> {
    /// The answer to what a row asks.
    fn answer(&mut self, asked: Asked) -> Result<Answer, RowsFault> {
        match asked {
            Asked::Term(alias) => self.ask_term(alias),
            Asked::DelayedFaults(alias) => self.ask_delayed_faults(alias),
            Asked::Accesses(alias) => self.ask_accesses(alias),
            Asked::Equal(alias, ty) => self.ask_equation(alias, ty),
            Asked::Holds(ty) => self.ask_trait(ty),
            Asked::HoldsConst(ty) => self.ask_const(ty, BoundConstness::Const),
            Asked::HoldsMaybeConst(ty) => self.ask_const(ty, BoundConstness::Maybe),
            Asked::TwoArguments(ty) => self.ask_two_arguments(ty),
            Asked::Limit => Ok(Answer::Yes(None)),
            Asked::ProjectionImpl => ask_projection_impl(self.alloc),
        }
    }

    /// What an alias stands for.
    fn ask_term(&mut self, asked: AskedAlias) -> Result<Answer, RowsFault> {
        let alias = asked.alias(self.alloc)?;
        let term = self.expected_term(alias.kind)?;
        let goal = self.goal(NormalizesTo { alias, term })?;
        if let Err(fault) = check_goal(self.tables, &self.context, &goal) {
            return Ok(Answer::Refused(Refusal::Goal(fault)));
        }
        answer_of(self.context.compute_normalizes_to_goal(&goal))
    }

    /// How many faults are delayed once it was asked what an alias stands for.
    fn ask_delayed_faults(&mut self, asked: AskedAlias) -> Result<Answer, RowsFault> {
        let _ = self.ask_term(asked)?;
        Ok(Answer::Faults(self.context.delayed_faults().len()))
    }

    /// How many opaque accesses are recorded once it was asked what an alias stands for.
    fn ask_accesses(&mut self, asked: AskedAlias) -> Result<Answer, RowsFault> {
        let _ = self.ask_term(asked)?;
        Ok(Answer::Accesses(self.context.opaque_accesses().len()))
    }

    /// Whether an alias and a type are equal.
    fn ask_equation(&mut self, asked: AskedAlias, ty: AskedType) -> Result<Answer, RowsFault> {
        let goal = self.goal(ProjectionPredicate {
            projection_term: asked.alias(self.alloc)?,
            term: Term::Ty(ty.ty(self.alloc)?),
        })?;
        if let Err(fault) = check_goal(self.tables, &self.context, &goal) {
            return Ok(Answer::Refused(Refusal::Goal(fault)));
        }
        answer_of(self.context.compute_projection_goal(&goal))
    }

    /// Whether `TYPE: Tr` holds.
    fn ask_trait(&mut self, asked: AskedType) -> Result<Answer, RowsFault> {
        let ty = asked.ty(self.alloc)?;
        self.ask_trait_ref(trait_ref(self.alloc, ty, TR)?)
    }

    /// Whether a goal of `Tr` with a type and `u8` for its arguments is taken.
    fn ask_two_arguments(&mut self, asked: AskedType) -> Result<Answer, RowsFault> {
        let ty = asked.ty(self.alloc)?;
        self.ask_trait_ref(TraitRef {
            def_id: TR,
            args: two_types(self.alloc, ty, Ty::Uint(UintTy::U8))?,
        })
    }

    fn ask_trait_ref(&mut self, trait_ref: TraitRef) -> Result<Answer, RowsFault> {
        let goal = self.goal(TraitPredicate { trait_ref })?;
        if let Err(fault) = check_goal(self.tables, &self.context, &goal) {
            return Ok(Answer::Refused(Refusal::Goal(fault)));
        }
        answer_of(self.context.compute_trait_goal(&goal))
    }

    /// Whether `TYPE: Tr` holds as a const trait.
    fn ask_const(
        &mut self,
        asked: AskedType,
        constness: BoundConstness,
    ) -> Result<Answer, RowsFault> {
        let ty = asked.ty(self.alloc)?;
        let goal = self.goal(HostEffectPredicate {
            trait_ref: trait_ref(self.alloc, ty, TR)?,
            constness,
        })?;
        if let Err(fault) = check_goal(self.tables, &self.context, &goal) {
            return Ok(Answer::Refused(Refusal::Goal(fault)));
        }
        answer_of(self.context.compute_host_effect_goal(&goal))
    }

    /// A predicate under the clauses that are assumed.
    fn goal<P: Drop>(&self, predicate: P) -> Result<Goal<P>, RowsFault> {
        Ok(Goal {
            param_env: self.environment.clauses(self.alloc)?,
            predicate,
        })
    }

    /// A fresh variable for what an alias stands for, a type or a constant.
    fn expected_term(&mut self, kind: AliasTermKind) -> Result<Term, RowsFault> {
        if kind.is_type() {
            match self.context.next_ty_infer() {
                Ok(ty) => Ok(Term::Ty(ty)),
                Err(_) => Err(RowsFault::OutOfMemory),
            }
        } else {
            match self.context.next_const_infer() {
                Ok(value) => Ok(Term::Const(value)),
                Err(_) => Err(RowsFault::OutOfMemory),
            }
        }
    }
}

/// Whether the tables are accepted with an impl for a projection.
fn ask_projection_impl(alloc: Global) -> Result<Answer, RowsFault> {
    match check_tables(tables_with_projection_impl(alloc)?) {
        Ok(_) => Ok(Answer::Yes(None)),
        Err(TableFault::OutOfMemory) => Err(RowsFault::OutOfMemory),
        Err(fault) => Ok(Answer::Refused(Refusal::Tables(fault))),
    }
}

/// What is answered where a goal was evaluated. Want of memory is no answer.
fn answer_of(answered: Result<Response, Fault>) -> Result<Answer, RowsFault>
    ensures refuted { answered ≡ Err Fault.NoSolution → result ≡ Ok Answer.No }
    ensures memory { answered ≡ Err Fault.OutOfMemory → result ≡ Err RowsFault.OutOfMemory }
{
    match answered {
        Ok(response) => Ok(certain_answer(response)),
        Err(Fault::NoSolution) => Ok(Answer::No),
        Err(Fault::OutOfMemory) => Err(RowsFault::OutOfMemory),
        Err(fault) => Ok(Answer::Refused(Refusal::Run(fault))),
    }
}

/// What a response says.
fn certain_answer(response: Response) -> Answer
    ensures undecided { result ≡ Answer.Maybe ↔ (response.certainty ≡ Certainty.Maybe) }
{
    let mut values = response.var_values;
    match (response.certainty, values.pop()) {
        (Certainty::Maybe, _) => Answer::Maybe,
        (Certainty::Yes, None) => Answer::Yes(None),
        (Certainty::Yes, Some((_, term))) => Answer::Yes(Some(term)),
    }
}
