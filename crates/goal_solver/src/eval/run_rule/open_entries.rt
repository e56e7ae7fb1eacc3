//! The steps of a list of entries with inference variables.
ghost use Rattle.std.specs.Prelude.{◌≡◌, ◌∷◌, false, [], IfOk, IfErr, OnOk, IsOkUnless, option_map};
ghost use Rattle.std.specs.Option.{option_copied};
ghost use Rattle.goal_terms.specs.Folding.{instance};
ghost use Rattle.goal_terms.specs.PredicateTrees.{tree_of_kind};
ghost use Rattle.goal_terms.specs.TreeOf.{trees_of, tree_of_term};
ghost use Rattle.goal_lists.specs.RowWords.{clauses_in, conditions_in, value_in};
ghost use Rattle.goal_lists.specs.declared.lists.RowValue.TheVariants as of_row;
ghost use Rattle.goal_terms.specs.declared.answers.Certainty.{Certainty as certain};
ghost use Rattle.goal_solver.specs.Accesses.{RecordsCausedFaults};
ghost use Rattle.goal_solver.specs.GoingBack.{GoesBack};
ghost use Rattle.goal_solver.specs.OpenRuns.{open_progress, named_trees, clauses_with, conditions_with, source_of, AddsGoals, AddsRow, evaluates, is_chosen, Equates, Evaluates, GivesForm, GivesTerm, GivesValue, ReadsMode, Steps, args_at, AddsRowConditions};
ghost use Rattle.goal_solver.specs.Refusals.{WhenRefused, RefusesEqual, RefusesPending, RefusesForm, RefusesValue, RefusesTerm, StepRefused};
ghost use Rattle.goal_solver.specs.Relating.{IsFaultFor};
ghost use Rattle.goal_solver.specs.RunRules.{AreListed};

use crate::context::EvalCtxt;
use crate::eval::run_rule::interned::{clauses_of, conditions_of};
use crate::eval::run_rule::open_arguments::{OpenRun, args_of_number};
use crate::eval::where_goals::predicate_of;
use crate::faults::Fault;
use goal_kinds::rules::{ArgsIndex, RowClauses, RowValue, RuleEntry, RuleTerm};
use goal_tables::lookup::IndexedTables;
use goal_tables::rows::DefValue;
use goal_terms::answers::{Certainty, GoalSource, OpaqueAccess};
use goal_terms::ids::{DefId, FreeId, ImplId, InherentId, OpaqueId};
use goal_terms::instantiate::instantiate;
use goal_terms::predicates::{
    BoundConstness, Clause, ClauseKind, Goal, HostEffectPredicate, TraitRef,
};
use goal_terms::terms::{GenericArg, Term, Ty};
use std::alloc::{AllocError, Global};

impl EvalCtxt<'_> {
    #[tactic(auto, using(crate::proofs::RecordedLemmas::stepping))]
    /// Takes the step of an entry of a list with inference variables, if it evaluates no goal. Where it is
    /// refused, some of it may stay.
    pub(crate) fn step_through(
        &mut self,
        environment: &[Clause],
        run: &mut OpenRun,
        entry: &RuleEntry,
    ) -> Result<(), Fault>
        requires other { evaluates entry.now ≡ false }
        ensures steps { OnOk result (Steps environment.now entry.now self.old (open_progress run.old) self.new (open_progress run.new)) }
        ensures refused { WhenRefused result (StepRefused environment.now entry.now self.old (open_progress run.old) self.new) }
        ensures listed { AreListed (entry.now ∷ []) self.old self.new }
        ensures goes_back { GoesBack self.old self.new }
        ensures fault { IsFaultFor self.old self.new result }
    {
        match entry {
            RuleEntry::Equation(left, right) => {
                let certainty = self.equate_args(environment, left, right)?;
                Ok(run.join(certainty))
            }
            RuleEntry::Clause(source, clause) => {
                self.ask_clause(environment, *source, clause)?;
                Ok(run.join(Certainty::Yes))
            }
            RuleEntry::RowClauses(row, number) => {
                let certainty = self.ask_row(environment, &run.named, *row, *number)?;
                Ok(run.join(certainty))
            }
            RuleEntry::HiddenType(expected, key, first) => {
                let certainty = self.define_hidden_type(environment, expected, key, *first)?;
                Ok(run.join(certainty))
            }
            RuleEntry::Access(access) => {
                let certainty = self.read_open(*access)?;
                Ok(run.join(certainty))
            }
            RuleEntry::DelayedFault(fault) => self.record_fault(*fault),
            RuleEntry::Evaluation | RuleEntry::Term(_, _) | RuleEntry::Arguments(_) => {
                unreachable!()
            }
            RuleEntry::RowConditions(constness, row, number) => {
                let named = run.named.as_slice();
                let certainty = self.ask_row_conditions(
                    environment,
                    named,
                    *constness,
                    *row,
                    *number,
                )?;
                Ok(run.join(certainty))
            }
            RuleEntry::Ambiguous | RuleEntry::Undecided => Ok(run.join(Certainty::Maybe)),
            RuleEntry::Refused => Err(Fault::NoSolution),
        }
    }

    /// Evaluates the goals that are pending, as `try_evaluate_added_goals` does. Those that are undecided stay
    /// pending.
    #[cycle(open)]
    pub(crate) fn evaluate_pending(&mut self) -> Result<(), Fault>
        ensures evaluates { OnOk result ((c : certain) × Evaluates self.old self.new c) }
        ensures refused { WhenRefused result (RefusesPending self.old self.new) }
        ensures faults { RecordsCausedFaults self.old self.new }
        ensures goes_back { GoesBack self.old self.new }
        ensures fault { IsFaultFor self.old self.new result }
    {
        self.try_evaluate_added_goals()?;
        Ok(())
    }

    /// Records that the mode is read, as `read_mode` does. Where the run would be stopped, it is undecided, or
    /// the goal is to be run again.
    fn read_open(&mut self, access: OpaqueAccess) -> Result<Certainty, Fault>
        ensures reads { IfOk result (λ c. ReadsMode access self.old c self.new) }
        ensures never { WhenRefused result ⊥ }
        ensures faults { RecordsCausedFaults self.old self.new }
        ensures goes_back { GoesBack self.old self.new }
        ensures fault { IsFaultFor self.old self.new result }
    {
        match self.read_mode(access) {
            Ok(()) => Ok(Certainty::Yes),
            Err(stop) => self.undecided_by(stop),
        }
    }

    /// Adds the goal for a clause as it stands. Only memory is refused; then nothing is added.
    fn ask_clause(
        &mut self,
        environment: &[Clause],
        source: GoalSource,
        clause: &ClauseKind,
    ) -> Result<(), Fault>
        ensures added { OnOk result (AddsGoals source environment.now (tree_of_kind clause.now ∷ []) self.old self.new) }
        ensures faults { RecordsCausedFaults self.old self.new }
        ensures goes_back { GoesBack self.old self.new }
        ensures only_memory { IsOkUnless result Fault.OutOfMemory }
    {
        let Ok(kind) = clause.clone() else {
            return Err(Fault::OutOfMemory);
        };
        self.ask_kind(environment, source, kind)
    }

    /// Adds the goal for what a clause says. Only memory is refused; then nothing is added.
    fn ask_kind(
        &mut self,
        environment: &[Clause],
        source: GoalSource,
        kind: ClauseKind,
    ) -> Result<(), Fault>
        ensures added { OnOk result (AddsGoals source environment.now (tree_of_kind kind ∷ []) self.old self.new) }
        ensures faults { RecordsCausedFaults self.old self.new }
        ensures goes_back { GoesBack self.old self.new }
        ensures only_memory { IsOkUnless result Fault.OutOfMemory }
    {
        let Ok(param_env) = environment.to_vec(self.allocator()) else {
            return Err(Fault::OutOfMemory);
        };
        self.add_goal(
            source,
            Goal {
                param_env,
                predicate: predicate_of(kind),
            },
        )
    }

    /// Adds goals for the clauses of a row, under the arguments of a number. Where the row or the arguments are
    /// missing, nothing is added. Only memory is refused; then some of them may stay.
    fn ask_row(
        &mut self,
        environment: &[Clause],
        named: &[Vec<GenericArg>],
        row: RowClauses,
        number: ArgsIndex,
    ) -> Result<Certainty, Fault>
        ensures added { IfOk result (λ c. AddsRow clauses_with (source_of row) environment.now (clauses_in self.old.tables row) (args_at named.now number) self.old c self.new) }
        ensures faults { RecordsCausedFaults self.old self.new }
        ensures goes_back { GoesBack self.old self.new }
        ensures only_memory { IfErr result (λ f. f ≡ Fault.OutOfMemory) }
    {
        let tables = self.tables();
        let Some(clauses) = clauses_of(tables.rows(), row) else {
            return Ok(Certainty::Maybe);
        };
        let Some(args) = args_of_number(named, number) else {
            return Ok(Certainty::Maybe);
        };
        self.ask_clauses(environment, source_of(row), clauses, args)?;
        Ok(Certainty::Yes)
    }

    /// Adds a goal for each of some clauses under arguments, in order. Only memory is refused; then some of them
    /// may stay.
    pub(crate) fn ask_clauses(
        &mut self,
        environment: &[Clause],
        source: GoalSource,
        clauses: &[Clause],
        args: &[GenericArg],
    ) -> Result<(), Fault>
        ensures added { OnOk result (AddsGoals source environment.now (clauses_with (trees_of args.now) clauses.now) self.old self.new) }
        ensures faults { RecordsCausedFaults self.old self.new }
        ensures goes_back { GoesBack self.old self.new }
        ensures only_memory { IsOkUnless result Fault.OutOfMemory }
    {
        for clause in clauses {
            let Ok(kind) = instantiate(self.allocator(), &clause.kind, args) else {
                return Err(Fault::OutOfMemory);
            };
            self.ask_kind(environment, source, kind)?;
        }
        Ok(())
    }

    /// Adds goals for the const conditions of an impl, of a constness and under the arguments of a number. Where the
    /// row or the arguments are missing, nothing is added. Only memory is refused; then some of them may stay.
    fn ask_row_conditions(
        &mut self,
        environment: &[Clause],
        named: &[Vec<GenericArg>],
        constness: BoundConstness,
        row: ImplId,
        number: ArgsIndex,
    ) -> Result<Certainty, Fault>
        ensures added { IfOk result (λ c. AddsRowConditions constness environment.now (conditions_in self.old.tables row) (args_at named.now number) self.old c self.new) }
        ensures faults { RecordsCausedFaults self.old self.new }
        ensures goes_back { GoesBack self.old self.new }
        ensures only_memory { IfErr result (λ f. f ≡ Fault.OutOfMemory) }
    {
        let tables = self.tables();
        let Some(conditions) = conditions_of(tables.rows(), row) else {
            return Ok(Certainty::Maybe);
        };
        let Some(args) = args_of_number(named, number) else {
            return Ok(Certainty::Maybe);
        };
        self.ask_conditions(environment, constness, conditions, args)?;
        Ok(Certainty::Yes)
    }

    /// Adds a goal for each of some const conditions under arguments, in order. Only memory is refused; then some of
    /// them may stay.
    fn ask_conditions(
        &mut self,
        environment: &[Clause],
        constness: BoundConstness,
        conditions: &[TraitRef],
        args: &[GenericArg],
    ) -> Result<(), Fault>
        ensures added { OnOk result (AddsGoals GoalSource.ImplWhereBound environment.now (conditions_with constness (trees_of args.now) conditions.now) self.old self.new) }
        ensures faults { RecordsCausedFaults self.old self.new }
        ensures goes_back { GoesBack self.old self.new }
        ensures only_memory { IsOkUnless result Fault.OutOfMemory }
    {
        for condition in conditions {
            let Ok(trait_ref) = instantiate(self.allocator(), condition, args) else {
                return Err(Fault::OutOfMemory);
            };
            let asked = ClauseKind::HostEffect(HostEffectPredicate {
                trait_ref,
                constness,
            });
            self.ask_kind(environment, GoalSource::ImplWhereBound, asked)?;
        }
        Ok(())
    }

    /// Gives an expected term what an entry says, if no clause chooses it.
    pub(crate) fn give_open(
        &mut self,
        environment: &[Clause],
        named: &[Vec<GenericArg>],
        expected: &Term,
        term: &RuleTerm,
    ) -> Result<Certainty, Fault>
        requires other { is_chosen term.now ≡ false }
        ensures gives { IfOk result (λ c. GivesTerm environment.now (named_trees named.now) (tree_of_term expected.now) term.now self.old c self.new) }
        ensures refused { WhenRefused result (RefusesTerm environment.now (named_trees named.now) (tree_of_term expected.now) term.now self.old self.new) }
        ensures faults { RecordsCausedFaults self.old self.new }
        ensures goes_back { GoesBack self.old self.new }
        ensures fault { IsFaultFor self.old self.new result }
    {
        match term {
            RuleTerm::AsItStands(term) => self.equate_terms(environment, expected, term),
            RuleTerm::Normalized(term) => self.give_form(environment, expected, term),
            RuleTerm::Value(value, number) => {
                self.give_value(environment, named, expected, *value, *number)
            }
            RuleTerm::ChosenBy(_, _, _) => unreachable!(),
        }
    }

    /// Gives an expected term the head form of a row's value, under the arguments of a number. Where the value or
    /// the arguments are missing, nothing is done.
    fn give_value(
        &mut self,
        environment: &[Clause],
        named: &[Vec<GenericArg>],
        expected: &Term,
        value: RowValue,
        number: ArgsIndex,
    ) -> Result<Certainty, Fault>
        ensures gives { IfOk result (λ c. GivesValue environment.now (tree_of_term expected.now) (value_in self.old.tables value) (args_at named.now number) self.old c self.new) }
        ensures refused { WhenRefused result (RefusesValue environment.now (tree_of_term expected.now) (value_in self.old.tables value) (args_at named.now number) self.old self.new) }
        ensures faults { RecordsCausedFaults self.old self.new }
        ensures goes_back { GoesBack self.old self.new }
        ensures fault { IsFaultFor self.old self.new result }
    {
        let Some(args) = args_of_number(named, number) else {
            return Ok(Certainty::Maybe);
        };
        let tables = self.tables();
        let Ok(found) = value_under(self.allocator(), tables.rows(), value, args) else {
            return Err(Fault::OutOfMemory);
        };
        match found {
            Some(term) => self.give_form(environment, expected, &term),
            None => Ok(Certainty::Maybe),
        }
    }

    /// Gives an expected term the head form of a term, bindings followed: the goal is added that the alias which it
    /// stands for normalizes to the expected term, and any other term is made equal to that.
    fn give_form(
        &mut self,
        environment: &[Clause],
        expected: &Term,
        term: &Term,
    ) -> Result<Certainty, Fault>
        ensures gives { IfOk result (λ c. GivesForm environment.now (tree_of_term expected.now) (tree_of_term term.now) self.old c self.new) }
        ensures refused { WhenRefused result (RefusesForm environment.now (tree_of_term expected.now) (tree_of_term term.now) self.old self.new) }
        ensures faults { RecordsCausedFaults self.old self.new }
        ensures goes_back { GoesBack self.old self.new }
        ensures fault { IsFaultFor self.old self.new result }
    {
        match self.resolved_alias(term)? {
            Some(alias) => {
                self.add_normalization(environment, alias, expected)?;
                Ok(Certainty::Yes)
            }
            None => self.equate_terms(environment, expected, term),
        }
    }

    /// Makes two terms equal, as `eq` does.
    pub(crate) fn equate_terms(
        &mut self,
        environment: &[Clause],
        left: &Term,
        right: &Term,
    ) -> Result<Certainty, Fault>
        ensures equates { IfOk result (Equates environment.now (tree_of_term left.now ∷ []) (tree_of_term right.now ∷ []) self.old self.new) }
        ensures refused { WhenRefused result (RefusesEqual environment.now (tree_of_term left.now ∷ []) (tree_of_term right.now ∷ []) self.old self.new) }
        ensures faults { RecordsCausedFaults self.old self.new }
        ensures goes_back { GoesBack self.old self.new }
        ensures fault { IsFaultFor self.old self.new result }
    {
        self.eq(environment, left, right)
    }
}

/// What a row's clauses are asked for.
fn source_of(row: RowClauses) -> GoalSource
    ensures { result ≡ source_of row }
{
    match row {
        RowClauses::Impl(_) => GoalSource::ImplWhereBound,
        RowClauses::Item(_) => GoalSource::AliasWellFormed,
        RowClauses::Free(_) | RowClauses::Inherent(_) => GoalSource::Misc,
    }
}

/// The value of a row under arguments, if it has one.
fn value_under(
    alloc: Global,
    rows: &IndexedTables,
    value: RowValue,
    args: &[GenericArg],
) -> Result<Option<Term>, AllocError>
    ensures { IfOk result (λ o. option_map tree_of_term o ≡ option_map (instance (trees_of args.now)) (value_in rows.now value)) }
{
    match value {
        RowValue::Definition(id) => term_under(alloc, defined_term(rows, id), args),
        RowValue::Free(id) => term_under(alloc, normalize_free_alias(rows, id), args),
        RowValue::Inherent(id) => term_under(
            alloc,
            normalize_inherent_associated_term(rows, id),
            args,
        ),
        RowValue::Opaque(id) => hidden_under(alloc, rows, id, args),
    }
}

/// The term of a definition, if it has one that is no constant to be evaluated.
fn defined_term(rows: &IndexedTables, id: DefId) -> Option<&Term>
    ensures { option_map tree_of_term (option_copied result) ≡ value_in rows.now (of_row.Definition id) }
{
    match &rows.definition_row(id)?.value {
        DefValue::Term(term) => Some(term),
        DefValue::Missing | DefValue::Evaluated => None,
    }
}

/// The value of a free alias, if it has one.
fn normalize_free_alias(rows: &IndexedTables, id: FreeId) -> Option<&Term>
    ensures { option_map tree_of_term (option_copied result) ≡ value_in rows.now (of_row.Free id) }
{
    rows.free_row(id)?.value.as_ref()
}

/// The value of an inherent alias, if it has one.
fn normalize_inherent_associated_term(rows: &IndexedTables, id: InherentId) -> Option<&Term>
    ensures { option_map tree_of_term (option_copied result) ≡ value_in rows.now (of_row.Inherent id) }
{
    rows.inherent_row(id)?.value.as_ref()
}

/// A term under arguments, if there is one.
fn term_under(
    alloc: Global,
    term: Option<&Term>,
    args: &[GenericArg],
) -> Result<Option<Term>, AllocError>
    ensures { IfOk result (λ o. option_map tree_of_term o ≡ option_map (instance (trees_of args.now)) (option_map tree_of_term (option_copied term.entry))) }
{
    let Some(term) = term else {
        return Ok(None);
    };
    let made = instantiate(alloc, term, args)?;
    Ok(Some(made))
}

#[tactic(auto, using(goal_terms::proofs::TreeLemmas::tree_equations))]
/// The hidden type of an opaque type under arguments.
fn hidden_under(
    alloc: Global,
    rows: &IndexedTables,
    id: OpaqueId,
    args: &[GenericArg],
) -> Result<Option<Term>, AllocError>
    ensures { IfOk result (λ o. option_map tree_of_term o ≡ option_map (instance (trees_of args.now)) (value_in rows.now (of_row.Opaque id))) }
{
    let Some(row) = rows.opaque_row(id) else {
        return Ok(None);
    };
    let made = instantiate(alloc, &row.hidden, args)?;
    Ok(Some(Term::Ty(made)))
}
