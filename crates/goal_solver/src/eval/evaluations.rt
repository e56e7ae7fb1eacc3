//! Goals, handed to the evaluation by the numbers of their terms.
ghost use Rattle.std.specs.Prelude.{◌≡◌, ◌⊎◌, IfOk, IfErr};
ghost use Rattle.goal_interner.specs.TableMeaning.{Keeps};
ghost use Rattle.goal_terms.specs.declared.modes.TypingMode.{TypingMode};
ghost use Rattle.goal_solver.specs.Accesses.{RecordsCaused, EndsFor, RecordsCausedFaults};
ghost use Rattle.goal_eval.specs.ErasedArgs.{erased_args};
ghost use Rattle.goal_solver.specs.Answers.{IsOwed};
ghost use Rattle.goal_lists.specs.Interned.{AreIn, PredicateIn, erased_all, predicate_at};
ghost use Rattle.goal_solver.specs.Evaluations.{SaysOf, SaysTermAt, StopsForMemory, predicate_seen, SaysTraitAt, level_at, SaysAliasTerm};
ghost use Rattle.goal_solver.specs.GoingBack.{GoesBack, restored};
ghost use Rattle.goal_eval.specs.Outcomes.{FoundIn};
ghost use Rattle.goal_solver.specs.Promises.{WhereOwed};

use crate::context::EvalCtxt;
use crate::eval::predicate_views::{PredicateView, intern_predicate};
use crate::eval::questions::Question;
use goal_eval::eval::effects::Effects;
use goal_eval::eval::interning::intern_args;
use goal_eval::eval::outcomes::{Found, Setting, Stop};
use goal_eval::eval::premises::predicate_outcome;
use goal_eval::eval::region_constraints::RegionConstraints;
use goal_eval::normalizes_to::alias_terms::alias_term;
use goal_eval::trait_goals::evaluation::evaluate_trait_goal;
use goal_interner::term_nodes::TermId;
use goal_interner::term_table::TermTable;
use goal_kinds::goal_kind::TraitView;
use goal_lists::candidates::interned::InternedPredicate;
use goal_lists::outcomes::{Outcome, TraitOutcome};
use goal_terms::ids::TraitId;
use goal_terms::predicates::Clause;
use goal_terms::terms::{AliasTerm, AliasTermKind, GenericArg};

/// Through which class a trait goal holds.
impl Question for TraitView<'_> {
    ghost use Rattle.goal_lists.specs.Levels.{level};
    ghost use Rattle.goal_eval.specs.ErasedArgs.{erased_args};
    ghost use Rattle.goal_eval.specs.Outcomes.{SaysTrait};

    type Answer = TraitOutcome;

    const LISTS_REGIONS: bool = true;

    ghost can_ask = { λ T q. Unit {0} };

    ghost within = { λ T o. Unit {0} };

    ghost says = { λ S n T q U o. SaysTrait (level S n) q.def_id (erased_args q.args.now) o };

    ghost ends_for_memory = { λ T q. ⊥ };

    fn ask(
        &self,
        setting: &Setting<'_>,
        terms: &mut TermTable,
        effects: &mut Effects,
        depth: u32,
    ) -> Result<TraitOutcome, Stop> {
        let ids = intern_args(setting.allocator(), terms, self.args)?;
        evaluate_trait_goal(setting, terms, effects, self.def_id, &ids, depth)
    }

    ghost asked_again = { λ T U q k h. tt };

    ghost said_before = { λ S n T U V q o k h says. says };

    ghost ends_so_again = { λ T U q k h never. never };
}

/// Whether a predicate holds.
impl Question for InternedPredicate {
    ghost use Rattle.goal_lists.specs.Levels.{level};
    ghost use Rattle.goal_eval.specs.Outcomes.{SaysHolds};
    ghost use Rattle.goal_solver.specs.Questions.{predicate-before};
    ghost use Rattle.goal_lists.proofs.InternedLemmas.{predicate_in-grown};

    type Answer = Outcome;

    const LISTS_REGIONS: bool = true;

    ghost can_ask = { PredicateIn };

    ghost within = { λ T o. Unit {0} };

    ghost says = { λ S n T p U o. SaysHolds (level S n) (predicate_at T p) o };

    ghost ends_for_memory = { λ T p. ⊥ };

    fn ask(
        &self,
        setting: &Setting<'_>,
        terms: &mut TermTable,
        effects: &mut Effects,
        depth: u32,
    ) -> Result<Outcome, Stop> {
        predicate_outcome(setting, terms, effects, self, depth)
    }

    ghost asked_again = { λ T U p k h. predicate_in-grown T U k p h };

    ghost said_before = { predicate-before };

    ghost ends_so_again = { λ T U q k h never. never };
}

/// An alias without inference variables, by the numbers of its arguments.
#[derive(Clone, Copy)]
struct AskedAlias<'a> {
    kind: AliasTermKind,
    args: &'a [TermId],
}

/// Which term the alias has.
impl Question for AskedAlias<'_> {
    ghost use Rattle.goal_lists.specs.Interned.{AreIn, erased_all};
    ghost use Rattle.goal_lists.specs.Levels.{level};
    ghost use Rattle.goal_lists.proofs.InternedLemmas.{are_in-grown};
    ghost use Rattle.goal_eval.specs.Outcomes.{FoundIn, SaysAlias};
    ghost use Rattle.goal_solver.specs.Questions.{before-all};

    type Answer = Found;

    const LISTS_REGIONS: bool = true;

    ghost can_ask = { λ T q. AreIn T q.args.now };

    ghost within = { FoundIn };

    ghost says = { λ S n T q U o. SaysAlias (level S n) q.kind (erased_all T q.args.now) U o };

    ghost ends_for_memory = { λ T q. ⊥ };

    fn ask(
        &self,
        setting: &Setting<'_>,
        terms: &mut TermTable,
        effects: &mut Effects,
        depth: u32,
    ) -> Result<Found, Stop> {
        alias_term(setting, terms, effects, self.kind, self.args, depth)
    }

    ghost asked_again = { λ T U q k h. are_in-grown T U k q.args.now h };

    ghost said_before = { λ S n T U V q o k h. before-all T U q.args.now (λ ts. SaysAlias (level S n) q.kind ts V o) k h };

    ghost ends_so_again = { λ T U q k h never. never };
}

impl EvalCtxt<'_> {
    /// What a trait goal comes to at a depth, and what a `Yes` lists of lifetimes. Nothing changes but that there may
    /// be more terms, accesses and delayed faults.
    pub(crate) fn trait_outcome_at(
        &mut self,
        trait_id: TraitId,
        args: &[GenericArg],
        environment: &[Clause],
        depth: u32,
        listed: &mut RegionConstraints,
    ) -> Result<TraitOutcome, Stop>
        ensures kept { Keeps self.old.terms self.new.terms }
        ensures unchanged { self.new ≡ restored self.old self.new }
        ensures goes_back { GoesBack self.old self.new }
        ensures says { (m : TypingMode) → IsOwed self.new m → SaysTraitAt (level_at self.old m environment.now depth) trait_id (erased_args args.now) result }
        ensures caused { RecordsCaused self.old self.new }
        ensures faults { RecordsCausedFaults self.old self.new }
        ensures ends { IfErr result (EndsFor self.old) }
        ensures stops { StopsForMemory self.old result }
    {
        let asked = TraitView {
            def_id: trait_id,
            args,
        };
        self.evaluate(&asked, environment, depth, listed)
    }

    /// Whether a predicate that stands in a goal without inference variables holds at the remaining depth, and what a
    /// `Yes` lists of lifetimes. Nothing changes but that there may be more terms, accesses and delayed faults.
    pub(crate) fn predicate_goal_outcome(
        &mut self,
        asked: PredicateView<'_>,
        environment: &[Clause],
        listed: &mut RegionConstraints,
    ) -> Result<Outcome, Stop>
        ensures kept { Keeps self.old.terms self.new.terms }
        ensures unchanged { self.new ≡ restored self.old self.new }
        ensures faults { RecordsCausedFaults self.old self.new }
        ensures goes_back { GoesBack self.old self.new }
        ensures says { SaysOf self.old self.new environment.now (predicate_seen asked.entry) result }
        ensures caused { RecordsCaused self.old self.new }
        ensures ends { IfErr result (EndsFor self.old) }
        ensures stops { StopsForMemory self.old result }
    {
        let predicate = self.interned_predicate(asked)?;
        self.evaluate_predicate(&predicate, environment, listed)
    }

    /// Whether a predicate without inference variables holds at the remaining depth, by the numbers of its terms.
    /// Nothing changes but that there may be more terms, accesses and delayed faults.
    pub(crate) fn evaluate_predicate(
        &mut self,
        predicate: &InternedPredicate,
        environment: &[Clause],
        listed: &mut RegionConstraints,
    ) -> Result<Outcome, Stop>
        requires { PredicateIn self.old.terms predicate.now }
        ensures kept { Keeps self.old.terms self.new.terms }
        ensures unchanged { self.new ≡ restored self.old self.new }
        ensures faults { RecordsCausedFaults self.old self.new }
        ensures goes_back { GoesBack self.old self.new }
        ensures says { SaysOf self.old self.new environment.now (predicate_at self.old.terms predicate.now) result }
        ensures caused { RecordsCaused self.old self.new }
        ensures ends { IfErr result (EndsFor self.old) }
        ensures stops { StopsForMemory self.old result }
    {
        let depth = self.remaining_depth();
        self.evaluate(predicate, environment, depth, listed)
    }

    /// Which term an alias has at the remaining depth, and what a `Yes` lists of lifetimes. Nothing changes but that
    /// there may be more terms, accesses and delayed faults.
    pub(crate) fn alias_outcome(
        &mut self,
        alias: &AliasTerm,
        environment: &[Clause],
        listed: &mut RegionConstraints,
    ) -> Result<Found, Stop>
        ensures kept { Keeps self.old.terms self.new.terms }
        ensures unchanged { self.new ≡ restored self.old self.new }
        ensures goes_back { GoesBack self.old self.new }
        ensures within { IfOk result (FoundIn self.new.terms) }
        ensures says { WhereOwed self.old self.new environment.now (λ L. SaysAliasTerm L alias.now self.new.terms result) }
        ensures caused { RecordsCaused self.old self.new }
        ensures faults { RecordsCausedFaults self.old self.new }
        ensures ends { IfErr result (EndsFor self.old) }
        ensures stops { StopsForMemory self.old result }
    {
        let args = self.interned_args(&alias.args)?;
        self.evaluate_alias(alias.kind, &args, environment, listed)
    }

    /// Which term an alias without inference variables has at the remaining depth, by the numbers of its
    /// arguments. Nothing changes but that there may be more terms, accesses and delayed faults.
    pub(crate) fn evaluate_alias(
        &mut self,
        kind: AliasTermKind,
        args: &[TermId],
        environment: &[Clause],
        listed: &mut RegionConstraints,
    ) -> Result<Found, Stop>
        requires { AreIn self.old.terms args.now }
        ensures kept { Keeps self.old.terms self.new.terms }
        ensures unchanged { self.new ≡ restored self.old self.new }
        ensures faults { RecordsCausedFaults self.old self.new }
        ensures goes_back { GoesBack self.old self.new }
        ensures within { IfOk result (FoundIn self.new.terms) }
        ensures says { WhereOwed self.old self.new environment.now (λ L. SaysTermAt L kind (erased_all self.old.terms args.now) self.new.terms result) }
        ensures caused { RecordsCaused self.old self.new }
        ensures ends { IfErr result (EndsFor self.old) }
        ensures stops { StopsForMemory self.old result }
    {
        let asked = AskedAlias { kind, args };
        let depth = self.remaining_depth();
        self.evaluate(&asked, environment, depth, listed)
    }

    /// The numbers of a predicate's terms. Nothing changes but that there may be more terms.
    pub(crate) fn interned_predicate(
        &mut self,
        asked: PredicateView<'_>,
    ) -> Result<InternedPredicate, Stop>
        ensures kept { Keeps self.old.terms self.new.terms }
        ensures unchanged { self.new ≡ record self.old { terms = self.new.terms } }
        ensures within { IfOk result (PredicateIn self.new.terms) }
        ensures trees { IfOk result (λ p. predicate_at self.new.terms p ≡ predicate_seen asked.entry) }
        ensures stops { IfErr result (λ s. s ≡ Stop.OutOfMemory) }
    {
        let alloc = self.allocator();
        Ok(intern_predicate(alloc, &mut self.terms, asked)?)
    }

    /// The numbers of arguments. Nothing changes but that there may be more terms.
    pub(crate) fn interned_args(&mut self, args: &[GenericArg]) -> Result<Vec<TermId>, Stop>
        ensures kept { Keeps self.old.terms self.new.terms }
        ensures unchanged { self.new ≡ record self.old { terms = self.new.terms } }
        ensures within { IfOk result (λ ids. AreIn self.new.terms ids.items) }
        ensures trees { IfOk result (λ ids. erased_all self.new.terms ids.items ≡ erased_args args.now) }
        ensures stops { IfErr result (λ s. s ≡ Stop.OutOfMemory) }
    {
        let alloc = self.allocator();
        Ok(intern_args(alloc, &mut self.terms, args)?)
    }
}
