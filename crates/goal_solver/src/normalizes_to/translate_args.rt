//! The arguments that a definition of a goal's item takes.
ghost use Rattle.std.specs.Prelude.{◌≡◌, ◌↔◌, ◌||◌, ◌++◌, List, [], true, length, map, drop, None, Some, Err, IfOk, IfErr, IsTrue, OnOk, OnErr};
ghost use Rattle.std.specs.List.{list_any};
ghost use Rattle.goal_terms.specs.Erased.{erased};
ghost use Rattle.goal_terms.specs.NodeTests.{is_any_infer, some_node};
ghost use Rattle.goal_interner.specs.TableMeaning.{tree_at, Keeps};
ghost use Rattle.goal_terms.specs.Tree.{Tree};
ghost use Rattle.goal_terms.specs.TreeOf.{trees_of};
ghost use Rattle.goal_terms.specs.declared.heads.Variable.{Variable};
ghost use Rattle.goal_terms.specs.declared.modes.TypingMode.{TypingMode as modes};
ghost use Rattle.goal_tables.specs.Predicates.{some_in_env as some_env};
ghost use Rattle.goal_tables.specs.Rows.{impl_of};
ghost use Rattle.goal_lists.specs.Headers.{under};
ghost use Rattle.goal_lists.specs.ImplTerms.{from_projection, from_impl, from_other};
ghost use Rattle.goal_lists.specs.Interned.{AreIn, erased_all};
ghost use Rattle.goal_lists.specs.Settings.{is_headline};
ghost use Rattle.goal_tables.specs.declared.rows.ImplRow.{ImplRow as impls};
ghost use Rattle.goal_eval.specs.ErasedArgs.{erased_args};
ghost use Rattle.goal_solver.specs.Answers.{IsOwedBeyond};
ghost use Rattle.goal_solver.specs.GoingBack.{GoesBack, restored};
ghost use Rattle.goal_eval.specs.Outcomes.{MatchIn};
ghost use Rattle.goal_solver.specs.Relating.{AgreesWith, LeavesOpen, ChangesRecords, IsFaultFor, all_bound};
ghost use Rattle.goal_solver.specs.State.{kinds_of};
ghost use Rattle.goal_solver.specs.TranslatedArgs.{taken_by, own_after, certainty_in, AnswersJust, IsTranslation, IsHeaderOpen, IsFresh, BindsNothing, IsMadeEqual, IsAdded, AddsClauses, MakesVariables, ChangesGoals, MatchCounts, Takes, TakesOwn, IfOther, Translates, args_asked, rebased, asked_of, asked_for, ReadsSoundly, LeavesHeaderOpen, MakesFresh, BindsNone, EquatesHeader, IsHeaderEqual, IsNeverEqual, AddsItsGoals, FreshIfUnknown, EqualsWhereYes, NeverEquals, SaysHeader};
ghost use Rattle.goal_solver.specs.Variables.{fresh_args};
ghost use Rattle.goal_solver.specs.Promises.{WhereOwed, WhereOwedBeyond};

use crate::context::EvalCtxt;
use crate::context::rebuilding::rebuilt_args;
use crate::eval::open_terms::any_variable;
use crate::eval::questions::Question;
use crate::eval::where_goals::goals_under;
use crate::faults::Fault;
use goal_checks::predicate_terms::some_in_env;
use goal_eval::eval::effects::Effects;
use goal_eval::eval::interning::intern_args;
use goal_eval::eval::outcomes::{HeaderMatch, Setting, Stop};
use goal_eval::eval::region_constraints::RegionConstraints;
use goal_eval::relate::headers::{AskedHeader, match_header};
use goal_infer::followed::follow_all;
use goal_interner::term_nodes::TermId;
use goal_interner::term_table::TermTable;
use goal_tables::rows::{Container, ImplRow};
use goal_terms::answers::Certainty;
use goal_terms::ids::ImplId;
use goal_terms::instantiate::{instantiate_args, rebase_onto};
use goal_terms::modes::TypingMode;
use goal_terms::node_tests::NodeTest;
use goal_terms::predicates::{Clause, Goal, NormalizesTo, TraitRef};
use goal_terms::terms::GenericArg;

/// An impl's header, matched with given terms.
#[derive(Clone, Copy)]
struct ImplHeader<'a> {
    row: &'a ImplRow,
    given: &'a [TermId],
}

/// What the header comes to. A match has as many terms as the impl has parameters.
impl Question for ImplHeader<'_> {
    ghost use Rattle.goal_lists.specs.Interned.{AreIn, erased_all};
    ghost use Rattle.goal_lists.specs.Levels.{level};
    ghost use Rattle.goal_lists.proofs.InternedLemmas.{are_in-grown};
    ghost use Rattle.goal_eval.specs.Outcomes.{MatchIn};
    ghost use Rattle.goal_solver.specs.Questions.{before-all};
    ghost use Rattle.goal_solver.specs.TranslatedArgs.{SaysCounted};

    type Answer = HeaderMatch;

    const LISTS_REGIONS: bool = false;

    ghost can_ask = { λ T q. AreIn T q.given.now };

    ghost within = { MatchIn };

    ghost says = { λ S n T q U o. SaysCounted (level S n) q.row.now (erased_all T q.given.now) U o };

    ghost ends_for_memory = { λ T q. ⊥ };

    fn ask(
        &self,
        setting: &Setting<'_>,
        terms: &mut TermTable,
        effects: &mut Effects,
        depth: u32,
    ) -> Result<HeaderMatch, Stop> {
        let asked = AskedHeader {
            params: &self.row.params,
            header: &self.row.trait_args,
            given: self.given,
        };
        let found = match_header(setting, terms, effects, &asked, depth)?;
        Ok(counted(found, self.row.params.len()))
    }

    ghost asked_again = { λ T U q k h. are_in-grown T U k q.given.now h };

    ghost said_before = { λ S n T U V q o k h. before-all T U q.given.now (λ ts. SaysCounted (level S n) q.row.now ts V o) k h };

    ghost ends_so_again = { λ T U q k h never. never };
}

impl EvalCtxt<'_> {
    /// The arguments that a definition takes, which the impl `impl_id` uses for the item of a goal's alias, and
    /// how certain they are. A definition that stands in the trait takes the alias's arguments, and one that
    /// stands in the impl itself takes the impl's in place of the trait's: both are `Yes`, and nothing changes.
    ///
    /// One that stands in another impl takes that impl's arguments for the trait reference, and then the item's
    /// own. Where the trait reference, bindings followed, and the environment hold no inference variable, these
    /// are read off where its header's parameters stand: `Yes` where the header fits at the remaining depth, and
    /// else `Maybe`, with fresh variables unless all parameters are known; in coherence a clash isn't final, and
    /// is `Maybe` too. Otherwise its header under fresh variables is made equal to the trait reference, and the
    /// answer is as certain as that. The other impl's where clauses under its arguments are added as goals, in the
    /// goal's environment. An impl that has no row gives no arguments: `Maybe`, with the item's own alone.
    ///
    /// `NoSolution`: the other impl's header clashes with the trait reference, or can't be made equal to it.
    /// `RerunNonErased`: the erased mode doesn't suffice. `OutOfMemory`: a growth was refused. After each of these
    /// inference state, added goals and hidden types are as before. `NotForThisKind` is never answered.
    pub fn translate_args(
        &mut self,
        goal: &Goal<NormalizesTo>,
        impl_id: ImplId,
        impl_args: &[GenericArg],
        impl_trait_ref: &TraitRef,
        container: Container,
    ) -> Result<(Vec<GenericArg>, Certainty), Fault>
        ensures in_trait { taken_by self.old impl_id container ≡ from_projection → Takes self.old self.new (args_asked goal.now) result }
        ensures in_impl { taken_by self.old impl_id container ≡ from_impl → Takes self.old self.new (rebased impl_args.now impl_trait_ref.now goal.now) result }
        ensures nowhere { taken_by self.old impl_id container ≡ from_other None → TakesOwn self.old self.new impl_trait_ref.now goal.now result }
        ensures other { IfOther (taken_by self.old impl_id container) (λ q. Translates self.old self.new (asked_of impl_trait_ref.now goal.now q) result) }
        ensures agreed { (ρ : Variable → Tree) → AgreesWith self.new ρ → AgreesWith self.old ρ }
        ensures alone { ChangesGoals self.old self.new }
        ensures unchanged { OnErr result (self.new ≡ restored self.old self.new) }
        ensures goes_back { GoesBack self.old self.new }
        ensures fault { IsFaultFor self.old self.new result }
    {
        match container {
            Container::Trait(_) => {
                let args = self.with_own(goal, 0, &[])?;
                Ok((args, Certainty::Yes))
            }
            Container::Impl(id) => {
                if id.0 == impl_id.0 {
                    let args = self.with_own(goal, impl_trait_ref.args.len(), impl_args)?;
                    return Ok((args, Certainty::Yes));
                }
                self.args_of_other(goal, id, impl_trait_ref)
            }
        }
    }

    /// Some arguments, and then those of a goal's alias after so many. Only memory is refused.
    fn with_own(
        &self,
        goal: &Goal<NormalizesTo>,
        skipped: usize,
        first: &[GenericArg],
    ) -> Result<Vec<GenericArg>, Fault>
        ensures args { IfOk result (λ args. trees_of args.items ≡ trees_of first.now ++ drop skipped (trees_of goal.now.predicate.alias.args.items)) }
        ensures only_memory { IfErr result (λ f. f ≡ Fault.OutOfMemory) }
    {
        let alloc = self.allocator();
        let Ok(args) = rebase_onto(alloc, &goal.predicate.alias.args, skipped, first) else {
            return Err(Fault::OutOfMemory);
        };
        Ok(args)
    }

    /// The arguments of a definition that stands in another impl, if the impl has a row.
    fn args_of_other(
        &mut self,
        goal: &Goal<NormalizesTo>,
        id: ImplId,
        trait_ref: &TraitRef,
    ) -> Result<(Vec<GenericArg>, Certainty), Fault>
        ensures nowhere { impl_of self.old.tables id ≡ None → AnswersJust (own_after trait_ref.now goal.now) Certainty.Maybe result × (self.new ≡ self.old) }
        ensures sound { (q : impls) → impl_of self.old.tables id ≡ Some q → ReadsSoundly self.old self.new (asked_of trait_ref.now goal.now q) result }
        ensures decided { (q : impls) → impl_of self.old.tables id ≡ Some q → LeavesHeaderOpen self.old self.new (asked_of trait_ref.now goal.now q) result }
        ensures fresh { (q : impls) → impl_of self.old.tables id ≡ Some q → MakesFresh self.old self.new (asked_of trait_ref.now goal.now q) result }
        ensures binds_nothing { (q : impls) → impl_of self.old.tables id ≡ Some q → BindsNone self.old self.new (asked_of trait_ref.now goal.now q) result }
        ensures made_equal { (q : impls) → impl_of self.old.tables id ≡ Some q → EquatesHeader self.old self.new (asked_of trait_ref.now goal.now q) result }
        ensures equal { (q : impls) → impl_of self.old.tables id ≡ Some q → IsHeaderEqual self.old self.new (asked_of trait_ref.now goal.now q) result }
        ensures never { (q : impls) → impl_of self.old.tables id ≡ Some q → IsNeverEqual self.old (asked_of trait_ref.now goal.now q) result }
        ensures agreed { (ρ : Variable → Tree) → AgreesWith self.new ρ → AgreesWith self.old ρ }
        ensures added { (q : impls) → impl_of self.old.tables id ≡ Some q → AddsItsGoals self.old self.new (asked_of trait_ref.now goal.now q) result }
        ensures alone { ChangesGoals self.old self.new }
        ensures unchanged { OnErr result (self.new ≡ restored self.old self.new) }
        ensures goes_back { GoesBack self.old self.new }
        ensures fault { IsFaultFor self.old self.new result }
    {
        self.holds_together();
        let Some(other) = self.tables().rows().impl_row(id) else {
            let own = self.with_own(goal, trait_ref.args.len(), &[])?;
            return Ok((own, Certainty::Maybe));
        };
        let before = self.snapshot();
        let translated = self.translated_to(goal, other, trait_ref);
        if translated.is_err() {
            self.rollback(before);
        }
        translated
    }

    /// Another impl's arguments for a trait reference, and then a goal's own ones; the impl's where clauses are
    /// added. After a fault some of what was done may stay.
    fn translated_to(
        &mut self,
        goal: &Goal<NormalizesTo>,
        other: &ImplRow,
        trait_ref: &TraitRef,
    ) -> Result<(Vec<GenericArg>, Certainty), Fault>
        ensures sound { ReadsSoundly self.old self.new (asked_of trait_ref.now goal.now other.now) result }
        ensures decided { LeavesHeaderOpen self.old self.new (asked_of trait_ref.now goal.now other.now) result }
        ensures fresh { MakesFresh self.old self.new (asked_of trait_ref.now goal.now other.now) result }
        ensures binds_nothing { BindsNone self.old self.new (asked_of trait_ref.now goal.now other.now) result }
        ensures made_equal { EquatesHeader self.old self.new (asked_of trait_ref.now goal.now other.now) result }
        ensures equal { IsHeaderEqual self.old self.new (asked_of trait_ref.now goal.now other.now) result }
        ensures never { IsNeverEqual self.old (asked_of trait_ref.now goal.now other.now) result }
        ensures added { IfOk result (λ r. IsAdded self.old self.new other.now goal.now.param_env.items (own_after trait_ref.now goal.now) (trees_of r.0.items)) }
        ensures alone { ChangesGoals self.old self.new }
        ensures goes_back { GoesBack self.old self.new }
        ensures fault { IsFaultFor self.old self.new result }
    {
        let environment = goal.param_env.as_slice();
        let (first, certainty) = self.args_for(environment, other, trait_ref)?;
        self.add_clauses(environment, &other.predicates, &first)?;
        let args = self.with_own(goal, trait_ref.args.len(), &first)?;
        Ok((args, certainty))
    }

    /// Adds a goal for each where clause, which asks in an environment what the clause says under arguments. Only
    /// memory is refused; then none is added.
    fn add_clauses(
        &mut self,
        environment: &[Clause],
        clauses: &[Clause],
        args: &[GenericArg],
    ) -> Result<(), Fault>
        ensures added { OnOk result (AddsClauses self.old self.new environment.now clauses.now (trees_of args.now)) }
        ensures unchanged { OnErr result (self.new ≡ self.old) }
        ensures goes_back { GoesBack self.old self.new }
        ensures only_memory { IfErr result (λ f. f ≡ Fault.OutOfMemory) }
    {
        let alloc = self.allocator();
        let Ok(goals) = goals_under(alloc, environment, clauses, args) else {
            return Err(Fault::OutOfMemory);
        };
        self.add_goals(goals)
    }

    /// An impl's arguments for a trait reference.
    fn args_for(
        &mut self,
        environment: &[Clause],
        other: &ImplRow,
        trait_ref: &TraitRef,
    ) -> Result<(Vec<GenericArg>, Certainty), Fault>
        ensures sound { ReadsSoundly self.old self.new (asked_for other.now environment.now trait_ref.now) result }
        ensures decided { LeavesHeaderOpen self.old self.new (asked_for other.now environment.now trait_ref.now) result }
        ensures fresh { MakesFresh self.old self.new (asked_for other.now environment.now trait_ref.now) result }
        ensures binds_nothing { BindsNone self.old self.new (asked_for other.now environment.now trait_ref.now) result }
        ensures made_equal { EquatesHeader self.old self.new (asked_for other.now environment.now trait_ref.now) result }
        ensures equal { IsHeaderEqual self.old self.new (asked_for other.now environment.now trait_ref.now) result }
        ensures never { IsNeverEqual self.old (asked_for other.now environment.now trait_ref.now) result }
        ensures count { IfOk result (λ r. length r.0.items ≡ length other.now.params.items) }
        ensures alone { ChangesRecords self.old self.new }
        ensures goes_back { GoesBack self.old self.new }
        ensures fault { IsFaultFor self.old self.new result }
    {
        self.holds_together();
        let given = self.bound_args(&trait_ref.args)?;
        if self.are_open(environment, &given) {
            return self.equated_args(environment, other, trait_ref);
        }
        self.closed_args(environment, other, &given)
    }

    /// The numbers of arguments with their bindings followed. Nothing changes but that there may be more terms.
    pub(crate) fn bound_args(&mut self, args: &[GenericArg]) -> Result<Vec<TermId>, Fault>
        ensures kept { Keeps self.old.terms self.new.terms }
        ensures unchanged { self.new ≡ record self.old { terms = self.new.terms } }
        ensures within { IfOk result (λ ids. AreIn self.new.terms ids.items) }
        ensures trees { IfOk result (λ ids. erased_all self.new.terms ids.items ≡ all_bound self.old (erased_args args.now)) }
        ensures only_memory { IfErr result (λ f. f ≡ Fault.OutOfMemory) }
    {
        let alloc = self.allocator();
        let Ok(ids) = intern_args(alloc, &mut self.terms, args) else {
            return Err(Fault::OutOfMemory);
        };
        let Ok(bound) = follow_all(&mut self.terms, &self.inference, &ids) else {
            return Err(Fault::OutOfMemory);
        };
        Ok(bound)
    }

    #[tactic(auto, using(crate::proofs::TranslatedLemmas::erased_terms))]
    /// Whether an inference variable stands in some terms or in an environment.
    fn are_open(&self, environment: &[Clause], ids: &[TermId]) -> bool
        requires { AreIn self.now.terms ids.now }
        ensures { result ≡ (list_any (some_node is_any_infer) (erased_all self.now.terms ids.now) || some_env is_any_infer environment.now) }
    {
        any_variable(&self.terms, ids) || some_in_env(NodeTest::IsAnyInfer, environment)
    }

    /// An impl's arguments under which its header fits given terms.
    fn closed_args(
        &mut self,
        environment: &[Clause],
        other: &ImplRow,
        given: &[TermId],
    ) -> Result<(Vec<GenericArg>, Certainty), Fault>
        requires { AreIn self.old.terms given.now }
        ensures sound { WhereOwedBeyond self.old self.new environment.now (λ L. IsTranslation L other.now (erased_all self.old.terms given.now) [] result) }
        ensures decided { WhereOwedBeyond self.old self.new environment.now (λ L. LeavesOpen (certainty_in result) → IsHeaderOpen L other.now (erased_all self.old.terms given.now)) }
        ensures fresh { WhereOwedBeyond self.old self.new environment.now (λ L. FreshIfUnknown L self.old self.new other.now (erased_all self.old.terms given.now) result) }
        ensures binds_nothing { IfOk result (λ r. BindsNothing self.old self.new other.now [] (trees_of r.0.items)) }
        ensures count { IfOk result (λ r. length r.0.items ≡ length other.now.params.items) }
        ensures alone { ChangesRecords self.old self.new }
        ensures goes_back { GoesBack self.old self.new }
        ensures fault { IsFaultFor self.old self.new result }
    {
        match self.header_outcome(environment, other, given) {
            Ok(HeaderMatch::Fits(found)) => self.found_args(&found, Certainty::Yes),
            Ok(HeaderMatch::Known(found)) => self.found_args(&found, Certainty::Maybe),
            Ok(HeaderMatch::Clashes) => self.clashing_args(other),
            Ok(HeaderMatch::Unknown) => self.unknown_args(other),
            Err(stop) => {
                self.undecided_by(stop)?;
                self.unknown_args(other)
            }
        }
    }

    /// What an impl's header comes to for given terms at the remaining depth. Nothing changes but that there may
    /// be more terms, accesses and delayed faults.
    fn header_outcome(
        &mut self,
        environment: &[Clause],
        other: &ImplRow,
        given: &[TermId],
    ) -> Result<HeaderMatch, Stop>
        requires { AreIn self.old.terms given.now }
        ensures kept { Keeps self.old.terms self.new.terms }
        ensures unchanged { self.new ≡ restored self.old self.new }
        ensures goes_back { GoesBack self.old self.new }
        ensures count { IfOk result (MatchCounts (length other.now.params.items)) }
        ensures within { IfOk result (MatchIn self.new.terms) }
        ensures says { WhereOwed self.old self.new environment.now (λ L. SaysHeader L other.now (erased_all self.old.terms given.now) self.new.terms result) }
        ensures stops { is_headline self.old.typing_mode ≡ true → IfErr result (λ s. s ≡ Stop.OutOfMemory) }
    {
        let asked = ImplHeader { row: other, given };
        let depth = self.remaining_depth();
        let mut listed = RegionConstraints::new(self.allocator());
        self.evaluate(&asked, environment, depth, &mut listed)
    }

    /// The arguments of some numbers. Only memory is refused.
    fn found_args(
        &self,
        found: &[TermId],
        certainty: Certainty,
    ) -> Result<(Vec<GenericArg>, Certainty), Fault>
        requires { AreIn self.now.terms found.now }
        ensures { AnswersJust (map (tree_at self.now.terms) found.now) certainty result }
    {
        let Ok(args) = rebuilt_args(&self.terms, found) else {
            return Err(Fault::OutOfMemory);
        };
        Ok((args, certainty))
    }

    /// What is answered where an impl's header clashes. In coherence no refusal is final.
    fn clashing_args(&mut self, other: &ImplRow) -> Result<(Vec<GenericArg>, Certainty), Fault>
        ensures owed { (m : modes) → IsOwedBeyond self.new m → result ≡ Err Fault.NoSolution }
        ensures fresh { IfOk result (λ r. IsFresh self.old self.new other.now [] (trees_of r.0.items)) }
        ensures count { IfOk result (λ r. length r.0.items ≡ length other.now.params.items) }
        ensures made { MakesVariables self.old self.new }
        ensures fault { IsFaultFor self.old self.new result }
    {
        match self.typing_mode {
            TypingMode::Coherence => self.unknown_args(other),
            _ => Err(Fault::NoSolution),
        }
    }

    /// Fresh variables for an impl's arguments, of which nothing is known. Only memory is refused; then nothing
    /// changes.
    fn unknown_args(&mut self, other: &ImplRow) -> Result<(Vec<GenericArg>, Certainty), Fault>
        ensures fresh { AnswersJust (fresh_args other.now.params.items (length (kinds_of self.old))) Certainty.Maybe result }
        ensures making { IfOk result (λ r. IsFresh self.old self.new other.now [] (trees_of r.0.items)) }
        ensures count { IfOk result (λ r. length r.0.items ≡ length other.now.params.items) }
        ensures made { MakesVariables self.old self.new }
    {
        let args = self.fresh_args_for_item(&other.params)?;
        Ok((args, Certainty::Maybe))
    }

    /// Fresh variables for an impl's arguments, its header under them being made equal to a trait reference. After a
    /// fault the variables may stay.
    fn equated_args(
        &mut self,
        environment: &[Clause],
        other: &ImplRow,
        trait_ref: &TraitRef,
    ) -> Result<(Vec<GenericArg>, Certainty), Fault>
        ensures equal { WhereOwed self.old self.new environment.now (λ L. EqualsWhereYes L self.new other.now (erased_args trait_ref.now.args.items) result) }
        ensures never { NeverEquals self.old other.now (erased_args trait_ref.now.args.items) result }
        ensures made_equal { IsMadeEqual self.old self.new environment.now other.now (trees_of trait_ref.now.args.items) [] result }
        ensures count { IfOk result (λ r. length r.0.items ≡ length other.now.params.items) }
        ensures alone { ChangesRecords self.old self.new }
        ensures goes_back { GoesBack self.old self.new }
        ensures fault { IsFaultFor self.old self.new result }
    {
        let args = self.fresh_args_for_item(&other.params)?;
        let alloc = self.allocator();
        let Ok(header) = instantiate_args(alloc, &other.trait_args, &args) else {
            return Err(Fault::OutOfMemory);
        };
        let certainty = self.eq_args(environment, &trait_ref.args, &header)?;
        Ok((args, certainty))
    }
}

/// A match, if it has as many terms as there are parameters; each match of a header has.
fn counted(found: HeaderMatch, count: usize) -> HeaderMatch
    ensures count { MatchCounts count result }
    ensures same { MatchCounts count found → result ≡ found }
    ensures within { (T : List Tree) → MatchIn T found → MatchIn T result }
{
    if has_terms(&found, count) {
        found
    } else {
        HeaderMatch::Unknown
    }
}

/// Whether the parameters of a match, if they are known, have so many terms.
fn has_terms(found: &HeaderMatch, count: usize) -> bool
    ensures { IsTrue result ↔ MatchCounts count found.now }
{
    match found {
        HeaderMatch::Fits(args) | HeaderMatch::Known(args) => args.len() == count,
        HeaderMatch::Clashes | HeaderMatch::Unknown => true,
    }
}
