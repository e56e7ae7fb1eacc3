//! Goals of the terms of projections with inference variables.
ghost use Rattle.std.specs.Prelude.{◌≡◌, ◌<◌, ◌⊎◌, ℕ, suc, true, false, Option, Result, None, IfOk, IfErr, IsOkUnless, MatchOption};
ghost use Rattle.std.specs.Option.{option_map};
ghost use Rattle.goal_terms.specs.TreeOf.{tree_of_alias, tree_of_term};
ghost use Rattle.goal_kinds.specs.ProjectionKind.{projected_trait};
ghost use Rattle.goal_solver.specs.Answers.{is_closed_alias, expected_variable};
ghost use Rattle.goal_solver.specs.Binding.{IsApplicable};
ghost use Rattle.goal_kinds.specs.Collecting.{kind_of};
ghost use Rattle.goal_solver.specs.GoingBack.{GoesBack, restored, at_depth};
ghost use Rattle.goal_solver.specs.HiddenTypes.{tree_in};
ghost use Rattle.goal_solver.specs.OpenAnswers.{MergesProjection, MergesThrough};
ghost use Rattle.goal_solver.specs.OpenGoals.{WhenAnswered, IsFormless};
ghost use Rattle.goal_solver.specs.OpenProjections.{AsksItsTrait, proven_class, own_args, alias_kind, ConsidersGroups, is_formed, Forms, FormsAll, RefusesForm, LacksForm, WithForms, IsRigidList, IsRigid, ByBounds, ByRest, RunsAlias, ByGroupsOf, ByLaterOf};
ghost use Rattle.goal_solver.specs.Refusals.{WhenRefused};
ghost use Rattle.goal_solver.specs.Relating.{IsFaultFor};
ghost use Rattle.goal_solver.specs.State.{State as state};

use crate::assembly::asked_goals::AskedGoal;
use crate::assembly::formed_rules::Merging;
use crate::assembly::merged_rules::Merged;
use crate::context::EvalCtxt;
use crate::context::respond::copied_args;
use crate::eval::closed_goals::is_closed_alias;
use crate::eval::where_goals::copied_clauses;
use crate::faults::Fault;
use goal_checks::checked::CheckedTables;
use goal_interner::term_nodes::OutOfMemory;
use goal_kinds::assembly::group_rules::{GroupRules, rules_by_group};
use goal_kinds::goal_kind::GoalKind;
use goal_kinds::rules::aliases::alias_rule;
use goal_kinds::rules::{RuleEntry, RuleTerm};
use goal_terms::answers::{Certainty, Response, TraitGoalProvenVia};
use goal_terms::node_tests::general_variable;
use goal_terms::predicates::{Clause, Goal, NormalizesTo, TraitPredicate, TraitRef};
use goal_terms::slices::behind;
use goal_terms::terms::{AliasTerm, Const, GenericArg, Term, Ty};

impl EvalCtxt<'_> {
    /// What the goal of an alias's term is answered, at one less of the depth, where inference variables stand in
    /// it: for a projection, by its trait goal and then by its candidates; for another alias, by its list.
    /// Inference state, added goals and storage are as before.
    #[cycle(open)]
    pub(crate) fn project_below(&mut self, goal: &Goal<NormalizesTo>) -> Result<Response, Fault>
        requires positive { 0 < self.old.remaining_depth }
        ensures merges { (n : ℕ) → self.old.remaining_depth ≡ suc n → WhenAnswered result (MergesProjection goal.now (at_depth n self.old) result (at_depth n self.new)) }
        ensures applies { IfOk result (IsApplicable self.new) }
        ensures unchanged { self.new ≡ restored self.old self.new }
        ensures goes_back { GoesBack self.old self.new }
        ensures fault { IsFaultFor self.old self.new result }
    {
        self.holds_together();
        let depth = self.remaining_depth;
        self.remaining_depth = depth - 1;
        let answer = self.project(goal);
        self.remaining_depth = depth;
        answer
    }

    /// What the goal of an alias's term is answered, where inference variables stand in it. A projection's trait
    /// goal is answered first: its refusal is the answer, and where it is undecided so is the goal.
    #[cycle(open)]
    fn project(&mut self, goal: &Goal<NormalizesTo>) -> Result<Response, Fault>
        ensures merges { WhenAnswered result (MergesProjection goal.now self.old result self.new) }
        ensures applies { IfOk result (IsApplicable self.new) }
        ensures unchanged { self.new ≡ restored self.old self.new }
        ensures goes_back { GoesBack self.old self.new }
        ensures fault { IsFaultFor self.old self.new result }
    {
        self.is_well_formed();
        let Some(asked) = trait_goal_of(self.tables, goal)? else {
            return self.run_alias_rule(goal);
        };
        let answer = self.trait_goal_response(&asked)?;
        match proven_class(&answer) {
            None => Ok(self.respond(Certainty::Maybe, None)),
            Some(class) => self.merge_alias(class, goal),
        }
    }

    /// Runs the list of an alias that is no projection. One of a projection whose item has no row is undecided.
    #[cycle(open)]
    fn run_alias_rule(&mut self, goal: &Goal<NormalizesTo>) -> Result<Response, Fault>
        ensures runs { WhenAnswered result (RunsAlias goal.now self.old result self.new) }
        ensures applies { IfOk result (IsApplicable self.new) }
        ensures unchanged { self.new ≡ restored self.old self.new }
        ensures goes_back { GoesBack self.old self.new }
        ensures fault { IsFaultFor self.old self.new result }
    {
        self.is_well_formed();
        match alias_rule(self.tables, &self.typing_mode, goal) {
            Ok(rule) => self.run_open(&goal.param_env, &rule.entries),
            Err(Fault::NotForThisKind) => Ok(self.respond(Certainty::Maybe, None)),
            Err(_) => Err(Fault::OutOfMemory),
        }
    }

    /// What the candidates of a projection make of its goal at the remaining depth, if its trait goal holds
    /// through a class. Inference state, added goals and storage are as before.
    #[cycle(open)]
    fn merge_alias(
        &mut self,
        class: TraitGoalProvenVia,
        goal: &Goal<NormalizesTo>,
    ) -> Result<Response, Fault>
        ensures merges { WhenAnswered result (MergesThrough alias_kind goal.now.predicate class goal.now self.old result self.new) }
        ensures applies { IfOk result (IsApplicable self.new) }
        ensures unchanged { self.new ≡ restored self.old self.new }
        ensures goes_back { GoesBack self.old self.new }
        ensures fault { IsFaultFor self.old self.new result }
    {
        match self.considered_groups(class, goal)? {
            None => self.merge_open(AskedGoal::Projection(class, goal)),
            Some(rules) => self.merge_groups(class, &goal.predicate, &rules),
        }
    }

    /// What the candidates of a projection make of a goal of a kind at the remaining depth, if its trait goal holds
    /// through a class. The goal is one for the term of an alias. Inference state, added goals and storage are as
    /// before.
    pub(crate) fn merge_through<G: GoalKind + Drop>(
        &mut self,
        class: TraitGoalProvenVia,
        asked: &NormalizesTo,
        goal: &Goal<G>,
    ) -> Result<Response, Fault>
        ensures merges { WhenAnswered result (MergesThrough (kind_of G.words G.has_fault) asked.now class goal.now self.old result self.new) }
        ensures applies { IfOk result (IsApplicable self.new) }
        ensures unchanged { self.new ≡ restored self.old self.new }
        ensures goes_back { GoesBack self.old self.new }
        ensures fault { IsFaultFor self.old self.new result }
    {
        match self.considered_groups(class, goal)? {
            None => self.merge_open_goal(Merging::Projection(class, asked), goal),
            Some(rules) => self.merge_groups(class, asked, &rules),
        }
    }

    /// The rules of the groups of a goal's candidates for the head form of its self type, if candidates are considered
    /// for it. Inference state, added goals and storage are as before.
    pub(crate) fn considered_groups<G: GoalKind + Drop>(
        &mut self,
        class: TraitGoalProvenVia,
        goal: &Goal<G>,
    ) -> Result<Option<GroupRules>, Fault>
        ensures considers { IfOk result (λ o. ConsidersGroups (kind_of G.words G.has_fault) class goal.now self.old o self.new) }
        ensures formless { IfErr result (λ f. f ≡ Fault.NoSolution → IsFormless G.words.self_type goal.now self.old self.new) }
        ensures unchanged { self.new ≡ restored self.old self.new }
        ensures goes_back { GoesBack self.old self.new }
        ensures fault { IsFaultFor self.old self.new result }
    {
        let Some(normalized) = self.with_normalized_self_ty(goal)? else {
            return Ok(None);
        };
        let rules = rules_by_group(self.tables, &self.typing_mode, class, normalized)?;
        Ok(Some(rules))
    }

    /// What the groups of candidates make of a goal, whose self type is a head form: the environment, then those
    /// that go with the class.
    #[cycle(open)]
    pub(crate) fn merge_groups(
        &mut self,
        class: TraitGoalProvenVia,
        asked: &NormalizesTo,
        rules: &GroupRules,
    ) -> Result<Response, Fault>
        ensures decides { WhenAnswered result (ByGroupsOf class rules.now asked.now self.old result self.new) }
        ensures applies { IfOk result (IsApplicable self.new) }
        ensures unchanged { self.new ≡ restored self.old self.new }
        ensures goes_back { GoesBack self.old self.new }
        ensures fault { IsFaultFor self.old self.new result }
    {
        self.is_well_formed();
        match self.merge_rules(&rules.param_env, &rules.environment)? {
            Merged::Refuted => self.merge_later(class, asked, rules),
            Merged::Answered(response) => self.with_forms(asked, &rules.param_env, response),
            Merged::Split => Ok(self.respond(Certainty::Maybe, None)),
        }
    }

    /// What the candidates after the environment make of a goal, by the class through which its trait goal holds.
    #[cycle(open)]
    fn merge_later(
        &mut self,
        class: TraitGoalProvenVia,
        asked: &NormalizesTo,
        rules: &GroupRules,
    ) -> Result<Response, Fault>
        ensures decides { WhenAnswered result (ByLaterOf class rules.now asked.now self.old result self.new) }
        ensures applies { IfOk result (IsApplicable self.new) }
        ensures unchanged { self.new ≡ restored self.old self.new }
        ensures goes_back { GoesBack self.old self.new }
        ensures fault { IsFaultFor self.old self.new result }
    {
        match class {
            TraitGoalProvenVia::ParamEnv => self.merge_bounds(asked, rules),
            TraitGoalProvenVia::AliasBound => self.merge_bounds(asked, rules),
            TraitGoalProvenVia::Misc => self.merge_rest(rules),
        }
    }

    /// What the bounds make of a goal. Where all of them are refused the alias is rigid.
    #[cycle(open)]
    fn merge_bounds(&mut self, asked: &NormalizesTo, rules: &GroupRules) -> Result<Response, Fault>
        ensures decides { WhenAnswered result (ByBounds rules.now.param_env.items rules.now.later.items (own_args self.old.tables asked.now.alias) asked.now self.old result self.new) }
        ensures applies { IfOk result (IsApplicable self.new) }
        ensures unchanged { self.new ≡ restored self.old self.new }
        ensures goes_back { GoesBack self.old self.new }
        ensures fault { IsFaultFor self.old self.new result }
    {
        self.is_well_formed();
        match self.merge_rules(&rules.param_env, &rules.later)? {
            Merged::Refuted => self.rigid(&rules.param_env, asked),
            Merged::Answered(response) => self.with_forms(asked, &rules.param_env, response),
            Merged::Split => Ok(self.respond(Certainty::Maybe, None)),
        }
    }

    /// What the bounds and the rest make of a goal together. Where all of them are refused the goal is.
    #[cycle(open)]
    fn merge_rest(&mut self, rules: &GroupRules) -> Result<Response, Fault>
        ensures decides { WhenAnswered result (ByRest rules.now.param_env.items rules.now.later.items self.old result self.new) }
        ensures applies { IfOk result (IsApplicable self.new) }
        ensures unchanged { self.new ≡ restored self.old self.new }
        ensures goes_back { GoesBack self.old self.new }
        ensures fault { IsFaultFor self.old self.new result }
    {
        self.is_well_formed();
        match self.merge_rules(&rules.param_env, &rules.later)? {
            Merged::Refuted => Err(Fault::NoSolution),
            Merged::Answered(response) => Ok(response),
            Merged::Split => Ok(self.respond(Certainty::Maybe, None)),
        }
    }

    /// A response, where each own argument of the alias has a head form that is no general variable, or where the
    /// response isn't sure; else the goal is undecided, or refused where an argument's head form is.
    fn with_forms(
        &mut self,
        asked: &NormalizesTo,
        environment: &[Clause],
        response: Response,
    ) -> Result<Response, Fault>
        requires applies { IsApplicable self.old response }
        ensures forms { WhenAnswered result (WithForms environment.now (own_args self.old.tables asked.now.alias) response self.old result self.new) }
        ensures applies { IfOk result (IsApplicable self.new) }
        ensures unchanged { self.new ≡ restored self.old self.new }
        ensures goes_back { GoesBack self.old self.new }
        ensures fault { IsFaultFor self.old self.new result }
    {
        self.is_well_formed();
        self.holds_together();
        if let Certainty::Maybe = response.certainty {
            return Ok(response);
        }
        let tables = self.tables;
        if self.have_forms(environment, own_args(tables, asked))? {
            Ok(response)
        } else {
            Ok(self.respond(Certainty::Maybe, None))
        }
    }

    /// Whether each of some arguments has a head form that is no general variable.
    fn have_forms(&mut self, environment: &[Clause], args: &[GenericArg]) -> Result<bool, Fault>
        ensures forms { IfOk result (λ b. FormsAll environment.now args.now self.old b self.new) }
        ensures lacks { WhenRefused result (LacksForm environment.now args.now self.old self.new) }
        ensures unchanged { self.new ≡ restored self.old self.new }
        ensures goes_back { GoesBack self.old self.new }
        ensures fault { IsFaultFor self.old self.new result }
    {
        let mut formed = true;
        for arg in args {
            let has_form = self.has_form(environment, arg)?;
            formed = formed && has_form;
        }
        Ok(formed)
    }

    /// Whether an argument has a head form that is no general variable, if it isn't a lifetime.
    fn has_form(&mut self, environment: &[Clause], arg: &GenericArg) -> Result<bool, Fault>
        ensures forms { IfOk result (λ b. Forms environment.now (tree_in arg.now) self.old b self.new) }
        ensures lacks { WhenRefused result (RefusesForm environment.now (tree_in arg.now) self.old self.new) }
        ensures unchanged { self.new ≡ restored self.old self.new }
        ensures goes_back { GoesBack self.old self.new }
        ensures fault { IsFaultFor self.old self.new result }
    {
        let Some(term) = term_in(arg)? else {
            return Ok(true);
        };
        let found = self.closed_form(environment, &term)?;
        Ok(is_formed(&found))
    }

    /// The answer where an alias is rigid: its expected term is given the alias as it stands.
    #[cycle(open)]
    fn rigid(&mut self, environment: &[Clause], asked: &NormalizesTo) -> Result<Response, Fault>
        ensures rigid { WhenAnswered result (IsRigid environment.now asked.now self.old result self.new) }
        ensures applies { IfOk result (IsApplicable self.new) }
        ensures unchanged { self.new ≡ restored self.old self.new }
        ensures goes_back { GoesBack self.old self.new }
        ensures fault { IsFaultFor self.old self.new result }
    {
        let entries = rigid_entries(asked)?;
        self.run_open(environment, &entries)
    }
}

/// Whether the term of an alias is asked for a general variable, where an inference variable stands in the alias
/// or in the environment.
pub(crate) fn asks_open(asked: &NormalizesTo, environment: &[Clause]) -> bool
    ensures open { result ≡ true → is_closed_alias asked.now.alias environment.now ≡ false }
    ensures other { result ≡ false → (is_closed_alias asked.now.alias environment.now ≡ true) ⊎ (expected_variable asked.now.term ≡ None) }
{
    match general_variable(asked.term.view().node()) {
        None => false,
        Some(_) => !is_closed_alias(&asked.alias, environment),
    }
}

/// The class through which a response says that a trait goal holds.
pub(crate) fn proven_class(response: &Response) -> Option<TraitGoalProvenVia>
    ensures { result ≡ proven_class response.now }
{
    match response.certainty {
        Certainty::Yes => response.proven_via,
        Certainty::Maybe => None,
    }
}

/// The goal whether the trait of the item that an alias projects holds, in the same environment, if it and its
/// trait have rows.
fn trait_goal_of(
    tables: &CheckedTables,
    goal: &Goal<NormalizesTo>,
) -> Result<Option<Goal<TraitPredicate>>, Fault>
    ensures asks { IfOk result (λ o. MatchOption o (projected_trait tables.now goal.now.predicate.alias ≡ None) (AsksItsTrait tables.now goal.now)) }
    ensures only_memory { IsOkUnless result Fault.OutOfMemory }
{
    let alloc = *goal.param_env.allocator();
    let Some(view) = goal.predicate.trait_ref(tables) else {
        return Ok(None);
    };
    let Ok(args) = copied_args(alloc, view.args) else {
        return Err(Fault::OutOfMemory);
    };
    let Ok(param_env) = copied_clauses(alloc, &goal.param_env) else {
        return Err(Fault::OutOfMemory);
    };
    let def_id = view.def_id;
    let trait_ref = TraitRef { def_id, args };
    let predicate = TraitPredicate { trait_ref };
    Ok(Some(Goal {
        param_env,
        predicate,
    }))
}

/// The own arguments of a projection: those behind the trait's.
fn own_args<'a>(tables: &'a CheckedTables, asked: &'a NormalizesTo) -> &'a [GenericArg]
    ensures { result.now ≡ own_args tables.now asked.now.alias }
{
    let Some(view) = asked.trait_ref(tables) else {
        return &[];
    };
    behind(&asked.alias.args, view.args.len())
}

/// The type or the constant that an argument is.
#[tactic(auto, using(goal_terms::proofs::TreeLemmas::tree_equations))]
pub(crate) fn term_in(arg: &GenericArg) -> Result<Option<Term>, OutOfMemory>
    ensures { IfOk result (λ o. option_map tree_of_term o ≡ tree_in arg.now) }
{
    match arg {
        GenericArg::Ty(ty) => Ok(Some(Term::Ty(ty.clone()?))),
        GenericArg::Const(constant) => Ok(Some(Term::Const(constant.clone()?))),
        GenericArg::Lifetime(_) => Ok(None),
    }
}

/// Whether a head form is there, and no general variable.
fn is_formed(found: &Option<Term>) -> bool
    ensures { result ≡ is_formed found.now }
{
    match found {
        None => false,
        Some(form) => general_variable(form.view().node()).is_none(),
    }
}

/// An alias, as the type or the constant that it stands for.
#[tactic(auto, using(goal_terms::proofs::TreeLemmas::tree_equations))]
fn term_of_alias(alias: &AliasTerm) -> Result<Term, OutOfMemory>
    ensures { IfOk result (λ made. tree_of_term made ≡ tree_of_alias alias.now) }
{
    let copy = alias.clone()?;
    if alias.kind.is_type() {
        Ok(Term::Ty(Ty::Alias(copy)))
    } else {
        Ok(Term::Const(Const::Alias(copy)))
    }
}

/// The list of the one entry that gives an expected term its alias as it stands.
fn rigid_entries(asked: &NormalizesTo) -> Result<Vec<RuleEntry>, OutOfMemory>
    ensures { IfOk result (λ es. IsRigidList asked.now es.items) }
{
    let alloc = *asked.alias.args.allocator();
    let rigid_alias = term_of_alias(&asked.alias)?;
    let expected = asked.term.clone()?;
    Ok(vec![in alloc; RuleEntry::Term(expected, RuleTerm::AsItStands(rigid_alias))]?)
}
