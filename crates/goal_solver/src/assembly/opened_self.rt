//! Goals whose self type is an alias with inference variables: they are answered in a trial, beside what the alias's head
//! form binds.
ghost use Rattle.std.specs.Prelude.{◌≡◌, IfOk, IfSome};
ghost use Rattle.goal_kinds.specs.Collecting.{kind_of};
ghost use Rattle.goal_solver.specs.Answers.{IsMaybe};
ghost use Rattle.goal_solver.specs.AskedGoals.{asked_environment, AsksOpen, DecidesBy, IsAskedAlias, MergesAsked, OpensAsked, formed_as, formed_by, merged_as};
ghost use Rattle.goal_solver.specs.Binding.{IsApplicable};
ghost use Rattle.goal_solver.specs.GoingBack.{GoesBack, restored};
ghost use Rattle.goal_solver.specs.OpenAnswers.{InTrial, MergesOpened, OpensIfAsked};
ghost use Rattle.goal_solver.specs.OpenGoals.{AsksOpenSelf, IsListedIn, IsSelfAlias, WhenAnswered, WhenTried};
ghost use Rattle.goal_solver.specs.Relating.{IsFaultFor};

use crate::assembly::asked_goals::{AskedGoal, environment_of, rules_for_asked};
use crate::assembly::formed_rules::{FormedRules, Merging, rules_for_form};
use crate::context::EvalCtxt;
use crate::faults::Fault;
use goal_kinds::goal_kind::GoalKind;
use goal_terms::answers::{Certainty, Response};
use goal_terms::predicates::Goal;
use goal_terms::terms::AliasTerm;

impl EvalCtxt<'_> {
    /// What the candidates of a goal make of it where none are considered, or where the self type is an alias with
    /// inference variables: it is undecided, or answered in a trial.
    #[cycle(open)]
    pub(crate) fn merge_open(&mut self, asked: AskedGoal<'_>) -> Result<Response, Fault>
        ensures undecided { (AsksOpen asked.entry self.old → ⊥) → WhenAnswered result (IsMaybe result) }
        ensures opened { OpensAsked asked.entry self.old result self.new }
        ensures applies { IfOk result (IsApplicable self.new) }
        ensures unchanged { self.new ≡ restored self.old self.new }
        ensures goes_back { GoesBack self.old self.new }
        ensures fault { IsFaultFor self.old self.new result }
    {
        self.is_well_formed();
        match self.open_self_of(asked)? {
            None => Ok(self.respond(Certainty::Maybe, None)),
            Some(alias) => self.merge_opened(asked, alias),
        }
    }

    /// What the candidates of a goal make of it in a trial, beside what the head form of the self type binds.
    #[cycle(open)]
    fn merge_opened(&mut self, asked: AskedGoal<'_>, alias: AliasTerm) -> Result<Response, Fault>
        requires opens { IsAskedAlias asked self.old alias }
        ensures merges { WhenAnswered result (MergesAsked asked.entry self.old result self.new) }
        ensures applies { IfOk result (IsApplicable self.new) }
        ensures unchanged { self.new ≡ restored self.old self.new }
        ensures goes_back { GoesBack self.old self.new }
        ensures fault { IsFaultFor self.old self.new result }
    {
        self.holds_together();
        self.is_well_formed();
        let before = self.snapshot();
        let around = self.begin();
        let answer = self.answer_opened(asked, alias);
        self.holds_together();
        self.is_well_formed();
        self.rollback(before);
        self.end(around);
        self.or_undecided(answer)
    }

    /// What the candidates of a goal make of it for the head form of the self type. There is no answer where none are
    /// considered.
    #[cycle(open)]
    fn answer_opened(
        &mut self,
        asked: AskedGoal<'_>,
        alias: AliasTerm,
    ) -> Result<Option<Response>, Fault>
        ensures by { WhenTried result (InTrial (formed_as asked.entry) (asked_environment asked.entry) alias self.old result self.new) }
        ensures lists { IfOk result (λ o. IfSome o (IsListedIn self.new)) }
        ensures goes_back { GoesBack self.old self.new }
        ensures fault { IsFaultFor self.old self.new result }
    {
        let found = self.form_of_open(environment_of(asked), alias)?;
        let Some(rules) = rules_for_asked(self.tables, &self.typing_mode, asked, found)? else {
            return Ok(None);
        };
        let answer = self.merge_formed(&rules)?;
        self.beside(answer)
    }

    /// What the rules of a goal's candidates make of it, whose self type is a head form.
    #[cycle(open)]
    fn merge_formed(&mut self, rules: &FormedRules<'_>) -> Result<Response, Fault>
        ensures decides { WhenAnswered result (DecidesBy rules.now self.old result self.new) }
        ensures applies { IfOk result (IsApplicable self.new) }
        ensures unchanged { self.new ≡ restored self.old self.new }
        ensures goes_back { GoesBack self.old self.new }
        ensures fault { IsFaultFor self.old self.new result }
    {
        match rules {
            FormedRules::Classes(rules) => self.merge_classes(rules),
            FormedRules::Groups(rules) => self.merge_const_groups(rules),
            FormedRules::Projection(class, asked, rules) => {
                self.merge_groups(*class, asked, rules)
            }
        }
    }

    /// What the candidates of a goal of a kind make of it, as `merge_open` says it of the goals that lists add.
    pub(crate) fn merge_open_goal<G: GoalKind + Drop>(
        &mut self,
        by: Merging<'_>,
        goal: &Goal<G>,
    ) -> Result<Response, Fault>
        ensures undecided { (AsksOpenSelf G.words.self_type goal.now self.old → ⊥) → WhenAnswered result (IsMaybe result) }
        ensures opened { OpensIfAsked G.words.self_type (formed_by (merged_as by.entry) (kind_of G.words G.has_fault) goal.now) goal.now self.old result self.new }
        ensures applies { IfOk result (IsApplicable self.new) }
        ensures unchanged { self.new ≡ restored self.old self.new }
        ensures goes_back { GoesBack self.old self.new }
        ensures fault { IsFaultFor self.old self.new result }
    {
        self.is_well_formed();
        match self.open_self(goal)? {
            None => Ok(self.respond(Certainty::Maybe, None)),
            Some(alias) => self.merge_opened_goal(by, goal, alias),
        }
    }

    /// The same in a trial.
    fn merge_opened_goal<G: GoalKind + Drop>(
        &mut self,
        by: Merging<'_>,
        goal: &Goal<G>,
        alias: AliasTerm,
    ) -> Result<Response, Fault>
        requires opens { IsSelfAlias G.words.self_type goal.now self.old alias }
        ensures merges { WhenAnswered result (MergesOpened G.words.self_type (formed_by (merged_as by.entry) (kind_of G.words G.has_fault) goal.now) goal.now self.old result self.new) }
        ensures applies { IfOk result (IsApplicable self.new) }
        ensures unchanged { self.new ≡ restored self.old self.new }
        ensures goes_back { GoesBack self.old self.new }
        ensures fault { IsFaultFor self.old self.new result }
    {
        self.holds_together();
        self.is_well_formed();
        let before = self.snapshot();
        let around = self.begin();
        let answer = self.answer_opened_goal(by, goal, alias);
        self.holds_together();
        self.is_well_formed();
        self.rollback(before);
        self.end(around);
        self.or_undecided(answer)
    }

    /// The same for the head form of the self type.
    fn answer_opened_goal<G: GoalKind + Drop>(
        &mut self,
        by: Merging<'_>,
        goal: &Goal<G>,
        alias: AliasTerm,
    ) -> Result<Option<Response>, Fault>
        ensures by { WhenTried result (InTrial (formed_by (merged_as by.entry) (kind_of G.words G.has_fault) goal.now) goal.now.param_env.items alias self.old result self.new) }
        ensures lists { IfOk result (λ o. IfSome o (IsListedIn self.new)) }
        ensures goes_back { GoesBack self.old self.new }
        ensures fault { IsFaultFor self.old self.new result }
    {
        let found = self.form_of_open(&goal.param_env, alias)?;
        let Some(rules) = rules_for_form(self.tables, &self.typing_mode, by, goal, found)? else {
            return Ok(None);
        };
        let answer = self.merge_formed(&rules)?;
        self.beside(answer)
    }
}
