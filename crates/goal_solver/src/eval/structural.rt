//! The head forms of terms in a context.
ghost use Rattle.std.specs.Prelude.{◌≡◌, ◌||◌, true, false, Ok, None, IfOk, IfErr, IfSome};
ghost use Rattle.goal_terms.specs.NodeTests.{is_any_infer, some_node};
ghost use Rattle.goal_interner.specs.TableMeaning.{tree_at, Keeps, HasTerm};
ghost use Rattle.goal_terms.specs.Tree.{node_of};
ghost use Rattle.goal_terms.specs.declared.modes.TypingMode.{TypingMode as modes};
ghost use Rattle.goal_tables.specs.Predicates.{some_in_env as some_env};
ghost use Rattle.goal_infer.specs.Unification.{is_alias};
ghost use Rattle.goal_lists.specs.Interned.{IsIn, erased_at};
ghost use Rattle.goal_lists.specs.Settings.{is_headline};
ghost use Rattle.goal_solver.specs.Accesses.{RecordsCausedFaults};
ghost use Rattle.goal_solver.specs.Answers.{IsOwed, level_over};
ghost use Rattle.goal_solver.specs.GoingBack.{GoesBack, restored};
ghost use Rattle.goal_solver.specs.HeadForms.{bound_term, IsClosedForm, IsFormAnswer, IsAnswered, IsFormFound, IsFoundItself, LeavesFormOpen, AnswersForm, is_open_form, IsLeftOpen, IsLeftUndecided, IsUnfoundFor, SaysForm};
ghost use Rattle.goal_solver.specs.OpenAnswers.{OpensTerm};
ghost use Rattle.goal_solver.specs.OpenForms.{gives_form};
ghost use Rattle.goal_solver.specs.OpenHeaders.{IsFoundForm, LacksConstructor};
ghost use Rattle.goal_eval.specs.Outcomes.{FoundIn};
ghost use Rattle.goal_solver.specs.Refusals.{WhenRefused};
ghost use Rattle.goal_solver.specs.Relating.{IsFaultFor};
ghost use Rattle.goal_solver.specs.Promises.{WhereOwed};

use crate::context::EvalCtxt;
use crate::eval::questions::Question;
use crate::faults::Fault;
use goal_checks::predicate_terms::some_in_env;
use goal_eval::eval::effects::Effects;
use goal_eval::eval::head_forms::head_form;
use goal_eval::eval::outcomes::{Found, Setting, Stop};
use goal_eval::eval::region_constraints::RegionConstraints;
use goal_infer::followed::follow;
use goal_interner::term_nodes::TermId;
use goal_interner::term_table::TermTable;
use goal_terms::heads::Node;
use goal_terms::node_tests::NodeTest;
use goal_terms::predicates::Clause;
use goal_terms::terms::Term;

/// A term of which the head form is asked for.
#[derive(Clone, Copy)]
struct AskedForm(TermId);

/// Which head form the term has.
impl Question for AskedForm {
    ghost use Rattle.goal_lists.specs.Interned.{IsIn, erased_at};
    ghost use Rattle.goal_lists.specs.Levels.{level};
    ghost use Rattle.goal_lists.proofs.InternedLemmas.{in-grown};
    ghost use Rattle.goal_eval.specs.Outcomes.{FoundIn, SaysForm as SaysFormAt};
    ghost use Rattle.goal_solver.specs.Questions.{before-at};

    type Answer = Found;

    const LISTS_REGIONS: bool = false;

    ghost can_ask = { λ T q. IsIn T q.0 };

    ghost within = { FoundIn };

    ghost says = { λ S n T q U o. SaysFormAt (level S n) (erased_at T q.0) U o };

    ghost ends_for_memory = { λ T q. ⊥ };

    fn ask(
        &self,
        setting: &Setting<'_>,
        terms: &mut TermTable,
        effects: &mut Effects,
        depth: u32,
    ) -> Result<Found, Stop> {
        head_form(setting, terms, effects, self.0, depth)
    }

    ghost asked_again = { λ T U q k h. in-grown T U k q.0 h };

    ghost said_before = { λ S n T U V q o k h. before-at T U q.0 (λ t. SaysFormAt (level S n) t V o) k h };

    ghost ends_so_again = { λ T U q k h never. never };
}

impl EvalCtxt<'_> {
    /// The head form of a term at the remaining depth, lifetimes aside: what an alias normalizes to, and each other
    /// term itself, in every mode. The bindings of variables are followed first. A term: a derivation no higher
    /// than the remaining depth gives it. `None`, for a closed term and environment: no type
    /// and no constant is the head form, nor is it refuted. In the erased mode an opaque type is itself, which is
    /// recorded.
    ///
    /// An alias that holds an inference variable, or that is asked for in an environment with one, is normalized to a
    /// fresh variable as [`EvalCtxt::compute_normalizes_to_goal`] does it. If the answer is sure and enters no hidden
    /// type it is applied, and the head form is what the variable stands for then; else there is none so far.
    ///
    /// `NoSolution`: a refutation no higher shows that there is no head form. `RerunNonErased`: the erased mode
    /// doesn't suffice. `OutOfMemory`: a growth was refused. `NotForThisKind` is never answered. After a fault, and
    /// where there is no head form, inference state, added goals and hidden types are as before.
    pub fn structurally_normalize_term(
        &mut self,
        environment: &[Clause],
        term: &Term,
    ) -> Result<Option<Term>, Fault>
        ensures sound { (m : modes) → IsOwed self.new m → AnswersForm self.old m environment.now term.now result }
        ensures decided { (m : modes) → IsOwed self.new m → LeavesFormOpen self.old m environment.now term.now result }
        ensures itself { is_alias (node_of (bound_term self.old term.now)) ≡ false → IfOk result (IsAnswered (bound_term self.old term.now)) }
        ensures only_memory { is_alias (node_of (bound_term self.old term.now)) ≡ false → IfErr result (λ f. f ≡ Fault.OutOfMemory) }
        ensures opens { OpensTerm environment.now term.now self.old result self.new }
        ensures kept { is_open_form (bound_term self.old term.now) environment.now ≡ false → self.new ≡ restored self.old self.new }
        ensures unchanged { gives_form result ≡ false → self.new ≡ restored self.old self.new }
        ensures faults { RecordsCausedFaults self.old self.new }
        ensures goes_back { GoesBack self.old self.new }
        ensures fault { IsFaultFor self.old self.new result }
    {
        self.holds_together();
        match self.closed_form(environment, term)? {
            Some(form) => Ok(Some(form)),
            None => self.open_form(environment, term),
        }
    }

    /// The head form of a term, where an alias that holds an inference variable, or that is asked for in an
    /// environment with one, has none. Nothing changes but that there may be more terms, accesses and delayed faults.
    pub(crate) fn closed_form(
        &mut self,
        environment: &[Clause],
        term: &Term,
    ) -> Result<Option<Term>, Fault>
        ensures sound { (m : modes) → IsOwed self.new m → IsFormAnswer (level_over self.old m environment.now) (bound_term self.old term.now) result }
        ensures decided { (m : modes) → IsOwed self.new m → LeavesFormOpen self.old m environment.now term.now result }
        ensures itself { is_alias (node_of (bound_term self.old term.now)) ≡ false → IfOk result (IsAnswered (bound_term self.old term.now)) }
        ensures only_memory { is_alias (node_of (bound_term self.old term.now)) ≡ false → IfErr result (λ f. f ≡ Fault.OutOfMemory) }
        ensures left { is_open_form (bound_term self.old term.now) environment.now ≡ true → IsLeftOpen result }
        ensures unchanged { self.new ≡ restored self.old self.new }
        ensures faults { RecordsCausedFaults self.old self.new }
        ensures goes_back { GoesBack self.old self.new }
        ensures fault { IsFaultFor self.old self.new result }
    {
        match self.form_outcome(environment, term) {
            Ok(Found::Is(id)) => self.form_at(id),
            Ok(Found::Refuted) => Err(Fault::NoSolution),
            Ok(Found::Undecided) => Ok(None),
            Err(stop) => {
                self.undecided_by(stop)?;
                Ok(None)
            }
        }
    }

    /// What the head form of a term with its bindings followed comes to. Nothing changes but that there may be
    /// more terms, accesses and delayed faults.
    fn form_outcome(&mut self, environment: &[Clause], term: &Term) -> Result<Found, Stop>
        ensures kept { Keeps self.old.terms self.new.terms }
        ensures unchanged { self.new ≡ restored self.old self.new }
        ensures faults { RecordsCausedFaults self.old self.new }
        ensures goes_back { GoesBack self.old self.new }
        ensures within { IfOk result (FoundIn self.new.terms) }
        ensures sound { (m : modes) → IsOwed self.new m → IfOk result (IsFormFound (level_over self.old m environment.now) (bound_term self.old term.now) self.new.terms) }
        ensures decided { WhereOwed self.old self.new environment.now (λ L. IsClosedForm (bound_term self.old term.now) environment.now → IfOk result (IsUnfoundFor L self.old term.now)) }
        ensures itself { is_alias (node_of (bound_term self.old term.now)) ≡ false → IfOk result (IsFoundItself (bound_term self.old term.now) self.new.terms) }
        ensures only_memory { is_alias (node_of (bound_term self.old term.now)) ≡ false → IfErr result (λ s. s ≡ Stop.OutOfMemory) }
        ensures left { is_open_form (bound_term self.old term.now) environment.now ≡ true → IsLeftUndecided result }
        ensures stops { is_headline self.old.typing_mode ≡ true → IfErr result (λ s. s ≡ Stop.OutOfMemory) }
    {
        self.holds_together();
        let form = self.bound_form(term)?;
        if !self.is_alias_at(form) {
            return Ok(Found::Is(form));
        }
        if self.is_open(environment, form) {
            return Ok(Found::Undecided);
        }
        self.form_of_alias(environment, form)
    }

    /// The number of a term with its bindings followed. Nothing changes but that there may be more terms.
    pub(crate) fn bound_form(&mut self, term: &Term) -> Result<TermId, Stop>
        ensures kept { Keeps self.old.terms self.new.terms }
        ensures unchanged { self.new ≡ record self.old { terms = self.new.terms } }
        ensures term { IfOk result (HasTerm self.new.terms) }
        ensures tree { IfOk result (λ id. erased_at self.new.terms id ≡ bound_term self.old term.now) }
        ensures stops { IfErr result (λ s. s ≡ Stop.OutOfMemory) }
    {
        let id = self.terms.intern(term)?;
        Ok(follow(&mut self.terms, &self.inference, id)?)
    }

    #[tactic(auto, using(crate::proofs::FormAnswerLemmas::forms))]
    /// Whether the term of a number is an alias.
    pub(crate) fn is_alias_at(&self, id: TermId) -> bool
        requires { IsIn self.now.terms id }
        ensures { result ≡ is_alias (node_of (erased_at self.now.terms id)) }
    {
        matches!(self.terms.node(id), Node::Alias(_))
    }

    #[tactic(auto, using(crate::proofs::FormAnswerLemmas::forms))]
    /// Whether an inference variable stands in a term or in an environment.
    pub(crate) fn is_open(&self, environment: &[Clause], id: TermId) -> bool
        requires { IsIn self.now.terms id }
        ensures { result ≡ (some_node is_any_infer (erased_at self.now.terms id) || some_env is_any_infer environment.now) }
    {
        self.terms.has_infer(id) || some_in_env(NodeTest::IsAnyInfer, environment)
    }

    /// What the head form of a term comes to at the remaining depth. Nothing changes but that there may be more
    /// terms, accesses and delayed faults.
    fn form_of_alias(&mut self, environment: &[Clause], id: TermId) -> Result<Found, Stop>
        requires { IsIn self.old.terms id }
        ensures kept { Keeps self.old.terms self.new.terms }
        ensures unchanged { self.new ≡ restored self.old self.new }
        ensures faults { RecordsCausedFaults self.old self.new }
        ensures goes_back { GoesBack self.old self.new }
        ensures within { IfOk result (FoundIn self.new.terms) }
        ensures says { WhereOwed self.old self.new environment.now (λ L. SaysForm L (erased_at self.old.terms id) self.new.terms result) }
        ensures stops { is_headline self.old.typing_mode ≡ true → IfErr result (λ s. s ≡ Stop.OutOfMemory) }
    {
        let depth = self.remaining_depth();
        let mut listed = RegionConstraints::new(self.allocator());
        self.evaluate(&AskedForm(id), environment, depth, &mut listed)
    }

    /// The head form of a term without inference variables at a depth, if it is known. Nothing changes but that there may be
    /// more terms, accesses and delayed faults.
    pub(crate) fn closed_form_below(
        &mut self,
        environment: &[Clause],
        id: TermId,
        depth: u32,
    ) -> Result<Option<TermId>, Fault>
        requires { IsIn self.old.terms id }
        ensures found { IfOk result (λ o. IfSome o (IsFoundForm environment.now depth (tree_at self.old.terms id) self.old self.new)) }
        ensures refused { WhenRefused result (LacksConstructor environment.now depth (tree_at self.old.terms id) self.old self.new) }
        ensures unchanged { self.new ≡ restored self.old self.new }
        ensures faults { RecordsCausedFaults self.old self.new }
        ensures goes_back { GoesBack self.old self.new }
        ensures fault { IsFaultFor self.old self.new result }
    {
        let mut listed = RegionConstraints::new(self.allocator());
        match self.evaluate(&AskedForm(id), environment, depth, &mut listed) {
            Ok(Found::Is(form)) => Ok(Some(form)),
            Ok(Found::Refuted) => Err(Fault::NoSolution),
            Ok(Found::Undecided) => Ok(None),
            Err(stop) => {
                self.undecided_by(stop)?;
                Ok(None)
            }
        }
    }

    /// The term of a number, if it is a type or a constant. Only memory is refused.
    pub(crate) fn form_at(&self, id: TermId) -> Result<Option<Term>, Fault>
        ensures found { HasTerm self.now.terms id → IfOk result (IsAnswered (erased_at self.now.terms id)) }
        ensures none { (HasTerm self.now.terms id → ⊥) → IfOk result (λ o. o ≡ None) }
        ensures only_memory { IfErr result (λ f. f ≡ Fault.OutOfMemory) }
    {
        if !self.terms.contains(id) {
            return Ok(None);
        }
        let Ok(term) = self.terms.to_term(id) else {
            return Err(Fault::OutOfMemory);
        };
        Ok(Some(term))
    }
}
