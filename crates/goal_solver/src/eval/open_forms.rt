//! The head forms of aliases that hold inference variables.
ghost use Rattle.std.specs.Prelude.{◌≡◌, ◌<◌, ◌∷◌, [], false, is_some, None, length, IfOk, IfErr, IfSome, OnOk, OnErr, IsOkUnless};
ghost use Rattle.goal_terms.specs.Erased.{erased};
ghost use Rattle.goal_terms.specs.Tree.{variable};
ghost use Rattle.goal_interner.specs.TableMeaning.{Keeps};
ghost use Rattle.goal_terms.specs.TreeOf.{tree_of_alias, tree_of_term};
ghost use Rattle.goal_lists.specs.Interned.{IsIn, erased_at};
ghost use Rattle.goal_solver.specs.Accesses.{RecordsCausedFaults};
ghost use Rattle.goal_solver.specs.GoingBack.{GoesBack, restored};
ghost use Rattle.goal_solver.specs.HeadForms.{bound_term, is_open_form, IsOpenForm};
ghost use Rattle.goal_solver.specs.OpenAnswers.{answers_term};
ghost use Rattle.goal_solver.specs.OpenForms.{OpensFrom, OpensForm, taking, kind_taking, gives_form};
ghost use Rattle.goal_solver.specs.Relating.{ChangesRecords, IsFaultFor};
ghost use Rattle.goal_solver.specs.State.{kinds_of};
ghost use Rattle.goal_solver.specs.TranslatedArgs.{IsSameEnvironment};
ghost use Rattle.goal_solver.specs.Variables.{with_variables};

use crate::context::EvalCtxt;
use crate::context::instantiate::into_alias;
use crate::eval::where_goals::copied_clauses;
use crate::faults::Fault;
use goal_interner::term_nodes::TermId;
use goal_terms::answers::Certainty;
use goal_terms::predicates::{Clause, Goal, NormalizesTo};
use goal_terms::terms::{AliasTerm, Term};

impl EvalCtxt<'_> {
    /// The head form of a term that is an alias which holds an inference variable, or which is asked for in an
    /// environment with one, bindings followed. There is none of another term.
    pub(crate) fn open_form(
        &mut self,
        environment: &[Clause],
        term: &Term,
    ) -> Result<Option<Term>, Fault>
        ensures none { is_open_form (bound_term self.old term.now) environment.now ≡ false → IfOk result (λ o. o ≡ None) }
        ensures only_memory { is_open_form (bound_term self.old term.now) environment.now ≡ false → IfErr result (λ f. f ≡ Fault.OutOfMemory) }
        ensures opens { IsOpenForm self.old environment.now term.now → OpensForm answers_term environment.now (bound_term self.old term.now) self.old result self.new }
        ensures unchanged { gives_form result ≡ false → self.new ≡ restored self.old self.new }
        ensures alone { ChangesRecords self.old self.new }
        ensures faults { RecordsCausedFaults self.old self.new }
        ensures goes_back { GoesBack self.old self.new }
        ensures fault { IsFaultFor self.old self.new result }
    {
        match self.open_alias(environment, term)? {
            None => Ok(None),
            Some(alias) => self.form_of_open(environment, alias),
        }
    }

    /// The alias that a term is, bindings followed, if an inference variable stands in it or in the environment.
    /// Nothing changes but that there may be more terms. Only memory is refused.
    pub(crate) fn open_alias(
        &mut self,
        environment: &[Clause],
        term: &Term,
    ) -> Result<Option<AliasTerm>, Fault>
        ensures opens { IfOk result (λ o. is_some o ≡ is_open_form (bound_term self.old term.now) environment.now) }
        ensures alias { IfOk result (λ o. IfSome o (λ a. erased (tree_of_alias a) ≡ bound_term self.old term.now)) }
        ensures kept { Keeps self.old.terms self.new.terms }
        ensures unchanged { self.new ≡ record self.old { terms = self.new.terms } }
        ensures only_memory { IsOkUnless result Fault.OutOfMemory }
    {
        let Ok(form) = self.bound_form(term) else {
            return Err(Fault::OutOfMemory);
        };
        if !self.is_open_alias(environment, form) {
            return Ok(None);
        }
        let Ok(copy) = self.terms.to_term(form) else {
            return Err(Fault::OutOfMemory);
        };
        Ok(Some(into_alias(copy)))
    }

    /// Whether a term is an alias which holds an inference variable, or which is asked for in an environment with one.
    fn is_open_alias(&self, environment: &[Clause], id: TermId) -> bool
        requires { IsIn self.now.terms id }
        ensures { result ≡ is_open_form (erased_at self.now.terms id) environment.now }
    {
        self.is_alias_at(id) && self.is_open(environment, id)
    }

    /// The head form of an alias that holds an inference variable, or that is asked for in an environment with one.
    /// Where there is none nothing changes but terms and what is recorded.
    #[cycle(open)]
    pub(crate) fn form_of_open(
        &mut self,
        environment: &[Clause],
        alias: AliasTerm,
    ) -> Result<Option<Term>, Fault>
        ensures opens { OpensFrom answers_term environment.now (erased (tree_of_alias alias)) self.old result self.new }
        ensures unchanged { gives_form result ≡ false → self.new ≡ restored self.old self.new }
        ensures alone { ChangesRecords self.old self.new }
        ensures faults { RecordsCausedFaults self.old self.new }
        ensures goes_back { GoesBack self.old self.new }
        ensures fault { IsFaultFor self.old self.new result }
    {
        if self.remaining_depth == 0 {
            return Ok(None);
        }
        self.holds_together();
        let before = self.snapshot();
        let known = self.delayed_faults.len();
        let found = self.found_form(environment, alias);
        self.keep_caused_faults(known);
        if !gives_form(&found) {
            self.rollback(before);
        }
        found
    }

    /// What such an alias normalizes to: what a fresh variable stands for once the answer is applied. Where there is
    /// no head form, something may stay.
    #[cycle(open)]
    fn found_form(
        &mut self,
        environment: &[Clause],
        alias: AliasTerm,
    ) -> Result<Option<Term>, Fault>
        requires positive { 0 < self.old.remaining_depth }
        ensures opens { OpensFrom answers_term environment.now (erased (tree_of_alias alias)) self.old result self.new }
        ensures alone { ChangesRecords self.old self.new }
        ensures goes_back { GoesBack self.old self.new }
        ensures fault { IsFaultFor self.old self.new result }
    {
        let expected = self.fresh_term(alias.kind.is_type())?;
        let asked = normalization(environment, alias, expected)?;
        let response = self.project_below(&asked)?;
        if let Certainty::Maybe = self.apply_sure(&response)? {
            return Ok(None);
        }
        let Ok(id) = self.bound_form(&asked.predicate.term) else {
            return Err(Fault::OutOfMemory);
        };
        self.form_at(id)
    }

    #[tactic(auto, using(goal_terms::proofs::TreeLemmas::tree_equations))]
    /// A fresh variable for a type, or for a constant. Only memory is refused; then nothing changes.
    fn fresh_term(&mut self, is_type: bool) -> Result<Term, Fault>
        ensures fresh { IfOk result (λ t. tree_of_term t ≡ variable (taking is_type (length (kinds_of self.old)))) }
        ensures made { OnOk result (self.new ≡ with_variables (kind_taking is_type ∷ []) self.old) }
        ensures unchanged { OnErr result (self.new ≡ self.old) }
        ensures goes_back { GoesBack self.old self.new }
        ensures only_memory { IsOkUnless result Fault.OutOfMemory }
    {
        if is_type {
            Ok(Term::Ty(self.next_ty_infer()?))
        } else {
            Ok(Term::Const(self.next_const_infer()?))
        }
    }
}

/// The goal that an alias normalizes to a term. Only memory is refused.
fn normalization(
    environment: &[Clause],
    alias: AliasTerm,
    term: Term,
) -> Result<Goal<NormalizesTo>, Fault>
    ensures alias { IfOk result (λ g. g.predicate.alias ≡ alias) }
    ensures term { IfOk result (λ g. g.predicate.term ≡ term) }
    ensures environment { IfOk result (λ g. IsSameEnvironment environment.now g.param_env.items) }
    ensures only_memory { IsOkUnless result Fault.OutOfMemory }
{
    let Ok(param_env) = copied_clauses(*alias.args.allocator(), environment) else {
        return Err(Fault::OutOfMemory);
    };
    Ok(Goal {
        param_env,
        predicate: NormalizesTo { alias, term },
    })
}

/// Whether there is a head form.
fn gives_form(found: &Result<Option<Term>, Fault>) -> bool
    ensures { result ≡ gives_form found.now }
{
    matches!(found, Ok(Some(_)))
}
