//! Goals with inference variables that are answered once: what is known of one is answered again.
ghost use Rattle.std.specs.Prelude.{◌≡◌, IsOkUnless};
ghost use Rattle.goal_interner.specs.TableMeaning.{Keeps};
ghost use Rattle.goal_infer.specs.Resolution.{IsSolved};
ghost use Rattle.goal_lists.specs.Interned.{AreIn};

use crate::context::EvalCtxt;
use crate::context::respond::variable_at;
use crate::eval::goal_outcomes::OpenGoal;
use crate::faults::Fault;
use goal_eval::eval::interning::intern_trait_ref;
use goal_eval::eval::outcomes::Stop;
use goal_infer::followed::follow;
use goal_infer::state::InferState;
use goal_interner::term_nodes::{OutOfMemory, TermId};
use goal_interner::term_table::TermTable;
use goal_lists::outcomes::Outcome;
use goal_search::canonical::{CanonicalResponse, canonicalize, list_equations, list_kinds};
use goal_search::search_graph::{
    AskedInput, Begun, CanonicalInput, KeptAnswer, Recalled, StackEntry,
};
use goal_terms::answers::Certainty;
use goal_terms::heads::{Node, Variable};
use goal_terms::ids::TraitId;
use goal_terms::predicates::{BoundConstness, Clause};
use goal_terms::terms::AliasTerm;
use goal_terms::view::TermRef;

impl EvalCtxt<'_> {
    /// What is known of a goal with inference variables. Else it is being answered from now on. Nothing changes but that
    /// there may be more terms. Only memory is refused.
    pub(crate) fn begin_open(
        &mut self,
        environment: &[Clause],
        goal: &OpenGoal,
    ) -> Result<Option<Recalled>, Fault>
        requires { AreIn self.old.terms goal.now.args.items }
        ensures unchanged { self.new ≡ record self.old { terms = self.new.terms } }
        ensures kept { Keeps self.old.terms self.new.terms }
        ensures only_memory { IsOkUnless result Fault.OutOfMemory }
    {
        let Ok(number) = self.trait_number(goal.trait_id, &goal.args) else {
            return Err(Fault::OutOfMemory);
        };
        self.begin_goal(number, goal.constness, environment)
    }

    /// The same of the head form of an alias, bindings followed.
    pub(crate) fn begin_form(
        &mut self,
        environment: &[Clause],
        alias: &AliasTerm,
    ) -> Result<Option<Recalled>, Fault>
        ensures unchanged { self.new ≡ record self.old { terms = self.new.terms } }
        ensures kept { Keeps self.old.terms self.new.terms }
        ensures only_memory { IsOkUnless result Fault.OutOfMemory }
    {
        let Ok(goal) = self.alias_number(alias) else {
            return Err(Fault::OutOfMemory);
        };
        self.begin_goal(goal, None, environment)
    }

    /// The number of a trait with arguments. Nothing changes but that there may be more terms.
    fn trait_number(&mut self, trait_id: TraitId, args: &[TermId]) -> Result<TermId, Stop>
        requires { AreIn self.old.terms args.now }
        ensures kept { Keeps self.old.terms self.new.terms }
        ensures unchanged { self.new ≡ record self.old { terms = self.new.terms } }
    {
        let alloc = self.allocator();
        Ok(intern_trait_ref(alloc, &mut self.terms, trait_id, args)?)
    }

    /// The number of an alias. Nothing changes but that there may be more terms.
    fn alias_number(&mut self, alias: &AliasTerm) -> Result<TermId, Stop>
        ensures kept { Keeps self.old.terms self.new.terms }
        ensures unchanged { self.new ≡ record self.old { terms = self.new.terms } }
    {
        Ok(self.terms.intern_part(TermRef::Alias(alias))?)
    }

    /// The numbers of a variable and of what it stands for. Nothing changes but that there may be more terms.
    fn value_numbers(&mut self, variable: Variable) -> Result<(TermId, TermId), Stop>
        ensures kept { Keeps self.old.terms self.new.terms }
        ensures unchanged { self.new ≡ record self.old { terms = self.new.terms } }
    {
        Ok(value_number(&mut self.terms, &self.inference, variable)?)
    }

    /// What is known of a goal with a number.
    fn begin_goal(
        &mut self,
        goal: TermId,
        constness: Option<BoundConstness>,
        environment: &[Clause],
    ) -> Result<Option<Recalled>, Fault>
        ensures unchanged { self.new ≡ record self.old { terms = self.new.terms } }
        ensures kept { Keeps self.old.terms self.new.terms }
        ensures only_memory { IsOkUnless result Fault.OutOfMemory }
    {
        let known = self.search_graph.environment(environment)?;
        let lasts = known.is_closed && self.storage.is_empty();
        let begun = Begun {
            variables: self.inference.len(),
            bound: self.inference.trail().len(),
            equated: self.inference.equations().len(),
        };
        let mut names = Vec::new(self.allocator());
        let Some(goal) = self.input_goal(goal, lasts, &mut names)? else {
            return Ok(Some(Recalled::Undecided));
        };
        let input = CanonicalInput {
            goal,
            constness,
            environment: known.number,
        };
        let asked = AskedInput {
            input,
            lasts,
            begun,
            names,
        };
        Ok(self.search_graph.begin(asked, self.remaining_depth)?)
    }

    /// The number by which a goal is known: by canonical variables if its answer lasts, and else as it stands.
    fn input_goal(
        &mut self,
        goal: TermId,
        lasts: bool,
        names: &mut Vec<(u32, u32)>,
    ) -> Result<Option<TermId>, Fault>
        ensures unchanged { self.new ≡ record self.old { terms = self.new.terms } }
        ensures kept { Keeps self.old.terms self.new.terms }
        ensures only_memory { IsOkUnless result Fault.OutOfMemory }
    {
        if lasts {
            self.canonicalized(goal, names)
        } else {
            Ok(Some(goal))
        }
    }

    /// The goal that was begun last has come to something, or to nothing that is kept, with a head form if it asks for
    /// one. It is kept if it is right wherever the same is asked; what is kept of one that holds is answered. Nothing
    /// changes but that there may be more terms. Only memory is refused.
    pub(crate) fn end_goal(
        &mut self,
        outcome: Option<Outcome>,
        form: Option<TermId>,
    ) -> Result<Option<KeptAnswer>, Fault>
        ensures unchanged { self.new ≡ record self.old { terms = self.new.terms } }
        ensures kept { Keeps self.old.terms self.new.terms }
        ensures only_memory { IsOkUnless result Fault.OutOfMemory }
    {
        let Some(ended) = self.search_graph.pop() else {
            return Ok(None);
        };
        let depth = self.remaining_depth;
        match outcome {
            Some(Outcome::Holds) => return self.end_holding(ended, form),
            Some(Outcome::Undecided) => self.search_graph.end_undecided(&ended, depth),
            Some(Outcome::Refuted) => self.search_graph.end_decided(&ended.asked, depth, None),
            None => {}
        }
        Ok(None)
    }

    /// The same of a goal that holds. It is kept if no type is hidden, and what it leaves isn't too large to be written
    /// out.
    fn end_holding(
        &mut self,
        ended: StackEntry,
        form: Option<TermId>,
    ) -> Result<Option<KeptAnswer>, Fault>
        ensures unchanged { self.new ≡ record self.old { terms = self.new.terms } }
        ensures kept { Keeps self.old.terms self.new.terms }
        ensures only_memory { IsOkUnless result Fault.OutOfMemory }
    {
        let mut asked = ended.into_asked();
        if !asked.lasts || !self.storage.is_empty() {
            return Ok(None);
        }
        let own = asked.names.len();
        let Some(made) = self.canonical_response(&mut asked, form)? else {
            return Ok(None);
        };
        asked.names.truncate(own);
        let response = self.search_graph.add_response(made)?;
        let depth = self.remaining_depth;
        self.search_graph.end_decided(&asked, depth, Some(response));
        Ok(Some(asked.into_answer(response)))
    }

    /// What is left since a goal began, by canonical variables. There is nothing if it is too large to be written out, or
    /// an older variable stands in it that the goal doesn't have.
    fn canonical_response(
        &mut self,
        asked: &mut AskedInput,
        form: Option<TermId>,
    ) -> Result<Option<CanonicalResponse>, Fault>
        ensures unchanged { self.new ≡ record self.old { terms = self.new.terms } }
        ensures kept { Keeps self.old.terms self.new.terms }
        ensures only_memory { IsOkUnless result Fault.OutOfMemory }
    {
        let own = asked.names.len();
        let mut made = CanonicalResponse::new(self.allocator());
        if !self.list_values(asked, &mut made)? || !self.list_form(form, asked, &mut made)? {
            return Ok(None);
        }
        if list_equations(self.inference.equations(), asked, &mut made).is_err() {
            return Err(Fault::OutOfMemory);
        }
        match list_kinds(&self.kinds, asked, own, &mut made) {
            Ok(true) => Ok(Some(made)),
            Ok(false) => Ok(None),
            Err(_) => Err(Fault::OutOfMemory),
        }
    }

    /// Lists the variables that were there when a goal began and were bound since, each with what it stands for, and says
    /// whether no term is too large for it. Nothing changes but that there may be more terms. Only memory is refused.
    fn list_values(
        &mut self,
        asked: &mut AskedInput,
        made: &mut CanonicalResponse,
    ) -> Result<bool, Fault>
        ensures unchanged { self.new ≡ record self.old { terms = self.new.terms } }
        ensures kept { Keeps self.old.terms self.new.terms }
        ensures only_memory { IsOkUnless result Fault.OutOfMemory }
    {
        for place in asked.begun.bound..self.inference.trail().len() {
            if !self.list_value(place, asked, made)? {
                return Ok(false);
            }
        }
        Ok(true)
    }

    /// Lists the variable that was bound at a place of the trail, if it was there when a goal began.
    fn list_value(
        &mut self,
        place: usize,
        asked: &mut AskedInput,
        made: &mut CanonicalResponse,
    ) -> Result<bool, Fault>
        ensures unchanged { self.new ≡ record self.old { terms = self.new.terms } }
        ensures kept { Keeps self.old.terms self.new.terms }
        ensures only_memory { IsOkUnless result Fault.OutOfMemory }
    {
        let Some(variable) = bound_at(&self.inference, place, asked.begun.variables) else {
            return Ok(true);
        };
        let Ok((id, value)) = self.value_numbers(variable) else {
            return Err(Fault::OutOfMemory);
        };
        let Some(id) = self.canonicalized(id, &mut asked.names)? else {
            return Ok(false);
        };
        let Some(value) = self.canonicalized(value, &mut asked.names)? else {
            return Ok(false);
        };
        if made.var_values.push((id, value)).is_err() {
            return Err(Fault::OutOfMemory);
        }
        Ok(true)
    }

    /// Lists a head form, if there is one, and says whether it isn't too large for it. Nothing changes but that there may
    /// be more terms. Only memory is refused.
    fn list_form(
        &mut self,
        form: Option<TermId>,
        asked: &mut AskedInput,
        made: &mut CanonicalResponse,
    ) -> Result<bool, Fault>
        ensures unchanged { self.new ≡ record self.old { terms = self.new.terms } }
        ensures kept { Keeps self.old.terms self.new.terms }
        ensures only_memory { IsOkUnless result Fault.OutOfMemory }
    {
        let Some(id) = form else {
            return Ok(true);
        };
        made.form = self.canonicalized(id, &mut asked.names)?;
        Ok(made.form.is_some())
    }

    /// The number of a term by canonical variables, if it is one, and not too large to be written out. Nothing changes
    /// but that there may be more terms. Only memory is refused.
    fn canonicalized(
        &mut self,
        id: TermId,
        names: &mut Vec<(u32, u32)>,
    ) -> Result<Option<TermId>, Fault>
        ensures unchanged { self.new ≡ record self.old { terms = self.new.terms } }
        ensures kept { Keeps self.old.terms self.new.terms }
        ensures only_memory { IsOkUnless result Fault.OutOfMemory }
    {
        match canonicalize(&mut self.terms, names, id) {
            Ok(found) => Ok(found),
            Err(_) => Err(Fault::OutOfMemory),
        }
    }
}

/// What a goal came to, by what it was answered: nothing after another fault than a refusal.
pub(crate) fn outcome_of(answered: &Result<Certainty, Fault>) -> Option<Outcome> {
    match answered {
        Ok(Certainty::Yes) => Some(Outcome::Holds),
        Ok(Certainty::Maybe) => Some(Outcome::Undecided),
        Err(Fault::NoSolution) => Some(Outcome::Refuted),
        Err(_) => None,
    }
}

/// The same of the goal for a head form.
pub(crate) fn outcome_of_form(found: &Result<Option<TermId>, Fault>) -> Option<Outcome> {
    match found {
        Ok(Some(_)) => Some(Outcome::Holds),
        Ok(None) => Some(Outcome::Undecided),
        Err(Fault::NoSolution) => Some(Outcome::Refuted),
        Err(_) => None,
    }
}

/// The variable that was bound at a place of the trail, if it is one of the first so many.
fn bound_at(inference: &InferState, place: usize, variables: usize) -> Option<Variable> {
    let number = *inference.trail().get(place)?;
    if number as usize >= variables {
        return None;
    }
    variable_at(inference, number)
}

/// The numbers of a variable and of what stands for it after all bindings.
fn value_number(
    terms: &mut TermTable,
    inference: &InferState,
    variable: Variable,
) -> Result<(TermId, TermId), OutOfMemory>
    requires solved { IsSolved terms.old inference.now }
    ensures kept { Keeps terms.old terms.new }
{
    let parts = Vec::new(terms.allocator());
    let id = terms.intern_node(Node::Variable(variable), parts)?;
    let value = follow(terms, inference, id)?;
    Ok((id, value))
}
