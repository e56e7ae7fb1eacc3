//! Answers that are kept, given again by the variables of who asks.
ghost use Rattle.std.specs.Prelude.{◌≡◌, ◌<◌, length, IfOk, IfSome, IsOkUnless};
ghost use Rattle.goal_interner.specs.TableMeaning.{Keeps};
ghost use Rattle.goal_lists.specs.Interned.{IsIn};
ghost use Rattle.goal_solver.specs.Accesses.{RecordsCausedFaults};
ghost use Rattle.goal_solver.specs.GoingBack.{GoesBack};
ghost use Rattle.goal_solver.specs.Relating.{ChangesRecords, IsFaultFor};

use crate::context::EvalCtxt;
use crate::faults::Fault;
use goal_interner::term_nodes::TermId;
use goal_lists::outcomes::Outcome;
use goal_search::canonical::{
    numbers_by_canonical, renumbered_both, renumbered_equation, renumbered_in,
};
use goal_search::search_graph::{KeptAnswer, Recalled};
use goal_terms::answers::Certainty;

impl EvalCtxt<'_> {
    /// What a goal was answered before. Only memory and what was refused is refused; variables are bound as they were.
    pub(crate) fn repeat(&mut self, known: Recalled) -> Result<Certainty, Fault>
        ensures alone { ChangesRecords self.old self.new }
        ensures faults { RecordsCausedFaults self.old self.new }
        ensures goes_back { GoesBack self.old self.new }
        ensures fault { IsFaultFor self.old self.new result }
    {
        match known {
            Recalled::Undecided => Ok(Certainty::Maybe),
            Recalled::Refuted => Err(Fault::NoSolution),
            Recalled::Holds(answer) => self.give_again(answer),
        }
    }

    /// The head form that was found before.
    pub(crate) fn repeat_form(&mut self, known: Recalled) -> Result<Option<TermId>, Fault>
        ensures within { IfOk result (λ o. IfSome o (IsIn self.new.terms)) }
        ensures alone { ChangesRecords self.old self.new }
        ensures faults { RecordsCausedFaults self.old self.new }
        ensures goes_back { GoesBack self.old self.new }
        ensures fault { IsFaultFor self.old self.new result }
    {
        match known {
            Recalled::Undecided => Ok(None),
            Recalled::Refuted => Err(Fault::NoSolution),
            Recalled::Holds(answer) => self.give_form_again(answer),
        }
    }

    /// The head form that an answer keeps, with all else that it leaves.
    pub(crate) fn give_form_again(&mut self, answer: KeptAnswer) -> Result<Option<TermId>, Fault>
        ensures within { IfOk result (λ o. IfSome o (IsIn self.new.terms)) }
        ensures alone { ChangesRecords self.old self.new }
        ensures faults { RecordsCausedFaults self.old self.new }
        ensures goes_back { GoesBack self.old self.new }
        ensures fault { IsFaultFor self.old self.new result }
    {
        let numbers = self.instantiate_vars(&answer)?;
        if !self.give_response(answer.response, &numbers)? {
            return Ok(None);
        }
        self.form_again(answer.response, &numbers)
    }

    /// The head form that a response has, by the numbers here.
    fn form_again(
        &mut self,
        response: usize,
        numbers: &[(u32, u32)],
    ) -> Result<Option<TermId>, Fault>
        ensures within { IfOk result (λ o. IfSome o (IsIn self.new.terms)) }
        ensures alone { ChangesRecords self.old self.new }
        ensures faults { RecordsCausedFaults self.old self.new }
        ensures goes_back { GoesBack self.old self.new }
        ensures only_memory { IsOkUnless result Fault.OutOfMemory }
    {
        let Some(form) = self.search_graph.form(response) else {
            return Ok(None);
        };
        match self.renumbered(form, numbers)? {
            Some(id) => Ok(self.known_term(id)),
            None => Ok(None),
        }
    }

    #[tactic(auto, using(crate::proofs::GoalOutcomeLemmas::numbers))]
    /// A number, if it is that of a type or a constant.
    fn known_term(&self, id: TermId) -> Option<TermId>
        ensures { IfSome result (IsIn self.now.terms) }
    {
        if !self.terms.contains(id) {
            return None;
        }
        Some(id)
    }

    /// Gives again what an answer leaves. It holds, unless it can't be given.
    pub(crate) fn give_again(&mut self, answer: KeptAnswer) -> Result<Certainty, Fault>
        ensures alone { ChangesRecords self.old self.new }
        ensures faults { RecordsCausedFaults self.old self.new }
        ensures goes_back { GoesBack self.old self.new }
        ensures fault { IsFaultFor self.old self.new result }
    {
        let numbers = self.instantiate_vars(&answer)?;
        if self.give_response(answer.response, &numbers)? {
            Ok(Certainty::Yes)
        } else {
            Ok(Certainty::Maybe)
        }
    }

    /// Makes the variables of an answer, and answers the canonical numbers of these and the goal's own, each with the
    /// variable's number here.
    fn instantiate_vars(&mut self, answer: &KeptAnswer) -> Result<Vec<(u32, u32)>, Fault>
        ensures alone { ChangesRecords self.old self.new }
        ensures faults { RecordsCausedFaults self.old self.new }
        ensures goes_back { GoesBack self.old self.new }
        ensures only_memory { IsOkUnless result Fault.OutOfMemory }
    {
        let Ok(mut numbers) = numbers_by_canonical(self.allocator(), &answer.names) else {
            return Err(Fault::OutOfMemory);
        };
        for place in 0..self.search_graph.counts(answer.response).vars {
            self.instantiate_var(answer.response, place, &mut numbers)?;
        }
        Ok(numbers)
    }

    /// Makes a variable of an answer.
    fn instantiate_var(
        &mut self,
        response: usize,
        place: usize,
        numbers: &mut Vec<(u32, u32)>,
    ) -> Result<(), Fault>
        ensures alone { ChangesRecords self.old self.new }
        ensures faults { RecordsCausedFaults self.old self.new }
        ensures goes_back { GoesBack self.old self.new }
        ensures only_memory { IsOkUnless result Fault.OutOfMemory }
    {
        let Some(kind) = self.search_graph.var_kind(response, place) else {
            return Ok(());
        };
        let canonical = numbers.len();
        if canonical >= u32::MAX as usize {
            return Err(Fault::OutOfMemory);
        }
        let made = self.next_variable(kind)?;
        if numbers.push((canonical as u32, made)).is_err() {
            return Err(Fault::OutOfMemory);
        }
        Ok(())
    }

    /// Gives variables the values, and equates the lifetimes, that a response has, by the numbers here. It says whether
    /// each variable could be given its value.
    fn give_response(&mut self, response: usize, numbers: &[(u32, u32)]) -> Result<bool, Fault>
        ensures alone { ChangesRecords self.old self.new }
        ensures faults { RecordsCausedFaults self.old self.new }
        ensures goes_back { GoesBack self.old self.new }
        ensures only_memory { IsOkUnless result Fault.OutOfMemory }
    {
        if !self.give_values_again(response, numbers)? {
            return Ok(false);
        }
        self.equate_again(response, numbers)?;
        Ok(true)
    }

    /// Gives variables the values that a response has, and says whether each could be given.
    fn give_values_again(&mut self, response: usize, numbers: &[(u32, u32)]) -> Result<bool, Fault>
        ensures alone { ChangesRecords self.old self.new }
        ensures faults { RecordsCausedFaults self.old self.new }
        ensures goes_back { GoesBack self.old self.new }
        ensures only_memory { IsOkUnless result Fault.OutOfMemory }
    {
        for place in 0..self.search_graph.counts(response).var_values {
            if !self.give_value_again(response, place, numbers)? {
                return Ok(false);
            }
        }
        Ok(true)
    }

    /// Gives a variable the value that it has in a response, and says whether it has it now.
    fn give_value_again(
        &mut self,
        response: usize,
        place: usize,
        numbers: &[(u32, u32)],
    ) -> Result<bool, Fault>
        ensures alone { ChangesRecords self.old self.new }
        ensures faults { RecordsCausedFaults self.old self.new }
        ensures goes_back { GoesBack self.old self.new }
        ensures only_memory { IsOkUnless result Fault.OutOfMemory }
    {
        let Some(kept) = self.search_graph.var_value(response, place) else {
            return Ok(false);
        };
        let Some((variable, value)) = self.renumbered_pair(kept, numbers)? else {
            return Ok(false);
        };
        match self.unify_found(variable, value) {
            Ok(outcome) => Ok(matches!(outcome, Outcome::Holds)),
            Err(_) => Err(Fault::OutOfMemory),
        }
    }

    /// Equates the lifetimes that a response has.
    fn equate_again(&mut self, response: usize, numbers: &[(u32, u32)]) -> Result<(), Fault>
        ensures alone { ChangesRecords self.old self.new }
        ensures faults { RecordsCausedFaults self.old self.new }
        ensures goes_back { GoesBack self.old self.new }
        ensures only_memory { IsOkUnless result Fault.OutOfMemory }
    {
        for place in 0..self.search_graph.counts(response).region_equations {
            self.equate_again_at(response, place, numbers)?;
        }
        Ok(())
    }

    /// Equates the lifetimes of one equation of a response.
    fn equate_again_at(
        &mut self,
        response: usize,
        place: usize,
        numbers: &[(u32, u32)],
    ) -> Result<(), Fault>
        ensures alone { ChangesRecords self.old self.new }
        ensures faults { RecordsCausedFaults self.old self.new }
        ensures goes_back { GoesBack self.old self.new }
        ensures only_memory { IsOkUnless result Fault.OutOfMemory }
    {
        let Some(equation) = self.search_graph.region_equation(response, place) else {
            return Ok(());
        };
        self.add_equation(renumbered_equation(numbers, equation))
    }

    /// The number of a term by other numbers of its variables, if it is one. Nothing changes but that there may be more
    /// terms. Only memory is refused.
    fn renumbered(&mut self, id: TermId, numbers: &[(u32, u32)]) -> Result<Option<TermId>, Fault>
        ensures unchanged { self.new ≡ record self.old { terms = self.new.terms } }
        ensures kept { Keeps self.old.terms self.new.terms }
        ensures only_memory { IsOkUnless result Fault.OutOfMemory }
    {
        match renumbered_in(&mut self.terms, numbers, id) {
            Ok(found) => Ok(found),
            Err(_) => Err(Fault::OutOfMemory),
        }
    }

    /// The same of two terms.
    fn renumbered_pair(
        &mut self,
        pair: (TermId, TermId),
        numbers: &[(u32, u32)],
    ) -> Result<Option<(TermId, TermId)>, Fault>
        ensures unchanged { self.new ≡ record self.old { terms = self.new.terms } }
        ensures kept { Keeps self.old.terms self.new.terms }
        ensures first { IfOk result (λ o. IfSome o (λ p. p.0.0 < length self.new.terms)) }
        ensures second { IfOk result (λ o. IfSome o (λ p. p.1.0 < length self.new.terms)) }
        ensures only_memory { IsOkUnless result Fault.OutOfMemory }
    {
        match renumbered_both(&mut self.terms, numbers, pair) {
            Ok(found) => Ok(found),
            Err(_) => Err(Fault::OutOfMemory),
        }
    }
}
