//! What a goal is answered.
ghost use Rattle.std.specs.Prelude.{◌≡◌, ◌↔◌, Ok, Err, IsErr, IfOk};
ghost use Rattle.vurloske_answers.specs.Answers.{IsListed, IsTermFor, Says};

use goal_interner::term_nodes::OutOfMemory;
use goal_solver::eval::goals::GoalFault;
use goal_solver::faults::{DepthTooLarge, Fault};
use goal_terms::answers::{Certainty, Response};
use goal_terms::terms::Term;
use goal_text::names::TermNames;
use goal_text::text::Shown;
use std::fmt;

/// What a goal is answered. A `Yes` has the term of the alias that was asked for.
#[derive(Drop)]
pub enum Answer {
    Yes(Option<Term>),
    No,
    Maybe,
    Refused(Refusal),
}

/// Why a goal is not answered: it is not taken, its limit on the depth is not, or the run was given up.
#[derive(Clone, Copy)]
pub enum Refusal {
    Goal(GoalFault),
    Depth(DepthTooLarge),
    Run(Fault),
}

/// What is answered where a goal was evaluated. `asked` is the variable that takes an alias's term. Want of
/// memory is no answer.
pub fn answer_of(
    evaluated: Result<Response, Fault>,
    asked: Option<u32>,
) -> Result<Answer, OutOfMemory>
    ensures says { IfOk result (Says evaluated asked) }
    ensures memory { IsErr result ↔ (evaluated ≡ Err Fault.OutOfMemory) }
{
    match evaluated {
        Ok(response) => Ok(answer_in(response, asked)),
        Err(Fault::NoSolution) => Ok(Answer::No),
        Err(Fault::OutOfMemory) => Err(OutOfMemory),
        Err(fault) => Ok(Answer::Refused(Refusal::Run(fault))),
    }
}

/// What a response says.
fn answer_in(response: Response, asked: Option<u32>) -> Answer
    ensures { Says (Ok response) asked result }
{
    match response.certainty {
        Certainty::Maybe => Answer::Maybe,
        Certainty::Yes => Answer::Yes(term_in(response, asked)),
    }
}

/// The term that a response lists for the variable that was asked for, if one was.
fn term_in(response: Response, asked: Option<u32>) -> Option<Term>
    ensures { IsTermFor response asked result }
{
    value_of(response.var_values, asked?)
}

/// The value that is listed for a variable.
fn value_of(mut values: Vec<(u32, Term)>, variable: u32) -> Option<Term>
    ensures { IsListed values.items variable result }
{
    let place = values.iter().position(|value| value.0 == variable)?;
    let (_, term) = values.swap_remove(place);
    Some(term)
}

/// The name of the fault.
impl fmt::Display for Refusal {
    fn fmt<W: fmt::Write>(&self, f: &mut fmt::Formatter<W>) -> fmt::Result {
        match self {
            Refusal::Goal(fault) => write!(f, "{fault:?}"),
            Refusal::Depth(fault) => write!(f, "{fault:?}"),
            Refusal::Run(fault) => write!(f, "{fault:?}"),
        }
    }
}

/// An answer as it is printed, its term by these names.
#[derive(Clone, Copy)]
pub struct ShownAnswer<'a, N: TermNames> {
    pub answer: &'a Answer,
    pub names: &'a N,
}

impl<N: TermNames> fmt::Display for ShownAnswer<'_, N> {
    ghost use Rattle.vurloske_answers.specs.Answers.{word_text};

    ghost output = { λ s. word_text s.answer.now };

    fn fmt<W: fmt::Write>(&self, f: &mut fmt::Formatter<W>) -> fmt::Result {
        match self.answer {
            Answer::Yes(None) => f.write_str("yes"),
            Answer::Yes(Some(term)) => {
                let term = term.view();
                let names = self.names;
                let shown = Shown { term, names };
                write!(f, "{shown}")
            }
            Answer::No => f.write_str("no"),
            Answer::Maybe => f.write_str("maybe"),
            Answer::Refused(refusal) => write!(f, "refused {refusal}"),
        }
    }
}
