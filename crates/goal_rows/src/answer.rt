use goal_program::names::ProgramNames;
use goal_solver::eval::goals::GoalFault;
use goal_solver::faults::{DepthTooLarge, Fault};
use goal_tables::faults::TableFault;
use goal_terms::terms::Term;
use goal_text::text::Shown;
use std::fmt;

/// The answer of a row. A `Yes` has the type or constant that an alias stands for, `Faults` the number of
/// delayed faults, and `Accesses` that of recorded accesses.
#[derive(Drop)]
pub enum Answer {
    Yes(Option<Term>),
    No,
    Maybe,
    Faults(usize),
    Accesses(usize),
    Refused(Refusal),
}

/// Why a question was refused: its tables, its goal or its limit on the depth was not taken, or the
/// run was given up.
#[derive(Clone, Copy)]
pub enum Refusal {
    Tables(TableFault),
    Goal(GoalFault),
    Depth(DepthTooLarge),
    Run(Fault),
}

impl fmt::Display for Answer {
    fn fmt<W: fmt::Write>(&self, f: &mut fmt::Formatter<W>) -> fmt::Result {
        match self {
            Answer::Yes(None) => write!(f, "yes"),
            Answer::Yes(Some(term)) => {
                let text = Shown {
                    term: term.view(),
                    names: &ProgramNames,
                };
                write!(f, "yes {text}")
            }
            Answer::No => write!(f, "no"),
            Answer::Maybe => write!(f, "maybe"),
            Answer::Faults(count) => write!(f, "faults {count}"),
            Answer::Accesses(count) => write!(f, "accesses {count}"),
            Answer::Refused(refusal) => write!(f, "refused {refusal}"),
        }
    }
}

/// The name of the fault.
impl fmt::Display for Refusal {
    fn fmt<W: fmt::Write>(&self, f: &mut fmt::Formatter<W>) -> fmt::Result {
        match self {
            Refusal::Tables(fault) => write!(f, "{fault:?}"),
            Refusal::Goal(fault) => write!(f, "{fault:?}"),
            Refusal::Depth(fault) => write!(f, "{fault:?}"),
            Refusal::Run(fault) => write!(f, "{fault:?}"),
        }
    }
}
