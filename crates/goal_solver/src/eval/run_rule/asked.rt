//! For which variable a rule's list has a term.
ghost use Rattle.std.specs.Prelude.{◌≡◌};
ghost use Rattle.goal_solver.specs.RunRules.{asked_of, asked_as, asked_and, asked_next};

use goal_kinds::rules::RuleEntry;
use goal_terms::node_tests::general_variable;

/// For which variable a list has a term: for none where no entry has one; for the general variable that is
/// expected by the only one that has. Others stands for all else.
#[derive(Clone, Copy)]
pub enum Asked {
    Nothing,
    Variable(u32),
    Others,
}

impl Asked {
    /// With what one more term is expected to be.
    fn and(self, variable: Option<u32>) -> Asked
        ensures { result ≡ asked_and self variable }
    {
        match (self, variable) {
            (Asked::Nothing, Some(variable)) => Asked::Variable(variable),
            _ => Asked::Others,
        }
    }

    /// With one more entry.
    fn with(self, entry: &RuleEntry) -> Asked
        ensures { result ≡ asked_next self entry.now }
    {
        match entry {
            RuleEntry::Term(expected, _) => self.and(general_variable(expected.view().node())),
            _ => self,
        }
    }
}

/// For which variable a list has a term.
pub(crate) fn asked_variable(entries: &[RuleEntry]) -> Asked
    ensures { result ≡ asked_as (asked_of entries.now) }
{
    let mut asked = Asked::Nothing;
    for entry in entries {
        asked = asked.with(entry);
    }
    asked
}
