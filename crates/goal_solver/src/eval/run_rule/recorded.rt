//! What the entries of a rule say to record.
ghost use Rattle.std.specs.Prelude.{◌≡◌};
ghost use Rattle.goal_solver.specs.RunRules.{to_record};

use goal_kinds::rules::RuleEntry;
use goal_terms::answers::{DelayedFault, OpaqueAccess};

/// What is to be recorded.
#[derive(Clone, Copy)]
pub enum ToRecord {
    Access(OpaqueAccess),
    DelayedFault(DelayedFault),
    Nothing,
}

/// What an entry says to record.
pub(crate) fn to_record(entry: &RuleEntry) -> ToRecord
    ensures { result ≡ to_record entry.now }
{
    match entry {
        RuleEntry::Access(access) => ToRecord::Access(*access),
        RuleEntry::DelayedFault(fault) => ToRecord::DelayedFault(*fault),
        _ => ToRecord::Nothing,
    }
}
