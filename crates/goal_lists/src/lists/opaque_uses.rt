//! What a typing mode makes of an opaque type.
ghost use Rattle.std.specs.Prelude.{◌≡◌, ◌==◌};
ghost use Rattle.std.specs.List.{list_any};
ghost use Rattle.goal_lists.specs.OpaqueUses.{first_use_of, opaque_use};
ghost use Rattle.goal_lists.specs.Settings.{among};

use crate::lists::FirstUse;
use goal_tables::lookup::IndexedTables;
use goal_tables::rows::OpaqueRow;
use goal_terms::answers::OpaqueAccess;
use goal_terms::ids::OpaqueId;
use goal_terms::modes::TypingMode;
use goal_terms::terms::AliasTermKind;

/// What a typing mode makes of an opaque type: its hidden type, itself, itself with an access recorded,
/// the hidden type that is being defined, or nothing that is decided here.
pub(crate) enum OpaqueUse {
    Revealed,
    Rigid,
    Recorded(OpaqueAccess),
    Defining(FirstUse),
    Undecided,
}

/// What the first use of an alias takes as its hidden type, if it is an opaque type that a mode defines. It
/// takes no memory.
pub fn first_use_of(
    rows: &IndexedTables,
    mode: &TypingMode,
    kind: AliasTermKind,
) -> Option<FirstUse>
    ensures { result ≡ first_use_of rows.now mode.now kind }
{
    let AliasTermKind::OpaqueTy(id) = kind else {
        return None;
    };
    match use_of(mode, rows.opaque_row(id)?) {
        OpaqueUse::Defining(first) => Some(first),
        OpaqueUse::Revealed => None,
        OpaqueUse::Rigid => None,
        OpaqueUse::Recorded(_) => None,
        OpaqueUse::Undecided => None,
    }
}

/// What a typing mode makes of an opaque type.
pub(crate) fn use_of(mode: &TypingMode, row: &OpaqueRow) -> OpaqueUse
    ensures { result ≡ opaque_use mode.now row.now }
{
    match mode {
        TypingMode::Coherence => OpaqueUse::Undecided,
        TypingMode::Analysis {
            defining_opaque_types,
        } => {
            if is_among(defining_opaque_types, row) {
                OpaqueUse::Defining(FirstUse::Expected)
            } else {
                OpaqueUse::Rigid
            }
        }
        TypingMode::Borrowck {
            defining_opaque_types,
        } => {
            if is_among(defining_opaque_types, row) {
                OpaqueUse::Defining(FirstUse::TypeChecked)
            } else {
                OpaqueUse::Rigid
            }
        }
        TypingMode::PostBorrowckAnalysis {
            defined_opaque_types,
        } => {
            if is_among(defined_opaque_types, row) {
                OpaqueUse::Revealed
            } else {
                OpaqueUse::Rigid
            }
        }
        TypingMode::PostAnalysis => OpaqueUse::Revealed,
        TypingMode::ErasedNotCoherence => {
            let access = if row.is_local {
                OpaqueAccess::IfDefining(row.id)
            } else {
                OpaqueAccess::IfPostAnalysis
            };
            OpaqueUse::Recorded(access)
        }
    }
}

/// Whether an opaque type is local and among these.
fn is_among(ids: &[OpaqueId], row: &OpaqueRow) -> bool
    ensures { result ≡ among ids.now row.now }
{
    row.is_local && has_id(ids, row.id)
}

fn has_id(ids: &[OpaqueId], id: OpaqueId) -> bool
    ensures { result ≡ list_any (λ i. i.0 == id.0) ids.now }
{
    ids.iter().any(|i| *i == id)
}
