//! What a typing mode says.
ghost use Rattle.std.specs.Prelude.{◌≡◌, true};
ghost use Rattle.goal_lists.specs.Settings.{is_headline as is_of_headline};

use goal_terms::modes::TypingMode;

/// Whether a mode is neither coherence nor the erased one, and defines no opaque type.
pub fn is_headline(mode: &TypingMode) -> bool
    ensures { result ≡ is_of_headline mode.now }
{
    match mode {
        TypingMode::Coherence | TypingMode::ErasedNotCoherence => false,
        TypingMode::Analysis {
            defining_opaque_types,
        }
        | TypingMode::Borrowck {
            defining_opaque_types,
        } => defining_opaque_types.is_empty(),
        TypingMode::PostBorrowckAnalysis { .. } | TypingMode::PostAnalysis => true,
    }
}
