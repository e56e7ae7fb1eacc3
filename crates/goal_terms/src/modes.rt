use crate::ids::OpaqueId;

/// The phase of checking on whose behalf a goal is asked.
#[derive(Clone, Drop)]
pub enum TypingMode {
    Coherence,
    Analysis {
        defining_opaque_types: Vec<OpaqueId>,
    },
    Borrowck {
        defining_opaque_types: Vec<OpaqueId>,
    },
    PostBorrowckAnalysis {
        defined_opaque_types: Vec<OpaqueId>,
    },
    PostAnalysis,
    ErasedNotCoherence,
}
