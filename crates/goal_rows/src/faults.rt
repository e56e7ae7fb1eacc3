use std::alloc::AllocError;

/// Why the rows were not all printed.
#[derive(Debug, Drop)]
pub enum RowsFault {
    OutOfMemory,
    Output,
    /// The program's own tables are refused. No run shows it.
    Tables,
}

impl From<AllocError> for RowsFault {
    fn from(_fault: AllocError) -> RowsFault {
        RowsFault::OutOfMemory
    }
}
