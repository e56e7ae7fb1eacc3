//! Rows that are found by the number of their id.
ghost use Rattle.std.specs.Prelude.{◌≡◌, ℕ};

use crate::rows::{
    AdtRow, ClosureRow, DefRow, FnRow, FreeRow, ImplRow, InherentImplRow, InherentRow, ItemRow,
    OpaqueRow, TraitRow,
};

/// A row with an id of its own in its list.
pub trait Row {
    /// The number of its id.
    ghost id_number: { Self → ℕ };

    /// The number of its id.
    fn number(&self) -> u32
        ensures { result ≡ id_number self.now };
}

impl Row for TraitRow {
    ghost id_number = { λ r. r.id.0 };

    fn number(&self) -> u32 {
        self.id.0
    }
}

impl Row for ItemRow {
    ghost id_number = { λ r. r.id.0 };

    fn number(&self) -> u32 {
        self.id.0
    }
}

impl Row for ImplRow {
    ghost id_number = { λ r. r.id.0 };

    fn number(&self) -> u32 {
        self.id.0
    }
}

impl Row for DefRow {
    ghost id_number = { λ r. r.id.0 };

    fn number(&self) -> u32 {
        self.id.0
    }
}

impl Row for FreeRow {
    ghost id_number = { λ r. r.id.0 };

    fn number(&self) -> u32 {
        self.id.0
    }
}

impl Row for InherentImplRow {
    ghost id_number = { λ r. r.id.0 };

    fn number(&self) -> u32 {
        self.id.0
    }
}

impl Row for InherentRow {
    ghost id_number = { λ r. r.id.0 };

    fn number(&self) -> u32 {
        self.id.0
    }
}

impl Row for OpaqueRow {
    ghost id_number = { λ r. r.id.0 };

    fn number(&self) -> u32 {
        self.id.0
    }
}

impl Row for AdtRow {
    ghost id_number = { λ r. r.id.0 };

    fn number(&self) -> u32 {
        self.id.0
    }
}

impl Row for FnRow {
    ghost id_number = { λ r. r.id.0 };

    fn number(&self) -> u32 {
        self.id.0
    }
}

impl Row for ClosureRow {
    ghost id_number = { λ r. r.id.0 };

    fn number(&self) -> u32 {
        self.id.0
    }
}
