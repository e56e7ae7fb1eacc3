ghost use Rattle.std.specs.Prelude.{◌≡◌};

use std::alloc::{AllocError, AllocFailed};
use thiserror::Error;
use vurloske_ast::ast::{Ident, Position};
use vurloske_ast::mistake::{Found, Mistake};
use vurloske_ast::phrase::{Expected, Phrase};

/// Why a text was not understood.
#[derive(Clone, Copy, Debug, Error)]
pub enum ItemFault {
    #[error("out of memory")]
    OutOfMemory,
    #[error(transparent)]
    Mistake(Mistake),
}

impl From<AllocError> for ItemFault {
    fn from(_: AllocError) -> ItemFault {
        ItemFault::OutOfMemory
    }
}

impl<T: Drop> From<AllocFailed<T>> for ItemFault {
    fn from(_: AllocFailed<T>) -> ItemFault {
        ItemFault::OutOfMemory
    }
}

/// The fault that was met first, if one was.
#[derive(Clone, Copy)]
pub struct FirstFault(Option<ItemFault>);

impl FirstFault {
    /// Before there was a fault.
    pub const NONE: FirstFault = FirstFault(None);

    /// Whether there was a fault.
    pub fn is_there(&self) -> bool {
        self.0.is_some()
    }

    /// The fault as an error.
    pub fn result(&self) -> Result<(), ItemFault> {
        match self.0 {
            Some(fault) => Err(fault),
            None => Ok(()),
        }
    }

    /// Keeps a fault, if it is the first one.
    pub fn fail(&mut self, fault: ItemFault) {
        if self.0.is_none() {
            self.0 = Some(fault);
        }
    }

    /// Keeps the fault of something that was done, if there is one.
    pub fn check(&mut self, done: Result<(), ItemFault>) {
        if let Err(fault) = done {
            self.fail(fault);
        }
    }

    /// Keeps that there was no memory for a part, if it is so.
    pub fn keep<T: Drop>(&mut self, pushed: Result<(), AllocFailed<T>>) {
        if pushed.is_err() {
            self.fail(ItemFault::OutOfMemory);
        }
    }
}

/// That something else than this name was expected.
pub fn wrong_name(ident: Ident, expected: Phrase) -> ItemFault
    ensures { result ≡ ItemFault.Mistake (record { at = ident.at; expected = Expected.Phrase expected; found = Found.Name }) }
{
    ItemFault::Mistake(Mistake::at_name(ident, expected))
}

/// That something else was expected than what a word says.
pub fn wrong(at: Position, expected: Phrase, found: Phrase) -> ItemFault
    ensures { result ≡ ItemFault.Mistake (record { at = at; expected = Expected.Phrase expected; found = Found.Word found }) }
{
    ItemFault::Mistake(Mistake {
        at,
        expected: Expected::Phrase(expected),
        found: Found::Word(found),
    })
}
