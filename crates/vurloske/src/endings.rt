//! Why a program ends before its last statement.
use goal_tables::faults::TableFault;
use std::alloc::{AllocError, AllocFailed};
use std::{fmt, io};
use vurloske_ast::ast::Position;
use vurloske_ast::mistake::{Mistake, SyntaxFault};
use vurloske_names::faults::ItemFault;

/// Why a program ends before its last statement.
#[derive(Drop)]
pub enum Ending {
    OutOfMemory,
    /// The input cannot be read.
    Input,
    /// The output cannot be written.
    Output,
    /// The text is not understood.
    Mistake(Mistake),
    /// Something else comes out than is expected at a place.
    Unexpected(Position, Unexpected),
    /// The tables of the text's items are refused. The place is that of the item with the fault, where it
    /// is known.
    Tables(Option<Position>, TableFault),
}

/// What writing comes to.
pub fn output(written: io::Result<()>) -> Result<(), Ending> {
    match written {
        Ok(()) => Ok(()),
        Err(_) => Err(Ending::Output),
    }
}

/// What was expected, and what came.
#[derive(Drop)]
pub struct Unexpected {
    pub expected: String,
    pub found: String,
}

impl From<AllocError> for Ending {
    fn from(_: AllocError) -> Ending {
        Ending::OutOfMemory
    }
}

impl<T: Drop> From<AllocFailed<T>> for Ending {
    fn from(_: AllocFailed<T>) -> Ending {
        Ending::OutOfMemory
    }
}

impl From<Mistake> for Ending {
    fn from(mistake: Mistake) -> Ending {
        Ending::Mistake(mistake)
    }
}

impl From<SyntaxFault> for Ending {
    fn from(fault: SyntaxFault) -> Ending {
        match fault {
            SyntaxFault::OutOfMemory => Ending::OutOfMemory,
            SyntaxFault::Mistake(mistake) => Ending::Mistake(mistake),
        }
    }
}

impl From<ItemFault> for Ending {
    fn from(fault: ItemFault) -> Ending {
        match fault {
            ItemFault::OutOfMemory => Ending::OutOfMemory,
            ItemFault::Mistake(mistake) => Ending::Mistake(mistake),
        }
    }
}

/// An ending as it is reported, with the text that was read.
#[derive(Clone, Copy)]
pub struct ShownEnding<'a> {
    pub ending: &'a Ending,
    pub text: &'a str,
}

impl fmt::Display for ShownEnding<'_> {
    fn fmt<W: fmt::Write>(&self, f: &mut fmt::Formatter<W>) -> fmt::Result {
        match self.ending {
            Ending::OutOfMemory => f.write_str("fault OutOfMemory"),
            Ending::Input => f.write_str("fault Input"),
            Ending::Output => f.write_str("fault Output"),
            Ending::Mistake(mistake) => {
                let shown = mistake.shown(self.text);
                write!(f, "{shown}")
            }
            Ending::Unexpected(Position { line, column }, unexpected) => {
                write!(f, "{line}:{column}: {unexpected}")
            }
            Ending::Tables(None, fault) => write!(f, "refused {fault:?}"),
            Ending::Tables(Some(Position { line, column }), fault) => {
                write!(f, "{line}:{column}: refused {fault:?}")
            }
        }
    }
}

impl fmt::Display for Unexpected {
    fn fmt<W: fmt::Write>(&self, f: &mut fmt::Formatter<W>) -> fmt::Result {
        let expected = &self.expected;
        let found = &self.found;
        write!(f, "expected {expected}, found {found}")
    }
}
