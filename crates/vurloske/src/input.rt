//! Reads the text.
use crate::endings::Ending;
use std::alloc::Global;
use std::io::{BufReader, ErrorKind, Read};
use vurloske_ast::ast::Position;
use vurloske_ast::mistake::{Found, Mistake};
use vurloske_ast::phrase::{Expected, Phrase};

/// The text that a reader has, to its end. A mistake where it is no UTF-8.
pub fn read_text<R: Read + Drop>(alloc: Global, reader: R) -> Result<String, Ending> {
    let bytes = read_bytes(alloc, reader)?;
    match String::from_utf8(bytes) {
        Ok(text) => Ok(text),
        Err(error) => {
            let good = error.utf8_error().valid_up_to();
            Err(no_text(error.as_bytes(), good))
        }
    }
}

/// What a reader has, to its end.
fn read_bytes<R: Read + Drop>(alloc: Global, reader: R) -> Result<Vec<u8>, Ending> {
    let mut reader = match BufReader::new(alloc, reader) {
        Ok(reader) => reader,
        Err(_) => return Err(Ending::OutOfMemory),
    };
    let mut bytes = Vec::new(alloc);
    match reader.read_to_end(&mut bytes) {
        Ok(_) => Ok(bytes),
        Err(error) if matches!(error.kind(), ErrorKind::OutOfMemory) => Err(Ending::OutOfMemory),
        Err(_) => Err(Ending::Input),
    }
}

/// That only so many bytes are UTF-8.
fn no_text(bytes: &[u8], good: usize) -> Ending {
    Ending::Mistake(Mistake {
        at: Position::behind(bytes.get(..good).unwrap_or(&[])),
        expected: Expected::Phrase(Phrase::UTF_8),
        found: Found::Word(Phrase::OTHER_BYTES),
    })
}
