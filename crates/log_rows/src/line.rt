//! The parts of a line.

use hex::FromHexError;
use js_base::{Blob, NoMemory, read_decimal};
use std::alloc::{AllocError, AllocFailed, Global};

/// Why a line is not read.
#[derive(Clone, Copy, Debug, PartialEq, Eq)]
pub(crate) enum LineFault {
    /// It is not in the language.
    Bad,
    NoMemory,
}

impl From<AllocError> for LineFault {
    fn from(_refused: AllocError) -> LineFault {
        LineFault::NoMemory
    }
}

impl<T: Drop> From<AllocFailed<T>> for LineFault {
    fn from(_refused: AllocFailed<T>) -> LineFault {
        LineFault::NoMemory
    }
}

impl From<NoMemory> for LineFault {
    fn from(_refused: NoMemory) -> LineFault {
        LineFault::NoMemory
    }
}

/// A line's first word, and what stands behind the space after it.
pub(crate) fn split_word(line: &[u8]) -> (&[u8], &[u8]) {
    match line.iter().position(|byte| *byte == b' ') {
        Some(space) => {
            let (word, rest) = line.split_at(space);
            match rest {
                [_, rest @ ..] => (word, rest),
                [] => (word, rest),
            }
        }
        None => (line, b""),
    }
}

/// The bytes that hexadecimal digits spell.
pub(crate) fn spelled_bytes(alloc: Global, digits: &[u8]) -> Result<Blob, LineFault> {
    match hex::decode(alloc, digits) {
        Ok(bytes) => Ok(Blob::of(alloc, bytes.as_slice())?),
        Err(FromHexError::OutOfMemory) => Err(LineFault::NoMemory),
        Err(_) => Err(LineFault::Bad),
    }
}

/// The number that the text spells.
pub(crate) fn number(text: &[u8]) -> Result<usize, LineFault> {
    let Ok(number) = read_decimal(text) else {
        return Err(LineFault::Bad);
    };
    match usize::try_from(number) {
        Ok(number) => Ok(number),
        Err(_) => Err(LineFault::Bad),
    }
}
