//! The parts of a line.

use js_base::{NoMemory, read_decimal};
use std::alloc::{AllocError, AllocFailed, Global};

/// Why a line is not read.
#[derive(Clone, Copy, Debug, PartialEq, Eq)]
pub(crate) enum LineFault {
    /// It is not in the language.
    Bad,
    NoMemory,
}

impl From<AllocError> for LineFault {
    fn from(_refused: AllocError) -> LineFault {
        LineFault::NoMemory
    }
}

impl<T: Drop> From<AllocFailed<T>> for LineFault {
    fn from(_refused: AllocFailed<T>) -> LineFault {
        LineFault::NoMemory
    }
}

impl From<NoMemory> for LineFault {
    fn from(_refused: NoMemory) -> LineFault {
        LineFault::NoMemory
    }
}

/// A line's first word, and what stands behind the space after it.
pub(crate) fn split_word(line: &[u8]) -> (&[u8], &[u8]) {
    match line.iter().position(|byte| *byte == b' ') {
        Some(space) => {
            let (word, rest) = line.split_at(space);
            match rest {
                [_, rest @ ..] => (word, rest),
                [] => (word, rest),
            }
        }
        None => (line, b""),
    }
}

/// The number that the text spells.
pub(crate) fn number(text: &[u8]) -> Result<u64, LineFault> {
    match read_decimal(text) {
        Ok(number) => Ok(number),
        Err(_) => Err(LineFault::Bad),
    }
}

/// The numbers that stand in the text, with spaces between them.
pub(crate) fn numbers(alloc: Global, text: &[u8]) -> Result<Vec<u64>, LineFault> {
    let mut numbers = Vec::new(alloc);
    for part in text.split(|byte| *byte == b' ') {
        numbers.push(number(part)?)?;
    }
    Ok(numbers)
}
