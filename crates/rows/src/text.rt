//! Texts, and the escapes that spell bytes in them.

use crate::line::LineFault;
use std::alloc::{AllocError, Global};

/// What the next byte of a text is.
#[derive(Clone, Copy)]
enum Awaited {
    /// A byte that stands for itself, or a backslash.
    Plain,
    /// The letter of an escape.
    Letter,
    /// The first digit of a byte.
    HighDigit,
    /// Its second digit, after the first one.
    LowDigit(u8),
}

/// The bytes that a text spells, while it is read.
#[derive(Drop)]
struct Spelled {
    bytes: Vec<u8>,
    awaited: Awaited,
}

/// The value of a hexadecimal digit.
fn digit_value(digit: u8) -> Option<u8> {
    match digit {
        b'0'..=b'9' => Some(digit - b'0'),
        b'a'..=b'f' => Some(digit - b'a' + 10),
        b'A'..=b'F' => Some(digit - b'A' + 10),
        _ => None,
    }
}

impl Spelled {
    /// Adds a byte of the spelled ones.
    fn put(&mut self, byte: u8) -> Result<(), LineFault> {
        self.bytes.push(byte)?;
        self.awaited = Awaited::Plain;
        Ok(())
    }

    /// Reads the letter behind a backslash.
    fn read_letter(&mut self, letter: u8) -> Result<(), LineFault> {
        match letter {
            b'r' => self.put(b'\r'),
            b'n' => self.put(b'\n'),
            b't' => self.put(b'\t'),
            b'\\' => self.put(b'\\'),
            b'e' => {
                self.awaited = Awaited::Plain;
                Ok(())
            }
            b'x' => {
                self.awaited = Awaited::HighDigit;
                Ok(())
            }
            _ => Err(LineFault::Bad),
        }
    }

    /// Reads the next byte of the text.
    fn read(&mut self, byte: u8) -> Result<(), LineFault> {
        match self.awaited {
            Awaited::Plain if byte == b'\\' => {
                self.awaited = Awaited::Letter;
                Ok(())
            }
            Awaited::Plain => self.put(byte),
            Awaited::Letter => self.read_letter(byte),
            Awaited::HighDigit => match digit_value(byte) {
                Some(high) => {
                    self.awaited = Awaited::LowDigit(high);
                    Ok(())
                }
                None => Err(LineFault::Bad),
            },
            Awaited::LowDigit(high) => match digit_value(byte) {
                Some(low) => self.put((high << 4) | low),
                None => Err(LineFault::Bad),
            },
        }
    }
}

/// The bytes that the text spells. A text that ends within an escape is bad.
pub(crate) fn spelled_bytes(alloc: Global, text: &[u8]) -> Result<Vec<u8>, LineFault> {
    let mut spelled = Spelled {
        bytes: Vec::new(alloc),
        awaited: Awaited::Plain,
    };
    for byte in text {
        spelled.read(*byte)?;
    }
    match spelled.awaited {
        Awaited::Plain => Ok(spelled.bytes),
        Awaited::Letter | Awaited::HighDigit | Awaited::LowDigit(_) => Err(LineFault::Bad),
    }
}

/// The hexadecimal digit of a value below 16.
fn digit_of(value: u8) -> u8 {
    if value < 10 {
        b'0' + value
    } else {
        b'a' + (value & 0xf) - 10
    }
}

/// Adds the spelling of a byte.
fn spell(text: &mut Vec<u8>, byte: u8) -> Result<(), AllocError> {
    match byte {
        b'\r' => text.extend_from_slice(b"\\r"),
        b'\n' => text.extend_from_slice(b"\\n"),
        b'\t' => text.extend_from_slice(b"\\t"),
        b'\\' => text.extend_from_slice(b"\\\\"),
        b' '..=b'~' => text.extend_from_slice(&[byte]),
        _ => text.extend_from_slice(&[b'\\', b'x', digit_of(byte >> 4), digit_of(byte & 0xf)]),
    }
}

/// The one text that spells the bytes in output.
pub(crate) fn spelling(alloc: Global, bytes: &[u8]) -> Result<Vec<u8>, AllocError> {
    let mut text = Vec::new(alloc);
    for byte in bytes {
        spell(&mut text, *byte)?;
    }
    Ok(text)
}
