//! Names of streams and consumers.

ghost use Rattle.std.specs.Prelude.{◌≡◌, ◌<◌, ◌≤◌, length};
ghost use Rattle.js_base.specs.Names.{name_of, first_bad, is_name_byte, ReadsName};

use crate::blob::Blob;
use std::alloc::{AllocError, Global};
use std::marker::Model;
use thiserror::Error;

/// A name of 1 to 255 printed ASCII bytes without `.`, `*`, `>`, `/` and `\`, by the JetStream naming rules.
#[derive(Drop, Debug, PartialEq, Eq)]
pub struct Name {
    text: Blob,
}

impl Model for Name {
    ghost use Rattle.std.specs.Prelude.{ℕ, List, ◌≡◌, Ok};
    ghost use Rattle.js_base.specs.Names.{name_of};

    ghost Value = { List ℕ };

    ghost view = { λ name. name.text };

    ghost invariant = { λ name. name_of name.text ≡ Ok name.text };

    ghost inverse = { λ text. record { text = text } };
}

/// Why a text is no name.
#[derive(Clone, Copy, Debug, PartialEq, Eq, Error)]
pub enum NameFault {
    /// No bytes at all.
    #[error("empty")]
    Empty,
    /// More than 255 bytes.
    #[error("longer than 255 bytes")]
    TooLong,
    /// The place, counted from 0, of the first byte that may not stand in a name.
    #[error("a byte at {0} that may not stand in a name")]
    BadByte(usize),
    /// The text is a name, and there was no memory for a copy of it.
    #[error("out of memory")]
    NoMemory,
}

impl Name {
    /// The name that the text is, in a copy of it. Without bytes it is `Empty`; else with more than 255 it is `TooLong`, before any of them is
    /// looked at; else the first that may not stand in a name is `BadByte`.
    pub fn read(alloc: Global, bytes: &[u8]) -> Result<Name, NameFault>
        ensures { ReadsName result (name_of bytes.now) }
    {
        if bytes.is_empty() {
            return Err(NameFault::Empty);
        }
        if bytes.len() > 255 {
            return Err(NameFault::TooLong);
        }
        if let Some(at) = first_bad(bytes) {
            return Err(NameFault::BadByte(at));
        }
        match Blob::of(alloc, bytes) {
            Ok(text) => Ok(Name { text }),
            Err(_) => Err(NameFault::NoMemory),
        }
    }

    /// The name's text.
    pub fn as_slice(&self) -> &[u8]
        ensures text { result.now ≡ self.now }
        ensures name { name_of self.now ≡ Ok self.now }
    {
        self.text.as_slice()
    }

    /// The name's text, shared.
    pub fn as_blob(&self) -> &Blob
        ensures { result.now ≡ self.now }
    {
        &self.text
    }
}

impl Clone for Name {
    ghost is_clone = { λ name copy. copy ≡ name };

    fn clone(&self) -> Result<Name, AllocError> {
        Ok(Name {
            text: self.text.clone()?,
        })
    }
}

/// The place of the first byte that may not stand in a name.
fn first_bad(text: &[u8]) -> Option<usize>
    ensures { result ≡ first_bad text.now }
{
    text.iter().position(|byte| !is_name_byte(*byte))
}

/// Whether the byte may stand in a name.
fn is_name_byte(byte: u8) -> bool
    ensures { result ≡ is_name_byte byte }
{
    byte.is_ascii_graphic() && !b".*>/\\".contains(&byte)
}
