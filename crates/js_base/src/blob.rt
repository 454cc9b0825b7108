//! Bytes with several owners.

ghost use Rattle.std.specs.Prelude.{◌≡◌, ◌==◌, ◌<◌, ◌^◌, [], IfOk, length};

use crate::memory::NoMemory;
use bytes::Bytes;
use std::alloc::{AllocError, Global};
use std::marker::Model;

/// Shared bytes, which contracts see as their list. A clone shares them and copies none.
#[derive(Drop, Debug, PartialEq, Eq)]
pub struct Blob {
    bytes: Bytes,
}

impl Model for Blob {
    ghost use Rattle.std.specs.Prelude.{ℕ, List};

    ghost Value = { List ℕ };

    ghost view = { λ blob. blob.bytes };

    ghost inverse = { λ bytes. record { bytes = bytes } };
}

impl Blob {
    /// No bytes. It takes no memory.
    pub fn empty() -> Blob
        ensures { result ≡ [] }
    {
        Blob {
            bytes: Bytes::new(),
        }
    }

    /// A copy of the bytes, or `NoMemory` if memory runs out.
    pub fn of(alloc: Global, bytes: &[u8]) -> Result<Blob, NoMemory>
        ensures { IfOk result (λ blob. blob ≡ bytes.now) }
    {
        match Bytes::copy_from_slice(alloc, bytes) {
            Ok(bytes) => Ok(Blob { bytes }),
            Err(_) => Err(NoMemory),
        }
    }

    /// The bytes.
    pub fn as_slice(&self) -> &[u8]
        ensures { result.now ≡ self.now }
    {
        self.bytes.as_slice()
    }

    /// How many bytes there are.
    pub fn len(&self) -> usize
        ensures value { result ≡ length self.now }
        ensures bound { length self.now < 2 ^ 63 }
    {
        self.bytes.len()
    }

    /// Whether there are none.
    pub fn is_empty(&self) -> bool
        ensures { result ≡ (length self.now == 0) }
    {
        self.bytes.is_empty()
    }
}

impl Clone for Blob {
    ghost is_clone = { λ blob copy. copy ≡ blob };

    fn clone(&self) -> Result<Blob, AllocError> {
        Ok(Blob {
            bytes: self.bytes.clone()?,
        })
    }
}

/// The same bytes. It takes no memory.
impl From<Bytes> for Blob {
    ghost from_gives = { λ bytes blob. blob ≡ bytes };

    fn from(bytes: Bytes) -> Blob {
        Blob { bytes }
    }
}
