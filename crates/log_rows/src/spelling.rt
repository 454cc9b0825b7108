//! The bytes of a file as they are put together, with the checksums that are counted.

use crate::line::LineFault;
use checksum::crc32c;
use std::alloc::Global;

/// The bytes of a file up to some part of it.
#[derive(Drop)]
pub(crate) struct Spelling {
    alloc: Global,
    /// Those before the checksum that is to be counted next, or all if there is none.
    bytes: Vec<u8>,
    /// Those behind that checksum.
    behind: Option<Vec<u8>>,
}

impl Spelling {
    /// No bytes.
    pub(crate) fn new(alloc: Global) -> Spelling {
        Spelling {
            alloc,
            bytes: Vec::new(alloc),
            behind: None,
        }
    }

    /// Adds bytes.
    pub(crate) fn add(&mut self, bytes: &[u8]) -> Result<(), LineFault> {
        match &mut self.behind {
            Some(behind) => behind.extend_from_slice(bytes)?,
            None => self.bytes.extend_from_slice(bytes)?,
        }
        Ok(())
    }

    /// Adds the checksum of all bytes so far.
    pub(crate) fn add_checksum(&mut self) -> Result<(), LineFault> {
        self.settle()?;
        let sum = crc32c(self.bytes.as_slice());
        self.add(&sum.to_be_bytes())
    }

    /// Adds the checksum of the bytes that come next, up to where it is settled.
    pub(crate) fn begin_checksum(&mut self) {
        self.behind = Some(Vec::new(self.alloc));
    }

    /// Counts the checksum that is to be counted next, if there is one.
    pub(crate) fn settle(&mut self) -> Result<(), LineFault> {
        if let Some(behind) = self.behind.take() {
            let sum = crc32c(behind.as_slice());
            self.bytes.extend_from_slice(&sum.to_be_bytes())?;
            self.bytes.extend_from_slice(behind.as_slice())?;
        }
        Ok(())
    }

    /// The bytes, with each checksum that was begun.
    pub(crate) fn into_bytes(mut self) -> Result<Vec<u8>, LineFault> {
        self.settle()?;
        let Spelling {
            alloc: _,
            bytes,
            behind: _,
        } = self;
        Ok(bytes)
    }
}
