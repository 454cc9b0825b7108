//! A log file as its fields.

use crate::line::{LineFault, spelled_bytes, split_word};
use crate::spelling::Spelling;
use js_base::Blob;
use std::alloc::Global;

/// What a part of a log file is.
#[derive(Clone, Copy, PartialEq, Eq)]
pub(crate) enum Role {
    /// A gate, before a batch.
    Gate,
    /// The length of the records of a batch.
    Length,
    /// The length of a message, where it begins.
    Message,
    /// The checksum of what stands before it.
    Head,
    /// The checksum of what stands behind it, up to the next gate, message or checksum.
    Sum,
    /// The length of the field behind it.
    Size,
    Field,
}

/// A part of a log file.
#[derive(Drop)]
pub(crate) struct Part {
    pub(crate) name: Blob,
    pub(crate) role: Role,
    /// `None` for a length or a checksum that is counted.
    pub(crate) bytes: Option<Blob>,
}

impl Part {
    /// How many bytes it has: what is counted has four.
    pub(crate) fn len(&self) -> usize {
        match &self.bytes {
            Some(bytes) => bytes.len(),
            None => 4,
        }
    }

    /// Whether what a checksum before it covers ends there.
    fn ends_checksum(&self) -> bool {
        matches!(self.role, Role::Gate | Role::Message | Role::Sum)
    }

    pub(crate) fn try_clone(&self) -> Result<Part, LineFault> {
        let bytes = match &self.bytes {
            Some(bytes) => Some(bytes.clone()?),
            None => None,
        };
        Ok(Part {
            name: self.name.clone()?,
            role: self.role,
            bytes,
        })
    }
}

/// The parts of a log file, in their order.
#[derive(Drop)]
pub(crate) struct LogFile {
    /// The file's number in its volume.
    pub(crate) number: u32,
    pub(crate) parts: Vec<Part>,
    /// How many of the bytes there are at most.
    pub(crate) limit: usize,
}

impl LogFile {
    /// A file without parts.
    pub(crate) fn new(alloc: Global, number: u32) -> LogFile {
        LogFile {
            number,
            parts: Vec::new(alloc),
            limit: usize::MAX,
        }
    }

    /// Adds the part that a line tells, with the line's first word and what stands behind it.
    pub(crate) fn read(
        &mut self,
        alloc: Global,
        word: &[u8],
        rest: &[u8],
    ) -> Result<(), LineFault> {
        let (name, text) = split_word(rest);
        let name = Blob::of(alloc, name)?;
        match word {
            b"field" => self.add(name, Role::Field, Some(spelled_bytes(alloc, text)?)),
            b"text" => self.add(name, Role::Field, Some(Blob::of(alloc, text)?)),
            b"gate" => self.add(name, Role::Gate, Some(spelled_bytes(alloc, text)?)),
            b"message" => self.add(name, Role::Message, Some(spelled_bytes(alloc, text)?)),
            b"head" if text.is_empty() => self.add(name, Role::Head, None),
            b"length" if text.is_empty() => self.add(name, Role::Length, None),
            b"sum" if text.is_empty() => self.add(name, Role::Sum, None),
            b"size" if text.is_empty() => self.add(name, Role::Size, None),
            _ => Err(LineFault::Bad),
        }
    }

    fn add(&mut self, name: Blob, role: Role, bytes: Option<Blob>) -> Result<(), LineFault> {
        Ok(self.parts.push(Part { name, role, bytes })?)
    }

    /// The place of the part with this name.
    pub(crate) fn place(&self, name: &[u8]) -> Option<usize> {
        self.parts
            .iter()
            .position(|part| part.name.as_slice() == name)
    }

    pub(crate) fn try_clone(&self, alloc: Global) -> Result<LogFile, LineFault> {
        let mut parts = Vec::new(alloc);
        for part in &self.parts {
            parts.push(part.try_clone()?)?;
        }
        Ok(LogFile {
            number: self.number,
            parts,
            limit: self.limit,
        })
    }

    /// The bytes of the file, with the lengths and the checksums that are counted.
    pub(crate) fn bytes(&self, alloc: Global) -> Result<Vec<u8>, LineFault> {
        let mut spelling = Spelling::new(alloc);
        for (place, part) in self.parts.iter().enumerate() {
            if part.ends_checksum() {
                spelling.settle()?;
            }
            match (&part.bytes, part.role) {
                (Some(own), _) => spelling.add(own.as_slice())?,
                (None, Role::Head) => spelling.add_checksum()?,
                (None, Role::Sum) => spelling.begin_checksum(),
                (None, _) => spelling.add(&counted(&self.parts, place).to_be_bytes())?,
            }
        }
        let mut bytes = spelling.into_bytes()?;
        bytes.truncate(self.limit);
        Ok(bytes)
    }

    /// How many bytes stand before the part with this name.
    pub(crate) fn offset(&self, name: &[u8]) -> Option<usize> {
        let mut offset: usize = 0;
        for part in &self.parts {
            if part.name.as_slice() == name {
                return Some(offset);
            }
            offset = offset.saturating_add(part.len());
        }
        None
    }
}

/// The length that is counted at this place: of the next part, or of the batch behind it.
fn counted(parts: &[Part], place: usize) -> u32 {
    let behind = place.saturating_add(1);
    match parts.get(place) {
        Some(part) if part.role == Role::Size => parts.get(behind).map_or(0, short_len),
        _ => batch_len(parts, behind),
    }
}

/// How many bytes the part has, as a number of four bytes.
fn short_len(part: &Part) -> u32 {
    u32::try_from(part.len()).unwrap_or(u32::MAX)
}

/// How many bytes stand from a place to the next gate, but for a checksum.
fn batch_len(parts: &[Part], place: usize) -> u32 {
    let mut len: u32 = 0;
    for part in parts.iter().skip(place) {
        match part.role {
            Role::Gate => return len,
            Role::Sum => {}
            _ => len = len.saturating_add(short_len(part)),
        }
    }
    len
}
