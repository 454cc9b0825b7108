//! Changes of a log file's parts.

use crate::line::LineFault;
use crate::log_file::{LogFile, Part, Role};
use js_base::Blob;
use std::alloc::Global;

impl Part {
    /// Leaves at most so many of its first bytes.
    fn shorten(&mut self, alloc: Global, count: usize) -> Result<(), LineFault> {
        if let Some(bytes) = &self.bytes
            && let Some(first) = bytes.as_slice().get(..count)
        {
            self.bytes = Some(Blob::of(alloc, first)?);
        }
        Ok(())
    }
}

impl LogFile {
    /// The part with this name.
    fn part_mut(&mut self, name: &[u8]) -> Result<&mut Part, LineFault> {
        for part in &mut self.parts {
            if part.name.as_slice() == name {
                return Ok(part);
            }
        }
        Err(LineFault::Bad)
    }

    /// Puts other bytes in place of a part's.
    pub(crate) fn put(&mut self, name: &[u8], bytes: Blob) -> Result<(), LineFault> {
        self.part_mut(name)?.bytes = Some(bytes);
        Ok(())
    }

    /// Ends a part's batch so many bytes behind the beginning of the part.
    pub(crate) fn end_batch(
        &mut self,
        alloc: Global,
        name: &[u8],
        count: usize,
    ) -> Result<(), LineFault> {
        self.part_mut(name)?.shorten(alloc, count)?;
        let Some(place) = self.place(name) else {
            return Err(LineFault::Bad);
        };
        let next = place.saturating_add(1);
        for _ in next..self.parts.len() {
            match self.parts.get(next) {
                Some(part) if part.role != Role::Gate => {}
                _ => return Ok(()),
            }
            let _part = self.parts.remove(next);
        }
        Ok(())
    }

    /// Ends the file so many bytes behind the beginning of a part.
    pub(crate) fn cut(&mut self, name: &[u8], count: usize) -> Result<(), LineFault> {
        let Some(offset) = self.offset(name) else {
            return Err(LineFault::Bad);
        };
        self.limit = offset.saturating_add(count);
        Ok(())
    }

    /// Leaves a part out.
    pub(crate) fn leave_out(&mut self, name: &[u8]) -> Result<(), LineFault> {
        match self.place(name) {
            Some(place) if place < self.parts.len() => {
                let _part = self.parts.remove(place);
                Ok(())
            }
            _ => Err(LineFault::Bad),
        }
    }

    /// Lets a part stand twice.
    pub(crate) fn double(&mut self, name: &[u8]) -> Result<(), LineFault> {
        let Some(place) = self.place(name) else {
            return Err(LineFault::Bad);
        };
        let Some(part) = self.parts.get(place) else {
            return Err(LineFault::Bad);
        };
        let part = part.try_clone()?;
        Ok(self.parts.insert(place, part)?)
    }

    /// Exchanges two parts.
    pub(crate) fn exchange(&mut self, first: &[u8], second: &[u8]) -> Result<(), LineFault> {
        match (self.place(first), self.place(second)) {
            (Some(first), Some(second)) if first < self.parts.len() && second < self.parts.len() =>
                {
                    self.parts.swap(first, second);
                    Ok(())
                }
            _ => Err(LineFault::Bad),
        }
    }
}
