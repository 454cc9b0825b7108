//! A volume as its files.

use crate::line::{LineFault, number};
use crate::log_file::LogFile;
use std::alloc::Global;

/// The files of a volume, in the order in which they are written.
#[derive(Drop)]
pub(crate) struct Volume {
    pub(crate) files: Vec<LogFile>,
}

impl Volume {
    /// A volume without files.
    pub(crate) fn new(alloc: Global) -> Volume {
        Volume {
            files: Vec::new(alloc),
        }
    }

    /// Reads a line that tells of the volume, with its first word and what stands behind it.
    pub(crate) fn read(
        &mut self,
        alloc: Global,
        word: &[u8],
        rest: &[u8],
    ) -> Result<(), LineFault> {
        match word {
            b"file" => self.begin_file(alloc, file_number(rest)?),
            _ => match self.files.last_mut() {
                Some(file) => file.read(alloc, word, rest),
                None => Err(LineFault::Bad),
            },
        }
    }

    fn begin_file(&mut self, alloc: Global, number: u32) -> Result<(), LineFault> {
        Ok(self.files.push(LogFile::new(alloc, number))?)
    }

    /// The file that has the part with this name.
    pub(crate) fn file_of(&mut self, name: &[u8]) -> Result<&mut LogFile, LineFault> {
        for file in &mut self.files {
            if file.place(name).is_some() {
                return Ok(file);
            }
        }
        Err(LineFault::Bad)
    }

    pub(crate) fn try_clone(&self, alloc: Global) -> Result<Volume, LineFault> {
        let mut files = Vec::new(alloc);
        for file in &self.files {
            files.push(file.try_clone(alloc)?)?;
        }
        Ok(Volume { files })
    }
}

/// The number of a file that the text spells.
pub(crate) fn file_number(text: &[u8]) -> Result<u32, LineFault> {
    match u32::try_from(number(text)?) {
        Ok(number) => Ok(number),
        Err(_) => Err(LineFault::Bad),
    }
}
