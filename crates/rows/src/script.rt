//! A script of rows.

use crate::line::{LineFault, split_word};
use crate::row::Row;
use crate::row_reader::RowReader;
use std::alloc::Global;

/// Why a script is not read.
#[derive(Clone, Copy, Debug, PartialEq, Eq)]
pub(crate) enum ScriptFault {
    /// The line with this number, counted from 1, is not in the language.
    BadLine(usize),
    NoMemory,
}

/// The rows that were read, and the one that the next lines belong to.
#[derive(Drop)]
struct ScriptReader {
    alloc: Global,
    rows: Vec<Row>,
    row: Option<RowReader>,
}

impl ScriptReader {
    /// Ends the row that is read, if there is one.
    fn end_row(&mut self) -> Result<(), LineFault> {
        match self.row.take() {
            Some(reader) => {
                let row = reader.finish()?;
                Ok(self.rows.push(row)?)
            }
            None => Ok(()),
        }
    }

    fn begin_row(&mut self, title: &[u8]) -> Result<(), LineFault> {
        self.end_row()?;
        self.row = Some(RowReader::new(self.alloc, title)?);
        Ok(())
    }

    /// Reads the next line.
    fn read(&mut self, line: &[u8]) -> Result<(), LineFault> {
        let (word, rest) = split_word(line);
        if word == b"row".as_slice() {
            return self.begin_row(rest);
        }
        match &mut self.row {
            Some(reader) => reader.read(line),
            None => Err(LineFault::Bad),
        }
    }
}

/// What a line's fault makes of its script.
fn fault_at(fault: LineFault, number: usize) -> ScriptFault {
    match fault {
        LineFault::Bad => ScriptFault::BadLine(number),
        LineFault::NoMemory => ScriptFault::NoMemory,
    }
}

/// The rows of a script, whose lines each end with LF.
pub(crate) fn read_script(alloc: Global, script: &[u8]) -> Result<Vec<Row>, ScriptFault> {
    let mut reader = ScriptReader {
        alloc,
        rows: Vec::new(alloc),
        row: None,
    };
    let lines = script.strip_suffix(b"\n").unwrap_or(script);
    let mut number: usize = 0;
    for line in lines.split(|byte| *byte == b'\n') {
        number = number.saturating_add(1);
        if let Err(fault) = reader.read(line) {
            return Err(fault_at(fault, number));
        }
    }
    match reader.end_row() {
        Ok(()) => Ok(reader.rows),
        Err(fault) => Err(fault_at(fault, number)),
    }
}
