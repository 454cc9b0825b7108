//! What is told of a log file.

ghost use Rattle.vol_disk.specs.MemVol.{disk_of};
ghost use Rattle.gate_log.specs.Reading.{IsSomeGate};

use crate::line::LineFault;
use crate::naming::kind_name;
use gate_log::{GateLog, LogFault};
use op_records::{Record, RecordFault, read_records};
use state_snapshot::{Snapshot, read_snapshot};
use std::alloc::Global;
use vol_disk::{MemVol, Vol};

/// The offset of a log's first gate.
const FIRST_GATE: u64 = 20;

/// The bytes of a batch before its records: its gate, their length and their checksum.
const BEFORE_RECORDS: u64 = 9;

/// On a volume in memory a call fails of memory alone.
impl From<LogFault> for LineFault {
    fn from(_fault: LogFault) -> LineFault {
        LineFault::NoMemory
    }
}

/// What a batch has.
#[derive(Drop)]
struct Batch {
    text: String,
    /// Its records are read.
    is_sound: bool,
}

impl Batch {
    fn sound(text: String) -> Batch {
        Batch {
            text,
            is_sound: true,
        }
    }

    /// A batch with a record's fault, at its offset in the file: the batch's records begin at one.
    fn wrong(alloc: Global, begin: u64, fault: RecordFault) -> Result<Batch, LineFault> {
        let (what, place) = match fault {
            RecordFault::Cut(at) => ("cut", at),
            RecordFault::BadKind(at) => ("no kind", at),
            RecordFault::BadField(at) => ("a wrong field", at),
            RecordFault::NoMemory => return Err(LineFault::NoMemory),
        };
        Ok(Batch {
            text: format!(in alloc; "{what} at {}", begin.saturating_add(place as u64))?,
            is_sound: false,
        })
    }

    /// The first batch, whose records begin at an offset of the file.
    fn first(alloc: Global, begin: u64, bytes: &[u8]) -> Result<Batch, LineFault> {
        match read_snapshot(alloc, bytes) {
            Ok(snapshot) => Ok(Batch::sound(snapshot_text(alloc, &snapshot)?)),
            Err(fault) => Batch::wrong(alloc, begin, fault),
        }
    }

    /// A later batch, whose records begin at an offset of the file.
    fn later(alloc: Global, begin: u64, bytes: &[u8]) -> Result<Batch, LineFault> {
        match read_records(alloc, bytes) {
            Ok(records) => Ok(Batch::sound(kinds_text(alloc, records.as_slice())?)),
            Err(fault) => Batch::wrong(alloc, begin, fault),
        }
    }

    /// The batch whose gate is at an offset of the file.
    fn read(alloc: Global, gate: u64, bytes: &[u8]) -> Result<Batch, LineFault> {
        let begin = gate.saturating_add(BEFORE_RECORDS);
        if gate == FIRST_GATE {
            Batch::first(alloc, begin, bytes)
        } else {
            Batch::later(alloc, begin, bytes)
        }
    }
}

/// Which place the snapshot tells of, and how much of its stream.
fn snapshot_text(alloc: Global, snapshot: &Snapshot) -> Result<String, LineFault> {
    let incarnation = snapshot.incarnation;
    match &snapshot.body {
        Some(body) => Ok(format!(in alloc;
            "stream {incarnation}: messages {}, older blocks {}, ids {}, consumers {}",
            body.messages.len(),
            body.older.len(),
            body.ids.len(),
            body.consumers.len()
        )?),
        None => Ok(format!(in alloc; "vacant {incarnation}")?),
    }
}

/// The kinds of records.
fn kinds_text(alloc: Global, records: &[Record]) -> Result<String, LineFault> {
    let mut text = String::new(alloc);
    for record in records {
        if !text.is_empty() {
            text.push_str(" ")?;
        }
        text.push_str(kind_name(record))?;
    }
    Ok(text)
}

/// The generation of the log, and what each of its batches has, up to the first that is wrong.
fn batches_text(alloc: Global, vol: &mut MemVol, log: &GateLog) -> Result<String, LineFault>
    requires first { IsSomeGate log.now 20 (disk_of vol.old) }
{
    let Some(generation) = log.generation() else {
        return Ok(format!(in alloc; "nothing")?);
    };
    let mut text = format!(in alloc; "generation {generation}")?;
    let mut at = FIRST_GATE;
    for _ in 0..u64::MAX {
        let Some((bytes, next)) = log.batch(alloc, vol, at)? else {
            return Ok(text);
        };
        let batch = Batch::read(alloc, at, bytes.as_slice())?;
        text.push_str("; ")?;
        text.push_str(batch.text.as_str())?;
        if !batch.is_sound {
            return Ok(text);
        }
        at = next;
    }
    Ok(text)
}

/// What is told of a log file with these bytes: what its batches have, or its first fault.
pub(crate) fn told(alloc: Global, bytes: &[u8]) -> Result<String, LineFault> {
    let mut vol = MemVol::new(alloc);
    if vol.write_at(0, 0, bytes).is_err() {
        return Err(LineFault::NoMemory);
    }
    match GateLog::open(&mut vol, 0) {
        Ok(log) => batches_text(alloc, &mut vol, &log),
        Err(fault) => Ok(format!(in alloc; "{fault}")?),
    }
}
