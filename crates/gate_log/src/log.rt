//! Logs of batches.

ghost use Rattle.std.specs.Prelude.{◌≡◌, ◌↔◌, ◌+◌, ◌<◌, ◌≤◌, ◌^◌, List, OnOk, OnErr, IfOk, IfErr, IsErr, IsErrOf, IsNone, IsSome, length, take, drop};
ghost use Rattle.vol_disk.specs.Moments.{Quiet};
ghost use Rattle.js_base.specs.Bytes.{Bytes};
ghost use Rattle.js_base.specs.Causes.{HasCause};
ghost use Rattle.gate_log.specs.LogState.{generation_of, new_log, with_batch};
ghost use Rattle.gate_log.specs.Settled.{IsSettled};
ghost use Rattle.gate_log.specs.Opening.{IsOpenFault, IsHeadRead, IsHeadFaultOf, IsOutside};
ghost use Rattle.gate_log.specs.Reading.{IsSomeGate, IsReadAt};
ghost use Rattle.gate_log.specs.Growing.{StaysAsLong};
ghost use Rattle.gate_log.specs.Staging.{StagesTo};
ghost use Rattle.gate_log.specs.Appending.{AppendsTo, IsAppended};

use crate::ends::{Ends, FIRST_GATE};
use crate::fault::LogFault;
use crate::gates::{OPEN, number_at, read, synced_len, walk};
use crate::head::read_head;
use crate::staging::Batch;
use js_base::Blob;
use std::alloc::Global;
use std::marker::Model;
use vol_disk::{Failed, Vol, write_synced};

/// A log in a file of a volume: open batches of records, one after the other. Each that was appended is there in whatever a crash leaves.
///
/// It keeps where its batches end and reads them from the volume, which is handed to each call. Once the volume failed nothing is known of the file
/// but what a crash may leave of it: open the log again.
#[derive(Drop, Debug)]
pub struct GateLog {
    file: u32,
    /// The generation in the file's head, if batches may be appended.
    head: Option<u64>,
    ends: Ends,
}

impl Model for GateLog {
    ghost use Rattle.gate_log.specs.LogState.{LogState};

    ghost Value = { LogState };

    ghost view = { λ s. record { file = s.file; head = s.head; first_end = s.ends.first; end = s.ends.last } };
}

/// The generation of a log file that is longer than its head, or `None` if its first gate is closed.
fn head_of<V: Vol>(vol: &mut V, file: u32) -> Result<Option<u64>, LogFault>
    requires long { V.told → 21 < length ((V.disk vol.old).seen file) }
    ensures ok { V.told → IfOk result (IsHeadRead ((V.disk vol.old).seen file)) }
    ensures err { V.told → IfErr result (IsHeadFaultOf ((V.disk vol.old).seen file)) }
    ensures quiet { V.told → Quiet (V.disk vol.old) (V.disk vol.new) }
    ensures cause { HasCause (V.faults vol.old) (V.faults vol.new) (IsErrOf result LogFault.Fault) }
    ensures refusals { V.refusals vol.old ≤ V.refusals vol.new }
    ensures later { (V.disk vol.old).moment ≤ (V.disk vol.new).moment }
{
    let mut bytes = [0; 21];
    read(vol, file, 0, &mut bytes)?;
    read_head(&bytes)
}

/// So many bytes at an offset of the file.
fn bytes_at<V: Vol>(
    alloc: Global,
    vol: &mut V,
    file: u32,
    at: u64,
    count: u32,
) -> Result<Blob, LogFault>
    requires within { V.told → at + count ≤ length ((V.disk vol.old).seen file) }
    ensures value { V.told → IfOk result (λ bytes. bytes ≡ take count (drop at ((V.disk vol.old).seen file))) }
    ensures quiet { V.told → Quiet (V.disk vol.old) (V.disk vol.new) }
    ensures only { IfErr result IsOutside }
    ensures cause { HasCause (V.faults vol.old) (V.faults vol.new) (IsErrOf result LogFault.Fault) }
    ensures refusals { V.refusals vol.old ≤ V.refusals vol.new }
    ensures later { (V.disk vol.old).moment ≤ (V.disk vol.new).moment }
{
    let mut bytes = Vec::new(alloc);
    if bytes.resize(count as usize, 0).is_err() {
        return Err(LogFault::NoMemory);
    }
    read(vol, file, at, bytes.as_mut_slice())?;
    Ok(Blob::of(alloc, bytes.as_slice())?)
}

impl GateLog {
    /// Reads where the batches of a log file end. The file is synced before, and nothing is written. It reads the batches in small pieces to
    /// compare their checksums, takes no memory, and never answers `NoMemory`.
    pub fn open<V: Vol>(vol: &mut V, file: u32) -> Result<GateLog, LogFault>
        ensures file { IfOk result (λ log. log.file ≡ file) }
        // What is found is what the file holds, and a crash leaves just that.
        ensures settled { V.told → IfOk result (λ log. (batches : List Bytes) × IsSettled log batches (V.disk vol.new)) }
        // Batches may be appended if one is open.
        ensures head { IfOk result (λ log. log.head ≡ generation_of log) }
        ensures fault { V.told → IfErr result (IsOpenFault ((V.disk vol.old).seen file)) }
        ensures quiet { V.told → Quiet (V.disk vol.old) (V.disk vol.new) }
        ensures cause { HasCause (V.faults vol.old) (V.faults vol.new) (IsErrOf result LogFault.Fault) }
        ensures refusals { V.refusals vol.old ≤ V.refusals vol.new }
        ensures later { (V.disk vol.old).moment ≤ (V.disk vol.new).moment }
    {
        let len = synced_len(vol, file)?;
        if len <= FIRST_GATE + 1 {
            return Ok(GateLog::without_batches(file, None));
        }
        let Some(generation) = head_of(vol, file)? else {
            return Ok(GateLog::without_batches(file, None));
        };
        let ends = walk(vol, file, len)?;
        let head = if ends.last == FIRST_GATE {
            None
        } else {
            Some(generation)
        };
        Ok(GateLog { file, head, ends })
    }

    /// A log without batches.
    pub(crate) fn without_batches(file: u32, head: Option<u64>) -> GateLog
        ensures value { result ≡ new_log file head }
    {
        GateLog {
            file,
            head,
            ends: Ends::none(),
        }
    }

    /// The number of its file.
    pub fn file(&self) -> u32
        ensures value { result ≡ self.now.file }
    {
        self.file
    }

    /// The generation, or `None` exactly if no batch is open.
    pub fn generation(&self) -> Option<u64>
        ensures value { result ≡ generation_of self.now }
    {
        if self.ends.last == FIRST_GATE {
            None
        } else {
            self.head
        }
    }

    /// The offset of the gate after the first open batch, 20 if none is open.
    pub fn first_end(&self) -> u64
        ensures value { result ≡ self.now.first_end }
    {
        self.ends.first
    }

    /// The offset of the gate after the last open batch, 20 if none is open.
    pub fn end(&self) -> u64
        ensures value { result ≡ self.now.end }
    {
        self.ends.last
    }

    /// The records of the open batch whose gate is at the offset, and the offset of the next gate; `None` exactly if the offset is the end.
    /// The offset is 20, or one that was answered so. It answers `Fault` or `NoMemory` alone.
    pub fn batch<V: Vol>(
        &self,
        alloc: Global,
        vol: &mut V,
        at: u64,
    ) -> Result<Option<(Blob, u64)>, LogFault>
        requires gate { V.told → IsSomeGate self.now at (V.disk vol.old) }
        ensures found { V.told → IfOk result (IsReadAt self.now at (V.disk vol.old)) }
        ensures end { IfOk result (λ found. IsNone found ↔ (at ≡ self.now.end)) }
        ensures quiet { V.told → Quiet (V.disk vol.old) (V.disk vol.new) }
        ensures only { IfErr result IsOutside }
        ensures cause { HasCause (V.faults vol.old) (V.faults vol.new) (IsErrOf result LogFault.Fault) }
        ensures refusals { V.refusals vol.old ≤ V.refusals vol.new }
        ensures later { (V.disk vol.old).moment ≤ (V.disk vol.new).moment }
    {
        if at == self.ends.last {
            return Ok(None);
        }
        let count = number_at(vol, self.file, at.saturating_add(1))?;
        let from = at.saturating_add(9);
        let records = bytes_at(alloc, vol, self.file, from, count)?;
        Ok(Some((records, from.saturating_add(count as u64))))
    }

    /// Writes a batch behind the closed gate at the end, and syncs it.
    fn stage<V: Vol>(&self, vol: &mut V, batch: &Batch) -> Result<(), Failed>
        requires settled { V.told → (batches : List Bytes) × IsSettled self.now batches (V.disk vol.old) }
        requires head { IsSome self.now.head }
        requires room { V.told → self.now.end + 10 + length batch.now ≤ length ((V.disk vol.old).seen self.now.file) }
        requires end { self.now.end + 10 + length batch.now < 2 ^ 64 }
        ensures staged { V.told → OnOk result (StagesTo self.now batch.now (V.disk vol.old) (V.disk vol.new)) }
        ensures any_moment { V.told → AppendsTo self.now batch.now (V.disk vol.old) (V.disk vol.new) }
        ensures as_long { V.told → OnOk result (length ((V.disk vol.new).seen self.now.file) ≡ length ((V.disk vol.old).seen self.now.file)) }
        ensures lengths { V.told → StaysAsLong self.now.file (V.disk vol.old) (V.disk vol.new) }
        ensures cause { HasCause (V.faults vol.old) (V.faults vol.new) (IsErr result) }
        ensures refusals { V.refusals vol.old ≤ V.refusals vol.new }
        ensures later { (V.disk vol.old).moment ≤ (V.disk vol.new).moment }
    {
        write_synced(vol, self.file, self.ends.last + 1, batch.staged())
    }

    /// Appends a batch, for which the file has room, and takes no memory. At `Ok` each crash leaves a log that has it; one during the call leaves the batches from
    /// before, with the new one or without. `Failed` comes if the volume fails, and leaves the log as it was.
    ///
    /// The log has a generation, or was given by `start`.
    pub fn append_batch<V: Vol>(&mut self, vol: &mut V, batch: &Batch) -> Result<(), Failed>
        requires settled { V.told → (batches : List Bytes) × IsSettled self.old batches (V.disk vol.old) }
        requires head { IsSome self.old.head }
        requires room { V.told → self.old.end + 10 + length batch.now ≤ length ((V.disk vol.old).seen self.old.file) }
        requires end { self.old.end + 10 + length batch.now < 2 ^ 64 }
        ensures appended { V.told → OnOk result (IsAppended self.old self.new batch.now (V.disk vol.old) (V.disk vol.new)) }
        ensures any_moment { V.told → AppendsTo self.old batch.now (V.disk vol.old) (V.disk vol.new) }
        ensures as_long { V.told → OnOk result (length ((V.disk vol.new).seen self.old.file) ≡ length ((V.disk vol.old).seen self.old.file)) }
        ensures lengths { V.told → StaysAsLong self.old.file (V.disk vol.old) (V.disk vol.new) }
        ensures log { OnOk result (self.new ≡ with_batch self.old (length batch.now)) }
        ensures err { OnErr result (self.new ≡ self.old) }
        ensures cause { HasCause (V.faults vol.old) (V.faults vol.new) (IsErr result) }
        ensures refusals { V.refusals vol.old ≤ V.refusals vol.new }
        ensures later { (V.disk vol.old).moment ≤ (V.disk vol.new).moment }
    {
        let count = batch.len();
        self.stage(vol, batch)?;
        write_synced(vol, self.file, self.ends.last, &[OPEN])?;
        self.ends = self.ends.before(self.ends.last + 9 + count as u64);
        Ok(())
    }
}
