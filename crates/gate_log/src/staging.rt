//! A batch behind its closed gate.

ghost use Rattle.std.specs.Prelude.{◌≡◌, ◌<◌, ◌^◌, ◌++◌, ◌∷◌, [], List, length, IfOk};
ghost use Rattle.gate_log.specs.Staging.{behind_gate as behind_gate_in};

use checksum::crc32c;
use js_base::{NoMemory, put_bytes, put_u32};
use std::alloc::Global;
use std::marker::Model;

/// The bytes behind a gate that are no records: their length, their checksum, and the gate behind them.
const AROUND_RECORDS: usize = 9;

/// What is written behind the closed gate: the records behind their length and their checksum, and a closed gate for the next batch.
pub fn behind_gate(alloc: Global, records: &[u8]) -> Result<Vec<u8>, NoMemory>
    requires short { length records.now < 2 ^ 32 }
    ensures bytes { IfOk result (λ bytes. bytes.items ≡ behind_gate_in records.now) }
{
    let mut bytes = Vec::new(alloc);
    put_u32(&mut bytes, records.len() as u32)?;
    put_u32(&mut bytes, crc32c(records))?;
    put_bytes(&mut bytes, records)?;
    put_bytes(&mut bytes, &[0])?;
    Ok(bytes)
}

/// The records of a batch, with all memory that it takes to append them.
#[derive(Drop)]
pub struct Batch {
    /// What is written behind a gate.
    staged: Vec<u8>,
}

impl Model for Batch {
    ghost use Rattle.js_base.specs.Bytes.{Bytes};
    ghost use Rattle.gate_log.specs.Staging.{IsStagedBatch, records_in};

    ghost Value = { Bytes };

    ghost view = { λ s. records_in s.staged.items };

    ghost invariant = { λ s. IsStagedBatch s.staged.items };
}

impl Batch {
    /// A batch of these records, which are fewer than 2^32 bytes.
    pub fn of(alloc: Global, records: &[u8]) -> Result<Batch, NoMemory>
        requires short { length records.now < 2 ^ 32 }
        ensures value { IfOk result (λ batch. batch ≡ records.now) }
    {
        Ok(Batch {
            staged: behind_gate(alloc, records)?,
        })
    }

    /// How many bytes its records have.
    pub fn len(&self) -> usize
        ensures value { result ≡ length self.now }
        ensures short { length self.now < 2 ^ 32 }
    {
        self.staged.len() - AROUND_RECORDS
    }

    /// What is written behind the gate.
    pub(crate) fn staged(&self) -> &[u8]
        ensures value { result.now ≡ behind_gate_in self.now }
    {
        self.staged.as_slice()
    }
}
