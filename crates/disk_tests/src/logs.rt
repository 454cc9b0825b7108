//! Logs that the tests share.

ghost use Rattle.std.specs.Prelude.{◌≡◌, IfOk, IsSome};

use crate::blind::Blind;
use gate_log::{Batch, GateLog};
use std::alloc::Global;
use std::test::Fail;
use vol_disk::MemVol;

/// How long the file of the log is.
pub const LEN: u64 = 100;

/// A volume with a log of generation 7 in file 0, which has one batch, `abc`, and room for more.
pub fn logged(alloc: Global) -> Result<(Blind, GateLog), Fail>
    ensures head { IfOk result (λ made. IsSome made.1.head) }
    ensures end { IfOk result (λ made. made.1.end ≡ 32) }
{
    let mut vol = Blind::over(alloc, MemVol::new(alloc), &[], None)?;
    GateLog::make_room(&mut vol, 0, LEN)?;
    let mut log = GateLog::start(&mut vol, 0, 7)?;
    let batch = Batch::of(alloc, b"abc")?;
    log.append_batch(&mut vol, &batch)?;
    Ok((vol, log))
}

/// The records of the first batches of a log, a bar behind each.
pub fn records(alloc: Global, vol: &mut Blind, log: &GateLog) -> Result<Vec<u8>, Fail> {
    let mut text = Vec::new(alloc);
    let mut at = 20;
    for _ in 0..4 {
        let Some((records, next)) = log.batch(alloc, vol, at)? else {
            return Ok(text);
        };
        text.extend_from_slice(records.as_slice())?;
        text.push(b'|')?;
        at = next;
    }
    Ok(text)
}

/// The generation of the log that is found in file 0, if a batch is open.
pub fn generation(alloc: Global, vol: MemVol) -> Result<Option<u64>, Fail> {
    let mut vol = Blind::over(alloc, vol, &[], None)?;
    Ok(GateLog::open(&mut vol, 0)?.generation())
}
