//! The head of a log file.

ghost use Rattle.std.specs.Prelude.{◌≡◌, ◌++◌, ◌∷◌, [], IfOk, IfErr};
ghost use Rattle.gate_log.specs.Head.{head};
ghost use Rattle.gate_log.specs.Opening.{IsHeadRead, IsHeadFault};

use crate::fault::LogFault;
use crate::gates::OPEN;
use checksum::crc32c;
use js_base::{get_u16, get_u32, get_u64};

const MARK: &[u8; 6] = b"JSLOG\0";

const VERSION: u16 = 3;

/// Where in a head its checksum begins, which is that of the bytes before.
const CHECKSUM_AT: usize = 16;

/// The generation of a log by its head and its first gate, or `None` if the gate is closed; or the first fault of the head.
pub fn read_head(bytes: &[u8; 21]) -> Result<Option<u64>, LogFault>
    ensures ok { IfOk result (IsHeadRead bytes.now) }
    ensures err { IfErr result (IsHeadFault bytes.now) }
{
    if !bytes.starts_with(MARK) {
        return Err(LogFault::Damaged(0));
    }
    let version = get_u16(bytes, 6).unwrap_or(0);
    if version != VERSION {
        return Err(LogFault::UnknownVersion(version));
    }
    let gate = bytes[20];
    if gate != OPEN {
        return Ok(None);
    }
    let generation = get_u64(bytes, 8).unwrap_or(0);
    if generation >= 1 << 62 {
        return Err(LogFault::Damaged(8));
    }
    let sum = get_u32(bytes, CHECKSUM_AT).unwrap_or(0);
    if sum != crc32c(&bytes[..CHECKSUM_AT]) {
        return Err(LogFault::Damaged(16));
    }
    Ok(Some(generation))
}

/// The bytes of a log without batches: its head and a closed gate.
pub fn empty_log(generation: u64) -> [u8; 21]
    ensures bytes { result ≡ head generation ++ 0 ∷ [] }
{
    let mut bytes = [0; 21];
    bytes[..6].copy_from_slice(MARK);
    bytes[6..8].copy_from_slice(&VERSION.to_be_bytes());
    bytes[8..CHECKSUM_AT].copy_from_slice(&generation.to_be_bytes());
    let sum = crc32c(&bytes[..CHECKSUM_AT]);
    bytes[CHECKSUM_AT..20].copy_from_slice(&sum.to_be_bytes());
    bytes
}
