//! Bytes and numbers that are written at the end of a vector.

ghost use Rattle.std.specs.Prelude.{◌≡◌, ◌++◌, OnOk, OnErr, decimal};

use crate::memory::NoMemory;
use itoa::Buffer;

/// Adds the bytes at the end. An `Err` leaves what was there.
pub fn put_bytes(into: &mut Vec<u8>, bytes: &[u8]) -> Result<(), NoMemory>
    ensures ok { OnOk result (into.new.items ≡ into.old.items ++ bytes.now) }
    ensures err { OnErr result (into.new.items ≡ into.old.items) }
{
    match into.extend_from_slice(bytes) {
        Ok(()) => Ok(()),
        Err(_) => Err(NoMemory),
    }
}

/// Adds the number's decimal digits at the end. An `Err` leaves what was there.
pub fn put_decimal(into: &mut Vec<u8>, n: u64) -> Result<(), NoMemory>
    ensures ok { OnOk result (into.new.items ≡ into.old.items ++ decimal n) }
    ensures err { OnErr result (into.new.items ≡ into.old.items) }
{
    put_bytes(into, Buffer::new().format(n).as_bytes())
}
