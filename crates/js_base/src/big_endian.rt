//! Numbers of a fixed width, the most significant byte first.

ghost use Rattle.std.specs.Prelude.{◌≡◌, ◌++◌, OnOk, OnErr};
ghost use Rattle.std.specs.Int.{w16, w32, w64, to_be_bytes};
ghost use Rattle.js_base.specs.Numbers.{number_at};

use crate::memory::NoMemory;
use crate::writing::put_bytes;

/// Adds the number's two bytes at the end. An `Err` leaves what was there.
pub fn put_u16(into: &mut Vec<u8>, n: u16) -> Result<(), NoMemory>
    ensures ok { OnOk result (into.new.items ≡ into.old.items ++ to_be_bytes w16 n) }
    ensures err { OnErr result (into.new.items ≡ into.old.items) }
{
    put_bytes(into, &n.to_be_bytes())
}

/// Adds the number's four bytes at the end. An `Err` leaves what was there.
pub fn put_u32(into: &mut Vec<u8>, n: u32) -> Result<(), NoMemory>
    ensures ok { OnOk result (into.new.items ≡ into.old.items ++ to_be_bytes w32 n) }
    ensures err { OnErr result (into.new.items ≡ into.old.items) }
{
    put_bytes(into, &n.to_be_bytes())
}

/// Adds the number's eight bytes at the end. An `Err` leaves what was there.
pub fn put_u64(into: &mut Vec<u8>, n: u64) -> Result<(), NoMemory>
    ensures ok { OnOk result (into.new.items ≡ into.old.items ++ to_be_bytes w64 n) }
    ensures err { OnErr result (into.new.items ≡ into.old.items) }
{
    put_bytes(into, &n.to_be_bytes())
}

/// The number whose two bytes begin at the place, or `None` if the bytes end before it does.
pub fn get_u16(bytes: &[u8], at: usize) -> Option<u16>
    ensures { result ≡ number_at w16 bytes.now at }
{
    let (_, rest) = bytes.split_at_checked(at)?;
    let (number, _) = rest.split_first_chunk::<2>()?;
    Some(u16::from_be_bytes(*number))
}

/// The number whose four bytes begin at the place, or `None` if the bytes end before it does.
pub fn get_u32(bytes: &[u8], at: usize) -> Option<u32>
    ensures { result ≡ number_at w32 bytes.now at }
{
    let (_, rest) = bytes.split_at_checked(at)?;
    let (number, _) = rest.split_first_chunk::<4>()?;
    Some(u32::from_be_bytes(*number))
}

/// The number whose eight bytes begin at the place, or `None` if the bytes end before it does.
pub fn get_u64(bytes: &[u8], at: usize) -> Option<u64>
    ensures { result ≡ number_at w64 bytes.now at }
{
    let (_, rest) = bytes.split_at_checked(at)?;
    let (number, _) = rest.split_first_chunk::<8>()?;
    Some(u64::from_be_bytes(*number))
}
