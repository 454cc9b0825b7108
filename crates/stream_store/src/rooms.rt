//! How long the files of a store are known to be.

ghost use Rattle.std.specs.Prelude.{◌≡◌, ◌+◌, ◌≤◌, ◌^◌, nat_le, IfOk, IsErr, length};
ghost use Rattle.js_base.specs.Causes.{HasCause};
ghost use Rattle.vol_disk.specs.Moments.{Quiet};
ghost use Rattle.stream_store.specs.Rooms.{AreLogsShort, AreRooms, block_reach, is_reserved as is_reserved_in, no_rooms, reaches as reaches_in, room_of, spare, with_room};

use block_table::{Block, BlockTable};
use js_base::Spot;
use vol_disk::{Failed, Vol};

/// How long a log is made at most.
pub(crate) const MAX_LOG: u64 = 1 << 31;

/// How much longer than the first batch of a next log each log is kept.
pub(crate) const SPARE: u64 = 1 << 16;

/// How long the files of a store are known to be at least. What a file is long is its room: a write that ends within it needs no more of the disk.
#[derive(Clone, Copy, Debug)]
pub(crate) struct Rooms {
    /// The log of file 0, up to 2^31.
    pub(crate) zero: u64,
    /// The log of file 1, up to 2^31.
    pub(crate) one: u64,
    /// The file in which room for a message was made last, and its length.
    pub(crate) reach: Option<Block>,
}

impl Rooms {
    /// Nothing is known.
    pub(crate) fn none() -> Rooms
        ensures value { result ≡ no_rooms }
    {
        Rooms {
            zero: 0,
            one: 0,
            reach: None,
        }
    }

    /// The length of the log of this file.
    pub(crate) fn of(&self, file: u32) -> u64
        ensures value { result ≡ room_of self.now file }
    {
        if file == 0 { self.zero } else { self.one }
    }

    /// Another length of the log of this file is known.
    pub(crate) fn set(&mut self, file: u32, len: u64)
        ensures value { self.new ≡ with_room self.old file len }
    {
        if file == 0 {
            self.zero = len;
        } else {
            self.one = len;
        }
    }

    /// Whether both logs are long enough for a place that comes to so much.
    pub(crate) fn is_reserved(&self, count: u64) -> bool
        ensures value { result ≡ is_reserved_in self.now count }
    {
        is_spared(self.zero, count) && is_spared(self.one, count)
    }

    /// Forgets how long the file for messages is, unless it is a block of the table.
    pub(crate) fn forget(&mut self, table: &BlockTable)
        ensures value { self.new ≡ record self.old { reach = block_reach table.now self.old.reach } }
    {
        if let Some(block) = self.reach
            && !table.has_block(block.file)
        {
            self.reach = None;
        }
    }

    /// Whether the file for messages reaches to the end of the spot.
    pub(crate) fn reaches(&self, spot: Spot) -> bool
        ensures value { result ≡ reaches_in self.now.reach spot }
    {
        match self.reach {
            Some(block) => block.file == spot.file && is_within(spot, block.end),
            None => false,
        }
    }
}

/// Whether a length is so much and the spare bytes at least.
fn is_spared(len: u64, count: u64) -> bool
    ensures value { result ≡ nat_le (count + spare) len }
{
    len >= SPARE && count <= len - SPARE
}

/// Whether the spot ends within so many bytes.
fn is_within(spot: Spot, len: u32) -> bool
    ensures value { result ≡ nat_le (spot.at + spot.len) len }
{
    u64::from(spot.at) + u64::from(spot.len) <= u64::from(len)
}

/// The length of a file.
pub(crate) fn file_len<V: Vol>(vol: &mut V, file: u32) -> Result<u64, Failed>
    ensures value { V.told → IfOk result (λ len. len ≡ length ((V.disk vol.old).seen file)) }
    ensures quiet { V.told → Quiet (V.disk vol.old) (V.disk vol.new) }
    ensures cause { HasCause (V.faults vol.old) (V.faults vol.new) (IsErr result) }
    ensures refusals { V.refusals vol.old ≤ V.refusals vol.new }
    ensures later { (V.disk vol.old).moment ≤ (V.disk vol.new).moment }
{
    vol.len(file)
}

/// What is known of the logs of a volume by a look at them.
pub(crate) fn look<V: Vol>(vol: &mut V) -> Result<Rooms, Failed>
    ensures rooms { V.told → IfOk result (λ rooms. AreRooms rooms (V.disk vol.new)) }
    ensures short { IfOk result AreLogsShort }
    ensures quiet { V.told → Quiet (V.disk vol.old) (V.disk vol.new) }
    ensures cause { HasCause (V.faults vol.old) (V.faults vol.new) (IsErr result) }
    ensures refusals { V.refusals vol.old ≤ V.refusals vol.new }
    ensures later { (V.disk vol.old).moment ≤ (V.disk vol.new).moment }
{
    let zero = file_len(vol, 0)?;
    let one = file_len(vol, 1)?;
    Ok(Rooms {
        zero: zero.min(MAX_LOG),
        one: one.min(MAX_LOG),
        reach: None,
    })
}
