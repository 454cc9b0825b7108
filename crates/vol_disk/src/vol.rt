//! Volumes of numbered files.

ghost use Rattle.std.specs.Prelude.{◌≡◌, ℕ, ◌+◌, ◌≤◌, ◌^◌, length, take, drop, OnOk, OnErr, IfOk, IsErr};
ghost use Rattle.vol_disk.specs.Disk.{Disk, IsLeftBelow};
ghost use Rattle.vol_disk.specs.Images.{IsDurable, IsHonest};
ghost use Rattle.vol_disk.specs.Steps.{written, Torn, CutTo, Kept};
ghost use Rattle.vol_disk.specs.Does.{Does};
ghost use Rattle.vol_disk.specs.Clock.{IsClocked};
ghost use Rattle.vol_disk.specs.Growing.{IsGrown, IsRefused};
ghost use Rattle.vol_disk.specs.Moments.{Quiet};
ghost use Rattle.js_base.specs.Causes.{HasCause};

use crate::failed::Failed;
use crate::room::Room;

/// A volume of numbered files. A file never written has length 0.
///
/// Between two syncs of a file a crash may leave any bytes in the ranges that were written and past the
/// least length that the file had, and any length from the least to the greatest that it had. The other
/// bytes stay. After a sync that succeeds a crash leaves what a read gives.
///
/// `grow` alone needs more of the disk than there was: the bytes of a file are its room, and a write lies within them.
///
/// A write, a cut or a `grow` that fails may have done any part of it, both to what a read gives and to what a crash
/// leaves. Any other call that fails, a sync too, keeps what a read gives, and a crash leaves nothing that it
/// might not have left before.
pub trait Vol {
    /// What the disk reads as, and what a crash may leave of it.
    ghost disk: { Self → Disk };

    /// That the volume keeps what is told of its disk, and nobody else writes it. Of a real disk this is
    /// not known.
    ghost told: { Type 0 };

    /// How often it failed.
    ghost faults: { Self → ℕ };

    /// How often it was asked for room and had none.
    ghost refusals: { Self → ℕ };

    /// The file's length.
    fn len(&mut self, file: u32) -> Result<u64, Failed>
        ensures value { told → IfOk result (λ len. len ≡ length ((disk self.old).seen file)) }
        ensures seen { told → (disk self.new).seen file ≡ (disk self.old).seen file }
        ensures does { told → Does file Kept (disk self.old) (disk self.new) }
        ensures cause { HasCause (faults self.old) (faults self.new) (IsErr result) }
        ensures refusals { refusals self.old ≤ refusals self.new }
        ensures later { (disk self.old).moment ≤ (disk self.new).moment };

    /// Reads a range of the file.
    fn read_at(&mut self, file: u32, at: u64, into: &mut [u8]) -> Result<(), Failed>
        requires within { told → at + length into.old ≤ length ((disk self.old).seen file) }
        ensures value { told → OnOk result (into.new ≡ take (length into.old) (drop at ((disk self.old).seen file))) }
        ensures seen { told → (disk self.new).seen file ≡ (disk self.old).seen file }
        ensures does { told → Does file Kept (disk self.old) (disk self.new) }
        ensures cause { HasCause (faults self.old) (faults self.new) (IsErr result) }
        ensures refusals { refusals self.old ≤ refusals self.new }
        ensures later { (disk self.old).moment ≤ (disk self.new).moment };

    /// Writes the bytes over what is there. The file gets no longer: a write past its end fails.
    fn write_at(&mut self, file: u32, at: u64, bytes: &[u8]) -> Result<(), Failed>
        requires within { told → at + length bytes.now ≤ length ((disk self.old).seen file) }
        ensures seen { told → OnOk result ((disk self.new).seen file ≡ written at bytes.now ((disk self.old).seen file)) }
        ensures torn { told → OnErr result (Torn at (length bytes.now) ((disk self.old).seen file) ((disk self.new).seen file)) }
        ensures does { told → Does file (Torn at (length bytes.now)) (disk self.old) (disk self.new) }
        ensures cause { HasCause (faults self.old) (faults self.new) (IsErr result) }
        ensures refusals { refusals self.old ≤ refusals self.new }
        ensures later { (disk self.old).moment ≤ (disk self.new).moment };

    /// Cuts the file to a length.
    fn cut(&mut self, file: u32, to: u64) -> Result<(), Failed>
        requires within { told → to ≤ length ((disk self.old).seen file) }
        ensures seen { told → OnOk result ((disk self.new).seen file ≡ take to ((disk self.old).seen file)) }
        ensures torn { told → OnErr result (CutTo to ((disk self.old).seen file) ((disk self.new).seen file)) }
        ensures does { told → Does file (CutTo to) (disk self.old) (disk self.new) }
        ensures cause { HasCause (faults self.old) (faults self.new) (IsErr result) }
        ensures refusals { refusals self.old ≤ refusals self.new }
        ensures later { (disk self.old).moment ≤ (disk self.new).moment };

    /// Makes the file longer by so many zeros, at most 1 MiB. After `Made` a write of these bytes needs no more of the disk; one that fails all the same is a
    /// fault of the volume.
    ///
    /// `Refused` is no fault, and may be asked again. It comes if the disk has no space left, if the file may not be so long, or if the system lacks a
    /// descriptor or memory for the call. The file reads as before; until the next sync a crash may leave any bytes behind its end, up to so many.
    fn grow(&mut self, file: u32, count: u32) -> Result<Room, Failed>
        requires few { count ≤ 2 ^ 20 }
        ensures grown { told → IfOk result (λ room. IsGrown room count ((disk self.old).seen file) ((disk self.new).seen file)) }
        ensures torn { told → OnErr result (Torn (length ((disk self.old).seen file)) count ((disk self.old).seen file) ((disk self.new).seen file)) }
        ensures does { told → Does file (Torn (length ((disk self.old).seen file)) count) (disk self.old) (disk self.new) }
        ensures cause { HasCause (faults self.old) (faults self.new) (IsErr result) }
        ensures refused { HasCause (refusals self.old) (refusals self.new) (IsRefused result) }
        ensures later { (disk self.old).moment ≤ (disk self.new).moment };

    /// Of how many bytes the length of a file is best a multiple when it grows, at most 1 MiB.
    fn chunk(&self) -> u32
        ensures some { 1 ≤ result }
        ensures few { result ≤ 2 ^ 20 };

    /// Brings the file to the disk, so that a crash leaves of it what a read gives.
    fn sync(&mut self, file: u32) -> Result<(), Failed>
        ensures durable { told → OnOk result (IsDurable (disk self.new) file) }
        ensures seen { told → (disk self.new).seen file ≡ (disk self.old).seen file }
        ensures does { told → Does file Kept (disk self.old) (disk self.new) }
        ensures cause { HasCause (faults self.old) (faults self.new) (IsErr result) }
        ensures refusals { refusals self.old ≤ refusals self.new }
        ensures later { (disk self.old).moment ≤ (disk self.new).moment };

    /// A number behind that of every file that has bytes, or of which a crash may leave some, at most 2^32. Files before it may be empty.
    fn files_end(&mut self) -> Result<u64, Failed>
        ensures left { told → IfOk result (λ end. IsLeftBelow end (disk self.new)) }
        ensures quiet { told → Quiet (disk self.old) (disk self.new) }
        ensures cause { HasCause (faults self.old) (faults self.new) (IsErr result) }
        ensures refusals { refusals self.old ≤ refusals self.new }
        ensures later { (disk self.old).moment ≤ (disk self.new).moment };

    /// Tells whoever runs the server that the stream of this name, which the volume keeps, is stopped since the volume failed. It changes nothing.
    fn tell_stopped(&self, stream: &[u8]);

    /// How often it failed. The count stops at the greatest number of its type.
    fn faults(&self) -> u64
        ensures value { result ≡ faults self.now };

    /// How often it was asked for room and had none. The count stops at the greatest number of its type.
    fn refusals(&self) -> u64
        ensures value { result ≡ refusals self.now };

    /// The clock of its disk goes with the images.
    ghost clocked: { (vol : Self) → IsClocked (disk vol) };

    /// A crash may leave each file as it reads.
    ghost honest: { told → (vol : Self) → IsHonest (disk vol) };
}
