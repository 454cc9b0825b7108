//! `message_block`: blocks that are written, read and dropped over volumes in memory, each of whose calls fails once, and what a crash leaves of them.

use crate::blind::Blind;
use crate::contents::{holds, reach};
use js_base::Spot;
use message_block::{BlockFault, drop_block, read, write};
use std::alloc::Global;
use std::process::Abort;
use std::test::Fail;
use vol_disk::{Failed, MemVol, Vol};

/// How many calls a write or a drop makes of a volume, with that for the length that `Blind` makes before it.
const CALLS: u64 = 3;

/// The spot of the bytes in the block of file 3.
const OTHER: Spot = Spot {
    file: 3,
    at: 0,
    len: 5,
};

/// A spot in the block of file 2.
fn spot(at: u32, len: u32) -> Spot {
    Spot { file: 2, at, len }
}

/// A volume of which the call with this number fails, or all from it on.
fn faulty(alloc: Global, vol: MemVol, at: u64, is_stopped: bool) -> Result<Blind, Fail> {
    if is_stopped {
        return Ok(Blind::over(alloc, vol, &[], Some(at))?);
    }
    Ok(Blind::over(alloc, vol, &[at], None)?)
}

/// A volume whose block of file 2 holds `hello`, and that of file 3 `other`.
fn with_blocks(alloc: Global) -> Result<MemVol, Fail> {
    let mut vol = Blind::over(alloc, MemVol::new(alloc), &[], None)?;
    for file in [2, 3] {
        reach(&mut vol, file, 30)?;
    }
    write(&mut vol, 2, 0, b"hello")?;
    write(&mut vol, 3, 0, b"other")?;
    Ok(vol.into_vol())
}

/// Whether the bytes at a spot are these.
fn reads(alloc: Global, vol: &mut Blind, spot: Spot, wanted: &[u8]) -> Result<bool, BlockFault> {
    let bytes = read(alloc, vol, spot)?;
    Ok(bytes.as_slice() == wanted)
}

#[test]
fn bytes_are_read_at_their_spots(rt: HostRuntime) -> Result<(), Fail> {
    let alloc = rt.alloc();
    let mut vol = Blind::over(alloc, with_blocks(alloc)?, &[], None)?;
    assert_eq!(rt; write(&mut vol, 2, 5, b" disk")?, spot(5, 5));
    assert_eq!(rt; write(&mut vol, 2, 10, b"")?, spot(10, 0));
    for (spot, wanted) in [
        (spot(0, 5), b"hello".as_slice()),
        (spot(5, 5), b" disk".as_slice()),
        (spot(4, 4), b"o di".as_slice()),
        (spot(10, 0), b"".as_slice()),
    ] {
        assert!(rt; reads(alloc, &mut vol, spot, wanted)?);
    }
    Ok(())
}

/// Whether a crash leaves these bytes at a spot, whichever image is picked.
fn all_read(alloc: Global, vol: &MemVol, spot: Spot, wanted: &[u8]) -> Result<bool, Fail> {
    for pick in 0..40 {
        let mut image = Blind::over(alloc, vol.image(pick)?, &[], None)?;
        if !reads(alloc, &mut image, spot, wanted)? {
            return Ok(false);
        }
    }
    Ok(true)
}

/// Checks what came of a call on the block of file 2 whose volume fails at this one of its calls.
fn check_answer<T: Drop>(rt: &impl Abort, answer: &Result<T, Failed>, vol: &Blind, at: u64) {
    assert_eq!(rt; answer.is_ok(), at == CALLS, "{at}");
    assert_eq!(rt; vol.faults(), u64::from(answer.is_err()), "{at}");
}

/// Writes ` disk` behind `hello` while the volume fails, and checks what a crash leaves.
fn check_write(rt: &impl Abort, alloc: Global, at: u64, is_stopped: bool) -> Result<(), Fail> {
    let mut vol = faulty(alloc, with_blocks(alloc)?, at, is_stopped)?;
    let written = write(&mut vol, 2, 5, b" disk");
    check_answer(rt, &written, &vol, at);
    let vol = vol.into_vol();
    assert!(rt; all_read(alloc, &vol, spot(0, 5), b"hello")?, "{at}");
    if let Ok(spot) = written {
        assert!(rt; all_read(alloc, &vol, spot, b" disk")?, "{at}");
    }
    Ok(())
}

#[test]
fn crash_leaves_what_was_written(rt: HostRuntime) -> Result<(), Fail> {
    for at in 0..=CALLS {
        check_write(&rt, rt.alloc(), at, false)?;
        check_write(&rt, rt.alloc(), at, true)?;
    }
    Ok(())
}

#[test]
fn write_after_one_that_failed_stands(rt: HostRuntime) -> Result<(), Fail> {
    let alloc = rt.alloc();
    let mut vol = Blind::over(alloc, with_blocks(alloc)?, &[2], None)?;
    assert!(rt; write(&mut vol, 2, 5, b", and much more").is_err());
    let spot = write(&mut vol, 2, 5, b" disk")?;
    let vol = vol.into_vol();
    assert!(rt; all_read(alloc, &vol, spot, b" disk")?);
    Ok(())
}

/// Drops the block of file 2 while the volume fails, and checks what a crash leaves.
fn check_drop(rt: &impl Abort, alloc: Global, at: u64, is_stopped: bool) -> Result<(), Fail> {
    let mut vol = faulty(alloc, with_blocks(alloc)?, at, is_stopped)?;
    let dropped = drop_block(&mut vol, 2);
    check_answer(rt, &dropped, &vol, at);
    let vol = vol.into_vol();
    for pick in 0..40 {
        let mut image = vol.image(pick)?;
        assert!(rt;
            dropped.is_err() || holds(alloc, &mut image, 2, b"")?,
            "{at}"
        );
        assert!(rt;
            reads(
                alloc,
                &mut Blind::over(alloc, image, &[], None)?,
                OTHER,
                b"other"
            )?,
            "{at}"
        );
    }
    Ok(())
}

#[test]
fn crash_leaves_nothing_of_a_dropped_block(rt: HostRuntime) -> Result<(), Fail> {
    for at in 0..=CALLS {
        check_drop(&rt, rt.alloc(), at, false)?;
        check_drop(&rt, rt.alloc(), at, true)?;
    }
    Ok(())
}

#[test]
fn read_fails_with_the_volume(rt: HostRuntime) -> Result<(), Fail> {
    let alloc = rt.alloc();
    for at in 0..2 {
        let mut vol = faulty(alloc, with_blocks(alloc)?, at, false)?;
        let read = reads(alloc, &mut vol, spot(0, 5), b"hello");
        assert!(rt; matches!(&read, Err(BlockFault::Fault)), "{at}");
        assert_eq!(rt; vol.faults(), 1, "{at}");
        assert!(rt; reads(alloc, &mut vol, spot(0, 5), b"hello")?, "{at}");
    }
    Ok(())
}
