//! `stream_store`: a store that is opened and committed to over volumes in memory, each of whose calls fails once, and what is found in what a crash leaves.

use crate::store_calls::{
    Counts, Ended, check_images, message_count, opened, publish, with_messages, with_two,
};
use disk_tests::Blind;
use std::alloc::Global;
use std::process::Abort;
use std::test::Fail;
use stream_store::{OpenFault, Store};
use vol_disk::{Deed, Failed, MemVol, Vol};

/// A log of generation 1 that says that no stream was ever there.
const BEGUN: &[u8] =
    b"JSLOG\0\0\x03\0\0\0\0\0\0\0\x01\x9e\x6e\x28\xa6\x01\0\0\0\x09\x51\xf2\x4f\x1d\x20\0\0\0\0\0\0\0\0\0";

/// More calls than a commit of these tests makes.
const MANY: u64 = 40;

/// More bytes than the batches of a log of these tests have.
const WRITTEN: usize = 700;

/// The bytes of a file.
pub fn bytes_of(alloc: Global, vol: &mut MemVol, file: u32) -> Result<Vec<u8>, Fail> {
    let len = vol.len(file)?;
    let mut bytes = vec![in alloc; 0u8; len as usize]?;
    vol.read_at(file, 0, &mut bytes)?;
    Ok(bytes)
}

/// Why a volume does not open, if it does not.
pub fn open_fault(alloc: Global, vol: &mut Blind) -> Option<OpenFault> {
    match Store::open(alloc, vol) {
        Ok(_) => None,
        Err(fault) => Some(fault),
    }
}

/// Whether a volume opens at generation 1 as one that never had a stream.
pub fn opens_as_new(alloc: Global, vol: &mut MemVol) -> Result<bool, Fail> {
    let opened = Store::open(alloc, vol)?;
    Ok(opened.0.generation() == 1 && opened.1.incarnation == 0 && opened.1.body.is_none())
}

/// Whether a crash leaves a log that says so, where this image is picked.
fn image_is_begun(alloc: Global, vol: &MemVol, pick: u64) -> Result<bool, Fail> {
    let mut image = vol.image(pick)?;
    let log = bytes_of(alloc, &mut image, 0)?;
    Ok(log.as_slice() == BEGUN)
}

#[test]
fn new_volume_gets_a_log_that_says_so(rt: HostRuntime) -> Result<(), Fail> {
    let alloc = rt.alloc();
    let mut vol = MemVol::new(alloc);
    assert!(rt; opens_as_new(alloc, &mut vol)?);
    for pick in 0..20 {
        assert!(rt; image_is_begun(alloc, &vol, pick)?, "{pick}");
    }
    Ok(())
}

/// Whether nothing was written by the calls from a number on.
pub fn is_unwritten(vol: &MemVol, from: usize) -> bool {
    let calls = vol.calls().get(from..).unwrap_or_default();
    calls.iter().all(|call| {
        !matches!(
            &call.deed,
            Deed::Write { .. } | Deed::Grow { .. } | Deed::Cut { .. }
        )
    })
}

/// Opens a volume again and again, and checks that it has so many messages and that nothing is written.
fn check_opening_again(
    rt: &impl Abort,
    alloc: Global,
    vol: &mut MemVol,
    count: usize,
) -> Result<(), Fail> {
    let made = vol.calls().len();
    for _ in 0..3 {
        assert!(rt; message_count(alloc, vol)? == Some(count));
    }
    assert!(rt; is_unwritten(vol, made));
    Ok(())
}

/// Checks that of a volume with messages of these many bytes.
fn check_sizes(rt: &impl Abort, alloc: Global, sizes: &[usize]) -> Result<(), Fail> {
    let mut vol = with_messages(alloc, sizes)?;
    check_opening_again(rt, alloc, &mut vol, sizes.len())
}

#[test]
fn opening_again_finds_the_same_and_writes_nothing(rt: HostRuntime) -> Result<(), Fail> {
    check_sizes(&rt, rt.alloc(), &[])?;
    check_sizes(&rt, rt.alloc(), &[5])?;
    check_sizes(&rt, rt.alloc(), &[5, 0, 300])
}

/// Opens a volume, and tells whether a call failed. The opening fails if and only if one does.
fn open_fails(rt: &impl Abort, alloc: Global, vol: &mut Blind) -> Result<bool, Fail> {
    let is_failed = match open_fault(alloc, vol) {
        None => false,
        Some(OpenFault::Fault) => true,
        Some(fault) => Err(fault)?,
    };
    assert!(rt; vol.faults() == u64::from(is_failed));
    Ok(is_failed)
}

/// Opens what a volume reads as, of which the call with this number fails, and tells whether that came.
fn fails_at(rt: &impl Abort, alloc: Global, vol: &MemVol, at: u64) -> Result<bool, Fail> {
    let mut vol = Blind::over(alloc, vol.image(1)?, &[at], None)?;
    open_fails(rt, alloc, &mut vol)
}

/// How many calls an opening of the volume makes, each of which fails it.
fn count_of_failing(rt: &impl Abort, alloc: Global, vol: &MemVol) -> Result<u64, Fail> {
    for at in 0..100 {
        if !fails_at(rt, alloc, vol, at)? {
            return Ok(at);
        }
    }
    Ok(100)
}

/// Checks that an opening fails at each of its calls, which are more than ten.
fn check_each_call(rt: &impl Abort, alloc: Global, vol: &MemVol) -> Result<(), Fail> {
    let calls = count_of_failing(rt, alloc, vol)?;
    assert!(rt; 10 < calls && calls < 100, "{calls}");
    Ok(())
}

#[test]
fn opening_of_a_new_volume_fails_at_each_call_that_fails(rt: HostRuntime) -> Result<(), Fail> {
    let vol = MemVol::new(rt.alloc());
    check_each_call(&rt, rt.alloc(), &vol)
}

#[test]
fn opening_fails_at_each_call_that_fails(rt: HostRuntime) -> Result<(), Fail> {
    let vol = with_messages(rt.alloc(), &[5, 5])?;
    check_each_call(&rt, rt.alloc(), &vol)
}

/// Commits a third message, and fails at the call with this number, or from it on. Tells what came, and the volume.
fn third(alloc: Global, failing: &[u64], stop: Option<u64>) -> Result<(Ended, MemVol), Fail> {
    let (mut store, mut vol) = with_two(alloc, failing, stop)?;
    let ended = publish(alloc, &mut store, &mut vol, 3, b"hello")?;
    Ok((ended, vol.into_vol()))
}

/// Checks what crashes leave of such a commit: two messages or three, and surely three if it was answered.
fn check_third(
    rt: &impl Abort,
    alloc: Global,
    failing: &[u64],
    stop: Option<u64>,
) -> Result<Ended, Fail> {
    let (ended, vol) = third(alloc, failing, stop)?;
    let counts = Counts {
        before: 2,
        after: Some(3),
    };
    check_images(rt, alloc, ended, &vol, counts)?;
    Ok(ended)
}

#[test]
fn crash_leaves_a_commit_whole_or_not_at_all(rt: HostRuntime) -> Result<(), Fail> {
    let alloc = rt.alloc();
    assert!(rt; check_third(&rt, alloc, &[], None)? == Ended::Done);
    for at in 0..MANY {
        check_third(&rt, alloc, &[at], None)?;
        check_third(&rt, alloc, &[], Some(at))?;
    }
    Ok(())
}

/// Commits a second message, and stops at the call with this number. Tells what came, and the volume.
fn second(alloc: Global, stop: u64) -> Result<(Ended, MemVol), Fail> {
    let vol = with_messages(alloc, &[5])?;
    let (mut store, mut vol) = opened(alloc, vol, &[], Some(stop))?;
    let ended = publish(alloc, &mut store, &mut vol, 2, b"hello")?;
    Ok((ended, vol.into_vol()))
}

/// Checks what crashes leave of such a commit: one message or two, and surely two if it was answered.
fn check_second(rt: &impl Abort, alloc: Global, stop: u64) -> Result<Ended, Fail> {
    let (ended, vol) = second(alloc, stop)?;
    let counts = Counts {
        before: 1,
        after: Some(2),
    };
    check_images(rt, alloc, ended, &vol, counts)?;
    Ok(ended)
}

#[test]
fn stop_at_each_call_of_the_second_publish(rt: HostRuntime) -> Result<(), Fail> {
    for stop in 0..MANY {
        if check_second(&rt, rt.alloc(), stop)? == Ended::Done {
            assert!(rt; stop > 9, "{stop}");
            return Ok(());
        }
    }
    Err(Failed)?
}

/// Checks that a volume opens, or that its log is of another version or one of its files damaged.
fn check_opening(rt: &impl Abort, alloc: Global, vol: &mut Blind) -> Result<(), Fail> {
    match open_fault(alloc, vol) {
        None | Some(OpenFault::UnknownVersion(_)) => {}
        Some(OpenFault::Damaged { file, at }) => {
            assert!(rt; at <= vol.len(file)?, "{file}");
        }
        Some(fault) => Err(fault)?,
    }
    Ok(())
}

/// Checks that of what a volume reads as, with another byte at an offset of one of its files.
fn check_byte(
    rt: &impl Abort,
    alloc: Global,
    vol: &MemVol,
    file: u32,
    at: usize,
    byte: u8,
) -> Result<(), Fail> {
    let mut vol = Blind::over(alloc, vol.image(1)?, &[], None)?;
    vol.write_at(file, at as u64, &[byte])?;
    check_opening(rt, alloc, &mut vol)
}

/// Checks that of what a volume reads as, with one of its files cut to a length.
fn check_cut(
    rt: &impl Abort,
    alloc: Global,
    vol: &MemVol,
    file: u32,
    len: usize,
) -> Result<(), Fail> {
    let mut vol = Blind::over(alloc, vol.image(1)?, &[], None)?;
    vol.cut(file, len as u64)?;
    check_opening(rt, alloc, &mut vol)
}

/// What a file of the volume reads as; of a log, what stands in front of the room behind its end.
pub fn read_file(alloc: Global, vol: &MemVol, file: u32) -> Result<Vec<u8>, Fail> {
    let mut image = vol.image(1)?;
    let mut bytes = bytes_of(alloc, &mut image, file)?;
    bytes.truncate(WRITTEN);
    Ok(bytes)
}

/// Checks what comes of each other byte and each other end of a file.
fn check_each_byte(rt: &impl Abort, alloc: Global, vol: &MemVol, file: u32) -> Result<(), Fail> {
    let whole = read_file(alloc, vol, file)?;
    for (at, byte) in whole.iter().enumerate() {
        check_byte(rt, alloc, vol, file, at, *byte ^ 1)?;
        check_byte(rt, alloc, vol, file, at, !*byte)?;
        check_cut(rt, alloc, vol, file, at)?;
    }
    Ok(())
}

#[test]
fn log_with_another_byte_or_end_is_opened_or_refused(rt: HostRuntime) -> Result<(), Fail> {
    let vol = with_messages(rt.alloc(), &[5, 5])?;
    check_each_byte(&rt, rt.alloc(), &vol, 0)
}

#[test]
fn block_with_another_byte_or_end_is_opened_or_refused(rt: HostRuntime) -> Result<(), Fail> {
    let vol = with_messages(rt.alloc(), &[5, 5])?;
    check_each_byte(&rt, rt.alloc(), &vol, 2)
}
