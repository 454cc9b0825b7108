//! `vol_disk`: room that is made in a file of a volume in memory, and what comes of it where there is none.

use crate::contents::{are_spelled, holds, reach};
use js_base::List;
use std::alloc::Global;
use std::sync::Arc;
use std::sync::atomic::{AtomicU64, Ordering};
use std::test::Fail;
use vol_disk::{MemVol, Room, Vol, whole_chunks};

/// A volume whose file 0 was synced with `hello`.
fn greeted(alloc: Global) -> Result<MemVol, Fail> {
    let mut vol = MemVol::new(alloc);
    vol.write_at(0, 0, b"hello")?;
    vol.sync(0)?;
    Ok(vol.image(1)?)
}

#[test]
fn room_is_zeros_at_the_end_and_a_sync(rt: HostRuntime) -> Result<(), Fail> {
    let mut vol = greeted(rt.alloc())?;
    assert_eq!(rt; reach(&mut vol, 0, 8)?, Room::Made);
    assert!(rt; are_spelled(vol.calls(), b"lgs"));
    assert_eq!(rt; reach(&mut vol, 0, 8)?, Room::Made);
    assert!(rt; are_spelled(vol.calls(), b"lgsl"), "nothing is made twice");
    for pick in 0..10 {
        assert!(rt; holds(rt.alloc(), &mut vol.image(pick)?, 0, b"hello\0\0\0")?);
    }
    Ok(())
}

#[test]
fn room_is_made_a_mebibyte_at_a_time(rt: HostRuntime) -> Result<(), Fail> {
    let mut vol = MemVol::new(rt.alloc());
    assert_eq!(rt; reach(&mut vol, 3, (1 << 20) + 1)?, Room::Made);
    assert!(rt; are_spelled(vol.calls(), b"lggs"));
    assert_eq!(rt; vol.len(3)?, (1 << 20) + 1);
    Ok(())
}

#[test]
fn room_is_refused_beyond_the_budget(rt: HostRuntime) -> Result<(), Fail> {
    let budget = Arc::new(rt.alloc(), AtomicU64::new(7))?;
    let mut vol = greeted(rt.alloc())?.with_budget(budget.clone()?);
    assert_eq!(rt; reach(&mut vol, 0, 8)?, Room::Refused);
    assert_eq!(rt; reach(&mut vol, 1, 2)?, Room::Made);
    assert_eq!(rt; reach(&mut vol, 0, 6)?, Room::Refused);
    assert!(rt; are_spelled(vol.calls(), b"lGslgslGs"));
    assert_eq!(rt; vol.refusals(), 2);
    assert_eq!(rt; vol.faults(), 0);
    vol.cut(1, 0)?;
    assert_eq!(rt; reach(&mut vol, 0, 7)?, Room::Made);
    assert_eq!(rt; reach(&mut vol, 0, 8)?, Room::Refused);
    budget.store(8, Ordering::SeqCst);
    assert_eq!(rt; reach(&mut vol, 0, 8)?, Room::Made);
    assert!(rt; holds(rt.alloc(), &mut vol, 0, b"hello\0\0\0")?);
    Ok(())
}

/// Whether each image has `hello`, and at most so many bytes.
fn all_greet(alloc: Global, vol: &MemVol, most: u64) -> Result<bool, Fail> {
    for pick in 0..40 {
        let mut image = vol.image(pick)?;
        let len = image.len(0)?;
        image.cut(0, len.min(5))?;
        if len > most || !holds(alloc, &mut image, 0, b"hello")? {
            return Ok(false);
        }
    }
    Ok(true)
}

#[test]
fn crash_leaves_what_stood_in_front_of_the_room(rt: HostRuntime) -> Result<(), Fail> {
    let alloc = rt.alloc();
    for stop in 0..4 {
        let mut vol = greeted(alloc)?.with_failures(List::new(alloc), Some(stop));
        let room = reach(&mut vol, 0, 8);
        assert_eq!(rt; room.is_ok(), stop == 3, "{stop}");
        assert!(rt; all_greet(alloc, &vol, 8)?, "{stop}");
    }
    Ok(())
}

#[test]
fn refusal_leaves_zeros_until_the_next_sync(rt: HostRuntime) -> Result<(), Fail> {
    let alloc = rt.alloc();
    let budget = Arc::new(alloc, AtomicU64::new(0))?;
    let mut vol = greeted(alloc)?.with_budget(budget);
    assert_eq!(rt; vol.grow(0, 3)?, Room::Refused);
    assert!(rt; !all_greet(alloc, &vol, 5)? && all_greet(alloc, &vol, 8)?);
    vol.sync(0)?;
    assert!(rt; all_greet(alloc, &vol, 5)?);
    Ok(())
}

#[test]
fn lengths_are_rounded_up_to_whole_chunks(rt: HostRuntime) {
    let vol = MemVol::new(rt.alloc());
    assert_eq!(rt; whole_chunks(&vol, 11), 11);
    let vol = vol.with_chunk(8);
    for (len, wanted) in [(0, 0), (1, 8), (8, 8), (9, 16)] {
        assert_eq!(rt; whole_chunks(&vol, len), wanted);
    }
}
