//! `vol_disk`: the forms in memory, through the trait: which images they pick, and that calls succeed where memory suffices.

ghost use Rattle.std.specs.Prelude.{◌≤◌, length};

use crate::contents::{are_spelled, cut, holds, reach};
use js_base::{List, NoMemory};
use std::alloc::Global;
use std::sync::Arc;
use std::sync::atomic::AtomicBool;
use std::test::Fail;
use vol_disk::{Failed, HoldVol, MemVol, Vol, cut_synced, write_synced};

fn numbers(alloc: Global, of: &[u64]) -> Result<List<u64>, NoMemory> {
    Ok(List::from_vec(Vec::from_slice(alloc, of)?))
}

/// Writes behind the end of a file.
fn append(vol: &mut MemVol, file: u32, bytes: &[u8]) -> Result<(), Failed> {
    let len = vol.len(file)?;
    vol.write_at(file, len, bytes)
}

/// A volume whose file 0 was synced with these bytes.
fn synced_with(vol: MemVol, bytes: &[u8]) -> Result<MemVol, Failed> {
    let mut vol = vol;
    append(&mut vol, 0, bytes)?;
    vol.sync(0)?;
    Ok(vol)
}

#[test]
fn volume_reads_what_was_written(rt: HostRuntime) -> Result<(), Fail> {
    let mut vol = MemVol::new(rt.alloc());
    for (file, bytes) in [
        (2, b"hello".as_slice()),
        (0, b"log".as_slice()),
        (2, b" disk".as_slice()),
    ] {
        append(&mut vol, file, bytes)?;
    }
    for (file, bytes) in [
        (2, b"hello disk".as_slice()),
        (0, b"log".as_slice()),
        (1, b"".as_slice()),
    ] {
        assert!(rt; holds(rt.alloc(), &mut vol, file, bytes)?);
    }
    assert!(rt; are_spelled(vol.calls(), b"lwlwlwlrlrlr"));
    Ok(())
}

#[test]
fn volume_reads_what_was_changed(rt: HostRuntime) -> Result<(), Fail> {
    let mut vol = synced_with(MemVol::new(rt.alloc()), b"hello")?;
    vol.write_at(0, 0, b"HE")?;
    cut(&mut vol, 0, 4)?;
    assert!(rt; holds(rt.alloc(), &mut vol, 0, b"HEll")?);
    assert!(rt; are_spelled(vol.calls(), b"lwswlclr"));
    assert_eq!(rt; vol.faults(), 0);
    Ok(())
}

#[test]
fn volume_fails_where_it_is_told(rt: HostRuntime) -> Result<(), Fail> {
    let mut vol = MemVol::failing(rt.alloc(), numbers(rt.alloc(), &[1, 3])?, Some(6));
    for is_done in [true, false, true, false, true, true, false, false] {
        assert_eq!(rt; vol.sync(0).is_ok(), is_done);
    }
    assert!(rt; are_spelled(vol.calls(), b"sSsSssSS"));
    assert_eq!(rt; vol.faults(), 4);
    assert!(rt; vol.len(0).is_err(), "all fails from the stop on");
    Ok(())
}

/// Of how many picks the image has this length.
fn count_of_len(vol: &MemVol, file: u32, len: u64) -> Result<u64, Fail> {
    let mut count = 0;
    for pick in 0..100 {
        let mut image = vol.image(pick)?;
        if image.len(file)? == len {
            count += 1;
        }
    }
    Ok(count)
}

#[test]
fn image_is_as_it_reads_after_a_sync(rt: HostRuntime) -> Result<(), Fail> {
    let vol = synced_with(MemVol::new(rt.alloc()), b"hello")?;
    for pick in 0..20 {
        let mut image = vol.image(pick)?;
        assert!(rt; holds(rt.alloc(), &mut image, 0, b"hello")?);
        assert_eq!(rt; image.faults(), 0);
    }
    Ok(())
}

#[test]
fn image_has_any_part_of_what_is_not_synced(rt: HostRuntime) -> Result<(), Fail> {
    let mut vol = synced_with(MemVol::new(rt.alloc()), b"hello")?;
    append(&mut vol, 0, b" disk")?;
    cut(&mut vol, 0, 7)?;
    for (len, is_there) in [(4, false), (5, true), (7, true), (10, true), (11, false)] {
        assert_eq!(rt; count_of_len(&vol, 0, len)? > 0, is_there);
    }
    Ok(())
}

#[test]
fn image_is_as_synced_or_as_read(rt: HostRuntime) -> Result<(), Fail> {
    let mut vol = synced_with(MemVol::new(rt.alloc()), b"hello")?;
    vol.write_at(0, 0, b"J")?;
    cut(&mut vol, 0, 2)?;
    for (pick, bytes) in [(0, b"hello".as_slice()), (1, b"Je".as_slice())] {
        let mut image = vol.image(pick)?;
        assert!(rt; holds(rt.alloc(), &mut image, 0, bytes)?);
    }
    Ok(())
}

/// A volume on which the write and the cut after a sync failed.
fn half_done(alloc: Global) -> Result<MemVol, Fail> {
    let mut vol = synced_with(
        MemVol::failing(alloc, numbers(alloc, &[3, 5])?, None),
        b"hello",
    )?;
    let _written = vol.write_at(0, 0, b"J");
    let _cut = cut(&mut vol, 0, 3);
    Ok(vol)
}

#[test]
fn image_has_any_part_of_a_call_that_failed(rt: HostRuntime) -> Result<(), Fail> {
    let mut vol = half_done(rt.alloc())?;
    assert_eq!(rt; vol.faults(), 2);
    for len in [3, 5] {
        assert!(rt; count_of_len(&vol, 0, len)? > 0);
    }
    assert!(rt; holds(rt.alloc(), &mut vol, 0, b"hello")?);
    Ok(())
}

#[test]
fn image_may_fail_where_it_is_told(rt: HostRuntime) -> Result<(), Fail> {
    let vol = synced_with(MemVol::new(rt.alloc()), b"hello")?;
    let mut image = vol.image(1)?.with_failures(List::new(rt.alloc()), Some(2));
    assert!(rt; holds(rt.alloc(), &mut image, 0, b"hello")?);
    assert!(rt; image.sync(0).is_err());
    Ok(())
}

#[test]
fn synced_changes_are_durable(rt: HostRuntime) -> Result<(), Fail> {
    let mut vol = MemVol::new(rt.alloc()).image(0)?;
    reach(&mut vol, 4, 5)?;
    let len = vol.len(4)?;
    vol.sync(4)?;
    assert!(rt; 5 <= len);
    write_synced(&mut vol, 4, 0, b"hello")?;
    assert!(rt; holds(rt.alloc(), &mut vol.image(2)?, 4, b"hello")?);
    cut_synced(&mut vol, 4, 0)?;
    assert!(rt; holds(rt.alloc(), &mut vol.image(2)?, 4, b"")?);
    Ok(())
}

/// Needs that threads may take it.
fn is_sent<T: Send>(_vol: &T) {}

#[test]
fn held_volume_waits_and_then_syncs(rt: HostRuntime) -> Result<(), Fail> {
    let flag = Arc::new(rt.alloc(), AtomicBool::new(false))?;
    let mut vol = HoldVol::new(MemVol::new(rt.alloc()), 0, 1000, flag);
    is_sent(&vol);
    for file in [0, 1] {
        vol.grow(file, 5)?;
        vol.write_at(file, 0, b"hello")?;
        vol.sync(file)?;
        cut(&mut vol, file, 4)?;
        assert!(rt; holds(rt.alloc(), &mut vol, file, b"hell")?);
    }
    assert!(rt; are_spelled(vol.vol().calls(), b"gwslclrgwslclr"));
    Ok(())
}
