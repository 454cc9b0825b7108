//! `stream_store`: a volume that has room for so many bytes more, what it refuses, and what goes on without.

ghost use Rattle.std.specs.Prelude.{IfOk};
ghost use Rattle.durable_checks.specs.Storable.{IsFormed, IsStorable};

use crate::store_calls::{
    Ended, count_in_image, filled_in, held, opened, publish, publish_in_next, purge, reserve,
    with_messages,
};
use disk_tests::Blind;
use effects::Durable;
use std::alloc::Global;
use std::process::Abort;
use std::sync::Arc;
use std::sync::atomic::AtomicU64;
use std::test::Fail;
use stream_store::{OpenFault, Store};
use vol_disk::{Failed, MemVol, Vol};

/// A payload for which a block needs room.
const LARGE: usize = 200_000;

/// A volume's files grow by so many bytes at a time.
const CHUNK: u64 = 1 << 16;

/// A place that comes to so much needs longer logs.
const MORE: u64 = 300_000;

/// A volume that has two messages, in files of whole chunks.
fn in_chunks(alloc: Global) -> Result<MemVol, Fail> {
    let vol = MemVol::new(alloc).with_chunk(CHUNK as u32);
    let (_, vol) = filled_in(alloc, vol, &[5, 5])?;
    Ok(vol.into_vol())
}

/// How many bytes the two logs and the block of a volume have.
fn length_of(vol: &mut MemVol) -> Result<u64, Failed> {
    let logs = vol.len(0)?.saturating_add(vol.len(1)?);
    Ok(logs.saturating_add(vol.len(2)?))
}

/// The store of a volume that has two messages, and room for so many bytes more.
fn with_room(alloc: Global, more: u64) -> Result<(Store, Blind), Fail> {
    let mut vol = in_chunks(alloc)?;
    let budget = length_of(&mut vol)?.saturating_add(more);
    let budget = Arc::new(alloc, AtomicU64::new(budget))?;
    opened(alloc, vol.with_budget(budget), &[], None)
}

/// Checks that each crash leaves so many messages.
fn check_count(rt: &impl Abort, alloc: Global, vol: &MemVol, count: usize) -> Result<(), Fail> {
    for pick in 0..12 {
        assert!(rt; count_in_image(alloc, vol, pick)? == Some(count), "{pick}");
    }
    Ok(())
}

/// Stores a large message where there is so much room, and then a small one, for which there always is. Tells how it ended.
fn check_publish(rt: &impl Abort, alloc: Global, budget: u64) -> Result<Ended, Fail> {
    let (mut store, mut vol) = with_room(alloc, budget)?;
    let payload = vec![in alloc; b'x'; LARGE]?;
    let ended = publish(alloc, &mut store, &mut vol, 3, payload.as_slice())?;
    let (next, count) = if ended == Ended::Done { (4, 4) } else { (3, 3) };
    let small = publish(alloc, &mut store, &mut vol, next, b"hello")?;
    assert!(rt; small == Ended::Done && vol.faults() == 0);
    assert!(rt; (ended == Ended::Refused) == (vol.refusals() > 0));
    check_count(rt, alloc, &vol.into_vol(), count)?;
    Ok(ended)
}

#[test]
fn message_without_room_is_refused_and_one_with_room_is_not(rt: HostRuntime) -> Result<(), Fail> {
    for budget in [0, 1, CHUNK, 2 * CHUNK, 3 * CHUNK - 1] {
        assert!(rt;
            check_publish(&rt, rt.alloc(), budget)? == Ended::Refused,
            "{budget}"
        );
    }
    assert!(rt; check_publish(&rt, rt.alloc(), 4 * CHUNK)? == Ended::Done);
    Ok(())
}

/// Makes the logs longer where there is so much room, and tells how that ended. The volume holds what it held.
fn check_reserve(rt: &impl Abort, alloc: Global, budget: u64) -> Result<Ended, Fail> {
    let (mut store, mut vol) = with_room(alloc, budget)?;
    let ended = reserve(&mut store, &mut vol, MORE)?;
    assert!(rt; store.is_reserved(MORE) == (ended == Ended::Done));
    check_count(rt, alloc, &vol.into_vol(), 2)?;
    Ok(ended)
}

#[test]
fn logs_get_longer_where_there_is_room_for_both(rt: HostRuntime) -> Result<(), Fail> {
    for budget in [0, 1, CHUNK, MORE, MORE + CHUNK] {
        assert!(rt;
            check_reserve(&rt, rt.alloc(), budget)? == Ended::Refused,
            "{budget}"
        );
    }
    assert!(rt; check_reserve(&rt, rt.alloc(), 3 * MORE)? == Ended::Done);
    Ok(())
}

/// What a volume would hold with a message more.
fn with_third(alloc: Global) -> Result<Durable, Fail>
    ensures formed { IfOk result IsFormed }
    ensures storable { IfOk result IsStorable }
{
    let vol = with_messages(alloc, &[5, 5])?;
    let (mut store, mut vol) = opened(alloc, vol, &[], None)?;
    publish(alloc, &mut store, &mut vol, 3, b"hello")?;
    held(alloc, &mut vol)
}

#[test]
fn log_is_left_without_more_room(rt: HostRuntime) -> Result<(), Fail> {
    let alloc = rt.alloc();
    let next = with_third(alloc)?;
    let (mut store, mut vol) = with_room(alloc, 0)?;
    let ended = publish_in_next(alloc, &mut store, &mut vol, 3, b"hello", &next)?;
    assert!(rt; ended == Ended::Done && vol.refusals() == 0);
    check_count(&rt, alloc, &vol.into_vol(), 3)
}

#[test]
fn file_in_which_room_was_made_is_cut_if_no_message_comes(rt: HostRuntime) -> Result<(), Fail> {
    let alloc = rt.alloc();
    let (mut store, mut vol) = with_room(alloc, u64::MAX)?;
    let payload = vec![in alloc; b'x'; LARGE]?;
    publish(alloc, &mut store, &mut vol, 3, payload.as_slice())?;
    purge(alloc, &mut store, &mut vol, 4)?;
    check_count(&rt, alloc, &vol.into_vol(), 0)
}

/// Whether a volume that has room for so many bytes is opened, or why it is not.
fn begin_fault(alloc: Global, budget: u64) -> Result<Option<OpenFault>, Fail> {
    let budget = Arc::new(alloc, AtomicU64::new(budget))?;
    let mut vol = MemVol::new(alloc).with_budget(budget);
    match Store::open(alloc, &mut vol) {
        Ok(_) => Ok(None),
        Err(fault) => Ok(Some(fault)),
    }
}

#[test]
fn first_log_needs_room(rt: HostRuntime) -> Result<(), Fail> {
    for budget in 0..39 {
        assert!(rt;
            begin_fault(rt.alloc(), budget)? == Some(OpenFault::NoRoom),
            "{budget}"
        );
    }
    assert!(rt; begin_fault(rt.alloc(), 39)?.is_none());
    Ok(())
}
