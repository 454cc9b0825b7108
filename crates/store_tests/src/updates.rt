//! `stream_store`: updates of a stream that make log after log as long as it may get.

ghost use Rattle.std.specs.Prelude.{IfOk};
ghost use Rattle.durable_checks.specs.Storable.{IsFormed, IsStorable};

use crate::store_calls::{held, is_shut, make_stream, opened, reserve, update, update_in_next};
use disk_tests::Blind;
use effects::Durable;
use js_base::NoMemory;
use std::alloc::Global;
use std::process::Abort;
use std::test::Fail;
use stream_store::Store;
use vol_disk::{Failed, MemVol};

/// How many updates there are.
const UPDATES: u64 = 260;

/// How many subjects a configuration has, and how long each of them is.
const SUBJECTS: u64 = 256;

const SUBJECT_LEN: usize = 1_024;

/// About how many bytes an update takes in a log.
const UPDATE_LEN: usize = 264_000;

/// What the snapshot of such a stream comes to at most.
const BOUND: u64 = 265_000;

/// The logs are made long enough for a place that comes to so much, which is more than a log of these updates gets.
const RESERVED: u64 = 1 << 21;

/// Adds a subject of a configuration, by its number.
fn add_subject(text: &mut Vec<u8>, letter: u8, number: u64) -> Result<(), NoMemory> {
    if number > 0 {
        text.push(b',')?;
    }
    text.push(b'"')?;
    for place in 0..SUBJECT_LEN - 8 {
        text.push(if place == 0 { letter } else { b'x' })?;
    }
    for bit in 0..8u32 {
        text.push(if number >> bit & 1 == 0 { b'a' } else { b'b' })?;
    }
    text.push(b'"')?;
    Ok(())
}

/// The configuration of the update with this number: the subjects begin with another letter each time.
fn text_of(alloc: Global, number: u64) -> Result<Vec<u8>, NoMemory> {
    let letter = if number % 2 == 0 { b'a' } else { b'b' };
    let mut text = Vec::new(alloc);
    text.extend_from_slice(br#"{"subjects":["#)?;
    for subject in 0..SUBJECTS {
        add_subject(&mut text, letter, subject)?;
    }
    text.extend_from_slice(b"]}")?;
    Ok(text)
}

/// A volume with a stream.
fn made(alloc: Global) -> Result<MemVol, Fail> {
    let (mut store, mut vol) = opened(alloc, MemVol::new(alloc), &[], None)?;
    make_stream(alloc, &mut store, &mut vol)?;
    Ok(vol.into_vol())
}

/// Makes the updates from this number on, until one more would make the log too long. Tells the number of that.
fn fill_log(alloc: Global, store: &mut Store, vol: &mut Blind, from: u64) -> Result<u64, Fail> {
    for number in from..UPDATES {
        if store.is_long(UPDATE_LEN, BOUND) {
            return Ok(number);
        }
        update(alloc, store, vol, text_of(alloc, number)?.as_slice())?;
    }
    Ok(UPDATES)
}

/// The volume with as many updates as its log may have.
fn filled(alloc: Global, vol: MemVol, from: u64) -> Result<(MemVol, u64), Fail> {
    let (mut store, mut vol) = opened(alloc, vol, &[], None)?;
    reserve(&mut store, &mut vol, RESERVED)?;
    let number = fill_log(alloc, &mut store, &mut vol, from)?;
    Ok((vol.into_vol(), number))
}

/// What the volume would hold with one update more.
fn with_update(alloc: Global, vol: &MemVol, text: &[u8]) -> Result<Durable, Fail>
    ensures formed { IfOk result IsFormed }
    ensures storable { IfOk result IsStorable }
{
    let (mut store, mut copy) = opened(alloc, vol.image(1)?, &[], None)?;
    update(alloc, &mut store, &mut copy, text)?;
    held(alloc, &mut copy)
}

/// Makes the update with this number in the next log.
fn go_on(alloc: Global, vol: MemVol, number: u64) -> Result<MemVol, Fail> {
    let text = text_of(alloc, number)?;
    let next = with_update(alloc, &vol, text.as_slice())?;
    let (mut store, mut vol) = opened(alloc, vol, &[], None)?;
    update_in_next(alloc, &mut store, &mut vol, text.as_slice(), &next)?;
    Ok(vol.into_vol())
}

/// Fills a log from this update on, and goes on to the next one, if there is an update for it. Tells the number of the update behind that.
fn next_log(alloc: Global, vol: MemVol, from: u64) -> Result<(MemVol, u64), Fail> {
    let (vol, number) = filled(alloc, vol, from)?;
    if number < UPDATES {
        Ok((
            go_on(alloc, vol, number)?.image(1)?,
            number.saturating_add(1),
        ))
    } else {
        Ok((vol, UPDATES))
    }
}

/// Checks that a volume has one log, of this generation, which lies in file 0 if that is odd.
fn check_log(rt: &impl Abort, alloc: Global, vol: &MemVol, generation: u64) -> Result<(), Fail> {
    let mut image = vol.image(1)?;
    let other = if generation % 2 == 0 { 0 } else { 1 };
    assert!(rt; is_at(alloc, &mut image, generation)?, "{generation}");
    assert!(rt; is_shut(&mut image, other)?, "{generation}");
    Ok(())
}

/// Whether the volume opens at this generation.
fn is_at(alloc: Global, vol: &mut MemVol, generation: u64) -> Result<bool, Fail> {
    let opened = Store::open(alloc, vol)?;
    Ok(opened.0.generation() == generation)
}

/// Makes all updates, and checks the log of each generation. Tells how many there were.
fn check_updates(rt: &impl Abort, alloc: Global) -> Result<u64, Fail> {
    let mut vol = made(alloc)?;
    let mut number = 0;
    for generation in 1..UPDATES {
        check_log(rt, alloc, &vol, generation)?;
        let (next, behind) = next_log(alloc, vol, number)?;
        vol = next;
        number = behind;
        if number == UPDATES {
            return Ok(generation);
        }
    }
    Err(Failed)?
}

#[test]
fn updates_alternate_between_the_logs(rt: HostRuntime) -> Result<(), Fail> {
    let logs = check_updates(&rt, rt.alloc())?;
    assert!(rt; 60 < logs && logs < 70, "{logs}");
    Ok(())
}
