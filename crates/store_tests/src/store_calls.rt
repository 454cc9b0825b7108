//! What the tests of a store share: changes of a stream, each of them committed alone, to volumes of which nothing is told. Stores and volumes are made in
//! small functions and lent to the others, since the prover writes out each place in which one may be dropped.

ghost use Rattle.std.specs.Prelude.{◌≡◌, ◌∷◌, ◌+◌, ◌≤◌, [], false, length, IfOk, IsTrue, OnOk};
ghost use Rattle.durable_checks.specs.Storable.{IsFormed, IsStorable};
ghost use Rattle.stream_store.specs.Committing.{batch_length};
ghost use Rattle.op_records.specs.Allowed.{is_put, is_record};
ghost use Rattle.op_records.specs.Spelling.{spelled};
ghost use Rattle.store_tests.specs.Puts.{put_of};
ghost use Rattle.stream_store.specs.Placing.{can_place};

use disk_tests::Blind;
use effects::{Durable, Effect};
use js_base::{Blob, Moment, Name, NoMemory};
use js_json::object;
use op_records::write_effect;
use snapshot_bound::{held_bound, law_bounds};
use std::alloc::Global;
use std::process::Abort;
use std::test::Fail;
use stream_config::read;
use stream_store::laws::law_placing;
use stream_store::{CommitFault, OpenFault, RoomFault, Store};
use vol_disk::{Failed, MemVol, Vol};

/// The subject of each message.
const SUBJECT: &[u8] = b"orders.a";

/// How many bytes a message takes in a block besides its payload.
const BESIDES_PAYLOAD: usize = 38;

/// How many bytes a payload has at most.
const MAX_PAYLOAD: usize = 1_048_576;

/// The logs are made long enough for a place that comes to so much.
const RESERVED: u64 = 4_096;

/// No log is longer.
const MAX_LOG: u64 = 1 << 31;

/// The offset of the first gate of a log, and the byte that stands there if it is open.
const FIRST_GATE: u64 = 20;

const OPEN: u8 = 1;

/// What a commit came to, with the room that is made for it before.
#[derive(Clone, Copy, Debug, PartialEq, Eq)]
pub enum Ended {
    Done,
    Refused,
    Failed,
}

/// The moment of each change.
fn moment() -> Result<Moment, Failed>
    ensures value { IfOk result (λ moment. moment ≡ 1000) }
{
    Moment::of(1000).ok_or(Failed)
}

/// The record of a new stream.
fn making(alloc: Global) -> Result<Effect, Fail>
    ensures allowed { IfOk result (λ change. IsTrue (is_record change)) }
    ensures other { IfOk result (λ change. is_put change ≡ false) }
{
    let name = Name::read(alloc, b"ORDERS")?;
    let fields = object(alloc, br#"{"subjects":["orders.*"]}"#)?;
    let config = read(alloc, &fields, &name)?;
    Ok(Effect::MakeStream {
        incarnation: 1,
        made: moment()?,
        config,
    })
}

/// How many bytes the record of a change has, with the message that it stores.
fn written_len(alloc: Global, change: &Effect) -> Result<usize, NoMemory>
    requires allowed { IsTrue (is_record change.now) }
    ensures value { IfOk result (λ count. count ≡ length (spelled change.now)) }
{
    let mut bytes = Vec::new(alloc);
    write_effect(alloc, change, &mut bytes)?;
    Ok(bytes.len())
}

/// How many bytes a log has the record of a change in at most. It has no payload.
fn logged_at_most(alloc: Global, change: &Effect) -> Result<usize, NoMemory>
    requires allowed { IsTrue (is_record change.now) }
    ensures most { IfOk result (λ count. batch_length (change.now ∷ []) ≤ count) }
{
    let written = written_len(alloc, change)?;
    match change {
        Effect::PutHere { payload, .. } => Ok(written.saturating_sub(payload.len())),
        _ => Ok(written),
    }
}

/// Commits a change alone, if the log has room for it.
fn commit(alloc: Global, store: &mut Store, vol: &mut Blind, change: Effect) -> Result<Ended, Fail>
    requires allowed { IsTrue (is_record change) }
    requires placed { IsTrue (can_place store.old.blocks (change ∷ [])) }
{
    let count = logged_at_most(alloc, &change)?;
    if !store.has_log_room(count) {
        return Err(Failed)?;
    }
    match store.commit(alloc, vol, &[change]) {
        Ok(()) => Ok(Ended::Done),
        Err(CommitFault::Fault) => Ok(Ended::Failed),
        Err(fault) => Err(fault)?,
    }
}

/// Makes a stream.
pub fn make_stream(alloc: Global, store: &mut Store, vol: &mut Blind) -> Result<Ended, Fail> {
    law_placing();
    let change = making(alloc)?;
    commit(alloc, store, vol, change)
}

/// The record of a message.
fn put(alloc: Global, seq: u64, payload: &[u8]) -> Result<Effect, Fail>
    ensures value { IfOk result (λ change. change ≡ put_of seq payload.now) }
{
    let at = moment()?;
    let id = Blob::empty();
    let headers = Blob::empty();
    let subject = Blob::of(alloc, SUBJECT)?;
    let payload = Blob::of(alloc, payload)?;
    Ok(Effect::PutHere {
        seq,
        at,
        id,
        subject,
        headers,
        payload,
    })
}

/// How many bytes a message with this payload takes in a block.
fn len_of(payload: &[u8]) -> u32
    requires fits { length payload.now ≤ 1048576 }
    ensures value { result ≡ 38 + length payload.now }
{
    (BESIDES_PAYLOAD + payload.len()) as u32
}

/// The record of a message with the stream's next sequence, which is the number, if it has a place.
fn placed(alloc: Global, store: &mut Store, seq: u64, payload: &[u8]) -> Result<Effect, Fail>
    ensures allowed { IfOk result (λ change. IsTrue (is_record change)) }
    ensures placed { IfOk result (λ change. IsTrue (can_place store.new.blocks (change ∷ []))) }
    ensures fits { OnOk result (length payload.now ≤ 1048576) }
{
    if seq >= 1 << 62 || payload.len() > MAX_PAYLOAD {
        return Err(Failed)?;
    }
    law_placing();
    let len = len_of(payload);
    let spot = store.spot_behind(&[], len)?;
    if spot.is_none() {
        return Err(Failed)?;
    }
    let change = put(alloc, seq, payload)?;
    Ok(change)
}

/// Makes room for a message with this payload.
fn reach(store: &mut Store, vol: &mut Blind, payload: &[u8]) -> Result<Ended, Fail>
    requires fits { length payload.now ≤ 1048576 }
    ensures blocks { store.new.blocks ≡ store.old.blocks }
{
    let spot = store.spot_behind(&[], len_of(payload))?;
    let Some(spot) = spot else {
        return Err(Failed)?;
    };
    match store.reach(vol, spot) {
        Ok(true) => Ok(Ended::Done),
        Ok(false) => Ok(Ended::Refused),
        Err(RoomFault::Fault) => Ok(Ended::Failed),
        Err(fault) => Err(fault)?,
    }
}

/// Stores a message with the stream's next sequence, which is the number.
pub fn publish(
    alloc: Global,
    store: &mut Store,
    vol: &mut Blind,
    seq: u64,
    payload: &[u8],
) -> Result<Ended, Fail> {
    let change = placed(alloc, store, seq, payload)?;
    let reached = reach(store, vol, payload)?;
    if reached != Ended::Done {
        return Ok(reached);
    }
    commit(alloc, store, vol, change)
}

/// Commits a change alone, in the other log, which begins with all of this and is long enough for it.
fn alternate(
    alloc: Global,
    store: &mut Store,
    vol: &mut Blind,
    change: Effect,
    next: &Durable,
) -> Result<Ended, Fail>
    requires allowed { IsTrue (is_record change) }
    requires placed { IsTrue (can_place store.old.blocks (change ∷ [])) }
    requires formed { IsFormed next.now }
    requires storable { IsStorable next.now }
{
    law_bounds();
    let bound = held_bound(alloc, next)?;
    if bound > MAX_LOG || !store.is_reserved(bound) {
        return Err(Failed)?;
    }
    match store.alternate(alloc, vol, &[change], next, bound) {
        Ok(()) => Ok(Ended::Done),
        Err(CommitFault::Fault) => Ok(Ended::Failed),
        Err(fault) => Err(fault)?,
    }
}

/// Stores a message as [`publish`] does, in the other log, which begins with all of this.
pub fn publish_in_next(
    alloc: Global,
    store: &mut Store,
    vol: &mut Blind,
    seq: u64,
    payload: &[u8],
    next: &Durable,
) -> Result<Ended, Fail>
    requires formed { IsFormed next.now }
    requires storable { IsStorable next.now }
{
    let change = placed(alloc, store, seq, payload)?;
    let reached = reach(store, vol, payload)?;
    if reached != Ended::Done {
        return Ok(reached);
    }
    alternate(alloc, store, vol, change, next)
}

/// The record of an update of the stream by this configuration.
fn changing(alloc: Global, text: &[u8]) -> Result<Effect, Fail>
    ensures allowed { IfOk result (λ change. IsTrue (is_record change)) }
    ensures other { IfOk result (λ change. is_put change ≡ false) }
{
    let name = Name::read(alloc, b"ORDERS")?;
    let fields = object(alloc, text)?;
    let config = read(alloc, &fields, &name)?;
    Ok(Effect::ChangeStream { config })
}

/// Updates the stream.
pub fn update(
    alloc: Global,
    store: &mut Store,
    vol: &mut Blind,
    text: &[u8],
) -> Result<Ended, Fail> {
    law_placing();
    let change = changing(alloc, text)?;
    commit(alloc, store, vol, change)
}

/// Updates the stream, in the other log, which begins with all of this.
pub fn update_in_next(
    alloc: Global,
    store: &mut Store,
    vol: &mut Blind,
    text: &[u8],
    next: &Durable,
) -> Result<Ended, Fail>
    requires formed { IsFormed next.now }
    requires storable { IsStorable next.now }
{
    law_placing();
    let change = changing(alloc, text)?;
    alternate(alloc, store, vol, change, next)
}

/// Removes the messages of the stream in front of a sequence.
pub fn purge(alloc: Global, store: &mut Store, vol: &mut Blind, seq: u64) -> Result<Ended, Fail> {
    if seq < 2 || seq >= 1 << 62 {
        return Err(Failed)?;
    }
    law_placing();
    let high = seq - 1;
    commit(alloc, store, vol, Effect::Remove { low: 1, high })
}

/// Drops the stream.
pub fn drop_stream(alloc: Global, store: &mut Store, vol: &mut Blind) -> Result<Ended, Fail> {
    law_placing();
    commit(alloc, store, vol, Effect::DropStream)
}

/// Makes the logs long enough for a place that comes to so much.
pub fn reserve(store: &mut Store, vol: &mut Blind, count: u64) -> Result<Ended, Fail> {
    match store.reserve(vol, count) {
        Ok(true) => Ok(Ended::Done),
        Ok(false) => Ok(Ended::Refused),
        Err(Failed) => Ok(Ended::Failed),
    }
}

/// The store of a volume, whose logs have some room.
fn store_of(alloc: Global, vol: &mut Blind) -> Result<Store, Fail> {
    let (mut store, _) = Store::open(alloc, vol)?;
    reserve(&mut store, vol, RESERVED)?;
    Ok(store)
}

/// What a volume holds.
pub fn held<V: Vol>(alloc: Global, vol: &mut V) -> Result<Durable, Fail>
    ensures formed { IfOk result IsFormed }
    ensures storable { IfOk result IsStorable }
{
    let (_, durable) = Store::open(alloc, vol)?;
    Ok(durable)
}

/// Clears the log that is not current, and the files that are no blocks.
pub fn clear(store: &mut Store, vol: &mut Blind) -> Result<Ended, Fail> {
    match store.clear(vol) {
        Ok(()) => Ok(Ended::Done),
        Err(OpenFault::Fault) => Ok(Ended::Failed),
        Err(fault) => Err(fault)?,
    }
}

/// Opens the store of a volume, of which then the calls with these numbers fail, and all from the stop on.
pub fn opened(
    alloc: Global,
    vol: MemVol,
    failing: &[u64],
    stop: Option<u64>,
) -> Result<(Store, Blind), Fail> {
    let mut vol = Blind::over(alloc, vol, &[], None)?;
    let store = store_of(alloc, &mut vol)?;
    let vol = Blind::over(alloc, vol.into_vol(), failing, stop)?;
    Ok((store, vol))
}

/// Stores a message of so many bytes, as [`publish`] does.
fn publish_bytes(
    alloc: Global,
    store: &mut Store,
    vol: &mut Blind,
    seq: u64,
    size: usize,
) -> Result<Ended, Fail> {
    let payload = vec![in alloc; b'x'; size]?;
    publish(alloc, store, vol, seq, payload.as_slice())
}

/// Makes a stream and stores messages of these many bytes.
fn fill(alloc: Global, store: &mut Store, vol: &mut Blind, sizes: &[usize]) -> Result<(), Fail> {
    make_stream(alloc, store, vol)?;
    for (at, size) in sizes.iter().enumerate() {
        let seq = (at as u64).saturating_add(1);
        publish_bytes(alloc, store, vol, seq, *size)?;
    }
    Ok(())
}

/// The store of a volume, with a stream that has messages of these many bytes.
pub fn filled_in(alloc: Global, vol: MemVol, sizes: &[usize]) -> Result<(Store, Blind), Fail> {
    let (mut store, mut vol) = opened(alloc, vol, &[], None)?;
    fill(alloc, &mut store, &mut vol, sizes)?;
    Ok((store, vol))
}

/// A store and its volume, with a stream that has messages of these many bytes.
pub fn filled(alloc: Global, sizes: &[usize]) -> Result<(Store, Blind), Fail> {
    filled_in(alloc, MemVol::new(alloc), sizes)
}

/// A volume with such a stream.
pub fn with_messages(alloc: Global, sizes: &[usize]) -> Result<MemVol, Fail> {
    let (_, vol) = filled(alloc, sizes)?;
    Ok(vol.into_vol())
}

/// A store and its volume, with a stream that has two messages. Then the calls with these numbers fail, and all from the stop on.
pub fn with_two(alloc: Global, failing: &[u64], stop: Option<u64>) -> Result<(Store, Blind), Fail> {
    let vol = with_messages(alloc, &[5, 5])?;
    opened(alloc, vol, failing, stop)
}

/// Whether no batch is open in the log of a file.
pub fn is_shut(vol: &mut MemVol, file: u32) -> Result<bool, Failed> {
    if vol.len(file)? <= FIRST_GATE {
        return Ok(true);
    }
    let mut gate = [0];
    vol.read_at(file, FIRST_GATE, &mut gate)?;
    Ok(gate != [OPEN])
}

/// How many messages a stream has, or `None` if there is none.
fn count_of(durable: &Durable) -> Option<usize> {
    match &durable.body {
        Some(body) => Some(body.messages.len()),
        None => None,
    }
}

/// How many messages a volume holds of its stream, or `None` if it has none.
pub fn message_count<V: Vol>(alloc: Global, vol: &mut V) -> Result<Option<usize>, Fail> {
    let opened = Store::open(alloc, vol)?;
    Ok(count_of(&opened.1))
}

/// How many messages a crash leaves, where this image is picked.
pub fn count_in_image(alloc: Global, vol: &MemVol, pick: u64) -> Result<Option<usize>, Fail> {
    let mut image = vol.image(pick)?;
    message_count(alloc, &mut image)
}

/// How many messages a stream has before a change, and behind it. After a drop there is no stream.
#[derive(Clone, Copy)]
pub struct Counts {
    pub before: usize,
    pub after: Option<usize>,
}

/// Checks what crashes leave of a change: the messages from before, or surely what the change makes of them if it was answered.
pub fn check_images(
    rt: &impl Abort,
    alloc: Global,
    ended: Ended,
    vol: &MemVol,
    counts: Counts,
) -> Result<(), Fail> {
    for pick in 0..12 {
        let found = count_in_image(alloc, vol, pick)?;
        let is_old = found == Some(counts.before) && ended == Ended::Failed;
        assert!(rt; found == counts.after || is_old, "{pick}");
    }
    Ok(())
}
