//! Records as they are written.

ghost use Rattle.std.specs.Prelude.{◌≡◌, ◌<◌, ◌^◌, ◌++◌, ◌∷◌, IsTrue, OnOk, OnErr};
ghost use Rattle.js_base.specs.Subjects.{is_subject_text};
ghost use Rattle.js_model.specs.Configs.{is_name, is_consumer_config};
ghost use Rattle.js_model.specs.Configs.{is_stream_config};
ghost use Rattle.op_records.specs.Allowed.{is_text, is_record, may_stand};
ghost use Rattle.op_records.specs.Spelling.{number, short, text, long, numbers, spelled, spelled_record, spelled_vacant};
ghost use Rattle.config_texts.specs.Texts.{stream_text, consumer_text};

use crate::puts::{
    put_consumer_config, put_kind, put_long, put_name, put_numbers, put_spot, put_stream_config,
    put_text, put_two,
};
use crate::record::Record;
use effects::Effect;
use js_base::{Blob, List, Moment, NoMemory, put_bytes, put_u64};
use js_model::{ConsumerConfig, StreamConfig};
use std::alloc::Global;

// The kinds, each a record's first byte.
const MAKE_STREAM: u8 = 1;

const CHANGE_STREAM: u8 = 2;

const DROP_STREAM: u8 = 3;

const PUT_HERE: u8 = 4;

const SKIP: u8 = 5;

const REMOVE: u8 = 6;

const MAKE_CONSUMER: u8 = 7;

const DROP_CONSUMER: u8 = 8;

const DELIVER: u8 = 9;

const ACKED: u8 = 10;

const DUE: u8 = 11;

const GIVEN_UP: u8 = 12;

const NOW: u8 = 13;

const PUT: u8 = 14;

const SNAP_VACANT: u8 = 32;

fn put_make_stream(
    alloc: Global,
    into: &mut Vec<u8>,
    incarnation: u64,
    made: Moment,
    config: &StreamConfig,
) -> Result<(), NoMemory>
    requires config { IsTrue (is_stream_config config.now) }
    ensures ok { OnOk result (into.new.items ≡ into.old.items ++ 1 ∷ (number incarnation ++ (number made ++ long (stream_text config.now)))) }
{
    put_kind(into, MAKE_STREAM)?;
    put_two(into, incarnation, made.as_nanos())?;
    put_stream_config(alloc, into, config)
}

fn put_change_stream(
    alloc: Global,
    into: &mut Vec<u8>,
    config: &StreamConfig,
) -> Result<(), NoMemory>
    requires config { IsTrue (is_stream_config config.now) }
    ensures ok { OnOk result (into.new.items ≡ into.old.items ++ 2 ∷ long (stream_text config.now)) }
{
    put_kind(into, CHANGE_STREAM)?;
    put_stream_config(alloc, into, config)
}

/// Adds a kind, a sequence, its moment and its id.
fn put_numbered(
    into: &mut Vec<u8>,
    kind: u8,
    seq: u64,
    at: Moment,
    id: &Blob,
) -> Result<(), NoMemory>
    requires id { IsTrue (is_text id.now) }
    ensures ok { OnOk result (into.new.items ≡ into.old.items ++ kind ∷ (number seq ++ (number at ++ text id.now))) }
{
    put_kind(into, kind)?;
    put_two(into, seq, at.as_nanos())?;
    put_text(into, id)
}

/// Adds what a message is besides its numbers and its id.
fn put_message(
    into: &mut Vec<u8>,
    subject: &Blob,
    headers: &Blob,
    payload: &Blob,
) -> Result<(), NoMemory>
    requires subject { IsTrue (is_subject_text subject.now) }
    ensures ok { OnOk result (into.new.items ≡ into.old.items ++ (text subject.now ++ (long headers.now ++ long payload.now))) }
{
    put_text(into, subject)?;
    put_long(into, headers.as_slice())?;
    put_long(into, payload.as_slice())
}

/// Adds a kind and a consumer's name.
fn put_named(into: &mut Vec<u8>, kind: u8, name: &Blob) -> Result<(), NoMemory>
    requires name { IsTrue (is_name name.now) }
    ensures ok { OnOk result (into.new.items ≡ into.old.items ++ kind ∷ short name.now) }
{
    put_kind(into, kind)?;
    put_name(into, name.as_slice())
}

/// Adds a kind, a consumer's name and two numbers.
fn put_named_two(
    into: &mut Vec<u8>,
    kind: u8,
    name: &Blob,
    first: u64,
    second: u64,
) -> Result<(), NoMemory>
    requires name { IsTrue (is_name name.now) }
    ensures ok { OnOk result (into.new.items ≡ into.old.items ++ kind ∷ (short name.now ++ (number first ++ number second))) }
{
    put_named(into, kind, name)?;
    put_two(into, first, second)
}

/// Adds where a consumer begins.
fn put_start(into: &mut Vec<u8>, cursor: u64, picks: &List<u64>) -> Result<(), NoMemory>
    ensures ok { OnOk result (into.new.items ≡ into.old.items ++ (number cursor ++ numbers picks.now)) }
{
    put_u64(into, cursor)?;
    put_numbers(into, picks)
}

fn put_make_consumer(
    alloc: Global,
    into: &mut Vec<u8>,
    name: &Blob,
    made: Moment,
    config: &ConsumerConfig,
) -> Result<(), NoMemory>
    requires name { IsTrue (is_name name.now) }
    requires config { IsTrue (is_consumer_config config.now) }
    ensures ok { OnOk result (into.new.items ≡ into.old.items ++ 7 ∷ (short name.now ++ (number made ++ long (consumer_text config.now)))) }
{
    put_named(into, MAKE_CONSUMER, name)?;
    put_u64(into, made.as_nanos())?;
    put_consumer_config(alloc, into, config)
}

/// Adds the change at the end. An `Err` leaves some of it behind what was there.
#[tactic(auto, unfolding(crate::specs::Spelling::spelled))]
fn put_effect(alloc: Global, effect: &Effect, into: &mut Vec<u8>) -> Result<(), NoMemory>
    requires record { IsTrue (is_record effect.now) }
    ensures ok { OnOk result (into.new.items ≡ into.old.items ++ spelled effect.now) }
{
    match effect {
        Effect::MakeStream {
            incarnation,
            made,
            config,
        } => put_make_stream(alloc, into, *incarnation, *made, config),
        Effect::ChangeStream { config } => put_change_stream(alloc, into, config),
        Effect::DropStream => put_kind(into, DROP_STREAM),
        Effect::PutHere {
            seq,
            at,
            id,
            subject,
            headers,
            payload,
        } => {
            put_numbered(into, PUT_HERE, *seq, *at, id)?;
            put_message(into, subject, headers, payload)
        }
        Effect::Skip { seq, at, id } => put_numbered(into, SKIP, *seq, *at, id),
        Effect::Remove { low, high } => {
            put_kind(into, REMOVE)?;
            put_two(into, *low, *high)
        }
        Effect::MakeConsumer {
            name,
            made,
            config,
            cursor,
            picks,
        } => {
            put_make_consumer(alloc, into, name, *made, config)?;
            put_start(into, *cursor, picks)
        }
        Effect::DropConsumer { name } => put_named(into, DROP_CONSUMER, name),
        Effect::Deliver {
            name,
            seq,
            count,
            due,
            dseq,
        } => {
            put_named_two(into, DELIVER, name, *seq, *count)?;
            put_two(into, due.as_nanos(), *dseq)
        }
        Effect::Acked { name, low, high } => put_named_two(into, ACKED, name, *low, *high),
        Effect::Due { name, seq, due } => put_named_two(into, DUE, name, *seq, due.as_nanos()),
        Effect::GivenUp { name, moment } => {
            put_named(into, GIVEN_UP, name)?;
            put_u64(into, moment.as_nanos())
        }
        Effect::Now { moment } => {
            put_kind(into, NOW)?;
            put_u64(into, moment.as_nanos())
        }
    }
}

/// Adds the record at the end. An `Err` leaves some of it behind what was there.
#[tactic(auto, unfolding(crate::specs::Spelling::spelled_record))]
fn put_record(alloc: Global, entry: &Record, into: &mut Vec<u8>) -> Result<(), NoMemory>
    requires allowed { IsTrue (may_stand entry.now) }
    ensures ok { OnOk result (into.new.items ≡ into.old.items ++ spelled_record entry.now) }
{
    match entry {
        Record::Put { seq, at, id, spot } => {
            put_numbered(into, PUT, *seq, *at, id)?;
            put_spot(into, *spot)
        }
        Record::Change(effect) => put_effect(alloc, effect, into),
    }
}

/// Adds the change at the end, a message that was stored as well, which counts so many bytes while it waits. An `Err` leaves what was there.
pub fn write_effect(alloc: Global, effect: &Effect, into: &mut Vec<u8>) -> Result<(), NoMemory>
    requires record { IsTrue (is_record effect.now) }
    ensures ok { OnOk result (into.new.items ≡ into.old.items ++ spelled effect.now) }
    ensures err { OnErr result (into.new.items ≡ into.old.items) }
{
    let mut bytes = Vec::new(alloc);
    put_effect(alloc, effect, &mut bytes)?;
    put_bytes(into, bytes.as_slice())
}

/// Adds the record at the end. An `Err` leaves what was there.
pub fn write_record(alloc: Global, entry: &Record, into: &mut Vec<u8>) -> Result<(), NoMemory>
    requires allowed { IsTrue (may_stand entry.now) }
    ensures ok { OnOk result (into.new.items ≡ into.old.items ++ spelled_record entry.now) }
    ensures err { OnErr result (into.new.items ≡ into.old.items) }
{
    let mut bytes = Vec::new(alloc);
    put_record(alloc, entry, &mut bytes)?;
    put_bytes(into, bytes.as_slice())
}

/// Adds the record with which the log of a vacant place begins, with the incarnation of its last stream, 0 before the first. An `Err` leaves what
/// was there.
#[tactic(auto, unfolding(crate::specs::Spelling::spelled_vacant))]
pub fn write_vacant(alloc: Global, incarnation: u64, into: &mut Vec<u8>) -> Result<(), NoMemory>
    requires number { incarnation < 2 ^ 62 }
    ensures ok { OnOk result (into.new.items ≡ into.old.items ++ spelled_vacant incarnation) }
    ensures err { OnErr result (into.new.items ≡ into.old.items) }
{
    let mut record = Vec::new(alloc);
    put_kind(&mut record, SNAP_VACANT)?;
    put_u64(&mut record, incarnation)?;
    put_bytes(into, record.as_slice())
}
