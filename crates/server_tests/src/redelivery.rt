//! A message that is delivered twice and then acknowledged is never delivered again, wherever the volume stops after that.

ghost use Rattle.std.specs.Prelude.{◌<◌};

use crate::failing::{Failing, is_untroubled, with_failing};
use crate::runs::{Outcome, has, volume_of, with_stream};
use crate::scripts::{Script, play};
use std::alloc::Global;
use std::process::Abort;
use std::sync::Wait;
use std::test::Fail;
use std::thread::Threads;
use vol_disk::MemVol;

/// More than the calls that come after the confirmation.
const MANY: u64 = 60;

/// A moment before the message is due again, in nanoseconds.
const EARLY: u64 = 29_999_999_999;

/// The moment at which it is due again.
const DUE: u64 = 30_000_000_000;

/// A moment at which each later delivery is due again, too.
const LATER: u64 = 120_000_000_000;

/// A consumer is made, and the first message is published and delivered.
const DELIVERED: &[u8] =
    b"CONNECT {\"headers\":true,\"verbose\":false}\r\nPUB $JS.API.CONSUMER.DURABLE.CREATE.ORDERS.W 78\r\n{\"config\":{\"ack_policy\":\"explicit\",\"durable_name\":\"W\"},\"stream_name\":\"ORDERS\"}\r\nPUB orders.a 5\r\nhello\r\nSUB _P 2\r\nSUB _I 1\r\nPUB $JS.API.CONSUMER.MSG.NEXT.ORDERS.W _P 1\r\n2\r\n";

/// The first message is acknowledged.
const ACKNOWLEDGED: &[u8] = b"PUB $JS.ACK.ORDERS.W.1.1.1.1700000000000000000.0 _I 4\r\n+ACK\r\n";

/// More is published, the second message is delivered, and the stream is changed.
const MORE: &[u8] =
    b"PUB orders.a 5\r\nlater\r\nPUB orders.a _I 6\r\nlatest\r\nPUB $JS.API.CONSUMER.MSG.NEXT.ORDERS.W _P 1\r\n1\r\nPUB $JS.API.STREAM.UPDATE.ORDERS _I 34\r\n{\"subjects\":[\"orders.*\",\"more.*\"]}\r\n";

/// What the client was given by the time that the acknowledgement was confirmed.
const CONFIRMED: &[u8] =
    b"INFO {\"client_id\":1,\"headers\":true,\"host\":\"pipe\",\"jetstream\":true,\"max_payload\":1048576,\"port\":0,\"proto\":1,\"server_id\":\"JSBLOCK\",\"server_name\":\"jsblock\",\"version\":\"2.10.0\"}\r\nMSG orders.a 2 $JS.ACK.ORDERS.W.1.1.1.1700000000000000000.0 5\r\nhello\r\nMSG orders.a 2 $JS.ACK.ORDERS.W.2.1.2.1700000000000000000.0 5\r\nhello\r\nMSG _I 1 0\r\n\r\n";

/// What is asked of the server after the stop.
const QUESTIONS: &[u8] =
    b"CONNECT {\"headers\":true,\"verbose\":false}\r\nSUB _I 1\r\nSUB _P 2\r\nPUB $JS.API.CONSUMER.INFO.ORDERS.W _I 0\r\n\r\nPUB $JS.API.CONSUMER.MSG.NEXT.ORDERS.W _P 27\r\n{\"batch\":10,\"no_wait\":true}\r\n";

/// What is told of the consumer while no message is pending.
const ACKNOWLEDGED_ALONE: &[u8] =
    b"\"delivered\":{\"consumer_seq\":2,\"stream_seq\":1},\"name\":\"W\",\"num_ack_pending\":0,";

/// What is told of it while the second message is pending, and no other.
const SECOND_PENDING: &[u8] =
    b"\"delivered\":{\"consumer_seq\":3,\"stream_seq\":2},\"name\":\"W\",\"num_ack_pending\":1,";

/// All that comes up to the confirmation, in pieces of at most so many bytes.
fn to_confirmation(alloc: Global, size: usize) -> Result<Script, Fail>
    requires size { 0 < size }
{
    let mut script = Script::new(alloc);
    script.say(alloc, 0, DELIVERED, size)?;
    script.rest(EARLY)?;
    script.rest(DUE)?;
    script.say(alloc, DUE, ACKNOWLEDGED, size)?;
    Ok(script)
}

/// How many calls were made on the volume by then.
fn calls_to_confirmation(
    rt: &(impl Threads + Wait + Sync),
    alloc: Global,
    start: &MemVol,
    size: usize,
) -> Result<u64, Fail>
    requires size { 0 < size }
{
    let ran = play(rt, alloc, to_confirmation(alloc, size)?, start.image(1)?)?;
    if ran.given.as_slice() != CONFIRMED {
        return Err("the acknowledgement was not confirmed")?;
    }
    Ok(volume_of(&ran)?.calls().len() as u64)
}

/// Runs all of it over the volume, which stops at this call.
fn run_to_stop(
    rt: &(impl Threads + Wait + Sync),
    alloc: Global,
    start: &MemVol,
    size: usize,
    stop: u64,
) -> Result<Outcome, Fail>
    requires size { 0 < size }
{
    let mut script = to_confirmation(alloc, size)?;
    script.say(alloc, DUE, MORE, size)?;
    let vol = with_failing(alloc, start, Failing::Onward, stop)?;
    play(rt, alloc, script, vol)
}

/// What is told of the consumer and its messages by a run over the volume.
fn told(rt: &(impl Threads + Wait + Sync), alloc: Global, vol: MemVol) -> Result<Outcome, Fail> {
    let mut script = Script::new(alloc);
    script.say(alloc, LATER, QUESTIONS, 65_536)?;
    play(rt, alloc, script, vol)
}

/// Whether the first message is not pending by what was told, and was not delivered.
fn is_done_with(told: &[u8]) -> bool {
    has(told, b"\"ack_floor\":{\"stream_seq\":1}")
        && (has(told, ACKNOWLEDGED_ALONE) || has(told, SECOND_PENDING))
        && has(told, b"NATS/1.0 404 No Messages")
        && !has(told, b"hello")
}

/// Whether this is so for each image of the run's volume.
fn stays_acknowledged(
    rt: &(impl Threads + Wait + Sync),
    alloc: Global,
    ran: &Outcome,
) -> Result<bool, Fail> {
    let vol = volume_of(ran)?;
    for pick in [0, 1, 5] {
        let told = told(rt, alloc, vol.image(pick)?)?;
        if !is_done_with(told.given.as_slice()) {
            return Ok(false);
        }
    }
    Ok(true)
}

/// Lets the volume stop at each call after the confirmation, until there are no more.
fn check(rt: &(impl Abort + Threads + Wait + Sync), alloc: Global, size: usize) -> Result<(), Fail>
    requires size { 0 < size }
{
    let start = with_stream(rt, alloc, "ORDERS", "orders.*", b"")?;
    let first = calls_to_confirmation(rt, alloc, &start, size)?;
    for number in 0..MANY {
        let ran = run_to_stop(rt, alloc, &start, size, first.saturating_add(number))?;
        assert!(rt; ran.given.as_slice().starts_with(CONFIRMED), "{number}");
        assert!(rt; stays_acknowledged(rt, alloc, &ran)?, "{number}");
        if is_untroubled(&ran) {
            assert!(rt; number > 0);
            return Ok(());
        }
    }
    Err("there are more calls")?
}

#[test]
fn acknowledged_message_stays_so(rt: HostRuntime) -> Result<(), Fail> {
    check(&rt, rt.alloc(), 65_536)
}

#[test]
fn acknowledged_message_stays_so_in_pieces(rt: HostRuntime) -> Result<(), Fail> {
    check(&rt, rt.alloc(), 100)
}

#[test]
fn acknowledged_message_stays_so_in_single_bytes(rt: HostRuntime) -> Result<(), Fail> {
    check(&rt, rt.alloc(), 1)
}
