//! Messages that go once nobody needs them.

ghost use Rattle.std.specs.Prelude.{IsTrue};
ghost use Rattle.js_model.specs.Configs.{is_name};

use js_base::NoMemory;
use js_model::{AckKind, Ask, Retention};
use place_drive::{Driven, ack, consumer, publish, pull, stream};
use std::alloc::Global;
use std::process::Abort;
use std::test::Fail;

/// A pull of one message that waits for ever.
const ONE: Ask = Ask {
    batch: 1,
    expires: 0,
    no_wait: false,
    max_bytes: None,
    heartbeat: 0,
};

/// Makes a stream of a retention.
fn keep_by(place: &mut Driven, alloc: Global, retention: Retention) -> Result<(), NoMemory> {
    place.make(stream(alloc, retention)?)
}

/// Adds a consumer that waits for one message, and gets each message once.
fn add(place: &mut Driven, alloc: Global, name: &[u8]) -> Result<(), NoMemory>
    requires name { IsTrue (is_name name.now) }
{
    place.make(consumer(alloc, name, Some(1), None)?)?;
    place.make(pull(alloc, name, ONE)?)
}

fn check_work_queue(rt: &impl Abort, place: &mut Driven, alloc: Global) -> Result<(), Fail> {
    keep_by(place, alloc, Retention::WorkQueue)?;
    add(place, alloc, b"W")?;
    place.make(publish(alloc, b"hello")?)?;
    assert!(rt; place.deliver()?.is_some());
    place.make(ack(alloc, b"W", 1, AckKind::Nak(0))?)?;
    assert!(rt; place.deliver()?.is_none());
    assert_eq!(rt; place.messages()?, Some(1));
    place.make(ack(alloc, b"W", 1, AckKind::Ack)?)?;
    assert_eq!(rt; place.messages()?, Some(0));
    Ok(())
}

#[test]
fn message_of_a_work_queue_goes_once_it_is_acknowledged(rt: HostRuntime) -> Result<(), Fail> {
    let mut place = Driven::open(rt.alloc())?;
    let done = check_work_queue(&rt, &mut place, rt.alloc());
    place.close();
    done
}

fn check_unwanted(rt: &impl Abort, place: &mut Driven, alloc: Global) -> Result<(), Fail> {
    keep_by(place, alloc, Retention::Interest)?;
    place.make(publish(alloc, b"hello")?)?;
    assert_eq!(rt; place.messages()?, Some(0));
    Ok(())
}

#[test]
fn message_that_nobody_wants_is_not_kept(rt: HostRuntime) -> Result<(), Fail> {
    let mut place = Driven::open(rt.alloc())?;
    let done = check_unwanted(&rt, &mut place, rt.alloc());
    place.close();
    done
}

fn check_two_acknowledgements(
    rt: &impl Abort,
    place: &mut Driven,
    alloc: Global,
) -> Result<(), Fail> {
    keep_by(place, alloc, Retention::Interest)?;
    add(place, alloc, b"V")?;
    add(place, alloc, b"W")?;
    place.make(publish(alloc, b"hello")?)?;
    assert!(rt; place.deliver()?.is_some());
    assert!(rt; place.deliver()?.is_some());
    place.make(ack(alloc, b"V", 1, AckKind::Ack)?)?;
    assert_eq!(rt; place.messages()?, Some(1));
    place.make(ack(alloc, b"W", 1, AckKind::Ack)?)?;
    assert_eq!(rt; place.messages()?, Some(0));
    Ok(())
}

#[test]
fn message_goes_at_the_second_acknowledgement(rt: HostRuntime) -> Result<(), Fail> {
    let mut place = Driven::open(rt.alloc())?;
    let done = check_two_acknowledgements(&rt, &mut place, rt.alloc());
    place.close();
    done
}
