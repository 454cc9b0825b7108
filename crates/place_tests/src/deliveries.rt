//! Pulls, deliveries, acknowledgements and what time does to them.

ghost use Rattle.std.specs.Prelude.{IsTrue};
ghost use Rattle.js_model.specs.Configs.{is_limit};

use crate::outputs::{is_delivery, is_status};
use js_base::NoMemory;
use js_model::{AckKind, Ask, Delivered, Retention, What};
use place_drive::{Driven, ack, consumer, publish, pull, stream};
use std::alloc::Global;
use std::process::Abort;
use std::test::Fail;

/// A pull of two messages that waits for ever.
const TWO: Ask = Ask {
    batch: 2,
    expires: 0,
    no_wait: false,
    max_bytes: None,
    heartbeat: 0,
};

/// A pull of three messages that does not wait.
const AT_ONCE: Ask = Ask {
    batch: 3,
    expires: 0,
    no_wait: true,
    max_bytes: None,
    heartbeat: 0,
};

/// A pull of three messages that waits for a second.
const FOR_A_SECOND: Ask = Ask {
    batch: 3,
    expires: 1_000_000_000,
    no_wait: false,
    max_bytes: None,
    heartbeat: 0,
};

/// A stream with the consumer `W`.
fn with_worker(
    place: &mut Driven,
    alloc: Global,
    max_ack_pending: Option<u64>,
) -> Result<(), NoMemory>
    requires pending { IsTrue (is_limit 65536 max_ack_pending) }
{
    place.make(stream(alloc, Retention::Limits)?)?;
    place.make(consumer(alloc, b"W", None, max_ack_pending)?)
}

fn check_pull_at_once(rt: &impl Abort, place: &mut Driven, alloc: Global) -> Result<(), Fail> {
    with_worker(place, alloc, None)?;
    place.make(publish(alloc, b"hello")?)?;
    place.make(pull(alloc, b"W", AT_ONCE)?)?;
    assert!(rt;
        matches!(
            place.deliver()?,
            Some(Delivered::Sent {
                seq: 1,
                count: 1,
                dseq: 1
            })
        )
    );
    assert!(rt;
        is_delivery(
            place.last(),
            b"$JS.ACK.ORDERS.W.1.1.1.1700000000000000000.0"
        )
    );
    assert!(rt; matches!(place.deliver()?, Some(Delivered::Emptied)));
    assert!(rt; is_status(place.last(), b"NATS/1.0 404 No Messages\r\n\r\n"));
    assert!(rt; place.deliver()?.is_none());
    Ok(())
}

#[test]
fn pull_that_does_not_wait_gets_what_is_there(rt: HostRuntime) -> Result<(), Fail> {
    let mut place = Driven::open(rt.alloc())?;
    let done = check_pull_at_once(&rt, &mut place, rt.alloc());
    place.close();
    done
}

fn check_pull_for_a_second(rt: &impl Abort, place: &mut Driven, alloc: Global) -> Result<(), Fail> {
    with_worker(place, alloc, None)?;
    place.make(pull(alloc, b"W", FOR_A_SECOND)?)?;
    place.wait(999_999_999);
    place.make(What::Tick)?;
    assert!(rt; place.last().is_none());
    place.wait(1);
    place.make(What::Tick)?;
    let block =
        b"NATS/1.0 408 Request Timeout\r\nNats-Pending-Messages: 3\r\nNats-Pending-Bytes: 0\r\n\r\n";
    assert!(rt; is_status(place.last(), block));
    Ok(())
}

#[test]
fn pull_ends_at_its_moment(rt: HostRuntime) -> Result<(), Fail> {
    let mut place = Driven::open(rt.alloc())?;
    let done = check_pull_for_a_second(&rt, &mut place, rt.alloc());
    place.close();
    done
}

fn check_one_at_a_time(rt: &impl Abort, place: &mut Driven, alloc: Global) -> Result<(), Fail> {
    with_worker(place, alloc, Some(1))?;
    place.make(publish(alloc, b"a")?)?;
    place.make(publish(alloc, b"b")?)?;
    place.make(pull(alloc, b"W", TWO)?)?;
    assert!(rt; place.deliver()?.is_some());
    assert!(rt;
        is_delivery(
            place.last(),
            b"$JS.ACK.ORDERS.W.1.1.1.1700000000000000000.1"
        )
    );
    assert!(rt; place.deliver()?.is_none());
    place.make(ack(alloc, b"W", 1, AckKind::Ack)?)?;
    assert!(rt; place.deliver()?.is_some());
    assert!(rt;
        is_delivery(
            place.last(),
            b"$JS.ACK.ORDERS.W.1.2.2.1700000000000000000.0"
        )
    );
    Ok(())
}

#[test]
fn delivery_waits_for_the_one_before(rt: HostRuntime) -> Result<(), Fail> {
    let mut place = Driven::open(rt.alloc())?;
    let done = check_one_at_a_time(&rt, &mut place, rt.alloc());
    place.close();
    done
}

fn check_second_delivery(rt: &impl Abort, place: &mut Driven, alloc: Global) -> Result<(), Fail> {
    with_worker(place, alloc, None)?;
    place.make(publish(alloc, b"hello")?)?;
    place.make(pull(alloc, b"W", TWO)?)?;
    assert!(rt; place.deliver()?.is_some());
    place.wait(29_999_999_999);
    assert!(rt; place.deliver()?.is_none());
    place.wait(1);
    assert!(rt;
        matches!(
            place.deliver()?,
            Some(Delivered::Sent {
                seq: 1,
                count: 2,
                dseq: 2
            })
        )
    );
    assert_eq!(rt; place.pending(b"W")?, Some(1));
    place.make(ack(alloc, b"W", 1, AckKind::Ack)?)?;
    assert_eq!(rt; place.pending(b"W")?, Some(0));
    Ok(())
}

#[test]
fn message_comes_again_after_its_wait(rt: HostRuntime) -> Result<(), Fail> {
    let mut place = Driven::open(rt.alloc())?;
    let done = check_second_delivery(&rt, &mut place, rt.alloc());
    place.close();
    done
}
