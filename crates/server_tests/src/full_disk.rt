//! A volume that has no room: what would hold more is refused by 20016 and changes nothing, all else goes on, and once there is room it is taken.

use crate::runs::{Outcome, gives, has, run_over, serve, volume_of, with_stream};
use std::alloc::Global;
use std::process::Abort;
use std::sync::atomic::AtomicU64;
use std::sync::{Arc, Wait};
use std::test::Fail;
use std::thread::Threads;
use vol_disk::{MemVol, Vol};

/// The volume as it reads, on which no file gets any longer.
fn without_room(alloc: Global, vol: &MemVol) -> Result<MemVol, Fail> {
    let none = Arc::new(alloc, AtomicU64::new(0))?;
    Ok(vol.image(1)?.with_budget(none))
}

/// Whether room was refused, and no call of the run's volume failed.
fn was_refused(ran: &Outcome) -> Result<bool, Fail> {
    let vol = volume_of(ran)?;
    Ok(vol.refusals() > 0 && vol.faults() == 0)
}

/// The volume of the stream `ORDERS` with one message.
fn with_message(rt: &(impl Threads + Wait + Sync), alloc: Global) -> Result<MemVol, Fail> {
    with_stream(
        rt,
        alloc,
        "ORDERS",
        "orders.*",
        b"PUB orders.a 5\r\nhello\r\n",
    )
}

#[test]
fn publish_is_refused_and_the_next_one_is_taken(rt: HostRuntime) -> Result<(), Fail> {
    let alloc = rt.alloc();
    let said = b"PUB orders.b _I 5\r\nworld\r\n";
    let start = with_message(&rt, alloc)?;
    let ran = serve(
        &rt,
        alloc,
        vec![in alloc; without_room(alloc, &start)?]?,
        said,
    )?;
    assert!(rt;
        gives(
            &ran,
            b"MSG _I 1 89\r\n{\"error\":{\"code\":503,\"description\":\"no room\",\"err_code\":20016},\"seq\":0,\"stream\":\"ORDERS\"}\r\n"
        )
    );
    assert!(rt; was_refused(&ran)?);
    let vols = vec![in alloc; volume_of(&ran)?.image(1)?]?;
    let again = serve(&rt, alloc, vols, said)?;
    assert!(rt;
        gives(
            &again,
            b"MSG _I 1 27\r\n{\"seq\":2,\"stream\":\"ORDERS\"}\r\n"
        )
    );
    Ok(())
}

#[test]
fn consumer_is_refused(rt: HostRuntime) -> Result<(), Fail> {
    let alloc = rt.alloc();
    let start = with_message(&rt, alloc)?;
    let ran = serve(
        &rt,
        alloc,
        vec![in alloc; without_room(alloc, &start)?]?,
        b"PUB $JS.API.CONSUMER.DURABLE.CREATE.ORDERS.W _I 78\r\n{\"config\":{\"ack_policy\":\"explicit\",\"durable_name\":\"W\"},\"stream_name\":\"ORDERS\"}\r\n",
    )?;
    assert!(rt;
        gives(
            &ran,
            b"MSG _I 1 122\r\n{\"error\":{\"code\":503,\"description\":\"no room\",\"err_code\":20016},\"type\":\"io.nats.jetstream.api.v1.consumer_create_response\"}\r\n"
        )
    );
    assert!(rt; was_refused(&ran)?);
    Ok(())
}

#[test]
fn purge_and_reads_need_no_room(rt: HostRuntime) -> Result<(), Fail> {
    let alloc = rt.alloc();
    let start = with_message(&rt, alloc)?;
    let ran = serve(
        &rt,
        alloc,
        vec![in alloc; without_room(alloc, &start)?]?,
        b"PUB $JS.API.STREAM.PURGE.ORDERS _I 0\r\n\r\nPUB $JS.API.STREAM.INFO.ORDERS _I 0\r\n\r\n",
    )?;
    assert!(rt; ran.status == 0);
    assert!(rt; has(ran.given.as_slice(), b"\"purged\":1,\"success\":true"));
    assert!(rt; has(ran.given.as_slice(), b"\"messages\":0"));
    assert!(rt; volume_of(&ran)?.faults() == 0);
    Ok(())
}

#[test]
fn making_of_a_stream_without_room_is_told(rt: HostRuntime) -> Result<(), Fail> {
    let alloc = rt.alloc();
    let opened = serve(&rt, alloc, vec![in alloc; MemVol::new(alloc)]?, b"")?;
    let vols = vec![in alloc; without_room(alloc, volume_of(&opened)?)?]?;
    let words = ["pipe", "--stream", "A", "--subject", "a"];
    let ran = run_over(&rt, alloc, &words, b"", vols)?;
    assert!(rt; ran.status == 11 && ran.printed.as_slice() == b"20016\n".as_slice());
    assert!(rt; was_refused(&ran)?);
    Ok(())
}

#[test]
fn place_that_cannot_be_opened_without_room_is_told(rt: HostRuntime) -> Result<(), Fail> {
    let alloc = rt.alloc();
    let vols = vec![in alloc; without_room(alloc, &MemVol::new(alloc))?]?;
    let ran = serve(&rt, alloc, vols, b"")?;
    assert!(rt; ran.status == 4 && ran.printed.as_slice() == b"no room for place-00\n".as_slice());
    assert!(rt; was_refused(&ran)?);
    Ok(())
}
