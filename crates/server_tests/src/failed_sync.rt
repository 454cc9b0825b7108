//! A publish of which the last sync fails: the publisher is told, and the next run finds the message or does not.

use crate::failing::{failing_to_confirm, one_sync_failed};
use crate::runs::{Outcome, gives, serve, with_stream};
use std::alloc::Global;
use std::process::Abort;
use std::sync::Wait;
use std::test::Fail;
use std::thread::Threads;
use vol_disk::MemVol;

/// A message with a reply.
const ONCE: &[u8] = b"PUB orders.a _I 5\r\nhello\r\n";

/// It, and another one.
const TWICE: &[u8] = b"PUB orders.a _I 5\r\nhello\r\nPUB orders.a _I 5\r\nagain\r\n";

/// What is told of them if the volume fails in the first one: it failed, and then the stream is stopped.
const STOPPED: &[u8] =
    b"MSG _I 1 93\r\n{\"error\":{\"code\":503,\"description\":\"store fault\",\"err_code\":20011},\"seq\":0,\"stream\":\"ORDERS\"}\r\nMSG _I 1 96\r\n{\"error\":{\"code\":503,\"description\":\"stream stopped\",\"err_code\":20012},\"seq\":0,\"stream\":\"ORDERS\"}\r\n";

/// Questions for the stream and its first message.
const WHAT_IS_THERE: &[u8] =
    b"PUB $JS.API.STREAM.INFO.ORDERS _I 0\r\n\r\nPUB $JS.API.STREAM.MSG.GET.ORDERS _I 9\r\n{\"seq\":1}\r\n";

/// What is told of the stream without messages.
const NOTHING: &[u8] =
    b"MSG _I 1 503\r\n{\"config\":{\"discard\":\"old\",\"duplicate_window\":120000000000,\"max_age\":0,\"max_bytes\":-1,\"max_consumers\":-1,\"max_msg_size\":-1,\"max_msgs\":-1,\"max_msgs_per_subject\":-1,\"name\":\"ORDERS\",\"num_replicas\":1,\"retention\":\"limits\",\"storage\":\"file\",\"subjects\":[\"orders.*\"]},\"created\":\"2023-11-14T22:13:20.000000000Z\",\"state\":{\"bytes\":0,\"consumer_count\":0,\"first_seq\":0,\"first_ts\":\"0001-01-01T00:00:00Z\",\"last_seq\":0,\"last_ts\":\"0001-01-01T00:00:00Z\",\"messages\":0},\"type\":\"io.nats.jetstream.api.v1.stream_info_response\"}\r\nMSG _I 1 130\r\n{\"error\":{\"code\":404,\"description\":\"no message found\",\"err_code\":10037},\"type\":\"io.nats.jetstream.api.v1.stream_msg_get_response\"}\r\n";

/// What is told of the stream with the first message alone.
const FIRST_ALONE: &[u8] =
    b"MSG _I 1 524\r\n{\"config\":{\"discard\":\"old\",\"duplicate_window\":120000000000,\"max_age\":0,\"max_bytes\":-1,\"max_consumers\":-1,\"max_msg_size\":-1,\"max_msgs\":-1,\"max_msgs_per_subject\":-1,\"name\":\"ORDERS\",\"num_replicas\":1,\"retention\":\"limits\",\"storage\":\"file\",\"subjects\":[\"orders.*\"]},\"created\":\"2023-11-14T22:13:20.000000000Z\",\"state\":{\"bytes\":53,\"consumer_count\":0,\"first_seq\":1,\"first_ts\":\"2023-11-14T22:13:20.000000000Z\",\"last_seq\":1,\"last_ts\":\"2023-11-14T22:13:20.000000000Z\",\"messages\":1},\"type\":\"io.nats.jetstream.api.v1.stream_info_response\"}\r\nMSG _I 1 158\r\n{\"message\":{\"data\":\"aGVsbG8=\",\"seq\":1,\"subject\":\"orders.a\",\"time\":\"2023-11-14T22:13:20.000000000Z\"},\"type\":\"io.nats.jetstream.api.v1.stream_msg_get_response\"}\r\n";

/// A run over what a crash leaves of the first volume, as the number picks it.
fn reopened(
    rt: &(impl Threads + Wait + Sync),
    alloc: Global,
    vols: &[MemVol],
    pick: u64,
) -> Result<Outcome, Fail> {
    match vols {
        [vol, ..] => serve(rt, alloc, vec![in alloc; vol.image(pick)?]?, WHAT_IS_THERE),
        [] => Err("no volume came back")?,
    }
}

#[test]
fn publish_whose_sync_failed_is_there_or_not(rt: HostRuntime) -> Result<(), Fail> {
    let alloc = rt.alloc();
    let start = with_stream(&rt, alloc, "ORDERS", "orders.*", b"")?;
    let vols = vec![in alloc; failing_to_confirm(&rt, alloc, &start, ONCE)?]?;
    let ran = serve(&rt, alloc, vols, TWICE)?;
    assert!(rt; gives(&ran, STOPPED));
    assert!(rt; one_sync_failed(ran.vols.as_slice()));
    for pick in 0..16 {
        let again = reopened(&rt, alloc, ran.vols.as_slice(), pick)?;
        assert!(rt;
            gives(&again, NOTHING) || gives(&again, FIRST_ALONE),
            "{pick}"
        );
    }
    Ok(())
}
