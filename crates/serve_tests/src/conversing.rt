//! A conversation in which a client makes a stream and a consumer, publishes, pulls and acknowledges, and drops all of it again.

use crate::runs::{empty_volumes, gives, serve};
use crate::talks::FIRST;
use std::test::Fail;

/// What the client says.
const SAID: &[u8] =
    b"CONNECT {\"headers\":true,\"verbose\":false}\r\nSUB _I 1\r\nPUB $JS.API.STREAM.CREATE.ORDERS 41\r\n{\"name\":\"ORDERS\",\"subjects\":[\"orders.*\"]}\r\nPUB $JS.API.CONSUMER.DURABLE.CREATE.ORDERS.W 78\r\n{\"config\":{\"ack_policy\":\"explicit\",\"durable_name\":\"W\"},\"stream_name\":\"ORDERS\"}\r\nPUB orders.a _I 5\r\nhello\r\nSUB _P 2\r\nPUB $JS.API.CONSUMER.MSG.NEXT.ORDERS.W _P 1\r\n1\r\nUNSUB 2\r\nPUB $JS.ACK.ORDERS.W.1.1.1.1700000000000000000.0 _I 4\r\n+ACK\r\nPUB $JS.API.STREAM.UPDATE.ORDERS 38\r\n{\"max_msgs\":1,\"subjects\":[\"orders.*\"]}\r\nPUB $JS.API.STREAM.PURGE.ORDERS _I 0\r\n\r\nPUB $JS.API.CONSUMER.DELETE.ORDERS.W 0\r\n\r\nPUB $JS.API.STREAM.DELETE.ORDERS _I 0\r\n\r\nPUB $JS.API.STREAM.DELETE.ORDERS _I 0\r\n\r\nPING\r\n";

/// What it is given behind the greeting.
const GIVEN: &[u8] =
    b"MSG _I 1 27\r\n{\"seq\":1,\"stream\":\"ORDERS\"}\r\nMSG orders.a 2 $JS.ACK.ORDERS.W.1.1.1.1700000000000000000.0 5\r\nhello\r\nMSG _I 1 0\r\n\r\nMSG _I 1 83\r\n{\"purged\":1,\"success\":true,\"type\":\"io.nats.jetstream.api.v1.stream_purge_response\"}\r\nMSG _I 1 73\r\n{\"success\":true,\"type\":\"io.nats.jetstream.api.v1.stream_delete_response\"}\r\nMSG _I 1 129\r\n{\"error\":{\"code\":404,\"description\":\"stream not found\",\"err_code\":10059},\"type\":\"io.nats.jetstream.api.v1.stream_delete_response\"}\r\nPONG\r\n";

#[test]
fn each_call_of_the_hub_is_answered(rt: HostRuntime) -> Result<(), Fail> {
    let alloc = rt.alloc();
    let ran = serve(&rt, alloc, &[SAID], empty_volumes(alloc, 2)?)?;
    assert_eq!(rt; ran.finish.status, 0);
    assert_eq!(rt; ran.finish.vols.len(), 2);
    let [link] = ran.finish.door.back() else {
        return Err("one link comes back")?;
    };
    assert!(rt; gives(link, FIRST, GIVEN));
    Ok(())
}
