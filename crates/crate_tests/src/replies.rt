//! `api_replies`: removals, which no call answers yet.

ghost use Rattle.api_replies.specs.Printed.{IsText};

use api_replies::{ApiReply, reply_text};
use std::alloc::Global;
use std::process::Abort;
use std::test::Fail;

/// That the reply has this text.
fn assert_text(rt: &impl Abort, alloc: Global, reply: &ApiReply, text: &str) -> Result<(), Fail>
    requires texts { IsText reply.now }
{
    let printed = reply_text(alloc, reply)?;
    assert_eq!(rt; printed.as_slice(), text.as_bytes());
    Ok(())
}

#[test]
fn removals_are_shown(rt: HostRuntime) -> Result<(), Fail> {
    let alloc = rt.alloc();
    assert_text(
        &rt,
        alloc,
        &ApiReply::StreamPurge { purged: 2 },
        "{\"purged\":2,\"success\":true,\"type\":\"io.nats.jetstream.api.v1.stream_purge_response\"}",
    )?;
    assert_text(
        &rt,
        alloc,
        &ApiReply::ConsumerDelete,
        "{\"success\":true,\"type\":\"io.nats.jetstream.api.v1.consumer_delete_response\"}",
    )
}
