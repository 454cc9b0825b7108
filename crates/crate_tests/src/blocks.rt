//! `nats_headers`: the values of a block's fields, where a fault stands, and a status block with fields.

use js_base::Blob;
use nats_headers::{HeaderFault, read_headers, write_status};
use std::alloc::Global;
use std::test::Fail;

/// A block with fields of many kinds.
fn many_fields() -> &'static str {
    "NATS/1.0 s: t\r\na:b\r\nA: \t d \t\r\na: c\r\nempty:\r\nblank: \t \r\n x :1: 2\r\n\r\n"
}

/// Names and the values that the block has for them.
fn values() -> &'static str {
    "a=b|A=d|empty=|blank=| x =1: 2"
}

#[test]
fn first_field_of_a_name_counts(rt: HostRuntime) -> Result<(), Fail> {
    let headers = read_headers(rt.alloc(), many_fields().as_bytes())?;
    for row in values().split('|') {
        if let Some((name, value)) = row.split_once('=') {
            assert_eq!(rt;
                headers.get(name.as_bytes()),
                Some(value.as_bytes()),
                "{name:?}"
            );
        }
    }
    for name in "|x|a:|b|NATS/1.0 s|Empty|\r|emp".split('|') {
        assert_eq!(rt; headers.get(name.as_bytes()), None, "{name:?}");
    }
    Ok(())
}

/// What is said of the bytes.
fn verdict(alloc: Global, text: &str) -> Option<HeaderFault> {
    match read_headers(alloc, text.as_bytes()) {
        Ok(_) => None,
        Err(fault) => Some(fault),
    }
}

#[test]
fn faults_tell_their_places(rt: HostRuntime) {
    for (text, fault) in [
        ("NATS/1.1\r\n\r\n", HeaderFault::BadStart),
        ("NATS/1.0\r\n\r\n\r\n", HeaderFault::BadLine(10)),
        ("NATS/1.0\r\na:b\r\nc\r\n\r\n", HeaderFault::BadLine(15)),
        ("NATS/1.0\r\na:b\r", HeaderFault::NotEnded),
    ] {
        assert_eq!(rt; verdict(rt.alloc(), text), Some(fault), "{text:?}");
    }
}

#[test]
fn status_has_its_fields(rt: HostRuntime) -> Result<(), Fail> {
    let alloc = rt.alloc();
    let messages = Blob::of(alloc, b"Nats-Pending-Messages")?;
    let bytes = Blob::of(alloc, b"Nats-Pending-Bytes")?;
    let written = write_status(alloc, 408, b"Request Timeout", &[(messages, 3), (bytes, 0)])?;
    assert_eq!(rt;
        written.as_slice(),
        b"NATS/1.0 408 Request Timeout\r\nNats-Pending-Messages: 3\r\nNats-Pending-Bytes: 0\r\n\r\n".as_slice()
    );
    Ok(())
}
