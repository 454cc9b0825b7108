//! `nats_frames`: a decoder knows of most bytes that they end nothing; the server's information for another address; printed faults.

use js_base::Blob;
use nats_frames::{Decoder, Frame, FrameFault, write_frame};
use std::test::Fail;

#[test]
fn most_bytes_end_nothing(rt: HostRuntime) -> Result<(), Fail> {
    let mut decoder = Decoder::new(rt.alloc());
    decoder.feed(b"P")?;
    assert!(rt; decoder.is_known_partial());
    // the end of the line
    decoder.feed(b"UB a 5\r\n")?;
    assert!(rt; !decoder.is_known_partial());
    assert!(rt; matches!(&decoder.next(), Ok(None)));
    decoder.feed(b"a\nb\nc")?;
    assert!(rt; decoder.is_known_partial());
    // and both bytes after the payload
    decoder.feed(b"\r")?;
    assert!(rt; !decoder.is_known_partial());
    assert!(rt; matches!(&decoder.next(), Ok(None)));
    decoder.feed(b"\n")?;
    assert!(rt; !decoder.is_known_partial());
    assert!(rt; matches!(&decoder.next(), Ok(Some(_))));
    Ok(())
}

/// The information of a server at 127.0.0.1:4222 for the greatest session number there is.
fn info_line() -> &'static str {
    "INFO {\"client_id\":18446744073709551615,\"headers\":true,\"host\":\"127.0.0.1\",\"jetstream\":true,\"max_payload\":1048576,\"port\":4222,\"proto\":1,\"server_id\":\"JSBLOCK\",\"server_name\":\"jsblock\",\"version\":\"2.10.0\"}\r\n"
}

#[test]
fn information_is_written(rt: HostRuntime) -> Result<(), Fail> {
    let alloc = rt.alloc();
    let frame = Frame::Info {
        client_id: u64::MAX,
        host: Blob::of(alloc, b"127.0.0.1")?,
        port: 4222,
    };
    let mut written = Vec::new(alloc);
    write_frame(&frame, &mut written)?;
    assert_eq!(rt; written.as_slice(), info_line().as_bytes());
    Ok(())
}

#[test]
fn faults_are_printed(rt: HostRuntime) -> Result<(), Fail> {
    let text = FrameFault::BadEnd(7).to_string(rt.alloc())?;
    assert_eq!(rt; text.as_str(), "a payload without its end at 7");
    Ok(())
}
