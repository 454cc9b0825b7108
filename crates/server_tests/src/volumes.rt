//! Runs over volumes in memory: a later run finds what an earlier one kept, and a volume that fails or holds what no server writes is told.

use crate::failing::{Failing, confirming_sync, failing_to_confirm, one_sync_failed, with_failing};
use crate::runs::{Outcome, answers, run_over, serve, with_stream};
use js_base::List;
use std::alloc::Global;
use std::process::Abort;
use std::sync::Wait;
use std::test::Fail;
use std::thread::Threads;
use vol_disk::{MemVol, Vol};

/// A message with an id and one without, each with a reply.
const TWO_MESSAGES: &[u8] =
    b"HPUB a _I 28 29\r\nNATS/1.0\r\nNats-Msg-Id: k\r\n\r\nx\r\nPUB a _I 1\r\ny\r\n";

/// Whether the run ended with this status and this line, and no client was served.
fn refuses(ran: &Outcome, status: u8, line: &[u8]) -> bool {
    ran.status == status && ran.printed.as_slice() == line && ran.given.is_empty()
}

#[test]
fn later_run_finds_what_was_kept(rt: HostRuntime) -> Result<(), Fail> {
    let alloc = rt.alloc();
    let vol = with_stream(&rt, alloc, "A", "a", TWO_MESSAGES)?;
    let vols = vec![in alloc; MemVol::new(alloc), vol]?;
    let again = serve(&rt, alloc, vols, TWO_MESSAGES)?;
    assert!(rt;
        answers(
            &again,
            b"MSG _I 1 39\r\n{\"duplicate\":true,\"seq\":1,\"stream\":\"A\"}\r\nMSG _I 1 22\r\n{\"seq\":3,\"stream\":\"A\"}\r\n"
        )
    );
    let read = serve(
        &rt,
        alloc,
        again.vols,
        b"PUB $JS.API.STREAM.MSG.GET.A _I 9\r\n{\"seq\":2}\r\n",
    )?;
    assert!(rt;
        answers(
            &read,
            b"MSG _I 1 147\r\n{\"message\":{\"data\":\"eQ==\",\"seq\":2,\"subject\":\"a\",\"time\":\"2023-11-14T22:13:20.000000000Z\"},\"type\":\"io.nats.jetstream.api.v1.stream_msg_get_response\"}\r\n"
        )
    );
    Ok(())
}

/// A run over a volume whose file 0 has these bytes.
fn run_over_bytes(
    rt: &(impl Threads + Wait + Sync),
    alloc: Global,
    bytes: &[u8],
) -> Result<Outcome, Fail> {
    let mut vol = MemVol::new(alloc);
    vol.write_at(0, 0, bytes)?;
    serve(rt, alloc, vec![in alloc; vol]?, b"")
}

#[test]
fn bytes_that_no_server_wrote_are_told(rt: HostRuntime) -> Result<(), Fail> {
    for (bytes, line) in [
        (
            [0; 22].as_slice(),
            b"damaged place-00/f00000 at 0\n".as_slice(),
        ),
        (
            b"JSLOG\0\0\x04\0\0\0\0\0\0\0\0\0\0\0\0\0\0".as_slice(),
            b"unknown version 4 in place-00\n".as_slice(),
        ),
        (
            b"JSLOG\0\0\x03\x40\0\0\0\0\0\0\0\0\0\0\0\x01\0".as_slice(),
            b"damaged place-00/f00000 at 8\n".as_slice(),
        ),
        (
            b"JSLOG\0\0\x03\0\0\0\0\0\0\0\x01\x9e\x6e\x28\xa7\x01\0".as_slice(),
            b"damaged place-00/f00000 at 16\n".as_slice(),
        ),
        (
            b"JSLOG\0\0\x03\0\0\0\0\0\0\0\x01\x9e\x6e\x28\xa6\x01\0\0\0\x01\xff\0\0\x01\xff\0".as_slice(),
            b"damaged place-00/f00000 at 20\n".as_slice(),
        ),
        (
            b"JSLOG\0\0\x03\0\0\0\0\0\0\0\x01\x9e\x6e\x28\xa6\x01\0\0\0\x01\xff\0\0\0\xff\0".as_slice(),
            b"damaged place-00/f00000 at 29\n".as_slice(),
        ),
    ] {
        assert!(rt; refuses(&run_over_bytes(&rt, rt.alloc(), bytes)?, 5, line));
    }
    Ok(())
}

#[test]
fn log_of_the_format_before_is_of_an_unknown_version(rt: HostRuntime) -> Result<(), Fail> {
    let log = b"JSLOG\0\0\x01\0\0\0\0\0\0\0\x01\x01\0\0\0\x09\x20\0\0\0\0\0\0\0\0\0";
    let ran = run_over_bytes(&rt, rt.alloc(), log)?;
    assert!(rt; refuses(&ran, 5, b"unknown version 1 in place-00\n"));
    Ok(())
}

#[test]
fn file_without_a_whole_head_is_as_good_as_empty(rt: HostRuntime) -> Result<(), Fail> {
    let ran = run_over_bytes(&rt, rt.alloc(), &[0xff; 21])?;
    assert!(rt; ran.status == 0 && ran.printed.is_empty());
    Ok(())
}

#[test]
fn streams_that_conflict_are_told(rt: HostRuntime) -> Result<(), Fail> {
    let alloc = rt.alloc();
    for (name, subject) in [("A", "b"), ("B", "a.*")] {
        let vols = vec![in alloc;
            with_stream(&rt, alloc, "A", "a.>", b"")?,
            MemVol::new(alloc),
            with_stream(&rt, alloc, name, subject, b"")?,
        ]?;
        let ran = serve(&rt, alloc, vols, b"")?;
        assert!(rt;
            refuses(&ran, 5, b"place-00 and place-02 conflict\n"),
            "{name}"
        );
    }
    Ok(())
}

#[test]
fn volume_that_fails_is_told(rt: HostRuntime) -> Result<(), Fail> {
    let alloc = rt.alloc();
    let fails = MemVol::failing(alloc, List::new(alloc), Some(0));
    let ran = serve(&rt, alloc, vec![in alloc; MemVol::new(alloc), fails]?, b"")?;
    assert!(rt; refuses(&ran, 4, b"disk fault in place-01\n"));
    Ok(())
}

#[test]
fn stream_whose_volume_fails_stops_alone(rt: HostRuntime) -> Result<(), Fail> {
    let alloc = rt.alloc();
    let vols = vec![in alloc;
        failing_to_confirm(
            &rt,
            alloc,
            &with_stream(&rt, alloc, "A", "a", b"")?,
            b"PUB a _I 1\r\nx\r\n"
        )?,
        with_stream(&rt, alloc, "B", "b", b"")?,
    ]?;
    let ran = serve(
        &rt,
        alloc,
        vols,
        b"PUB a _I 1\r\nx\r\nPUB a _I 1\r\ny\r\nPUB b _I 1\r\nz\r\n",
    )?;
    assert!(rt;
        answers(
            &ran,
            b"MSG _I 1 88\r\n{\"error\":{\"code\":503,\"description\":\"store fault\",\"err_code\":20011},\"seq\":0,\"stream\":\"A\"}\r\nMSG _I 1 91\r\n{\"error\":{\"code\":503,\"description\":\"stream stopped\",\"err_code\":20012},\"seq\":0,\"stream\":\"A\"}\r\nMSG _I 1 22\r\n{\"seq\":1,\"stream\":\"B\"}\r\n"
        )
    );
    assert!(rt; one_sync_failed(ran.vols.as_slice()));
    Ok(())
}

#[test]
fn making_of_a_stream_that_fails_is_told(rt: HostRuntime) -> Result<(), Fail> {
    let alloc = rt.alloc();
    let words = ["pipe", "--stream", "A", "--subject", "a"];
    let made = run_over(&rt, alloc, &words, b"", vec![in alloc; MemVol::new(alloc)]?)?;
    let last = confirming_sync(&made)?;
    let fails = with_failing(alloc, &MemVol::new(alloc), Failing::Once, last)?;
    let ran = run_over(&rt, alloc, &words, b"", vec![in alloc; fails]?)?;
    assert!(rt; one_sync_failed(ran.vols.as_slice()));
    assert!(rt; refuses(&ran, 11, b"20011\n"));
    Ok(())
}
