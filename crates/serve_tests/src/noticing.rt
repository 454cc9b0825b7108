//! What a run tells of the streams that it found.

use crate::runs::{door_of, empty_volumes, serve, serve_by, volumes_after};
use crate::talks::MAKE_TWO;
use link_edge::{Found, OpenGate};
use std::test::Fail;

/// Publishes two messages to `QUICK`, and one to `SLOW`.
const PUBLISH_THREE: &[u8] = b"PUB quick 3\r\none\r\nPUB slow 3\r\ntwo\r\nPUB quick 5\r\nthree\r\n";

#[test]
fn later_run_tells_what_it_found(rt: HostRuntime) -> Result<(), Fail> {
    let alloc = rt.alloc();
    let mut said = Vec::from_slice(alloc, MAKE_TWO)?;
    said.extend_from_slice(PUBLISH_THREE)?;
    let vols = volumes_after(&rt, alloc, &said)?;
    let ran = serve(&rt, alloc, &[], vols)?;
    assert_eq!(rt; ran.finish.status, 0);
    assert_eq!(rt; ran.notice.times(), 1);
    let found = Found {
        streams: 2,
        messages: 3,
    };
    assert_eq!(rt; ran.notice.last(), Some(found));
    Ok(())
}

/// What its clients make is not told.
#[test]
fn first_run_tells_that_it_found_nothing(rt: HostRuntime) -> Result<(), Fail> {
    let alloc = rt.alloc();
    let ran = serve(&rt, alloc, &[MAKE_TWO], empty_volumes(alloc, 2)?)?;
    assert_eq!(rt; ran.finish.status, 0);
    assert_eq!(rt; ran.notice.times(), 1);
    let found = Found {
        streams: 0,
        messages: 0,
    };
    assert_eq!(rt; ran.notice.last(), Some(found));
    Ok(())
}

#[test]
fn refused_run_tells_nothing(rt: HostRuntime) -> Result<(), Fail> {
    let alloc = rt.alloc();
    let line = "serve --dir d --workers 33";
    let door = door_of(alloc, &[MAKE_TWO])?;
    let ran = serve_by(&rt, alloc, line, door, empty_volumes(alloc, 2)?, &OpenGate)?;
    assert_eq!(rt; ran.finish.status, 2);
    assert_eq!(rt; ran.notice.times(), 0);
    assert_eq!(rt; ran.notice.last(), None);
    Ok(())
}
