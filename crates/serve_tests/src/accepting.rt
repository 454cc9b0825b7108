//! How many links are accepted, and how a run ends by its door and by its links.

use crate::doors::{Call, StarvedDoor};
use crate::runs::{
    Outcome, TWO_WORKERS, door_of, empty_volumes, gives, knocks, refuses, serve, serve_by,
};
use crate::talks::{FIRST, SECOND};
use js_base::List;
use link_edge::{Accepted, MemDoor, MemLink, OpenGate};
use std::alloc::Global;
use std::sync::Wait;
use std::test::Fail;
use std::thread::Threads;
use vol_disk::MemVol;

/// Says that the client is there.
const PING: &[u8] = b"CONNECT {\"verbose\":false}\r\nPING\r\n";

/// What it is given.
const PONG: &[u8] = b"PONG\r\n";

/// Whether each of the links was served to its end.
fn are_served(links: &[MemLink]) -> bool {
    links.iter().all(|link| gives(link, FIRST, PONG) || gives(link, SECOND, PONG))
}

/// A door through which two links come, and of which the accept with this number fails.
fn failing_door(alloc: Global, number: u64) -> Result<MemDoor, Fail> {
    let mut failing = List::new(alloc);
    failing.push(number)?;
    Ok(MemDoor::failing(alloc, knocks(alloc, &[PING, PING])?, failing)?)
}

#[test]
fn no_more_are_accepted_than_were_asked_for(rt: HostRuntime) -> Result<(), Fail> {
    let alloc = rt.alloc();
    let door = door_of(alloc, &[PING, PING, PING])?;
    let line = "serve --dir d --workers 2 --accepts 2 --listen 127.0.0.1:4333";
    let ran = serve_by(&rt, alloc, line, door, empty_volumes(alloc, 1)?, &OpenGate)?;
    assert_eq!(rt; ran.finish.status, 0);
    assert!(rt; matches!(ran.finish.door.answered(), [Accepted::Got, Accepted::Got]));
    assert_eq!(rt; ran.finish.door.back().len(), 2);
    assert!(rt; are_served(ran.finish.door.back()));
    assert_eq!(rt; ran.finish.vols.len(), 1);
    Ok(())
}

/// What a run came to at which the accept with this number failed.
fn run_failing(
    rt: &(impl Threads + Wait + Sync),
    alloc: Global,
    number: u64,
) -> Result<Outcome<MemDoor, MemVol>, Fail> {
    let door = failing_door(alloc, number)?;
    serve_by(
        rt,
        alloc,
        TWO_WORKERS,
        door,
        empty_volumes(alloc, 1)?,
        &OpenGate,
    )
}

#[test]
fn door_that_fails_ends_the_run_after_its_links(rt: HostRuntime) -> Result<(), Fail> {
    let alloc = rt.alloc();
    for number in 0..=2 {
        let ran = run_failing(&rt, alloc, number)?;
        assert_eq!(rt; ran.finish.status, 8);
        assert!(rt; ran.printed.is_empty());
        assert_eq!(rt; ran.finish.door.gave() as u64, number);
        assert_eq!(rt; ran.finish.door.back().len() as u64, number);
        assert_eq!(rt; ran.finish.door.faults(), 1);
        assert!(rt; are_served(ran.finish.door.back()));
    }
    Ok(())
}

#[test]
fn closed_door_ends_the_run(rt: HostRuntime) -> Result<(), Fail> {
    let alloc = rt.alloc();
    let ran = serve(&rt, alloc, &[], empty_volumes(alloc, 3)?)?;
    assert!(rt; refuses(&ran, 0, b""));
    assert_eq!(rt; ran.finish.vols.len(), 3);
    Ok(())
}

#[test]
fn words_of_no_form_are_refused(rt: HostRuntime) -> Result<(), Fail> {
    let alloc = rt.alloc();
    let line = "serve --dir d --workers 33";
    let door = door_of(alloc, &[PING])?;
    let ran = serve_by(&rt, alloc, line, door, empty_volumes(alloc, 3)?, &OpenGate)?;
    assert_eq!(rt; ran.finish.status, 2);
    assert!(rt;
        ran.printed.starts_with(b"jsblock: --workers takes a number from 1 to 32, not 33\nusage: ")
    );
    assert!(rt; ran.finish.door.answered().is_empty());
    assert_eq!(rt; ran.finish.vols.len(), 3);
    Ok(())
}

#[test]
fn want_of_memory_gives_its_status(rt: HostRuntime) -> Result<(), Fail> {
    let alloc = rt.alloc();
    for at in [Call::Accept, Call::Take, Call::Give] {
        let door = StarvedDoor::new(at);
        let ran = serve_by(
            &rt,
            alloc,
            TWO_WORKERS,
            door,
            empty_volumes(alloc, 1)?,
            &OpenGate,
        )?;
        assert_eq!(rt; ran.finish.status, 7, "at {at:?}");
    }
    Ok(())
}

#[test]
fn session_that_is_refused_ends_alone(rt: HostRuntime) -> Result<(), Fail> {
    let alloc = rt.alloc();
    let ran = serve(
        &rt,
        alloc,
        &[b"PUB a 5\r\nhelloXX", PING],
        empty_volumes(alloc, 1)?,
    )?;
    assert_eq!(rt; ran.finish.status, 0);
    let links = ran.finish.door.back();
    assert_eq!(rt; links.len(), 2);
    assert!(rt; links.iter().any(|link| link.given().ends_with(b"\r\n-ERR 'Parser Error'\r\n")));
    assert!(rt; links.iter().any(|link| link.given().ends_with(PONG)));
    Ok(())
}
