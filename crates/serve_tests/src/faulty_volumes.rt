//! Volumes that fail, and those that hold what no server writes.

use crate::runs::{Outcome, gives, refuses, serve, volumes_after};
use crate::talks::{FIRST, MAKE_ORDERS, PUBLISH};
use js_base::List;
use link_edge::MemDoor;
use std::alloc::Global;
use std::sync::Wait;
use std::test::Fail;
use std::thread::Threads;
use vol_disk::{MemVol, Vol};

/// What is told of a publish to `ORDERS` if the volume fails as room is made for it.
const STREAM_STOPPED: &[u8] =
    b"MSG _I.1 1 96\r\n{\"error\":{\"code\":503,\"description\":\"stream stopped\",\"err_code\":20012},\"seq\":0,\"stream\":\"ORDERS\"}\r\n";

/// The volume as it reads, of which all calls fail from the one with this number on.
fn failing_from(alloc: Global, vol: &MemVol, number: u64) -> Result<MemVol, Fail> {
    Ok(vol.image(1)?.with_failures(List::new(alloc), Some(number)))
}

/// The volume of the stream `ORDERS` after a run that made it.
fn orders(rt: &(impl Threads + Wait + Sync), alloc: Global) -> Result<MemVol, Fail> {
    let mut vols = volumes_after(rt, alloc, MAKE_ORDERS)?;
    vols.truncate(1);
    match vols.pop() {
        Some(vol) => Ok(vol),
        None => Err("no volume came back")?,
    }
}

/// How many calls a run makes on the volume if no link comes. They are those of its opening.
fn opening_calls(
    rt: &(impl Threads + Wait + Sync),
    alloc: Global,
    vol: &MemVol,
) -> Result<u64, Fail> {
    let ran = serve(rt, alloc, &[], vec![in alloc; vol.image(1)?]?)?;
    match ran.finish.vols.as_slice() {
        [vol] => Ok(vol.calls().len() as u64),
        _ => Err("not one volume")?,
    }
}

#[test]
fn volume_that_fails_in_the_opening_is_told(rt: HostRuntime) -> Result<(), Fail> {
    let alloc = rt.alloc();
    let vols = vec![in alloc;
        MemVol::new(alloc),
        failing_from(alloc, &MemVol::new(alloc), 0)?,
    ]?;
    let ran = serve(&rt, alloc, &[PUBLISH], vols)?;
    assert!(rt; refuses(&ran, 4, b"disk fault in place-01\n"));
    assert_eq!(rt; ran.finish.vols.len(), 2);
    Ok(())
}

#[test]
fn volume_that_fails_in_a_session_stops_its_stream_alone(rt: HostRuntime) -> Result<(), Fail> {
    let alloc = rt.alloc();
    let start = orders(&rt, alloc)?;
    let first = opening_calls(&rt, alloc, &start)?;
    let vols = vec![in alloc; MemVol::new(alloc), failing_from(alloc, &start, first)?]?;
    let ran = serve(&rt, alloc, &[PUBLISH], vols)?;
    assert_eq!(rt; ran.finish.status, 0);
    assert!(rt; ran.printed.is_empty());
    assert_eq!(rt; ran.finish.vols.len(), 2);
    let [link] = ran.finish.door.back() else {
        return Err("one link comes back")?;
    };
    assert!(rt; gives(link, FIRST, STREAM_STOPPED));
    Ok(())
}

/// A run over a volume whose file 0 has these bytes.
fn run_over_bytes(
    rt: &(impl Threads + Wait + Sync),
    alloc: Global,
    bytes: &[u8],
) -> Result<Outcome<MemDoor, MemVol>, Fail> {
    let mut vol = MemVol::new(alloc);
    vol.write_at(0, 0, bytes)?;
    serve(rt, alloc, &[PUBLISH], vec![in alloc; vol]?)
}

#[test]
fn bytes_that_no_server_wrote_are_told(rt: HostRuntime) -> Result<(), Fail> {
    let alloc = rt.alloc();
    let damaged = run_over_bytes(&rt, alloc, &[0; 22])?;
    assert!(rt; refuses(&damaged, 5, b"damaged place-00/f00000 at 0\n"));
    let newer = b"JSLOG\0\0\x04\0\0\0\0\0\0\0\0\0\0\0\0\0\0";
    let newer = run_over_bytes(&rt, alloc, newer)?;
    assert!(rt; refuses(&newer, 5, b"unknown version 4 in place-00\n"));
    Ok(())
}

#[test]
fn streams_that_conflict_are_told(rt: HostRuntime) -> Result<(), Fail> {
    let alloc = rt.alloc();
    let vols = vec![in alloc;
        orders(&rt, alloc)?,
        MemVol::new(alloc),
        orders(&rt, alloc)?,
    ]?;
    let ran = serve(&rt, alloc, &[PUBLISH], vols)?;
    assert!(rt; refuses(&ran, 5, b"place-00 and place-02 conflict\n"));
    assert_eq!(rt; ran.finish.vols.len(), 3);
    Ok(())
}
