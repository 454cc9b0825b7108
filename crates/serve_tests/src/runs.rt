//! Runs of `serve` over a door and volumes in memory.

use js_base::{Blob, List, Moment, NoMemory};
use link_edge::{
    Door, Gate, Knock, MemClock, MemDoor, MemLink, MemNotice, MemSink, OpenGate, Said,
};
use place_engine::Place;
use server::{Finish, run};
use std::alloc::Global;
use std::sync::Wait;
use std::test::Fail;
use std::thread::Threads;
use tcp_edge::Rings;
use vol_disk::MemVol;
use volume_place::VolumePlace;

/// 2023-11-14T22:13:20Z, the moment of each run.
const START: u64 = 1_700_000_000_000_000_000;

/// The command line of most runs.
pub(crate) const TWO_WORKERS: &str = "serve --dir d --workers 2 --listen 127.0.0.1:4333";

/// What a run comes to.
#[derive(Drop)]
pub(crate) struct Outcome<R, V> {
    pub(crate) finish: Finish<R, V>,
    pub(crate) notice: MemNotice,
    pub(crate) printed: Vec<u8>,
}

/// The words of the line.
fn words_of(alloc: Global, line: &str) -> Result<Vec<String>, NoMemory> {
    let mut words = Vec::new(alloc);
    for word in line.split(' ') {
        words.push(String::from_str(alloc, word)?)?;
    }
    Ok(words)
}

/// The scripts of links that come one after the other, each of which says this in one piece.
pub(crate) fn knocks(alloc: Global, links: &[&[u8]]) -> Result<List<Knock>, NoMemory> {
    let mut all = List::new(alloc);
    for said in links {
        let mut script = List::new(alloc);
        script.push(Said::Piece(Blob::of(alloc, said)?))?;
        all.push(Knock::Link {
            script,
            failing: List::new(alloc),
        })?;
    }
    Ok(all)
}

/// A door through which such links come.
pub(crate) fn door_of(alloc: Global, links: &[&[u8]]) -> Result<MemDoor, NoMemory> {
    MemDoor::new(alloc, knocks(alloc, links)?)
}

/// Runs the server at [`START`] over places of this kind, with this command line.
pub(crate) fn serve_over<
    P: Place + Send + Sync,
    R: Door + Send + Drop,
    G: Gate + Sync,
    W: Threads + Wait + Sync,
>(
    rt: &W,
    alloc: Global,
    line: &str,
    door: R,
    vols: Vec<P::Vol>,
    gate: &G,
) -> Result<Outcome<R, P::Vol>, Fail>
where
    R::Link: Rings + Send,
    P::Vol: Sync + Drop,
{
    if vols.len() > 32 {
        return Err("more than 32 volumes")?;
    }
    let words = words_of(alloc, line)?;
    let mut clock = MemClock::new(List::new(alloc), Moment::of(START).ok_or("no moment")?);
    let mut notice = MemNotice::new();
    let mut sink = MemSink::new(alloc);
    let finish = run::<P, _, _, _, _, _, _>(
        rt,
        alloc,
        &words,
        door,
        vols,
        &mut clock,
        gate,
        &mut notice,
        &mut sink,
    );
    let printed = Vec::from_slice(alloc, sink.written())?;
    Ok(Outcome {
        finish,
        notice,
        printed,
    })
}

/// Runs it over places on volumes in memory.
pub(crate) fn serve_by<R: Door + Send + Drop, G: Gate + Sync, W: Threads + Wait + Sync>(
    rt: &W,
    alloc: Global,
    line: &str,
    door: R,
    vols: Vec<MemVol>,
    gate: &G,
) -> Result<Outcome<R, MemVol>, Fail>
where
    R::Link: Rings + Send,
{
    serve_over::<VolumePlace<MemVol>, R, G, W>(rt, alloc, line, door, vols, gate)
}

/// Runs it with two workers, whom nothing holds, for links that say this.
pub(crate) fn serve(
    rt: &(impl Threads + Wait + Sync),
    alloc: Global,
    links: &[&[u8]],
    vols: Vec<MemVol>,
) -> Result<Outcome<MemDoor, MemVol>, Fail> {
    let door = door_of(alloc, links)?;
    serve_by(rt, alloc, TWO_WORKERS, door, vols, &OpenGate)
}

/// So many volumes on which nothing was written.
pub(crate) fn empty_volumes(alloc: Global, count: usize) -> Result<Vec<MemVol>, NoMemory> {
    let mut vols = Vec::new(alloc);
    for _ in 0..count {
        vols.push(MemVol::new(alloc))?;
    }
    Ok(vols)
}

/// Two volumes after a run whose one client said this.
pub(crate) fn volumes_after(
    rt: &(impl Threads + Wait + Sync),
    alloc: Global,
    said: &[u8],
) -> Result<Vec<MemVol>, Fail> {
    let ran = serve(rt, alloc, &[said], empty_volumes(alloc, 2)?)?;
    if ran.finish.status != 0 {
        return Err("the run did not end well")?;
    }
    Ok(ran.finish.vols)
}

/// Whether the link was given the greeting, then this, and nothing else.
pub(crate) fn gives(link: &MemLink, greeting: &[u8], wanted: &[u8]) -> bool {
    link.given().strip_prefix(greeting) == Some(wanted)
}

/// Whether the run ended with this status and this line, and no link was given out.
pub(crate) fn refuses(ran: &Outcome<MemDoor, MemVol>, status: u8, line: &[u8]) -> bool {
    ran.finish.status == status && ran.printed.as_slice() == line && ran.finish.door.gave() == 0
}
