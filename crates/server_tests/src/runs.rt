//! Runs of the server over volumes in memory, for a client in memory.

use js_base::{Blob, List, Moment, NoMemory};
use link_edge::{Knock, MemClock, MemDoor, MemSink, OpenGate, Said, Unnoticed};
use server::{Finish, run};
use std::alloc::Global;
use std::sync::Wait;
use std::test::Fail;
use std::thread::Threads;
use vol_disk::MemVol;
use volume_place::VolumePlace;

/// 2023-11-14T22:13:20Z, the moment of each run for which no other is told.
pub(crate) const START: u64 = 1_700_000_000_000_000_000;

/// The server's information, with which each session begins.
const GREETING: &[u8] =
    b"INFO {\"client_id\":1,\"headers\":true,\"host\":\"pipe\",\"jetstream\":true,\"max_payload\":1048576,\"port\":0,\"proto\":1,\"server_id\":\"JSBLOCK\",\"server_name\":\"jsblock\",\"version\":\"2.10.0\"}\r\n";

/// What a run comes to.
#[derive(Drop)]
pub(crate) struct Outcome {
    pub(crate) status: u8,
    pub(crate) given: Vec<u8>,
    pub(crate) printed: Vec<u8>,
    pub(crate) vols: Vec<MemVol>,
}

fn words_of(alloc: Global, words: &[&str]) -> Result<Vec<String>, NoMemory> {
    let mut all = Vec::new(alloc);
    for word in words {
        all.push(String::from_str(alloc, word)?)?;
    }
    Ok(all)
}

/// A door through which one client comes, who plays this script.
pub(crate) fn door_of(alloc: Global, script: List<Said>) -> Result<MemDoor, NoMemory> {
    let mut knocks = List::new(alloc);
    knocks.push(Knock::Link {
        script,
        failing: List::new(alloc),
    })?;
    MemDoor::new(alloc, knocks)
}

/// What the client was given, nothing if none was served.
fn given(alloc: Global, door: &MemDoor) -> Result<Vec<u8>, NoMemory> {
    match door.back() {
        [link, ..] => Ok(Vec::from_slice(alloc, link.given())?),
        [] => Ok(Vec::new(alloc)),
    }
}

/// What a run came to that left this.
fn outcome_of(
    alloc: Global,
    finish: Finish<MemDoor, MemVol>,
    sink: &MemSink,
) -> Result<Outcome, NoMemory> {
    let Finish { status, door, vols } = finish;
    Ok(Outcome {
        status,
        given: given(alloc, &door)?,
        printed: Vec::from_slice(alloc, sink.written())?,
        vols,
    })
}

/// Runs the server over the volumes, with this command line.
pub(crate) fn run_once(
    rt: &(impl Threads + Wait + Sync),
    alloc: Global,
    words: &[&str],
    door: MemDoor,
    clock: MemClock,
    vols: Vec<MemVol>,
) -> Result<Outcome, Fail> {
    if vols.len() > 32 {
        return Err("more than 32 volumes")?;
    }
    let words = words_of(alloc, words)?;
    let mut clock = clock;
    let mut sink = MemSink::new(alloc);
    let finish = run::<VolumePlace<MemVol>, _, _, _, _, _, _>(
        rt,
        alloc,
        &words,
        door,
        vols,
        &mut clock,
        &OpenGate,
        &mut Unnoticed,
        &mut sink,
    );
    Ok(outcome_of(alloc, finish, &sink)?)
}

/// The moment so many nanoseconds after [`START`].
pub(crate) fn moment_after(nanos: u64) -> Result<Moment, Fail> {
    Ok(Moment::of(START.saturating_add(nanos)).ok_or("no moment")?)
}

/// Runs the server over the volumes at [`START`], with this command line and for a client who says this.
pub(crate) fn run_over(
    rt: &(impl Threads + Wait + Sync),
    alloc: Global,
    words: &[&str],
    said: &[u8],
    vols: Vec<MemVol>,
) -> Result<Outcome, Fail> {
    let mut script = List::new(alloc);
    script.push(Said::Piece(Blob::of(alloc, said)?))?;
    let door = door_of(alloc, script)?;
    let clock = MemClock::new(List::new(alloc), moment_after(0)?);
    run_once(rt, alloc, words, door, clock, vols)
}

/// Runs it for a client that is sent its answers with headers, and says this.
pub(crate) fn serve(
    rt: &(impl Threads + Wait + Sync),
    alloc: Global,
    vols: Vec<MemVol>,
    said: &[u8],
) -> Result<Outcome, Fail> {
    let mut text = Vec::from_slice(
        alloc,
        b"CONNECT {\"headers\":true,\"verbose\":false}\r\nSUB _I 1\r\n",
    )?;
    text.extend_from_slice(said)?;
    run_over(rt, alloc, &["pipe"], &text, vols)
}

/// The one volume of a run.
pub(crate) fn volume_of(ran: &Outcome) -> Result<&MemVol, Fail> {
    match ran.vols.as_slice() {
        [vol] => Ok(vol),
        _ => Err("not one volume")?,
    }
}

/// The one volume of a run that ended well. The run ends with that.
fn only_volume(ran: Outcome) -> Result<MemVol, Fail> {
    let mut ran = ran;
    match ran.vols.pop() {
        Some(vol) if ran.status == 0 => Ok(vol),
        _ => Err("the run did not end well")?,
    }
}

/// A volume on which a run made the stream, and on which its client said this.
pub(crate) fn with_stream(
    rt: &(impl Threads + Wait + Sync),
    alloc: Global,
    name: &str,
    subject: &str,
    said: &[u8],
) -> Result<MemVol, Fail> {
    let words = ["pipe", "--stream", name, "--subject", subject];
    let vols = vec![in alloc; MemVol::new(alloc)]?;
    only_volume(run_over(rt, alloc, &words, said, vols)?)
}

/// The volume after a further run, whose client said this.
pub(crate) fn after(
    rt: &(impl Threads + Wait + Sync),
    alloc: Global,
    vol: MemVol,
    said: &[u8],
) -> Result<MemVol, Fail> {
    only_volume(serve(rt, alloc, vec![in alloc; vol]?, said)?)
}

/// Whether the run ended well, and the client was given this at the end.
pub(crate) fn answers(ran: &Outcome, wanted: &[u8]) -> bool {
    ran.status == 0 && ran.printed.is_empty() && ran.given.as_slice().ends_with(wanted)
}

/// Whether the client was given this behind the greeting, and nothing else, however the run ended.
pub(crate) fn gave(ran: &Outcome, wanted: &[u8]) -> bool {
    ran.given.as_slice().strip_prefix(GREETING) == Some(wanted)
}

/// Whether the run ended well, and the client was given this behind the greeting, and nothing else.
pub(crate) fn gives(ran: &Outcome, wanted: &[u8]) -> bool {
    answers(ran, wanted) && gave(ran, wanted)
}

/// Whether the text has this part.
pub(crate) fn has(text: &[u8], part: &[u8]) -> bool {
    if part.is_empty() {
        return true;
    }
    text.windows(part.len()).any(|window| window == part)
}
