//! A session over an input in pieces.

ghost use Rattle.std.specs.Prelude.{◌≡◌, ◌<◌, false, IfOk};
ghost use Rattle.bench_program.specs.Serving.{limits};

use crate::cut_link::CutLink;
use js_base::{Blob, Moment, Name, NoMemory};
use js_desk::SoloDesk;
use link_edge::Clock;
use memory_place::MemoryPlace;
use session::{Ended, Limits, serve_link};
use std::alloc::Global;

/// What a session came to.
#[derive(Clone, Copy)]
pub(crate) struct Served {
    /// How many bytes of the input it left.
    pub(crate) left: usize,
    /// How many bytes the client was given.
    pub(crate) given: u64,
    pub(crate) ended: Ended,
}

/// The limits of the session. No input that is in memory passes them.
fn limits(alloc: Global) -> Result<Limits, NoMemory>
    ensures limits { IfOk result (λ made. made ≡ limits) }
{
    Ok(Limits {
        input: (1 << 62) - 1,
        quiet: 1,
        host: Blob::of(alloc, b"pipe")?,
        port: 0,
        ticks: true,
    })
}

/// A desk with so many places as the program's.
fn open(alloc: Global) -> Result<SoloDesk<MemoryPlace<()>>, NoMemory>
    ensures closed { IfOk result (λ desk. desk.client.is_open ≡ false) }
{
    let vols = vec![in alloc; (); 32]?;
    match SoloDesk::<MemoryPlace<()>>::open(alloc, vols) {
        Ok(desk) => Ok(desk),
        Err(_) => Err(NoMemory),
    }
}

/// A desk with a stream that takes the subjects `orders.*`.
pub(crate) fn desk(alloc: Global, now: Moment) -> Result<SoloDesk<MemoryPlace<()>>, NoMemory>
    ensures closed { IfOk result (λ desk. desk.client.is_open ≡ false) }
{
    let name = match Name::read(alloc, b"ORDERS") {
        Ok(name) => name,
        Err(_) => return Err(NoMemory),
    };
    let mut desk = match open(alloc) {
        Ok(desk) => desk,
        Err(_) => return Err(NoMemory),
    };
    // with places that are free, no stream is refused
    match desk.make_stream(&name, b"orders.*", now) {
        Ok(_) => Ok(desk),
        Err(_) => Err(NoMemory),
    }
}

/// Serves the input as one session, in pieces of so many bytes.
pub(crate) fn serve<C: Clock>(
    alloc: Global,
    input: Vec<u8>,
    len: usize,
    clock: &mut C,
) -> Result<Served, NoMemory>
    requires len { 0 < len }
{
    let limits = limits(alloc)?;
    let mut desk = desk(alloc, clock.now())?;
    let mut link = CutLink::new(input, len);
    let ended = serve_link(alloc, &mut desk, &mut link, clock, &limits);
    Ok(Served {
        left: link.left(),
        given: link.given(),
        ended,
    })
}
