//! `link_edge`: the adapters over readers, writers and clocks that are made to fail, twins of clocks, and the gate that holds.

use js_base::{List, Moment};
use link_edge::{
    Accept, Clock, Door, Gate, Give, HoldGate, Link, MemClock, OpenGate, PipeDoor, PipeLink, Put,
    Sink, SystemClock, Take, WriterSink,
};
use std::cell::Cell;
use std::io::{Error, ErrorKind, Read, Write};
use std::sync::Arc;
use std::sync::atomic::AtomicBool;
use std::test::Fail;
use std::time::Duration;
use std::{io, rt};

/// A reader that is interrupted, gives a byte, fails, and then is at its end.
#[derive(Drop)]
struct Stumbling {
    reads: u32,
}

impl Read for Stumbling {
    fn read(&mut self, into: &mut [u8]) -> io::Result<usize> {
        self.reads = self.reads.saturating_add(1);
        match (self.reads, into) {
            (1, _) => Err(Error::from(ErrorKind::Interrupted)),
            (2, [first, ..]) => {
                *first = b'a';
                Ok(1)
            }
            (3, _) => Err(Error::from(ErrorKind::ConnectionReset)),
            _ => Ok(0),
        }
    }
}

/// A writer that takes so many bytes in all.
#[derive(Drop)]
struct Full {
    left: usize,
}

impl Write for Full {
    fn write(&mut self, bytes: &[u8]) -> io::Result<usize> {
        let count = bytes.len().min(self.left);
        self.left -= count;
        Ok(count)
    }

    fn flush(&mut self) -> io::Result<()> {
        Ok(())
    }
}

#[test]
fn pipe_reads_and_writes(rt: HostRuntime) -> Result<(), Fail> {
    let mut door = PipeDoor::new(b"hello".as_slice(), Full { left: 4 });
    if let Accept::Got(mut link) = door.accept() {
        let mut room = [0u8; 4];
        assert_eq!(rt; link.take(&mut room), Take::Got(4));
        assert_eq!(rt; room, [104, 101, 108, 108]);
        assert_eq!(rt; link.give(b"PONG"), Give::Gave(4));
        assert_eq!(rt; link.take(&mut room), Take::Got(1));
        assert_eq!(rt; link.take(&mut room), Take::Ended);
        assert_eq!(rt; link.give(b"more"), Give::Failed);
        assert_eq!(rt; link.faults(), 1);
        door.done(link);
    }
    assert!(rt; matches!(door.accept(), Accept::Closed));
    Ok(())
}

#[test]
fn pipe_counts_its_faults(rt: HostRuntime) {
    let mut link = PipeLink::new(Stumbling { reads: 0 }, Full { left: 0 });
    let mut room = [0u8; 4];
    for wanted in [Take::Quiet, Take::Got(1), Take::Failed, Take::Ended] {
        assert_eq!(rt; link.take(&mut room), wanted);
    }
    assert_eq!(rt; link.faults(), 1);
}

#[test]
fn sink_counts_its_faults(rt: HostRuntime) {
    let mut sink = WriterSink::new(Full { left: 6 });
    assert_eq!(rt; sink.put(b"words\n"), Put::Done);
    assert_eq!(rt; sink.put(b"words\n"), Put::Failed);
    assert_eq!(rt; sink.faults(), 1);
}

/// A system whose clocks tell, in nanoseconds, what a test sets, or fail.
#[derive(Drop)]
struct Set {
    wall: Cell<Option<u64>>,
    passed: Cell<Option<u64>>,
}

impl Set {
    fn at(wall: Option<u64>, passed: Option<u64>) -> Set {
        Set {
            wall: Cell::new(wall),
            passed: Cell::new(passed),
        }
    }
}

fn told(nanos: Option<u64>) -> io::Result<Duration> {
    match nanos {
        Some(nanos) => Ok(Duration::from_nanos(nanos)),
        None => Err(Error::from(ErrorKind::Unsupported)),
    }
}

impl rt::Clock for Set {
    fn monotonic(&self) -> io::Result<Duration> {
        told(self.passed.get())
    }

    fn since_1970(&self) -> io::Result<Duration> {
        told(self.wall.get())
    }
}

#[test]
fn clock_goes_on_though_it_is_set_back(rt: HostRuntime) -> Result<(), Fail> {
    let hour: u64 = 3_600_000_000_000;
    let system = Set::at(Some(2 * hour), Some(7));
    let mut clock = SystemClock::new(&system);
    assert_eq!(rt; clock.now().as_nanos(), 2 * hour);
    system.wall.set(Some(hour));
    system.passed.set(Some(12));
    assert_eq!(rt; clock.now().as_nanos(), 2 * hour + 5);
    let mut twin = clock.twin()?;
    system.wall.set(None);
    system.passed.set(Some(17));
    assert_eq!(rt; twin.now().as_nanos(), 2 * hour + 10);
    assert_eq!(rt; clock.now().as_nanos(), 2 * hour + 10);
    assert_eq!(rt; clock.faults(), 0);
    Ok(())
}

#[test]
fn clock_keeps_its_last_moment(rt: HostRuntime) -> Result<(), Fail> {
    let system = Set::at(Some(5), Some(0));
    let mut clock = SystemClock::new(&system);
    system.passed.set(None);
    assert_eq!(rt; clock.now().as_nanos(), 0);
    system.passed.set(Some(1));
    assert_eq!(rt; clock.now().as_nanos(), 6);
    system.passed.set(Some(1 << 62));
    assert_eq!(rt; clock.now().as_nanos(), 6);
    system.passed.set(Some(0));
    assert_eq!(rt; clock.now().as_nanos(), 6);
    assert_eq!(rt; clock.faults(), 2);
    let mut twin = clock.twin()?;
    assert_eq!(rt; twin.faults(), 0);
    system.passed.set(None);
    assert_eq!(rt; twin.now().as_nanos(), 6);
    assert_eq!(rt; twin.faults(), 1);
    let mut clock = SystemClock::new(rt.clone()?);
    assert!(rt; clock.now().as_nanos() > 1_700_000_000_000_000_000);
    Ok(())
}

#[test]
fn clock_begins_once_it_is_told(rt: HostRuntime) -> Result<(), Fail> {
    let system = Set::at(None, Some(3));
    let mut clock = SystemClock::new(&system);
    assert_eq!(rt; clock.now().as_nanos(), 0);
    assert_eq!(rt; clock.faults(), 1);
    system.wall.set(Some(100));
    system.passed.set(Some(8));
    assert_eq!(rt; clock.now().as_nanos(), 100);
    system.passed.set(Some(9));
    assert_eq!(rt; clock.now().as_nanos(), 101);
    assert_eq!(rt; clock.faults(), 1);
    Ok(())
}

#[test]
fn twin_tells_the_same_moments(rt: HostRuntime) -> Result<(), Fail> {
    let mut earlier = List::new(rt.alloc());
    earlier.push(Moment::of(7).ok_or("no moment")?)?;
    let clock = MemClock::new(earlier, Moment::of(9).ok_or("no moment")?);
    let mut twin = clock.twin()?;
    assert_eq!(rt; (twin.now().as_nanos(), twin.now().as_nanos()), (7, 9));
    Ok(())
}

/// Needs that threads may share it.
fn is_shared<T: Send + Sync>(_gate: &T) {}

#[test]
fn gate_holds_until_it_is_open(rt: HostRuntime) -> Result<(), Fail> {
    let gate = HoldGate::new(1, 1000, Arc::new(rt.alloc(), AtomicBool::new(false))?);
    is_shared(&gate);
    gate.pass(1, 0);
    gate.pass(0, 0);
    assert!(rt; !gate.is_open(), "a link that is served next opens nothing");
    gate.pass(0, 1);
    assert!(rt; gate.is_open(), "a link that was served opens the gate");
    gate.pass(1, 1);
    OpenGate.pass(1, 0);
    is_shared(&OpenGate);
    Ok(())
}
