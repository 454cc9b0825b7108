//! A socket beside a bell, and the waits on both.

ghost use Rattle.std.specs.Prelude.{◌<◌, length, IfSome};
ghost use Rattle.link_edge.specs.Takes.{IsTakeWithin};
ghost use Rattle.link_edge.specs.Gives.{IsGiveWithin};

use crate::bell::Bell;
use link_edge::{Give, Take};
use mio::event::Event;
use mio::net::TcpStream;
use mio::{Events, Interest, Poll, Token};
use std::alloc::Global;
use std::io::{self, ErrorKind, Read, Write};
use std::net::Net;
use std::rt::Clock;
use std::sync::Arc;
use std::time::{Duration, Instant};

const SOCKET: Token = Token(0);

const BELL: Token = Token(1);

/// How many events one look gives at most: one for each source.
const EVENTS: usize = 2;

/// How often a wait looks at most. An event of a ring that was heard before, or of room for more bytes to go out, ends a look alone.
const LOOKS_OF_A_WAIT: usize = 3;

/// How long one look waits, in milliseconds.
const LOOK_MILLISECONDS: u64 = 50;

/// How long a write may make no way, in seconds.
const WRITE_SECONDS: u64 = 10;

/// A socket that does not block, and a bell that ends the waits for it.
#[derive(Drop)]
pub(crate) struct BelledSocket {
    stream: TcpStream,
    poll: Poll,
    events: Events,
    bell: Arc<Bell>,
    /// Bytes may have come, or the end. Events tell of changes alone, so only a read that finds nothing clears it.
    may_read: bool,
}

impl BelledSocket {
    /// A socket over a stream that does not block. What is written to it is not held back to be sent with more (Nagle's algorithm is off).
    pub(crate) fn new(
        net: &impl Net,
        alloc: Global,
        mut stream: TcpStream,
    ) -> io::Result<BelledSocket> {
        let poll = Poll::new(net)?;
        let bell = Bell::new(poll.registry(), BELL)?;
        let both_ways = Interest::READABLE | Interest::WRITABLE;
        poll.registry().register(&mut stream, SOCKET, both_ways)?;
        stream.set_nodelay(true)?;
        Ok(BelledSocket {
            stream,
            poll,
            events: Events::with_capacity(alloc, EVENTS)?,
            bell: Arc::new(alloc, bell)?,
            may_read: true,
        })
    }

    /// The bell that ends its waits.
    pub(crate) fn bell(&self) -> &Arc<Bell> {
        &self.bell
    }

    /// Waits until an event comes or the time of a look is up, and tells whether one came.
    fn look(&mut self) -> bool {
        let time = Duration::from_millis(LOOK_MILLISECONDS);
        let _waited = self.poll.poll(&mut self.events, Some(time));
        for event in &self.events {
            if event.token() == SOCKET && tells_of_input(event) {
                self.may_read = true;
            }
        }
        !self.events.is_empty()
    }

    /// Waits until bytes may have come, the bell was rung, or about 50 milliseconds have passed, and tells whether it ended before that time.
    pub(crate) fn wait(&mut self) -> bool {
        for _ in 0..LOOKS_OF_A_WAIT {
            if self.may_read || self.bell.hear() {
                return true;
            }
            if !self.look() {
                return false;
            }
        }
        true
    }

    /// Reads once, and does not wait. `Quiet` where nothing has come.
    pub(crate) fn read(&mut self, into: &mut [u8]) -> Take
        requires room { 0 < length into.old }
        ensures within { IsTakeWithin result (length into.new) }
    {
        if !self.may_read {
            return Take::Quiet;
        }
        match self.stream.read(into) {
            Ok(0) => Take::Ended,
            Ok(count) => Take::Got(count),
            Err(error) if error.kind() == ErrorKind::WouldBlock => {
                self.may_read = false;
                Take::Quiet
            }
            Err(error) if error.kind() == ErrorKind::Interrupted => Take::Quiet,
            Err(_) => Take::Failed,
        }
    }

    /// Writes once, and does not wait. `None` where there is no room for a byte.
    fn write_now(&mut self, bytes: &[u8]) -> Option<Give>
        requires bytes { 0 < length bytes.now }
        ensures within { IfSome result (λ given. IsGiveWithin given (length bytes.now)) }
    {
        match self.stream.write(bytes) {
            Ok(0) => Some(Give::Failed),
            Ok(count) => Some(Give::Gave(count)),
            Err(error) => match error.kind() {
                ErrorKind::WouldBlock | ErrorKind::Interrupted => None,
                _ => Some(Give::Failed),
            },
        }
    }

    /// Writes a first part of the bytes as soon as there is room for some. `Failed` also where there was none for ten seconds.
    pub(crate) fn write<R: Clock>(&mut self, rt: &R, bytes: &[u8]) -> Give
        requires bytes { 0 < length bytes.now }
        ensures within { IsGiveWithin result (length bytes.now) }
    {
        if let Some(given) = self.write_now(bytes) {
            return given;
        }
        let Ok(start) = Instant::now(rt) else {
            return Give::Failed;
        };
        for _ in 0..u64::MAX {
            self.look();
            if let Some(given) = self.write_now(bytes) {
                return given;
            }
            if !is_within(rt, start, Duration::from_secs(WRITE_SECONDS)) {
                return Give::Failed;
            }
        }
        Give::Failed
    }
}

/// Whether an event of a socket says that bytes may have come, or the end.
fn tells_of_input(event: &Event) -> bool {
    event.is_readable() || event.is_read_closed() || event.is_error()
}

/// Whether less than the time has passed since the start, as far as the clock tells.
fn is_within<R: Clock>(rt: &R, start: Instant, time: Duration) -> bool {
    match Instant::now(rt) {
        Ok(now) => now.saturating_duration_since(start) < time,
        Err(_) => false,
    }
}
