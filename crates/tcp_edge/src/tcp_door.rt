//! Doors over TCP.

ghost use Rattle.std.specs.Prelude.{◌≡◌, None};

use crate::accept_fault::AcceptFault;
use crate::tcp_link::TcpLink;
use link_edge::{Accept, Door};
use mio::net::{TcpListener, TcpStream};
use mio::{Events, Interest, Poll, Token};
use std::alloc::Global;
use std::io::{self, ErrorKind};
use std::marker::Model;
use std::net::{Net, SocketAddr};
use std::rt::Clock;
use std::time::Duration;

const LISTENER: Token = Token(0);

/// How many events one wait gives at most: there is one source.
const EVENTS: usize = 1;

/// How long an accept waits for a connection, in milliseconds.
const ACCEPT_MILLISECONDS: u64 = 50;

/// A listening socket, and the wait for connections.
#[derive(Drop)]
struct Listening {
    listener: TcpListener,
    address: SocketAddr,
    poll: Poll,
    events: Events,
}

impl Listening {
    /// Listens at an address.
    fn at<R: Net>(rt: &R, alloc: Global, address: SocketAddr) -> io::Result<Listening> {
        let mut listener = TcpListener::bind(rt, address)?;
        let address = listener.local_addr()?;
        let poll = Poll::new(rt)?;
        poll.registry()
            .register(&mut listener, LISTENER, Interest::READABLE)?;
        Ok(Listening {
            listener,
            address,
            poll,
            events: Events::with_capacity(alloc, EVENTS)?,
        })
    }

    /// The next connection. Where none has come, it waits for one.
    fn next(&mut self) -> io::Result<TcpStream> {
        match self.listener.accept() {
            Ok((stream, _)) => return Ok(stream),
            Err(error) if error.kind() == ErrorKind::WouldBlock => {}
            Err(error) => return Err(error),
        }
        self.wait();
        let (stream, _) = self.listener.accept()?;
        Ok(stream)
    }

    /// Waits until another connection comes, or about 50 milliseconds have passed.
    fn wait(&mut self) {
        let time = Duration::from_millis(ACCEPT_MILLISECONDS);
        let _waited = self.poll.poll(&mut self.events, Some(time));
    }
}

/// A door at an address, which gives each connection that comes there as a link. Nothing is known of its links. Contracts see how often it failed.
#[derive(Drop)]
pub struct TcpDoor<R: Net + Clock + Copy + Drop> {
    rt: R,
    alloc: Global,
    listening: Listening,
    faults: u64,
}

impl<R: Net + Clock + Copy + Drop> Model for TcpDoor<R> {
    ghost use Rattle.std.specs.Prelude.{ℕ};

    ghost Value = { ℕ };

    ghost view = { λ s. s.faults };
}

impl<R: Net + Clock + Copy + Drop> TcpDoor<R> {
    ghost use Rattle.std.specs.Prelude.{IfOk};

    /// A door at the address, of which port 0 stands for any that is free, or the error if it can't be bound or memory runs out.
    pub fn bind(rt: R, alloc: Global, address: SocketAddr) -> io::Result<TcpDoor<R>>
        ensures unfailed { IfOk result (λ door. door ≡ 0) }
    {
        Ok(TcpDoor {
            rt,
            alloc,
            listening: Listening::at(&rt, alloc, address)?,
            faults: 0,
        })
    }

    /// The address at which it listens, with the port that it has.
    pub fn address(&self) -> SocketAddr {
        self.listening.address
    }

    /// How often it failed. The count stops at the greatest number of its type.
    pub fn faults(&self) -> u64
        ensures value { result ≡ self.now }
    {
        self.faults
    }

    /// A link over a connection that came.
    fn link_over(&self, stream: TcpStream) -> io::Result<TcpLink<R>>
        ensures unfailed { IfOk result (λ link. link ≡ 0) }
    {
        TcpLink::new(self.rt, self.alloc, stream)
    }
}

/// Whether this program's allocator gave no memory. Where the system lacks some, the error has the system's number.
fn is_refused_memory(error: &io::Error) -> bool {
    error.kind() == ErrorKind::OutOfMemory && error.raw_os_error().is_none()
}

impl<R: Net + Clock + Copy + Drop> Door for TcpDoor<R> {
    type Link = TcpLink<R>;

    ghost answered = { λ _. None };

    ghost gave = { λ _. None };

    ghost back = { λ _. None };

    ghost starved = { λ _. None };

    ghost faults = { λ faults. faults };

    /// Gives the next connection, or waits about 50 milliseconds for one. It is `Quiet` too where a connection broke before it was accepted, and where
    /// the system has no descriptor or no memory left for one: such a connection waits, or is closed.
    fn accept(&mut self) -> Accept<TcpLink<R>> {
        match self.listening.next() {
            Ok(stream) => match self.link_over(stream) {
                Ok(link) => Accept::Got(link),
                Err(error) if is_refused_memory(&error) => Accept::NoMemory,
                Err(_) => Accept::Quiet,
            },
            Err(error) => match AcceptFault::of(&error) {
                AcceptFault::Passing => Accept::Quiet,
                AcceptFault::Scarce => {
                    self.listening.wait();
                    Accept::Quiet
                }
                AcceptFault::Lasting => {
                    self.faults = self.faults.saturating_add(1);
                    Accept::Failed
                }
            },
        }
    }

    /// Closes the connection.
    fn done(&mut self, link: TcpLink<R>) {
        let _link = link;
    }
}
