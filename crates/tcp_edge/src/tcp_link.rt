//! Links over TCP.

ghost use Rattle.std.specs.Prelude.{◌≡◌, None};

use crate::bell::Bell;
use crate::belled_socket::BelledSocket;
use crate::pace::Pace;
use crate::rings::Rings;
use link_edge::{Give, Link, Take};
use mio::net::TcpStream;
use std::alloc::Global;
use std::io;
use std::marker::Model;
use std::net::Net;
use std::rt::Clock;
use std::sync::Arc;
use std::time::Duration;

/// How far apart takes that the bell ended are answered `Quiet` once a burst of them is used up, in microseconds. A session that ends after a million
/// takes in a row that were `Quiet` so lasts more than three minutes, however often the bell rings.
const EARLY_QUIETS_APART_MICROSECONDS: u64 = 200;

/// How many takes that the bell ended are answered `Quiet` at once.
const EARLY_QUIETS_AT_ONCE: u64 = 1_000;

/// A client's connection over TCP, with a bell that ends its waits. Its contents are not known to contracts, which see how often it failed.
#[derive(Drop)]
pub struct TcpLink<R: Clock + Drop> {
    rt: R,
    socket: BelledSocket,
    early_quiets: Pace,
    faults: u64,
}

impl<R: Clock + Drop> Model for TcpLink<R> {
    ghost use Rattle.std.specs.Prelude.{ℕ};

    ghost Value = { ℕ };

    ghost view = { λ s. s.faults };
}

impl<R: Net + Clock + Drop> TcpLink<R> {
    ghost use Rattle.std.specs.Prelude.{IfOk};

    /// A link over a stream that does not block. The error is the system's, or `OutOfMemory`; it closes the stream.
    pub(crate) fn new(rt: R, alloc: Global, stream: TcpStream) -> io::Result<TcpLink<R>>
        ensures unfailed { IfOk result (λ link. link ≡ 0) }
    {
        let socket = BelledSocket::new(&rt, alloc, stream)?;
        let apart = EARLY_QUIETS_APART_MICROSECONDS;
        let early_quiets = Pace::new(
            Duration::from_micros(apart),
            Duration::from_micros(apart * EARLY_QUIETS_AT_ONCE),
        );
        Ok(TcpLink {
            rt,
            socket,
            early_quiets,
            faults: 0,
        })
    }
}

impl<R: Clock + Drop> TcpLink<R> {
    /// How often it failed. The count stops at the greatest number of its type.
    pub fn faults(&self) -> u64
        ensures value { result ≡ self.now }
    {
        self.faults
    }
}

impl<R: Clock + Drop> Link for TcpLink<R> {
    ghost left = { λ _. None };

    ghost answered = { λ _. None };

    ghost given = { λ _. None };

    ghost failings = { λ _. None };

    ghost faults = { λ faults. faults };

    /// Takes what has come, or waits about 50 milliseconds for it. The wait ends early where the bell was rung since the take before; such a `Quiet`
    /// is held back by some 200 microseconds where a thousand came in a row. `Failed` where the connection broke.
    fn take(&mut self, into: &mut [u8]) -> Take {
        let mut answer = self.socket.read(into);
        let mut is_early = false;
        if matches!(answer, Take::Quiet) {
            is_early = self.socket.wait();
            answer = self.socket.read(into);
        }
        match answer {
            Take::Got(_) => {
                let _heard = self.socket.bell().hear();
                self.early_quiets.begin_anew();
            }
            Take::Quiet if is_early => self.early_quiets.wait(&self.rt),
            Take::Failed => self.faults = self.faults.saturating_add(1),
            Take::Quiet | Take::Ended | Take::NoMemory => {}
        }
        answer
    }

    /// Gives what there is room for, and waits for room as long as it takes. `Failed` where none comes for ten seconds, and where the connection
    /// broke.
    fn give(&mut self, bytes: &[u8]) -> Give {
        let answer = self.socket.write(&self.rt, bytes);
        if matches!(answer, Give::Failed) {
            self.faults = self.faults.saturating_add(1);
        }
        answer
    }
}

impl<R: Clock + Drop> Rings for TcpLink<R> {
    fn bell(&self) -> Option<&Arc<Bell>> {
        Some(self.socket.bell())
    }
}
