//! A session of the router.

ghost use Rattle.std.specs.Prelude.{◌≡◌, ◌&&◌, not, IfOk, OnOk, OnErr};
ghost use Rattle.js_model.specs.Router.{new_session, is_session, without_collected};
ghost use Rattle.route_core.specs.Queues.{gathered};
ghost use Rattle.route_core.specs.Sessions.{set_options, receiving};

use crate::parcel::Parcel;
use crate::waiting::Waiting;
use js_base::NoMemory;
use js_model::Collected;
use std::alloc::Global;
use std::marker::Model;

/// An open session: what its client asked for, and what waits for it.
#[derive(Drop)]
pub(crate) struct Session {
    number: u64,
    /// Whether it hears its own messages.
    echo: bool,
    /// Whether it takes header blocks.
    headers: bool,
    waiting: Waiting,
}

impl Model for Session {
    ghost use Rattle.js_model.specs.Router.{Session as Machine};

    ghost Value = { Machine };

    ghost view = { λ session. record { number = session.number; echo = session.echo; headers = session.headers; waiting = session.waiting } };
}

impl Session {
    /// A new session, which hears its own messages and takes no header blocks. It takes no memory.
    pub(crate) fn new(alloc: Global, number: u64) -> Session
        ensures value { result ≡ new_session number }
    {
        Session {
            number,
            echo: true,
            headers: false,
            waiting: Waiting::new(alloc),
        }
    }

    /// Its number.
    pub(crate) fn number(&self) -> u64
        ensures value { result ≡ self.now.number }
    {
        self.number
    }

    /// Whether this is its number.
    pub(crate) fn is(&self, number: u64) -> bool
        ensures value { result ≡ is_session number self.now }
    {
        self.number == number
    }

    /// Whether this is its number, and it takes header blocks.
    pub(crate) fn takes_headers(&self, number: u64) -> bool
        ensures value { result ≡ (is_session number self.now && self.now.headers) }
    {
        self.number == number && self.headers
    }

    /// Whether this is its number, and it does not hear its own messages.
    pub(crate) fn is_deaf(&self, number: u64) -> bool
        ensures value { result ≡ (is_session number self.now && not self.now.echo) }
    {
        self.number == number && !self.echo
    }

    /// Sets its options.
    pub(crate) fn set_options(&mut self, echo: bool, headers: bool)
        ensures value { self.new ≡ set_options echo headers self.old }
    {
        self.echo = echo;
        self.headers = headers;
    }

    /// Hands it a frame. It takes no memory.
    pub(crate) fn receive(&mut self, frame: Parcel)
        ensures value { self.new ≡ receiving frame self.old }
    {
        self.waiting.put(frame);
    }

    /// Takes frames that wait for it.
    pub(crate) fn collect(&mut self, max: usize) -> Result<Collected, NoMemory>
        ensures told { IfOk result (λ got. got ≡ gathered max self.old.waiting) }
        ensures left { OnOk result (self.new ≡ record self.old { waiting = without_collected max self.old.waiting }) }
        ensures err { OnErr result (self.new ≡ self.old) }
    {
        self.waiting.collect(max)
    }
}
