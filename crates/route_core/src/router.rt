//! The router: it carries messages between the sessions of one owner, by the NATS client protocol.

ghost use Rattle.std.specs.Prelude.{◌≡◌, ◌<◌, ◌^◌, [], false, IfOk, OnErr};
ghost use Rattle.std.specs.Option.{option_copied};
ghost use Rattle.js_model.specs.Router.{IsRoute, Open, Close, Options, Sub, Unsub, Publish, Interest, Collect, Done, Listens, empty_router};
ghost use Rattle.js_model.specs.Routing.{open_told, done_told, publish_told, collected_told, StaysOpen, KeepsOpen, ClosesOne, Opens, waiting_for, LeavesFewer};
ghost use Rattle.js_model.specs.declared.desk.Collected.TheVariants.{Frames};
ghost use Rattle.route_core.specs.Spreading.{Spreads};
ghost use Rattle.route_core.specs.Idle.{IsIdle};

use crate::dispatch::{deliveries, hand_over_all, rouse};
use crate::open_sessions::{
    add_session, deaf_of, is_open, is_publisher_open, place_of, remove_session, set_options,
};
use crate::roused::Roused;
use crate::session::Session;
use crate::table::Table;
use js_base::Out;
use js_model::{Collected, RouteFault};
use std::alloc::Global;
use std::marker::Model;
use std::sync::Arc;

/// The first number that no session can have.
const END: u64 = 1 << 62;

/// The open sessions with what waits for them, and their subscriptions.
#[derive(Drop)]
pub struct Router {
    /// In the order of their opening.
    sessions: Vec<Session>,
    subscriptions: Table,
    /// The last number that was given to a session, 0 for none.
    latest: u64,
    /// Where it adds the sessions that it hands messages, if anybody takes note of that.
    roused: Option<Arc<Roused>>,
}

impl Model for Router {
    ghost use Rattle.js_model.specs.Router.{Router as Machine};
    ghost use Rattle.route_core.specs.Sessions.{AreNumbered};

    ghost Value = { Machine };

    ghost view = { λ router. record { sessions = router.sessions.items; subscriptions = router.subscriptions; latest = router.latest } };

    ghost invariant = { λ router. AreNumbered router.latest router.sessions.items };
}

impl Router {
    /// A router without sessions. It takes no memory.
    pub fn new(alloc: Global) -> Router
        ensures empty { result ≡ empty_router }
    {
        Router {
            sessions: Vec::new(alloc),
            subscriptions: Table::new(alloc),
            latest: 0,
            roused: None,
        }
    }

    /// A router without sessions, which adds the sessions that it hands messages to these. It takes no memory.
    pub fn rousing(alloc: Global, roused: Arc<Roused>) -> Router
        ensures empty { result ≡ empty_router }
    {
        Router {
            sessions: Vec::new(alloc),
            subscriptions: Table::new(alloc),
            latest: 0,
            roused: Some(roused),
        }
    }

    /// Opens a session, which hears its own messages and takes no header blocks, and answers its number: 1 for the first, and one more each
    /// time, also after a session was closed. `Worn` comes exactly if that number would be 2^62. An `Err` changes nothing.
    pub fn open(&mut self) -> Result<u64, RouteFault>
        ensures routes { IsRoute self.old Open (open_told result) self.new }
        ensures opens { IfOk result (Opens self.new) }
        ensures number { IfOk result (λ session. session < 2 ^ 62) }
        ensures stay { StaysOpen self.old self.new }
        ensures err { OnErr result (self.new ≡ self.old) }
    {
        let number = self.latest + 1;
        if number == END {
            return Err(RouteFault::Worn);
        }
        add_session(&mut self.sessions, number)?;
        self.latest = number;
        Ok(number)
    }

    /// Closes the session: its subscriptions are gone, and so is what waits for it. Nothing changes if the session is not open. It takes no memory.
    pub fn close(&mut self, session: u64)
        ensures routes { IsRoute self.old (Close session) Done self.new }
        ensures closed { ClosesOne session self.old self.new }
    {
        remove_session(&mut self.sessions, session);
        self.subscriptions.remove_session(session);
    }

    /// Sets whether the session hears its own messages, and whether it takes header blocks. Nothing changes if the session is not open. It
    /// takes no memory.
    pub fn options(&mut self, session: u64, echo: bool, headers: bool)
        ensures routes { IsRoute self.old (Options session echo headers) Done self.new }
        ensures stay { KeepsOpen self.old self.new }
    {
        set_options(&mut self.sessions, session, echo, headers);
    }

    /// Subscribes the session to the subjects that match a pattern, under an identifier, and in a queue group if one is named. If the session
    /// uses the identifier already, that subscription stays and nothing changes. `NoSession` comes exactly if the session is not open, and
    /// `TooManySubs` exactly if it has 65,536 subscriptions, none of them under the identifier. An `Err` changes nothing.
    pub fn sub(
        &mut self,
        session: u64,
        subject: &[u8],
        queue: Option<&[u8]>,
        sid: &[u8],
    ) -> Result<(), RouteFault>
        ensures routes { IsRoute self.old (Sub session subject.now (option_copied queue.entry) sid.now) (done_told result) self.new }
        ensures stay { KeepsOpen self.old self.new }
        ensures err { OnErr result (self.new ≡ self.old) }
    {
        if !is_open(&self.sessions, session) {
            return Err(RouteFault::NoSession(self.latest));
        }
        if self.subscriptions.is_in_use(session, sid) {
            return Ok(());
        }
        if self.subscriptions.is_full(session) {
            return Err(RouteFault::TooManySubs);
        }
        self.subscriptions.subscribe(session, subject, queue, sid)?;
        Ok(())
    }

    /// Ends the session's subscription under an identifier: at once, or once it was sent so many messages since its SUB. If there is none,
    /// nothing changes. `NoSession` comes exactly if the session is not open, and changes nothing. It takes no memory.
    pub fn unsub(&mut self, session: u64, sid: &[u8], max: Option<u64>) -> Result<(), RouteFault>
        ensures routes { IsRoute self.old (Unsub session sid.now max) (done_told result) self.new }
        ensures stay { KeepsOpen self.old self.new }
        ensures err { OnErr result (self.new ≡ self.old) }
    {
        if !is_open(&self.sessions, session) {
            return Err(RouteFault::NoSession(self.latest));
        }
        self.subscriptions.unsubscribe(session, sid, max);
        Ok(())
    }

    /// Hands a message to each subscription that is in no queue group and whose pattern matches its `to`, and to one of each queue group, and
    /// answers how many there are. Of a group that one takes it which was sent the fewest messages since its SUB, the earliest of several.
    /// Their sessions find it behind what waits for them, once for each subscription and in the subscriptions' order, the groups' last, in
    /// the order of their first members; a session without headers gets the block left off. A session for which more than 16 MiB would wait
    /// is marked. If a session publishes, `NoSession` comes exactly if it is not open, and its own subscriptions count only if it hears
    /// itself. A subscription that was sent its last message ends. An `Err` changes nothing.
    pub fn publish(&mut self, out: &Out, from: Option<u64>) -> Result<u64, RouteFault>
        ensures routes { IsRoute self.old (Publish out.now from) (publish_told result) self.new }
        ensures spreads { IfOk result (λ count. Spreads self.old out.now from count self.new) }
        ensures stay { KeepsOpen self.old self.new }
        ensures err { OnErr result (self.new ≡ self.old) }
    {
        if !is_publisher_open(&self.sessions, from) {
            return Err(RouteFault::NoSession(self.latest));
        }
        let alloc = *self.sessions.allocator();
        let deaf = deaf_of(&self.sessions, from);
        let list = deliveries(alloc, &self.sessions, &self.subscriptions, out, deaf)?;
        let count = list.len() as u64;
        rouse(&self.roused, list.as_slice());
        hand_over_all(&mut self.sessions, &mut self.subscriptions, list);
        Ok(count)
    }

    /// Whether some subscription matches the subject: any, or one of a queue group if one is named. It takes no memory.
    pub fn interest(&self, subject: &[u8], group: Option<&[u8]>) -> bool
        ensures routes { IsRoute self.now (Interest subject.now (option_copied group.entry)) (Listens result) self.now }
    {
        self.subscriptions.is_interest(subject, group)
    }

    /// Takes frames that wait for the session, the first ones that have at most `max` bytes together, but at least one if any waits, and tells
    /// whether more wait. If it takes none and no more wait, another collect would take none either and change nothing. `Slow` comes exactly
    /// if the session is marked, with how many bytes would have waited; the session stays marked. `NoSession` comes exactly if the session is
    /// not open. An `Err` changes nothing.
    pub fn collect(&mut self, session: u64, max: usize) -> Result<Collected, RouteFault>
        ensures routes { IsRoute self.old (Collect session max) (collected_told result) self.new }
        ensures left { LeavesFewer result (waiting_for self.old session) (waiting_for self.new session) }
        ensures idle { IfOk result (λ got. (got ≡ Frames [] false) → IsIdle self.new session) }
        ensures stay { KeepsOpen self.old self.new }
        ensures err { OnErr result (self.new ≡ self.old) }
    {
        let Some(at) = place_of(&self.sessions, session) else {
            return Err(RouteFault::NoSession(self.latest));
        };
        let session = &mut self.sessions[at];
        Ok(session.collect(max)?)
    }
}
