//! What a session asks of the server.

ghost use Rattle.std.specs.Prelude.{◌≡◌, ◌<◌, ℕ, false, List, [], ◌++◌, IsTrue, option_map};
ghost use Rattle.js_api.specs.Entries.{DeskEntry};
ghost use Rattle.js_api.specs.Leading.{Makes};
ghost use Rattle.js_api.specs.Clients.{Client, client_after};
ghost use Rattle.js_api.specs.Publishing.{IsMessage};
ghost use Rattle.js_api.specs.Answering.{Open, Options, Sub, Unsub, Publish, Tick, Settle, Collect, Close, opened, done, took, settled, gave};
ghost use Rattle.js_api.specs.Collecting.{LeavesLess};
ghost use Rattle.js_api.specs.Calls.{Does};
ghost use Rattle.js_base.specs.Subjects.{is_pattern_text};

use crate::fault::DeskFault;
use js_base::{Moment, Out};
use js_model::{Collected, Taken};

/// A desk serves one session at a time: it carries its subscriptions and publishes to the router and the streams. Which entries each call
/// makes is told by a relation, so that a session can be proved once for every desk.
///
/// Each call may answer that the numbers of turns or of a store's generations are used up, or, if it takes memory, that there is none; what it made
/// until then stands. A call that is for an open session answers `NoSession` exactly if none is open, and does nothing then.
pub trait Desk {
    /// The session of the desk: its number, whether it is open, and whether its client is told if nobody took a message.
    ghost client: { Self → Client };

    /// These entries lead from the one desk to the other.
    ghost made: { Self → List DeskEntry → Self → Type 0 };

    /// How many more collects may leave something to collect.
    ghost left: { Self → ℕ };

    /// Opens a session, and answers its number. Its client hears its own messages, takes no header blocks, and is not told if nobody took a
    /// message. An `Err` opens none.
    fn open(&mut self) -> Result<u64, DeskFault>
        requires closed { (client self.old).is_open ≡ false }
        ensures made { Makes made (Does (client self.old) Open (opened result)) self.old self.new }
        ensures client { client self.new ≡ client_after (client self.old) Open (opened result) };

    /// Sets the client's options: whether it hears its own messages, takes header blocks, and is told if nobody took a message, which is done by
    /// a header block.
    fn options(&mut self, echo: bool, headers: bool, no_responders: bool) -> Result<(), DeskFault>
        ensures made { Makes made (Does (client self.old) (Options echo headers no_responders) (done result)) self.old self.new }
        ensures client { client self.new ≡ client_after (client self.old) (Options echo headers no_responders) (done result) };

    /// Subscribes the session to a pattern, maybe as a member of a queue group, under an identifier. One that is in use changes nothing, and
    /// neither does an `Err`.
    fn sub(&mut self, subject: &[u8], queue: Option<&[u8]>, sid: &[u8]) -> Result<(), DeskFault>
        requires pattern { IsTrue (is_pattern_text subject.now) }
        ensures made { Makes made
            (Does (client self.old) (Sub subject.now (option_map (λ text. text.now) queue.entry) sid.now) (done result)) self.old self.new }
        ensures client { client self.new ≡ client self.old };

    /// Ends the subscription under an identifier: at once, or once `max` messages in all were sent to it since it was made. It takes no memory, and
    /// an identifier that is not in use changes nothing.
    fn unsub(&mut self, sid: &[u8], max: Option<u64>) -> Result<(), DeskFault>
        ensures made { Makes made (Does (client self.old) (Unsub sid.now max) (done result)) self.old self.new }
        ensures client { client self.new ≡ client self.old };

    /// Publishes a message of the session, and answers who took it: the subscriptions and the stream of a plain subject, or a call of the
    /// JetStream API, which is carried out and answered to the reply subject.
    fn publish(&mut self, message: &Out, now: Moment) -> Result<Taken, DeskFault>
        requires message { IsMessage message.now }
        ensures made { Makes made (Does (client self.old) (Publish message.now now) (took result)) self.old self.new }
        ensures client { client self.new ≡ client self.old };

    /// Lets time pass at the next place with a stream, in cyclic order after the place of the last tick, or after another place if the desk was told one. If
    /// there is no stream, nothing is done.
    fn tick(&mut self, now: Moment) -> Result<(), DeskFault>
        ensures made { Makes made (Does (client self.old) (Tick now) (done result)) self.old self.new }
        ensures client { client self.new ≡ client self.old };

    /// Lets time pass at the place of the last hold, and answers whether a consumer is ready there then: one to whom something can be
    /// delivered. Before the first hold it answers false, and does nothing.
    fn settle(&mut self, now: Moment) -> Result<bool, DeskFault>
        ensures made { Makes made (Does (client self.old) (Settle now) (settled result)) self.old self.new }
        ensures client { client self.new ≡ client self.old };

    /// Takes frames that wait for the session, whole ones of at most `max` bytes together, but one if any waits; or tells how long they
    /// would be together, if that is too long.
    fn collect(&mut self, max: usize) -> Result<Collected, DeskFault>
        ensures made { Makes made (Does (client self.old) (Collect max) (gave result)) self.old self.new }
        ensures left { LeavesLess result (left self.old) (left self.new) }
        ensures client { client self.new ≡ client self.old };

    /// Closes the session: its subscriptions and what waits for it are gone. It takes no memory. If the numbers of turns are used up, the desk has
    /// no open session after it all the same, and the router keeps the session.
    fn close(&mut self) -> Result<(), DeskFault>
        ensures made { Makes made (Does (client self.old) Close (done result)) self.old self.new }
        ensures client { client self.new ≡ client_after (client self.old) Close (done result) };

    /// No entries lead to the same desk.
    ghost made_nothing: { (desk : Self) → made desk [] desk };

    /// Entries, and then entries.
    ghost made_more: { (a b c : Self) (first more : List DeskEntry) → made a first b → made b more c → made a (first ++ more) c };
}
