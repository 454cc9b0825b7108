//! The sessions that are open, each under a number of its own.

ghost use Rattle.std.specs.Prelude.{◌≡◌, [], ◌∷◌, ◌++◌, filter, not, position, OnOk, OnErr};
ghost use Rattle.std.specs.List.{list_any};
ghost use Rattle.js_model.specs.Router.{new_session, is_session};
ghost use Rattle.route_core.specs.Sessions.{InOrder, is_publisher_open, takes_headers, is_deaf_in, deaf_of, with_first, set_options};

use crate::session::Session;
use js_base::NoMemory;

/// Whether a session of this number is open.
pub(crate) fn is_open(sessions: &[Session], number: u64) -> bool
    requires numbered { InOrder sessions.now }
    ensures value { result ≡ list_any (is_session number) sessions.now }
{
    place_of(sessions, number).is_some()
}

/// Whether a message may be published: if a session does it, that session has to be open.
pub(crate) fn is_publisher_open(sessions: &[Session], from: Option<u64>) -> bool
    requires numbered { InOrder sessions.now }
    ensures value { result ≡ is_publisher_open sessions.now from }
{
    match from {
        Some(number) => is_open(sessions, number),
        None => true,
    }
}

/// The place of the session of this number.
pub(crate) fn place_of(sessions: &[Session], number: u64) -> Option<usize>
    requires numbered { InOrder sessions.now }
    ensures value { result ≡ position (is_session number) sessions.now }
{
    sessions
        .binary_search_by_key(&number, |session| session.number())
        .ok()
}

/// Whether the session of this number takes header blocks.
pub(crate) fn takes_headers(sessions: &[Session], number: u64) -> bool
    requires numbered { InOrder sessions.now }
    ensures value { result ≡ takes_headers sessions.now number }
{
    match place_of(sessions, number) {
        Some(at) => sessions[at].takes_headers(number),
        None => false,
    }
}

/// Whether the session of this number is deaf to itself.
fn is_deaf(sessions: &[Session], number: u64) -> bool
    requires numbered { InOrder sessions.now }
    ensures value { result ≡ is_deaf_in sessions.now number }
{
    match place_of(sessions, number) {
        Some(at) => sessions[at].is_deaf(number),
        None => false,
    }
}

/// The publisher, if it does not hear itself.
pub(crate) fn deaf_of(sessions: &[Session], from: Option<u64>) -> Option<u64>
    requires numbered { InOrder sessions.now }
    ensures value { result ≡ deaf_of sessions.now from }
{
    let number = from?;
    is_deaf(sessions, number).then_some(number)
}

/// Adds a new session of this number at the end. An `Err` adds none.
pub(crate) fn add_session(sessions: &mut Vec<Session>, number: u64) -> Result<(), NoMemory>
    ensures ok { OnOk result (sessions.new.items ≡ sessions.old.items ++ new_session number ∷ []) }
    ensures err { OnErr result (sessions.new.items ≡ sessions.old.items) }
{
    let session = Session::new(*sessions.allocator(), number);
    sessions.push(session)?;
    Ok(())
}

/// Sets the options of the session of this number.
pub(crate) fn set_options(sessions: &mut [Session], number: u64, echo: bool, headers: bool)
    requires numbered { InOrder sessions.old }
    ensures value { sessions.new ≡ with_first (is_session number) (set_options echo headers) sessions.old }
{
    if let Some(at) = place_of(sessions, number) {
        let session = &mut sessions[at];
        session.set_options(echo, headers);
    }
}

/// Takes the session of this number out.
pub(crate) fn remove_session(sessions: &mut Vec<Session>, number: u64)
    ensures left { sessions.new.items ≡ filter (λ session. not (is_session number session)) sessions.old.items }
{
    sessions.retain(|session| !session.is(number));
}
