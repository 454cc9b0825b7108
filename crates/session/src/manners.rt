//! How a session speaks with its client and keeps the connection alive, and whether it lets time pass.

ghost use Rattle.std.specs.Prelude.{◌≡◌, ◌<◌, [], ◌∷◌, ◌++◌, length};
ghost use Rattle.session.specs.Keeping.{has_passed, is_ping_due, is_stale};
ghost use Rattle.session.specs.Manners.{moments};

use js_base::Moment;

/// How long nothing may come before a PING is written, and how long after the first PING a second one is: 120 seconds, in nanoseconds.
const PATIENCE: u64 = 120_000_000_000;

/// How long the first of two PINGs may go unanswered: 240 seconds.
const LONG_PATIENCE: u64 = 240_000_000_000;

/// The PINGs that the client has not answered, by their moments.
#[derive(Clone, Copy)]
pub(crate) enum Pings {
    Answered,
    One(Moment),
    Two(Moment, Moment),
}

/// How the session speaks with its client, and whether it lets time pass.
#[derive(Clone, Copy)]
pub(crate) struct Manners {
    /// Whether operations are answered by `+OK`.
    pub(crate) verbose: bool,
    /// Whether a wrong subject of a publish is told.
    pub(crate) pedantic: bool,
    pub(crate) pings: Pings,
    /// Whether the session lets time pass behind each turn. It is so from its start to its end.
    pub(crate) ticks: bool,
}

/// Whether so many nanoseconds passed from the one moment to the other. If the moment so much later is past the last one, this is the last one.
fn has_passed(span: u64, from: Moment, now: Moment) -> bool
    ensures value { result ≡ has_passed span from now }
{
    from.plus(span).as_nanos() <= now.as_nanos()
}

impl Pings {
    /// Whether a PING is due, if something came last at this moment.
    pub(crate) fn is_due(self, came: Moment, now: Moment) -> bool
        ensures value { result ≡ is_ping_due came (moments self) now }
    {
        match self {
            Pings::Answered => has_passed(PATIENCE, came, now),
            Pings::One(first) => has_passed(PATIENCE, first, now),
            Pings::Two(_, _) => false,
        }
    }

    /// Whether two PINGs are unanswered for too long.
    pub(crate) fn is_stale(self, now: Moment) -> bool
        ensures value { result ≡ is_stale (moments self) now }
    {
        match self {
            Pings::Two(first, _) => has_passed(LONG_PATIENCE, first, now),
            Pings::Answered | Pings::One(_) => false,
        }
    }

    /// One more PING, written at this moment. There are never more than two.
    pub(crate) fn with_one(self, now: Moment) -> Pings
        requires few { length (moments self) < 2 }
        ensures value { moments result ≡ moments self ++ now ∷ [] }
    {
        match self {
            Pings::Answered => Pings::One(now),
            Pings::One(first) => Pings::Two(first, now),
            Pings::Two(_, _) => unreachable!(),
        }
    }
}
