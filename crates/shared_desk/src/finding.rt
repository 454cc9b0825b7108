//! What stands in places as they are opened.

ghost use Rattle.std.specs.Prelude.{◌≡◌, ◌≤◌, length};
ghost use Rattle.shared_desk.specs.Finding.{messages_of, streams_of};

use place_engine::Place;

/// How many streams and messages there are in places.
#[derive(Clone, Copy)]
pub struct Tally {
    pub streams: u64,
    pub messages: u64,
}

impl Tally {
    /// What stands in these places.
    pub fn of<P: Place>(places: &[P]) -> Tally
        requires few { length places.now ≤ 32 }
        ensures streams { result.streams ≡ streams_of P.seen places.now }
        ensures messages { result.messages ≡ messages_of P.seen places.now }
    {
        Tally {
            streams: count_streams(places),
            messages: count_messages(places),
        }
    }
}

/// How many of the places have a stream.
fn count_streams<P: Place>(places: &[P]) -> u64
    requires few { length places.now ≤ 32 }
    ensures value { result ≡ streams_of P.seen places.now }
{
    let mut count = 0;
    for place in places {
        if place.name().is_some() {
            count += 1;
        }
    }
    count
}

/// How many messages their streams hold together.
fn count_messages<P: Place>(places: &[P]) -> u64
    requires few { length places.now ≤ 32 }
    ensures value { result ≡ messages_of P.seen places.now }
{
    let mut count = 0;
    for place in places {
        count += place.messages();
    }
    count
}
