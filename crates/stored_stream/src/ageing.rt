//! Messages that are too old.

ghost use Rattle.std.specs.Prelude.{◌≡◌, None, Some, nat_lt, option_map, if◌then◌else◌, ◌++◌, IfNone, IfSome, IsSome};
ghost use Rattle.js_base.specs.Moments.{plus};
ghost use Rattle.js_model.specs.Advance.{young};
ghost use Rattle.js_model.specs.Counts.{first_message};
ghost use Rattle.js_model.specs.Events.{message_at};
ghost use Rattle.timers.specs.Bounds.{IsTimerBound};
ghost use Rattle.timers.specs.Timers.{age_timers, id_timers};
ghost use Rattle.stored_stream.specs.Stored.{IsSound, without};

use crate::stored::StoredStream;
use js_base::Moment;
use js_model::Message;
use stream_view::View;
use timer_bounds::earlier;

/// The sequence of the first message, if by a moment it is too old, by JetStream's `max_age`. If it is not, no message is.
pub fn first_old(stream: &StoredStream, now: Moment) -> Option<u64>
    requires sound { IsSound stream.now }
    ensures there { IfSome result (λ seq. IsSome (message_at stream.now seq)) }
    ensures first { IfSome result (λ seq. option_map (λ m. m.seq) (first_message stream.now.messages) ≡ Some seq) }
    ensures old { IfSome result (λ seq. young (without seq stream.now) now ≡ young stream.now now) }
    ensures none { IfNone result (young stream.now now ≡ stream.now.messages) }
{
    let max_age = stream.config().max_age;
    if max_age == 0 {
        return None;
    }
    match stream.first() {
        Some(first) => if_old(first, max_age, now),
        None => None,
    }
}

impl StoredStream {
    /// A moment before which no message is too old, by `max_age`, and no id leaves the duplicate window; `None` only if neither ever comes. It looks at one
    /// message and one id.
    pub fn next_timer(&self) -> Option<Moment>
        ensures bound { IsTimerBound (age_timers self.now ++ id_timers self.now) result }
    {
        earlier(self.next_age(), self.ids.next_timer())
    }

    /// The moment at which the first message is too old.
    fn next_age(&self) -> Option<Moment>
        ensures bound { IsTimerBound (age_timers self.now) result }
    {
        let max_age = self.config.max_age;
        if max_age == 0 {
            return None;
        }
        let first = self.first()?;
        Some(first.at.plus(max_age))
    }
}

/// The sequence of a message, if that many nanoseconds have passed since it was stored.
fn if_old(message: &Message, age: u64, now: Moment) -> Option<u64>
    ensures value { result ≡ (if nat_lt now (plus message.now.at age) then None else Some message.now.seq) }
{
    if is_young(message, age, now) {
        None
    } else {
        Some(message.seq)
    }
}

/// Whether fewer nanoseconds than that have passed since the message was stored.
pub(crate) fn is_young(message: &Message, age: u64, now: Moment) -> bool
    ensures value { result ≡ nat_lt now (plus message.now.at age) }
{
    now.as_nanos() < message.at.plus(age).as_nanos()
}
