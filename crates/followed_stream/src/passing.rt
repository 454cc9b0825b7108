//! Time that passes for a consumer.

ghost use Rattle.std.specs.Prelude.{◌≡◌, false};
ghost use Rattle.js_model.specs.declared.stream.Message.{Message};
ghost use Rattle.js_model.specs.Advance.{consumer_at};
ghost use Rattle.js_model.specs.Retention.{needs};
ghost use Rattle.followed_stream.specs.Delivering.{IsCurrentAt};
ghost use Rattle.followed_stream.specs.Spans.{spans};

use crate::span::Span;
use consumer_state::{Consumer, law_overflow, law_passed};
use js_base::Moment;

/// Lets time pass up to a moment. Gives a span outside which the consumer needs the messages that it needed before: of those that are given up, the
/// least go if there are too many. It takes no memory.
pub(crate) fn pass_time(consumer: &mut Consumer, now: Moment) -> Span
    ensures value { consumer.new ≡ consumer_at now consumer.old }
    ensures loose { (m : Message) → spans result m.seq ≡ false → needs consumer.new m ≡ needs consumer.old m }
    ensures current { IsCurrentAt now consumer.new }
{
    law_passed();
    law_overflow();
    consumer.advance(now);
    let mut loose = Span::none();
    while let Some(seq) = consumer.overflow() {
        loose = loose.join(Span::one(seq));
    }
    loose
}
