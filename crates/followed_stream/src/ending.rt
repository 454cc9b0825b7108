//! Deliveries that an acknowledgement ends.

ghost use Rattle.std.specs.Prelude.{◌≡◌, false};
ghost use Rattle.js_model.specs.declared.stream.Message.{Message};
ghost use Rattle.js_model.specs.Acknowledge.{without};
ghost use Rattle.js_model.specs.Retention.{needs};
ghost use Rattle.consumer_state.specs.Ending.{ack_ends};
ghost use Rattle.followed_stream.specs.Asked.{ends_some};
ghost use Rattle.followed_stream.specs.Spans.{spans};

use crate::span::Span;
use consumer_state::{Consumer, law_ends_one};
use js_model::Ack;

/// What came of ending deliveries.
#[derive(Clone, Copy)]
pub(crate) struct Ended {
    /// Whether there were some.
    pub(crate) some: bool,
    /// What is outside it is needed as before.
    pub(crate) loose: Span,
}

/// Ends the deliveries that the acknowledgement ends. Outside the span the consumer needs the messages that it needed before. It takes no memory.
pub(crate) fn end_acked(consumer: &mut Consumer, ack: &Ack) -> Ended
    ensures value { consumer.new ≡ without (ack_ends consumer.old ack.now.seq ack.now.kind) consumer.old }
    ensures some { result.some ≡ ends_some (ack_ends consumer.old ack.now.seq ack.now.kind) consumer.old }
    ensures loose { (m : Message) → spans result.loose m.seq ≡ false → needs consumer.new m ≡ needs consumer.old m }
{
    law_ends_one();
    let mut some = false;
    let mut loose = Span::none();
    while let Some(seq) = consumer.end_next(ack) {
        some = true;
        loose = loose.join(Span::one(seq));
    }
    Ended { some, loose }
}
