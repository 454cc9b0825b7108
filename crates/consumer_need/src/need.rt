//! What retention asks of a consumer.

ghost use Rattle.std.specs.Prelude.{◌≡◌};
ghost use Rattle.js_model.specs.declared.consumer.Consumer.{Consumer};
ghost use Rattle.consumer_need.specs.Needs.{takes_subject, needs_at};

/// A consumer, as far as it decides which messages its stream keeps. No call takes memory.
pub trait Need {
    /// The consumer that is asked.
    ghost consumer: { Self → Consumer };

    /// Whether its filter matches the subject.
    fn takes(&self, subject: &[u8]) -> bool
        ensures value { result ≡ takes_subject (consumer self.now) subject.now };

    /// Whether it needs a message of this subject and this sequence.
    fn needs(&self, subject: &[u8], seq: u64) -> bool
        ensures value { result ≡ needs_at (consumer self.now) subject.now seq };
}
