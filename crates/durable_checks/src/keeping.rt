//! Whether the retention of a stream keeps each of its messages.

ghost use Rattle.std.specs.Prelude.{◌≡◌, All};
ghost use Rattle.std.specs.List.{list_all, list_any};
ghost use Rattle.js_model.specs.Retention.{is_kept, needs};
ghost use Rattle.js_model.specs.Streams.{takes};
ghost use Rattle.durable_checks.specs.Parts.{AreAscending};

use crate::matching::passes;
use crate::sequences::{is_entry, is_in};
use js_model::{Consumer, Message, Retention};

/// Whether a consumer needs a message: its filter matches, and the message is still to be delivered, waits for an acknowledgement or was given up.
fn needs(consumer: &Consumer, message: &Message) -> bool
    requires ascending { AreAscending consumer.now }
    ensures value { result ≡ needs consumer.now message.now }
{
    let seq = message.seq;
    passes(&consumer.config.filter_subject, &message.subject)
        && (is_in(consumer.picks.as_slice(), seq)
            || consumer.cursor <= seq
            || is_entry(consumer.pending.as_slice(), seq)
            || is_in(consumer.given_up.as_slice(), seq))
}

/// Whether one of the consumers needs a message.
fn is_needed(consumers: &[Consumer], message: &Message) -> bool
    requires ascending { All AreAscending consumers.now }
    ensures value { result ≡ list_any (λ c. needs c message.now) consumers.now }
{
    for consumer in consumers {
        if needs(consumer, message) {
            return true;
        }
    }
    false
}

/// Whether the filter of one of the consumers matches a message.
fn is_taken(consumers: &[Consumer], message: &Message) -> bool
    ensures value { result ≡ list_any (λ c. takes c message.now) consumers.now }
{
    consumers.iter().any(|consumer| passes(&consumer.config.filter_subject, &message.subject))
}

/// Whether the retention keeps a message.
fn is_kept(policy: Retention, consumers: &[Consumer], message: &Message) -> bool
    requires ascending { All AreAscending consumers.now }
    ensures value { result ≡ is_kept policy consumers.now message.now }
{
    match policy {
        Retention::Limits => true,
        Retention::Interest => is_needed(consumers, message),
        Retention::WorkQueue => is_needed(consumers, message) || !is_taken(consumers, message),
    }
}

/// Whether the retention keeps each of the messages.
pub(crate) fn are_kept(policy: Retention, consumers: &[Consumer], messages: &[Message]) -> bool
    requires ascending { All AreAscending consumers.now }
    ensures value { result ≡ list_all (is_kept policy consumers.now) messages.now }
{
    for message in messages {
        if !is_kept(policy, consumers, message) {
            return false;
        }
    }
    true
}
