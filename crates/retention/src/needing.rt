//! Which messages a stream still keeps.

ghost use Rattle.std.specs.Prelude.{◌≡◌, map};
ghost use Rattle.std.specs.List.{list_any};
ghost use Rattle.js_model.specs.declared.stream.Message.{Message};
ghost use Rattle.js_model.specs.Retention.{is_kept};
ghost use Rattle.consumer_need.specs.Needs.{needs_at, takes_subject};

use consumer_need::Need;
use js_model::Retention;

/// Whether the retention keeps a message of this subject and this sequence, by JetStream's retention policies. It asks each of the consumers.
pub fn is_kept<N: Need>(policy: Retention, consumers: &[N], subject: &[u8], seq: u64) -> bool
    ensures value { (m : Message) → m.subject ≡ subject.now → m.seq ≡ seq → result ≡ is_kept policy (map N.consumer consumers.now) m }
{
    match policy {
        Retention::Limits => true,
        Retention::Interest => needed(consumers, subject, seq),
        Retention::WorkQueue => needed(consumers, subject, seq) || !is_taken(consumers, subject),
    }
}

/// Whether one of the consumers needs the message of this subject and this sequence. It asks each of them until one does.
pub fn needed<N: Need>(consumers: &[N], subject: &[u8], seq: u64) -> bool
    ensures value { result ≡ list_any (λ n. needs_at (N.consumer n) subject.now seq) consumers.now }
{
    consumers
        .iter()
        .any(|consumer| consumer.needs(subject, seq))
}

/// Whether the filter of one of them matches the subject.
fn is_taken<N: Need>(consumers: &[N], subject: &[u8]) -> bool
    ensures value { result ≡ list_any (λ n. takes_subject (N.consumer n) subject.now) consumers.now }
{
    consumers.iter().any(|consumer| consumer.takes(subject))
}
