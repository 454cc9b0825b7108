//! How much a volume may hold, and of which numbers.

ghost use Rattle.std.specs.Prelude.{◌≡◌};
ghost use Rattle.std.specs.List.{list_all};
ghost use Rattle.js_model.specs.Configs.{is_number};
ghost use Rattle.js_model.specs.declared.stream.State.TheVariants.{Live};
ghost use Rattle.model_laws.specs.BoundTests.{is_bounded_message, is_bounded_id, is_bounded_entry, is_bounded_consumer, is_bounded};
ghost use Rattle.effects.specs.Durables.{stream_of};
ghost use Rattle.durable_checks.specs.Parts.{are_numbers};

use effects::Body;
use js_base::Moment;
use js_model::{Consumer, Id, Message, Pending};

/// The end of the numbers.
const NUMBERS_END: u64 = 1 << 62;

const MOST_MESSAGES: usize = 1 << 24;

const MOST_IDS: usize = 1 << 20;

const MOST_ID_BYTES: usize = 256;

const MOST_CONSUMERS: usize = 256;

/// How many sequences a consumer keeps of each kind: picks, those that wait for an acknowledgement, and those that were given up.
const MOST_SEQUENCES: usize = 65_536;

/// Whether it is a number of a volume.
pub(crate) fn is_number(n: u64) -> bool
    ensures value { result ≡ is_number n }
{
    n < NUMBERS_END
}

/// Whether it is a number of a volume, as each moment is.
fn is_moment(moment: Moment) -> bool
    ensures value { result ≡ is_number moment }
{
    is_number(moment.as_nanos())
}

fn is_bounded_message(message: &Message) -> bool
    ensures value { result ≡ is_bounded_message message.now }
{
    is_number(message.seq) && is_moment(message.at)
}

fn are_bounded_messages(messages: &[Message]) -> bool
    ensures value { result ≡ list_all is_bounded_message messages.now }
{
    messages.iter().all(|message| is_bounded_message(message))
}

fn is_bounded_id(known: &Id) -> bool
    ensures value { result ≡ is_bounded_id known.now }
{
    !known.id.is_empty()
        && known.id.len() <= MOST_ID_BYTES
        && is_number(known.seq)
        && is_moment(known.at)
}

fn are_bounded_ids(ids: &[Id]) -> bool
    ensures value { result ≡ list_all is_bounded_id ids.now }
{
    ids.iter().all(|known| is_bounded_id(known))
}

fn is_bounded_entry(entry: &Pending) -> bool
    ensures value { result ≡ is_bounded_entry entry.now }
{
    is_number(entry.count) && is_moment(entry.due)
}

fn are_bounded_entries(entries: &[Pending]) -> bool
    ensures value { result ≡ list_all is_bounded_entry entries.now }
{
    entries.iter().all(|entry| is_bounded_entry(entry))
}

fn is_bounded_consumer(consumer: &Consumer) -> bool
    ensures value { result ≡ is_bounded_consumer consumer.now }
{
    is_moment(consumer.made)
        && consumer.cursor <= NUMBERS_END
        && is_number(consumer.dseq)
        && consumer.picks.len() <= MOST_SEQUENCES
        && consumer.pending.len() <= MOST_SEQUENCES
        && are_bounded_entries(consumer.pending.as_slice())
        && consumer.given_up.len() <= MOST_SEQUENCES
}

fn are_bounded_consumers(consumers: &[Consumer]) -> bool
    ensures value { result ≡ list_all is_bounded_consumer consumers.now }
{
    consumers
        .iter()
        .all(|consumer| is_bounded_consumer(consumer))
}

/// Whether the stream's own numbers are those of a volume.
fn are_numbers(incarnation: u64, body: &Body) -> bool
    ensures value { result ≡ are_numbers incarnation body.now }
{
    is_number(incarnation) && is_moment(body.made) && is_number(body.last) && is_moment(body.moment)
}

/// Whether a volume may hold so much, and these numbers.
pub(crate) fn is_bounded(incarnation: u64, body: &Body) -> bool
    ensures value { result ≡ is_bounded (Live (stream_of incarnation body.now)) }
{
    are_numbers(incarnation, body)
        && body.messages.len() <= MOST_MESSAGES
        && are_bounded_messages(body.messages.as_slice())
        && body.ids.len() <= MOST_IDS
        && are_bounded_ids(body.ids.as_slice())
        && body.consumers.len() <= MOST_CONSUMERS
        && are_bounded_consumers(body.consumers.as_slice())
}
