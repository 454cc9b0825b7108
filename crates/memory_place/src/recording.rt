//! The records of single events and deliveries.

ghost use Rattle.std.specs.Prelude.{◌≡◌, None, Some, if◌then◌else◌, IfOk};
ghost use Rattle.effects.specs.Effects.{first_ended};
ghost use Rattle.effects.specs.declared.effect.Effect.TheVariants.{ChangeStream, DropConsumer, PutHere, Skip};
ghost use Rattle.memory_place.specs.Recording.{acked_effect, sent_effect, first_ended_by};

use effects::Effect;
use js_base::{Blob, Moment, NoMemory};
use js_model::{Ack, AckKind, AckPolicy, Delivered, Message, Publish, StreamConfig};

/// The message of a publish, under a sequence and at a moment.
pub(crate) fn message_of(publish: &Publish, seq: u64, at: Moment) -> Result<Message, NoMemory>
    ensures value { IfOk result (λ m. m ≡ record { seq = seq; at = at; subject = publish.now.subject; headers = publish.now.headers; payload = publish.now.payload }) }
{
    Ok(Message {
        seq,
        at,
        subject: publish.subject.clone()?,
        headers: publish.headers.clone()?,
        payload: publish.payload.clone()?,
    })
}

/// The record of a message that was given its sequence, and is kept or not.
pub(crate) fn put_effect(message: Message, id: Blob, is_kept: bool) -> Effect
    ensures value { result ≡ (if is_kept then PutHere message.seq message.at id message.subject message.headers message.payload else Skip message.seq message.at id) }
{
    let Message {
        seq,
        at,
        subject,
        headers,
        payload,
    } = message;
    if is_kept {
        Effect::PutHere {
            seq,
            at,
            id,
            subject,
            headers,
            payload,
        }
    } else {
        Effect::Skip { seq, at, id }
    }
}

/// The record of another configuration, if it is another.
pub(crate) fn change_effect(config: StreamConfig, is_same: bool) -> Option<Effect>
    ensures value { result ≡ (if is_same then None else Some (ChangeStream config)) }
{
    if is_same {
        None
    } else {
        Some(Effect::ChangeStream { config })
    }
}

/// The record of a consumer that is dropped, if it is there.
pub(crate) fn drop_effect(name: Blob, is_there: bool) -> Option<Effect>
    ensures value { result ≡ (if is_there then Some (DropConsumer name) else None) }
{
    if is_there {
        Some(Effect::DropConsumer { name })
    } else {
        None
    }
}

/// The record of an acknowledgement to the consumer of a name: a delivery ended, or one that waits is due at another moment.
pub(crate) fn ack_effect(
    name: Blob,
    policy: AckPolicy,
    ack: &Ack,
    ended: bool,
    due: Option<Moment>,
) -> Option<Effect>
    ensures value { result ≡ acked_effect name policy ack.now.seq ack.now.kind ended due }
{
    let seq = ack.seq;
    if ended {
        let low = first_ended(policy, ack);
        return Some(Effect::Acked {
            name,
            low,
            high: seq,
        });
    }
    let due = due?;
    Some(Effect::Due { name, seq, due })
}

/// The least sequence that an acknowledgement may end.
fn first_ended(policy: AckPolicy, ack: &Ack) -> u64
    ensures value { result ≡ first_ended_by policy ack.now.seq ack.now.kind }
{
    match (&ack.kind, policy) {
        (AckKind::Ack | AckKind::Next(_), AckPolicy::All) => 1,
        _ => ack.seq,
    }
}

/// The record of a delivery to the consumer of a name, if a message was sent.
pub(crate) fn sent_effect(name: Blob, what: Delivered, due: Moment) -> Option<Effect>
    ensures value { result ≡ sent_effect name what due }
{
    match what {
        Delivered::Sent { seq, count, dseq } => Some(Effect::Deliver {
            name,
            seq,
            count,
            due,
            dseq,
        }),
        Delivered::TooSmall | Delivered::Emptied => None,
    }
}
