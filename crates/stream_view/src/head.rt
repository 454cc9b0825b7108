//! Messages without their header blocks and payloads.

ghost use Rattle.std.specs.Prelude.{◌≡◌, ◌^◌, ◌<◌};
ghost use Rattle.js_model.specs.Streams.{size};
ghost use Rattle.stream_view.specs.Heads.{head_of};

use js_base::{Blob, Moment};
use js_model::Message;
use std::marker::Model;

/// What is seen of a message.
#[derive(Drop)]
pub struct Head<'a> {
    pub seq: u64,
    pub at: Moment,
    pub subject: &'a Blob,
    /// What counts against `max_bytes`.
    pub size: u64,
}

impl<'a> Model for Head<'a> {
    ghost use Rattle.stream_view.specs.Heads.{MessageHead};

    ghost Value = { MessageHead };

    ghost view = { λ head. record { seq = head.seq; at = head.at; subject = head.subject.now; size = head.size } };
}

impl<'a> Head<'a> {
    /// What is seen of the message.
    pub fn of(message: &'a Message) -> Head<'a>
        requires small { size message.now < 2 ^ 64 }
        ensures value { result ≡ head_of message.now }
    {
        Head {
            seq: message.seq,
            at: message.at,
            subject: &message.subject,
            size: message.size() as u64,
        }
    }
}
