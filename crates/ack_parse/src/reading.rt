//! Acknowledgements as they are read.

ghost use Rattle.std.specs.Prelude.{◌≡◌, Ok, IfOk, IsTrue};
ghost use Rattle.js_base.specs.Names.{name_of};
ghost use Rattle.js_model.specs.Configs.{is_number};
ghost use Rattle.js_model.specs.Proper.{is_proper_kind};
ghost use Rattle.ack_parse.specs.Answers.{Reads};
ghost use Rattle.ack_parse.specs.Reading.{ack_of};

use crate::body::kind_of;
use crate::fault::AckFault;
use crate::subject::delivered_at;
use js_model::Ack;
use std::alloc::Global;

/// The acknowledgement that a publish to the subject is.
///
/// The subject is looked at first: `NotAck` if it has not nine tokens, of which the first two are `$JS` and `ACK`; then `BadToken` with the place of
/// the first token that is wrong, where two names and five decimals should stand. A body of no form is `BadBody`. The body is empty, `+ACK`,
/// `-NAK` with or without an object behind a space, `+WPI`, `+NXT` with or without a pull request behind a space, or `+TERM` with or without a
/// reason behind one.
#[tactic(auto, unfolding(crate::specs::Reading::ack_of))]
pub fn read_ack(alloc: Global, subject: &[u8], body: &[u8]) -> Result<Ack, AckFault>
    ensures reading { Reads result (ack_of subject.now body.now) }
    ensures names { IfOk result (λ ack. (name_of ack.stream ≡ Ok ack.stream) × (name_of ack.consumer ≡ Ok ack.consumer)) }
    ensures numbers { IfOk result (λ ack. IsTrue (is_number ack.seq) × IsTrue (is_proper_kind ack.kind)) }
{
    let delivered = delivered_at(alloc, subject)?;
    match kind_of(alloc, body)? {
        Some(kind) => Ok(Ack {
            stream: delivered.stream,
            consumer: delivered.consumer,
            seq: delivered.seq,
            kind,
        }),
        None => Err(AckFault::BadBody),
    }
}
