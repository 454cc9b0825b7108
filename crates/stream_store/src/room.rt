//! Where there is a place for a message.

ghost use Rattle.std.specs.Prelude.{◌≡◌, ◌+◌, ◌<◌, ◌^◌, IfSome, IsTrue, None, Some, if◌then◌else◌, length};
ghost use Rattle.std.specs.List.{list_all};
ghost use Rattle.op_records.specs.Allowed.{is_record};
ghost use Rattle.stream_store.specs.Placing.{IsMessageSpot, placing_then, spot_behind};

use block_table::{BlockTable, Placing};
use effects::Effect;
use js_base::{Blob, Spot};

/// How many bytes a message takes in a block besides its subject, header block and payload.
const FIXED_BYTES: usize = 30;

/// How many bytes a message of these parts takes in a block.
pub fn message_len(subject: &Blob, headers: &Blob, payload: &Blob) -> u32
    requires short { length subject.now + length headers.now + length payload.now < 2 ^ 31 }
    ensures value { result ≡ 30 + (length subject.now + length headers.now + length payload.now) }
{
    (FIXED_BYTES + subject.len() + headers.len() + payload.len()) as u32
}

/// Places the message of a change, if it stores one, and tells whether there is a place.
fn place_effect(placing: &mut Placing, table: &BlockTable, effect: &Effect) -> bool
    requires allowed { IsTrue (is_record effect.now) }
    ensures value { placing_then table.now placing.old effect.now ≡ (if result then Some placing.new else None) }
{
    match effect {
        Effect::PutHere {
            subject,
            headers,
            payload,
            ..
        } => {
            let len = message_len(subject, headers, payload);
            placing.place(table, len).is_some()
        }
        Effect::MakeStream { .. } | Effect::DropStream => {
            placing.restart();
            true
        }
        _ => true,
    }
}

/// Where a message of so many bytes goes behind these changes, if there is a place.
pub(crate) fn spot_in(table: &BlockTable, tail: &[Effect], len: u32) -> Option<Spot>
    requires records { IsTrue (list_all is_record tail.now) }
    ensures value { result ≡ spot_behind table.now tail.now len }
    ensures spot { IfSome result IsMessageSpot }
{
    // that the blocks of a table are behind the logs is what the proof takes from this call
    let _ = table.older();
    let mut placing = table.placing();
    for effect in tail {
        if !place_effect(&mut placing, table, effect) {
            return None;
        }
    }
    placing.place(table, len)
}
