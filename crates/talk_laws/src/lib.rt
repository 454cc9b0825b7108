//! What a talk rests on; no program calls it. The laws of the stream-and-consumer machine, of what a talk makes at each place.
#![tactic(auto)]

mod laws;

pub use laws::{
    law_opening, law_reply_read, law_talk_acked, law_talk_bounded, law_talk_confirmed,
    law_talk_duplicate, law_talk_kept, law_talk_limits, law_talk_order, law_talk_redelivery,
    law_talk_sound, law_talk_tick, law_talk_writable,
};
