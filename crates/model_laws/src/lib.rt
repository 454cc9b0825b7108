//! What the server's runs rest on; no program calls it. The laws of the stream-and-consumer machine over whole runs.
#![tactic(auto)]

mod laws;

pub use laws::{
    law_acked, law_bounded, law_changes, law_duplicate, law_kept, law_limits, law_order, law_ready,
    law_redelivery, law_sound, law_taken, law_tick, law_writable,
};
