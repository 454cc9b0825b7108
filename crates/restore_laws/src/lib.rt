//! What a stream on a volume is restored to, and what it is restored from; no program calls it.
#![tactic(auto)]

mod laws;

pub use laws::{law_held, law_restorable, law_restored, law_storable};
