//! What a router that many callers share rests on; no program calls it. The laws of its runs, in which only the seat that opened a session
//! makes calls for it.
#![tactic(auto)]

mod laws;

pub use laws::{law_answered, law_joined, law_openers, law_routes, law_stays};
