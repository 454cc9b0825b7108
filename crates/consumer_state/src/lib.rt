//! A consumer: what it has delivered, what waits for its acknowledgement, and who asks for more.
#![tactic(auto)]

mod acking;
mod before;
mod consumer;
mod delivering;
mod fault;
mod lasting;
mod laws;
mod making;
mod offering;
mod passing;
mod pulling;
mod unread;

pub use consumer::Consumer;
pub use fault::MakeFault;
pub use laws::{
    law_acknowledged, law_at, law_before_ending, law_ends_one, law_overflow, law_passed,
    law_queue_checks,
};
pub use making::policy_refusal;
