//! The calls of the JetStream API: which subjects are calls, and what is read of their bodies.
#![tactic(auto)]

mod call;
mod consumer_call;
mod consumers;
mod fault;
mod field;
pub mod laws;
mod listing;
mod messages;
mod name;
mod reading;
mod request;

pub use fault::ApiFault;
pub use name::call_name;
pub use reading::read_request;
pub use request::ApiRequest;
