//! A client's message, by its subject: a call of the JetStream API is read and handed to the crate that carries it out, and any other message is
//! published.
#![tactic(auto)]

mod api;
mod publishing;

pub use publishing::publish;
