//! The answers of the JetStream API and to publishes, and their texts.
#![tactic(auto)]

mod consumer;
mod message;
mod printing;
mod pub_ack;
mod refusal;
mod reply;
mod stream_info;

pub use printing::reply_text;
pub use pub_ack::publish_text;
pub use reply::ApiReply;
