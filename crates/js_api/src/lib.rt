//! What a session asks of the server, and what that makes of its router, its catalog and its streams.
#![tactic(auto)]

mod desk;
mod fault;
pub mod laws;
mod outcome;

pub use api_calls::ApiCall;
pub use api_replies::{ApiReply, publish_text, reply_text};
pub use api_requests::{ApiFault, ApiRequest, call_name, read_request};
pub use desk::Desk;
pub use fault::DeskFault;
pub use outcome::{Became, Outcome};
