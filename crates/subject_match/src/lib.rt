//! Subjects and patterns of NATS' subject-based messaging: which texts they are, and which of them match.
#![tactic(auto)]

mod check;
mod fault;
mod matching;
mod server_subject;
mod token;

pub use check::{check_pattern, check_subject, is_publish_subject};
pub use fault::SubjectFault;
pub use matching::{matches, overlaps};
pub use server_subject::{is_acknowledgement, is_api, is_stream_subject};
