//! What a desk answers, as values: the message that tells what a stream replied or why a call is refused, pages of lists, the sums of an account,
//! and the block `NATS/1.0 503`. Nothing here holds a router, a catalog or a place.
#![tactic(auto)]

mod account;
mod answering;
mod consumer_answers;
mod copying;
mod ordering;
mod paging;
mod replying;
mod untaken;

pub use account::account_reply;
pub use answering::answer_of;
pub use copying::{copy_by, copy_reply};
pub use paging::{list_reply, names_reply};
pub use replying::{answer_outs, publish_refusal};
pub use untaken::{NOBODY, untaken_outs};
