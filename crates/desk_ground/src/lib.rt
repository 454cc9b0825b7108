//! What the calls of a desk stand on, which is a router, a catalog and places as one caller has them, and what these calls share: the server's own
//! answers, and how a call on one stream ends.
#![tactic(auto)]

mod answering;
mod caller;
mod ground;
mod reason;
mod telling;

pub use answering::{end_call, let_go, unmade};
pub use caller::Caller;
pub use ground::Ground;
pub use reason::Reason;
pub use telling::{answer, answer_by, refuse, refuse_for, send_all};
