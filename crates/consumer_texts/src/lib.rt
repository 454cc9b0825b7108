//! What a consumer sends: its deliveries, and the status messages to its pulls and to its listeners.
#![tactic(auto)]

mod appending;
mod beats;
mod delivery;
mod endings;
mod laws;
mod refusals;
mod status;

pub use appending::append;
pub use beats::{pull_beat, push_beat, timeout};
pub use delivery::{Sending, delivery_out};
pub use endings::{emptied, farewell, too_small};
pub use laws::law_delivery;
pub use refusals::{bad_request, exceeded_waiting, push_based};
pub use status::status_out;
