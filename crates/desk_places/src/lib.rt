//! What the desk of one caller and that of many share: their places, opened on volumes, cataloged and closed, and the turn that a call is in.
#![tactic(auto)]

mod cataloging;
mod closing;
mod faults;
mod held;
mod turn;
mod volumes;

pub use cataloging::{Uncataloged, catalog_of};
pub use closing::close_places;
pub use faults::{Closed, HubFault, desk_answer, sent};
pub use held::{is_drop, is_dropped, last_of, place_or};
pub use turn::Turn;
pub use volumes::{give_back, open_places};
