//! The ids by which a stream knows that it has a message already: JetStream's duplicate window.
#![tactic(auto)]

mod fault;
mod known;
mod listing;
mod window;

pub use fault::WindowFault;
pub use window::DedupWindow;
