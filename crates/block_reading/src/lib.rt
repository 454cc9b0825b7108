//! Reading the messages in the blocks of a volume.
#![tactic(auto)]

mod bytes;
mod fault;
mod laws;
mod loading;
mod reading;

pub use fault::MessagesFault;
pub use laws::law_stored;
pub use reading::read_messages;
