//! The calls of the JetStream API on streams, their consumers and the account, and the making of the stream that the command line names.
#![tactic(auto)]

mod account;
mod asking;
mod changing;
mod consumers;
mod creating;
mod deleting;
mod freeing;
mod listing;
mod making;
mod refusing;
mod walking;

pub use account::show_account;
pub use asking::{erase_message, purge_stream, read_message, show_stream};
pub use changing::update_stream;
pub use consumers::{drop_consumer, list_consumers, make_consumer, name_consumers, show_consumer};
pub use creating::create_stream;
pub use deleting::delete_stream;
pub use listing::{list_names, list_streams};
pub use making::make_stream;
