//! The stream-and-consumer machine, the router and the catalog, as plain records and definitions over whole lists.
#![tactic(auto)]

mod ack;
mod catalog_fault;
mod consumer;
mod consumer_config;
mod consumer_copies;
mod copies;
mod desk;
mod entry;
mod event;
mod kept_place;
mod limits;
pub mod refusals;
mod reply;
mod route_fault;
mod stream;
mod stream_config;

pub use ack::{Ack, AckKind, Ask};
pub use catalog_fault::CatalogFault;
pub use consumer::{Consumer, Pending, Pull};
pub use consumer_config::{AckPolicy, ConsumerConfig, DeliverPolicy};
pub use consumer_copies::{copy_consumer, copy_pull};
pub use copies::{
    copy_consumer_config, copy_message, copy_messages, copy_stream_config, copy_texts,
};
pub use desk::{Collected, PlaceAt, Taken};
pub use entry::{Call, Delivered, Delivery, Listening, PlaceEntry};
pub use event::{Event, GetBy, Publish, Wants, What};
pub use kept_place::KeptPlace;
pub use limits::{INFOS_A_PAGE, LAST_PLACE, NAMES_A_PAGE, PLACES};
pub use reply::{Answer, ConsumerInfo, Info, Reply, StreamInfo, Verdict};
pub use route_fault::RouteFault;
pub use stream::{Id, Message, State, Stream};
pub use stream_config::{Discard, Retention, StreamConfig};
