//! The texts of configurations, as a volume keeps them: each configuration has one, and each text is at most one configuration's.
#![tactic(auto)]

mod consumer;
mod laws;
mod lookup;
mod stream;

pub use consumer::{consumer_text, read_consumer_text};
pub use laws::law_texts;
pub use stream::{read_stream_text, stream_text};
