//! JSON objects, read by typed fields and made member by member, over `serde_json`; and the texts of times, over `jiff`.
#![tactic(auto)]

mod fault;
mod fields;
mod kinds;
pub mod laws;
mod object_builder;
mod time;

pub use fault::JsonFault;
pub use fields::{Fields, object};
pub use object_builder::{ObjectBuilder, text_values};
pub use time::time_text;
