//! Configurations of consumers: they are read from the fields of a JSON object, and printed.
#![tactic(auto)]

mod fault;
mod judging;
mod laws;
mod lookup;
mod printing;
mod reading;
mod refusals;
mod rule;
mod table;

pub use fault::ConfigFault;
pub use judging::check_fields;
pub use laws::{law_printable, law_printed_read};
pub use printing::print;
pub use reading::read;
