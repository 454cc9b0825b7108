//! The server as a library: `run` does all that the program does for its command line, over any door, volumes, clock and sink.
#![tactic(auto)]

mod closing;
mod hub_serving;
pub mod laws;
mod listening;
mod mistakes;
mod preparing;
mod printing;
mod refusing;
mod running;
mod serving;
mod settings;
mod words;

pub use listening::{AcceptLimit, Listening};
pub use mistakes::{Mistake, USAGE, WrongWord};
pub use running::{Finish, run};
pub use settings::Verb;
pub use words::{Command, FolderPath, NamedStream, WordsFault, read_words};
