//! A lock whose turns go by tickets, round a value that stands for a history: what a caller has seen of it is always a lawful beginning of it.
#![tactic(auto)]

mod closing;
mod fault;
mod held;
mod kept;
mod making;
mod meeting;
mod noted;
mod plays;
mod rule;
mod seat;
mod sight;
mod standing;
mod turning;
mod turns;

pub use fault::TurnFault;
pub use held::{Held, InTurn};
pub use noted::{Entries, Fits, Noted, Notes};
pub use seat::Seat;
pub use standing::{Lawful, Standing};
pub use turns::Turns;
