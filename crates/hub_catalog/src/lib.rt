//! The catalog of a hub, behind turns: what it stands for, a turn of it, and each look-up in a turn of its own.
#![tactic(auto)]

mod kind;
mod laws;
mod look;
mod made;
mod turn;

pub use kind::CatalogKind;
pub use laws::{law_opening, law_places};
pub use look::Look;
pub use turn::{OpenCatalog, look_up};
