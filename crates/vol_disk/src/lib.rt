//! Volumes of numbered files, with what a crash may leave of them: a trait with a meaning, and a form in
//! memory that has every image and tells each call that was made on it, and one over a folder.
#![tactic(auto)]

mod call;
mod dir_vol;
mod drafts;
mod failed;
mod folder;
mod held;
mod hold_vol;
mod mem_file;
mod mem_vol;
mod room;
mod span;
mod synced;
mod vol;

pub use call::{Call, Deed};
pub use dir_vol::DirVol;
pub use failed::Failed;
pub use hold_vol::HoldVol;
pub use mem_vol::MemVol;
pub use room::{Room, make_room, whole_chunks};
pub use span::Span;
pub use synced::{cut_synced, write_synced};
pub use vol::Vol;
