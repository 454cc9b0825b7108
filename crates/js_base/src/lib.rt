//! What every crate of the server shares: bytes, names, moments, numbers, and what the server sends.
#![tactic(auto)]

mod big_endian;
mod blank;
mod blob;
mod decimal;
mod frame;
mod frame_length;
pub mod laws;
mod list;
mod memory;
mod moment;
mod name;
mod out;
mod spot;
mod writing;

pub use big_endian::{get_u16, get_u32, get_u64, put_u16, put_u32, put_u64};
pub use blank::is_blank;
pub use blob::Blob;
pub use decimal::{DecFault, read_decimal};
pub use frame::Frame;
pub use frame_length::{decimal_len, message_len};
pub use list::List;
pub use memory::NoMemory;
pub use moment::Moment;
pub use name::{Name, NameFault};
pub use out::{ApiError, Out, Outs};
pub use spot::Spot;
pub use writing::{put_bytes, put_decimal};
