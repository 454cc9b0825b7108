//! The records of a volume's log: they are read from bytes, and written.
#![tactic(auto)]

mod blocks;
mod fault;
mod kinds;
mod laws;
mod puts;
mod reader;
mod reading;
mod record;
mod writing;

pub use blocks::{message_end, message_len, read_message, write_message};
pub use fault::RecordFault;
pub use laws::{law_block_messages, law_records};
pub use puts::{
    put_consumer_config, put_kind, put_name, put_numbers, put_spot, put_stream_config, put_text,
    put_two,
};
pub use reader::Reader;
pub use reading::{read_record, read_records};
pub use record::Record;
pub use writing::{write_effect, write_record, write_vacant};
