//! What the program is asked to do.

use js_base::read_decimal;

/// What the program is asked to do.
#[derive(Clone, Copy, Debug)]
pub(crate) enum Job {
    /// Makes a log of so many records.
    Fill { records: u64 },
    /// Opens the log, and reads all its records.
    Open,
    /// Opens the volume as a store.
    Store,
    /// Opens or begins a log, and appends so many batches of so many bytes.
    Append { batches: u64, size: u32 },
    /// Makes room of one chunk in each of so many files, until there is none.
    Room { files: u32 },
    /// Cuts so many files to nothing.
    Clear { files: u32 },
    /// Writes so many pieces of so many bytes over the begin of the file, and syncs nothing.
    Write { batches: u64, size: u32 },
}

fn number(word: Option<String>) -> Option<u64> {
    read_decimal(word?.as_bytes()).ok()
}

fn size(word: Option<String>) -> Option<u32> {
    u32::try_from(number(word)?).ok()
}

impl Job {
    /// The job that the words name.
    pub(crate) fn read(name: &str, count: Option<String>, bytes: Option<String>) -> Option<Job> {
        match name {
            "open" => Some(Job::Open),
            "store" => Some(Job::Store),
            "fill" => Some(Job::Fill {
                records: number(count)?,
            }),
            "append" => Some(Job::Append {
                batches: number(count)?,
                size: size(bytes)?,
            }),
            "room" => Some(Job::Room {
                files: size(count)?,
            }),
            "clear" => Some(Job::Clear {
                files: size(count)?,
            }),
            "write" => Some(Job::Write {
                batches: number(count)?,
                size: size(bytes)?,
            }),
            _ => None,
        }
    }
}
