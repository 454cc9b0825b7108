//! How many places there may be, and how long a page of a list is.

/// How many places there may be, and so how many streams.
pub const PLACES: u32 = 32;

/// The number of the last place. The first one is 0.
pub const LAST_PLACE: u32 = PLACES - 1;

/// How many names one answer of the JetStream API lists at most.
pub const NAMES_A_PAGE: u64 = 1024;

/// How many informations one answer of the JetStream API lists at most.
pub const INFOS_A_PAGE: u64 = 256;
