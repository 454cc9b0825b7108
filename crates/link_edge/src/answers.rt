//! What the outside answers.

use js_base::List;

/// How a link answers a take.
#[derive(Clone, Copy, Debug, PartialEq, Eq)]
pub enum Take {
    /// So many bytes are at the start of the room: at least one, and no more than there is room for.
    Got(usize),
    /// Nothing has come yet.
    Quiet,
    /// Nothing more will come.
    Ended,
    /// The connection failed, and its count of faults rose.
    Failed,
    /// Memory ran out.
    NoMemory,
}

/// How a link answers a give.
#[derive(Clone, Copy, Debug, PartialEq, Eq)]
pub enum Give {
    /// So many of the first bytes were given, at least one.
    Gave(usize),
    /// The connection failed, and its count of faults rose.
    Failed,
    /// Memory ran out.
    NoMemory,
}

/// How a door answers an accept.
#[derive(Drop, Debug)]
pub enum Accept<L> {
    /// A connection came.
    Got(L),
    /// No connection has come yet.
    Quiet,
    /// No more connections will come.
    Closed,
    /// The door failed, and its count of faults rose.
    Failed,
    /// Memory ran out.
    NoMemory,
}

/// How a sink answers a put.
#[derive(Clone, Copy, Debug, PartialEq, Eq)]
pub enum Put {
    /// All of the piece was written.
    Done,
    /// The sink failed after it wrote a prefix of the piece, perhaps an empty one, and its count of faults rose.
    Failed,
}

/// An answer of a take, as it is remembered. One that memory ran out is not remembered.
#[derive(Drop, Debug)]
pub enum Answer {
    /// These bytes were got.
    Piece(List<u8>),
    Quiet,
    Ended,
    Failed,
}

/// An answer of an accept, as it is remembered. One that memory ran out is not remembered.
#[derive(Clone, Copy, Debug, PartialEq, Eq)]
pub enum Accepted {
    Got,
    Quiet,
    Closed,
    Failed,
}
