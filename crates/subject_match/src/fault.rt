//! What is wrong with a text that should be a subject or a pattern.

use thiserror::Error;

/// Why a text is no subject, or no pattern. Places count bytes from 0.
#[derive(Clone, Copy, Debug, PartialEq, Eq, Error)]
pub enum SubjectFault {
    /// A token without bytes, at the place where it would begin.
    #[error("an empty token at {0}")]
    EmptyToken(usize),
    /// A control byte, a blank, DEL, or the first byte that breaks UTF-8.
    #[error("a byte at {0} that may not stand in a subject")]
    BadByte(usize),
    /// More than 1,024 bytes.
    #[error("longer than 1,024 bytes")]
    TooLong,
    /// A wildcard that may not stand there: in a subject any, in a pattern a `>` before the last token.
    #[error("a wildcard at {0}")]
    Wildcard(usize),
}
