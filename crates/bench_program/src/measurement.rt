//! What a run measures.

use js_base::read_decimal;

/// What is measured, and the length of the pieces of input, in bytes. With length 0 the input is only read.
#[derive(Clone, Copy)]
pub(crate) enum Measurement {
    /// The decoder alone.
    Decode { size: usize },
    /// A whole session.
    Path { size: usize },
}

impl Measurement {
    /// The measurement that the two words `decode SIZE` or `path SIZE` ask for; `None` for any others.
    pub(crate) fn read(name: &[u8], size: &[u8]) -> Option<Measurement> {
        let size = usize::try_from(read_decimal(size).ok()?).ok()?;
        if name == b"decode".as_slice() {
            Some(Measurement::Decode { size })
        } else if name == b"path".as_slice() {
            Some(Measurement::Path { size })
        } else {
            None
        }
    }
}
