//! Faults of a JSON text.

use js_base::{Blob, NoMemory};
use std::alloc::AllocError;
use thiserror::Error;

/// Why bytes are no JSON object, or a field is not what it should be.
#[derive(Drop, Debug, PartialEq, Eq, Error)]
pub enum JsonFault {
    /// The bytes are no JSON text in UTF-8, or arrays and objects nest deeper than 127 in it.
    #[error("no JSON")]
    NotJson,
    /// The bytes are another JSON value than an object.
    #[error("no JSON object")]
    NotObject,
    /// The field with this name has another type, or is out of its range.
    #[error("field {} is wrong", text_of(.0))]
    BadField(Blob),
    /// Memory ran out.
    #[error("out of memory")]
    NoMemory,
}

/// The name as text.
fn text_of(name: &Blob) -> &str {
    std::str::from_utf8(name.as_slice()).unwrap_or("?")
}

impl From<NoMemory> for JsonFault {
    ghost use Rattle.std.specs.Prelude.{◌≡◌};
    ghost use Rattle.js_json.specs.declared.fault.JsonFault.TheVariants.{NoMemory as OutOfMemory};

    ghost from_gives = { λ _ fault. fault ≡ OutOfMemory };

    fn from(_refused: NoMemory) -> JsonFault {
        JsonFault::NoMemory
    }
}

impl From<AllocError> for JsonFault {
    ghost use Rattle.std.specs.Prelude.{◌≡◌};
    ghost use Rattle.js_json.specs.declared.fault.JsonFault.TheVariants.{NoMemory as OutOfMemory};

    ghost from_gives = { λ _ fault. fault ≡ OutOfMemory };

    fn from(_refused: AllocError) -> JsonFault {
        JsonFault::NoMemory
    }
}
