//! Why a record was not folded.

use js_base::NoMemory;
use thiserror::Error;

/// Why a record was not folded.
#[derive(Clone, Copy, Debug, PartialEq, Eq, Error)]
pub enum FoldFault {
    /// It does not fit. The field that is wrong begins so many bytes behind the record's first byte, its kind, where records are spelled; a record that may
    /// not stand there at all is wrong from its kind on.
    #[error("a field does not fit, {0} bytes behind the kind")]
    Misfit(usize),
    #[error("out of memory")]
    NoMemory,
}

impl From<NoMemory> for FoldFault {
    ghost use Rattle.std.specs.Prelude.{◌≡◌};
    ghost use Rattle.record_fold.specs.declared.fault.FoldFault.TheVariants.{NoMemory as OutOfMemory};

    ghost from_gives = { λ refused fault. fault ≡ OutOfMemory };

    fn from(_refused: NoMemory) -> FoldFault {
        FoldFault::NoMemory
    }
}
