//! What only clauses read.

ghost use Rattle.std.specs.Prelude.{◌≡◌};
ghost use base.Fml.{ftrue};

use histories::Past;
use std::marker::{Model, PhantomData};

/// A `T` as clauses see it. It has no bytes.
pub struct Noted<T> {
    marker: PhantomData<T>,
    pub ghost value: { T },
}

impl<T> Model for Noted<T> {
    ghost also_owns = { λ _. ftrue };
}

/// What a caller notes of a value. A type without fields has it.
pub trait Notes<T, U> {
    ghost note: { T → U };
}

/// What may be noted of a value. A type without fields has it.
pub trait Fits<T, U> {
    ghost fits: { T → U → Type 0 };
}

impl<U> Noted<U> {
    /// What `M` notes of the value.
    pub fn of<T, M: Notes<T, U>>(x: &T) -> Noted<U>
        ensures value { result.value ≡ M.note x.now }
    {
        let _ = x;
        Noted {
            marker: PhantomData,
        }
    }

    /// Something that fits the value, as `M` has it, where it is known that there is such a thing.
    pub fn some<T, M: Fits<T, U>>(x: &T) -> Noted<U>
        requires some { (u : U) × M.fits x.now u }
        ensures fits { M.fits x.now result.value }
    {
        let _ = x;
        Noted {
            marker: PhantomData,
        }
    }
}

impl<T> Drop for Noted<T> {
    fn drop(self) {
        let Self { marker: _ } = self;
    }
}

unsafe impl<T> Send for Noted<T> {}

/// A list of entries, which a caller notes of what it did. It has no bytes.
pub type Entries = Noted<Past>;
