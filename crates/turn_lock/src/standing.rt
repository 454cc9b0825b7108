//! What a value stands for.

ghost use Rattle.std.specs.Prelude.{List};
ghost use Rattle.histories.specs.Entries.{Entry, Opening};

/// Which histories are lawful. A type without fields has it.
pub trait Lawful {
    /// These entries may be a history, or a beginning of one, from that opening state.
    ghost lawful: { Opening → List Entry → Type 0 };
}

/// How values of `S` stand for histories.
pub trait Standing<S>: Lawful {
    /// The opening state in which a value is as it is handed to `Turns::new`.
    ghost opens: { S → Opening };

    /// The value is what these entries lead to from that opening state.
    ghost stands: { Opening → List Entry → S → Type 0 };

    /// Every list for which a value stands is lawful.
    ghost all_lawful: { (o : Opening) (entries : List Entry) (value : S) → stands o entries value → Self.lawful o entries };
}
