//! Where the batches of a log end.

ghost use Rattle.std.specs.Prelude.{◌≡◌, ◌==◌, if◌then◌else◌};

/// The offset of the first gate, which stands behind the head.
pub const FIRST_GATE: u64 = 20;

/// The offsets of the gates after the first open batch and after the last one, the first gate's if none is open.
#[derive(Clone, Copy, Debug)]
pub struct Ends {
    pub first: u64,
    pub last: u64,
}

impl Ends {
    /// No batch is open.
    pub fn none() -> Ends
        ensures value { result ≡ record { first = 20; last = 20 } }
    {
        Ends {
            first: FIRST_GATE,
            last: FIRST_GATE,
        }
    }

    /// With one open batch more, after which the gate stands here.
    pub fn before(self, gate: u64) -> Ends
        ensures value { result ≡ record { first = if self.last == 20 then gate else self.first; last = gate } }
    {
        let first = if self.last == FIRST_GATE {
            gate
        } else {
            self.first
        };
        Ends { first, last: gate }
    }
}
