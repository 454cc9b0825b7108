//! Which entries are asked for.

ghost use Rattle.std.specs.Prelude.{◌≡◌};
ghost use Rattle.pending_table.specs.Asked.{passes};

use js_base::Moment;
use js_model::Pending;

#[derive(Clone, Copy)]
pub(crate) enum Asked {
    /// Due at the moment.
    Due(Moment),
    /// Due at the moment, with this count.
    Spent(Moment, u64),
}

impl Asked {
    /// Whether the entry is one of those.
    pub(crate) fn passes(&self, entry: &Pending) -> bool
        ensures value { result ≡ passes self.now entry.now }
    {
        match self {
            Asked::Due(now) => entry.due.as_nanos() <= now.as_nanos(),
            Asked::Spent(now, max) => {
                entry.due.as_nanos() <= now.as_nanos() && entry.count == *max
            }
        }
    }
}
