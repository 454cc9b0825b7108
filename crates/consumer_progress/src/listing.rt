//! What lasts of a consumer's deliveries, in lists.

ghost use Rattle.std.specs.Prelude.{◌≡◌, IfOk};

use crate::progress::ConsumerProgress;
use js_base::{List, NoMemory};
use js_model::Pending;

impl ConsumerProgress {
    /// The sequences below the cursor that are still to be delivered, in their order. Its cost grows with their number.
    pub fn picks(&self) -> Result<List<u64>, NoMemory>
        ensures value { IfOk result (λ picks. picks ≡ self.now.picks) }
    {
        self.picks.seqs()
    }

    /// The deliveries that wait for their acknowledgement, in the order of their sequences. Its cost grows with their number.
    pub fn pending(&self) -> Result<List<Pending>, NoMemory>
        ensures value { IfOk result (λ pending. pending ≡ self.now.pending) }
    {
        self.pending.to_list()
    }

    /// The sequences that are given up, in their order. Its cost grows with their number.
    pub fn given_up(&self) -> Result<List<u64>, NoMemory>
        ensures value { IfOk result (λ given_up. given_up ≡ self.now.given_up) }
    {
        self.given_up.seqs()
    }
}
