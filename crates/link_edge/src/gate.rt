//! Where a worker may be held.

/// A gate lets each worker pass in the program. In tests it holds one, so that another comes first.
pub trait Gate {
    /// A worker passes: with the call 2k before it serves its link number k, counted from 0, and with
    /// 2k + 1 after that. It is not promised when it returns.
    fn pass(&self, worker: u32, call: u64);
}
