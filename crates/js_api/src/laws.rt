//! What the entries of a desk are, by the definitions alone.

ghost use Rattle.js_api.specs.Machines.{LawRuns};

/// The entries that lead a desk of one caller from one state to another are a run of its router, a run of its catalog and, for each of its
/// places against whose store no more messages counted at first than stood there, a run of the stream-and-consumer machine.
pub fn law_runs()
    ensures law { LawRuns }
{}
