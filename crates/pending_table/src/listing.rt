//! The entries of a table in lists.

ghost use Rattle.std.specs.Prelude.{◌≡◌, ◌++◌, map, IfOk, OnOk};
ghost use Rattle.pending_table.specs.Trees.{entries};

use crate::table::PendingTable;
use crate::tree::Tree;
use js_base::{List, NoMemory};
use js_model::Pending;

impl PendingTable {
    /// The entries in the order of their sequences. Its cost grows with their number.
    pub fn to_list(&self) -> Result<List<Pending>, NoMemory>
        ensures value { IfOk result (λ listed. listed ≡ self.now) }
    {
        let mut listed = List::new(self.alloc);
        self.tree.list(&mut listed)?;
        Ok(listed)
    }

    /// Their sequences, ascending. Its cost grows with their number.
    pub fn seqs(&self) -> Result<List<u64>, NoMemory>
        ensures value { IfOk result (λ seqs. seqs ≡ map (λ p. p.seq) self.now) }
    {
        let mut seqs = List::new(self.alloc);
        self.tree.list_seqs(&mut seqs)?;
        Ok(seqs)
    }
}

impl Tree {
    /// Adds the entries to a list. An `Err` may have added some.
    fn list(&self, into: &mut List<Pending>) -> Result<(), NoMemory>
        ensures ok { OnOk result (into.new ≡ into.old ++ entries self.now) }
    {
        let Tree::Fork(fork) = self else {
            return Ok(());
        };
        fork.left.list(into)?;
        into.push(fork.entry)?;
        fork.right.list(into)
    }

    /// Adds their sequences to a list. An `Err` may have added some.
    fn list_seqs(&self, into: &mut List<u64>) -> Result<(), NoMemory>
        ensures ok { OnOk result (into.new ≡ into.old ++ map (λ p. p.seq) (entries self.now)) }
    {
        let Tree::Fork(fork) = self else {
            return Ok(());
        };
        fork.left.list_seqs(into)?;
        into.push(fork.entry.seq)?;
        fork.right.list_seqs(into)
    }
}
