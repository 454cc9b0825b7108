//! A consumer that the records of a log change.

ghost use Rattle.std.specs.Prelude.{◌≡◌, ◌==◌, ◌<◌, ◌≤◌, false, length, not, true, IfOk, IfSome, OnErr, OnOk, Some};
ghost use Rattle.std.specs.Bool.{OnTrue};
ghost use Rattle.std.specs.List.{list_any};
ghost use Rattle.js_model.specs.Acknowledge.{with_due, without};
ghost use Rattle.js_model.specs.Lists.{Between};
ghost use Rattle.js_model.specs.Streams.{is_unacknowledged};
ghost use Rattle.effects.specs.Folding.{consumer_from, delivered_to, holding, with_given_up};
ghost use Rattle.effects.specs.Ranges.{is_within};
ghost use Rattle.replayed_consumer.specs.Replayed.{IsReplayable};
ghost use Rattle.replayed_consumer.specs.Delivering.{has_room, CanDeliver};
ghost use Rattle.replayed_consumer.specs.GivingUp.{with_greatest, without_spent};
ghost use Rattle.replayed_consumer.specs.Storable.{Keeps, KeepsOutside, KeepsStart, KeepsWith};

use crate::tables::{drop_range, drop_seq, has_seq, pop_first, put_waiting, table_of, table_with};
use js_base::{Blob, List, Moment, NoMemory};
use js_model::{AckPolicy, Consumer, ConsumerConfig, Pending};
use pending_table::PendingTable;
use std::alloc::Global;
use std::marker::Model;

/// How many deliveries wait for their acknowledgement at most.
const MOST_PENDING: u64 = 65_536;

/// How many sequences that are given up are kept.
const MOST_GIVEN_UP: u64 = 65_536;

/// A consumer as the records of a log have made it so far. The cost of a call grows with the logarithm of how many sequences it holds, if no other is
/// said.
#[derive(Drop)]
pub struct ReplayedConsumer {
    name: Blob,
    made: Moment,
    config: ConsumerConfig,
    cursor: u64,
    dseq: u64,
    picks: PendingTable,
    pending: PendingTable,
    given_up: PendingTable,
}

impl Model for ReplayedConsumer {
    ghost use Rattle.js_model.specs.declared.consumer.Consumer.{Consumer};
    ghost use Rattle.replayed_consumer.specs.Replayed.{shown, IsReplayable};

    ghost Value = { Consumer };

    ghost view = { λ c. shown c.name c.made c.config c.cursor c.dseq c.picks c.pending c.given_up };

    ghost invariant = { λ c. IsReplayable (shown c.name c.made c.config c.cursor c.dseq c.picks c.pending c.given_up) };
}

impl ReplayedConsumer {
    /// The consumer as it was stored. Its cost grows with the number of its sequences.
    pub fn of(alloc: Global, consumer: Consumer) -> Result<ReplayedConsumer, NoMemory>
        requires replayable { IsReplayable consumer }
        ensures value { IfOk result (λ c. c ≡ consumer) }
    {
        let picks = table_of(alloc, consumer.picks.as_slice())?;
        let pending = table_with(alloc, consumer.pending.as_slice())?;
        let given_up = table_of(alloc, consumer.given_up.as_slice())?;
        Ok(ReplayedConsumer {
            name: consumer.name,
            made: consumer.made,
            config: consumer.config,
            cursor: consumer.cursor,
            dseq: consumer.dseq,
            picks,
            pending,
            given_up,
        })
    }

    /// A consumer to which nothing was delivered: the picks, and all from the cursor on, are still to be. Its cost grows with the number of picks.
    pub fn start(
        alloc: Global,
        name: Blob,
        made: Moment,
        config: ConsumerConfig,
        cursor: u64,
        picks: &[u64],
    ) -> Result<ReplayedConsumer, NoMemory>
        requires ascend { Between (λ n. n) 0 cursor picks.now }
        requires few { length picks.now ≤ 65536 }
        ensures value { IfOk result (λ c. c ≡ consumer_from name made config cursor picks.now) }
        ensures keeps { IfOk result (λ c. KeepsStart name made config cursor picks.now c) }
    {
        let picks = table_of(alloc, picks)?;
        Ok(ReplayedConsumer {
            name,
            made,
            config,
            cursor,
            dseq: 0,
            picks,
            pending: PendingTable::new(alloc),
            given_up: PendingTable::new(alloc),
        })
    }

    /// The consumer with its sequences in lists. Its cost grows with their number.
    pub fn into_consumer(self, alloc: Global) -> Result<Consumer, NoMemory>
        ensures value { IfOk result (λ c. c ≡ self) }
    {
        let picks = self.picks.seqs()?;
        let pending = self.pending.to_list()?;
        let given_up = self.given_up.seqs()?;
        Ok(Consumer {
            name: self.name,
            made: self.made,
            config: self.config,
            picks,
            cursor: self.cursor,
            dseq: self.dseq,
            pending,
            given_up,
            waiting: List::new(alloc),
            mark: self.made,
        })
    }

    /// Its name.
    pub fn name(&self) -> &Blob
        ensures value { result.now ≡ self.now.name }
    {
        &self.name
    }

    /// Forgets the sequences of a range, from the one up to the other. It takes no memory, and its cost grows with how many of them it holds.
    pub fn forget(&mut self, low: u64, high: u64)
        ensures value { self.new ≡ holding (λ n. not (is_within low high n)) self.old }
        ensures keeps { KeepsOutside low high self.old self.new }
    {
        drop_range(&mut self.picks, low, high);
        drop_range(&mut self.pending, low, high);
        drop_range(&mut self.given_up, low, high);
    }

    /// Ends the deliveries of a range of sequences, and those that were given up. It takes no memory, and its cost grows with how many of them it holds.
    pub fn end(&mut self, low: u64, high: u64)
        ensures value { self.new ≡ without (is_within low high) self.old }
        ensures keeps { Keeps self.old self.new }
    {
        drop_range(&mut self.pending, low, high);
        drop_range(&mut self.given_up, low, high);
    }

    /// Whether a delivery with this consumer sequence can be made.
    pub fn takes_delivery(&self, entry: Pending, dseq: u64) -> bool
        ensures can { OnTrue result (CanDeliver self.now entry dseq) }
    {
        self.dseq.checked_add(1) == Some(dseq)
            && dseq < 1 << 62
            && entry.seq < 1 << 62
            && 1 <= entry.count
            && entry.count <= dseq
            && self.may_deliver_again(entry.count)
            && !has_seq(&self.given_up, entry.seq)
            && self.has_room(entry.seq)
    }

    /// Whether a message may be delivered this often.
    fn may_deliver_again(&self, count: u64) -> bool
        ensures within { OnTrue result (IfSome self.now.config.max_deliver (λ limit. count ≤ limit)) }
    {
        match self.config.max_deliver {
            Some(limit) => count <= limit,
            None => true,
        }
    }

    /// Whether its deliveries wait for no acknowledgement.
    fn is_unacknowledged(&self) -> bool
        ensures value { result ≡ is_unacknowledged self.now }
    {
        match self.config.ack_policy {
            AckPolicy::None => true,
            AckPolicy::All | AckPolicy::Explicit => false,
        }
    }

    /// Whether a delivery of the sequence may wait.
    fn has_room(&self, seq: u64) -> bool
        ensures value { result ≡ has_room self.now seq }
    {
        self.is_unacknowledged()
            || has_seq(&self.pending, seq)
            || (self.pending.len() < MOST_PENDING && self.given_up.len() <= MOST_GIVEN_UP)
    }

    /// Notes a delivery: the sequence is no pick any more and lies below the cursor, and it waits for its acknowledgement. An `Err` changes nothing.
    pub fn deliver(&mut self, entry: Pending, dseq: u64) -> Result<(), NoMemory>
        requires can { CanDeliver self.old entry dseq }
        ensures ok { OnOk result (self.new ≡ delivered_to entry dseq self.old) }
        ensures keeps { OnOk result (KeepsWith entry.seq self.old self.new) }
        ensures err { OnErr result (self.new ≡ self.old) }
    {
        let seq = entry.seq;
        let is_unacknowledged = self.is_unacknowledged();
        put_waiting(&mut self.pending, entry, is_unacknowledged)?;
        drop_seq(&mut self.picks, seq);
        self.cursor = self.cursor.max(seq + 1);
        self.dseq = dseq;
        Ok(())
    }

    /// Whether a delivery of the sequence waits, so that its due moment can be set.
    pub fn takes_due(&self, seq: u64) -> bool
        ensures value { result ≡ list_any (λ p. p.seq == seq) self.now.pending }
    {
        has_seq(&self.pending, seq)
    }

    /// Makes the delivery of the sequence due at the moment, if it waits. It takes no memory.
    pub fn set_due(&mut self, seq: u64, due: Moment)
        ensures value { self.new ≡ with_due seq due self.old }
        ensures keeps { Keeps self.old self.new }
    {
        // A moment is below 2^62.
        let _ = due.as_nanos();
        self.pending.set_due(seq, due);
    }

    /// Gives up all deliveries that are due at the moment and were made as often as they may be, and keeps the greatest 65,536 sequences that are
    /// given up. It takes no memory, and its cost grows with how many are given up.
    pub fn give_up(&mut self, moment: Moment)
        ensures value { self.new ≡ with_given_up moment self.old }
        ensures keeps { Keeps self.old self.new }
    {
        let most = self.max_deliver();
        self.give_up_spent(moment, most);
        self.keep_greatest();
    }

    /// How often a message may be delivered; `None` is no limit.
    fn max_deliver(&self) -> Option<u64>
        ensures value { result ≡ self.now.config.max_deliver }
    {
        self.config.max_deliver
    }

    /// Gives up all deliveries that are due at the moment and were made this often; `None` gives up none.
    fn give_up_spent(&mut self, moment: Moment, most: Option<u64>)
        ensures value { self.new ≡ without_spent moment most self.old }
    {
        let Some(most) = most else {
            return;
        };
        while self.give_one_up(moment, most) {}
    }

    /// Gives up the first delivery that is due at the moment and was made this often, and tells whether there was one.
    fn give_one_up(&mut self, moment: Moment, most: u64) -> bool
        ensures same { without_spent moment (Some most) self.new ≡ without_spent moment (Some most) self.old }
        ensures fewer { result ≡ true → length self.new.pending < length self.old.pending }
        ensures none { result ≡ false → without_spent moment (Some most) self.new ≡ self.new }
    {
        self.pending.move_spent(moment, most, &mut self.given_up)
    }

    /// Keeps the greatest 65,536 sequences that are given up.
    fn keep_greatest(&mut self)
        ensures value { self.new ≡ with_greatest self.old }
    {
        while self.drop_least() {}
    }

    /// Takes out the least sequence that is given up, if there are more than 65,536, and tells whether there are.
    fn drop_least(&mut self) -> bool
        ensures same { with_greatest self.new ≡ with_greatest self.old }
        ensures fewer { result ≡ true → length self.new.given_up < length self.old.given_up }
        ensures none { result ≡ false → with_greatest self.new ≡ self.new }
    {
        if self.given_up.len() <= MOST_GIVEN_UP {
            return false;
        }
        pop_first(&mut self.given_up);
        true
    }
}
