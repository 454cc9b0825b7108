//! The progress of a consumer.

ghost use Rattle.std.specs.Prelude.{◌≡◌, ℕ, ◌+◌, ◌-◌, ◌<◌, ◌^◌, ◌==◌, [], None, false, true, filter, find, length, map, nat_le, nat_lt, IfOk, IfSome, OnOk, OnErr};
ghost use Rattle.std.specs.List.{list_any};
ghost use Rattle.std.specs.Option.{option_map};
ghost use Rattle.js_base.specs.Bytes.{has, last_of};
ghost use Rattle.js_model.specs.Counts.{least};
ghost use Rattle.js_model.specs.Lists.{Between};
ghost use Rattle.timers.specs.Bounds.{IsTimerBound};
ghost use Rattle.timers.specs.Timers.{later};
ghost use Rattle.consumer_progress.specs.Progresses.{first_of, progress_of, is_held, seqs_of, IsProgress};
ghost use Rattle.consumer_progress.specs.Sending.{after_sent, count_in};
ghost use Rattle.consumer_progress.specs.Ending.{changes_due, ended, is_delivered, least_delivered, with_due, without, EndsOneUpTo};
ghost use Rattle.consumer_progress.specs.GivingUp.{is_due, is_spent, overflow_of, with_given_up, without_overflow, IsUnspent};

use crate::tables::{
    count_in, drop_seq, first_seq, has_seq, lesser, put_delivery, seq_from, table_of, table_with,
};
use js_base::{Moment, NoMemory};
use js_model::{Consumer, Pending};
use pending_table::PendingTable;
use std::alloc::Global;
use std::marker::Model;

/// How many sequences that are given up are kept.
const MOST_GIVEN_UP: u64 = 65_536;

/// What of a consumer's deliveries lasts. The cost of a call grows with the logarithm of how many sequences there are, if no other is said.
#[derive(Drop)]
pub struct ConsumerProgress {
    pub(crate) picks: PendingTable,
    cursor: u64,
    dseq: u64,
    pub(crate) pending: PendingTable,
    pub(crate) given_up: PendingTable,
}

impl Model for ConsumerProgress {
    ghost use Rattle.consumer_progress.specs.Progresses.{shown, IsProgress, Progress};

    ghost Value = { Progress };

    ghost view = { λ p. shown p.picks p.cursor p.dseq p.pending p.given_up };

    ghost invariant = { λ p. IsProgress (shown p.picks p.cursor p.dseq p.pending p.given_up) };
}

impl ConsumerProgress {
    /// Nothing was delivered: the picks, and all from the cursor on, are still to be.
    pub fn start(alloc: Global, picks: &[u64], cursor: u64) -> Result<ConsumerProgress, NoMemory>
        requires ascend { Between (λ n. n) 0 cursor picks.now }
        requires few { length picks.now < 2 ^ 32 }
        ensures value { IfOk result (λ p. p ≡ record { picks = picks.now; cursor = cursor; dseq = 0; pending = []; given_up = [] }) }
    {
        let picks = table_of(alloc, picks)?;
        Ok(ConsumerProgress {
            picks,
            cursor,
            dseq: 0,
            pending: PendingTable::new(alloc),
            given_up: PendingTable::new(alloc),
        })
    }

    /// The progress of a consumer that was kept.
    pub fn restore(alloc: Global, kept: &Consumer) -> Result<ConsumerProgress, NoMemory>
        requires kept { IsProgress (progress_of kept.now) }
        ensures value { IfOk result (λ p. p ≡ progress_of kept.now) }
    {
        let picks = table_of(alloc, kept.picks.as_slice())?;
        let pending = table_with(alloc, kept.pending.as_slice())?;
        let given_up = table_of(alloc, kept.given_up.as_slice())?;
        Ok(ConsumerProgress {
            picks,
            cursor: kept.cursor,
            dseq: kept.dseq,
            pending,
            given_up,
        })
    }

    /// The sequence from which on messages are still to be delivered.
    pub fn cursor(&self) -> u64
        ensures value { result ≡ self.now.cursor }
        ensures progress { IsProgress self.now }
    {
        self.cursor
    }

    /// The last consumer sequence, 0 before the first delivery.
    pub fn dseq(&self) -> u64
        ensures value { result ≡ self.now.dseq }
    {
        self.dseq
    }

    /// The least pick.
    pub fn first_pick(&self) -> Option<u64>
        ensures value { result ≡ first_of self.now.picks }
        ensures progress { IsProgress self.now }
    {
        first_seq(&self.picks)
    }

    /// Whether the sequence is a pick.
    pub fn has_pick(&self, seq: u64) -> bool
        ensures value { result ≡ has self.now.picks seq }
    {
        has_seq(&self.picks, seq)
    }

    /// Whether the sequence is a pick, waits for its acknowledgement or is given up.
    pub fn is_held(&self, seq: u64) -> bool
        ensures value { result ≡ is_held self.now seq }
    {
        has_seq(&self.picks, seq) || has_seq(&self.pending, seq) || has_seq(&self.given_up, seq)
    }

    /// How many deliveries wait for their acknowledgement.
    pub fn ack_pending(&self) -> u64
        ensures value { result ≡ length self.now.pending }
        ensures bound { result < 2 ^ 32 }
    {
        self.pending.len()
    }

    /// How many of them were made more than once.
    pub fn redelivered(&self) -> u64
        ensures value { result ≡ length (filter (λ e. nat_lt 1 e.count) self.now.pending) }
    {
        self.pending.again()
    }

    /// The sequence up to which nothing waits and nothing is given up, of those below the cursor.
    pub fn floor(&self) -> u64
        ensures value { result ≡ least (seqs_of self.now.pending) self.now.given_up self.now.cursor - 1 }
    {
        let least = self.least_delivered().unwrap_or(self.cursor);
        least.saturating_sub(1)
    }

    /// The least sequence that waits or is given up.
    fn least_delivered(&self) -> Option<u64>
        ensures value { result ≡ least_delivered self.now }
        ensures progress { IsProgress self.now }
    {
        lesser(first_seq(&self.pending), first_seq(&self.given_up))
    }

    /// How often the sequence was delivered, 0 if it does not wait.
    pub fn count_of(&self, seq: u64) -> u64
        ensures value { result ≡ count_in self.now.pending seq }
    {
        count_in(&self.pending, seq)
    }

    /// Whether `set_due` would change anything: the delivery of the sequence waits, and is due at another moment.
    pub fn changes_due(&self, seq: u64, due: Moment) -> bool
        ensures value { result ≡ changes_due seq due self.now.pending }
    {
        match self.pending.get(seq) {
            Some(told) => told.1.as_nanos() != due.as_nanos(),
            None => false,
        }
    }

    /// The first delivery that waits, from a sequence on.
    pub fn waiting_from(&self, seq: u64) -> Option<Pending>
        ensures value { result ≡ find (λ e. nat_le seq e.seq) self.now.pending }
        ensures progress { IsProgress self.now }
    {
        self.pending.at_or_after(seq)
    }

    /// The least pick from a sequence on.
    pub fn pick_from(&self, seq: u64) -> Option<u64>
        ensures value { result ≡ find (nat_le seq) self.now.picks }
        ensures progress { IsProgress self.now }
    {
        seq_from(&self.picks, seq)
    }

    /// Whether a delivery that is due at the moment was made as often as it may be; `None` is no limit.
    pub fn has_spent(&self, now: Moment, most: Option<u64>) -> bool
        ensures value { result ≡ list_any (is_spent now most) self.now.pending }
    {
        match most {
            Some(most) => self.pending.has_spent(now, most),
            None => false,
        }
    }

    /// The least sequence that waits, is due at the moment and was delivered fewer times than it may be; `None` is no limit.
    pub fn due(&self, now: Moment, most: Option<u64>) -> Option<u64>
        requires unspent { IsUnspent now most self.now.pending }
        ensures value { result ≡ option_map (λ e. e.seq) (find (is_due now most) self.now.pending) }
        ensures progress { IsProgress self.now }
    {
        self.pending.due(now)
    }

    /// A moment after this one, before which no delivery that waits becomes due but those that are due by then; `None` only if all are due. If `look_ahead`
    /// was called for this moment, it looks at no delivery; else it costs what that does.
    pub fn next_timer(&self, now: Moment) -> Option<Moment>
        ensures bound { IsTimerBound (later now (map (λ e. e.due) self.now.pending)) result }
        ensures after { IfSome result (λ next. now < next) }
    {
        self.pending.next_after(now)
    }

    /// Sees to it that `next_timer` looks at no delivery, for this moment and those before the next one at which a delivery becomes due. It takes no memory,
    /// and its cost grows with the number of stretches of deliveries that are due and of deliveries that are not.
    pub fn look_ahead(&mut self, now: Moment)
        ensures same { self.new ≡ self.old }
    {
        self.pending.look_ahead(now);
    }

    /// Notes that the sequence was delivered: it is no pick any more and lies below the cursor. It waits until the moment, if there is one. An `Err`
    /// changes nothing; it comes if memory runs out, or if 2^32 - 1 sequences wait or are given up.
    pub fn sent(&mut self, seq: u64, due: Option<Moment>) -> Result<(), NoMemory>
        requires not_given_up { has self.old.given_up seq ≡ false }
        requires seq { seq + 1 < 2 ^ 64 }
        requires dseq { self.old.dseq + 1 < 2 ^ 64 }
        ensures ok { OnOk result (self.new ≡ after_sent seq due self.old) }
        ensures err { OnErr result (self.new ≡ self.old) }
    {
        put_delivery(&mut self.pending, self.given_up.len(), seq, due)?;
        drop_seq(&mut self.picks, seq);
        self.cursor = self.cursor.max(seq + 1);
        self.dseq += 1;
        Ok(())
    }

    /// Ends the delivery of the sequence, if it waits or is given up, and tells whether it did. It takes no memory.
    pub fn end(&mut self, seq: u64) -> bool
        ensures was { result ≡ is_delivered self.old seq }
        ensures value { self.new ≡ ended (λ n. n == seq) self.old }
    {
        let waited = drop_seq(&mut self.pending, seq);
        let given_up = drop_seq(&mut self.given_up, seq);
        waited || given_up
    }

    /// Ends one delivery up to the sequence that waits or is given up, and tells which. `None` if there is none. It takes no memory.
    pub fn end_one_up_to(&mut self, seq: u64) -> Option<u64>
        ensures value { EndsOneUpTo seq self.old result self.new }
    {
        let least = self.least_delivered()?;
        if seq < least {
            return None;
        }
        self.end(least);
        Some(least)
    }

    /// Makes the delivery of the sequence due at the moment, if it waits. It takes no memory.
    pub fn set_due(&mut self, seq: u64, due: Moment)
        ensures value { self.new ≡ with_due seq due self.old }
    {
        self.pending.set_due(seq, due);
    }

    /// Forgets a sequence whose message is gone. It takes no memory.
    pub fn forget(&mut self, gone: u64)
        ensures value { self.new ≡ without gone self.old }
    {
        drop_seq(&mut self.picks, gone);
        drop_seq(&mut self.pending, gone);
        drop_seq(&mut self.given_up, gone);
    }

    /// Gives up all deliveries that are due at the moment and were made as often as they may be. It takes no memory, and its cost grows with their
    /// number. More than 65,536 may then be given up, until `overflow` gives `None`.
    pub fn give_up(&mut self, now: Moment, most: Option<u64>)
        ensures value { self.new ≡ with_given_up now most self.old }
    {
        let Some(most) = most else {
            return;
        };
        while self.give_one_up(now, most) {}
    }

    /// Gives up the first delivery that is due at the moment and was made this often, and tells whether there was one.
    fn give_one_up(&mut self, now: Moment, most: u64) -> bool
        ensures same { with_given_up now (Some most) self.new ≡ with_given_up now (Some most) self.old }
        ensures fewer { result ≡ true → length self.new.pending < length self.old.pending }
        ensures none { result ≡ false → with_given_up now (Some most) self.new ≡ self.new }
    {
        self.pending.move_spent(now, most, &mut self.given_up)
    }

    /// Takes out the least sequence that is given up, if more than 65,536 are, and tells it. It takes no memory.
    pub fn overflow(&mut self) -> Option<u64>
        ensures value { result ≡ overflow_of self.old }
        ensures left { self.new ≡ without_overflow self.old }
        ensures greatest { last_of 65536 self.new.given_up ≡ last_of 65536 self.old.given_up }
        ensures all { result ≡ None → last_of 65536 self.new.given_up ≡ self.new.given_up }
    {
        if self.given_up.len() <= MOST_GIVEN_UP {
            return None;
        }
        let least = first_seq(&self.given_up)?;
        drop_seq(&mut self.given_up, least);
        Some(least)
    }
}
