//! Messages that are stored, removed and read.

ghost use Rattle.std.specs.Prelude.{◌≡◌, ◌≤◌, ◌<◌, ◌+◌, [], true, Option, length, IfOk, IfSome, IsTrue, IsUtf8, OnErr, OnOk};
ghost use Rattle.std.specs.Option.{option_copied};
ghost use Rattle.js_base.specs.Bytes.{Bytes};
ghost use Rattle.js_model.specs.declared.reply.Verdict.TheVariants.{Take};
ghost use Rattle.js_model.specs.declared.stream.State.TheVariants.{Live};
ghost use Rattle.js_model.specs.Events.{deleted, message_at, message_by, message_told, published, purge_list, purged, settled, with_message};
ghost use Rattle.js_model.specs.Proper.{is_proper_publish};
ghost use Rattle.js_model.specs.Verdict.{verdict};
ghost use Rattle.effects.specs.Effects.{live_effects, settle_effects};
ghost use Rattle.place_engine.specs.Shown.{IsShown, IsShownVerdict};
ghost use Rattle.memory_place.specs.Answers.{ActsQuietly};
ghost use Rattle.memory_place.specs.Recording.{own_then};
ghost use Rattle.place_records.specs.Records.{IsFreshOwn};
ghost use Rattle.stream_state.specs.Removing.{HasRoom, HasRoomForOne};

use crate::live_stream::LiveStream;
use crate::recording::{message_of, put_effect};
use js_base::NoMemory;
use js_model::refusals::no_message;
use js_model::{GetBy, Message, Publish, Reply, Verdict, What, copy_message};
use place_records::OwnRecords;
use stream_state::StreamState;
use stream_view::View;

impl LiveStream {
    /// What it says to a publish at its moment, if there is room for it.
    pub fn verdict(&self, publish: &Publish) -> Result<Verdict, NoMemory>
        requires told { IfSome publish.now.wants.bad IsUtf8 }
        ensures value { IfOk result (λ said. said ≡ verdict self.now publish.now true) }
        ensures shown { IfOk result IsShownVerdict }
    {
        verdict(&self.state, publish)
    }

    /// Stores a message, if it is to be taken. An `Err` changes nothing.
    pub(crate) fn publish(
        &mut self,
        publish: &Publish,
        own: &mut OwnRecords,
    ) -> Result<Reply, NoMemory>
        requires told { IfSome publish.now.wants.bad IsUtf8 }
        requires proper { IsTrue (is_proper_publish publish.now) }
        requires fresh { IsFreshOwn own.old }
        requires room { HasRoomForOne self.old own.old.removed }
        ensures acts { IfOk result (λ reply. ActsQuietly (published self.old publish.now (verdict self.old publish.now true)) reply self.new) }
        ensures shown { IfOk result IsShown }
        ensures recorded { OnOk result (own_then own.new self.new ≡ live_effects self.old (What.Publish publish.now) true) }
        ensures room { HasRoom self.new own.new.removed }
        ensures err { OnErr result (settled self.new ≡ settled self.old) }
        ensures err_recorded { OnErr result (own_then own.new self.new ≡ settle_effects [] (Live self.old)) }
    {
        self.state.holds();
        match verdict(&self.state, publish)? {
            Verdict::Take => Ok(Reply::Published(self.store(publish, own)?)),
            Verdict::Duplicate(seq) => Ok(Reply::Duplicate(seq)),
            Verdict::Refused(refusal) => Ok(Reply::Refused(refusal)),
        }
    }

    /// Stores a message that is to be taken, and lets the messages go that the limits and the retention then drop. Gives its sequence. An `Err` changes
    /// nothing.
    fn store(&mut self, publish: &Publish, own: &mut OwnRecords) -> Result<u64, NoMemory>
        requires taken { verdict self.old publish.now true ≡ Take }
        requires proper { IsTrue (is_proper_publish publish.now) }
        requires fresh { IsFreshOwn own.old }
        requires room { HasRoomForOne self.old own.old.removed }
        ensures seq { IfOk result (λ seq. seq ≡ self.old.last + 1) }
        ensures stored { OnOk result (self.new ≡ settled (with_message self.old publish.now)) }
        ensures again { OnOk result (settled self.new ≡ self.new) }
        ensures recorded { OnOk result (own_then own.new self.new ≡ live_effects self.old (What.Publish publish.now) true) }
        ensures room { HasRoom self.new own.new.removed }
        ensures err { OnErr result (self.new ≡ self.old) }
        ensures err_own { OnErr result (own.new ≡ own.old) }
    {
        self.state.holds();
        let id = publish.wants.id.clone()?;
        let message = message_of(publish, self.state.last() + 1, self.state.moment())?;
        let seq = self.state.publish(publish, &mut own.removed)?;
        self.release(own);
        let is_kept = self.state.get(seq).is_some();
        own.record(Some(put_effect(message, id, is_kept)));
        Ok(seq)
    }

    /// Removes the messages that a purge names, and tells how many they were. An `Err` changes nothing.
    pub(crate) fn purge(
        &mut self,
        pattern: &[u8],
        below: Option<u64>,
        keep: Option<u64>,
        own: &mut OwnRecords,
    ) -> Result<Reply, NoMemory>
        requires fresh { IsFreshOwn own.old }
        requires room { HasRoomForOne self.old own.old.removed }
        ensures acts { IfOk result (λ reply. ActsQuietly (purged self.old (purge_list self.old pattern.now below keep)) reply self.new) }
        ensures shown { IfOk result IsShown }
        ensures recorded { (to : Option Bytes) → OnOk result (own_then own.new self.new ≡ live_effects self.old (What.Purge to pattern.now below keep) true) }
        ensures room { HasRoom self.new own.new.removed }
        ensures err { OnErr result (settled self.new ≡ settled self.old) }
        ensures err_recorded { OnErr result (own_then own.new self.new ≡ settle_effects [] (Live self.old)) }
    {
        self.state.holds();
        let gone = &mut own.removed;
        Ok(Reply::Purged(self.state.purge(pattern, below, keep, gone)?))
    }

    /// Removes the message of a sequence. Refused if there is none.
    pub(crate) fn delete(&mut self, seq: u64, own: &mut OwnRecords) -> Result<Reply, NoMemory>
        requires fresh { IsFreshOwn own.old }
        requires room { HasRoomForOne self.old own.old.removed }
        ensures acts { IfOk result (λ reply. ActsQuietly (deleted self.old (message_at self.old seq)) reply self.new) }
        ensures shown { IfOk result IsShown }
        ensures recorded { (to : Option Bytes) → OnOk result (own_then own.new self.new ≡ live_effects self.old (What.Delete to seq) true) }
        ensures room { HasRoom self.new own.new.removed }
        ensures err { OnErr result (settled self.new ≡ settled self.old) }
        ensures err_recorded { OnErr result (own_then own.new self.new ≡ settle_effects [] (Live self.old)) }
    {
        self.state.holds();
        if self.state.delete(seq, &mut own.removed) {
            return Ok(Reply::Done);
        }
        Ok(Reply::Refused(no_message(self.alloc)?))
    }

    /// Shows a message, also one that the retention does not keep any more. Refused if there is none.
    pub(crate) fn read(&self, by: &GetBy) -> Result<Reply, NoMemory>
        ensures acts { IfOk result (λ reply. ActsQuietly (message_told self.now (message_by self.now by.now)) reply self.now) }
        ensures shown { IfOk result IsShown }
    {
        let alloc = self.alloc;
        match self.message(by) {
            Some(message) => Ok(Reply::Message(copy_message(message)?)),
            None => Ok(Reply::Refused(no_message(alloc)?)),
        }
    }

    /// The message of a sequence, or the last one of a subject.
    fn message(&self, by: &GetBy) -> Option<&Message>
        ensures value { option_copied result ≡ message_by self.now by.now }
        ensures utf8 { IfSome result (λ message. IsUtf8 message.now.subject) }
    {
        match by {
            GetBy::Seq(seq) => self.state.get(*seq),
            GetBy::LastBySubject(subject) => self.state.last_on(subject.as_slice()),
        }
    }
}

/// What a stream answers a publish, if there is room for it.
fn verdict(state: &StreamState, publish: &Publish) -> Result<Verdict, NoMemory>
    requires told { IfSome publish.now.wants.bad IsUtf8 }
    ensures value { IfOk result (λ said. said ≡ verdict state.now publish.now true) }
    ensures shown { IfOk result IsShownVerdict }
{
    // that the sequences are below 2^62 is what the proof takes from this call
    let _ = state.last();
    state.verdict(publish)
}
