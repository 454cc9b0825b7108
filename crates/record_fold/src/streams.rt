//! The stream that a volume holds.

ghost use Rattle.std.specs.Prelude.{◌≡◌, true, nat_lt, not, Some, OnOk, IfErr, map, filter};
ghost use Rattle.js_base.specs.Moments.{plus};
ghost use Rattle.js_model.specs.Streams.{by_name};
ghost use Rattle.model_laws.specs.Sound.{AreOrdered};
ghost use Rattle.effects.specs.Folding.{empty_body, numbered, put, holding, removed, at_moment, consumer_from, replaced, with_made, without_consumer, is_next, added_id};
ghost use Rattle.effects.specs.Ranges.{is_within};
ghost use Rattle.record_fold.specs.Changes.{changed_in};
ghost use Rattle.record_fold.specs.Entries.{IsGivenIn};
ghost use Rattle.record_fold.specs.Faults.{IsChangeFaultIn, IsNumberFault, IsMisfitAt};

use crate::change::Change;
use crate::consumers::{add_one, change_one, forget_all, place_of, remove_one};
use crate::fault::FoldFault;
use crate::lists::{is_within, take};
use effects::Body;
use js_base::{Blob, List, Moment, NoMemory};
use js_model::{Consumer, ConsumerConfig, Id, Message, StreamConfig};
use std::alloc::Global;

/// A new stream.
pub(crate) fn empty_body(alloc: Global, made: Moment, config: StreamConfig) -> Body
    ensures value { result ≡ empty_body made config }
{
    Body {
        made,
        moment: made,
        last: 0,
        config,
        messages: List::new(alloc),
        ids: List::new(alloc),
        consumers: List::new(alloc),
    }
}

/// Adds an id, if it is not empty.
fn add_id(ids: &mut List<Id>, id: Blob, seq: u64, at: Moment) -> Result<(), NoMemory>
    ensures ok { OnOk result (ids.new ≡ added_id ids.old id seq at) }
{
    if id.is_empty() {
        return Ok(());
    }
    ids.push(Id { id, seq, at })
}

/// Gives the next sequence, at the last moment that the stream has seen, with its id.
pub(crate) fn number(body: &mut Body, seq: u64, at: Moment, id: Blob) -> Result<(), FoldFault>
    ensures next { OnOk result (is_next seq at body.old ≡ true) }
    ensures ok { OnOk result (body.new ≡ numbered seq at id body.old) }
    ensures err { IfErr result (IsNumberFault seq at body.old) }
{
    if body.last.checked_add(1) != Some(seq) {
        return Err(FoldFault::Misfit(1));
    }
    if at != body.moment {
        return Err(FoldFault::Misfit(9));
    }
    add_id(&mut body.ids, id, seq, at)?;
    body.last = seq;
    Ok(())
}

/// Stores a message under the next sequence, with its id.
pub(crate) fn put(body: &mut Body, message: Message, id: Blob) -> Result<(), FoldFault>
    ensures next { OnOk result (is_next message.seq message.at body.old ≡ true) }
    ensures ok { OnOk result (body.new ≡ put message id body.old) }
    ensures err { IfErr result (IsNumberFault message.seq message.at body.old) }
{
    number(body, message.seq, message.at, id)?;
    Ok(body.messages.push(message)?)
}

/// Drops the messages of a range of sequences.
fn drop_messages(alloc: Global, messages: &mut List<Message>, low: u64, high: u64)
    ensures left { messages.new ≡ filter (λ m. not (is_within low high m.seq)) messages.old }
{
    let mut kept = take(alloc, messages);
    kept.retain(|message| !is_within(low, high, message.seq));
    *messages = List::from_vec(kept);
}

/// Has no consumer hold anything of a range of sequences any more.
fn forget_range(alloc: Global, consumers: &mut List<Consumer>, low: u64, high: u64)
    ensures value { consumers.new ≡ map (holding (λ n. not (is_within low high n))) consumers.old }
{
    let mut changed = take(alloc, consumers);
    forget_all(alloc, changed.as_mut_slice(), low, high);
    *consumers = List::from_vec(changed);
}

/// Drops the messages of a range of sequences, with what consumers hold of them.
pub(crate) fn remove(alloc: Global, body: &mut Body, low: u64, high: u64)
    ensures value { body.new ≡ removed low high body.old }
{
    drop_messages(alloc, &mut body.messages, low, high);
    forget_range(alloc, &mut body.consumers, low, high);
}

/// Forgets the ids that count no more at a moment.
fn forget_ids(alloc: Global, ids: &mut List<Id>, moment: Moment, window: u64)
    ensures left { ids.new ≡ filter (λ i. nat_lt moment (plus i.at window)) ids.old }
{
    let mut known = take(alloc, ids);
    known.retain(|id| moment < id.at.plus(window));
    *ids = List::from_vec(known);
}

/// Sees a moment, by which ids are forgotten.
pub(crate) fn see(alloc: Global, body: &mut Body, moment: Moment)
    ensures value { body.new ≡ at_moment moment body.old }
{
    let window = body.config.duplicate_window;
    forget_ids(alloc, &mut body.ids, moment, window);
    body.moment = moment;
}

/// A new consumer, to which nothing was sent.
pub(crate) fn new_consumer(
    alloc: Global,
    name: Blob,
    made: Moment,
    config: ConsumerConfig,
    cursor: u64,
    picks: List<u64>,
) -> Consumer
    ensures value { result ≡ consumer_from name made config cursor picks }
{
    Consumer {
        name,
        made,
        config,
        picks,
        cursor,
        dseq: 0,
        pending: List::new(alloc),
        given_up: List::new(alloc),
        waiting: List::new(alloc),
        mark: made,
    }
}

/// Adds a consumer. If there is one of its name, the name is wrong.
pub(crate) fn make_consumer(alloc: Global, body: &mut Body, new: Consumer) -> Result<(), FoldFault>
    ensures ok { OnOk result (with_made body.old new (by_name body.old.consumers new.name) ≡ Some body.new) }
    ensures err { IfErr result (IsMisfitAt 1 (with_made body.old new (by_name body.old.consumers new.name))) }
{
    if place_of(body.consumers.as_slice(), &new.name).is_some() {
        return Err(FoldFault::Misfit(1));
    }
    let mut consumers = take(alloc, &mut body.consumers);
    add_one(&mut consumers, new)?;
    body.consumers = List::from_vec(consumers);
    Ok(())
}

/// Takes out the consumer of a name. If it is not there, the name is wrong.
pub(crate) fn drop_consumer(alloc: Global, body: &mut Body, name: &Blob) -> Result<(), FoldFault>
    ensures ok { OnOk result (without_consumer body.old (by_name body.old.consumers name.now) ≡ Some body.new) }
    ensures err { IfErr result (IsMisfitAt 1 (without_consumer body.old (by_name body.old.consumers name.now))) }
{
    let Some(_) = place_of(body.consumers.as_slice(), name) else {
        return Err(FoldFault::Misfit(1));
    };
    let mut consumers = take(alloc, &mut body.consumers);
    remove_one(&mut consumers, name);
    body.consumers = List::from_vec(consumers);
    Ok(())
}

/// Changes the consumer of a name. If it is not there, the name is wrong.
pub(crate) fn change_consumer(
    alloc: Global,
    body: &mut Body,
    name: &Blob,
    made: Change,
) -> Result<(), FoldFault>
    requires ordered { AreOrdered body.old.consumers }
    requires given { IsGivenIn made }
    ensures ok { OnOk result (replaced body.old (changed_in made (by_name body.old.consumers name.now)) ≡ Some body.new) }
    ensures err { IfErr result (IsChangeFaultIn name.now made (by_name body.old.consumers name.now)) }
{
    let mut consumers = take(alloc, &mut body.consumers);
    change_one(alloc, consumers.as_mut_slice(), name, made)?;
    body.consumers = List::from_vec(consumers);
    Ok(())
}
