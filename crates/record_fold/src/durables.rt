//! What a volume holds, and a record of each kind. In a vacant place only a stream can be made.

ghost use Rattle.std.specs.Prelude.{◌≡◌, Some, OnOk, IfErr};
ghost use Rattle.effects.specs.Folding.{fold};
ghost use Rattle.effects.specs.declared.effect.Effect.TheVariants as effects;
ghost use Rattle.record_fold.specs.Changes.{effect_of};
ghost use Rattle.record_fold.specs.Entries.{AreOrderedIn, IsGivenIn, IsNew};
ghost use Rattle.record_fold.specs.Faults.{IsFoldFault};

use crate::change::Change;
use crate::fault::FoldFault;
use crate::streams::{
    change_consumer, drop_consumer, empty_body, make_consumer, number, put, remove, see,
};
use effects::Durable;
use js_base::{Blob, Moment};
use js_model::{Consumer, Message, StreamConfig};
use std::alloc::Global;

/// A new stream, which fits if there is none and the incarnation is the next.
pub(crate) fn make_stream(
    alloc: Global,
    durable: &mut Durable,
    incarnation: u64,
    made: Moment,
    config: StreamConfig,
) -> Result<(), FoldFault>
    ensures ok { OnOk result (fold durable.old (effects.MakeStream incarnation made config) ≡ Some durable.new) }
    ensures err { IfErr result (IsFoldFault durable.old (effects.MakeStream incarnation made config)) }
{
    if durable.body.is_some() {
        return Err(FoldFault::Misfit(0));
    }
    if durable.incarnation.checked_add(1) != Some(incarnation) {
        return Err(FoldFault::Misfit(1));
    }
    durable.incarnation = incarnation;
    durable.body = Some(empty_body(alloc, made, config));
    Ok(())
}

pub(crate) fn change_stream(durable: &mut Durable, config: StreamConfig) -> Result<(), FoldFault>
    ensures ok { OnOk result (fold durable.old (effects.ChangeStream config) ≡ Some durable.new) }
    ensures err { IfErr result (IsFoldFault durable.old (effects.ChangeStream config)) }
{
    let Some(body) = durable.body.as_mut() else {
        return Err(FoldFault::Misfit(0));
    };
    body.config = config;
    Ok(())
}

pub(crate) fn drop_stream(durable: &mut Durable) -> Result<(), FoldFault>
    ensures ok { OnOk result (fold durable.old effects.DropStream ≡ Some durable.new) }
    ensures err { IfErr result (IsFoldFault durable.old effects.DropStream) }
{
    if durable.body.is_none() {
        return Err(FoldFault::Misfit(0));
    }
    durable.body = None;
    Ok(())
}

pub(crate) fn put_message(
    durable: &mut Durable,
    message: Message,
    id: Blob,
) -> Result<(), FoldFault>
    ensures ok { OnOk result (fold durable.old (effects.PutHere message.seq message.at id message.subject message.headers message.payload) ≡ Some durable.new) }
    ensures err { IfErr result (IsFoldFault durable.old (effects.PutHere message.seq message.at id message.subject message.headers message.payload)) }
{
    let Some(body) = durable.body.as_mut() else {
        return Err(FoldFault::Misfit(0));
    };
    put(body, message, id)
}

pub(crate) fn skip(durable: &mut Durable, seq: u64, at: Moment, id: Blob) -> Result<(), FoldFault>
    ensures ok { OnOk result (fold durable.old (effects.Skip seq at id) ≡ Some durable.new) }
    ensures err { IfErr result (IsFoldFault durable.old (effects.Skip seq at id)) }
{
    let Some(body) = durable.body.as_mut() else {
        return Err(FoldFault::Misfit(0));
    };
    number(body, seq, at, id)
}

pub(crate) fn remove_range(
    alloc: Global,
    durable: &mut Durable,
    low: u64,
    high: u64,
) -> Result<(), FoldFault>
    ensures ok { OnOk result (fold durable.old (effects.Remove low high) ≡ Some durable.new) }
    ensures err { IfErr result (IsFoldFault durable.old (effects.Remove low high)) }
{
    let Some(body) = durable.body.as_mut() else {
        return Err(FoldFault::Misfit(0));
    };
    remove(alloc, body, low, high);
    Ok(())
}

/// A consumer to which nothing was sent.
pub(crate) fn add_consumer(
    alloc: Global,
    durable: &mut Durable,
    new: Consumer,
) -> Result<(), FoldFault>
    requires new { IsNew new }
    ensures ok { OnOk result (fold durable.old (effects.MakeConsumer new.name new.made new.config new.cursor new.picks) ≡ Some durable.new) }
    ensures err { IfErr result (IsFoldFault durable.old (effects.MakeConsumer new.name new.made new.config new.cursor new.picks)) }
{
    let Some(body) = durable.body.as_mut() else {
        return Err(FoldFault::Misfit(0));
    };
    make_consumer(alloc, body, new)
}

pub(crate) fn remove_consumer(
    alloc: Global,
    durable: &mut Durable,
    name: &Blob,
) -> Result<(), FoldFault>
    ensures ok { OnOk result (fold durable.old (effects.DropConsumer name.now) ≡ Some durable.new) }
    ensures err { IfErr result (IsFoldFault durable.old (effects.DropConsumer name.now)) }
{
    let Some(body) = durable.body.as_mut() else {
        return Err(FoldFault::Misfit(0));
    };
    drop_consumer(alloc, body, name)
}

/// A change of the consumer of a name.
pub(crate) fn change_named(
    alloc: Global,
    durable: &mut Durable,
    name: &Blob,
    change: Change,
) -> Result<(), FoldFault>
    requires ordered { AreOrderedIn durable.old }
    requires given { IsGivenIn change }
    ensures ok { OnOk result (fold durable.old (effect_of name.now change) ≡ Some durable.new) }
    ensures err { IfErr result (IsFoldFault durable.old (effect_of name.now change)) }
{
    let Some(body) = durable.body.as_mut() else {
        return Err(FoldFault::Misfit(0));
    };
    change_consumer(alloc, body, name, change)
}

/// A moment, which fits if none that is later was seen.
pub(crate) fn see_moment(
    alloc: Global,
    durable: &mut Durable,
    moment: Moment,
) -> Result<(), FoldFault>
    ensures ok { OnOk result (fold durable.old (effects.Now moment) ≡ Some durable.new) }
    ensures err { IfErr result (IsFoldFault durable.old (effects.Now moment)) }
{
    let Some(body) = durable.body.as_mut() else {
        return Err(FoldFault::Misfit(0));
    };
    if moment < body.moment {
        return Err(FoldFault::Misfit(1));
    }
    see(alloc, body, moment);
    Ok(())
}
