//! What only the stream answers: questions for messages, and acknowledgements.

ghost use Rattle.std.specs.Prelude.{◌≡◌, false, IfOk, IfSome, IsTrue, None, Ok, []};
ghost use Rattle.js_base.specs.Subjects.{is_subject_text};
ghost use Rattle.js_model.specs.Proper.{if_given, is_proper_ask};
ghost use Rattle.js_model.specs.declared.event.What.TheVariants as whats;
ghost use Rattle.js_api.specs.Holding.{Holds};
ghost use Rattle.js_api.specs.Leading.{Makes};
ghost use Rattle.js_api.specs.OneConsumer.{IsHeard, IsPulling, IsTold, IsToldAt, is_heard};
ghost use Rattle.js_api.specs.Stages.{Ending, Gives};
ghost use Rattle.desk_answers.specs.Asking.{MayAsk};
ghost use Rattle.desk_answers.specs.Became.{IsExplained};
ghost use Rattle.desk_ground.specs.Grounds.{IsWithin, Outside};
ghost use Rattle.desk_ground.specs.Named.{GoesOnNamed};
ghost use Rattle.desk_messaging.specs.Tellings.{ReadsName, ReadsNames, what_of};

use desk_ground::{Ground, let_go, unmade};
use js_api::{Became, DeskFault, Outcome};
use js_base::{Blob, Moment, Name, NameFault, NoMemory};
use js_model::{Ack, Ask, PlaceAt, Reply, What};
use std::alloc::Global;

/// What a stream is told.
#[derive(Clone, Copy)]
enum Telling<'a> {
    Pull {
        consumer: &'a Name,
        ask: Option<Ask>,
    },
    Ack(&'a Ack),
}

/// A copy of an acknowledgement. Its texts are shared.
fn copy_ack(ack: &Ack) -> Result<Ack, NoMemory>
    ensures copy { IfOk result (λ copy. copy ≡ ack.now) }
{
    Ok(Ack {
        stream: ack.stream.clone()?,
        consumer: ack.consumer.clone()?,
        seq: ack.seq,
        kind: ack.kind,
    })
}

impl Telling<'_> {
    /// What its place is asked, for this reply subject.
    fn what(self, to: &Option<Blob>) -> Result<What, NoMemory>
        ensures what { IfOk result (λ what. what ≡ what_of self.entry to.now) }
    {
        let reply = to.clone()?;
        match self {
            Telling::Pull { consumer, ask } => Ok(What::Pull {
                reply,
                consumer: consumer.as_blob().clone()?,
                ask,
            }),
            Telling::Ack(ack) => Ok(What::Ack {
                reply,
                ack: copy_ack(ack)?,
            }),
        }
    }
}

/// Tells the stream of a place.
fn tell_at<G: Ground>(
    ground: &mut G,
    at: PlaceAt,
    telling: Telling<'_>,
    to: &Option<Blob>,
    now: Moment,
) -> Outcome
    requires within { IsWithin (G.setting ground.old) at }
    requires asked { MayAsk (what_of telling to.now) }
    ensures made { Makes G.made (Holds at (what_of telling.entry to.now) now result) ground.old ground.new }
    ensures explained { IsExplained result.fault result.became }
    ensures setting { G.setting ground.new ≡ G.setting ground.old }
    ensures phase { G.phase ground.new ≡ G.phase ground.old }
{
    match telling.what(to) {
        Ok(what) => ground.hold(at, what, now),
        Err(_) => unmade(),
    }
}

/// Whether the stream took it.
fn is_heard(reply: &Reply) -> bool
    ensures value { result ≡ is_heard reply.now }
{
    !matches!(reply, Reply::Nobody | Reply::Refused(_))
}

/// Whether somebody took it, by what became of the hold. A stream whose hold broke is there.
fn heard(became: &Became) -> bool
    requires explained { IsExplained None became.now }
    ensures heard { IsHeard became.now (Ok result) [] }
{
    match became {
        Became::Made(reply) => is_heard(reply),
        Became::Unsaid { refused: _ } => unreachable!(),
        Became::Ticked => unreachable!(),
        Became::Nothing => unreachable!(),
        Became::Broke { .. } => true,
        Became::Stopped { stream: _ } => true,
        Became::Gone => false,
    }
}

/// Ends the telling by what the hold came to.
fn end_telling(outcome: &Outcome) -> Result<bool, DeskFault>
    requires explained { IsExplained outcome.now.fault outcome.now.became }
    ensures ends { Ending outcome.now.fault (IsHeard outcome.now.became) result [] }
{
    match outcome.fault {
        Some(fault) => Err(fault),
        None => Ok(heard(&outcome.became)),
    }
}

/// Tells the stream that was looked up, if it is there.
fn tell_found<G: Ground>(
    ground: &mut G,
    found: Option<PlaceAt>,
    telling: Telling<'_>,
    to: &Option<Blob>,
    now: Moment,
) -> Result<bool, DeskFault>
    requires within { IfSome found (IsWithin (G.setting ground.old)) }
    requires asked { MayAsk (what_of telling to.now) }
    ensures made { Makes G.made (GoesOnNamed (Gives false) (IsToldAt (what_of telling.entry to.now) now) found result) ground.old ground.new }
    ensures setting { G.setting ground.new ≡ G.setting ground.old }
    ensures phase { G.phase ground.new ≡ G.phase ground.old }
{
    match found {
        Some(at) => {
            let outcome = tell_at(ground, at, telling, to, now);
            let result = end_telling(&outcome);
            let_go(outcome);
            result
        }
        None => Ok(false),
    }
}

/// Tells the stream of this name, if it is there.
fn tell_stream<G: Ground>(
    ground: &mut G,
    stream: &Name,
    telling: Telling<'_>,
    to: &Option<Blob>,
    now: Moment,
) -> Result<bool, DeskFault>
    requires outside { G.phase ground.old ≡ Outside }
    requires asked { MayAsk (what_of telling to.now) }
    ensures made { Makes G.made (IsTold stream.now (what_of telling.entry to.now) now result) ground.old ground.new }
    ensures setting { G.setting ground.new ≡ G.setting ground.old }
    ensures phase { G.phase ground.new ≡ Outside }
{
    let found = ground.by_name(stream)?;
    tell_found(ground, found, telling, to, now)
}

// ---- acknowledgements

/// Hands an acknowledgement to the stream of this name, and answers whether it is there.
pub fn acknowledge<G: Ground>(
    ground: &mut G,
    stream: &Name,
    ack: &Ack,
    to: &Option<Blob>,
    now: Moment,
) -> Result<bool, DeskFault>
    requires outside { G.phase ground.old ≡ Outside }
    requires asked { MayAsk (whats.Ack to.now ack.now) }
    ensures made { Makes G.made (IsTold stream.now (whats.Ack to.now ack.now) now result) ground.old ground.new }
    ensures setting { G.setting ground.new ≡ G.setting ground.old }
    ensures phase { G.phase ground.new ≡ Outside }
{
    tell_stream(ground, stream, Telling::Ack(ack), to, now)
}

// ---- questions for messages

/// The name that the text is, if it is one.
fn name_in(alloc: Global, text: &Blob) -> Result<Option<Name>, NoMemory>
    ensures reading { IfOk result (λ name. ReadsName name text.now) }
{
    match Name::read(alloc, text.as_slice()) {
        Ok(name) => Ok(Some(name)),
        Err(NameFault::NoMemory) => Err(NoMemory),
        Err(_) => Ok(None),
    }
}

/// The names that two texts are, if both are such.
fn names_in(alloc: Global, stream: &Blob, consumer: &Blob) -> Result<Option<(Name, Name)>, NoMemory>
    ensures reading { IfOk result (λ names. ReadsNames names stream.now consumer.now) }
{
    let first = name_in(alloc, stream)?;
    let second = name_in(alloc, consumer)?;
    match (first, second) {
        (Some(stream), Some(consumer)) => Ok(Some((stream, consumer))),
        (Some(_), None) | (None, Some(_)) | (None, None) => Ok(None),
    }
}

/// Asks a consumer for messages, and answers whether it is there. A text that is no name is that of no stream or consumer.
pub fn pull<G: Ground>(
    ground: &mut G,
    stream: &Blob,
    consumer: &Blob,
    ask: Option<Ask>,
    to: &Option<Blob>,
    now: Moment,
) -> Result<bool, DeskFault>
    requires outside { G.phase ground.old ≡ Outside }
    requires to { IsTrue (if_given is_subject_text to.now) }
    requires ask { IsTrue (if_given is_proper_ask ask) }
    ensures made { Makes G.made (IsPulling stream.now consumer.now ask to.now now result) ground.old ground.new }
    ensures setting { G.setting ground.new ≡ G.setting ground.old }
    ensures phase { G.phase ground.new ≡ Outside }
{
    match names_in(ground.alloc(), stream, consumer) {
        Ok(Some((stream, consumer))) => {
            let telling = Telling::Pull {
                consumer: &consumer,
                ask,
            };
            tell_stream(ground, &stream, telling, to, now)
        }
        Ok(None) => Ok(false),
        Err(NoMemory) => Err(DeskFault::NoMemory),
    }
}
