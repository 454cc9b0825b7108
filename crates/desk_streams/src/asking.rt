//! The calls that ask one stream, and change nothing of the catalog: they show it, purge it, read or delete one of its messages, or concern its
//! consumers.

ghost use Rattle.std.specs.Prelude.{◌≡◌, IfOk, IfSome, IsTrue};
ghost use Rattle.api_calls.specs.Names.{name_of};
ghost use Rattle.api_requests.specs.Read.{IsPurge, is_by};
ghost use Rattle.js_base.specs.Subjects.{is_subject_text};
ghost use Rattle.js_model.specs.Configs.{is_number};
ghost use Rattle.js_model.specs.Proper.{if_given};
ghost use Rattle.js_api.specs.Holding.{Holds};
ghost use Rattle.js_api.specs.Leading.{Makes};
ghost use Rattle.js_api.specs.OneStream.{IsAbsent, IsAsking, IsErasing, IsOnStream, IsPurging, IsReading, IsShowing, unchanged};
ghost use Rattle.desk_answers.specs.Asking.{MayAsk};
ghost use Rattle.desk_answers.specs.Became.{IsExplained};
ghost use Rattle.desk_ground.specs.Grounds.{IsWithin, Outside};
ghost use Rattle.desk_ground.specs.Named.{GoesOnNamed};
ghost use Rattle.desk_streams.specs.Asking.{call_of, what_of};

use desk_answers::{copy_by, copy_reply};
use desk_ground::{Ground, Reason, end_call, let_go, refuse_for, unmade};
use js_api::{ApiCall, DeskFault, Outcome};
use js_base::{Blob, Moment, Name, NoMemory};
use js_model::{ConsumerConfig, GetBy, PlaceAt, What, copy_consumer_config};

/// What a stream is asked.
#[derive(Clone, Copy)]
pub(crate) enum Asking<'a> {
    Info,
    Purge {
        filter: &'a Blob,
        below: Option<u64>,
        keep: Option<u64>,
    },
    Get(&'a GetBy),
    Delete(u64),
    MakeConsumer {
        name: &'a Name,
        config: &'a ConsumerConfig,
        update: bool,
    },
    ConsumerInfo(&'a Name),
    DropConsumer(&'a Name),
    ConsumerNames(u64),
    ConsumerList(u64),
}

impl Asking<'_> {
    /// The call of the API.
    fn call(self) -> ApiCall
        ensures value { result ≡ call_of self.entry }
    {
        match self {
            Asking::Info => ApiCall::StreamInfo,
            Asking::Purge { .. } => ApiCall::StreamPurge,
            Asking::Get(_) => ApiCall::StreamMsgGet,
            Asking::Delete(_) => ApiCall::StreamMsgDelete,
            Asking::MakeConsumer { .. } => ApiCall::ConsumerCreate,
            Asking::ConsumerInfo(_) => ApiCall::ConsumerInfo,
            Asking::DropConsumer(_) => ApiCall::ConsumerDelete,
            Asking::ConsumerNames(_) => ApiCall::ConsumerNames,
            Asking::ConsumerList(_) => ApiCall::ConsumerList,
        }
    }

    /// What its place is asked, to be answered to this subject.
    fn what(self, to: &Option<Blob>) -> Result<What, NoMemory>
        ensures what { IfOk result (λ what. what ≡ what_of self.entry to.now) }
    {
        let reply = copy_reply(to)?;
        match self {
            Asking::Info => Ok(What::StreamInfo { reply }),
            Asking::Purge {
                filter,
                below,
                keep,
            } => Ok(What::Purge {
                reply,
                filter: filter.clone()?,
                below,
                keep,
            }),
            Asking::Get(by) => Ok(What::MessageGet {
                reply,
                by: copy_by(by)?,
            }),
            Asking::Delete(seq) => Ok(What::Delete { reply, seq }),
            Asking::MakeConsumer {
                name,
                config,
                update,
            } => Ok(What::MakeConsumer {
                reply,
                name: name.as_blob().clone()?,
                config: copy_consumer_config(config)?,
                update,
            }),
            Asking::ConsumerInfo(name) => Ok(What::ConsumerInfo {
                reply,
                name: name.as_blob().clone()?,
            }),
            Asking::DropConsumer(name) => Ok(What::DropConsumer {
                reply,
                name: name.as_blob().clone()?,
            }),
            Asking::ConsumerNames(offset) => Ok(What::ConsumerNames { reply, offset }),
            Asking::ConsumerList(offset) => Ok(What::ConsumerList { reply, offset }),
        }
    }
}

/// Asks the stream of a place.
fn ask_at<G: Ground>(
    ground: &mut G,
    at: PlaceAt,
    asking: Asking<'_>,
    to: &Option<Blob>,
    now: Moment,
) -> Outcome
    requires within { IsWithin (G.setting ground.old) at }
    requires asked { MayAsk (what_of asking to.now) }
    ensures made { Makes G.made (Holds at (what_of asking.entry to.now) now result) ground.old ground.new }
    ensures explained { IsExplained result.fault result.became }
    ensures setting { G.setting ground.new ≡ G.setting ground.old }
    ensures phase { G.phase ground.new ≡ G.phase ground.old }
{
    match asking.what(to) {
        Ok(what) => ground.hold(at, what, now),
        Err(_) => unmade(),
    }
}

/// Asks the stream that was looked up, if it is there.
fn ask_found<G: Ground>(
    ground: &mut G,
    found: Option<PlaceAt>,
    asking: Asking<'_>,
    to: &Option<Blob>,
    now: Moment,
) -> Result<bool, DeskFault>
    requires within { IfSome found (IsWithin (G.setting ground.old)) }
    requires asked { MayAsk (what_of asking to.now) }
    ensures made { Makes G.made
        (GoesOnNamed (IsAbsent (name_of (call_of asking.entry)) to.now)
        (λ at. IsOnStream (name_of (call_of asking.entry)) at (what_of asking.entry to.now) now unchanged) found result) ground.old ground.new }
    ensures setting { G.setting ground.new ≡ G.setting ground.old }
    ensures phase { G.phase ground.new ≡ G.phase ground.old }
{
    match found {
        Some(at) => {
            let outcome = ask_at(ground, at, asking, to, now);
            let result = end_call(ground, asking.call(), to, &outcome);
            let_go(outcome);
            result
        }
        None => refuse_for(ground, asking.call(), to, Reason::NoStream),
    }
}

/// Asks the stream of this name.
pub(crate) fn ask_stream<G: Ground>(
    ground: &mut G,
    stream: &Name,
    asking: Asking<'_>,
    to: &Option<Blob>,
    now: Moment,
) -> Result<bool, DeskFault>
    requires outside { G.phase ground.old ≡ Outside }
    requires asked { MayAsk (what_of asking to.now) }
    ensures made { Makes G.made (IsAsking (name_of (call_of asking.entry)) stream.now (what_of asking.entry to.now) now result) ground.old ground.new }
    ensures setting { G.setting ground.new ≡ G.setting ground.old }
    ensures phase { G.phase ground.new ≡ Outside }
{
    let found = ground.by_name(stream)?;
    ask_found(ground, found, asking, to, now)
}

/// Shows the stream of this name.
pub fn show_stream<G: Ground>(
    ground: &mut G,
    stream: &Name,
    to: &Option<Blob>,
    now: Moment,
) -> Result<bool, DeskFault>
    requires outside { G.phase ground.old ≡ Outside }
    requires to { IsTrue (if_given is_subject_text to.now) }
    ensures made { Makes G.made (IsShowing stream.now to.now now result) ground.old ground.new }
    ensures setting { G.setting ground.new ≡ G.setting ground.old }
    ensures phase { G.phase ground.new ≡ Outside }
{
    ask_stream(ground, stream, Asking::Info, to, now)
}

/// Purges the stream of this name: of the messages that the filter matches, those below a sequence and all but a number of the last ones go. An
/// empty filter matches all.
pub fn purge_stream<G: Ground>(
    ground: &mut G,
    stream: &Name,
    filter: &Blob,
    below: Option<u64>,
    keep: Option<u64>,
    to: &Option<Blob>,
    now: Moment,
) -> Result<bool, DeskFault>
    requires outside { G.phase ground.old ≡ Outside }
    requires to { IsTrue (if_given is_subject_text to.now) }
    requires purge { IsPurge filter.now below keep }
    ensures made { Makes G.made (IsPurging stream.now filter.now below keep to.now now result) ground.old ground.new }
    ensures setting { G.setting ground.new ≡ G.setting ground.old }
    ensures phase { G.phase ground.new ≡ Outside }
{
    let asking = Asking::Purge {
        filter,
        below,
        keep,
    };
    ask_stream(ground, stream, asking, to, now)
}

/// Reads a message of the stream of this name.
pub fn read_message<G: Ground>(
    ground: &mut G,
    stream: &Name,
    by: &GetBy,
    to: &Option<Blob>,
    now: Moment,
) -> Result<bool, DeskFault>
    requires outside { G.phase ground.old ≡ Outside }
    requires to { IsTrue (if_given is_subject_text to.now) }
    requires by { IsTrue (is_by by.now) }
    ensures made { Makes G.made (IsReading stream.now by.now to.now now result) ground.old ground.new }
    ensures setting { G.setting ground.new ≡ G.setting ground.old }
    ensures phase { G.phase ground.new ≡ Outside }
{
    ask_stream(ground, stream, Asking::Get(by), to, now)
}

/// Deletes a message of the stream of this name.
pub fn erase_message<G: Ground>(
    ground: &mut G,
    stream: &Name,
    seq: u64,
    to: &Option<Blob>,
    now: Moment,
) -> Result<bool, DeskFault>
    requires outside { G.phase ground.old ≡ Outside }
    requires to { IsTrue (if_given is_subject_text to.now) }
    requires seq { IsTrue (is_number seq) }
    ensures made { Makes G.made (IsErasing stream.now seq to.now now result) ground.old ground.new }
    ensures setting { G.setting ground.new ≡ G.setting ground.old }
    ensures phase { G.phase ground.new ≡ Outside }
{
    ask_stream(ground, stream, Asking::Delete(seq), to, now)
}
