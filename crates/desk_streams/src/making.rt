//! The stream that the command line names.

ghost use Rattle.std.specs.Prelude.{◌≡◌, ◌∷◌, [], true, IfOk, IsTrue, None, Ok};
ghost use Rattle.js_base.specs.Names.{name_of};
ghost use Rattle.js_model.specs.Configs.{is_stream_subject};
ghost use Rattle.js_model.specs.Refusals as refusals;
ghost use Rattle.js_model.specs.declared.event.What.TheVariants as whats;
ghost use Rattle.stream_config.specs.Defaults.{default_config};
ghost use Rattle.js_api.specs.Leading.{Makes};
ghost use Rattle.js_api.specs.Making.{GoesOnTaken, IsMaking, IsPreparing, MakesStream, refusal_in};
ghost use Rattle.js_api.specs.OneStream.{IsAdding};
ghost use Rattle.js_api.specs.Stages.{Ending, Gives};
ghost use Rattle.desk_answers.specs.Asking.{MayAsk};
ghost use Rattle.desk_ground.specs.Grounds.{Outside, Within};
ghost use Rattle.desk_ground.specs.Named.{GoesOnNamed};
ghost use Rattle.desk_answers.specs.Became.{IsExplained};
ghost use Rattle.desk_ground.specs.Outcomes.{IsThere};
ghost use Rattle.desk_streams.specs.Refusing.{refused_by, untaken};

use crate::creating::make_at;
use desk_ground::Ground;
use js_api::{Became, DeskFault, Outcome};
use js_base::{ApiError, Blob, List, Moment, Name, NoMemory};
use js_model::refusals::{store_fault, stream_stopped};
use js_model::{CatalogFault, Discard, PlaceAt, Reply, Retention, StreamConfig};
use std::alloc::Global;

/// How long a stream remembers ids by default: 2 minutes, in nanoseconds.
const DUPLICATE_WINDOW: u64 = 120_000_000_000;

// ---- what is needed before

fn one_subject(alloc: Global, subject: &[u8]) -> Result<List<Blob>, NoMemory>
    ensures list { IfOk result (λ list. list ≡ subject.now ∷ []) }
{
    let mut subjects = List::new(alloc);
    subjects.push(Blob::of(alloc, subject)?)?;
    Ok(subjects)
}

/// The configuration of a stream of this name and this one subject, with every default of JetStream.
#[tactic(auto, unfolding(stream_config::specs::Defaults::default_config))]
fn default_config(alloc: Global, name: &Name, subject: &[u8]) -> Result<StreamConfig, NoMemory>
    ensures config { IfOk result (λ config. config ≡ default_config name.now subject.now) }
    ensures name { IfOk result (λ config. name_of config.name ≡ Ok config.name) }
{
    Ok(StreamConfig {
        description: Blob::empty(),
        discard: Discard::Old,
        duplicate_window: DUPLICATE_WINDOW,
        max_age: 0,
        max_bytes: None,
        max_consumers: None,
        max_msg_size: None,
        max_msgs: None,
        max_msgs_per_subject: None,
        name: Blob::of(alloc, name.as_slice())?,
        retention: Retention::Limits,
        subjects: one_subject(alloc, subject)?,
    })
}

/// What the making of a stream needs: its configuration, and what is told if the volume of its place fails, or it was stopped before.
#[derive(Drop)]
struct Prepared {
    config: StreamConfig,
    broke: ApiError,
    stopped: ApiError,
}

fn prepare(alloc: Global, name: &Name, subject: &[u8]) -> Result<Prepared, NoMemory>
    requires subject { IsTrue (is_stream_subject subject.now) }
    ensures asked { IfOk result (λ made. MayAsk (whats.Make None made.config)) }
    ensures config { IfOk result (λ made. made.config ≡ default_config name.now subject.now) }
    ensures broke { IfOk result (λ made. made.broke ≡ refusals.store_fault) }
    ensures stopped { IfOk result (λ made. made.stopped ≡ refusals.stream_stopped) }
{
    Ok(Prepared {
        config: default_config(alloc, name, subject)?,
        broke: store_fault(alloc)?,
        stopped: stream_stopped(alloc)?,
    })
}

// ---- the making

/// Why the stream was not made, if the reply says so.
fn refusal_in(reply: Reply) -> Option<ApiError>
    ensures value { result ≡ refusal_in reply }
{
    match reply {
        Reply::Refused(refusal) => Some(refusal),
        Reply::Info(_)
        | Reply::Done
        | Reply::Published(_)
        | Reply::Duplicate(_)
        | Reply::Purged(_)
        | Reply::ConsumerInfo(_)
        | Reply::Message(_)
        | Reply::Names { .. }
        | Reply::Infos { .. }
        | Reply::Confirmed
        | Reply::Silent
        | Reply::Nobody => None,
    }
}

/// Why the stream was not made, by what became of the hold: its refusal, or that the volume failed, or the place was stopped before.
fn refused_by(became: Became, broke: ApiError, stopped: ApiError) -> Option<ApiError>
    requires broke { broke ≡ refusals.store_fault }
    requires stopped { stopped ≡ refusals.stream_stopped }
    ensures value { result ≡ refused_by became }
{
    match became {
        Became::Made(reply) => refusal_in(reply),
        Became::Broke { stream: _ } => Some(broke),
        Became::Stopped { stream: _ } => Some(stopped),
        Became::Unsaid { refused: _ } | Became::Ticked | Became::Nothing | Became::Gone => None,
    }
}

/// Why the stream was not made, by what the hold came to.
fn making_told(
    outcome: Outcome,
    broke: ApiError,
    stopped: ApiError,
) -> Result<Option<ApiError>, DeskFault>
    requires explained { IsExplained outcome.fault outcome.became }
    requires there { IsThere outcome.became }
    requires broke { broke ≡ refusals.store_fault }
    requires stopped { stopped ≡ refusals.stream_stopped }
    ensures told { Ending outcome.fault (IsMaking outcome.became) result [] }
{
    let refused = refused_by(outcome.became, broke, stopped);
    match outcome.fault {
        Some(fault) => Err(fault),
        None => Ok(refused),
    }
}

/// Why no place was taken for the stream.
fn untaken(fault: CatalogFault) -> Result<Option<ApiError>, DeskFault>
    ensures value { result ≡ untaken fault }
{
    match fault {
        CatalogFault::Refused(refusal) => Ok(Some(refusal)),
        CatalogFault::NoMemory => Err(DeskFault::NoMemory),
    }
}

/// Takes a place for the stream, and makes it there.
fn add_prepared<G: Ground>(
    ground: &mut G,
    name: &Name,
    prepared: Prepared,
    now: Moment,
) -> Result<Option<ApiError>, DeskFault>
    requires alone { G.alone ≡ true }
    requires turn { G.phase ground.old ≡ Within }
    requires asked { MayAsk (whats.Make None prepared.config) }
    requires broke { prepared.broke ≡ refusals.store_fault }
    requires stopped { prepared.stopped ≡ refusals.stream_stopped }
    ensures made { Makes G.made (IsAdding name.now prepared.config (GoesOnTaken prepared.config now) result) ground.old ground.new }
    ensures setting { G.setting ground.new ≡ G.setting ground.old }
    ensures phase { G.phase ground.new ≡ Within }
{
    let Prepared {
        config,
        broke,
        stopped,
    } = prepared;
    match ground.add(name, config.subjects.as_slice()) {
        Ok(at) => {
            let outcome = make_at(ground, at, &None, config, now);
            making_told(outcome, broke, stopped)
        }
        Err(fault) => untaken(fault),
    }
}

/// Makes the stream, of which none is there.
fn make_absent<G: Ground>(
    ground: &mut G,
    name: &Name,
    subject: &[u8],
    now: Moment,
) -> Result<Option<ApiError>, DeskFault>
    requires alone { G.alone ≡ true }
    requires turn { G.phase ground.old ≡ Within }
    requires subject { IsTrue (is_stream_subject subject.now) }
    ensures made { Makes G.made (IsPreparing name.now (default_config name.now subject.now) now result) ground.old ground.new }
    ensures setting { G.setting ground.new ≡ G.setting ground.old }
    ensures phase { G.phase ground.new ≡ Within }
{
    match prepare(ground.alloc(), name, subject) {
        Ok(prepared) => add_prepared(ground, name, prepared, now),
        Err(_) => Err(DeskFault::NoMemory),
    }
}

/// Makes the stream that was looked up, unless it is there.
fn make_found<G: Ground>(
    ground: &mut G,
    name: &Name,
    found: Option<PlaceAt>,
    subject: &[u8],
    now: Moment,
) -> Result<Option<ApiError>, DeskFault>
    requires alone { G.alone ≡ true }
    requires turn { G.phase ground.old ≡ Within }
    requires subject { IsTrue (is_stream_subject subject.now) }
    ensures made { Makes G.made
        (GoesOnNamed (IsPreparing name.now (default_config name.now subject.now) now) (λ at. Gives None) found result) ground.old ground.new }
    ensures setting { G.setting ground.new ≡ G.setting ground.old }
    ensures phase { G.phase ground.new ≡ Within }
{
    match found {
        Some(_) => Ok(None),
        None => make_absent(ground, name, subject, now),
    }
}

/// Makes the stream of this name and this one subject, with every default of JetStream, unless there is one of this name, and answers why it was not
/// made. An `Err` leaves open whether it was.
pub fn make_stream<G: Ground>(
    ground: &mut G,
    name: &Name,
    subject: &[u8],
    now: Moment,
) -> Result<Option<ApiError>, DeskFault>
    requires alone { G.alone ≡ true }
    requires outside { G.phase ground.old ≡ Outside }
    requires subject { IsTrue (is_stream_subject subject.now) }
    ensures made { Makes G.made (MakesStream name.now (default_config name.now subject.now) now result) ground.old ground.new }
    ensures setting { G.setting ground.new ≡ G.setting ground.old }
    ensures phase { G.phase ground.new ≡ Outside }
{
    let found = ground.begin(name)?;
    let result = make_found(ground, name, found, subject, now);
    ground.end();
    result
}
