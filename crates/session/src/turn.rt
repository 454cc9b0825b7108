//! One turn of a session: what the link answers, and what is said for it.

ghost use Rattle.std.specs.Prelude.{◌≡◌, ◌≤◌, ◌<◌, ◌+◌, ◌^◌, true, OnOk, length};
ghost use Rattle.js_base.specs.Causes.{HasCause};
ghost use Rattle.link_edge.specs.Failings.{HasNoFailings};
ghost use Rattle.nats_frames.specs.Decoding.{total};
ghost use Rattle.js_api.specs.Clients.{new_client};
ghost use Rattle.session.specs.Failing.{FailsIn};
ghost use Rattle.session.specs.Manners.{moments};
ghost use Rattle.session.specs.Talk.{start, IsUnspent};
ghost use Rattle.session.specs.Turning.{stage_of, turns_left, Keeps, Rests, Turns};

use crate::conversation::hear;
use crate::ending::{Ended, Limits};
use crate::giving::give_frame;
use crate::manners::{Manners, Pings};
use crate::parting::part;
use crate::ticking::end_turn;
use js_api::Desk;
use js_base::{Frame, Moment};
use link_edge::{Clock, Link, Take};
use nats_frames::Decoder;
use std::alloc::Global;

/// Where a session stands between two turns.
#[derive(Drop)]
pub(crate) struct Course {
    pub(crate) decoder: Decoder,
    pub(crate) manners: Manners,
    /// How many bytes were taken.
    pub(crate) taken: u64,
    /// How many takes in a row were quiet.
    pub(crate) quiets: u64,
    /// When something came last; or the moment of the first turn, if nothing came yet.
    pub(crate) came: Option<Moment>,
}

impl Course {
    /// Before the first turn.
    pub(crate) fn new(alloc: Global, limits: &Limits) -> Course
        ensures start { (session : _) → stage_of (new_client session) result ≡ start limits.now session }
        ensures fed { total result.decoder ≡ result.taken }
    {
        Course {
            decoder: Decoder::new(alloc),
            manners: Manners {
                verbose: true,
                pedantic: true,
                pings: Pings::Answered,
                ticks: limits.ticks,
            },
            taken: 0,
            quiets: 0,
            came: None,
        }
    }
}

/// How much of the room a take may fill.
fn room_within(room: usize, left: u64) -> usize
    requires room { 0 < room }
    requires left { 0 < left }
    ensures some { 0 < result }
    ensures room { result ≤ room }
    ensures left { result ≤ left }
{
    room.min(usize::try_from(left).unwrap_or(room))
}

/// Keeps the connection alive in a quiet turn: gives a PING if one is due. A client that answers none for too long is given up.
fn keep_alive<L: Link>(
    alloc: Global,
    link: &mut L,
    pings: &mut Pings,
    came: Moment,
    now: Moment,
) -> Result<(), Ended>
    ensures keeps { Keeps result came now (moments pings.old) (moments pings.new) (L.given link.old) (L.given link.new) }
    ensures answered { L.answered link.new ≡ L.answered link.old }
    ensures failings { HasNoFailings (L.failings link.old) → FailsIn result (L.failings link.old) (L.failings link.new) }
    ensures cause { HasCause (L.faults link.old) (L.faults link.new) (result ≡ Err Ended.LinkFault) }
{
    if pings.is_stale(now) {
        let mut nothing = Vec::new(alloc);
        return Err(part(alloc, link, Ended::Stale, &mut nothing));
    }
    if !pings.is_due(came, now) {
        return Ok(());
    }
    match give_frame(alloc, link, &Frame::Ping) {
        Ok(()) => {
            *pings = pings.with_one(now);
            Ok(())
        }
        Err(fault) => Err(Ended::from(fault)),
    }
}

/// Rests in a quiet turn: keeps the connection alive, carries out the tick, and gives its bytes.
fn rest<D: Desk, L: Link>(
    alloc: Global,
    desk: &mut D,
    link: &mut L,
    course: &mut Course,
    now: Moment,
) -> Result<(), Ended>
    requires is_open { (D.client desk.old).is_open ≡ true }
    requires quiets { course.old.quiets + 1 < 2 ^ 64 }
    ensures rests { Rests result D.made now (stage_of (D.client desk.old) course.old) (stage_of (D.client desk.new) course.new) desk.old desk.new
        (L.given link.old) (L.given link.new) }
    ensures decoder { OnOk result (course.new.decoder ≡ course.old.decoder) }
    ensures taken { OnOk result (course.new.taken ≡ course.old.taken) }
    ensures quiets { OnOk result (course.new.quiets ≡ course.old.quiets + 1) }
    ensures client { D.client desk.new ≡ D.client desk.old }
    ensures is_open { (D.client desk.new).is_open ≡ true }
    ensures answered { L.answered link.new ≡ L.answered link.old }
    ensures failings { HasNoFailings (L.failings link.old) → FailsIn result (L.failings link.old) (L.failings link.new) }
    ensures cause { HasCause (L.faults link.old) (L.faults link.new) (result ≡ Err Ended.LinkFault) }
{
    let came = course.came.unwrap_or(now);
    match keep_alive(alloc, link, &mut course.manners.pings, came, now) {
        Ok(()) => {}
        Err(ended) => return Err(ended),
    }
    let mut waiting = Vec::new(alloc);
    match end_turn(alloc, desk, link, course.manners, now, &mut waiting) {
        Ok(()) => {}
        Err(ended) => return Err(ended),
    }
    course.quiets += 1;
    course.came = Some(came);
    Ok(())
}

/// Takes a turn: hears a piece, or rests if nothing came. An `Err` is the session's end.
pub(crate) fn take_turn<D: Desk, L: Link, C: Clock>(
    alloc: Global,
    desk: &mut D,
    link: &mut L,
    clock: &mut C,
    limits: &Limits,
    course: &mut Course,
    room: &mut [u8],
) -> Result<(), Ended>
    requires is_open { (D.client desk.old).is_open ≡ true }
    requires unspent { IsUnspent limits.now (stage_of (D.client desk.old) course.old) }
    requires fed { total course.old.decoder ≡ course.old.taken }
    requires room { 0 < length room.old }
    requires input { limits.now.input < 2 ^ 62 }
    ensures turns { Turns result D.made limits.now (D.client desk.old).session
        (stage_of (D.client desk.old) course.old) (stage_of (D.client desk.new) course.new) desk.old desk.new
        (L.answered link.old) (L.answered link.new) (L.given link.old) (L.given link.new) (C.to_come clock.old) (C.to_come clock.new)
        (L.failings link.old) (L.failings link.new) }
    ensures fed { OnOk result (total course.new.decoder ≡ course.new.taken) }
    ensures input { OnOk result (course.new.taken ≤ limits.now.input) }
    ensures quiet { OnOk result (course.new.quiets ≤ limits.now.quiet) }
    ensures fewer { OnOk result (turns_left limits.now course.new < turns_left limits.now course.old) }
    ensures session { (D.client desk.new).session ≡ (D.client desk.old).session }
    ensures is_open { (D.client desk.new).is_open ≡ true }
    ensures cause { HasCause (L.faults link.old) (L.faults link.new) (result ≡ Err Ended.LinkFault) }
{
    let most = room_within(room.len(), limits.input - course.taken);
    match link.take(&mut room[..most]) {
        Take::Got(count) => {
            let now = clock.now();
            match hear(
                alloc,
                desk,
                link,
                &mut course.decoder,
                &mut course.manners,
                &room[..count],
                now,
            ) {
                Ok(()) => {}
                Err(ended) => return Err(ended),
            }
            course.taken += count as u64;
            course.quiets = 0;
            course.came = Some(now);
            Ok(())
        }
        Take::Quiet => {
            let now = clock.now();
            rest(alloc, desk, link, course, now)
        }
        Take::Ended => Err(Ended::Closed),
        Take::Failed => Err(Ended::LinkFault),
        Take::NoMemory => Err(Ended::NoMemory),
    }
}
