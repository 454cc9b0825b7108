//! The top call.

ghost use Rattle.std.specs.Prelude.{◌≡◌, ◌≢◌, ◌≤◌, ◌↔◌, None, Some, false, IfSome, IsTrue, vec_len};
ghost use Rattle.js_api.specs.Worlds.{opening};
ghost use Rattle.desk_places.specs.Closing.{Closes};
ghost use Rattle.desk_places.specs.Opening.{FailsToOpen};
ghost use Rattle.js_desk.specs.Opening.{OpensDesk};
ghost use Rattle.js_desk.specs.Solo.{DeskMade};
ghost use Rattle.js_model.specs.Configs.{is_stream_subject};
ghost use Rattle.server.specs.Attending.{IsAttendedOver};
ghost use Rattle.shared_desk.specs.Closing.{ClosesHub};
ghost use Rattle.shared_desk.specs.Opening.{FailsToOpenHub, OpensHub};
ghost use Rattle.server.specs.Commands.{CommandEnds};
ghost use Rattle.server.specs.Ending.{PipeEnds};
ghost use Rattle.server.specs.Outside.{Prints};
ghost use Rattle.server.specs.Words.{texts, command_of};
ghost use Rattle.server.specs.WrongWords.{Wrong, wrong_line, wrong_of};

use crate::closing::settle;
use crate::hub_serving::serve_hub;
use crate::preparing::prepare;
use crate::printing::{print_number, print_wrong};
use crate::refusing::refuse;
use crate::serving::{Outcome, serve_first, status_of};
use crate::words::{Command, NamedStream, WordsFault, read_words};
use desk_places::Closed;
use js_desk::SoloDesk;
use link_edge::{Clock, Door, Gate, Notice, Sink};
use place_engine::Place;
use session::Ended;
use std::alloc::Global;
use std::sync::Wait;
use std::thread::Threads;
use tcp_edge::Rings;

/// What is left at the end of a run: its status, the door, and the volumes in their order.
#[derive(Drop)]
pub struct Finish<R, V> {
    pub status: u8,
    pub door: R,
    pub vols: Vec<V>,
}

/// Makes the stream over a desk that was just opened, and serves the first link that comes.
fn attend<P: Place, R: Door, C: Clock, O: Sink>(
    alloc: Global,
    desk: &mut SoloDesk<P>,
    stream: &Option<NamedStream>,
    door: &mut R,
    clock: &mut C,
    out: &mut O,
) -> Outcome
    requires opened { desk.old.scene ≡ opening desk.old.scene.world.places }
    requires closed { desk.old.client.is_open ≡ false }
    requires subject { IfSome stream.now (λ named. IsTrue (is_stream_subject named.subject)) }
    ensures attended { IsAttendedOver (DeskMade P.keeps_vol P.holds P.left P.clock P.base P.room_causes.outgrows_log) desk.old desk.new stream.now result
        (record {
          door = record { answered = R.answered door.old; gave = R.gave door.old; back = R.back door.old; starved = R.starved door.old; faults = R.faults door.old };
          clock = C.to_come clock.old;
          sink = record { written = O.written out.old; faults = O.faults out.old };
        })
        (record {
          door = record { answered = R.answered door.new; gave = R.gave door.new; back = R.back door.new; starved = R.starved door.new; faults = R.faults door.new };
          clock = C.to_come clock.new;
          sink = record { written = O.written out.new; faults = O.faults out.new };
        }) }
    ensures later { R.faults door.old ≤ R.faults door.new }
    ensures unprinted { result.status ≢ 11 → O.written out.new ≡ O.written out.old }
{
    match prepare(desk, stream, clock) {
        Ok(None) => serve_first(alloc, desk, door, clock),
        Ok(Some(error)) => {
            print_number(out, error.err_code);
            Outcome::unserved(11)
        }
        Err(fault) => Outcome::unserved(status_of(Ended::from(fault))),
    }
}

/// Opens a desk over the volumes for the stream and the first link that comes, and closes it as these leave it. The volumes are given back with the
/// status.
fn pipe<P: Place, R: Door, C: Clock, O: Sink>(
    alloc: Global,
    stream: &Option<NamedStream>,
    door: &mut R,
    vols: Vec<P::Vol>,
    clock: &mut C,
    out: &mut O,
) -> (u8, Vec<P::Vol>)
    requires volumes { vec_len vols ≤ 32 }
    requires subject { IfSome stream.now (λ named. IsTrue (is_stream_subject named.subject)) }
    ensures ends { PipeEnds
        (OpensDesk P.seen P.vol P.holds P.reads P.left P.clock P.faults P.room_causes P.base P.opens P.refuses P.keeps_vol)
        (FailsToOpen P.seen P.vol P.holds P.reads P.left P.clock P.faults P.room_causes P.base P.opens P.refuses P.keeps_vol)
        (DeskMade P.keeps_vol P.holds P.left P.clock P.base P.room_causes.outgrows_log)
        (λ desk closed. Closes P.seen P.vol P.holds P.reads P.left P.clock P.base P.keeps_vol desk.vols desk.scene.world.places closed)
        stream.now result.0 vols.items result.1.items
        (record {
          door = record { answered = R.answered door.old; gave = R.gave door.old; back = R.back door.old; starved = R.starved door.old; faults = R.faults door.old };
          clock = C.to_come clock.old;
          sink = record { written = O.written out.old; faults = O.faults out.old };
        })
        (record {
          door = record { answered = R.answered door.new; gave = R.gave door.new; back = R.back door.new; starved = R.starved door.new; faults = R.faults door.new };
          clock = C.to_come clock.new;
          sink = record { written = O.written out.new; faults = O.faults out.new };
        }) }
    ensures later { R.faults door.old ≤ R.faults door.new }
    ensures unprinted { result.0 ≢ 4 → result.0 ≢ 5 → result.0 ≢ 11 → O.written out.new ≡ O.written out.old }
{
    match SoloDesk::<P>::open(alloc, vols) {
        Ok(desk) => {
            let mut desk = desk;
            let outcome = attend(alloc, &mut desk, stream, door, clock, out);
            let Closed { vols, failed } = desk.close_all();
            (settle(out, outcome, failed), vols)
        }
        Err(fault) => refuse(out, fault),
    }
}

/// All that the program does for its command line, over places of the kind `P`, one on each volume. `pipe` opens a desk over them, makes the stream that
/// the command line names, if it names one and no stream of its name is there, with every default, accepts one link and serves it, and closes the desk as
/// this leaves it. `serve` opens a hub over them, tells the notice what stood there, and serves the links that come by as many workers as are asked for,
/// each in a thread of its own, until the door is closed or fails or as many links were accepted as are to be, and closes the hub. What waits is brought to
/// the volumes then. Any other command line is refused. The volumes come back in their order.
///
/// The status is 0 (input ended, or no more links come), 2 (command line), 3 (connection of `pipe`), 4 (a volume failed), 5 (what the volumes hold), 6 (limits
/// of the session of `pipe`, or no link), 7 (memory), 8 (door), 10 (session of `pipe` refused, or numbers used up) or 11 (stream refused). The causes are
/// looked at in the order of the work, and the first one gives the status; but want of memory in the closing stands before what a session ended by.
pub fn run<
    P: Place + Send + Sync,
    R: Door + Send,
    C: Clock + Send + Drop,
    G: Gate + Sync,
    N: Notice,
    O: Sink,
    W: Threads + Wait + Sync,
>(
    rt: &W,
    alloc: Global,
    words: &[String],
    door: R,
    vols: Vec<P::Vol>,
    clock: &mut C,
    gate: &G,
    notice: &mut N,
    out: &mut O,
) -> Finish<R, P::Vol>
where
    R::Link: Rings + Send,
    P::Vol: Sync,
    requires volumes { vec_len vols ≤ 32 }

    // Status 2 comes exactly if the command line is no command. The first thing that is wrong of it is told, the door and the volumes are not touched, the
    // clock is not read, and the notice is told nothing.
    ensures words { (result.status ≡ 2) ↔ (command_of (texts words.now) ≡ None) }
    ensures refused { command_of (texts words.now) ≡ None → (wrong : Wrong) × (wrong_of (texts words.now) ≡ Some wrong) × (result.door ≡ door) × (result.vols.items ≡ vols.items) × (C.to_come clock.new ≡ C.to_come clock.old)
        × (N.told notice.new ≡ N.told notice.old)
        × Prints (wrong_line wrong) (record { written = O.written out.old; faults = O.faults out.old }) (record { written = O.written out.new; faults = O.faults out.new }) }

    // Else the status tells why the run ended: why the volumes were not opened; or, for `pipe`, whether the stream was made, how the link ended that was
    // served over a desk with the stream, or why none came, and which place could not be brought to its volume as the desk was closed in the world that was
    // reached by then; or, for `serve`, what stood in the places as they were opened, which the notice was told, what all workers did with their seats and what
    // became of the links, why no more came, and which place could not be brought to its volume. The volumes are those before and after.
    ensures ends { IfSome (command_of (texts words.now)) (λ command. CommandEnds
        (OpensDesk P.seen P.vol P.holds P.reads P.left P.clock P.faults P.room_causes P.base P.opens P.refuses P.keeps_vol)
        (FailsToOpen P.seen P.vol P.holds P.reads P.left P.clock P.faults P.room_causes P.base P.opens P.refuses P.keeps_vol)
        (DeskMade P.keeps_vol P.holds P.left P.clock P.base P.room_causes.outgrows_log)
        (λ desk closed. Closes P.seen P.vol P.holds P.reads P.left P.clock P.base P.keeps_vol desk.vols desk.scene.world.places closed)
        (OpensHub P.seen P.vol P.holds P.reads P.left P.clock P.faults P.room_causes P.base P.opens P.refuses P.keeps_vol)
        (FailsToOpenHub P.seen P.vol P.holds P.reads P.left P.clock P.faults P.room_causes P.base P.opens P.refuses P.keeps_vol)
        (ClosesHub P.seen P.vol P.holds P.reads P.left P.clock P.base P.keeps_vol)
        command result.status vols.items result.vols.items
        (record {
          door = record { answered = R.answered door; gave = R.gave door; back = R.back door; starved = R.starved door; faults = R.faults door };
          clock = C.to_come clock.old;
          sink = record { written = O.written out.old; faults = O.faults out.old };
        })
        (record {
          door = record { answered = R.answered result.door; gave = R.gave result.door; back = R.back result.door; starved = R.starved result.door; faults = R.faults result.door };
          clock = C.to_come clock.new;
          sink = record { written = O.written out.new; faults = O.faults out.new };
        })
        (N.told notice.old) (N.told notice.new)) }
    ensures later { R.faults door ≤ R.faults result.door }

    // With every other status than these nothing is printed.
    ensures unprinted { result.status ≢ 2 → result.status ≢ 4 → result.status ≢ 5 → result.status ≢ 11 → O.written out.new ≡ O.written out.old }
{
    match read_words(alloc, words) {
        Ok(Command::Pipe { dir: _dir, stream }) => {
            let mut door = door;
            let (status, vols) = pipe::<P, R, C, O>(alloc, &stream, &mut door, vols, clock, out);
            Finish { status, door, vols }
        }
        Ok(Command::Serve(listening)) => {
            serve_hub::<P, R, C, G, N, O, W>(
                rt, alloc, &listening, door, vols, clock, gate, notice, out,
            )
        }
        Err(WordsFault::Wrong(wrong)) => {
            print_wrong(out, wrong);
            Finish {
                status: 2,
                door,
                vols,
            }
        }
        Err(WordsFault::NoMemory) => Finish {
            status: 7,
            door,
            vols,
        },
    }
}
