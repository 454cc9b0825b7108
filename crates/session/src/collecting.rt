//! What waits for a session is collected.

ghost use Rattle.std.specs.Prelude.{◌≡◌, ◌++◌, true, OnOk};
ghost use Rattle.session.specs.Gathering.{frames};
ghost use Rattle.session.specs.Collecting.{CollectsOnce, Collects, LeavesFewer};

use crate::stop::Stop;
use js_api::Desk;
use js_base::{Frame, NoMemory};
use js_model::Collected;
use nats_frames::write_frame;

/// How many bytes of frames are collected at once.
const COLLECT: usize = 65_536;

/// Adds the bytes of the frames.
fn write_frames(list: &[Frame], into: &mut Vec<u8>) -> Result<(), NoMemory>
    ensures ok { OnOk result (into.new.items ≡ into.old.items ++ frames list.now) }
{
    for frame in list {
        write_frame(frame, into)?;
    }
    Ok(())
}

/// Collects once, and adds the bytes of the frames: whether more are left.
fn collect_once<D: Desk>(desk: &mut D, into: &mut Vec<u8>) -> Result<bool, Stop>
    requires is_open { (D.client desk.old).is_open ≡ true }
    ensures collects { CollectsOnce D.made (D.client desk.old) desk.old desk.new into.old.items into.new.items result }
    ensures fewer { LeavesFewer result (D.left desk.old) (D.left desk.new) }
    ensures client { D.client desk.new ≡ D.client desk.old }
    ensures is_open { (D.client desk.new).is_open ≡ true }
{
    match desk.collect(COLLECT) {
        Ok(Collected::Frames { list, more }) => match write_frames(list.as_slice(), into) {
            Ok(()) => Ok(more),
            Err(_) => Err(Stop::NoMemory),
        },
        Ok(Collected::Slow { length }) => Err(Stop::Slow(length)),
        Err(fault) => Err(Stop::from(fault)),
    }
}

/// Collects until nothing waits for the session, and adds the bytes of what waited.
pub(crate) fn collect_all<D: Desk>(desk: &mut D, into: &mut Vec<u8>) -> Result<(), Stop>
    requires is_open { (D.client desk.old).is_open ≡ true }
    ensures collects { Collects D.made (D.client desk.old) desk.old desk.new into.old.items into.new.items result }
    ensures client { D.client desk.new ≡ D.client desk.old }
    ensures is_open { (D.client desk.new).is_open ≡ true }
{
    loop {
        match collect_once(desk, into) {
            Ok(true) => {}
            Ok(false) => return Ok(()),
            Err(stop) => return Err(stop),
        }
    }
}
