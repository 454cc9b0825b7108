//! The calls for the session of a desk, which the router carries out if the session is open.

ghost use Rattle.std.specs.Prelude.{◌≡◌, IsTrue, option_map, true};
ghost use Rattle.js_base.specs.Subjects.{is_pattern_text};
ghost use Rattle.js_model.specs.Router as router;
ghost use Rattle.js_api.specs.Answering.{Close, Collect, Sub, Unsub, done, gave};
ghost use Rattle.js_api.specs.Calls.{Does, IfOpen, Routes};
ghost use Rattle.js_api.specs.Collecting.{LeavesLess};
ghost use Rattle.js_api.specs.Leading.{Makes};
ghost use Rattle.desk_ground.specs.Callers.{client_of};

use desk_ground::{Caller, Ground};
use js_api::DeskFault;
use js_model::Collected;

/// Sets whether the client hears its own messages, and whether it takes header blocks.
pub fn options<G: Ground>(
    ground: &mut G,
    caller: Caller,
    echo: bool,
    headers: bool,
) -> Result<(), DeskFault>
    requires open { caller.is_open ≡ true → (G.setting ground.old).opened caller.session ≡ true }
    ensures made { Makes G.made (IfOpen (client_of caller) (Routes (router.Options caller.session echo headers)) (done result)) ground.old ground.new }
    ensures setting { G.setting ground.new ≡ G.setting ground.old }
    ensures phase { G.phase ground.new ≡ G.phase ground.old }
{
    if !caller.is_open {
        return Err(DeskFault::NoSession(caller.session));
    }
    ground.options(caller.session, echo, headers)
}

/// Subscribes the session.
pub fn sub<G: Ground>(
    ground: &mut G,
    caller: Caller,
    subject: &[u8],
    queue: Option<&[u8]>,
    sid: &[u8],
) -> Result<(), DeskFault>
    requires open { caller.is_open ≡ true → (G.setting ground.old).opened caller.session ≡ true }
    requires pattern { IsTrue (is_pattern_text subject.now) }
    ensures made { Makes G.made
        (Does (client_of caller) (Sub subject.now (option_map (λ text. text.now) queue.entry) sid.now) (done result)) ground.old ground.new }
    ensures setting { G.setting ground.new ≡ G.setting ground.old }
    ensures phase { G.phase ground.new ≡ G.phase ground.old }
{
    if !caller.is_open {
        return Err(DeskFault::NoSession(caller.session));
    }
    ground.sub(caller.session, subject, queue, sid)
}

/// Ends a subscription of the session.
pub fn unsub<G: Ground>(
    ground: &mut G,
    caller: Caller,
    sid: &[u8],
    max: Option<u64>,
) -> Result<(), DeskFault>
    requires open { caller.is_open ≡ true → (G.setting ground.old).opened caller.session ≡ true }
    ensures made { Makes G.made (Does (client_of caller) (Unsub sid.now max) (done result)) ground.old ground.new }
    ensures setting { G.setting ground.new ≡ G.setting ground.old }
    ensures phase { G.phase ground.new ≡ G.phase ground.old }
{
    if !caller.is_open {
        return Err(DeskFault::NoSession(caller.session));
    }
    ground.unsub(caller.session, sid, max)
}

/// Takes frames that wait for the session.
pub fn collect<G: Ground>(
    ground: &mut G,
    caller: Caller,
    max: usize,
) -> Result<Collected, DeskFault>
    requires open { caller.is_open ≡ true → (G.setting ground.old).opened caller.session ≡ true }
    ensures made { Makes G.made (Does (client_of caller) (Collect max) (gave result)) ground.old ground.new }
    ensures left { LeavesLess result (G.left ground.old caller.session) (G.left ground.new caller.session) }
    ensures setting { G.setting ground.new ≡ G.setting ground.old }
    ensures phase { G.phase ground.new ≡ G.phase ground.old }
{
    if !caller.is_open {
        return Err(DeskFault::NoSession(caller.session));
    }
    ground.collect(caller.session, max)
}

/// Closes the session.
pub fn close<G: Ground>(ground: &mut G, caller: Caller) -> Result<(), DeskFault>
    requires open { caller.is_open ≡ true → (G.setting ground.old).opened caller.session ≡ true }
    ensures made { Makes G.made (Does (client_of caller) Close (done result)) ground.old ground.new }
    ensures places { (G.setting ground.new).places ≡ (G.setting ground.old).places }
    ensures phase { G.phase ground.new ≡ G.phase ground.old }
{
    if !caller.is_open {
        return Err(DeskFault::NoSession(caller.session));
    }
    ground.close(caller.session)
}
