//! What becomes of the catalog after a hold, within its one turn.

ghost use Rattle.std.specs.Prelude.{◌≡◌, ◌<◌, ◌^◌, true, if◌then◌else◌};
ghost use Rattle.js_model.specs.Cataloging.{HasPlace};
ghost use Rattle.js_api.specs.OneStream.{free_if_dropped, free_unless_made, is_done, is_info, keep_subjects};
ghost use Rattle.desk_ground.specs.Grounds.{Between, IsBetween, Knows, Owing, Within};
ghost use Rattle.desk_answers.specs.Became.{is_dropped};

use desk_ground::Ground;
use js_api::Became;
use js_model::{PlaceAt, Reply};

// ---- replies

/// Whether the stream answered by its information.
fn is_info(reply: &Reply) -> bool
    ensures value { result ≡ is_info reply.now }
{
    matches!(reply, Reply::Info(_))
}

/// Whether the stream answered by no more than that it was done.
fn is_done(reply: &Reply) -> bool
    ensures value { result ≡ is_done reply.now }
{
    matches!(reply, Reply::Done)
}

// ---- the catalog

/// Frees a place that was taken for a stream, unless the stream was made there. The place is stopped if the hold broke or it was stopped before.
pub fn free_unless_made<G: Ground>(ground: &mut G, at: PlaceAt, became: &Became)
    requires turn { G.phase ground.old ≡ Within }
    requires known { Knows (G.kept ground.old) at }
    ensures made { G.made ground.old (free_unless_made at became.now) ground.new }
    ensures setting { G.setting ground.new ≡ G.setting ground.old }
    ensures phase { G.phase ground.new ≡ Within }
{
    match became {
        Became::Made(reply) => {
            if !is_info(reply) {
                ground.remove(at.place, false);
            }
        }
        Became::Unsaid { refused } => {
            if *refused {
                ground.remove(at.place, false);
            }
        }
        Became::Broke { .. } | Became::Stopped { .. } => ground.stop(at.place),
        Became::Ticked | Became::Nothing | Became::Gone => ground.remove(at.place, false),
    }
}

/// Keeps the new subjects of a stream that was changed, and the old ones of any other. With both it is stopped if the hold broke.
pub fn keep_subjects<G: Ground>(ground: &mut G, at: PlaceAt, became: &Became)
    requires turn { G.phase ground.old ≡ Between at.place }
    requires between { HasPlace (G.kept ground.old) at.place (IsBetween at) }
    ensures made { G.made ground.old (keep_subjects at became.now) ground.new }
    ensures setting { G.setting ground.new ≡ G.setting ground.old }
    ensures phase { G.phase ground.new ≡ Within }
{
    match became {
        Became::Made(reply) => ground.keep(at.place, is_info(reply)),
        Became::Unsaid { refused } => ground.keep(at.place, !*refused),
        Became::Broke { .. } => ground.stop(at.place),
        Became::Stopped { stream: _ } => ground.keep(at.place, false),
        Became::Ticked | Became::Nothing | Became::Gone => ground.keep(at.place, false),
    }
}

/// Frees the place of a stream that was dropped. The place is stopped if the hold broke.
pub fn free_if_dropped<G: Ground>(ground: &mut G, at: PlaceAt, became: &Became)
    requires turn { G.phase ground.old ≡ (if is_dropped became.now then Owing at.place else Within) }
    requires known { Knows (G.kept ground.old) at }
    requires number { is_dropped became.now ≡ true → at.incarnation < 2 ^ 62 }
    ensures made { G.made ground.old (free_if_dropped at became.now) ground.new }
    ensures setting { G.setting ground.new ≡ G.setting ground.old }
    ensures phase { G.phase ground.new ≡ Within }
{
    match became {
        Became::Made(reply) => {
            if is_done(reply) {
                ground.remove(at.place, true);
            }
        }
        Became::Unsaid { refused } => {
            if !*refused {
                ground.remove(at.place, true);
            }
        }
        Became::Broke { .. } => ground.stop(at.place),
        Became::Ticked | Became::Nothing | Became::Stopped { stream: _ } | Became::Gone => {}
    }
}
