//! What a message becomes for those that take it, and how it is handed to them.

ghost use Rattle.std.specs.Prelude.{◌≡◌, ◌++◌, IfOk, OnOk, filter, fold, map};
ghost use Rattle.js_model.specs.Router.{is_plain};
ghost use Rattle.route_core.specs.Groups.{takers_of};
ghost use Rattle.route_core.specs.Deliveries.{delivery_of, deliveries_of, handed_over, counted_once};
ghost use Rattle.route_core.specs.Sessions.{InOrder};

use crate::delivery::Delivery;
use crate::groups::next_of_groups;
use crate::open_sessions::{place_of, takes_headers};
use crate::roused::Roused;
use crate::session::Session;
use crate::table::{Heard, Table};
use js_base::{NoMemory, Out};
use std::alloc::Global;
use std::sync::Arc;

/// A message for a subscription, and the number of the subscription in the table.
#[derive(Drop)]
pub(crate) struct Posted {
    number: u64,
    delivery: Delivery,
}

/// The message for a subscription.
fn posted_for(
    alloc: Global,
    sessions: &[Session],
    out: &Out,
    heard: &Heard,
) -> Result<Posted, NoMemory>
    requires numbered { InOrder sessions.now }
    ensures value { IfOk result (λ posted. posted.delivery ≡ delivery_of sessions.now out.now heard.now.sub.now) }
{
    let headers = takes_headers(sessions, heard.sub.session());
    let delivery = Delivery::of(alloc, out, heard.sub, headers)?;
    Ok(Posted {
        number: heard.number,
        delivery,
    })
}

/// Adds the message for each subscription that is in no queue group.
fn add_plain(
    list: &mut Vec<Posted>,
    sessions: &[Session],
    hearing: &[Heard],
    out: &Out,
) -> Result<(), NoMemory>
    requires numbered { InOrder sessions.now }
    ensures added { OnOk result (map (λ posted. posted.delivery) list.new.items ≡ map (λ posted. posted.delivery) list.old.items ++ deliveries_of sessions.now out.now (filter is_plain (map (λ heard. heard.sub.now) hearing.now))) }
{
    for heard in hearing {
        if heard.sub.is_plain() {
            let alloc = *list.allocator();
            list.push(posted_for(alloc, sessions, out, heard)?)?;
        }
    }
    Ok(())
}

/// Adds the message for each of these subscriptions.
fn add_each(
    list: &mut Vec<Posted>,
    sessions: &[Session],
    takers: &[Heard],
    out: &Out,
) -> Result<(), NoMemory>
    requires numbered { InOrder sessions.now }
    ensures added { OnOk result (map (λ posted. posted.delivery) list.new.items ≡ map (λ posted. posted.delivery) list.old.items ++ deliveries_of sessions.now out.now (map (λ heard. heard.sub.now) takers.now)) }
{
    for heard in takers {
        let alloc = *list.allocator();
        list.push(posted_for(alloc, sessions, out, heard)?)?;
    }
    Ok(())
}

/// The message for each subscription that takes it: those in no queue group in the order of their making, and then one of each group, in the
/// order of the groups' first ones.
pub(crate) fn deliveries(
    alloc: Global,
    sessions: &[Session],
    subscriptions: &Table,
    out: &Out,
    deaf: Option<u64>,
) -> Result<Vec<Posted>, NoMemory>
    requires numbered { InOrder sessions.now }
    ensures value { IfOk result (λ list. map (λ posted. posted.delivery) list.items ≡ deliveries_of sessions.now out.now (takers_of out.now.to deaf subscriptions.now)) }
{
    let hearing = subscriptions.hearing(out.to.as_slice(), deaf)?;
    let mut list = Vec::new(alloc);
    add_plain(&mut list, sessions, hearing.as_slice(), out)?;
    let members = next_of_groups(alloc, hearing.as_slice())?;
    add_each(&mut list, sessions, members.as_slice(), out)?;
    Ok(list)
}

/// Hands the message to its session. It takes no memory.
fn hand_over(sessions: &mut [Session], delivery: Delivery)
    requires numbered { InOrder sessions.old }
    ensures value { sessions.new ≡ handed_over sessions.old delivery }
{
    if let Some(at) = place_of(sessions, delivery.session) {
        let session = &mut sessions[at];
        session.receive(delivery.frame);
    }
}

/// Hands each message to its session, and counts it for its subscription. It takes no memory.
pub(crate) fn hand_over_all(sessions: &mut [Session], subscriptions: &mut Table, list: Vec<Posted>)
    requires numbered { InOrder sessions.old }
    ensures sessions { sessions.new ≡ fold handed_over sessions.old (map (λ posted. posted.delivery) list.items) }
    ensures subscriptions { subscriptions.new ≡ fold counted_once subscriptions.old (map (λ posted. posted.delivery) list.items) }
{
    for posted in list {
        let Posted { number, delivery } = posted;
        subscriptions.count_sent(number, delivery.session, delivery.sid.as_slice());
        hand_over(sessions, delivery);
    }
}

/// Adds the sessions of these messages to those that were handed some, if anybody takes note of that.
pub(crate) fn rouse(roused: &Option<Arc<Roused>>, list: &[Posted]) {
    let Some(roused) = roused else {
        return;
    };
    for posted in list {
        roused.add(posted.delivery.session);
    }
}
