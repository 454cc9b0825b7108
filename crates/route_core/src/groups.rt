//! Which member of each queue group takes a message.

ghost use Rattle.std.specs.Prelude.{◌≡◌, IfOk, OnOk, Some, map};
ghost use Rattle.route_core.specs.Groups.{next_of_two, next_of_groups, with_candidate, place_of, ArePlaces};

use crate::table::Heard;
use js_base::NoMemory;
use std::alloc::Global;
use std::collections::BTreeMap;

/// The place of each group's member, by the group's name.
type Places<'a> = BTreeMap<&'a [u8], usize>;

/// The place of the group's member.
fn place_of(places: &Places<'_>, group: &[u8]) -> Option<usize>
    ensures value { result ≡ place_of places.now group.now }
{
    places.get(group).copied()
}

/// Has the other member take the message if it was sent fewer.
fn prefer<'a>(member: &mut Heard<'a>, other: &Heard<'a>)
    ensures value { member.new.sub.now ≡ next_of_two member.old.sub.now other.now.sub.now }
{
    if other.sub.sent() < member.sub.sent() {
        *member = *other;
    }
}

/// Enters one more candidate of a group: the group's first one, or one that takes the message if it was sent fewer.
fn enter<'a>(
    members: &mut Vec<Heard<'a>>,
    places: &mut Places<'a>,
    group: &'a [u8],
    heard: &Heard<'a>,
) -> Result<(), NoMemory>
    requires group { heard.now.sub.now.queue ≡ Some group.now }
    requires places { ArePlaces places.old (map (λ member. member.sub.now) members.old.items) }
    ensures members { OnOk result (map (λ member. member.sub.now) members.new.items ≡ with_candidate (map (λ member. member.sub.now) members.old.items) heard.now.sub.now) }
    ensures places { OnOk result (ArePlaces places.new (map (λ member. member.sub.now) members.new.items)) }
{
    match place_of(places, group) {
        Some(at) => {
            let member = &mut members[at];
            prefer(member, heard);
            Ok(())
        }
        None => {
            places.insert(group, members.len())?;
            members.push(*heard)?;
            Ok(())
        }
    }
}

/// The member of each group that takes the message, of those that may be sent it, in the order of the groups' first ones. It costs a search by
/// the group's name for each of them.
pub(crate) fn next_of_groups<'a>(
    alloc: Global,
    hearing: &[Heard<'a>],
) -> Result<Vec<Heard<'a>>, NoMemory>
    ensures value { IfOk result (λ members. map (λ member. member.sub.now) members.items ≡ next_of_groups (map (λ heard. heard.sub.now) hearing.now)) }
{
    let mut members = Vec::new(alloc);
    let mut places = BTreeMap::new(alloc);
    for heard in hearing {
        if let Some(group) = heard.sub.queue() {
            enter(&mut members, &mut places, group, heard)?;
        }
    }
    Ok(members)
}
