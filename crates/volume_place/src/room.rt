//! Whether there is room for what is asked.

ghost use Rattle.std.specs.Prelude.{◌≡◌, ◌+◌, ◌≤◌, ◌^◌, IfErr, IfOk, IfSome, IsTrue};
ghost use Rattle.std.specs.List.{list_all};
ghost use Rattle.js_model.specs.Proper.{is_proper_publish, is_proper_what};
ghost use Rattle.memory_place.specs.Answers.{LeftBy, PlaceAnswersIn};
ghost use Rattle.memory_place.specs.Recording.{TellsEventIn};
ghost use Rattle.model_laws.specs.Bounds.{IsBounded};
ghost use Rattle.op_records.specs.Allowed.{is_put, is_record};
ghost use Rattle.place_engine.specs.Places.{IsTold};
ghost use Rattle.place_engine.specs.Shown.{IsShown};
ghost use Rattle.place_records.specs.Records.{effects_in};
ghost use Rattle.snapshot_bound.specs.Laws.{if_room};
ghost use Rattle.stream_store.specs.Placing.{IsMessageSpot, spot_behind};
ghost use Rattle.volume_place.specs.Growing.{IsGrowth};
ghost use Rattle.volume_place.specs.Rooms.{IsCounted, block_length, is_reached_by, room_for, stored_by};

use crate::asking::{Growth, bound_with};
use effects::Effect;
use js_base::{Moment, NoMemory, Outs, Spot};
use js_model::{Publish, Reply, What};
use memory_place::Slot;
use place_engine::Left;
use place_records::Made;
use stream_store::{Store, message_len};

/// Whether there is room for what is asked, behind what waits at a place whose texts take no more than so much, and which it raises by no more than that. An `Err`
/// tells nothing.
pub(crate) fn has_room(
    slot: &Slot,
    fixed: u64,
    store: &mut Store,
    waiting: &[Effect],
    what: &What,
    growth: Growth,
) -> Result<bool, NoMemory>
    requires fixed { fixed ≤ 2 ^ 31 }
    requires bounded { IsBounded slot.now }
    requires growth { IsGrowth slot.now what.now growth }
    requires records { IsTrue (list_all is_record waiting.now) }
    requires proper { IsTrue (is_proper_what what.now) }
    ensures value { IfOk result (λ room. room ≡ room_for fixed store.old slot.now waiting.now what.now) }
    ensures fits { IfOk result (λ room. fixed + if_room room growth.fixed ≤ 2 ^ 31) }
    ensures same { store.new ≡ store.old }
{
    if growth.whole() == 0 {
        return Ok(true);
    }
    let count = bound_with(slot, fixed).saturating_add(growth.whole());
    if !store.is_reserved(count) {
        return Ok(false);
    }
    is_reached(store, waiting, what)
}

/// Whether the message of a publish has room where it goes. Nothing else that is asked stores one.
fn is_reached(store: &mut Store, waiting: &[Effect], what: &What) -> Result<bool, NoMemory>
    requires records { IsTrue (list_all is_record waiting.now) }
    requires proper { IsTrue (is_proper_what what.now) }
    ensures value { IfOk result (λ reached. reached ≡ is_reached_by store.old waiting.now what.now) }
    ensures same { store.new ≡ store.old }
{
    let What::Publish(publish) = what else {
        return Ok(true);
    };
    let Some(spot) = spot_of(store, waiting, publish)? else {
        return Ok(false);
    };
    Ok(store.reaches(spot))
}

/// Where the message of a publish goes behind what waits. `None` if no block is free for it.
pub(crate) fn spot_of(
    store: &mut Store,
    waiting: &[Effect],
    publish: &Publish,
) -> Result<Option<Spot>, NoMemory>
    requires records { IsTrue (list_all is_record waiting.now) }
    requires proper { IsTrue (is_proper_publish publish.now) }
    ensures value { IfOk result (λ spot. spot ≡ spot_behind store.old.blocks waiting.now (block_length publish.now)) }
    ensures spot { IfOk result (λ spot. IfSome spot IsMessageSpot) }
    ensures same { store.new ≡ store.old }
{
    store.spot_behind(waiting, block_length(publish))
}

/// How many bytes the message of a publish has in a block.
fn block_length(publish: &Publish) -> u32
    requires proper { IsTrue (is_proper_publish publish.now) }
    ensures value { result ≡ block_length publish.now }
{
    message_len(&publish.subject, &publish.headers, &publish.payload)
}

/// Has what is asked answered at a moment, for which there is room or not. An `Err` says what is left.
pub(crate) fn answer_in(
    slot: &mut Slot,
    room: bool,
    what: &What,
    now: Moment,
    outs: &mut Outs,
    made: &mut Made,
) -> Result<Reply, Left>
    requires told { IsTold what.now }
    requires proper { IsTrue (is_proper_what what.now) }
    ensures answers { IfOk result (λ reply. PlaceAnswersIn room slot.old what.now now reply outs.old outs.new slot.new) }
    ensures shown { IfOk result IsShown }
    ensures err { IfErr result (λ left. LeftBy left slot.old now outs.old outs.new slot.new) }
    ensures recorded { TellsEventIn room result slot.old what.now now (effects_in made.new) }
{
    if room {
        slot.answer(what, now, outs, made)
    } else {
        slot.answer_without_room(what, now, outs, made)
    }
}

/// How many messages count once these records are made.
pub(crate) fn count_with(stored: u64, made: &Made) -> u64
    ensures value { IsCounted stored (stored_by (effects_in made.now)) result }
{
    let Some(effect) = &made.own.effect else {
        return stored;
    };
    if stores_message(effect) {
        stored.saturating_add(1)
    } else {
        stored
    }
}

/// Whether the record stores a message.
fn stores_message(effect: &Effect) -> bool
    ensures value { result ≡ is_put effect.now }
{
    matches!(effect, Effect::PutHere { .. })
}
