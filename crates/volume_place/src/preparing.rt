//! Room that is made ahead of what needs it.

ghost use Rattle.std.specs.Prelude.{◌≡◌, ◌⊎◌, ◌≤◌, ◌^◌, IfErr, IfOk, IsErrOf, IsTrue, OnOk};
ghost use Rattle.std.specs.List.{list_all};
ghost use Rattle.js_base.specs.Causes.{HasCause, Rose};
ghost use Rattle.js_model.specs.Proper.{is_proper_what};
ghost use Rattle.durable_checks.specs.Storable.{IsFormed};
ghost use Rattle.effects.specs.declared.durable.Durable.{Durable};
ghost use Rattle.op_records.specs.Allowed.{is_record};
ghost use Rattle.place_engine.specs.declared.faults.OpenFault.{OpenFault};
ghost use Rattle.snapshot_bound.specs.Bounds.{bound, fixed};
ghost use Rattle.vol_disk.specs.Does.{Rests};
ghost use Rattle.stream_store.specs.Base.{IsBase, LeavesBase};
ghost use Rattle.stream_store.specs.Clearing.{KeepsClosed};
ghost use Rattle.stream_store.specs.Rooms.{AreMore, AreReserved, OutgrowsLogs};
ghost use Rattle.volume_place.specs.Opening.{IsOutside};
ghost use Rattle.volume_place.specs.Preparing.{KeepsLog, KeepsUnlessFailed, LacksRoomFor};
ghost use Rattle.volume_place.specs.Reserve.{KeepsReserveOf};

use crate::room::spot_of;
use effects::{Durable, Effect};
use js_model::What;
use place_engine::OpenFault;
use snapshot_bound::{fixed_of, held_bound};
use std::alloc::Global;
use stream_store::{RoomFault, Store};
use vol_disk::{Failed, Vol};

/// Makes room in both logs for a place that comes to so much at most with what is asked, and then for the message of a publish where it goes behind what waits. If
/// there is none in the logs, none is made for the message. The base stays, and a crash at any moment leaves it; after `Fault` nothing is known of the store.
pub(crate) fn make_room<V: Vol>(
    store: &mut Store,
    vol: &mut V,
    waiting: &[Effect],
    what: &What,
    count: u64,
) -> Result<(), RoomFault>
    requires records { IsTrue (list_all is_record waiting.now) }
    requires proper { IsTrue (is_proper_what what.now) }
    requires base { V.told → (base : Durable) × IsBase store.old base (V.disk vol.old) }
    ensures keeps { V.told → KeepsUnlessFailed result store.old store.new (V.disk vol.old) (V.disk vol.new) }
    ensures same { KeepsLog store.old store.new }
    ensures more { AreMore store.old.rooms store.new.rooms }
    ensures any_moment { V.told → LeavesBase store.old (V.disk vol.old) (V.disk vol.new) }
    ensures lacks { OnOk result (LacksRoomFor V.refusals store.new waiting.now what.now count vol.old vol.new) }
    ensures cause { HasCause (V.faults vol.old) (V.faults vol.new) (IsErrOf result RoomFault.Fault) }
    ensures refusals { V.refusals vol.old ≤ V.refusals vol.new }
    ensures later { (V.disk vol.old).moment ≤ (V.disk vol.new).moment }
{
    if !store.reserve(vol, count)? {
        return Ok(());
    }
    let What::Publish(publish) = what else {
        return Ok(());
    };
    let Some(spot) = spot_of(store, waiting, publish)? else {
        return Ok(());
    };
    store.reach(vol, spot)?;
    Ok(())
}

/// Makes room in both logs for a next one that begins with what was read, if that is a stream, and tells how many bytes its texts take there. The base stays, and a
/// crash at any moment leaves it.
pub(crate) fn keep_reserve<V: Vol>(
    alloc: Global,
    store: &mut Store,
    vol: &mut V,
    durable: &Durable,
) -> Result<u64, OpenFault>
    requires formed { IsFormed durable.now }
    requires base { V.told → IsBase store.old durable.now (V.disk vol.old) }
    ensures fixed { IfOk result (λ count. (count ≡ fixed durable.now) × (count ≤ 2 ^ 31)) }
    ensures reserved { OnOk result (KeepsReserveOf store.new.rooms durable.now) }
    ensures keeps { V.told → OnOk result (IsBase store.new durable.now (V.disk vol.new)) }
    ensures same { KeepsLog store.old store.new }
    ensures closed { V.told → OnOk result (KeepsClosed (V.disk vol.old) (V.disk vol.new)) }
    ensures elsewhere { V.told → (file : _) → 2 ≤ file → Rests file (V.disk vol.old) (V.disk vol.new) }
    ensures any_moment { V.told → LeavesBase store.old (V.disk vol.old) (V.disk vol.new) }
    ensures only { IfErr result IsOutside }
    ensures lacks { IsErrOf result OpenFault.NoRoom → Rose (V.refusals vol.old) (V.refusals vol.new) ⊎ OutgrowsLogs (bound durable.now) }
    ensures cause { HasCause (V.faults vol.old) (V.faults vol.new) (IsErrOf result OpenFault.Fault) }
    ensures refusals { V.refusals vol.old ≤ V.refusals vol.new }
    ensures later { (V.disk vol.old).moment ≤ (V.disk vol.new).moment }
{
    if durable.body.is_none() {
        return Ok(0);
    }
    let Ok(bound) = held_bound(alloc, durable) else {
        return Err(OpenFault::NoMemory);
    };
    let Ok(fixed) = fixed_of(alloc, durable) else {
        return Err(OpenFault::NoMemory);
    };
    match store.reserve(vol, bound) {
        Ok(true) => Ok(fixed),
        Ok(false) => Err(OpenFault::NoRoom),
        Err(Failed) => Err(OpenFault::Fault),
    }
}
