//! A commit of what waits, to the log or to the next one.

ghost use Rattle.std.specs.Prelude.{◌≡◌, true, IsErrOf, IsTrue, MatchBool};
ghost use Rattle.std.specs.List.{list_all};
ghost use Rattle.durable_checks.specs.Storable.{IsFormed, IsStorable};
ghost use Rattle.effects.specs.Durables.{durable_of};
ghost use Rattle.effects.specs.declared.durable.Durable.{Durable};
ghost use Rattle.op_records.specs.Allowed.{is_record};
ghost use Rattle.stream_store.specs.Alternating.{IsWithinBound};
ghost use Rattle.stream_store.specs.Base.{IsBase};
ghost use Rattle.stream_store.specs.Committing.{IsNextBatch};
ghost use Rattle.stream_store.specs.Placing.{can_place};
ghost use Rattle.stream_store.specs.Reserving.{HasMessageRoom};
ghost use Rattle.stream_store.specs.Rooms.{AreReserved, HasLogRoom};
ghost use Rattle.volume_place.specs.Committed.{Commits};
ghost use Rattle.volume_place.specs.Leaving.{IsLastLog, IsLeft, IsLeftBy};

use crate::tail::Tail;
use effects::Effect;
use memory_place::Slot;
use std::alloc::Global;
use stream_store::{CommitFault, Store};
use vol_disk::Vol;

/// The greatest generation that a log can have.
const LAST_GENERATION: u64 = (1 << 62) - 1;

/// Whether the log goes on with records that are so many bytes long: it has room for them, and is not long with them.
fn goes_on(store: &Store, count: usize, bound: u64) -> bool
    ensures value { MatchBool result (¬ IsLeftBy store.now count bound) (IsLeftBy store.now count bound) }
    ensures room { result ≡ true → HasLogRoom store.now.log store.now.rooms count }
{
    store.has_log_room(count) && !store.is_long(count, bound)
}

/// Commits records that would make the log long, or for which it has no room: in the next one, which begins with all that outlives a crash of the place. It takes
/// memory for all of that, and the texts are shared. `Worn` comes exactly if the next log would have a generation of 2^62, before anything else; it and `NoMemory`
/// leave all as it was.
fn leave<V: Vol>(
    alloc: Global,
    slot: &Slot,
    store: &mut Store,
    vol: &mut V,
    records: &[Effect],
    bound: u64,
) -> Result<(), CommitFault>
    requires left { IsLeft store.old records.now bound }
    requires records { IsTrue (list_all is_record records.now) }
    requires room { IsTrue (can_place store.old.blocks records.now) }
    requires formed { IsFormed (durable_of slot.now) }
    requires storable { IsStorable (durable_of slot.now) }
    requires within { IsWithinBound (durable_of slot.now) bound }
    requires reserved { AreReserved store.old.rooms bound }
    requires message_room { V.told → HasMessageRoom store.old.blocks records.now (V.disk vol.old) }
    requires fits { V.told → (base : Durable) × IsBase store.old base (V.disk vol.old) × IsNextBatch base records.now (durable_of slot.now) }
    ensures commits { Commits V.told V.disk V.faults V.refusals records.now bound (durable_of slot.now) result store.old store.new vol.old vol.new }
    ensures worn { IsLastLog store.old records.now bound → IsErrOf result CommitFault.Worn }
{
    if store.generation() == LAST_GENERATION {
        return Err(CommitFault::Worn);
    }
    let next = slot.durable()?;
    match store.alternate(alloc, vol, records, &next, bound) {
        Ok(()) => Ok(()),
        Err(CommitFault::Fault) => Err(CommitFault::Fault),
        // its generation was looked at
        Err(CommitFault::Worn) => Err(CommitFault::NoMemory),
        Err(CommitFault::NoMemory) => Err(CommitFault::NoMemory),
    }
}

/// Commits what waits, which leads from the base to what outlives a crash of the place, and that comes to so much at most: as the next batch of the log, or in the
/// next log if it would make this one long, or finds no room in it. For that there is room in any case. `Worn` and `NoMemory` leave all as it was.
pub(crate) fn commit<V: Vol>(
    alloc: Global,
    slot: &Slot,
    store: &mut Store,
    vol: &mut V,
    tail: &mut Tail,
    bound: u64,
) -> Result<(), CommitFault>
    requires records { IsTrue (list_all is_record tail.old) }
    requires room { IsTrue (can_place store.old.blocks tail.old) }
    requires formed { IsFormed (durable_of slot.now) }
    requires storable { IsStorable (durable_of slot.now) }
    requires within { IsWithinBound (durable_of slot.now) bound }
    requires reserved { AreReserved store.old.rooms bound }
    requires message_room { V.told → HasMessageRoom store.old.blocks tail.old (V.disk vol.old) }
    requires fits { V.told → (base : Durable) × IsBase store.old base (V.disk vol.old) × IsNextBatch base tail.old (durable_of slot.now) }
    ensures same { tail.new ≡ tail.old }
    ensures commits { Commits V.told V.disk V.faults V.refusals tail.old bound (durable_of slot.now) result store.old store.new vol.old vol.new }
{
    let count = tail.logged_len(alloc)?;
    let records = tail.records();
    if goes_on(store, count, bound) {
        return store.commit(alloc, vol, records);
    }
    leave(alloc, slot, store, vol, records, bound)
}
