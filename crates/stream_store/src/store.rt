//! The store of a place.

ghost use Rattle.std.specs.Prelude.{◌≡◌, ◌↔◌, ◌+◌, ◌<◌, ◌≤◌, ◌^◌, [], false, Some, None, Ok, IfOk, IfErr, IfSome, OnErr, OnOk, IsErr, IsErrOf, IsTrue, length, unwrap_or};
ghost use Rattle.std.specs.List.{list_all};
ghost use Rattle.js_base.specs.Causes.{HasCause};
ghost use Rattle.vol_disk.specs.Does.{Rests};
ghost use Rattle.effects.specs.declared.durable.Durable.{Durable};
ghost use Rattle.op_records.specs.Allowed.{is_record};
ghost use Rattle.stream_store.specs.Alternating.{IsLong, IsWithinBound, IsWorn, next_log};
ghost use Rattle.stream_store.specs.Base.{IsBase, LeavesBase, MovesBase};
ghost use Rattle.stream_store.specs.Beginning.{IsOutsideFault};
ghost use Rattle.stream_store.specs.Clearing.{AreCleared, IsOtherClosed, IsUsedBy, KeepsClosed, Spares};
ghost use Rattle.stream_store.specs.Committing.{IsNextBatch, IsCommitted, CommitsOrNot, EmptiesUnused, batch_length};
ghost use Rattle.stream_store.specs.Holding.{Holds};
ghost use Rattle.gate_log.specs.LogState.{with_batch};
ghost use Rattle.block_table.specs.Blocks.{blocks, is_among};
ghost use Rattle.durable_checks.specs.Storable.{IsFormed, IsOpenable, IsStorable};
ghost use Rattle.log_records.specs.Unread.{stored_messages};
ghost use Rattle.stream_store.specs.Opening.{IsFirstLog, IsOpenFault, KeepsHeld, LeavesBegun, RestsBut};
ghost use Rattle.stream_store.specs.Placing.{IsMessageSpot, blocks_then, can_place, spot_behind, used_behind};
ghost use Rattle.stream_store.specs.Reserving.{HasMessageRoom, IsListed, MakesRoom};
ghost use Rattle.stream_store.specs.Rooms.{AreLogsShort, AreMore, AreReserved, AreRooms, HasLogRoom, OutgrowsLogs, is_reserved, no_rooms, reaches, spare};
ghost use Rattle.stream_store.specs.Staging.{AreBehindLogs, DropsUnused, HasDropped};
ghost use Rattle.stream_store.specs.Untouched.{IsNoneOpen};

use crate::alternating::{is_long, passes, stage_first, start_next, write_first};
use crate::clearing::{clear_files, close_other};
use crate::fault::{CommitFault, OpenFault, RoomFault};
use crate::late::LateTable;
use crate::logs::{FIRST_GENERATION, begin_log, open_current};
use crate::missing::check_untouched;
use crate::reading::read_current;
use crate::reserving::{lengthen, reach_spot, reserve_logs, trim_limit, trim_logs};
use crate::room::spot_in;
use crate::rooms::{MAX_LOG, Rooms, look};
use crate::staging::{joined, stage};
use crate::writing::write_staged;
use block_table::{Block, BlockTable};
use block_writing::drop_unused;
use effects::{Durable, Effect};
use gate_log::GateLog;
use js_base::{NoMemory, Spot};
use std::alloc::Global;
use std::marker::Model;
use vol_disk::{Failed, Vol};

/// With less room than this behind its end a log gets more behind a commit.
const LEAST_AHEAD: u64 = 1 << 15;

/// So much room behind its end it gets then, and the rest of a chunk.
const AHEAD: u64 = 1 << 16;

/// The greatest generation that a log can have.
const LAST_GENERATION: u64 = (1 << 62) - 1;

/// The store of a place on a volume, which is handed to each call. It keeps where the batches of the volume's current log end, and where the stored messages lie
/// in its blocks; and no state: what the volume holds, its base, is told by [`Store::open`] and changes with each commit.
#[derive(Drop)]
pub struct Store {
    log: GateLog,
    /// The generation in the log's head.
    generation: u64,
    late: LateTable,
    /// Files that are dropped behind the next commit if they are no blocks then: room was made in them, or a commit may have left them without messages.
    unused: Vec<Block>,
    /// How long its files are known to be.
    rooms: Rooms,
}

impl Model for Store {
    ghost use Rattle.std.specs.Prelude.{◌≡◌, Some};
    ghost use Rattle.stream_store.specs.Rooms.{AreLogsShort};
    ghost use Rattle.stream_store.specs.Staging.{AreBehindLogs};
    ghost use Rattle.stream_store.specs.Steps.{blocks_in};
    ghost use Rattle.stream_store.specs.StoreState.{StoreState};

    ghost Value = { StoreState };

    ghost view = { λ s. record { log = s.log; blocks = blocks_in s.late; unused = s.unused.items; rooms = s.rooms } };

    ghost invariant = { λ s. (s.log.head ≡ Some s.generation) × (AreBehindLogs s.unused.items × AreLogsShort s.rooms) };
}

impl Store {
    /// Opens the store of a volume, and tells what the volume holds. Both logs are synced and read, and then each block that the current one tells of. If no
    /// batch is open in either log, the place is vacant and never had a stream, and a log of generation 1 that says so is made in file 0; else nothing is
    /// written. `NoMemory` may come while that log is made, of which a crash then leaves all or nothing. But no log is made where a file has more than a first start
    /// may leave: then a stream is missing, the file is damaged, and nothing is written. `NoRoom` comes if there is no room for that log.
    ///
    /// If reads and each image of a crash hold the same, each image holds it at every moment of the call, whatever it answers.
    pub fn open<V: Vol>(alloc: Global, vol: &mut V) -> Result<(Store, Durable), OpenFault>
        ensures found { V.told → IfOk result (λ opened. Holds (V.disk vol.old).seen opened.1) }
        ensures base { V.told → IfOk result (λ opened. IsBase opened.0 opened.1 (V.disk vol.new)) }
        // Of any volume:
        ensures formed { IfOk result (λ opened. IsFormed opened.1) }
        ensures storable { IfOk result (λ opened. IsStorable opened.1) }
        ensures openable { IfOk result (λ opened. IsOpenable opened.1) }
        ensures held { IfOk result (λ opened. length (blocks opened.0.blocks) ≤ length (stored_messages opened.1) + 1) }
        ensures first_log { V.told → IsNoneOpen (V.disk vol.old).seen → IfOk result (λ opened. IsFirstLog opened.0.log (V.disk vol.new)) }
        ensures quiet { V.told → LeavesBegun (V.disk vol.old) (V.disk vol.new) }
        ensures elsewhere { V.told → RestsBut 0 (V.disk vol.old) (V.disk vol.new) }
        ensures any_moment { V.told → KeepsHeld (V.disk vol.old) (V.disk vol.new) }
        ensures fault { V.told → IfErr result (IsOpenFault (V.disk vol.old).seen) }
        ensures refused { HasCause (V.refusals vol.old) (V.refusals vol.new) (IsErrOf result OpenFault.NoRoom) }
        ensures cause { HasCause (V.faults vol.old) (V.faults vol.new) (IsErrOf result OpenFault.Fault) }
        ensures later { (V.disk vol.old).moment ≤ (V.disk vol.new).moment }
    {
        let (mut store, durable) = Store::found(alloc, vol)?;
        store.rooms = look(vol)?;
        Ok((store, durable))
    }

    /// The same, but that nothing is known of how long the files are.
    fn found<V: Vol>(alloc: Global, vol: &mut V) -> Result<(Store, Durable), OpenFault>
        ensures found { V.told → IfOk result (λ opened. Holds (V.disk vol.old).seen opened.1) }
        ensures base { V.told → IfOk result (λ opened. IsBase opened.0 opened.1 (V.disk vol.new)) }
        // Of any volume:
        ensures formed { IfOk result (λ opened. IsFormed opened.1) }
        ensures storable { IfOk result (λ opened. IsStorable opened.1) }
        ensures openable { IfOk result (λ opened. IsOpenable opened.1) }
        ensures held { IfOk result (λ opened. length (blocks opened.0.blocks) ≤ length (stored_messages opened.1) + 1) }
        ensures first_log { V.told → IsNoneOpen (V.disk vol.old).seen → IfOk result (λ opened. IsFirstLog opened.0.log (V.disk vol.new)) }
        ensures quiet { V.told → LeavesBegun (V.disk vol.old) (V.disk vol.new) }
        ensures elsewhere { V.told → RestsBut 0 (V.disk vol.old) (V.disk vol.new) }
        ensures any_moment { V.told → KeepsHeld (V.disk vol.old) (V.disk vol.new) }
        ensures fault { V.told → IfErr result (IsOpenFault (V.disk vol.old).seen) }
        ensures refused { HasCause (V.refusals vol.old) (V.refusals vol.new) (IsErrOf result OpenFault.NoRoom) }
        ensures cause { HasCause (V.faults vol.old) (V.faults vol.new) (IsErrOf result OpenFault.Fault) }
        ensures later { (V.disk vol.old).moment ≤ (V.disk vol.new).moment }
    {
        let current = open_current(vol)?;
        let found = read_current(alloc, vol, &current)?;
        match current.log.generation() {
            Some(generation) => {
                let store = Store::with_table(alloc, current.log, generation, found.table);
                Ok((store, found.durable))
            }
            None => {
                check_untouched(vol)?;
                let log = begin_log(alloc, vol)?;
                let begun = Store::with_table(alloc, log, FIRST_GENERATION, found.table);
                Ok((begun, found.durable))
            }
        }
    }

    /// Clears what a crash may have left. The log that is not current is shut, if a batch is open in it, and stays as long as it was. And each file that could be a
    /// block, is none and has bytes is cut to nothing and synced: there may be messages whose batch was not written, blocks that hold no message any more, and room
    /// that was made. The current log is not touched, and no block. It asks for the length of the other log, and of each file that could be a block and is none, up to
    /// the last with bytes.
    ///
    /// At `Ok` the base stays, and a crash at any moment of the call leaves it. `NoMemory` leaves all as it was. `Fault` leaves some of these files as they were,
    /// and the store is to be opened again.
    pub fn clear<V: Vol>(&mut self, vol: &mut V) -> Result<(), OpenFault>
        requires base { V.told → (base : Durable) × IsBase self.old base (V.disk vol.old) }
        ensures same { self.new ≡ record self.old { rooms = self.new.rooms } }
        ensures rooms { OnOk result (self.new.rooms ≡ record self.old.rooms { reach = None }) }
        ensures closed { V.told → OnOk result (IsOtherClosed self.old.log (V.disk vol.new)) }
        ensures cleared { V.told → OnOk result (AreCleared self.old.blocks (V.disk vol.old) (V.disk vol.new)) }
        ensures spares { V.told → Spares (IsUsedBy self.old) (V.disk vol.old) (V.disk vol.new) }
        ensures keeps { V.told → OnOk result (MovesBase self.old self.new (V.disk vol.old) (V.disk vol.new)) }
        ensures any_moment { V.told → LeavesBase self.old (V.disk vol.old) (V.disk vol.new) }
        ensures no_memory { IsErrOf result OpenFault.NoMemory → (vol.new ≡ vol.old) × (self.new ≡ self.old) }
        ensures only { IfErr result IsOutsideFault }
        ensures cause { HasCause (V.faults vol.old) (V.faults vol.new) (IsErrOf result OpenFault.Fault) }
        ensures refusals { V.refusals vol.old ≤ V.refusals vol.new }
        ensures later { (V.disk vol.old).moment ≤ (V.disk vol.new).moment }
    {
        self.late.catch_up()?;
        self.rooms.reach = None;
        close_other(vol, &self.log)?;
        clear_files(vol, &self.late.table)?;
        Ok(())
    }

    /// The store of a log, whose messages lie as the table says. Nothing is known of how long the files are.
    fn with_table(alloc: Global, log: GateLog, generation: u64, table: BlockTable) -> Store
        requires head { log.head ≡ Some generation }
        ensures value { result ≡ record { log = log; blocks = table; unused = []; rooms = no_rooms } }
    {
        Store {
            log,
            generation,
            late: LateTable::new(alloc, table),
            unused: Vec::new(alloc),
            rooms: Rooms::none(),
        }
    }

    /// The generation of the current log.
    pub fn generation(&self) -> u64
        ensures value { self.now.log.head ≡ Some result }
    {
        self.generation
    }

    /// Whether a batch of records that are so many bytes long would make the log longer than its place comes to as a first batch, by the bound, and 15/16 MiB, or
    /// than twice as much where that is more, or than 2^31 bytes; of a log with a batch behind its first. Then the changes go to the other log by `alternate`.
    pub fn is_long(&self, count: usize, bound: u64) -> bool
        ensures value { IsTrue result ↔ IsLong self.now.log count bound }
    {
        is_long(&self.log, count, bound)
    }

    /// Whether the log is known to have room for a batch of records that are so many bytes long.
    pub fn has_log_room(&self, count: usize) -> bool
        ensures value { IsTrue result ↔ HasLogRoom self.now.log self.now.rooms count }
    {
        !passes(self.log.end(), count as u64, self.rooms.of(self.log.file()))
    }

    /// Whether both logs are known to be long enough for a place that comes to so many bytes as a first batch.
    pub fn is_reserved(&self, count: u64) -> bool
        ensures value { result ≡ is_reserved self.now.rooms count }
        ensures short { IsTrue result → count + spare ≤ 2 ^ 31 }
    {
        self.rooms.is_reserved(count)
    }

    /// Whether the file in which room for a message was made last reaches to the end of the spot.
    pub fn reaches(&self, spot: Spot) -> bool
        ensures value { result ≡ reaches self.now.rooms.reach spot }
    {
        self.rooms.reaches(spot)
    }

    /// Where a message of so many bytes goes in a block, once the messages of these changes have their places; `None` if there is no place. An `Err` tells nothing.
    pub fn spot_behind(&mut self, tail: &[Effect], len: u32) -> Result<Option<Spot>, NoMemory>
        requires records { IsTrue (list_all is_record tail.now) }
        ensures value { IfOk result (λ spot. spot ≡ spot_behind self.old.blocks tail.now len) }
        ensures spot { IfOk result (λ spot. IfSome spot IsMessageSpot) }
        ensures same { self.new ≡ self.old }
    {
        self.late.catch_up()?;
        Ok(spot_in(&self.late.table, tail, len))
    }

    /// Makes both logs long enough for a place that comes to so many bytes as a first batch, by whole chunks, and tells whether they are known to be. It takes no
    /// memory. `false` comes if the volume refused room, or if a log would be longer than 2^31 bytes; room that was made before stays.
    ///
    /// The base stays, and a crash at any moment of the call leaves it; no file for messages is touched, and a log that was shut stays so. After `Failed` nothing is
    /// known of the store: open it again.
    pub fn reserve<V: Vol>(&mut self, vol: &mut V, count: u64) -> Result<bool, Failed>
        requires base { V.told → (base : Durable) × IsBase self.old base (V.disk vol.old) }
        ensures reserved { IfOk result (λ reserved. reserved ≡ is_reserved self.new.rooms count) }
        ensures short { IfOk result (λ reserved. IsTrue reserved → count + spare ≤ 2 ^ 31) }
        ensures same { self.new ≡ record self.old { rooms = self.new.rooms } }
        ensures reach { self.new.rooms.reach ≡ self.old.rooms.reach }
        ensures more { AreMore self.old.rooms self.new.rooms }
        ensures room { V.told → OnOk result (MakesRoom self.old self.new (V.disk vol.old) (V.disk vol.new)) }
        ensures closed { V.told → OnOk result (KeepsClosed (V.disk vol.old) (V.disk vol.new)) }
        ensures any_moment { V.told → LeavesBase self.old (V.disk vol.old) (V.disk vol.new) }
        ensures elsewhere { V.told → (file : _) → 2 ≤ file → Rests file (V.disk vol.old) (V.disk vol.new) }
        ensures refused { ¬ OutgrowsLogs count → HasCause (V.refusals vol.old) (V.refusals vol.new) (result ≡ Ok false) }
        ensures refusals { V.refusals vol.old ≤ V.refusals vol.new }
        ensures cause { HasCause (V.faults vol.old) (V.faults vol.new) (IsErr result) }
        ensures later { (V.disk vol.old).moment ≤ (V.disk vol.new).moment }
    {
        let reserved = reserve_logs(vol, &mut self.rooms, count)?;
        Ok(reserved)
    }

    /// Makes room for a message at a spot, by whole chunks of its file, and tells whether that is known to reach to the spot's end. `false` comes if the volume
    /// refused room. If the file is no block behind the next commit, it is dropped.
    ///
    /// The base stays, and a crash at any moment of the call leaves it. `NoMemory` leaves the volume and the store as they were. After `Fault` nothing is known of
    /// the store: open it again.
    pub fn reach<V: Vol>(&mut self, vol: &mut V, spot: Spot) -> Result<bool, RoomFault>
        requires spot { IsMessageSpot spot }
        requires base { V.told → (base : Durable) × IsBase self.old base (V.disk vol.old) }
        ensures reached { IfOk result (λ reached. reached ≡ reaches self.new.rooms.reach spot) }
        ensures log { self.new.log ≡ self.old.log }
        ensures blocks { self.new.blocks ≡ self.old.blocks }
        ensures rooms { self.new.rooms ≡ record self.old.rooms { reach = self.new.rooms.reach } }
        ensures listed { OnOk result (IsListed self.new spot.file) }
        ensures room { V.told → OnOk result (MakesRoom self.old self.new (V.disk vol.old) (V.disk vol.new)) }
        ensures any_moment { V.told → LeavesBase self.old (V.disk vol.old) (V.disk vol.new) }
        ensures no_memory { IsErrOf result RoomFault.NoMemory → (vol.new ≡ vol.old) × (self.new ≡ self.old) }
        ensures refused { HasCause (V.refusals vol.old) (V.refusals vol.new) (result ≡ Ok false) }
        ensures cause { HasCause (V.faults vol.old) (V.faults vol.new) (IsErrOf result RoomFault.Fault) }
        ensures later { (V.disk vol.old).moment ≤ (V.disk vol.new).moment }
    {
        self.list(spot.file)?;
        if self.rooms.reaches(spot) {
            return Ok(true);
        }
        let reach = reach_spot(vol, spot)?;
        self.rooms.reach = Some(reach);
        Ok(self.rooms.reaches(spot))
    }

    /// Keeps in mind that the file is to be dropped behind the next commit, unless it is a block then. An `Err` leaves the store as it was.
    fn list(&mut self, file: u32) -> Result<(), NoMemory>
        requires behind { 2 ≤ file }
        ensures same { self.new ≡ record self.old { unused = self.new.unused } }
        ensures listed { OnOk result (IsListed self.new file) }
        ensures err { OnErr result (self.new ≡ self.old) }
    {
        self.late.catch_up()?;
        if self.late.table.has_block(file) || is_listed(self.unused.as_slice(), file) {
            return Ok(());
        }
        self.unused.push(Block { file, end: 0 })?;
        Ok(())
    }

    /// Puts records on the volume as the next batch, and the messages that they store into blocks before. They lead from the base to something that a volume
    /// may hold, each message has a place, and there is room in the log for the batch and for each message in its file. At `Ok` that is the base, and each crash
    /// leaves it; at any moment of the call a crash leaves the base from before or it, and never a part. All memory is taken before the first write. Behind the
    /// commit, blocks that hold no message any more are cut to nothing; if there is no memory to tell them, the next commit does that. And the log gets more room
    /// if little is left, and the volume has some.
    ///
    /// It never answers `Worn`. `NoMemory` leaves the volume and the store as they were. After `Fault` nothing is known of the store but its generation: open it
    /// again.
    pub fn commit<V: Vol>(
        &mut self,
        alloc: Global,
        vol: &mut V,
        effects: &[Effect],
    ) -> Result<(), CommitFault>
        requires records { IsTrue (list_all is_record effects.now) }
        requires room { IsTrue (can_place self.old.blocks effects.now) }
        requires log_room { HasLogRoom self.old.log self.old.rooms (batch_length effects.now) }
        requires message_room { V.told → HasMessageRoom self.old.blocks effects.now (V.disk vol.old) }
        requires fits { V.told → (base : Durable) × (next : Durable) × IsBase self.old base (V.disk vol.old) × IsNextBatch base effects.now next }
        ensures committed { V.told → OnOk result (IsCommitted self.old self.new effects.now (V.disk vol.old) (V.disk vol.new)) }
        ensures log { OnOk result (self.new.log ≡ with_batch self.old.log (batch_length effects.now)) }
        ensures blocks { OnOk result (self.new.blocks ≡ blocks_then self.old.blocks effects.now) }
        ensures fewer { OnOk result (length (blocks self.new.blocks) ≤ used_behind self.old.blocks effects.now) }
        ensures emptied { V.told → OnOk result (EmptiesUnused self.old self.new effects.now (V.disk vol.old) (V.disk vol.new)) }
        ensures more { OnOk result (AreMore self.old.rooms self.new.rooms) }
        ensures any_moment { V.told → CommitsOrNot self.old effects.now (V.disk vol.old) (V.disk vol.new) }
        ensures head { self.new.log.head ≡ self.old.log.head }
        ensures worn { ¬ IsErrOf result CommitFault.Worn }
        ensures no_memory { IsErrOf result CommitFault.NoMemory → (vol.new ≡ vol.old) × (self.new ≡ self.old) }
        ensures cause { HasCause (V.faults vol.old) (V.faults vol.new) (IsErrOf result CommitFault.Fault) }
        ensures refusals { V.refusals vol.old ≤ V.refusals vol.new }
        ensures later { (V.disk vol.old).moment ≤ (V.disk vol.new).moment }
    {
        self.append(alloc, vol, effects)?;
        self.top_up(vol)?;
        Ok(())
    }

    /// The same, but for the room behind the log's end.
    fn append<V: Vol>(
        &mut self,
        alloc: Global,
        vol: &mut V,
        effects: &[Effect],
    ) -> Result<(), CommitFault>
        requires records { IsTrue (list_all is_record effects.now) }
        requires room { IsTrue (can_place self.old.blocks effects.now) }
        requires log_room { HasLogRoom self.old.log self.old.rooms (batch_length effects.now) }
        requires message_room { V.told → HasMessageRoom self.old.blocks effects.now (V.disk vol.old) }
        requires fits { V.told → (base : Durable) × (next : Durable) × IsBase self.old base (V.disk vol.old) × IsNextBatch base effects.now next }
        ensures committed { V.told → OnOk result (IsCommitted self.old self.new effects.now (V.disk vol.old) (V.disk vol.new)) }
        ensures log { OnOk result (self.new.log ≡ with_batch self.old.log (batch_length effects.now)) }
        ensures blocks { OnOk result (self.new.blocks ≡ blocks_then self.old.blocks effects.now) }
        ensures fewer { OnOk result (length (blocks self.new.blocks) ≤ used_behind self.old.blocks effects.now) }
        ensures emptied { V.told → OnOk result (EmptiesUnused self.old self.new effects.now (V.disk vol.old) (V.disk vol.new)) }
        ensures more { OnOk result (AreMore self.old.rooms self.new.rooms) }
        ensures any_moment { V.told → CommitsOrNot self.old effects.now (V.disk vol.old) (V.disk vol.new) }
        ensures head { self.new.log.head ≡ self.old.log.head }
        ensures behind { AreBehindLogs self.old.unused }
        ensures worn { ¬ IsErrOf result CommitFault.Worn }
        ensures no_memory { IsErrOf result CommitFault.NoMemory → (vol.new ≡ vol.old) × (self.new ≡ self.old) }
        ensures cause { HasCause (V.faults vol.old) (V.faults vol.new) (IsErrOf result CommitFault.Fault) }
        ensures refusals { V.refusals vol.old ≤ V.refusals vol.new }
        ensures later { (V.disk vol.old).moment ≤ (V.disk vol.new).moment }
    {
        let staged = stage(alloc, &mut self.late, effects)?;
        let unused = joined(alloc, self.unused.as_slice(), staged.blocks.as_slice())?;
        write_staged(vol, &mut self.log, &staged)?;
        self.late.wait(staged.steps);
        self.unused = unused;
        self.drop_left(vol)?;
        Ok(())
    }

    /// Commits records as `commit` does, but leaves the log for the other one: that is started with the next generation, and its first batch tells all of
    /// `next`, to which the records lead from the base. Both logs are long enough for that, by the bound. Then the log that was left is shut, and of each log what is
    /// behind about twice the bound is cut. At `Ok` that is the base, and each crash leaves it; at any moment of the call a crash leaves the base from before or it,
    /// and never a part. All memory is taken before the first write, and the volume is asked for no room.
    ///
    /// `Worn` comes exactly if the next generation is 2^62. It and `NoMemory` leave the volume and the store as they were. After `Fault` nothing is known of the
    /// store: open it again.
    pub fn alternate<V: Vol>(
        &mut self,
        alloc: Global,
        vol: &mut V,
        effects: &[Effect],
        next: &Durable,
        bound: u64,
    ) -> Result<(), CommitFault>
        requires records { IsTrue (list_all is_record effects.now) }
        requires room { IsTrue (can_place self.old.blocks effects.now) }
        requires formed { IsFormed next.now }
        requires storable { IsStorable next.now }
        requires within { IsWithinBound next.now bound }
        requires reserved { AreReserved self.old.rooms bound }
        requires message_room { V.told → HasMessageRoom self.old.blocks effects.now (V.disk vol.old) }
        requires fits { V.told → (base : Durable) × IsBase self.old base (V.disk vol.old) × IsNextBatch base effects.now next.now }
        ensures committed { V.told → OnOk result (IsCommitted self.old self.new effects.now (V.disk vol.old) (V.disk vol.new)) }
        ensures log { OnOk result (self.new.log ≡ next_log self.old effects.now next.now) }
        ensures closed { V.told → OnOk result (IsOtherClosed self.new.log (V.disk vol.new)) }
        ensures blocks { OnOk result (self.new.blocks ≡ blocks_then self.old.blocks effects.now) }
        ensures fewer { OnOk result (length (blocks self.new.blocks) ≤ used_behind self.old.blocks effects.now) }
        ensures emptied { V.told → OnOk result (EmptiesUnused self.old self.new effects.now (V.disk vol.old) (V.disk vol.new)) }
        ensures reserved { OnOk result (AreReserved self.new.rooms bound) }
        ensures any_moment { V.told → CommitsOrNot self.old effects.now (V.disk vol.old) (V.disk vol.new) }
        ensures generation { unwrap_or self.old.log.head 0 ≤ unwrap_or self.new.log.head 0 }
        ensures worn { IsErrOf result CommitFault.Worn ↔ IsWorn self.old.log }
        ensures worn_leaves { IsErrOf result CommitFault.Worn → (vol.new ≡ vol.old) × (self.new ≡ self.old) }
        ensures no_memory { IsErrOf result CommitFault.NoMemory → (vol.new ≡ vol.old) × (self.new ≡ self.old) }
        ensures cause { HasCause (V.faults vol.old) (V.faults vol.new) (IsErrOf result CommitFault.Fault) }
        ensures refusals { V.refusals vol.old ≤ V.refusals vol.new }
        ensures later { (V.disk vol.old).moment ≤ (V.disk vol.new).moment }
    {
        if self.generation >= LAST_GENERATION {
            return Err(CommitFault::Worn);
        }
        self.begin_next(alloc, vol, effects, next, bound)?;
        self.trim(vol, bound)?;
        Ok(())
    }

    /// The same, but for the cuts, of a log that is not worn.
    fn begin_next<V: Vol>(
        &mut self,
        alloc: Global,
        vol: &mut V,
        effects: &[Effect],
        next: &Durable,
        bound: u64,
    ) -> Result<(), CommitFault>
        requires fresh { ¬ IsWorn self.old.log }
        requires records { IsTrue (list_all is_record effects.now) }
        requires room { IsTrue (can_place self.old.blocks effects.now) }
        requires formed { IsFormed next.now }
        requires storable { IsStorable next.now }
        requires within { IsWithinBound next.now bound }
        requires reserved { AreReserved self.old.rooms bound }
        requires message_room { V.told → HasMessageRoom self.old.blocks effects.now (V.disk vol.old) }
        requires fits { V.told → (base : Durable) × IsBase self.old base (V.disk vol.old) × IsNextBatch base effects.now next.now }
        ensures committed { V.told → OnOk result (IsCommitted self.old self.new effects.now (V.disk vol.old) (V.disk vol.new)) }
        ensures log { OnOk result (self.new.log ≡ next_log self.old effects.now next.now) }
        ensures closed { V.told → OnOk result (IsOtherClosed self.new.log (V.disk vol.new)) }
        ensures blocks { OnOk result (self.new.blocks ≡ blocks_then self.old.blocks effects.now) }
        ensures fewer { OnOk result (length (blocks self.new.blocks) ≤ used_behind self.old.blocks effects.now) }
        ensures emptied { V.told → OnOk result (EmptiesUnused self.old self.new effects.now (V.disk vol.old) (V.disk vol.new)) }
        ensures within { OnOk result (self.new.log.end < bound) }
        ensures reserved { OnOk result (AreReserved self.new.rooms bound) }
        ensures any_moment { V.told → CommitsOrNot self.old effects.now (V.disk vol.old) (V.disk vol.new) }
        ensures generation { unwrap_or self.old.log.head 0 ≤ unwrap_or self.new.log.head 0 }
        ensures worn { ¬ IsErrOf result CommitFault.Worn }
        ensures no_memory { IsErrOf result CommitFault.NoMemory → (vol.new ≡ vol.old) × (self.new ≡ self.old) }
        ensures cause { HasCause (V.faults vol.old) (V.faults vol.new) (IsErrOf result CommitFault.Fault) }
        ensures refusals { V.refusals vol.old ≤ V.refusals vol.new }
        ensures later { (V.disk vol.old).moment ≤ (V.disk vol.new).moment }
    {
        let generation = self.generation + 1;
        self.late.catch_up()?;
        let (staged, table) = stage_first(alloc, &self.late.table, effects, next, bound)?;
        let unused = joined(alloc, self.unused.as_slice(), staged.blocks.as_slice())?;
        let mut log = start_next(vol, &self.log, generation)?;
        write_first(vol, &mut log, &staged)?;
        self.log = log;
        self.generation = generation;
        self.late = LateTable::new(alloc, table);
        self.unused = unused;
        self.drop_left(vol)?;
        Ok(())
    }

    /// Drops the files that are to be dropped if they are no blocks. If there is no memory to tell them, they are dropped behind the next commit.
    fn drop_left<V: Vol>(&mut self, vol: &mut V) -> Result<(), Failed>
        ensures log { self.new.log ≡ self.old.log }
        ensures blocks { self.new.blocks ≡ self.old.blocks }
        ensures logs { (self.new.rooms.zero ≡ self.old.rooms.zero) × (self.new.rooms.one ≡ self.old.rooms.one) }
        ensures known { V.told → AreRooms self.old.rooms (V.disk vol.old) → OnOk result (AreRooms self.new.rooms (V.disk vol.new)) }
        ensures emptied { V.told → OnOk result (HasDropped self.old.blocks self.old.unused self.new.unused (V.disk vol.new)) }
        ensures elsewhere { V.told → (file : _) → is_among self.old.unused file ≡ false → Rests file (V.disk vol.old) (V.disk vol.new) }
        ensures changes { V.told → DropsUnused self.old.blocks (V.disk vol.old) (V.disk vol.new) }
        ensures cause { HasCause (V.faults vol.old) (V.faults vol.new) (IsErr result) }
        ensures refusals { V.refusals vol.old ≤ V.refusals vol.new }
        ensures later { (V.disk vol.old).moment ≤ (V.disk vol.new).moment }
    {
        let Ok(()) = self.late.catch_up() else {
            return Ok(());
        };
        self.rooms.forget(&self.late.table);
        drop_unused(vol, &self.late.table, self.unused.as_slice())?;
        self.unused.clear();
        Ok(())
    }

    /// Makes room behind the end of the log, if less than 32 KiB is left there and the volume has some: 64 KiB and the rest of a chunk. If it has none, the log is
    /// left the sooner.
    fn top_up<V: Vol>(&mut self, vol: &mut V) -> Result<(), Failed>
        requires base { V.told → (base : Durable) × IsBase self.old base (V.disk vol.old) }
        ensures same { self.new ≡ record self.old { rooms = self.new.rooms } }
        ensures more { AreMore self.old.rooms self.new.rooms }
        ensures keeps { V.told → OnOk result (MovesBase self.old self.new (V.disk vol.old) (V.disk vol.new)) }
        ensures any_moment { V.told → LeavesBase self.old (V.disk vol.old) (V.disk vol.new) }
        ensures elsewhere { V.told → (file : _) → 2 ≤ file → Rests file (V.disk vol.old) (V.disk vol.new) }
        ensures cause { HasCause (V.faults vol.old) (V.faults vol.new) (IsErr result) }
        ensures refusals { V.refusals vol.old ≤ V.refusals vol.new }
        ensures later { (V.disk vol.old).moment ≤ (V.disk vol.new).moment }
    {
        let file = self.log.file();
        let end = self.log.end();
        if self.rooms.of(file) >= end.saturating_add(LEAST_AHEAD) {
            return Ok(());
        }
        let len = end.saturating_add(AHEAD).min(MAX_LOG);
        lengthen(vol, &mut self.rooms, file, len)?;
        Ok(())
    }

    /// Cuts each log that is longer than need be, behind the end of the log that was begun and in the one that was left.
    fn trim<V: Vol>(&mut self, vol: &mut V, bound: u64) -> Result<(), Failed>
        requires small { bound ≤ 2 ^ 31 }
        requires within { self.old.log.end < bound }
        requires closed { V.told → IsOtherClosed self.old.log (V.disk vol.old) }
        requires base { V.told → (base : Durable) × IsBase self.old base (V.disk vol.old) }
        requires reserved { AreReserved self.old.rooms bound }
        ensures same { self.new ≡ record self.old { rooms = self.new.rooms } }
        ensures reserved { AreReserved self.new.rooms bound }
        ensures closed { V.told → OnOk result (IsOtherClosed self.new.log (V.disk vol.new)) }
        ensures keeps { V.told → OnOk result (MovesBase self.old self.new (V.disk vol.old) (V.disk vol.new)) }
        ensures any_moment { V.told → LeavesBase self.old (V.disk vol.old) (V.disk vol.new) }
        ensures elsewhere { V.told → (file : _) → 2 ≤ file → Rests file (V.disk vol.old) (V.disk vol.new) }
        ensures cause { HasCause (V.faults vol.old) (V.faults vol.new) (IsErr result) }
        ensures refusals { V.refusals vol.old ≤ V.refusals vol.new }
        ensures later { (V.disk vol.old).moment ≤ (V.disk vol.new).moment }
    {
        let limit = trim_limit(bound);
        trim_logs(vol, &mut self.rooms, limit)?;
        Ok(())
    }
}

/// Whether one of the blocks is in the file.
fn is_listed(blocks: &[Block], file: u32) -> bool
    ensures value { result ≡ is_among blocks.now file }
{
    blocks.iter().any(|block| block.file == file)
}
