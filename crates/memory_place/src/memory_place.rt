//! A place in memory.

ghost use Rattle.std.specs.Prelude.{◌≡◌, IfOk, IfErr, IsOk, IsTrue, refl};
ghost use Rattle.std.proofs.Common.{◌∙◌, arith};
ghost use Rattle.js_base.specs.Causes.{Rose};
ghost use Rattle.js_model.specs.Proper.{is_proper, is_proper_what};
ghost use Rattle.place_engine.specs.declared.faults.OpenFault.TheVariants as opening;
ghost use Rattle.place_engine.specs.Delivering.{Delivers};
ghost use Rattle.place_engine.specs.Flushing.{Flushes};
ghost use Rattle.place_engine.specs.InMemory.{HasCause, IsWantOfMemory, bases_on_nothing, counts_none, holds_nothing, leaves_nothing, never_short, opens_vacant, reads_nothing, refuses_in_memory, seen_of};
ghost use Rattle.place_engine.specs.Opening.{HasNoRoom, IsOpened, IsUnopened};
ghost use Rattle.place_engine.specs.Places.{IsTold};
ghost use Rattle.place_engine.specs.Preparing.{Prepares};
ghost use Rattle.place_engine.specs.Shown.{IsShown};
ghost use Rattle.place_engine.specs.Stepping.{Steps};

use crate::slot::Slot;
use js_base::{Blob, Moment, Outs};
use js_model::{Delivery, Event, Listening, Reply, What};
use place_engine::{OpenFault, Place, PlaceFault, Push};
use place_records::Made;
use std::alloc::Global;
use std::marker::Model;

/// A place whose stream is kept in memory. Its volume is left as it is.
#[derive(Drop)]
pub struct MemoryPlace<V> {
    slot: Slot,
    vol: V,
    /// The records of the last event or delivery. They serve nobody.
    made: Made,
}

impl<V> Model for MemoryPlace<V> {
    ghost use Rattle.place_engine.specs.InMemory.{Contents};

    ghost Value = { Contents V };

    ghost view = { λ place. record { state = place.slot; vol = place.vol } };
}

impl<V> Place for MemoryPlace<V> {
    type Vol = V;

    ghost seen = { λ place. seen_of place.state };

    ghost holds = { holds_nothing };

    ghost vol = { λ place. place.vol };

    ghost keeps_vol = { λ old new. new ≡ old };

    ghost reads = { reads_nothing };

    ghost left = { leaves_nothing };

    ghost base = { bases_on_nothing };

    ghost clock = { counts_none };

    ghost faults = { counts_none };

    ghost room_causes = { never_short };

    ghost opens = { opens_vacant };

    ghost refuses = { refuses_in_memory };

    /// It is vacant, and never had a stream. It takes no memory.
    fn open(alloc: Global, volume: V) -> Result<MemoryPlace<V>, (OpenFault, V)>
        ensures opened { IfOk result (λ place. IsOpened holds_nothing reads_nothing leaves_nothing counts_none opens_vacant volume (seen_of place.state)) }
        ensures vol { IfOk result (λ place. place.vol ≡ volume) }
        ensures refused { IfErr result (λ stop. stop.0 ≡ opening.NoMemory) }
        ensures cause { IfErr result (λ stop. stop.0 ≡ OpenFault.Fault → Rose 0 0) }
        ensures no_room { IfErr result (λ stop. stop.0 ≡ OpenFault.NoRoom → HasNoRoom never_short opens_vacant volume stop.1) }
        ensures unopened { IfErr result (λ stop. IsUnopened holds_nothing reads_nothing leaves_nothing counts_none opens_vacant volume stop.1) }
        ensures given_back { IfErr result (λ stop. stop.1 ≡ volume) }
    {
        Ok(MemoryPlace {
            slot: Slot::new(alloc),
            vol: volume,
            made: Made::new(alloc),
        })
    }

    fn incarnation(&self) -> u64 {
        self.slot.incarnation()
    }

    fn name(&self) -> Option<&Blob> {
        self.slot.name()
    }

    fn subjects(&self) -> &[Blob] {
        self.slot.subjects()
    }

    fn messages(&self) -> u64 {
        self.slot.messages()
    }

    /// It is never stopped.
    fn stopped(&self) -> Option<u64> {
        None
    }

    fn push(&self, at: usize) -> Option<Push<'_>> {
        self.slot.push(at)
    }

    fn ready(&self, now: Moment, listening: &Listening) -> bool {
        self.slot.ready(now, listening)
    }

    fn next_timer(&self) -> Option<Moment> {
        self.slot.next_timer()
    }

    /// There always is room: it does nothing, and always succeeds.
    fn prepare(&mut self, what: &What) -> Result<(), PlaceFault>
        requires proper { IsTrue (is_proper_what what.now) }
        ensures prepares { Prepares holds_nothing (λ state what. ⊥) result what.now (seen_of self.old.state) (seen_of self.new.state) }
        ensures vol { self.new.vol ≡ self.old.vol }
        ensures same { self.new ≡ self.old }
        ensures ok { IsOk result }
    {
        let _ = what;
        Ok(())
    }

    /// An `Err` is `Gone` or `NoMemory`, and the latter leaves `Left::Nothing`, or `Left::Ticked` if there is a stream and no tick was asked for.
    fn step(&mut self, event: &Event, now: Moment, outs: &mut Outs) -> Result<Reply, PlaceFault>
        requires told { IsTold event.now.what }
        requires proper { IsTrue (is_proper event.now) }
        ensures steps { Steps holds_nothing result event.now now (seen_of self.old.state) (seen_of self.new.state) outs.old outs.new }
        ensures shown { IfOk result IsShown }
        ensures vol { self.new.vol ≡ self.old.vol }
        ensures cause { IfErr result (HasCause self.old.state event.now) }
    {
        let kept = self.slot.incarnation();
        if event.incarnation != kept {
            return Err(PlaceFault::Gone(kept));
        }
        match self.slot.answer(&event.what, now, outs, &mut self.made) {
            Ok(reply) => Ok(reply),
            Err(left) => Err(PlaceFault::NoMemory(left)),
        }
    }

    /// An `Err` is `NoMemory`, and leaves `Left::Nothing` or `Left::Ticked`.
    fn deliver_one(
        &mut self,
        now: Moment,
        listening: &Listening,
        outs: &mut Outs,
    ) -> Result<Option<Delivery>, PlaceFault>
        ensures delivers { Delivers holds_nothing result now listening.now (seen_of self.old.state) (seen_of self.new.state) outs.old outs.new }
        ensures vol { self.new.vol ≡ self.old.vol }
        ensures cause { IfErr result IsWantOfMemory }
    {
        match self.slot.deliver_one(now, listening, outs, &mut self.made) {
            Ok(made) => Ok(made),
            Err(left) => Err(PlaceFault::NoMemory(left)),
        }
    }

    /// There is nothing to bring: it always succeeds.
    fn flush(&mut self) -> Result<(), PlaceFault>
        ensures flushes { Flushes holds_nothing result (seen_of self.old.state) (seen_of self.new.state) }
        ensures vol { self.new.vol ≡ self.old.vol }
        ensures ok { IsOk result }
    {
        Ok(())
    }

    fn law_kept(&self) {}

    fn into_vol(self) -> V {
        let MemoryPlace {
            slot: _,
            vol,
            made: _,
        } = self;
        vol
    }

    ghost holds_one = { λ image a b one other. absurd one };

    ghost holds_lasting = { λ image b one. absurd one };

    ghost opens_read = { λ v state image opens read. absurd read };

    ghost refuses_read = { λ v fault image b read. absurd read };

    ghost bases = { λ place b. (λ is. is, λ is. is) };

    ghost leaves = { λ place t image. (λ left. left, λ left. left) };

    ghost earlier = { λ v t u image le left. absurd left };

    ghost stands = { λ place. (refl, refl, refl) };

    ghost keeps_later = { λ a b kept. (omega arith, omega arith, omega arith) };

    ghost keeps_none = { λ vol. refl };

    ghost keeps_more = { λ a b c first more. more ∙ first };
}
