//! The router as a place of a hub reaches it: in turns of a seat that the place has there.

ghost use Rattle.std.specs.Prelude.{◌≡◌, IfErr, IfOk, None};
ghost use Rattle.desk_hold.specs.declared.port.PortFault.TheVariants as faults;
ghost use Rattle.hub_router.specs.Calls.{IsCalled};
ghost use Rattle.seat_laws.specs.Seats.{named};
ghost use Rattle.turn_lock.specs.Calls.{worn};
ghost use Rattle.turn_lock.specs.Ruled.{last_ticket};
ghost use Rattle.js_model.specs.Router.{Interest, Listens};
ghost use Rattle.hub_place.specs.Ports.{IsRouted, IsWorn};

use desk_hold::{Port, PortFault};
use hub_router::{InterestCall, PublishCall, RouterCall, RouterKind, call_router};
use js_base::{List, Out};
use place_engine::Push;
use route_core::Router;
use std::alloc::Global;
use std::marker::Model;
use std::sync::Wait;
use turn_lock::{Seat, Turns};

/// A seat of the router by which a place sends, with the handle to wait by for its turns. It shows what the seat has seen.
pub struct RouterPort<'a, W: Wait> {
    rt: &'a W,
    router: &'a Turns<Router, RouterKind>,
    /// It is away within a call alone.
    seat: Option<Seat<RouterKind>>,
}

impl<'a, W: Wait> Model for RouterPort<'a, W> {
    ghost use Rattle.turn_lock.specs.Seats.{SeatView};
    ghost use Rattle.hub_place.specs.Ports.{IsPort, seat_in};

    ghost Value = { SeatView };

    ghost view = { λ p. seat_in p.router.now.lock p.seat };

    ghost invariant = { λ p. IsPort p.router.now.lock p.seat };
}

impl<'a, W: Wait> RouterPort<'a, W> {
    /// The port of this seat.
    pub fn of(
        rt: &'a W,
        router: &'a Turns<Router, RouterKind>,
        seat: Seat<RouterKind>,
    ) -> RouterPort<'a, W>
        requires own { seat.lock ≡ router.now.lock }
        ensures seat { result ≡ seat }
    {
        RouterPort {
            rt,
            router,
            seat: Some(seat),
        }
    }

    /// Its seat.
    pub fn into_seat(self) -> Seat<RouterKind>
        ensures seat { result ≡ self.entry }
    {
        let RouterPort {
            rt: _,
            router: _,
            seat,
        } = self;
        match seat {
            Some(seat) => seat,
            None => unreachable!(),
        }
    }

    /// Makes a call that names no session in a turn of its own. An `Err` tells the ticket that is never drawn.
    fn call<C: RouterCall>(&mut self, call: &C) -> Result<C::Answer, PortFault>
        requires unnamed { named (C.call call.now) ≡ None }
        ensures called { IfOk result (λ answer. IsCalled (C.call call.now) (C.told answer) self.old self.new) }
        ensures worn { IfErr result (λ fault. (fault ≡ faults.Worn last_ticket) × (self.new ≡ worn self.old)) }
    {
        let Some(seat) = self.seat.take() else {
            unreachable!()
        };
        let (told, seat) = call_router(self.rt, self.router, seat, call);
        self.seat = Some(seat);
        match told {
            Ok(answer) => Ok(answer),
            Err(number) => Err(PortFault::Worn(number)),
        }
    }

    /// Whether somebody listens to the push consumer's deliver subject, as a member of its deliver group if there is one.
    fn is_heard(&mut self, push: &Push<'_>) -> Result<bool, PortFault>
        ensures heard { IfOk result (λ heard. IsCalled (Interest push.now.subject push.now.group) (Listens heard) self.old self.new) }
        ensures worn { IfErr result (λ fault. (fault ≡ faults.Worn last_ticket) × (self.new ≡ worn self.old)) }
    {
        let group = match push.group {
            Some(group) => Some(group.as_slice()),
            None => None,
        };
        self.call(&InterestCall {
            subject: push.subject.as_slice(),
            group,
        })
    }
}

impl<'a, W: Wait> Port for RouterPort<'a, W> {
    ghost routes = { IsRouted };

    ghost worn = { IsWorn };

    fn send(&mut self, out: &Out) -> Result<(), PortFault> {
        let told = self.call(&PublishCall {
            message: out,
            from: None,
        })?;
        match told {
            Ok(_) => Ok(()),
            Err(_) => Err(PortFault::NoMemory),
        }
    }

    fn hear(&mut self, alloc: Global, pushes: &[Push<'_>]) -> Result<List<bool>, PortFault> {
        let mut told = List::new(alloc);
        for push in pushes {
            let heard = self.is_heard(push)?;
            if told.push(heard).is_err() {
                return Err(PortFault::NoMemory);
            }
        }
        Ok(told)
    }
}
