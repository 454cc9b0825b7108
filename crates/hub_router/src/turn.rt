//! A turn of the router, and one call of it in a turn of its own.

ghost use Rattle.std.specs.Prelude.{◌≡◌, ◌++◌, [], ◌∷◌, IfErr, IfOk};
ghost use Rattle.js_model.specs.Router.{RouteCall};
ghost use Rattle.turn_lock.specs.Calls.{worn};
ghost use Rattle.turn_lock.specs.Ruled.{last_ticket};
ghost use Rattle.hub_fronts.specs.Stepping.{routed_by};
ghost use Rattle.hub_router.specs.Calls.{IsCalled, IsCalledWithin, MayCall};
ghost use Rattle.hub_router.specs.Turns.{Enters};

use crate::calls::RouterCall;
use crate::kind::RouterKind;
use histories::Past;
use hub_fronts::{no_entries, ticket_of};
use route_core::Router;
use std::marker::{Model, PhantomData};
use std::sync::Wait;
use turn_lock::{Entries, Held, Noted, Notes, Seat, Turns};

// A call that was made by a seat of this number, behind these entries of its turn.
#[derive(Drop)]
struct Called<'a, C: RouterCall> {
    before: &'a Entries,
    number: &'a Noted<u64>,
    call: &'a C,
    answer: &'a C::Answer,
}

struct OneMore<C> {
    call: PhantomData<C>,
}

impl<'a, C: RouterCall> Notes<Called<'a, C>, Past> for OneMore<C> {
    ghost note = { λ c. c.before.now.value ++ routed_by c.number.now.value (C.call c.call.now) (C.told c.answer.now) ∷ [] };
}

/// A turn of the router, in which several calls may be made. It shows what its seat will have seen as it ends. It can't be dropped: `end` ends it.
pub struct OpenRouter {
    held: Held<Router, RouterKind>,
    /// What is left in it so far.
    entries: Entries,
}

impl Model for OpenRouter {
    ghost use Rattle.turn_lock.specs.Calls.{added};
    ghost use Rattle.turn_lock.specs.Seats.{SeatView};
    ghost use Rattle.hub_router.specs.Turns.{IsOpenTurn};

    ghost Value = { SeatView };

    ghost view = { λ t. added t.held.seat t.entries.value };

    ghost invariant = { λ t. IsOpenTurn t.held.seat t.entries.value t.held.value };
}

impl OpenRouter {
    /// Enters a turn of this seat. What the seat may call it may still call. An `Err` tells the ticket that is never drawn, and gives the seat back,
    /// which knows that all are drawn.
    pub fn begin<W: Wait>(
        rt: &W,
        router: &Turns<Router, RouterKind>,
        seat: Seat<RouterKind>,
    ) -> Result<OpenRouter, (u64, Seat<RouterKind>)>
        requires own { seat.lock ≡ router.now.lock }
        ensures enters { IfOk result (λ t. Enters seat t) }
        ensures may { IfOk result (λ t. (call : RouteCall) → MayCall seat call → MayCall t call) }
        ensures worn { IfErr result (λ e. (e.0 ≡ last_ticket) × (e.1 ≡ worn seat)) }
    {
        match router.enter(rt, seat) {
            Ok(held) => {
                // that the number is one of the seat's is what the proof takes from this call
                let _ = held.seat.number();
                let entries = no_entries();
                Ok(OpenRouter { held, entries })
            }
            Err((fault, seat)) => Err((ticket_of(fault), seat)),
        }
    }

    /// Makes a call, behind those of this turn.
    pub fn call<C: RouterCall>(&mut self, call: &C) -> C::Answer
        requires may { MayCall self.old (C.call call.now) }
        ensures called { IsCalledWithin (C.call call.now) (C.told result) self.old self.new }
    {
        let answer = call.make(&mut self.held.value);
        let number = self.held.seat.number();
        self.entries = Entries::of::<Called<C>, OneMore<C>>(&Called {
            before: &self.entries,
            number: &number,
            call,
            answer: &answer,
        });
        answer
    }

    /// Ends the turn.
    pub fn end(self, router: &Turns<Router, RouterKind>) -> Seat<RouterKind>
        requires own { self.lock ≡ router.now.lock }
        ensures seat { result ≡ self }
    {
        let OpenRouter { held, entries } = self;
        router.leave(held, entries)
    }
}

/// Makes the call in a turn of this seat, and leaves it as the one entry of the turn. An `Err` tells the ticket that is never drawn: the router was
/// not called, since all of its tickets are drawn, and the seat knows it.
pub fn call_router<C: RouterCall, W: Wait>(
    rt: &W,
    router: &Turns<Router, RouterKind>,
    seat: Seat<RouterKind>,
    call: &C,
) -> (Result<C::Answer, u64>, Seat<RouterKind>)
    requires own { seat.lock ≡ router.now.lock }
    requires may { MayCall seat (C.call call.now) }
    ensures called { IfOk result.0 (λ answer. IsCalled (C.call call.now) (C.told answer) seat result.1) }
    ensures worn { IfErr result.0 (λ number. (number ≡ last_ticket) × (result.1 ≡ worn seat)) }
{
    match OpenRouter::begin(rt, router, seat) {
        Ok(mut turn) => {
            let answer = turn.call(call);
            (Ok(answer), turn.end(router))
        }
        Err((number, seat)) => (Err(number), seat),
    }
}
