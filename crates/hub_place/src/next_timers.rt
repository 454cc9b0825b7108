//! Where somebody has to let time pass at the places of a hub, for whoever does so.

use js_api::Outcome;
use js_base::Moment;
use place_engine::Place;
use std::alloc::Global;
use std::sync::atomic::{AtomicU64, Ordering};

/// Nobody has to come to the place: it has no stream, is stopped, or is held.
const CLOSED: u64 = u64::MAX;

/// No timer fires at the place.
const NEVER: u64 = u64::MAX - 1;

/// What is known of a place without a turn of it.
#[derive(Drop)]
struct PlaceTimer {
    /// The moment before which no timer fires there, in nanoseconds.
    next: AtomicU64,
    /// How many subscriptions had been made as its last hold began.
    subscriptions: AtomicU64,
}

/// For each place of a hub when somebody has to let time pass there: when a timer fires, at once if a hold ended with more to do, and once somebody has
/// subscribed since the last hold began, for whom a push consumer may have waited. Any thread may read it without a turn of the place. While a place is held
/// nobody has to come, since the hold lets time pass there itself. No clause says that it is so.
#[derive(Drop)]
pub struct Timers {
    places: Vec<PlaceTimer>,
    /// How many subscriptions were made by the desks of the hub.
    subscriptions: AtomicU64,
}

/// When somebody has to come to a place next, which is at once if more is to be done there.
fn next_at<P: Place>(place: &P, goes_on: bool) -> u64 {
    if place.name().is_none() || place.stopped().is_some() {
        return CLOSED;
    }
    if goes_on {
        return 0;
    }
    match place.next_timer() {
        Some(moment) => moment.as_nanos(),
        None => NEVER,
    }
}

impl Timers {
    /// Those of places that were just opened: time is to pass at each that has a stream, since something may have been due for long. `None` is want of
    /// memory.
    pub fn of<P: Place>(alloc: Global, places: &[P]) -> Option<Timers> {
        let mut timers = Vec::with_capacity(alloc, places.len()).ok()?;
        for place in places {
            let timer = PlaceTimer {
                next: AtomicU64::new(next_at(place, true)),
                subscriptions: AtomicU64::new(0),
            };
            timers.push(timer).ok()?;
        }
        Some(Timers {
            places: timers,
            subscriptions: AtomicU64::new(0),
        })
    }

    /// Whether somebody has to let time pass at a place by a moment.
    pub fn is_due(&self, place: u32, now: Moment) -> bool {
        let Some(timer) = self.places.get(place as usize) else {
            return false;
        };
        let next = timer.next.load(Ordering::SeqCst);
        next != CLOSED && (next <= now.as_nanos() || self.has_newer_subscription(timer))
    }

    /// Notes that somebody subscribed, once the router has the subscription.
    pub fn note_subscription(&self) {
        self.subscriptions.fetch_add(1, Ordering::SeqCst);
    }

    /// Whether somebody subscribed since the last hold on a place began.
    fn has_newer_subscription(&self, timer: &PlaceTimer) -> bool {
        timer.subscriptions.load(Ordering::SeqCst) != self.subscriptions.load(Ordering::SeqCst)
    }

    /// A hold on the place begins, before it looks who listens.
    pub(crate) fn begin(&self, place: u32) {
        if let Some(timer) = self.places.get(place as usize) {
            timer.next.store(CLOSED, Ordering::SeqCst);
            let made = self.subscriptions.load(Ordering::SeqCst);
            timer.subscriptions.store(made, Ordering::SeqCst);
        }
    }

    /// A hold on the place ends, and came to this. More is to be done there at once if it could not deliver all that it might, or ended with a fault, as for want of
    /// memory.
    pub(crate) fn end<P: Place>(&self, place: u32, held: &P, outcome: &Outcome) {
        if let Some(timer) = self.places.get(place as usize) {
            let goes_on = outcome.ready || outcome.fault.is_some();
            let next = next_at(held, goes_on);
            timer.next.store(next, Ordering::SeqCst);
        }
    }
}
