//! Where the bells of the links that are being served hang.

use std::alloc::{AllocError, Global};
use std::sync::{Arc, Mutex, Wait};
use tcp_edge::Bell;

/// The bell of a link that is being served, and the number of its session.
#[derive(Drop)]
pub(crate) struct Hung {
    pub(crate) session: u64,
    pub(crate) bell: Arc<Bell>,
}

impl Hung {
    /// Rings if the session is among these, the session n by the bit n % 64.
    fn ring(&self, roused: u64) {
        if (roused >> (self.session % 64)) & 1 == 1 {
            self.bell.ring();
        }
    }
}

/// The bells of the links that are being served, each at the place of its worker.
#[derive(Drop)]
pub(crate) struct Board {
    places: Vec<Mutex<Option<Hung>>>,
}

impl Board {
    /// A board without bells, for so many workers.
    pub(crate) fn new(alloc: Global, workers: usize) -> Result<Board, AllocError> {
        let mut places = Vec::with_capacity(alloc, workers)?;
        for _ in 0..workers {
            places.push(Mutex::new(None))?;
        }
        Ok(Board { places })
    }

    /// Hangs the bell of a worker's link up, or takes it down by `None`.
    pub(crate) fn hang<W: Wait>(&self, rt: &W, worker: u32, hung: Option<Hung>) {
        if let Some(place) = self.places.get(worker as usize) {
            *place.lock(rt) = hung;
        }
    }

    /// Rings the bells of these sessions, but not that of this worker's own link.
    pub(crate) fn ring<W: Wait>(&self, rt: &W, roused: u64, own: u32) {
        if roused == 0 {
            return;
        }
        for (worker, place) in self.places.iter().enumerate() {
            if worker == own as usize {
                continue;
            }
            if let Some(hung) = place.lock(rt).as_ref() {
                hung.ring(roused);
            }
        }
    }
}
