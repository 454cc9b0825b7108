//! What a message becomes for a subscription.

ghost use Rattle.std.specs.Prelude.{◌≡◌, IfOk};
ghost use Rattle.route_core.specs.Deliveries.{delivery_with};

use crate::measured_frame::MeasuredFrame;
use crate::parcel::Parcel;
use crate::subscription::Subscription;
use js_base::{Blob, NoMemory, Out};
use std::alloc::Global;

/// A message for a subscription: its session, its identifier, and the frame.
#[derive(Drop)]
pub(crate) struct Delivery {
    pub(crate) session: u64,
    pub(crate) sid: Blob,
    pub(crate) frame: Parcel,
}

impl Delivery {
    /// The message for a subscription, whose client takes header blocks or none. All memory that handing it over needs is taken here.
    pub(crate) fn of(
        alloc: Global,
        out: &Out,
        sub: &Subscription,
        headers: bool,
    ) -> Result<Delivery, NoMemory>
        ensures value { IfOk result (λ delivery. delivery ≡ delivery_with headers out.now sub.now) }
    {
        let sid = sub.sid().clone()?;
        let frame = MeasuredFrame::message(out, &sid, headers)?;
        Ok(Delivery {
            session: sub.session(),
            sid,
            frame: Parcel::of(alloc, frame)?,
        })
    }
}
