//! What a caller has of the catalog.

ghost use Rattle.std.specs.Prelude.{◌≡◌};
ghost use Rattle.shared_desk.specs.declared.side.Side.TheVariants as sides;
ghost use Rattle.shared_desk.specs.Sides.{IsInside, IsOutside};

use hub_catalog::{CatalogKind, OpenCatalog};
use std::mem;
use turn_lock::Seat;

/// A caller's seat at the catalog, or a turn that it is in. It can't be dropped.
pub(crate) enum Side {
    Outside(Seat<CatalogKind>),
    Inside(OpenCatalog),
    /// It is within a call, which puts it back.
    Away,
}

impl Side {
    /// Takes the seat of a caller that is in no turn.
    pub(crate) fn take_seat(&mut self) -> Seat<CatalogKind>
        requires outside { IsOutside self.old }
        ensures seat { self.old ≡ sides.Outside result }
        ensures away { self.new ≡ sides.Away }
    {
        let side = mem::replace(self, Side::Away);
        let Side::Outside(seat) = side else {
            unreachable!()
        };
        seat
    }

    /// Takes the turn that a caller is in.
    pub(crate) fn take_turn(&mut self) -> OpenCatalog
        requires inside { IsInside self.old }
        ensures turn { self.old ≡ sides.Inside result }
        ensures away { self.new ≡ sides.Away }
    {
        let side = mem::replace(self, Side::Away);
        let Side::Inside(turn) = side else {
            unreachable!()
        };
        turn
    }

    /// Puts back what was taken.
    pub(crate) fn put(&mut self, side: Side)
        requires away { self.old ≡ sides.Away }
        ensures side { self.new ≡ side }
    {
        let away = mem::replace(self, side);
        let Side::Away = away else { unreachable!() };
    }
}
