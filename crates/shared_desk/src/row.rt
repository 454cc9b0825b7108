//! The seats of a caller in the order of their places.

ghost use Rattle.std.specs.Prelude.{◌≡◌, ◌<◌, List, None, Some, length, map, slice_get, slice_set};
ghost use Rattle.turn_lock.specs.Seats.{SeatView};
ghost use Rattle.shared_desk.specs.Seats.{AreThere, seats_in};

use turn_lock::{Lawful, Seat};

/// Takes the seat at this place of a row in which each is there.
pub(crate) fn take_at<K: Lawful>(row: &mut Vec<Option<Seat<K>>>, at: u32) -> Seat<K>
    requires there { AreThere row.old.items }
    requires within { at < length (seats_in row.old.items) }
    ensures seat { slice_get (seats_in row.old.items) at ≡ Some result }
    ensures away { row.new.items ≡ slice_set row.old.items at None }
{
    let Some(seat) = row[at as usize].take() else {
        unreachable!()
    };
    seat
}

/// Puts the seat that was taken back.
pub(crate) fn put_at<K: Lawful>(row: &mut Vec<Option<Seat<K>>>, at: u32, seat: Seat<K>)
    requires within { at < length row.old.items }
    ensures back { (seats : List SeatView) → row.old.items ≡ slice_set (map Some seats) at None → row.new.items ≡ map Some (slice_set seats at seat) }
{
    row[at as usize] = Some(seat);
}
