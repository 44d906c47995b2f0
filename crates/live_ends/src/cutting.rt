//! What is known to be read, or received, is kept no more.
ghost use Rattle.live_ends.specs.Ends.{CutSeats, CutDoors};

use segment_rings::{Door, Seat};

/// Each client's notes that are known to be read are kept no more.
pub(crate) fn cut_seats(seats: &mut Vec<Seat>)
    ensures { CutSeats seats.old.items seats.new.items }
{
    for k in 0..seats.len() {
        let seat = &mut seats[k];
        seat.cut();
    }
}

/// Each port's deliveries that are known to be received are kept no more.
pub(crate) fn cut_doors(doors: &mut Vec<Door>)
    ensures { CutDoors doors.old.items doors.new.items }
{
    for k in 0..doors.len() {
        let door = &mut doors[k];
        door.cut();
    }
}
