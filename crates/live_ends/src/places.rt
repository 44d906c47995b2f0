//! Places in the rings of ports, and memory for what goes there.
ghost use Rattle.std.specs.Prelude.{◌≡◌, length, IfOk, IsTrue, IsFalse, MatchOption};
ghost use Rattle.live_ends.specs.Ends.{NoneAt, PortsApart, SameDoors};
ghost use Rattle.live_ends.specs.Places.{times, IsPlaceIn, RoomAt, LacksRoom, HavePlaces, LacksPlace, AtLeast};

use crate::all_doors::Doors;
use pgn_ids::Address;
use port_table::PortId;
use segment_rings::{Buffer, Door};
use std::alloc::{AllocError, Global};

/// The door of a port.
pub fn door_of(doors: &[Door], port: PortId) -> Option<usize>
    ensures { MatchOption result (NoneAt port doors.now) (λ k. IsPlaceIn doors.now port k) }
{
    for (k, door) in doors.iter().enumerate() {
        if door.port() == port {
            return Some(k);
        }
    }
    None
}

/// How often a number is among others.
pub(crate) fn count(numbers: &[u64], number: u64) -> usize
    ensures { result ≡ times number numbers.now }
{
    let mut times = 0;
    for other in numbers {
        if *other == number {
            times += 1;
        }
    }
    times
}

/// Looks for so many places in a port's ring, if the port has one.
pub(crate) fn prepare(
    doors: &mut Vec<Door>,
    port: PortId,
    needed: usize,
) -> Result<bool, AllocError>
    requires { PortsApart doors.old.items }
    ensures same { SameDoors doors.old.items doors.new.items }
    ensures ready { IfOk result (λ r. IsTrue r → RoomAt port needed doors.new.items) }
    ensures none { IfOk result (λ r. IsFalse r → LacksRoom port needed doors.new.items) }
{
    let Some(k) = door_of(doors.as_slice(), port) else {
        return Ok(true);
    };
    let door = &mut doors[k];
    door.prepare(needed)
}

/// Looks for a place in the ring of each port of a station with these numbers.
pub fn prepare_all(doors: &mut Doors, station: Address, numbers: &[u64]) -> Result<bool, AllocError>
    requires { PortsApart doors.old.items }
    ensures same { SameDoors doors.old.items doors.new.items }
    ensures ready { IfOk result (λ r. IsTrue r → HavePlaces station numbers.now doors.new.items) }
    ensures none { IfOk result (λ r. IsFalse r → LacksPlace station numbers.now doors.new.items) }
{
    for number in numbers {
        let port = PortId {
            station,
            number: *number,
        };
        if !doors.prepare(port, count(numbers, *number))? {
            return Ok(false);
        }
    }
    Ok(true)
}

/// So many buffers of a length.
pub fn make_buffers(alloc: Global, many: usize, len: usize) -> Result<Vec<Buffer>, AllocError>
    ensures { IfOk result (λ v. (length v.items ≡ many) × AtLeast len v.items) }
{
    let mut made = Vec::with_capacity(alloc, many)?;
    for _ in 0..many {
        made.push_reserved(Buffer::new(alloc, len)?);
    }
    Ok(made)
}
