//! Laws of the log, over lists of its calls.
ghost use Rattle.std.specs.Prelude.{ℕ, ◌<◌, List};
ghost use Rattle.bus_order.specs.Bus.{new_bus};
ghost use Rattle.bus_order.specs.Calls.{BusCall, after};
ghost use Rattle.bus_order.specs.Seen.{history, seen};
ghost use Rattle.bus_order.specs.Order.{HoldsLastOf, SeesInOrder};

/// A law: after any calls on a new log, it holds the last of the frames put, and each station sees the bus in order,
/// frame by frame, except the frames that it passed over.
pub fn stations_see_the_bus_in_order()
    ensures kept { (stations : ℕ) (calls : List BusCall) → HoldsLastOf (history (new_bus stations) calls) (after (new_bus stations) calls) }
    ensures seen { (stations : ℕ) (calls : List BusCall) (i : ℕ) → i < stations
        → SeesInOrder (history (new_bus stations) calls) (after (new_bus stations) calls) i (seen i (new_bus stations) calls) }
{}
