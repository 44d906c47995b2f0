//! What a station can do.

/// What a station can do in a turn, or what keeps it from it.
#[derive(Clone, Copy, Debug, PartialEq, Eq)]
pub enum Kind {
    /// It takes a frame, with room.
    Take,
    /// It puts a frame.
    Transmit,
    /// It would put a frame, but the bus is full.
    Blocked,
    /// So many frames wait for it.
    Behind(u64),
    /// It pumps one of its lanes.
    Pump,
    /// It fires a timer.
    Fire,
}
