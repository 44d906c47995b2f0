//! The counts of a segment.

/// What a segment counted, each number up to the last value of `u64`.
#[derive(Clone, Copy, Debug, PartialEq, Eq)]
pub struct Counts {
    /// Frames put on the bus.
    pub frames: u64,
    /// Takes, repeated ones too, at which a station looked at a malformed frame.
    pub malformed: u64,
    /// Frames that were taken again.
    pub repeated: u64,
    /// Messages given at a port.
    pub given: u64,
    /// Messages by their outcome.
    pub acknowledged: u64,
    pub broadcast: u64,
    pub aborted: u64,
    pub timed_out: u64,
    pub overrun: u64,
    pub cancelled: u64,
    pub unreachable: u64,
}
