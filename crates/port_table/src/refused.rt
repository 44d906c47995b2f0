//! Why a call on ports is refused.

use thiserror::Error;

/// Why a call on ports is refused, which then changes nothing.
#[derive(Clone, Copy, Debug, PartialEq, Eq, Error)]
pub enum Refused {
    /// 16 ports are open, or the last number of `u64` was used.
    #[error("16 ports are open, or no number is left")]
    PortsFull,
    /// No open port has this number: it was never opened, or it is closed.
    #[error("no open port has this number")]
    NoSuchPort,
    /// The port is paused already.
    #[error("the port is paused")]
    PortPaused,
    /// The port isn't paused.
    #[error("the port is not paused")]
    PortNotPaused,
}
