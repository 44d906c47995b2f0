//! An extended connection as typed states, for messages up to 117,440,505 bytes (ISO 11783-3, extended transport
//! protocol): the sending side by the names of `originator`, the receiving side by those of `responder`, with the rows
//! that are ETP's.
//!
//! Each state must be spent, exactly once: a step takes it and gives what follows. The memory of a receiver grows by the
//! window, ahead of the step that grants it, so that the size in a peer's RTS alone takes none.
#![tactic(auto)]

mod laws;
mod opening;

pub use laws::{memory_grows_by_the_window, rows_are_those_of_etp};
pub use opening::{accept, begin};
pub use originator::{AwaitCts, AwaitEnd, OutOver, OutState, Sending, Stepped};
pub use responder::{
    AwaitPacket, Finished, Flow, Holding, InState, Left, Peer, Received, Receiver,
};
