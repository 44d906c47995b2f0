//! A TP connection as typed states (SAE J1939-21, connection mode data transfer): the sending side by the names of
//! `originator`, the receiving side by those of `responder`, with the rows that are TP's.
//!
//! Each state must be spent, exactly once: a step takes it and gives what follows. No call takes memory: the join of
//! a received message has room for all of it, and the bytes of a message that is sent stay with the caller.
#![tactic(auto)]

mod laws;
mod opening;

pub use laws::rows_are_those_of_tp;
pub use opening::{accept, begin};
pub use originator::{AwaitCts, AwaitEnd, OutOver, OutState, Sending, Stepped};
pub use responder::{
    AwaitPacket, Finished, Flow, Holding, InState, Left, Peer, Received, Receiver,
};
