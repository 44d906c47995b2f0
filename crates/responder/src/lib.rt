//! The receiving side of a connection, for TP (SAE J1939-21, connection mode data transfer) and ETP (ISO 11783-3) alike: TP is
//! ETP with offset 0, whose granted packets need no DPO, and which makes room for the whole message as it begins.
//!
//! Values in, values out: there is no clock and no thread here. A `Receiver` changes in place, and says what is left to do
//! after a frame. `InState` is that receiver as typed states, by value: a step takes one and gives what follows. Either must
//! be spent, exactly once.
#![tactic(auto)]

mod finished;
mod flow;
mod in_state;
mod peer;
mod received;
mod receiver;
mod spending;
mod stage;
mod states;
mod unfinished;
mod window;

pub use finished::Finished;
pub use flow::Flow;
pub use in_state::InState;
pub use peer::Peer;
pub use received::Received;
pub use receiver::{Left, Receiver, ReceiverImage, begin};
pub use states::{AwaitPacket, Holding};
pub use window::most_packets;
