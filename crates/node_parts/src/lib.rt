//! The parts of a node that need no segment: which frames are its own, the events that wait for the program, the order in which its station
//! looks at a frame, the frames that it put and the bus has yet to show, destinations that rest, and where its clock stops next.
#![tactic(auto)]

mod echoes;
mod rests;
mod source;
mod stop;
mod taker;
mod told;

pub use echoes::Echoes;
pub use rests::Rests;
pub use source::comes_from;
pub use stop::{Stop, next_stop};
pub use taker::{Taker, look};
pub use told::{TakeError, Told};
