//! A lane: the messages of one station to one destination, one of them under way at a time. After a doubtful end it
//! settles by a Request and its Acknowledgement before the next message begins (SAE J1939-21).
#![tactic(auto)]

mod answer;
mod cancel;
mod endings;
mod fire;
mod hear;
mod image;
mod lane;
mod message;
mod overrun;
mod place;
mod probe;
mod pump;
mod refused;
mod sight;
mod spending;
mod step;

pub use fire::MOST_REQUESTS;
pub use image::LaneImage;
pub use lane::Lane;
pub use message::{Pending, longest_to};
pub use message_events::Bytes;
pub use place::UnderWay;
pub use probe::{Standing, Token};
pub use pump::kind_for;
pub use refused::{PumpRefused, PushRefused};
pub use sight::LaneSight;
pub use step::Ended;
