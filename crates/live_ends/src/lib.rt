//! The segment's ends of all rings: the seats of its clients and the doors of its ports, what is taken from them, and what is told to them.
#![tactic(auto)]

mod all_doors;
mod cutting;
mod hand;
mod home;
mod offer;
mod places;
mod seating;
mod settle;
mod telling;

pub use all_doors::Doors;
pub use offer::{Front, count_owed, send_of};
pub use places::{door_of, make_buffers, prepare_all};
pub use seating::Seats;
pub use telling::tell;
