//! The law of a station that starts while another is on the bus, as a program that starts again at its address.
#![tactic(auto)]

mod laws;

pub use laws::{
    a_first_start_is_one, a_restart_is_one, messages_hold_from_a_moment, messages_hold_from_a_start,
};
