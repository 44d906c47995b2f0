//! The events of stations in a drawing of a bus, as notes of a sequence diagram in Mermaid. Each call puts whole lines behind what a buffer
//! holds already.
//!
//! A call fails only if memory is refused; what the buffer holds then is not specified.
#![tactic(auto)]

mod notes;

pub use notes::{draw_each_told, draw_told};
