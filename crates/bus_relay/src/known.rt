//! The facts known of two segments before their threads run.
use script_segments::{Names, Passage};

/// The names of both segments, and the passage of the relay, if there is one.
#[derive(Drop)]
pub(crate) struct Known {
    pub(crate) near: Names,
    pub(crate) far: Names,
    pub(crate) passage: Option<Passage>,
}
