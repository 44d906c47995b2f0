//! What the lines of a script set up that has two segments and a route between them: the segments, one after the other, and from which
//! port of the first one to which station of the second the route leads.

mod gateway;
mod obeying;
mod planning;
mod routing;

pub use gateway::{Gateway, Passage, Routing};
