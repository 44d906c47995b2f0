//! Tests of a node through what its crate shows: two nodes, 21 and 35, joined by a bus in memory.
mod calls;
mod exchanges;
mod missed;
mod played;
mod refusals;
