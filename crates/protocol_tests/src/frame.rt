//! Tests of the layers below the sessions, through what these crates show.
mod buses;
mod frames;
mod identifiers;
mod packets;
mod ports;
mod queues;
mod timers;
mod wires;
