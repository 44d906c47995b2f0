//! Tests of the gateway between two segments.
mod endings;
mod ends;
mod pace;
mod relays;
mod segments;
