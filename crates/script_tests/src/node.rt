//! Tests of a node on a real bus: readers and writers that fail.
mod failing;
mod reading;
