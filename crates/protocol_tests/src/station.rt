//! Tests of the lanes and the receivers of a station, and of a station, through what these crates show.
mod lanes;
mod receivers;
mod stations;
