//! Tests of a segment, and of the printing of scripts, through these crates' public items (`segment`), and of a node through its crate's public
//! items: two nodes, 21 and 35, joined by a bus in memory (`single_station`).
#![tactic(auto)]

#[cfg(test)]
mod checks;
#[cfg(test)]
mod segment;
#[cfg(test)]
mod single_station;
#[cfg(test)]
mod stations;
