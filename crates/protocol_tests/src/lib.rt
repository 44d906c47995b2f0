//! Tests of the protocol, through the crates' public items: of the layers below the sessions (`frame`), of received messages and the table of
//! their sessions (`session`), and of the lanes and the receivers of a station, and of a station (`station`).
#![tactic(auto)]

#[cfg(test)]
mod checks;
#[cfg(test)]
mod frame;
#[cfg(test)]
mod means;
#[cfg(test)]
mod session;
#[cfg(test)]
mod station;
