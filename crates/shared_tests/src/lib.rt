//! Tests of what threads share: the ends of rings, a segment under its lock, and workers that serve for long.
#![tactic(auto)]

#[cfg(test)]
mod calls;
#[cfg(test)]
mod checks;
#[cfg(test)]
mod messages;
#[cfg(test)]
mod rings;
#[cfg(test)]
mod serving;
#[cfg(test)]
mod shared;
