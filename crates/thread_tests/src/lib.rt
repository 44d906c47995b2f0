//! Tests of the gateway between two segments (`relay`), and of scripts run by threads (`live`).
#![tactic(auto)]

#[cfg(test)]
mod checks;
#[cfg(test)]
mod live;
#[cfg(test)]
mod messages;
#[cfg(test)]
mod relay;
