//! Tests of scripts run by threads.
mod ended;
mod gateways;
mod runs;
