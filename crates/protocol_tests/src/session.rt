//! Tests of received messages, and of the table of their sessions, through the crates' public items.
mod broadcasts;
mod connections;
mod exchanges;
mod extended_connections;
mod finished;
mod received;
mod senders;
mod sessions;
