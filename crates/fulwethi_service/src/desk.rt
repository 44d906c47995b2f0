//! A client, at a place that was made before it.
use live_segment::Client;

/// The client is there once its station has it.
#[derive(Drop)]
pub struct Desk {
    pub client: Option<Client>,
}
