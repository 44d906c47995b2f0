//! What a drain makes of messages: on a segment with nothing under way each ends as its destination alone says, and a node of which nothing
//! is heard answers none.
#![tactic(auto)]

mod laws;

pub use laws::{each_message_ends_by_its_destination, unheard_nodes_never_answer};
