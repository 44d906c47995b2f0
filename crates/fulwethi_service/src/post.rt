//! An inbox, with what was taken out of it and isn't copied out yet.
use live_segment::{Delivery, Inbox};
use std::collections::VecDeque;

/// The inbox is there once its port is open. The next deliveries are `held`, then `rest`, which its closing handed out,
/// and then the inbox's.
#[derive(Drop)]
pub struct Post {
    pub inbox: Option<Inbox>,
    pub held: Option<Delivery>,
    pub rest: VecDeque<Delivery>,
}
