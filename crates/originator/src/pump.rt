//! A part of a window is queued (SAE J1939-21, TP.DT; ISO 11783-3, ETP.CM_DPO and ETP.DT).
ghost use Rattle.std.specs.Prelude.{◌≡◌, ℕ, ◌+◌, ◌-◌, ◌<◌, ◌≤◌, ◌++◌, length};
ghost use Rattle.tx_queue.specs.Queue.{queue_limit};
ghost use Rattle.originator.specs.Readers.{link_of};
ghost use Rattle.originator.specs.Pump.{most_frames, announcement, packet_frames, burst_of_window, burst_packets, queued_to, pumped};
ghost use Rattle.originator.specs.declared.states.OutState.TheVariants as OutState;

use crate::cts::without_window;
use crate::sending::Sending;
use crate::states::OutState;
use tick_timers::{T3, Timer};
use tp_wire::Kind;
use tx_queue::TxQueue;

/// How many frames are queued at once at most.
const MOST_FRAMES: u32 = 8;

impl Sending {
    /// Queues the announcement of the window, which ETP wants before its first packet: how many frames may still be queued
    /// with it.
    #[inline]
    fn queue_announcement(&self, queue: &mut TxQueue) -> u32
        requires place { length queue.old < queue_limit }
        ensures queued { queue.new ≡ queue.old ++ announcement self.now.link.kind self.now }
        ensures left { result + length (announcement self.now.link.kind self.now) ≡ most_frames }
        ensures some { 1 ≤ result }
    {
        if self.link.kind() == Kind::Etp && !self.announced {
            let packets = (self.until - (self.next - 1)) as u8;
            queue.push_free(self.link.dpo_frame(packets, self.next - 1));
            return MOST_FRAMES - 1;
        }
        MOST_FRAMES
    }

    /// Queues the packets of the window before `end` that are still to be queued.
    fn queue_packets(&self, bytes: &[u8], end: u32, queue: &mut TxQueue)
        requires message { length bytes.now ≡ self.now.link.len }
        requires from { self.now.at ≤ end }
        requires to { end ≤ self.now.until + 1 }
        requires places { length queue.old + (end - self.now.at) ≤ queue_limit }
        ensures { queue.new ≡ queue.old ++ packet_frames self.now.link self.now.next bytes.now self.now.at (end - self.now.at) }
    {
        let link = self.link;
        let next = self.next;
        for k in self.at..end {
            queue.push_free(link.packet_frame(next, bytes, k));
        }
    }

    /// Queues the next frames of the window: the packet from which on it is still to be queued then.
    #[inline]
    fn queue_part(&self, bytes: &[u8], queue: &mut TxQueue) -> u32
        requires message { length bytes.now ≡ self.now.link.len }
        requires places { length queue.old + most_frames ≤ queue_limit }
        ensures queued { queue.new ≡ queue.old ++ burst_of_window self.now bytes.now }
        ensures end { result ≡ self.now.at + burst_packets self.now }
        ensures from { self.now.at ≤ result }
        ensures to { result ≤ self.now.until + 1 }
    {
        let places = self.queue_announcement(queue);
        // A call of it, so that the packet behind the window is known to have a number.
        let _packets = self.link.packets();
        let end = self.at + places.min(self.until - self.at + 1);
        self.queue_packets(bytes, end, queue);
        end
    }

    /// The packets before `at` are queued, and the window has more.
    #[inline]
    fn queued_before(&mut self, at: u32)
        requires from { self.old.at ≤ at }
        requires to { at ≤ self.old.until }
        ensures state { (now : ℕ) → OutState.Sending self.new ≡ queued_to self.old at now }
        ensures link { self.new.link ≡ self.old.link }
    {
        self.unsent = self.unsent.max(at);
        self.at = at;
        self.announced = true;
    }
}

impl OutState {
    /// Queues the next frames of the window behind those of a queue at tick `now`, one to eight, or none if there is no
    /// window: in ETP its data packet offset (DPO) first, then its packets. `bytes` is the message. After the last packet of
    /// the window a CTS or the end acknowledgement is awaited for T3.
    #[inline(never)]
    pub fn pump(&mut self, bytes: &[u8], now: u64, queue: &mut TxQueue)
        requires message { length bytes.now ≡ (link_of self.old).len }
        requires places { length queue.old + most_frames ≤ queue_limit }
        ensures state { self.new ≡ (pumped self.old bytes.now now).0 }
        ensures queued { queue.new ≡ queue.old ++ (pumped self.old bytes.now now).1 }
        ensures link { link_of self.new ≡ link_of self.old }
    {
        let OutState::Sending(state) = self else {
            return;
        };
        let end = state.queue_part(bytes, queue);
        if end <= state.until {
            state.queued_before(end);
            return;
        }
        let timer = Timer::start(now, T3);
        let unsent = state.unsent.max(end);
        let awaits = without_window(state.link, unsent, state.resends, timer);
        self.go_to(awaits);
    }
}
