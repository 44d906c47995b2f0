//! Messages that are cancelled.
ghost use Rattle.std.specs.Prelude.{◌≡◌, ◌<◌, ◌≤◌, ◌↔◌, ◌++◌, true, length, Some, IsSome, IsTrue, OnSome, IfNone};
ghost use Rattle.tx_queue.specs.Queue.{queue_limit};
ghost use Rattle.lane_core.specs.Cancel.{numbered, is_front as is_front_of, cancelled as cancelled_lane, queues_abort as queues_abort_of, withdrawn, without_number, place_of};
ghost use Rattle.lane_core.specs.declared.place.UnderWay.TheVariants.{Nothing};

use crate::lane::Lane;
use crate::message::Pending;
use crate::place::UnderWay;
use crate::step::Ended;
use std::collections::VecDeque;
use tp_wire::Outcome;
use tx_queue::TxQueue;

impl Lane {
    /// Whether a message with this number has no outcome yet.
    pub fn is_pending(&self, number: u64) -> bool
        ensures { result ≡ numbered self.now.pending number }
    {
        self.pending.iter().any(|message| message.number == number)
    }

    /// Whether the message with this number is the first one without an outcome.
    fn is_front(&self, number: u64) -> bool
        ensures { result ≡ is_front_of self.now.pending number }
    {
        match self.pending.front() {
            None => false,
            Some(message) => message.number == number,
        }
    }

    /// Whether cancelling the message with this number queues an abort: its connection is under way.
    pub fn queues_abort(&self, number: u64) -> bool
        ensures { result ≡ queues_abort_of self.now number }
    {
        match self.place.content() {
            UnderWay::Connection(_) => self.is_front(number),
            _ => false,
        }
    }

    /// Takes a message out, wherever it is in the lane, while nothing is under way.
    #[tactic(auto, using(crate::proofs::Cancelling::carried_withdraw))]
    fn withdraw(&mut self, number: u64) -> Ended
        requires { self.old.under_way ≡ Nothing }
        ensures lane { self.new ≡ (withdrawn self.old number).0 }
        ensures ended { Some result ≡ (withdrawn self.old number).1.ended }
    {
        take_number(&mut self.pending, number);
        Ended {
            number,
            outcome: Outcome::Cancelled,
        }
    }

    /// Cancels the message with this number, and returns its outcome. A connection under way ends with an abort, which is queued
    /// behind the frames of a queue. A broadcast under way ends without a frame. A message that has not begun leaves the rest of
    /// the lane unchanged.
    ///
    /// None exactly if no message with this number is pending; then nothing changes.
    #[tactic(auto, using(crate::proofs::Cancelling::tells_one))]
    pub fn cancel(&mut self, number: u64, queue: &mut TxQueue) -> Option<Ended>
        requires place { queues_abort_of self.old number ≡ true → length queue.old < queue_limit }
        ensures pending { IsSome result ↔ IsTrue (numbered self.old.pending number) }
        ensures lane { OnSome result (self.new ≡ (cancelled_lane self.old number).0) }
        ensures queued { OnSome result (queue.new ≡ queue.old ++ (cancelled_lane self.old number).1.frames) }
        ensures ended { OnSome result (result ≡ (cancelled_lane self.old number).1.ended) }
        ensures none { IfNone result (self.new ≡ self.old) }
        ensures kept { IfNone result (queue.new ≡ queue.old) }
    {
        if !self.is_pending(number) {
            return None;
        }
        self.end(number, queue)
    }

    // Ends a message that is pending.
    fn end(&mut self, number: u64, queue: &mut TxQueue) -> Option<Ended>
        requires place { queues_abort_of self.old number ≡ true → length queue.old < queue_limit }
        ensures lane { self.new ≡ (cancelled_lane self.old number).0 }
        ensures queued { queue.new ≡ queue.old ++ (cancelled_lane self.old number).1.frames }
        ensures ended { result ≡ (cancelled_lane self.old number).1.ended }
    {
        let is_front = self.is_front(number);
        match self.take_under_way() {
            UnderWay::Broadcast(state) if is_front => {
                state.cancel();
                self.over(Outcome::Cancelled)
            }
            UnderWay::Connection(state) if is_front => self.connection_over(state.cancel(), queue),
            other => {
                let ended = self.withdraw(number);
                self.put_under_way(other);
                Some(ended)
            }
        }
    }
}

/// The place of the first message with a number.
fn place_of_number(messages: &VecDeque<Pending>, number: u64) -> Option<usize>
    ensures { result ≡ place_of messages.now.items number }
{
    messages.iter().position(|message| message.number == number)
}

/// The first message with a number is taken out.
#[tactic(auto, using(crate::proofs::Cancelling::removed, crate::proofs::Cancelling::none_removed))]
fn take_number(messages: &mut VecDeque<Pending>, number: u64)
    ensures items { messages.new.items ≡ without_number messages.old.items number }
    ensures few { length messages.new.items ≤ length messages.old.items }
{
    if let Some(at) = place_of_number(messages, number) {
        let _message = messages.remove(at);
    }
}
