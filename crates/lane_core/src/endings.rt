//! How the messages of a lane end.
ghost use Rattle.std.specs.Prelude.{◌≡◌, ◌<◌, ◌++◌, length};
ghost use Rattle.tx_queue.specs.Queue.{queue_limit};
ghost use Rattle.lane_core.specs.Endings.{ended_lane, front_ended, connection_over, ended_by};

use crate::lane::Lane;
use crate::place::{Place, UnderWay};
use crate::probe::Standing;
use crate::step::Ended;
use originator::{Ending, OutOver};
use pgn_ids::Address;
use tp_wire::Outcome;
use tx_queue::TxQueue;

impl Lane {
    /// The front message ends.
    #[inline(never)]
    pub(crate) fn over(&mut self, outcome: Outcome) -> Option<Ended>
        ensures lane { self.new ≡ ended_lane self.old outcome }
        ensures ended { result ≡ front_ended self.old.pending outcome }
    {
        let ended = match self.pending.pop_front() {
            None => None,
            Some(message) => Some(Ended {
                number: message.number,
                outcome,
            }),
        };
        self.place = Place::new(UnderWay::Nothing);
        if self.to != Address::GLOBAL && outcome != Outcome::Acknowledged {
            self.standing = Standing::InDoubt;
        }
        ended
    }

    /// The connection under way is over.
    pub(crate) fn connection_over(&mut self, over: OutOver, queue: &mut TxQueue) -> Option<Ended>
        requires { length queue.old < queue_limit }
        ensures lane { self.new ≡ (connection_over self.old over).0 }
        ensures queued { queue.new ≡ queue.old ++ (connection_over self.old over).1.frames }
        ensures ended { result ≡ (connection_over self.old over).1.ended }
    {
        if let Some(frame) = over.frame {
            queue.push_free(frame);
        }
        self.over(over.outcome)
    }

    /// A frame of the destination ends the connection under way.
    #[inline(never)]
    pub(crate) fn end_connection(&mut self, ending: Ending, queue: &mut TxQueue) -> Option<Ended>
        requires { length queue.old < queue_limit }
        ensures lane { self.new ≡ (ended_by self.old.under_way self.old ending).0 }
        ensures queued { queue.new ≡ queue.old ++ (ended_by self.old.under_way self.old ending).1.frames }
        ensures ended { result ≡ (ended_by self.old.under_way self.old ending).1.ended }
    {
        match self.take_under_way() {
            UnderWay::Connection(state) => self.connection_over(state.end(ending), queue),
            other => {
                self.put_under_way(other);
                None
            }
        }
    }
}
