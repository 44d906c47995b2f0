//! Ports that close.
ghost use Rattle.std.specs.Prelude.{◌≡◌, OnOk, OnErr};
ghost use Rattle.std.specs.Result.{result_err};
ghost use Rattle.station_core.specs.Closing.{if_free, unbound_session, closed_below, closed};
ghost use Rattle.station_core.specs.Refusals.{closing_refusal};

use crate::refused::{Refused, by_ports};
use crate::station::{Station, enqueue};
use bus_frame::Frame;
use pgn_ids::Address;
use session_table::{Key, SessionKind};
use tx_queue::TxQueue;

/// How many addresses of one node there are.
const NODES: u8 = 254;

// Queues a frame, if there is one and a place is free.
fn enqueue_if_free(queue: &mut TxQueue, frame: Option<Frame>)
    ensures { queue.new ≡ if_free queue.old frame }
{
    if let Some(frame) = frame {
        if queue.free() > 0 {
            enqueue(queue, frame);
        }
    }
}

impl Station {
    /// Why `close` of a port would be refused, if it would.
    pub fn close_refusal(&self, number: u64) -> Option<Refused>
        ensures { result ≡ closing_refusal self.now number }
    {
        match self.ports.close_refusal(number) {
            None => None,
            Some(cause) => Some(by_ports(cause)),
        }
    }

    /// Closes a port, and removes it from each session's set. A session whose set is then empty ends, a connection by
    /// an abort as far as the queue has places: by rising source, TP before ETP.
    ///
    /// Refused as `NoSuchPort` exactly if no open port has this number; then nothing changes. It takes no memory.
    #[inline]
    pub fn close(&mut self, number: u64) -> Result<(), Refused>
        ensures ok { OnOk result (self.new ≡ closed self.old number) }
        ensures refused { result_err result ≡ closing_refusal self.old number }
        ensures err { OnErr result (self.new ≡ self.old) }
    {
        match self.ports.close(number) {
            Ok(()) => {
                // Usually no session is under way.
                if !self.sessions.is_empty() {
                    self.unbind_all(number);
                }
                Ok(())
            }
            Err(cause) => Err(by_ports(cause)),
        }
    }

    /// Takes a port out of the sets of all sessions, by rising source: those without a session are passed over.
    #[inline(never)]
    fn unbind_all(&mut self, number: u64)
        ensures { self.new ≡ closed_below self.old number 254 }
    {
        let mut from = 0;
        for _ in 0..NODES {
            let Some(source) = self.sessions.next_source(from) else {
                return;
            };
            if source.0 >= NODES {
                return;
            }
            self.unbind(source, SessionKind::Broadcast, number);
            self.unbind(source, SessionKind::Tp, number);
            self.unbind(source, SessionKind::Etp, number);
            from = source.0 + 1;
        }
    }

    /// Takes a port out of the set of one session.
    fn unbind(&mut self, source: Address, kind: SessionKind, number: u64)
        ensures { self.new ≡ unbound_session self.old source kind number }
    {
        let frame = self.sessions.unbind(Key { source, kind }, number);
        enqueue_if_free(&mut self.queue, frame);
    }
}
