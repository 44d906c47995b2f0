//! An inbox: what a port received, with its end of the ring.
use crate::kept::Kept;
use crate::mark::Mark;
use crate::words::Delivery;
use port_table::PortId;
use rtrb::Consumer;
use std::alloc::{AllocError, Global};
use std::marker::Model;
use std::sync::Wait;
use std::thread;

/// Receives what a port is given. It may move to a thread of its own; `try_receive` takes no lock and never waits. It keeps what it
/// received until the segment is cut.
pub struct Inbox {
    alloc: Global,
    port: PortId,
    closed: bool,
    deliveries: Consumer<Delivery>,
    taken: Kept<Delivery>,
    mark: Mark,
    shut: Mark,
}

impl Model for Inbox {
    ghost use Rattle.std.specs.Prelude.{◌≡◌, ◌≤◌, ◌++◌, false, length, take};
    ghost use Rattle.rtrb.specs.Ring.{received};
    ghost use Rattle.segment_rings.specs.Ends.{InboxEnd};
    ghost use Rattle.segment_rings.specs.Tails.{IsTailOf};

    ghost Value = { InboxEnd };

    ghost view = { λ i. record { port = i.port; closed = i.closed; popped = received i.deliveries; received = take i.taken.gone (received i.deliveries) ++ i.taken.items; gone = i.taken.gone; spare = i.taken.spare } };

    ghost invariant = { λ i. (i.taken.gone ≤ length (received i.deliveries)) × (i.closed ≡ false → IsTailOf i.taken (received i.deliveries)) };
}

impl Drop for Inbox {
    fn drop(self) {
        let Inbox {
            alloc: _,
            port: _,
            closed: _,
            deliveries: _,
            taken: _,
            mark: _,
            shut: _,
        } = self;
    }
}

ghost use Rattle.std.specs.Prelude.{◌≡◌, OnErr, IfOk};

/// A copy of the delivery.
pub(crate) fn copy_delivery(alloc: Global, delivery: &Delivery) -> Result<Delivery, AllocError>
    ensures { IfOk result (λ d. d ≡ delivery.now) }
{
    let bytes = delivery.bytes.copy(alloc)?;
    Ok(Delivery {
        from: delivery.from,
        to: delivery.to,
        pgn: delivery.pgn,
        bytes,
    })
}

impl Inbox {
    ghost use Rattle.std.specs.Prelude.{◌≡◌, ◌<◌, ◌≤◌, [], length, drop, true, false, IfOk, OnErr, OnOk, MatchOption, Some, None, Ok};
    ghost use Rattle.rtrb.specs.Ring.{received};
    ghost use Rattle.segment_rings.specs.Ends.{InboxEnd, new_inbox_end, with_room_kept, lets_received_go, receives, closes};
    ghost use Rattle.segment_rings.specs.Tails.{GoesOn};

    pub(crate) fn new(
        alloc: Global,
        port: PortId,
        deliveries: Consumer<Delivery>,
        marks: (Mark, Mark),
    ) -> Inbox
        requires { received deliveries ≡ [] }
        ensures { result ≡ new_inbox_end port result.spare }
    {
        Inbox {
            alloc,
            port,
            closed: false,
            deliveries,
            taken: Kept::new(alloc),
            mark: marks.0,
            shut: marks.1,
        }
    }

    /// The port.
    pub fn port(&self) -> PortId
        ensures { result ≡ self.now.port }
    {
        self.port
    }

    /// Whether the port was closed by this inbox.
    pub fn is_closed(&self) -> bool
        ensures { result ≡ self.now.closed }
    {
        self.closed
    }

    /// Whether its port is known to be closed. Then nothing more comes into its ring, so what it doesn't find there afterwards will never
    /// come. No contract speaks of what another thread did.
    pub fn is_shut(&self) -> bool {
        self.shut.look() != 0
    }

    /// Receives the next delivery, if there is one. A closed inbox gives none. Want of memory leaves it in the ring. Whatever it returns, an
    /// open inbox drops the first deliveries that, by a cut of the segment, needn't be kept.
    pub fn try_receive(&mut self) -> Result<Option<Delivery>, AllocError>
        ensures delivery { IfOk result (λ r. MatchOption r (self.new ≡ lets_received_go self.old self.new.gone self.new.spare) (λ d. self.new ≡ receives self.old d self.new.gone self.new.spare)) }
        ensures gone { GoesOn self.old.gone self.new.gone self.old.received }
        ensures closed { self.old.closed ≡ true → (result ≡ Ok None) × (self.new ≡ self.old) }
        ensures err { OnErr result (self.new ≡ lets_received_go self.old self.new.gone self.new.spare) }
    {
        if self.closed {
            return Ok(None);
        }
        self.taken.let_go(self.mark.look());
        if self.deliveries.is_empty() {
            return Ok(None);
        }
        self.taken.reserve(1)?;
        let copy = copy_delivery(self.alloc, self.deliveries.peek_known())?;
        let delivery = self.deliveries.pop_known();
        self.taken.push_reserved(copy);
        Ok(Some(delivery))
    }

    /// Tries to receive at most so often, and ends at the first delivery, or at want of memory, which leaves it in the ring.
    pub fn receive<R: Wait>(&mut self, _rt: &R, turns: u64) -> Result<Option<Delivery>, AllocError>
        ensures delivery { IfOk result (λ r. MatchOption r (self.new ≡ lets_received_go self.old self.new.gone self.new.spare) (λ d. self.new ≡ receives self.old d self.new.gone self.new.spare)) }
        ensures gone { GoesOn self.old.gone self.new.gone self.old.received }
        ensures closed { self.old.closed ≡ true → (result ≡ Ok None) × (self.new ≡ self.old) }
        ensures err { OnErr result (self.new ≡ lets_received_go self.old self.new.gone self.new.spare) }
    {
        let _inbox = &self.alloc;
        for _ in 0..turns {
            if let Some(delivery) = self.try_receive()? {
                return Ok(Some(delivery));
            }
            thread::yield_now();
        }
        Ok(None)
    }

    /// How many of the first deliveries are kept no more.
    pub fn gone(&self) -> u64
        ensures value { result ≡ self.now.gone }
        ensures within { result ≤ length self.now.received }
    {
        self.taken.gone()
    }

    /// What was received, in order, without the deliveries that are kept no more.
    pub fn received(&self) -> &[Delivery]
        ensures { result.now ≡ drop self.now.gone self.now.received }
    {
        self.taken.as_slice()
    }

    /// Makes room to keep so many deliveries more.
    pub fn reserve(&mut self, needed: usize) -> Result<(), AllocError>
        ensures same { self.new ≡ with_room_kept self.old self.new.spare }
        ensures ok { OnOk result (needed ≤ self.new.spare) }
    {
        self.taken.reserve(needed)
    }

    /// Receives the rest of its deliveries, and is closed.
    pub fn close(&mut self, rest: Vec<Delivery>)
        requires { length rest.items ≤ self.old.spare }
        ensures { self.new ≡ closes self.old rest.items self.new.spare }
    {
        self.closed = true;
        self.taken.append_reserved(rest);
    }
}
