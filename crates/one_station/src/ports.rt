//! Ports, and messages that are sent.
ghost use Rattle.std.specs.Prelude.{◌≡◌, ◌<◌, ◌≤◌, ◌↔◌, IfOk, OnErr, IsErrOf};
ghost use Rattle.segment_law.specs.Calls.{applied};
ghost use Rattle.segment_law.specs.declared.call.Call.TheVariants.{Open, Close, Pause, Resume, Send, Cancel};
ghost use Rattle.segment_law.specs.declared.reply.Reply.TheVariants.{Opened, Sent};
ghost use Rattle.one_station.specs.Answers.{IsAnswered};
ghost use Rattle.one_station.specs.declared.error.NodeError.TheVariants.{Starting};

use crate::error::NodeError;
use crate::node::Node;
use pgn_ids::{Address, Pgn};
use segment_core::{Bytes, Call, PortId, Reply};

impl Node {
    /// Opens a port for messages of a PGN, of at most `max_len` bytes, and returns its name. From now on messages of that PGN to this
    /// node and to all are given at it (SAE J1939-21; ISO 11783-3 for more than 1,785 bytes).
    ///
    /// Refused as `PortsFull` if 16 ports are open or no number is left, and else as `OutOfMemory` if memory is refused.
    pub fn open_port(&mut self, pgn: Pgn, max_len: u32) -> Result<PortId, NodeError>
        ensures answered { IsAnswered self.old (Open self.old.address pgn max_len) self.new result }
        ensures port { IfOk result (λ port. (applied self.old.segment (Open self.old.address pgn max_len)).1 ≡ Opened port) }
    {
        let station = self.address;
        let open = Call::Open {
            station,
            pgn,
            max_len,
        };
        match self.segment.apply(open) {
            Ok(Reply::Opened(port)) => Ok(port),
            Ok(Reply::Refused(cause)) => Err(NodeError::Refused(cause)),
            Ok(Reply::Sent(_)) => unreachable!(),
            Ok(Reply::Done(_)) => unreachable!(),
            Err(_) => Err(NodeError::OutOfMemory),
        }
    }

    /// Closes a port: nothing more is given at it. A message that is being received for no other port is broken off, a connection by
    /// an abort as far as the transmit queue has places.
    ///
    /// Refused as `NoSuchStation` if the port is another node's, and as `NoSuchPort` if it isn't open.
    pub fn close_port(&mut self, port: PortId) -> Result<(), NodeError>
        ensures { IsAnswered self.old (Close port) self.new result }
    {
        self.make(Call::Close { port })
    }

    /// Pauses a port: a connection that carries a message for it is held, and continues once the port is resumed. Packets granted
    /// before still arrive.
    ///
    /// Refused as `NoSuchStation` if the port is another node's, as `NoSuchPort` if it isn't open, and as `PortPaused` if it is
    /// paused.
    pub fn pause_port(&mut self, port: PortId) -> Result<(), NodeError>
        ensures { IsAnswered self.old (Pause port) self.new result }
    {
        self.make(Call::Pause { port })
    }

    /// Ends the pause of a port.
    ///
    /// Refused as `NoSuchStation` if the port is another node's, as `NoSuchPort` if it isn't open, and as `PortNotPaused` if it isn't
    /// paused.
    pub fn resume_port(&mut self, port: PortId) -> Result<(), NodeError>
        ensures { IsAnswered self.old (Resume port) self.new result }
    {
        self.make(Call::Resume { port })
    }

    /// Sends a message of 9 to 1,785 bytes to all (address 255), or of 9 to 117,440,505 bytes to one node, and returns its number,
    /// from 1 for each destination. Messages to one destination are sent in this order, and each has one outcome. The bytes are
    /// copied, and the place of its outcome is made. `front` and `sent` put its frames on the bus.
    ///
    /// Refused as `Starting` before the tick of `sends_from`. Else as `NoSuchStation` for address 254, `SameStation` for the own
    /// one, `TooShort`, `TooLong`, and `LaneFull` if 32 messages to that destination have no outcome yet; and else as `OutOfMemory`
    /// if memory is refused.
    pub fn send(&mut self, to: Address, pgn: Pgn, bytes: &[u8]) -> Result<u64, NodeError>
        ensures starting { IsErrOf result (Starting self.old.quiet_until) ↔ (self.old.segment.now < self.old.quiet_until) }
        ensures answered { self.old.quiet_until ≤ self.old.segment.now → IsAnswered self.old (Send self.old.address to pgn bytes.now) self.new result }
        ensures number { IfOk result (λ number. (applied self.old.segment (Send self.old.address to pgn bytes.now)).1 ≡ Sent number) }
        ensures err { OnErr result (self.new ≡ self.old) }
    {
        if self.segment.now() < self.quiet_until {
            return Err(NodeError::Starting(self.quiet_until));
        }
        self.send_copy(to, pgn, bytes)
    }

    // It sends a copy.
    fn send_copy(&mut self, to: Address, pgn: Pgn, bytes: &[u8]) -> Result<u64, NodeError>
        ensures answered { IsAnswered self.old (Send self.old.address to pgn bytes.now) self.new result }
        ensures number { IfOk result (λ number. (applied self.old.segment (Send self.old.address to pgn bytes.now)).1 ≡ Sent number) }
    {
        if let Some(cause) = self.segment.send_refusal(self.address, to, bytes.len()) {
            return Err(NodeError::Refused(cause));
        }
        let Ok(items) = Vec::from_slice(self.alloc, bytes) else {
            return Err(NodeError::OutOfMemory);
        };
        self.send_owned(to, pgn, Bytes::new(items))
    }

    /// `send`, for bytes that the caller gives away, which aren't copied.
    ///
    /// Refused for the causes of `send`, and else as `OutOfMemory` if memory is refused. The bytes are gone then.
    pub fn send_bytes(&mut self, to: Address, pgn: Pgn, bytes: Bytes) -> Result<u64, NodeError>
        ensures starting { IsErrOf result (Starting self.old.quiet_until) ↔ (self.old.segment.now < self.old.quiet_until) }
        ensures answered { self.old.quiet_until ≤ self.old.segment.now → IsAnswered self.old (Send self.old.address to pgn bytes) self.new result }
        ensures number { IfOk result (λ number. (applied self.old.segment (Send self.old.address to pgn bytes)).1 ≡ Sent number) }
        ensures err { OnErr result (self.new ≡ self.old) }
    {
        if self.segment.now() < self.quiet_until {
            return Err(NodeError::Starting(self.quiet_until));
        }
        self.send_owned(to, pgn, bytes)
    }

    // It sends these bytes.
    fn send_owned(&mut self, to: Address, pgn: Pgn, bytes: Bytes) -> Result<u64, NodeError>
        ensures answered { IsAnswered self.old (Send self.old.address to pgn bytes) self.new result }
        ensures number { IfOk result (λ number. (applied self.old.segment (Send self.old.address to pgn bytes)).1 ≡ Sent number) }
    {
        let from = self.address;
        if let Some(cause) = self.segment.send_refusal(from, to, bytes.len()) {
            return Err(NodeError::Refused(cause));
        }
        if self.told.reserve().is_err() {
            return Err(NodeError::OutOfMemory);
        }
        let send = Call::Send {
            from,
            to,
            pgn,
            bytes,
        };
        match self.segment.apply(send) {
            Ok(Reply::Sent(number)) => {
                self.told.owe();
                Ok(number)
            }
            Ok(Reply::Refused(cause)) => Err(NodeError::Refused(cause)),
            Ok(Reply::Opened(_)) => unreachable!(),
            Ok(Reply::Done(_)) => unreachable!(),
            Err(_) => Err(NodeError::OutOfMemory),
        }
    }

    /// Cancels a message that has no outcome yet: its outcome is `Cancelled`, and if its frames are under way to one node an abort is
    /// queued.
    ///
    /// Refused as `NoSuchStation` for address 254, `NothingToSend` if there is no such message, and `TxFull` if the abort has no
    /// place in the transmit queue; and else as `OutOfMemory` if memory is refused.
    pub fn cancel(&mut self, to: Address, number: u64) -> Result<(), NodeError>
        ensures { IsAnswered self.old (Cancel self.old.address to number) self.new result }
    {
        let from = self.address;
        self.make(Call::Cancel { from, to, number })
    }
}
