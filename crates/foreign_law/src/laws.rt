//! What a message that a station is given was made of. The law speaks of the definitions alone, and a call of it does nothing.
ghost use Rattle.std.specs.Prelude.{List};
ghost use Rattle.pgn_ids.specs.declared.address.Address.{Address};
ghost use Rattle.segment_law.specs.Drift.{DriftsTo};
ghost use Rattle.segment_law.specs.Record.{Record};
ghost use Rattle.segment_law.specs.Segment.{Segment};
ghost use Rattle.foreign_law.specs.Taken.{seen_in, given_at};
ghost use Rattle.foreign_law.specs.Assembled.{AreAssembled};

/// A law: each message that a station is given was put together from frames that this station took, whoever sent them (SAE J1939-21,
/// broadcast announce message and connection mode data transfer; ISO 11783-3).
///
/// It had taken an RTS or a BAM of the message's source, with its size and its PGN: an RTS to itself, or a BAM to all. After it, it took
/// the packets 1 to P in this order, whose bytes are the message's, the last one by the call that gave the message. From the
/// opening to the end it took no other opening of that source and kind, and missed no frames (`Overrun`). In ETP the number of a packet is
/// the offset of the transfer's last DPO before it, plus the packet's sequence number.
///
/// No packet serves two messages: what was taken from the opening of one to its end lies apart from that of any other message of the
/// same source and kind.
///
/// It holds at every record, whatever the calls were and whatever the clock was at each.
pub fn messages_are_made_of_taken_frames()
    ensures { (addresses : List Address) (steps : Record) (seg : Segment) → (run : DriftsTo addresses steps seg)
        → (a : Address) → AreAssembled (seen_in run a) (given_at steps a) }
{}
