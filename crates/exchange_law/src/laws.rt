//! The drive of one message when nothing else goes on.
ghost use Rattle.std.specs.Prelude.{◌≢◌};
ghost use Rattle.pgn_ids.specs.Address.{global_address};
ghost use Rattle.pgn_ids.specs.declared.address.Address.{Address};
ghost use Rattle.segment_law.specs.Quiet.{IsQuietExchange};

use crate::broadcasts::broadcasts_are_undisturbed;
use pgn_ids::identifiers_are_read_back;
use seg_cut::{joined_packets_are_the_message, packet_is_seven_places};
use tp_wire::what_is_written_is_read;

/// A law: a message to one station that nothing disturbs, by TP up to 1,785 bytes and by ETP above them (SAE J1939-21,
/// connection mode data transfer; ISO 11783-3).
///
/// From a segment at a record that is quiet for a lane to a station, a drive of as many turns as the exchange has frames puts
/// exactly these frames: the RTS, for each window its CTS and its packets, in ETP with a DPO ahead of them, and the end
/// acknowledgement. It gives the message at each port that takes it, by rising number, and then reports that it was
/// acknowledged. Afterwards nothing is queued, nothing waits, and the lane is settled with nothing under way.
pub fn connections_are_undisturbed()
    ensures { (d : Address) → d.0 ≢ global_address → IsQuietExchange d }
{
    identifiers_are_read_back();
    what_is_written_is_read();
    packet_is_seven_places();
    joined_packets_are_the_message();
}

/// A law: a message that nothing disturbs, to one station or to all.
pub fn messages_are_undisturbed()
    ensures { (d : Address) → IsQuietExchange d }
{
    broadcasts_are_undisturbed();
    connections_are_undisturbed();
}
