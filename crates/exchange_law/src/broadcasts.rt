//! The drive of one message when nothing else goes on.
ghost use Rattle.pgn_ids.specs.Address.{global_address};
ghost use Rattle.segment_law.specs.Quiet.{IsQuietExchange};

use pgn_ids::identifiers_are_read_back;
use seg_cut::{joined_packets_are_the_message, packet_is_seven_places};
use tp_wire::what_is_written_is_read;

/// A law: a message to all that nothing disturbs (SAE J1939-21, broadcast announce message).
///
/// From a segment at a record that is quiet for a lane to all, a drive of as many turns as the message has frames puts exactly
/// these frames. It reports that the message was broadcast, and then gives it at each port that takes it, in rising order of
/// the stations. Afterwards nothing is queued, nothing waits, and the lane is settled with nothing under way.
pub fn broadcasts_are_undisturbed()
    ensures { IsQuietExchange (record { 0 = global_address }) }
{
    identifiers_are_read_back();
    what_is_written_is_read();
    packet_is_seven_places();
    joined_packets_are_the_message();
}
