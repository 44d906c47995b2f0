//! What a listener reports of a message if the log lacks some of its frames.
ghost use Rattle.pgn_ids.specs.declared.address.Address.{Address};
ghost use Rattle.lane_core.specs.declared.message.Pending.{Pending};
ghost use Rattle.decode_law.specs.Hearing.{IsSendable};
ghost use Rattle.log_reports.specs.declared.told.Cause.TheVariants.{Missing, Acknowledged};
ghost use Rattle.decode_law.specs.Examples.{Met};
ghost use Rattle.decode_law.specs.Lacking.{IsToldRightly};

use seg_cut::{joined_packets_are_the_message, packet_is_seven_places};
use tp_wire::what_is_written_is_read;

/// A law: if the log lacks frames of a message, a listener reports no other bytes as given (SAE J1939-21, broadcast announce message and
/// connection mode data transfer; ISO 11783-3).
///
/// Of the frames that one message puts on a bus if nothing disturbs it, any may be left out of the log: the log's frames of the message's key are
/// some of them, in their order. The log may have any other frames, on any interfaces, at any times, and before it no message of that key is under
/// way.
///
/// Then, up to the end of the log, the listener reports nothing of that key, or once that the message was given, with its PGN and its bytes, or
/// once that it is lost.
pub fn lacking_logs_tell_no_other_message()
    ensures { (m : Pending) (s d : Address) → IsSendable m s d → IsToldRightly m s d }
{
    what_is_written_is_read();
    packet_is_seven_places();
    joined_packets_are_the_message();
}

/// The premises of that law can be met by a log that lacks a packet, with what it then says not being empty: a broadcast of nine bytes without its
/// first packet, lost at the second one, and a connection of twenty bytes without its second packet, lost when its receiver acknowledges it.
pub fn premises_can_be_met()
    ensures broadcast { Met 9 0 Missing }
    ensures connection { Met 20 7 Acknowledged }
{}
