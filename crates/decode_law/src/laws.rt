//! What a listener hears of a message that nothing disturbs.
ghost use Rattle.pgn_ids.specs.declared.address.Address.{Address};
ghost use Rattle.lane_core.specs.declared.message.Pending.{Pending};
ghost use Rattle.decode_law.specs.Hearing.{IsSendable, IsHeard, DrivesAreHeard};

use exchange_law::messages_are_undisturbed;
use seg_cut::{joined_packets_are_the_message, packet_is_seven_places};
use tp_wire::what_is_written_is_read;

/// A law: from the frames that one undisturbed message puts on a bus, a listener hears exactly this message (SAE J1939-21,
/// broadcast announce message and connection mode data transfer; ISO 11783-3).
///
/// The premises: the listener has no message of the same interface, sender, destination and transport under way. It takes these
/// frames one after another, at times that don't go back, and less time passes between two of them than it waits for a frame. No
/// other message under way becomes silent meanwhile.
///
/// Then it reports that the message was given, with its PGN and its bytes, and nothing else, and has afterwards under way what it
/// had before. Nothing is said of other frames between them.
pub fn undisturbed_messages_are_heard()
    ensures { (m : Pending) (s d : Address) → IsSendable m s d → IsHeard m s d }
{
    what_is_written_is_read();
    packet_is_seven_places();
    joined_packets_are_the_message();
}

/// A law: the frames that a drive puts are heard so, from a segment at a record that is quiet for the message.
pub fn undisturbed_drives_are_heard()
    ensures { DrivesAreHeard }
{
    messages_are_undisturbed();
    undisturbed_messages_are_heard();
}
