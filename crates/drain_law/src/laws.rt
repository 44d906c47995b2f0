//! What a drain makes of messages. Each law speaks of the definitions alone, and a call of it does nothing.
ghost use Rattle.drain_law.specs.Ended.{EndByDestination, NewIsReady};
ghost use Rattle.drain_law.specs.Unheard.{NoneAnswers, RestIsUnheard};

use lane_law::broadcasts_go_on;
use pgn_ids::identifiers_are_read_back;
use seg_cut::{joined_packets_are_the_message, packet_is_seven_places};
use tp_wire::what_is_written_is_read;
use work_law::{overruns_fall, work_falls};

/// A law: a drain ends each message as its destination alone says (SAE J1939-21, connection mode data transfer; ISO 11783-3).
///
/// The segment is ready: its queues are empty, every frame was taken, no session is open, nothing is under way, and the messages that
/// wait are to stations whose ports for them aren't paused. Then a drain with enough turns carries them one after another, by rising
/// sender, then by rising destination, then as they were sent. A message that an open port takes is put in exactly its frames, given
/// at exactly the ports that take it, and acknowledged. One that none takes is refused: two frames are put, and its outcome is an
/// abort for want of resources (2). Such a message leaves its lane in doubt, so the law wants it to be the last there. The drain has
/// no other frame and no other event, ends at rest, and leaves a ready segment on which no message waits. A new segment is such a one.
pub fn each_message_ends_by_its_destination()
    ensures ends { EndByDestination }
    ensures first { NewIsReady }
{
    identifiers_are_read_back();
    what_is_written_is_read();
    packet_is_seven_places();
    joined_packets_are_the_message();
    work_falls();
    overruns_fall();
}

/// A law: a node of which nothing is heard answers no message. No station has its address, and no frame of it waits for one. Then a drain
/// ends a message to it only as timed out, unreachable, or overrun, if its sender's station missed frames; and still nothing is heard
/// of the node. At rest no frame waits, so nothing is heard of any foreign node.
pub fn unheard_nodes_never_answer()
    ensures answers { NoneAnswers }
    ensures rest { RestIsUnheard }
{
    identifiers_are_read_back();
    what_is_written_is_read();
    packet_is_seven_places();
    broadcasts_go_on();
}
