//! What holds between two stations from a moment on, whoever had their addresses before. It speaks of the definitions alone, and a call of
//! it does nothing.
ghost use Rattle.restart_law.specs.Start.{HoldsFromAMoment, HoldsFromAStart, IsAFirstStart, IsARestart};

use connection_law::the_headline_holds_at_any_clock;
use lane_law::{broadcasts_go_on, given_once_in_order, lanes_go_on, outcomes_are_true};
use pgn_ids::identifiers_are_read_back;
use record_law::outcomes::each_send_is_answered_its_number;
use seg_cut::packet_is_seven_places;
use tp_wire::what_is_written_is_read;

/// A law: the sentence (`Sentence` of `network_law`) for the messages of one station to another from a moment on at which nothing of them is
/// on the way. The one that receives may have started at that moment, as when a program starts again. An earlier station may have had its
/// address and been sent messages, and the record of the sender goes on. Each port is given messages of the sender, to it and to all, at
/// most once, in the order sent, byte for byte, whenever they were sent. A message whose outcome is told as Acknowledged since that moment
/// was given since, in one reply, to each port that took it as it began and was still open: what an earlier station was given doesn't count.
/// One that is told as Unreachable since was not given since.
///
/// The premises are those between programs, from that moment on, and of the moment itself (`IsNothingOnTheWay`). The sender has no frame of
/// a message to the receiver or to all in its queue, and no Request to it. The receiver has no incoming session of the sender's address, and
/// no answer to it in its queue. The receiver may not take a frame of the sender's once more, nor the sender an answer. Of the sender's
/// lanes nothing is asked: messages may wait in them or be under way, and they may be in doubt.
pub fn messages_hold_from_a_moment()
    ensures { HoldsFromAMoment }
{
    the_headline_holds_at_any_clock();
    each_send_is_answered_its_number();
    identifiers_are_read_back();
    what_is_written_is_read();
    packet_is_seven_places();
    broadcasts_go_on();
    lanes_go_on();
    given_once_in_order();
    outcomes_are_true();
}

/// That law for a station that starts to send. An earlier station may have had its address, as when a program starts again; the record of
/// the other goes on. Since the station has sent no message before (`IsStart`), this speaks of all its outcomes.
pub fn messages_hold_from_a_start()
    ensures { HoldsFromAStart }
{
    the_headline_holds_at_any_clock();
    messages_hold_from_a_moment();
}

/// The premise of the first law for a program that starts again at its address, and has done nothing yet: only the other must have no frame of
/// a message to it in its queue, and the frame that the other may take once more must be no answer.
pub fn a_restart_is_one()
    ensures { IsARestart }
{}

/// The premise of both laws can be met: two stations that had done nothing before are at such a moment. So each pair of records for which the
/// law between programs holds is one of these laws.
pub fn a_first_start_is_one()
    ensures { IsAFirstStart }
{}
