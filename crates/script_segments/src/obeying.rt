//! What each line of a script sets up.
ghost use Rattle.std.specs.Prelude.{◌≡◌, true};
ghost use Rattle.std.specs.Str.{bytes_eq};
ghost use Rattle.script_commands.specs.Words.{texts};
ghost use Rattle.script_segments.specs.Plan.{plan_of, Done, FewCalls, is_known, made_by, opened_by, sent_by, called_by, value_refused, performed_by, counted_by, obeyed_words, obeyed_line};

use crate::setup::{Message, Setup};
use crate::uncut::Uncut;
use line_faults::{Fault, LineError};
use live_segment::NotMade;
use pgn_ids::{Address, Pgn};
use script_commands::{Command, is_ascii, read_command, split_words};
use segment_law::{Call, Refusal};
use segment_rings::submit_refusal;
use std::alloc::Global;

/// The most stations of a script, and the most lines that ask for a message.
const MOST_STATIONS: usize = 8;

const MOST_SENDS: u64 = 64;

// The segment is made.
fn make(alloc: Global, setup: &mut Setup, addresses: &[Address]) -> Result<(), LineError>
    ensures { Done result (plan_of setup.old) (plan_of setup.new) (made_by (plan_of setup.old) addresses.now) }
{
    if addresses.len() > MOST_STATIONS {
        return Err(LineError::Fault(Fault::BadWord));
    }
    if setup.live.is_some() {
        return Err(LineError::Fault(Fault::StationsTwice));
    }
    match Uncut::new(alloc, addresses) {
        Ok(live) => {
            setup.live = Some(live);
            Ok(())
        }
        Err(NotMade::Refused(cause)) => setup.refuse(alloc, cause),
        Err(NotMade::OutOfMemory) => Err(LineError::OutOfMemory),
    }
}

// A port is opened.
fn open(
    alloc: Global,
    setup: &mut Setup,
    station: Address,
    pgn: Pgn,
    max_len: u32,
) -> Result<(), LineError>
    requires { FewCalls (plan_of setup.old) }
    ensures { Done result (plan_of setup.old) (plan_of setup.new) (opened_by (plan_of setup.old) station pgn max_len) }
{
    if setup.live.is_none() {
        return Err(LineError::Fault(Fault::NoStations));
    }
    setup.inboxes.reserve(1)?;
    let Some(live) = &mut setup.live else {
        return Err(LineError::Fault(Fault::NoStations));
    };
    match live.open_port(station, pgn, max_len) {
        Ok(inbox) => {
            setup.inboxes.push_reserved(inbox);
            Ok(())
        }
        Err(NotMade::Refused(cause)) => setup.refuse(alloc, cause),
        Err(NotMade::OutOfMemory) => Err(LineError::OutOfMemory),
    }
}

// A message is to be submitted.
fn send(alloc: Global, setup: &mut Setup, message: Message) -> Result<(), LineError>
    ensures { Done result (plan_of setup.old) (plan_of setup.new) (sent_by (plan_of setup.old) message) }
{
    let Some(live) = &setup.live else {
        return Err(LineError::Fault(Fault::NoStations));
    };
    if !live.has_station(message.from) {
        return setup.refuse(alloc, Refusal::NoSuchStation);
    }
    if let Some(cause) = submit_refusal(message.from, message.to, message.bytes.len()) {
        return setup.refuse(alloc, cause);
    }
    setup.messages.push(message)?;
    Ok(())
}

// A call that a line asks for.
fn call(alloc: Global, setup: &mut Setup, asked: Call) -> Result<(), LineError>
    requires { FewCalls (plan_of setup.old) }
    ensures { Done result (plan_of setup.old) (plan_of setup.new) (called_by (plan_of setup.old) asked) }
{
    match asked {
        Call::Open {
            station,
            pgn,
            max_len,
        } => open(alloc, setup, station, pgn, max_len),
        Call::Send {
            from,
            to,
            pgn,
            bytes,
        } => {
            let message = Message {
                from,
                to,
                pgn,
                bytes,
            };
            send(alloc, setup, message)
        }
        _ => Err(LineError::Fault(Fault::UnknownCommand)),
    }
}

// A value that is refused is so once there are stations.
fn refuse_value(alloc: Global, setup: &mut Setup, cause: Refusal) -> Result<(), LineError>
    ensures { Done result (plan_of setup.old) (plan_of setup.new) (value_refused (plan_of setup.old) cause) }
{
    if setup.live.is_none() {
        return Err(LineError::Fault(Fault::NoStations));
    }
    setup.refuse(alloc, cause)
}

#[tactic(auto, unfolding(crate::specs::Plan::performed_by))]
fn perform(alloc: Global, setup: &mut Setup, command: Command) -> Result<(), LineError>
    requires { FewCalls (plan_of setup.old) }
    ensures { Done result (plan_of setup.old) (plan_of setup.new) (performed_by (plan_of setup.old) command) }
{
    match command {
        Command::Stations(addresses) => make(alloc, setup, addresses.as_slice()),
        Command::Call(asked) => call(alloc, setup, asked),
        Command::Refused(cause) => refuse_value(alloc, setup, cause),
        Command::Drive { .. } => Err(LineError::Fault(Fault::UnknownCommand)),
        Command::Drain { .. } => Err(LineError::Fault(Fault::UnknownCommand)),
        Command::Counts => Err(LineError::Fault(Fault::UnknownCommand)),
    }
}

// A line that asks for a message is one of 64.
fn perform_send(alloc: Global, setup: &mut Setup, command: Command) -> Result<(), LineError>
    requires { FewCalls (plan_of setup.old) }
    ensures { Done result (plan_of setup.old) (plan_of setup.new) (counted_by (plan_of setup.old) true command) }
{
    if setup.sends >= MOST_SENDS {
        return Err(LineError::Fault(Fault::BadWord));
    }
    setup.sends += 1;
    perform(alloc, setup, command)
}

// Whether the script may have a line of this name.
fn is_known(name: &[u8]) -> bool
    ensures { result ≡ is_known name.now }
{
    is(name, "stations") || is(name, "open") || is(name, "send")
}

pub(crate) fn is(word: &[u8], name: &str) -> bool
    ensures { result ≡ bytes_eq word.now name.now }
{
    word == name.as_bytes()
}

/// Obeys the words of a line, the first of which names the command. It returns the first fault: that of the name, of how many words
/// there are, of the words in their order, and then that the segment isn't made yet or is made twice. A refusal isn't a fault: it is
/// put into the text of refused lines. Want of memory is the only other error. A line that isn't obeyed adds nothing to that text.
#[tactic(auto, unfolding(crate::specs::Plan::obeyed_words))]
pub(crate) fn obey_words(alloc: Global, setup: &mut Setup, words: &[&[u8]]) -> Result<(), LineError>
    requires { FewCalls (plan_of setup.old) }
    ensures { Done result (plan_of setup.old) (plan_of setup.new) (obeyed_words (plan_of setup.old) (texts words.now)) }
{
    let Some((name, rest)) = words.split_first() else {
        return Ok(());
    };
    if !is_known(*name) {
        return Err(LineError::Fault(Fault::UnknownCommand));
    }
    let command = read_command(alloc, *name, rest)?;
    if is(*name, "send") {
        return perform_send(alloc, setup, command);
    }
    perform(alloc, setup, command)
}

/// Does what a line asks for, as `obey_words` does; before all else a byte above 127 is a fault.
#[tactic(auto, unfolding(crate::specs::Plan::obeyed_line))]
pub(crate) fn obey_line(alloc: Global, setup: &mut Setup, line: &[u8]) -> Result<(), LineError>
    requires { FewCalls (plan_of setup.old) }
    ensures { Done result (plan_of setup.old) (plan_of setup.new) (obeyed_line (plan_of setup.old) line.now) }
{
    if !is_ascii(line) {
        return Err(LineError::Fault(Fault::NotAscii));
    }
    let words = split_words(alloc, line)?;
    obey_words(alloc, setup, words.as_slice())
}
