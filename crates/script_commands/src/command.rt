//! What a line of a script asks for.
ghost use Rattle.script_commands.specs.Words.{texts};
ghost use Rattle.script_commands.specs.Values.{Gives};
ghost use Rattle.script_commands.specs.Commands.{stations_of, open_of, close_of, send_of, pump_of, transmit_of, fire_of, tick_of, take_of, again_of, overrun_of, cancel_of, pause_of, resume_of, inject_of, drive_of, drain_of, counts_of, command_of, later_command_of};

use crate::addresses::Addresses;
use crate::values::{
    WRONG_NUMBER, address, addresses, bounded, data_word, id, is, number, payload, pgn, port, room,
};
use bus_frame::{CanId, Frame};
use line_faults::{Fault, LineError};
use pgn_ids::{Address, Pgn};
use segment_law::{Call, Refusal};
use std::alloc::Global;

/// What a line of a script asks for.
#[derive(Debug, Drop)]
pub enum Command {
    /// The segment is made, of stations with these addresses.
    Stations(Addresses),
    /// A call on the segment.
    Call(Call),
    /// A lane is driven for so many turns.
    Drive {
        from: Address,
        to: Address,
        turns: u64,
    },
    /// The segment is drained for so many turns.
    Drain {
        turns: u64,
    },
    /// What the segment counted.
    Counts,
    /// Each word is well written, and the value of one is refused: no call is made.
    Refused(Refusal),
}

#[tactic(auto, unfolding(crate::specs::Commands::stations_of))]
fn stations(alloc: Global, words: &[&[u8]]) -> Result<Command, LineError>
    ensures { Gives (λ c. c) result (stations_of (texts words.now)) }
{
    if words.is_empty() {
        return Err(WRONG_NUMBER);
    }
    Ok(Command::Stations(addresses(alloc, words)?))
}

#[tactic(auto, unfolding(crate::specs::Commands::open_of))]
fn open(words: &[&[u8]]) -> Result<Command, LineError>
    ensures { Gives (λ c. c) result (open_of (texts words.now)) }
{
    let [station, pgn_word, max_len] = words else {
        return Err(WRONG_NUMBER);
    };
    let station = address(*station)?;
    let raw = pgn(*pgn_word)?;
    let max_len = bounded(0xFFFF_FFFF, *max_len)? as u32;
    match Pgn::new(raw) {
        Ok(pgn) => Ok(Command::Call(Call::Open {
            station,
            pgn,
            max_len,
        })),
        Err(_) => Ok(Command::Refused(Refusal::BadPgn)),
    }
}

#[tactic(auto, unfolding(crate::specs::Commands::close_of))]
fn close(words: &[&[u8]]) -> Result<Command, LineError>
    ensures { Gives (λ c. c) result (close_of (texts words.now)) }
{
    let [word] = words else {
        return Err(WRONG_NUMBER);
    };
    let port = port(*word)?;
    Ok(Command::Call(Call::Close { port }))
}

#[tactic(auto, unfolding(crate::specs::Commands::send_of))]
fn send(alloc: Global, words: &[&[u8]]) -> Result<Command, LineError>
    ensures { Gives (λ c. c) result (send_of (texts words.now)) }
{
    let [from, to, pgn_word, rest @ ..] = words else {
        return Err(WRONG_NUMBER);
    };
    if rest.is_empty() || rest.len() > 2 {
        return Err(WRONG_NUMBER);
    }
    let from = address(*from)?;
    let to = address(*to)?;
    let raw = pgn(*pgn_word)?;
    let bytes = payload(alloc, rest)?;
    match Pgn::new(raw) {
        Ok(pgn) => Ok(Command::Call(Call::Send {
            from,
            to,
            pgn,
            bytes,
        })),
        Err(_) => Ok(Command::Refused(Refusal::BadPgn)),
    }
}

#[tactic(auto, unfolding(crate::specs::Commands::pump_of))]
fn pump(words: &[&[u8]]) -> Result<Command, LineError>
    ensures { Gives (λ c. c) result (pump_of (texts words.now)) }
{
    let [station, to] = words else {
        return Err(WRONG_NUMBER);
    };
    let station = address(*station)?;
    let to = address(*to)?;
    Ok(Command::Call(Call::Pump { station, to }))
}

#[tactic(auto, unfolding(crate::specs::Commands::transmit_of))]
fn transmit(words: &[&[u8]]) -> Result<Command, LineError>
    ensures { Gives (λ c. c) result (transmit_of (texts words.now)) }
{
    let [word] = words else {
        return Err(WRONG_NUMBER);
    };
    let station = address(*word)?;
    Ok(Command::Call(Call::Transmit { station }))
}

#[tactic(auto, unfolding(crate::specs::Commands::fire_of))]
fn fire(words: &[&[u8]]) -> Result<Command, LineError>
    ensures { Gives (λ c. c) result (fire_of (texts words.now)) }
{
    let [word] = words else {
        return Err(WRONG_NUMBER);
    };
    let station = address(*word)?;
    Ok(Command::Call(Call::Fire { station }))
}

#[tactic(auto, unfolding(crate::specs::Commands::tick_of))]
fn tick(words: &[&[u8]]) -> Result<Command, LineError>
    ensures { Gives (λ c. c) result (tick_of (texts words.now)) }
{
    let [word] = words else {
        return Err(WRONG_NUMBER);
    };
    let n = number(*word)?;
    Ok(Command::Call(Call::Tick { n }))
}

#[tactic(auto, unfolding(crate::specs::Commands::take_of))]
fn take(words: &[&[u8]]) -> Result<Command, LineError>
    ensures { Gives (λ c. c) result (take_of (texts words.now)) }
{
    let [word, rest @ ..] = words else {
        return Err(WRONG_NUMBER);
    };
    if rest.len() > 1 {
        return Err(WRONG_NUMBER);
    }
    let station = address(*word)?;
    let room = room(rest)?;
    Ok(Command::Call(Call::Take { station, room }))
}

#[tactic(auto, unfolding(crate::specs::Commands::again_of))]
fn again(words: &[&[u8]]) -> Result<Command, LineError>
    ensures { Gives (λ c. c) result (again_of (texts words.now)) }
{
    let [word, rest @ ..] = words else {
        return Err(WRONG_NUMBER);
    };
    if rest.len() > 1 {
        return Err(WRONG_NUMBER);
    }
    let station = address(*word)?;
    let room = room(rest)?;
    Ok(Command::Call(Call::TakeAgain { station, room }))
}

#[tactic(auto, unfolding(crate::specs::Commands::overrun_of))]
fn overrun(words: &[&[u8]]) -> Result<Command, LineError>
    ensures { Gives (λ c. c) result (overrun_of (texts words.now)) }
{
    let [station, count] = words else {
        return Err(WRONG_NUMBER);
    };
    let station = address(*station)?;
    let n = number(*count)?;
    Ok(Command::Call(Call::Overrun { station, n }))
}

#[tactic(auto, unfolding(crate::specs::Commands::cancel_of))]
fn cancel(words: &[&[u8]]) -> Result<Command, LineError>
    ensures { Gives (λ c. c) result (cancel_of (texts words.now)) }
{
    let [from, to, message] = words else {
        return Err(WRONG_NUMBER);
    };
    let from = address(*from)?;
    let to = address(*to)?;
    let number = number(*message)?;
    Ok(Command::Call(Call::Cancel { from, to, number }))
}

#[tactic(auto, unfolding(crate::specs::Commands::pause_of))]
fn pause(words: &[&[u8]]) -> Result<Command, LineError>
    ensures { Gives (λ c. c) result (pause_of (texts words.now)) }
{
    let [word] = words else {
        return Err(WRONG_NUMBER);
    };
    let port = port(*word)?;
    Ok(Command::Call(Call::Pause { port }))
}

#[tactic(auto, unfolding(crate::specs::Commands::resume_of))]
fn resume(words: &[&[u8]]) -> Result<Command, LineError>
    ensures { Gives (λ c. c) result (resume_of (texts words.now)) }
{
    let [word] = words else {
        return Err(WRONG_NUMBER);
    };
    let port = port(*word)?;
    Ok(Command::Call(Call::Resume { port }))
}

#[tactic(auto, unfolding(crate::specs::Commands::inject_of))]
fn inject(alloc: Global, words: &[&[u8]]) -> Result<Command, LineError>
    ensures { Gives (λ c. c) result (inject_of (texts words.now)) }
{
    let [id_word, data] = words else {
        return Err(WRONG_NUMBER);
    };
    let raw = id(*id_word)?;
    let bytes = data_word(alloc, *data)?;
    let Ok(id) = CanId::new(raw) else {
        return Ok(Command::Refused(Refusal::IdTooLarge));
    };
    match Frame::new(id, bytes.as_slice()) {
        Ok(frame) => Ok(Command::Call(Call::Inject { frame })),
        Err(_) => Ok(Command::Refused(Refusal::DataTooLong)),
    }
}

#[tactic(auto, unfolding(crate::specs::Commands::drive_of))]
fn drive(words: &[&[u8]]) -> Result<Command, LineError>
    ensures { Gives (λ c. c) result (drive_of (texts words.now)) }
{
    let [from, to, turns] = words else {
        return Err(WRONG_NUMBER);
    };
    let from = address(*from)?;
    let to = address(*to)?;
    let turns = number(*turns)?;
    Ok(Command::Drive { from, to, turns })
}

#[tactic(auto, unfolding(crate::specs::Commands::drain_of))]
fn drain(words: &[&[u8]]) -> Result<Command, LineError>
    ensures { Gives (λ c. c) result (drain_of (texts words.now)) }
{
    let [turns] = words else {
        return Err(WRONG_NUMBER);
    };
    let turns = number(*turns)?;
    Ok(Command::Drain { turns })
}

#[tactic(auto, unfolding(crate::specs::Commands::counts_of))]
fn counts(words: &[&[u8]]) -> Result<Command, LineError>
    ensures { Gives (λ c. c) result (counts_of (texts words.now)) }
{
    if words.is_empty() {
        Ok(Command::Counts)
    } else {
        Err(WRONG_NUMBER)
    }
}

/// What the words of a line ask for: `name` is the first of them, `words` those behind it.
///
/// The first fault is that of the name, then of how many words there are, then of the words in their order. If each word is
/// well written and its value fits no PGN, identifier or frame, that is a command too, `Refused`. Besides faults, the only
/// error is that memory was refused.
#[tactic(auto, unfolding(crate::specs::Commands::command_of))]
pub fn read_command(alloc: Global, name: &[u8], words: &[&[u8]]) -> Result<Command, LineError>
    ensures { Gives (λ c. c) result (command_of name.now (texts words.now)) }
{
    if is(name, "stations") {
        return stations(alloc, words);
    }
    if is(name, "open") {
        return open(words);
    }
    if is(name, "close") {
        return close(words);
    }
    if is(name, "send") {
        return send(alloc, words);
    }
    if is(name, "pump") {
        return pump(words);
    }
    if is(name, "transmit") {
        return transmit(words);
    }
    if is(name, "fire") {
        return fire(words);
    }
    if is(name, "tick") {
        return tick(words);
    }
    read_later_command(alloc, name, words)
}

// `read_command`, for the names further down in the table.
#[tactic(auto, unfolding(crate::specs::Commands::later_command_of))]
fn read_later_command(alloc: Global, name: &[u8], words: &[&[u8]]) -> Result<Command, LineError>
    ensures { Gives (λ c. c) result (later_command_of name.now (texts words.now)) }
{
    if is(name, "take") {
        return take(words);
    }
    if is(name, "again") {
        return again(words);
    }
    if is(name, "overrun") {
        return overrun(words);
    }
    if is(name, "cancel") {
        return cancel(words);
    }
    if is(name, "pause") {
        return pause(words);
    }
    if is(name, "resume") {
        return resume(words);
    }
    if is(name, "inject") {
        return inject(alloc, words);
    }
    if is(name, "drive") {
        return drive(words);
    }
    if is(name, "drain") {
        return drain(words);
    }
    if is(name, "counts") {
        return counts(words);
    }
    Err(LineError::Fault(Fault::UnknownCommand))
}
