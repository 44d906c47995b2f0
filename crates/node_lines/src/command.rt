//! The commands to a node: those of a script for one station, without its address.
ghost use Rattle.script_commands.specs.Words.{texts};
ghost use Rattle.script_commands.specs.Values.{Gives};
ghost use Rattle.node_lines.specs.Commands.{send_of, open_of, close_of, pause_of, resume_of, cancel_of, missed_of, counts_of, state_of, command_of};

use line_faults::{Fault, LineError};
use message_events::Bytes;
use pgn_ids::{Address, Pgn};
use script_commands::values::{WRONG_NUMBER, address, bounded, is, number, payload, pgn};
use segment_law::Refusal;
use std::alloc::Global;

/// A command to the station.
#[derive(Debug, Drop)]
pub enum NodeCommand {
    /// A message is handed to the lane to a node, or to all.
    Send { to: Address, pgn: Pgn, bytes: Bytes },
    /// A port is opened for messages of a PGN, of up to so many bytes.
    Open { pgn: Pgn, max_len: u32 },
    /// The port of this number is closed.
    Close { number: u64 },
    /// The port of this number is paused.
    Pause { number: u64 },
    /// Ends the pause of the port of this number.
    Resume { number: u64 },
    /// The message of this number is taken back from the lane to a node.
    Cancel { to: Address, number: u64 },
    /// Frames of the bus were lost.
    Missed,
    /// What was counted.
    Counts,
    /// The state of the station.
    State,
    /// Each word is well written, and the value of one is refused: no call is made.
    Refused(Refusal),
}

#[tactic(auto, unfolding(crate::specs::Commands::send_of))]
fn send(alloc: Global, words: &[&[u8]]) -> Result<NodeCommand, LineError>
    ensures { Gives (λ c. c) result (send_of (texts words.now)) }
{
    let [to, pgn_word, rest @ ..] = words else {
        return Err(WRONG_NUMBER);
    };
    if rest.is_empty() || rest.len() > 2 {
        return Err(WRONG_NUMBER);
    }
    let to = address(*to)?;
    let raw = pgn(*pgn_word)?;
    let bytes = payload(alloc, rest)?;
    match Pgn::new(raw) {
        Ok(pgn) => Ok(NodeCommand::Send { to, pgn, bytes }),
        Err(_) => Ok(NodeCommand::Refused(Refusal::BadPgn)),
    }
}

#[tactic(auto, unfolding(crate::specs::Commands::open_of))]
fn open(words: &[&[u8]]) -> Result<NodeCommand, LineError>
    ensures { Gives (λ c. c) result (open_of (texts words.now)) }
{
    let [pgn_word, max_len] = words else {
        return Err(WRONG_NUMBER);
    };
    let raw = pgn(*pgn_word)?;
    let max_len = bounded(0xFFFF_FFFF, *max_len)? as u32;
    match Pgn::new(raw) {
        Ok(pgn) => Ok(NodeCommand::Open { pgn, max_len }),
        Err(_) => Ok(NodeCommand::Refused(Refusal::BadPgn)),
    }
}

#[tactic(auto, unfolding(crate::specs::Commands::close_of))]
fn close(words: &[&[u8]]) -> Result<NodeCommand, LineError>
    ensures { Gives (λ c. c) result (close_of (texts words.now)) }
{
    let [word] = words else {
        return Err(WRONG_NUMBER);
    };
    let number = number(*word)?;
    Ok(NodeCommand::Close { number })
}

#[tactic(auto, unfolding(crate::specs::Commands::pause_of))]
fn pause(words: &[&[u8]]) -> Result<NodeCommand, LineError>
    ensures { Gives (λ c. c) result (pause_of (texts words.now)) }
{
    let [word] = words else {
        return Err(WRONG_NUMBER);
    };
    let number = number(*word)?;
    Ok(NodeCommand::Pause { number })
}

#[tactic(auto, unfolding(crate::specs::Commands::resume_of))]
fn resume(words: &[&[u8]]) -> Result<NodeCommand, LineError>
    ensures { Gives (λ c. c) result (resume_of (texts words.now)) }
{
    let [word] = words else {
        return Err(WRONG_NUMBER);
    };
    let number = number(*word)?;
    Ok(NodeCommand::Resume { number })
}

#[tactic(auto, unfolding(crate::specs::Commands::cancel_of))]
fn cancel(words: &[&[u8]]) -> Result<NodeCommand, LineError>
    ensures { Gives (λ c. c) result (cancel_of (texts words.now)) }
{
    let [to, message] = words else {
        return Err(WRONG_NUMBER);
    };
    let to = address(*to)?;
    let number = number(*message)?;
    Ok(NodeCommand::Cancel { to, number })
}

#[tactic(auto, unfolding(crate::specs::Commands::missed_of))]
fn missed(words: &[&[u8]]) -> Result<NodeCommand, LineError>
    ensures { Gives (λ c. c) result (missed_of (texts words.now)) }
{
    if words.is_empty() {
        Ok(NodeCommand::Missed)
    } else {
        Err(WRONG_NUMBER)
    }
}

#[tactic(auto, unfolding(crate::specs::Commands::counts_of))]
fn counts(words: &[&[u8]]) -> Result<NodeCommand, LineError>
    ensures { Gives (λ c. c) result (counts_of (texts words.now)) }
{
    if words.is_empty() {
        Ok(NodeCommand::Counts)
    } else {
        Err(WRONG_NUMBER)
    }
}

#[tactic(auto, unfolding(crate::specs::Commands::state_of))]
fn state(words: &[&[u8]]) -> Result<NodeCommand, LineError>
    ensures { Gives (λ c. c) result (state_of (texts words.now)) }
{
    if words.is_empty() {
        Ok(NodeCommand::State)
    } else {
        Err(WRONG_NUMBER)
    }
}

/// What the words of a command ask for: `name` is the first of them, `words` those behind it.
///
/// The first fault is that of the name, then of how many words there are, then of the words in their order. If each word is
/// well written and its value is no PGN, that is a command too, `Refused`. Besides faults, the only error is that memory was
/// refused.
#[tactic(auto, unfolding(crate::specs::Commands::command_of))]
pub(crate) fn read_node_command(
    alloc: Global,
    name: &[u8],
    words: &[&[u8]],
) -> Result<NodeCommand, LineError>
    ensures { Gives (λ c. c) result (command_of name.now (texts words.now)) }
{
    if is(name, "send") {
        return send(alloc, words);
    }
    if is(name, "open") {
        return open(words);
    }
    if is(name, "close") {
        return close(words);
    }
    if is(name, "pause") {
        return pause(words);
    }
    if is(name, "resume") {
        return resume(words);
    }
    if is(name, "cancel") {
        return cancel(words);
    }
    if is(name, "missed") {
        return missed(words);
    }
    if is(name, "counts") {
        return counts(words);
    }
    if is(name, "state") {
        return state(words);
    }
    Err(LineError::Fault(Fault::UnknownCommand))
}
