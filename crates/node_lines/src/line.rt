//! What a line means to a node.
ghost use Rattle.std.specs.Prelude.{◌≡◌};
ghost use Rattle.script_commands.specs.Words.{texts};
ghost use Rattle.script_commands.specs.Values.{Gives};
ghost use Rattle.node_lines.specs.Lines.{now_of, words_meaning, has_bracket, node_line};

use crate::command::{NodeCommand, read_node_command};
use bus_frame::Frame;
use line_faults::{Fault, LineError};
use log_text::{Iface, LogLine, before_return, read_log_line, read_time};
use script_commands::values::{WRONG_NUMBER, is};
use script_commands::{is_ascii, split_words};
use std::alloc::Global;

/// What a line asks for.
#[derive(Debug, Drop)]
pub enum NodeLine {
    /// Nothing: a line without a word, or a line of the log that shows no data frame with a 29-bit identifier.
    Passed,
    /// A frame was seen on an interface, at so many microseconds if the line says when.
    Frame {
        time: Option<u64>,
        iface: Iface,
        frame: Frame,
    },
    /// The time is so many microseconds.
    Now(u64),
    /// A command to the station.
    Command(NodeCommand),
}

#[tactic(auto, unfolding(crate::specs::Lines::now_of))]
fn now(words: &[&[u8]]) -> Result<NodeLine, LineError>
    ensures { Gives (λ l. l) result (now_of (texts words.now)) }
{
    let [word] = words else {
        return Err(WRONG_NUMBER);
    };
    match read_time(*word) {
        Some(time) => Ok(NodeLine::Now(time)),
        None => Err(LineError::Fault(Fault::BadWord)),
    }
}

/// What the words of a line mean that isn't one of the log.
#[tactic(auto, unfolding(crate::specs::Lines::words_meaning))]
fn read_words(alloc: Global, words: &[&[u8]]) -> Result<NodeLine, LineError>
    ensures { Gives (λ l. l) result (words_meaning (texts words.now)) }
{
    let [name, words @ ..] = words else {
        return Ok(NodeLine::Passed);
    };
    if is(*name, "now") {
        return now(words);
    }
    Ok(NodeLine::Command(read_node_command(alloc, *name, words)?))
}

/// Whether a line begins as one of a log.
fn has_bracket(line: &[u8]) -> bool
    ensures { result ≡ has_bracket line.now }
{
    match line {
        [byte, ..] => *byte == b'(',
        [] => false,
    }
}

/// The meaning of a line, without its line feed. A carriage return at its end is ignored.
///
/// A line that begins with a bracket is one of the bus's log, as `candump -L` writes it, and so is one that shows a frame in the form that
/// candump shows on a screen. Any other line is `now SECONDS.MICROS`, with six digits behind the point, or a command of a script without the
/// station's address: `send TO PGN HEX`, `send TO PGN fill N`, `open PGN MAX`, `close N`, `pause N`, `resume N`, `cancel TO N`, `counts`,
/// `state`.
///
/// The first fault is that of a byte above 127, then of a line that is neither of a log nor named by such a word, which is an unknown command,
/// then of how many words there are, then of the words in their order. Besides faults, the only error is that memory was refused.
#[tactic(auto, unfolding(crate::specs::Lines::node_line))]
pub fn read_node_line(alloc: Global, line: &[u8]) -> Result<NodeLine, LineError>
    ensures { Gives (λ l. l) result (node_line line.now) }
{
    let line = before_return(line);
    if !is_ascii(line) {
        return Err(LineError::Fault(Fault::NotAscii));
    }
    let Ok(shown) = read_log_line(line) else {
        return Err(LineError::Fault(Fault::UnknownCommand));
    };
    if let LogLine::Frame { time, iface, frame } = shown {
        return Ok(NodeLine::Frame { time, iface, frame });
    }
    if has_bracket(line) {
        return Ok(NodeLine::Passed);
    }
    let words = split_words(alloc, line)?;
    read_words(alloc, words.as_slice())
}
