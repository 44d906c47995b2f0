//! The command line of the program, read by `clap`.
#![tactic(auto)]

mod decode;
mod draw;
mod node;
mod numbers;
mod parts;
mod refused;

use clap::{ArgMatches, Command, Error};
pub use decode::OfLog;
use decode::{decode_command, read_decode};
pub use draw::OfDrawing;
use draw::{draw_command, read_draw};
pub use node::{OfNode, OfPort};
use node::{node_command, read_node};
use parts::{Form, Row, SCRIPT, described, names, put};
use refused::{Refused, or_error};
use std::alloc::{AllocError, Global};

/// What a command line asks for.
#[derive(Debug, Drop)]
pub enum Asked {
    /// The script is run line by line.
    Script,
    /// The script is run, and the frames that it puts are printed as a log, without the replies.
    Logged,
    /// The script is run, and drawn as a sequence diagram.
    Drawn,
    /// Logs are drawn so.
    DrawnLog(OfDrawing),
    /// The script is run by threads, each worker with at most so many turns.
    Live { turns: u64 },
    /// The script's two segments are run by threads, with a relay between them.
    Relay { turns: u64 },
    /// A station on the bus whose frames are read from standard input.
    Node(OfNode),
    /// The messages of logs are printed.
    Decode(OfLog),
}

/// A command line.
#[derive(Debug, Drop)]
pub struct Line {
    /// What it asks for.
    pub asked: Asked,
    /// The files that are read, in their order: `-` is standard input, which is read too if there are none.
    pub files: Vec<String>,
}

/// The turns of a worker if the command line names none.
const TURNS: u64 = 1_000_000;

/// What is read and written, an example, and the statuses: the end of the program's help.
const PROGRAM_HELP: &str =
    "The reply to each line is written to standard output before the next line is
read. If something ends the run early, such as a wrong line or a file that
can't be opened, standard error says what. A script that has the name of a
command is written ./NAME.
With --log, standard output has only the frames that are put, as lines
(SECONDS.MICROS) bus0 ID#HEX in the form of candump -l. Their times are those of
the script's clock. Replies and events are written to standard error.

Examples:
  printf '%s\\n' 'stations 21 35' 'open 35 FECA 1785' \\
    'send 21 FF FECA 010203040506070809' 'drive 21 FF 3' | j1939bus
  j1939bus --log SCRIPT | j1939bus decode

Status:
  0  the script ran to its end, refused calls included
  1  a line is wrong, a file can't be opened, or reading or writing failed
  2  the command line is refused, or asks for help
  3  the turns of live or relay ran out

docs/SCRIPTS.md describes the language, docs/LOGS.md what decode reads.";

/// The end of the help of `live`.
const LIVE_HELP: &str =
    "The script is read to its end first. It has one line of 1 to 8 stations, lines
that open ports, and at most 64 lines that send. A thread for each station
submits its messages, and one for each port receives. A worker for each station
and one for the bus move the frames. Standard output has the refusals of lines
first. At the end it has each port with the messages that it was given, and the
outcome of each message. If a line is wrong, standard error says so, and no
thread runs.

Example:
  printf '%s\\n' 'stations 21 35' 'open 35 FECA 1785' \\
    'send 21 35 FECA 010203040506070809' | j1939bus live

Status:
  0  each message has its outcome
  1  a line is wrong, a file can't be opened, or reading or writing failed
  2  the command line is refused, or asks for help
  3  the turns ran out

docs/SCRIPTS.md describes the language, and this in its last part.";

/// The end of the help of `relay`.
const RELAY_HELP: &str =
    "The script is read to its end first. It has the lines of a first segment, as
live reads them, a second line of stations, lines that open ports on the second
segment, and one last line, route PORT A B. Both segments run by threads. Each
message that PORT is given is sent on from A to B. Standard output has the
refusals of lines first. At the end it has each port of the second segment with
the messages that it was given, how many messages the relay received, submitted
and left, and the outcomes of the first segment and of the second.

Example:
  printf '%s\\n' 'stations 21 35' 'open 35 FECA 1785' \\
    'send 21 35 FECA 010203040506070809' 'stations 40 50' \\
    'open 50 FECA 1785' 'route 35.1 40 50' | j1939bus relay

Status:
  0  each message has its outcome, and nothing is left
  1  a line is wrong, a file can't be opened, or reading or writing failed
  2  the command line is refused, or asks for help
  3  the turns ran out

docs/SCRIPTS.md describes the language, and this in its last part.";

/// The arguments of `live` and `relay`, in the order of the help.
const THREADS_ROWS: [Row<'static>; 2] = [
    Row {
        form: Form::Number(1, 1_000_000_000),
        name: "turns",
        value: "turns",
        help: "Most turns of a worker, 1 to 1000000000 [default: 1000000]",
    },
    Row {
        form: Form::Alone,
        name: "files",
        value: "FILE",
        help: SCRIPT,
    },
];

fn threads_command<'a>(
    alloc: Global,
    name: &'a str,
    about: &'a str,
    help: &'a str,
) -> Result<Command<'a>, AllocError> {
    described(alloc, name, about, help, &THREADS_ROWS)
}

fn live_command<'a>(alloc: Global) -> Result<Command<'a>, AllocError> {
    threads_command(
        alloc,
        "live",
        "Runs a script by threads, and prints its messages and outcomes",
        LIVE_HELP,
    )
}

fn relay_command<'a>(alloc: Global) -> Result<Command<'a>, AllocError> {
    threads_command(
        alloc,
        "relay",
        "Runs two segments by threads, and relays from a port of the first to the second",
        RELAY_HELP,
    )
}

/// Puts the commands among the words, in the order of the help.
fn put_commands<'a>(alloc: Global, commands: &mut Vec<Command<'a>>) -> Result<(), AllocError> {
    put(commands, live_command(alloc))?;
    put(commands, relay_command(alloc))?;
    put(commands, decode_command(alloc))?;
    put(commands, draw_command(alloc))?;
    put(commands, node_command(alloc))
}

/// The program's own arguments, in the order of the help.
const PROGRAM_ROWS: [Row<'static>; 2] = [
    Row {
        form: Form::Flag,
        name: "log",
        value: "",
        help: "Prints only the frames, as a log, and the replies on standard error",
    },
    Row {
        form: Form::Alone,
        name: "files",
        value: "FILE",
        help: SCRIPT,
    },
];

/// The program with its own arguments, for a command line that names none of its commands.
fn without_commands<'a>(alloc: Global) -> Result<Command<'a>, AllocError> {
    described(
        alloc,
        "j1939bus",
        "Runs a script, and prints the reply to each line",
        PROGRAM_HELP,
        &PROGRAM_ROWS,
    )
}

/// The program with commands.
fn with_commands<'a>(
    program: Result<Command<'a>, AllocError>,
    commands: Vec<Command<'a>>,
) -> Result<Command<'a>, AllocError> {
    program?
        .version("0.3.0")
        .args_conflicts_with_subcommands(true)
        .subcommands(commands)
}

/// The command as it is parsed, with its help.
fn program<'a>(alloc: Global) -> Result<Command<'a>, AllocError> {
    let mut commands = Vec::new(alloc);
    put_commands(alloc, &mut commands)?;
    with_commands(without_commands(alloc), commands)
}

/// The turns of each worker.
fn turns(words: &ArgMatches) -> u64 {
    words.get_one::<u64>("turns").unwrap_or(TURNS)
}

/// What is drawn.
fn drawn(alloc: Global, words: &ArgMatches) -> Result<Asked, Refused> {
    match read_draw(alloc, words)? {
        Some(log) => Ok(Asked::DrawnLog(log)),
        None => Ok(Asked::Drawn),
    }
}

/// What a command's words ask for.
fn read_command(alloc: Global, name: &str, words: &ArgMatches) -> Result<Asked, Refused> {
    match name {
        "live" => Ok(Asked::Live {
            turns: turns(words),
        }),
        "relay" => Ok(Asked::Relay {
            turns: turns(words),
        }),
        "draw" => drawn(alloc, words),
        "node" => Ok(Asked::Node(read_node(alloc, words)?)),
        _ => Ok(Asked::Decode(read_decode(alloc, words)?)),
    }
}

/// What the words ask for that name no command.
fn read_script(matches: &ArgMatches) -> Asked {
    if matches.get_flag("log") {
        Asked::Logged
    } else {
        Asked::Script
    }
}

/// What the words ask for, and what is read.
fn read_line(alloc: Global, matches: &ArgMatches) -> Result<Line, Refused> {
    let Some((name, words)) = matches.subcommand() else {
        let files = names(alloc, matches)?;
        return Ok(Line {
            asked: read_script(matches),
            files,
        });
    };
    let files = names(alloc, words)?;
    Ok(Line {
        asked: read_command(alloc, name, words)?,
        files,
    })
}

/// What words ask for, as the command parses them.
fn read_words<'a>(
    alloc: Global,
    command: &mut Command<'a>,
    words: &'a [String],
) -> Result<Line, Error> {
    let matches = command.try_get_matches_from_mut(words)?;
    let line = read_line(alloc, &matches);
    drop(matches);
    or_error(command, line)
}

/// Reads the words of a command line, of which the first names the program. Words that it doesn't take are refused, and so is a
/// request for help, whose text is the error.
pub fn read_command_line(alloc: Global, words: &[String]) -> Result<Line, Error> {
    let mut command = program(alloc)?;
    let asked = read_words(alloc, &mut command, words);
    // Dropped by a call: at the end of a function each of its fields is dropped, and proved to be, by itself.
    drop(command);
    asked
}
