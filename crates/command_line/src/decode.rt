//! The words of `decode`.
use crate::numbers::{ADDRESS_MOST, PGN_MOST, hexadecimal};
use crate::parts::{Form, Row, described};
use crate::refused::{Refused, refuse};
use clap::{ArgMatches, Command};
use std::alloc::{AllocError, Global};
use tp_wire::constants::ETP_MAX_SIZE;

/// What of a log is asked for.
#[derive(Debug, Drop)]
pub struct OfLog {
    /// Messages of these PGNs; of each PGN if none is named. The addresses likewise.
    pub pgns: Vec<u32>,
    /// Messages from these addresses.
    pub from: Vec<u32>,
    /// Messages to these addresses, 255 for those to all.
    pub to: Vec<u32>,
    /// The longest message that is put together, in bytes.
    pub most: u32,
    /// Whether frames that carry nothing of a message are printed too.
    pub singles: bool,
    /// Whether a wrong line ends the run; else it is reported, and the next line is read.
    pub strict: bool,
    /// Whether each line is a JSON object.
    pub json: bool,
    /// Whether the frames of each message are listed, except its packets.
    pub frames: bool,
    /// Whether fault lists and identifications are shown in words too.
    pub explain: bool,
    /// Whether the ends of the messages are counted, and printed at the end of the log.
    pub summary: bool,
    /// Whether neither messages nor frames are printed.
    pub quiet: bool,
}

const DECODE_HELP: &str =
    "A log has the lines that candump writes, (SECONDS.MICROS) IFACE ID#HEX, or those
that it shows on a screen. Several logs are read as one. If a file can't be
opened, nothing is read. Each message that was sent in packets is printed at the
frame that shows how it ended, with that frame's time and the interface:
  (TIME) IFACE given FROM TO PGN LENGTH HEX
  (TIME) IFACE aborted FROM TO PGN REASON WHO
  (TIME) IFACE lost FROM TO PGN HAVE OF CAUSE
A wrong line is reported in its place, by its number. Standard error has the
counts at the end. With --json each line is an object, with times in
microseconds. With --frames the frames of a message follow its line, except
packets:
  (TIME) NUMBER announcement
  (TIME) NUMBER window FIRST LAST
  (TIME) NUMBER again FIRST LAST
  (TIME) NUMBER hold
  (TIME) NUMBER end
With --explain messages of six PGNs are followed by their meaning in words: the
lamps and faults of DM1 and DM2 (FECA, FECB), and the identification of vehicle,
component, ECU and software (FEEC, FEEB, FDC5, FEDA). Single frames of these
PGNs are printed too, as with --all.
With --summary a table is printed at the end. It has a row for each interface,
PGN, sender and destination of a message: how many messages were given, their
bytes, their mean and longest time in microseconds, the packets asked for again,
and the share of the interface's frames in thousandths. Lines below a row count
the messages that were aborted or lost, by reason. With --quiet neither messages
nor frames are printed.

Examples:
  j1939bus decode can0.log can0.log.1
  j1939bus decode --summary --quiet can0.log
  printf '%s\\n' '(1.000000) can0 1CECFF21#20090002FFCAFE00' \\
    '(1.050000) can0 1CEBFF21#0101020304050607' \\
    '(1.100000) can0 1CEBFF21#020809FFFFFFFFFF' | j1939bus decode

Status:
  0  the log was read to its end, and no line was wrong
  1  a line is wrong, a file can't be opened, or reading or writing failed
  2  the command line is refused, or asks for help

docs/LOGS.md describes what is read and printed.";

/// The arguments, in the order of the help.
const ROWS: [Row<'static>; 12] = [
    Row {
        form: Form::Values,
        name: "pgn",
        value: "PGN",
        help: "Only messages of this PGN, hexadecimal",
    },
    Row {
        form: Form::Values,
        name: "from",
        value: "A",
        help: "Only messages from this address, hexadecimal",
    },
    Row {
        form: Form::Values,
        name: "to",
        value: "A",
        help: "Only messages to this address, FF for those to all",
    },
    Row {
        form: Form::Size(ETP_MAX_SIZE as i64),
        name: "max-bytes",
        value: "N",
        help: "Longest message that is reassembled, in bytes [default: 117440505]",
    },
    Row {
        form: Form::Flag,
        name: "all",
        value: "",
        help: "Also prints frames that belong to no message, as frame FROM TO PGN LENGTH HEX",
    },
    Row {
        form: Form::Flag,
        name: "strict",
        value: "",
        help: "Ends at the first wrong line",
    },
    Row {
        form: Form::Flag,
        name: "json",
        value: "",
        help: "Prints each line as a JSON object",
    },
    Row {
        form: Form::Flag,
        name: "frames",
        value: "",
        help: "Lists the announcement, windows and end of each message, with time and number",
    },
    Row {
        form: Form::Flag,
        name: "explain",
        value: "",
        help: "Also shows fault lists and identifications in words, single frames included",
    },
    Row {
        form: Form::Flag,
        name: "summary",
        value: "",
        help: "Ends with a table of the messages: a row for each interface, PGN, sender and destination",
    },
    Row {
        form: Form::Flag,
        name: "quiet",
        value: "",
        help: "Prints neither messages nor frames",
    },
    Row {
        form: Form::Several,
        name: "files",
        value: "FILE",
        help: "Logs in the order of their times, - for standard input [default: -]",
    },
];

/// The command as it is parsed, with its help.
pub(crate) fn decode_command<'a>(alloc: Global) -> Result<Command<'a>, AllocError> {
    described(
        alloc,
        "decode",
        "Prints the messages of logs, reassembled from their packets",
        DECODE_HELP,
        &ROWS,
    )
}

/// Puts the number that a word writes; if it writes none up to `most`, the word is refused.
fn put_number(
    alloc: Global,
    numbers: &mut Vec<u32>,
    option: &str,
    word: &str,
    most: u32,
) -> Result<(), Refused> {
    match hexadecimal(word.as_bytes(), most) {
        Some(number) => numbers.push(number)?,
        None if most == PGN_MOST => {
            return Err(refuse(alloc, option, word, "not a hexadecimal number up to 3FFFF"));
        }
        None => return Err(refuse(alloc, option, word, "not a hexadecimal number up to FF")),
    }
    Ok(())
}

/// The numbers that an argument names.
fn numbers(
    alloc: Global,
    matches: &ArgMatches,
    name: &str,
    option: &str,
    most: u32,
) -> Result<Vec<u32>, Refused> {
    let mut numbers = Vec::new(alloc);
    for word in matches.get_strs(name).unwrap_or(&[]) {
        put_number(alloc, &mut numbers, option, *word, most)?;
    }
    Ok(numbers)
}

/// What its words ask for.
pub(crate) fn read_decode(alloc: Global, matches: &ArgMatches) -> Result<OfLog, Refused> {
    Ok(OfLog {
        pgns: numbers(alloc, matches, "pgn", "--pgn", PGN_MOST)?,
        from: numbers(alloc, matches, "from", "--from", u32::from(ADDRESS_MOST))?,
        to: numbers(alloc, matches, "to", "--to", u32::from(ADDRESS_MOST))?,
        most: matches.get_one::<u32>("max-bytes").unwrap_or(ETP_MAX_SIZE),
        singles: matches.get_flag("all"),
        strict: matches.get_flag("strict"),
        json: matches.get_flag("json"),
        frames: matches.get_flag("frames"),
        explain: matches.get_flag("explain"),
        summary: matches.get_flag("summary"),
        quiet: matches.get_flag("quiet"),
    })
}
