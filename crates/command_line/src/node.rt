//! The words of `node`.
use crate::numbers::{NODE_MOST, PGN_MOST, address, hexadecimal};
use crate::parts::{Form, Row, described};
use crate::refused::{Refused, refuse};
use clap::{ArgMatches, Command};
use std::alloc::{AllocError, Global};
use tp_wire::constants::ETP_MAX_SIZE;

/// A port that a node opens before it reads a line.
#[derive(Clone, Copy, Debug)]
pub struct OfPort {
    /// The PGN of its messages, of 18 bits.
    pub pgn: u32,
    /// The longest message that it takes, in bytes.
    pub most: u32,
}

/// Which node is asked for.
#[derive(Debug, Drop)]
pub struct OfNode {
    /// The node's address, 0 to 253.
    pub address: u8,
    /// The interface that it is on; none: that of the first frame that it is shown.
    pub interface: Option<String>,
    /// The ports that are open before a line is read, in their order.
    pub ports: Vec<OfPort>,
    /// For how many milliseconds nothing is queued to a destination after a connection to it failed.
    pub quiet: u64,
    /// Whether a wrong line ends the run; else it is reported, and the next line is read.
    pub strict: bool,
    /// Whether a program at the address may have sent messages in the last 1,250 ms: so it is unless the words say that the node is new.
    pub again: bool,
}

/// The quiet after a failed connection if none is named, in milliseconds.
const QUIET: u64 = 700;

const NODE_HELP: &str =
    "The frames of the bus are read from standard input, as the lines that candump -L
writes, (SECONDS.MICROS) IFACE ID#HEX. Between them stand lines of these
commands:
  now SECONDS.MICROS   time passes without a frame
  open PGN MAX         opens a port for messages of this PGN, up to MAX bytes
  send TO PGN HEX      sends a message, also as send TO PGN fill N
  close N, pause N, resume N, cancel TO N, missed, counts, state
Each line is answered before the next one is read. A frame for the bus is
printed as put and a line of a log. Messages that are given, and outcomes, are
printed as in a script. The ports of --port are open before the first line.
Frames of other interfaces are passed over. A wrong line is reported in its
place, by its number, and passed over. If there were any, standard error has
their count at the end. Until tick 1250 a send prints starting 1250 and sends
nothing, as an earlier program at the address may have sent messages. If none
did in the last 1,250 ms, say --new.

Example:
  printf '%s\\n' 'open FECA 1785' 'send 21 FECA 010203040506070809' \\
    'now 2.000000' | j1939bus node 35 --new

Status:
  0  the input was read to its end, and no line was wrong
  1  a line is wrong, or standard input or output failed
  2  the command line is refused, or asks for help

docs/REAL-BUS.md describes what is read and printed.";

/// The arguments, in the order of the help.
const ROWS: [Row<'static>; 6] = [
    Row {
        form: Form::Required,
        name: "address",
        value: "ADDRESS",
        help: "Address of the station, 00 to FD, hexadecimal",
    },
    Row {
        form: Form::Value,
        name: "interface",
        value: "NAME",
        help: "Interface of the station [default: that of the first frame]",
    },
    Row {
        form: Form::Values,
        name: "port",
        value: "PGN[:MAX]",
        help: "Opens a port at the start, as open PGN MAX does [default MAX: 117440505]",
    },
    Row {
        form: Form::Number(0, 10_000),
        name: "quiet",
        value: "MS",
        help: "Milliseconds of rest after a failed connection, 0 to 10000 [default: 700]",
    },
    Row {
        form: Form::Flag,
        name: "strict",
        value: "",
        help: "Ends at the first wrong line",
    },
    Row {
        form: Form::Flag,
        name: "new",
        value: "",
        help: "Sends messages at once: none left the address in the last 1,250 ms",
    },
];

/// The command as it is parsed, with its help.
pub(crate) fn node_command<'a>(alloc: Global) -> Result<Command<'a>, AllocError> {
    described(
        alloc,
        "node",
        "Runs one station on a real bus, whose frames are read from standard input",
        NODE_HELP,
        &ROWS,
    )
}

/// The port that a word writes, if it is one.
fn port(word: &str) -> Option<OfPort> {
    let Some((pgn, most)) = word.split_once(':') else {
        return Some(OfPort {
            pgn: hexadecimal(word.as_bytes(), PGN_MOST)?,
            most: ETP_MAX_SIZE,
        });
    };
    Some(OfPort {
        pgn: hexadecimal(pgn.as_bytes(), PGN_MOST)?,
        most: most.parse::<u32>().ok()?,
    })
}

/// The port that a word of `--port` writes; if it writes none, the word is refused.
fn port_of(alloc: Global, word: &str) -> Result<OfPort, Refused> {
    match port(word) {
        Some(port) => Ok(port),
        None => Err(refuse(
            alloc,
            "--port",
            word,
            "not a hexadecimal PGN up to 3FFFF, with or without :MAX bytes",
        )),
    }
}

/// The ports that are named.
fn ports(alloc: Global, matches: &ArgMatches) -> Result<Vec<OfPort>, Refused> {
    let mut ports = Vec::new(alloc);
    for word in matches.get_strs("port").unwrap_or(&[]) {
        ports.push(port_of(alloc, *word)?)?;
    }
    Ok(ports)
}

/// The address that is named; if its word writes none, it is refused.
fn address_of(alloc: Global, word: &str) -> Result<u8, Refused> {
    match address(word.as_bytes(), NODE_MOST) {
        Some(address) => Ok(address),
        None => Err(refuse(
            alloc,
            "<ADDRESS>",
            word,
            "not a hexadecimal number up to FD",
        )),
    }
}

/// What its words ask for.
pub(crate) fn read_node(alloc: Global, matches: &ArgMatches) -> Result<OfNode, Refused> {
    let address = address_of(alloc, first_of(matches, "address").unwrap_or(""))?;
    Ok(OfNode {
        address,
        interface: interface(alloc, matches)?,
        ports: ports(alloc, matches)?,
        quiet: matches.get_one::<u64>("quiet").unwrap_or(QUIET),
        strict: matches.get_flag("strict"),
        again: !matches.get_flag("new"),
    })
}

/// The interface that is named.
pub(crate) fn interface(alloc: Global, matches: &ArgMatches) -> Result<Option<String>, AllocError> {
    match first_of(matches, "interface") {
        Some(name) => Ok(Some(String::from_str(alloc, name)?)),
        None => Ok(None),
    }
}

/// The first value of an argument.
pub(crate) fn first_of<'a>(matches: &ArgMatches<'a>, name: &str) -> Option<&'a str> {
    match matches.get_strs(name).unwrap_or(&[]).first() {
        Some(word) => Some(*word),
        None => None,
    }
}
