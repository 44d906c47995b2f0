//! `j1939bus` runs scripts of stations on a bus, draws and decodes what a bus carried, and is a node in text (SAE J1939-21, ISO 11783-3).
//!
//! - `j1939bus` prints the replies to the lines of a script, or with `--log` the frames that it puts, as the log of a bus.
//! - `j1939bus draw` draws a script, or with `--log` a log, as a sequence diagram.
//! - `j1939bus live` runs a script by threads and prints the result. `j1939bus relay` runs two segments so, with a relay between them.
//! - `j1939bus decode` reads logs of a bus and prints their messages.
//! - `j1939bus node` is a station on the bus whose log it reads while it runs.
//!
//! Its status is 0 if the script, log or bus was read to its end, refused calls included. It is 1 if a line was wrong, if a file can't be opened, or
//! at a read or write fault; standard error says which. It is 2 if the command line is refused or asks for help, and 3 if the turns of the threads
//! ran out.
#![tactic(auto)]

mod inputs;

use bus_decode::{Decoded, Options, Strays, Wanted, run_decode};
use bus_live::{Gate, run_live};
use bus_node::{NewRefused, Node, Ran, run_node};
use bus_relay::run_relay;
use bus_script::{run_logged, run_script};
use command_line::{Asked, Line, OfDrawing, OfLog, OfNode, OfPort, read_command_line};
use inputs::{open_inputs, size_to_tell};
use log_drawing::{Pair, draw_log};
use log_text::{BadName, Iface};
use pgn_ids::Address;
use read_progress::Progress;
use script_drawing::draw_script;
use std::alloc::{AllocError, Global};
use std::fmt::Display;
use std::io;
use std::io::{BufRead, BufReader, BufWriter, Read, Write};
use std::process::ExitCode;
use std::rt::Files;
use std::sync::Wait;
use std::thread::Threads;
use std::time::Clock;

/// Reports on standard error why a run ended before its end, if it did.
fn end<F: Display + Drop>(rt: &impl Eprint, fault: Option<F>, status: u8) -> io::Result<ExitCode> {
    if let Some(fault) = fault {
        eprintln!(rt; "{fault}")?;
    }
    Ok(ExitCode::from(status))
}

/// Runs a script.
fn run<R: Print + Eprint + AllocGlobal, I: Read + Drop>(rt: &R, input: I) -> io::Result<ExitCode> {
    let alloc = rt.alloc();
    let mut reader = BufReader::new(alloc, input)?;
    let mut writer = BufWriter::new(alloc, io::writer(rt))?;
    let ran = run_script(alloc, &mut reader, &mut writer);
    end(rt, ran.fault, ran.status())
}

/// Runs a script, and prints the frames that it puts as a log, with the replies on standard error.
fn log<R: Print + Eprint + AllocGlobal, I: Read + Drop>(
    rt: &R,
    errors: &io::Stderr,
    input: I,
) -> io::Result<ExitCode> {
    let alloc = rt.alloc();
    let mut reader = BufReader::new(alloc, input)?;
    let mut writer = BufWriter::new(alloc, io::writer(rt))?;
    let mut replies = BufWriter::new(alloc, io::writer(errors))?;
    let ran = run_logged(alloc, &mut reader, &mut writer, &mut replies);
    end(rt, ran.fault, ran.status())
}

/// Runs a script, and prints the drawing of it.
fn draw<R: Print + Eprint + AllocGlobal, I: Read + Drop>(rt: &R, input: I) -> io::Result<ExitCode> {
    let alloc = rt.alloc();
    let mut reader = BufReader::new(alloc, input)?;
    let mut writer = BufWriter::new(alloc, io::writer(rt))?;
    let ran = draw_script(alloc, &mut reader, &mut writer);
    end(rt, ran.fault, ran.status())
}

/// The interface that is named.
fn interface(named: &Option<String>) -> Result<Option<Iface>, BadName> {
    match named {
        Some(name) => Ok(Some(Iface::new(name.as_bytes())?)),
        None => Ok(None),
    }
}

/// What of a log is drawn.
fn drawn_of(asked: &OfDrawing) -> Result<log_drawing::Options, BadName> {
    Ok(log_drawing::Options {
        pair: match asked.pair {
            Some((first, second)) => Some(Pair {
                first: Address(first),
                second: Address(second),
            }),
            None => None,
        },
        from: asked.from,
        to: asked.to,
        iface: interface(&asked.interface)?,
        others: asked.others,
        strict: asked.strict,
    })
}

/// Prints the drawing of a log.
fn draw_recorded<R: Print + Eprint + AllocGlobal, I: Read + Drop>(
    rt: &R,
    errors: &io::Stderr,
    asked: &OfDrawing,
    input: I,
) -> io::Result<ExitCode> {
    let alloc = rt.alloc();
    let Ok(options) = drawn_of(asked) else {
        eprintln!(rt; "error: an interface has a name of 1 to 15 printable characters")?;
        return Ok(ExitCode::from(2));
    };
    let mut reader = BufReader::new(alloc, input)?;
    let mut writer = BufWriter::new(alloc, io::writer(rt))?;
    let mut told = BufWriter::new(alloc, io::writer(errors))?;
    let drawn = draw_log(alloc, &options, &mut reader, &mut writer, &mut told);
    if let Some(fault) = drawn.fault {
        eprintln!(rt; "{fault}")?;
    }
    let counts = drawn.counts;
    eprintln!(rt; "{counts}")?;
    Ok(ExitCode::from(drawn.status()))
}

/// Lets each worker pass at once.
#[derive(Drop)]
struct OpenGate {}

impl Gate for OpenGate {
    fn pass(&self, _worker: u8, _turn: u64) {}
}

/// Runs a script by threads.
fn live<R: Threads + Wait + Sync + Print + Eprint + AllocGlobal, I: Read + Drop>(
    rt: &R,
    turns: u64,
    input: I,
) -> io::Result<ExitCode> {
    let alloc = rt.alloc();
    let mut reader = BufReader::new(alloc, input)?;
    let mut writer = BufWriter::new(alloc, io::writer(rt))?;
    let ran = run_live(rt, alloc, &mut reader, &mut writer, &OpenGate {}, turns);
    end(rt, ran.fault, ran.status())
}

/// Runs the two segments of the script by threads, with a relay between them.
fn relay<R: Threads + Wait + Sync + Print + Eprint + AllocGlobal, I: Read + Drop>(
    rt: &R,
    turns: u64,
    input: I,
) -> io::Result<ExitCode> {
    let alloc = rt.alloc();
    let mut reader = BufReader::new(alloc, input)?;
    let mut writer = BufWriter::new(alloc, io::writer(rt))?;
    let ran = run_relay(rt, alloc, &mut reader, &mut writer, &OpenGate {}, turns);
    end(rt, ran.fault, ran.status())
}

fn wanted(alloc: Global, named: &[u32]) -> Result<Wanted, AllocError> {
    let mut wanted = Wanted::all(alloc);
    for number in named {
        wanted.name(*number)?;
    }
    Ok(wanted)
}

/// Prints the messages of a log. While a file is read for more than a second, a terminal shows how far it is.
fn decode_all<R: Print + AllocGlobal + Clock, I: Read + Drop>(
    rt: &R,
    errors: &io::Stderr,
    options: &Options,
    input: I,
    size: Option<u64>,
) -> io::Result<Decoded> {
    let alloc = rt.alloc();
    let mut writer = BufWriter::new(alloc, io::writer(rt))?;
    let Some(size) = size else {
        let mut reader = BufReader::new(alloc, input)?;
        return Ok(run_decode(alloc, options, &mut reader, &mut writer));
    };
    let progress = Progress::new(alloc, input, rt, io::writer(errors), size)?;
    let mut reader = BufReader::new(alloc, progress)?;
    let decoded = run_decode(alloc, options, &mut reader, &mut writer);
    // The report on the way is cleared for the report on the end.
    eprint!(errors; "\r\x1b[K")?;
    Ok(decoded)
}

/// Prints the messages of a log.
fn decode<R: Print + Eprint + AllocGlobal + Clock, I: Read + Drop>(
    rt: &R,
    errors: &io::Stderr,
    asked: &OfLog,
    input: I,
    size: Option<u64>,
) -> io::Result<ExitCode> {
    let alloc = rt.alloc();
    let options = Options {
        pgns: wanted(alloc, asked.pgns.as_slice())?,
        from: wanted(alloc, asked.from.as_slice())?,
        to: wanted(alloc, asked.to.as_slice())?,
        most: asked.most,
        singles: asked.singles,
        strict: asked.strict,
        json: asked.json,
        frames: asked.frames,
        explain: asked.explain,
        summary: asked.summary,
        quiet: asked.quiet,
    };
    let decoded = decode_all(rt, errors, &options, input, size)?;
    if let Some(fault) = decoded.fault {
        eprintln!(rt; "{fault}")?;
    }
    let counts = decoded.counts;
    let strays = counts.strays;
    if strays != Strays::none() {
        eprintln!(rt; "{strays}")?;
    }
    eprintln!(rt; "{counts}")?;
    Ok(ExitCode::from(decoded.status()))
}

/// The interface that is named with the frames which a node puts before it is on one.
const INTERFACE: &str = "can0";

/// The lines that open a node's ports.
fn opening(alloc: Global, ports: &[OfPort]) -> Result<Vec<u8>, AllocError> {
    let mut lines = Vec::new(alloc);
    for port in ports {
        let OfPort { pgn, most } = *port;
        let line = format!(in alloc; "open {pgn:X} {most}\n")?;
        lines.extend_from_slice(line.as_bytes())?;
    }
    Ok(lines)
}

/// Opens the ports of a node, and is that station to the end of its input.
fn run_opened<R: BufRead, W: Write>(
    alloc: Global,
    node: &mut Node,
    opening: &[u8],
    reader: &mut R,
    writer: &mut W,
) -> Ran {
    let mut opening = opening;
    let ran = run_node(alloc, node, &mut opening, writer);
    if ran.fault.is_some() {
        return ran;
    }
    run_node(alloc, node, reader, writer)
}

/// The node that is asked for, on an interface.
fn new_node(alloc: Global, asked: &OfNode, iface: Iface) -> Result<Node, NewRefused> {
    let address = Address(asked.address);
    if asked.again {
        return Node::again(alloc, address, iface, asked.quiet);
    }
    Node::new(alloc, address, iface, asked.quiet)
}

/// Is a station on the bus whose frames are read.
fn node<R: Print + Eprint + AllocGlobal, I: Read + Drop>(
    rt: &R,
    asked: &OfNode,
    input: I,
) -> io::Result<ExitCode> {
    let alloc = rt.alloc();
    let name = match &asked.interface {
        Some(name) => name.as_str(),
        None => INTERFACE,
    };
    let Ok(iface) = Iface::new(name.as_bytes()) else {
        eprintln!(rt; "error: an interface has a name of 1 to 15 printable characters")?;
        return Ok(ExitCode::from(2));
    };
    let lines = opening(alloc, asked.ports.as_slice())?;
    let mut reader = BufReader::new(alloc, input)?;
    let mut writer = BufWriter::new(alloc, io::writer(rt))?;
    let Ok(mut node) = new_node(alloc, asked, iface) else {
        eprintln!(rt; "out of memory")?;
        return Ok(ExitCode::from(1));
    };
    if asked.interface.is_none() {
        node.join_first_interface();
    }
    if asked.strict {
        node.end_at_wrong_line();
    }
    let ran = run_opened(alloc, &mut node, lines.as_slice(), &mut reader, &mut writer);
    let counts = ran.counts;
    if counts.wrong != 0 {
        eprintln!(rt; "{counts}")?;
    }
    end(rt, ran.fault, ran.status())
}

/// Does what the command line asks for.
fn obey<R: Threads + Wait + Sync + Input + Print + Eprint + AllocGlobal + Files + Clock>(
    rt: &R,
    errors: &io::Stderr,
    line: &Line,
) -> io::Result<ExitCode> {
    let names = line.files.as_slice();
    let Some(input) = open_inputs(rt, names)? else {
        return Ok(ExitCode::from(1));
    };
    match &line.asked {
        Asked::Script => run(rt, input),
        Asked::Logged => log(rt, errors, input),
        Asked::Drawn => draw(rt, input),
        Asked::DrawnLog(asked) => draw_recorded(rt, errors, asked, input),
        Asked::Live { turns } => live(rt, *turns, input),
        Asked::Relay { turns } => relay(rt, *turns, input),
        Asked::Decode(asked) => decode(rt, errors, asked, input, size_to_tell(rt, errors, names)),
        Asked::Node(asked) => node(rt, asked, input),
    }
}

fn main(rt: HostRuntime) -> anyhow::Result<ExitCode> {
    let alloc = rt.alloc();
    let words: Vec<String> = std::env::args(&rt)?.collect(alloc)?;
    match read_command_line(alloc, words.as_slice()) {
        Ok(line) => Ok(obey(&rt, &rt.stderr(), &line)?),
        Err(error) => {
            eprint!(rt; "{error}")?;
            Ok(ExitCode::from(2))
        }
    }
}
