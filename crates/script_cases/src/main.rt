//! Runs cases, and compares what each prints with the text that is stated for it, byte for byte. Standard input lists the cases, a line each: the
//! way in which it is run, and the name of its files. Blank lines there and those that begin with `#` are passed over.
//!
//! `NAME.text` is what is to be printed of `NAME.script`, `NAME.log`, `NAME.node` or `NAME.lines`. A case that prints its text is reported by its line. For
//! each other one standard error names the case and the line in which it differs, or why it can't be run, and the status is 1 then.
#![tactic(auto)]

mod decoding;
mod differing;
mod meanings;
mod recording;
mod runs;

use decoding::Recorded;
use differing::tell_difference;
use meanings::Lines;
use recording::Pictured;
use runs::{Dialogue, Drawn, Logged, Runs, Scripted};
use std::alloc::Global;
use std::io::{BufRead, BufReader};
use std::process::ExitCode;
use std::rt::Files;
use std::{fs, io};

/// The text between two pieces of an input, each of which is run by itself.
const BETWEEN: &str = "\n==\n";

/// Runs the pieces of an input, and shows what they write, with a line `==` between each two.
fn show_pieces<R: Runs>(
    alloc: Global,
    runs: &mut R,
    input: &str,
    shown: &mut Vec<u8>,
) -> io::Result<()> {
    let mut is_first = true;
    for piece in input.split(BETWEEN) {
        if !is_first {
            shown.extend_from_slice(b"==\n")?;
        }
        is_first = false;
        runs.run(alloc, piece.as_bytes(), shown)?;
    }
    Ok(())
}

/// Whether an input prints its text; standard error shows where it doesn't.
fn prints<R: Runs>(
    rt: &(impl Eprint + AllocGlobal),
    runs: &mut R,
    name: &str,
    input: &str,
    text: &str,
) -> io::Result<bool> {
    let mut shown = Vec::new(rt.alloc());
    if let Err(error) = show_pieces(rt.alloc(), runs, input, &mut shown) {
        // If memory was refused, all that was printed before must still be right.
        if !text.as_bytes().starts_with(shown.as_slice()) {
            tell_difference(rt, name, shown.as_slice(), text)?;
        }
        return Err(error);
    }
    if shown.as_slice() == text.as_bytes() {
        return Ok(true);
    }
    tell_difference(rt, name, shown.as_slice(), text)?;
    Ok(false)
}

/// Whether the files of this name, whose input has this ending, are as they are to be.
fn holds<R: Runs>(
    rt: &(impl Eprint + AllocGlobal + Files),
    mut runs: R,
    name: &str,
    end: &str,
) -> io::Result<bool> {
    let input = fs::read_to_string(rt, format!(in rt.alloc(); "{name}.{end}")?)?;
    let text = fs::read_to_string(rt, format!(in rt.alloc(); "{name}.text")?)?;
    prints(rt, &mut runs, name, input.as_str(), text.as_str())
}

/// Whether a case holds whose log is decoded in this way.
fn decoding_holds(
    rt: &(impl Eprint + AllocGlobal + Files),
    way: &str,
    name: &str,
) -> io::Result<bool> {
    match Recorded::in_way(rt.alloc(), way)? {
        Some(recorded) => holds(rt, recorded, name, "log"),
        None => drawing_holds(rt, way, name),
    }
}

/// Whether a case holds whose log is drawn in this way.
fn drawing_holds(
    rt: &(impl Eprint + AllocGlobal + Files),
    way: &str,
    name: &str,
) -> io::Result<bool> {
    match Pictured::in_way(way) {
        Some(pictured) => holds(rt, pictured, name, "log"),
        None => lines_hold(rt, way, name),
    }
}

/// Whether a case holds whose lines are read in this way.
fn lines_hold(rt: &(impl Eprint + AllocGlobal + Files), way: &str, name: &str) -> io::Result<bool> {
    match Lines::in_way(way) {
        Some(lines) => holds(rt, lines, name, "lines"),
        None => {
            eprintln!(rt; "{name}: no case is run as '{way}'")?;
            Ok(false)
        }
    }
}

/// Whether a case holds that is run in this way.
fn case_holds(rt: &(impl Eprint + AllocGlobal + Files), way: &str, name: &str) -> io::Result<bool> {
    let alloc = rt.alloc();
    match way {
        "script" => holds(rt, Scripted, name, "script"),
        "script --log" => holds(rt, Logged, name, "script"),
        "draw" => holds(rt, Drawn, name, "script"),
        "node" => holds(rt, Dialogue::new(alloc)?, name, "node"),
        "node that starts again" => holds(rt, Dialogue::again(alloc)?, name, "node"),
        "node --strict" => holds(rt, Dialogue::strict(alloc)?, name, "node"),
        "node of any interface" => holds(rt, Dialogue::joining(alloc)?, name, "node"),
        _ => decoding_holds(rt, way, name),
    }
}

/// Whether the case of a line holds, which is reported by the line. Whatever keeps a case from being run fails that case alone.
fn line_holds(rt: &(impl Print + Eprint + AllocGlobal + Files), line: &str) -> io::Result<bool> {
    if line.is_empty() || line.starts_with('#') {
        return Ok(true);
    }
    let (way, name) = line.rsplit_once(' ').unwrap_or(("", line));
    match case_holds(rt, way, name) {
        Ok(false) => return Ok(false),
        Ok(true) => {}
        Err(error) => {
            eprintln!(rt; "{name}: {error}")?;
            return Ok(false);
        }
    }
    println!(rt; "{line}")?;
    Ok(true)
}

fn main(rt: HostRuntime) -> io::Result<ExitCode> {
    let alloc = rt.alloc();
    let mut status = 0;
    for line in BufReader::new(alloc, rt.reader())?.lines(alloc) {
        if !line_holds(&rt, line?.as_str())? {
            status = 1;
        }
    }
    Ok(ExitCode::from(status))
}
