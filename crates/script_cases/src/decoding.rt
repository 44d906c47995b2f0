//! Logs that are decoded: the options of a case, and the text of its counts.
use crate::runs::{Runs, no_memory, show_end};
use bus_decode::{Cause, Decoded, Options, Strays, Wanted, run_decode};
use std::alloc::Global;
use std::io;
use std::io::Write;

/// The longest message that is put together of a log, in bytes.
const MOST: u32 = 1_000_000;

/// Each piece is a log.
#[derive(Drop)]
pub(crate) struct Recorded {
    options: Options,
}

/// Asks for what a word of the command line asks for, if it is one of these.
fn ask(options: &mut Options, word: &str) -> bool {
    match word {
        "--all" => options.singles = true,
        "--strict" => options.strict = true,
        "--json" => options.json = true,
        "--frames" => options.frames = true,
        "--explain" => options.explain = true,
        "--summary" => options.summary = true,
        "--quiet" => options.quiet = true,
        _ => return false,
    }
    true
}

/// Asks for the messages of a PGN or an address, if a word, as `--pgn=FECA`, names one.
fn ask_for(options: &mut Options, word: &str) -> io::Result<bool> {
    let (name, value) = word.split_once('=').unwrap_or((word, ""));
    let Ok(value) = u32::from_str_radix(value, 16) else {
        return Ok(false);
    };
    match name {
        "--pgn" => options.pgns.name(value)?,
        "--from" => options.from.name(value)?,
        "--to" => options.to.name(value)?,
        _ => return Ok(false),
    }
    Ok(true)
}

/// Asks for what the words of a way to run a case ask for, if the first is `decode` and the others are known.
fn ask_each(options: &mut Options, way: &str) -> io::Result<bool> {
    let Some(words) = way.strip_prefix("decode") else {
        return Ok(false);
    };
    for word in words.split_whitespace() {
        if !ask(options, word) && !ask_for(options, word)? {
            return Ok(false);
        }
    }
    Ok(true)
}

impl Recorded {
    /// A log that is decoded in this way, if it is one to decode a log.
    pub(crate) fn in_way(alloc: Global, way: &str) -> io::Result<Option<Recorded>> {
        let mut options = Options {
            pgns: Wanted::all(alloc),
            from: Wanted::all(alloc),
            to: Wanted::all(alloc),
            most: MOST,
            singles: false,
            strict: false,
            json: false,
            frames: false,
            explain: false,
            summary: false,
            quiet: false,
        };
        if ask_each(&mut options, way)? {
            Ok(Some(Recorded { options }))
        } else {
            Ok(None)
        }
    }
}

/// Whether a log was decoded without want of memory, the only reason for which a vector refuses a write.
fn has_ended(decoded: &Decoded) -> bool {
    match decoded.fault {
        None => true,
        Some(fault) => { fault.cause != Cause::OutOfMemory && fault.cause != Cause::WriteFailed }
    }
}

/// Puts the lines for standard error behind those that are there.
fn tell(errors: &mut Vec<u8>, decoded: &Decoded) -> io::Result<()> {
    if let Some(fault) = decoded.fault {
        writeln!(errors, "{fault}")?;
    }
    let counts = decoded.counts;
    let strays = counts.strays;
    if strays != Strays::none() {
        writeln!(errors, "{strays}")?;
    }
    writeln!(errors, "{counts}")
}

impl Runs for Recorded {
    fn run(&mut self, alloc: Global, piece: &[u8], shown: &mut Vec<u8>) -> io::Result<()> {
        let mut reader = piece;
        let decoded = run_decode(alloc, &self.options, &mut reader, shown);
        if !has_ended(&decoded) {
            return Err(no_memory());
        }
        let mut errors = Vec::new(alloc);
        tell(&mut errors, &decoded)?;
        show_end(shown, errors.as_slice(), decoded.status())
    }
}
