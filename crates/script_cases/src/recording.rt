//! Logs that are drawn: the options of a case, and the text of its counts.
use crate::runs::{Runs, no_memory, show_end};
use bus_script::Cause;
use log_drawing::{Drawn, Options, Pair, draw_log};
use log_text::{Iface, read_time};
use pgn_ids::Address;
use std::alloc::Global;
use std::io;
use std::io::Write;

/// Each piece is a log that is drawn.
#[derive(Drop)]
pub(crate) struct Pictured {
    options: Options,
}

fn address(digits: &str) -> Option<Address> {
    Some(Address(u8::from_str_radix(digits, 16).ok()?))
}

/// The pair that a word writes, as `21-35`.
fn pair(word: &str) -> Option<Pair> {
    let (first, second) = word.split_once('-')?;
    Some(Pair {
        first: address(first)?,
        second: address(second)?,
    })
}

/// Sets the option that a word with its value names. None if it names none.
fn ask(options: &mut Options, name: &str, value: &str) -> Option<()> {
    match name {
        "--pair" => options.pair = Some(pair(value)?),
        "--from" => options.from = Some(read_time(value.as_bytes())?),
        "--to" => options.to = Some(read_time(value.as_bytes())?),
        "--interface" => options.iface = Some(Iface::new(value.as_bytes()).ok()?),
        "--all" => options.others = true,
        "--strict" => options.strict = true,
        _ => return None,
    }
    Some(())
}

impl Pictured {
    /// A log that is drawn in this way, if it is one to draw a log: `draw --log`, and words as `--pair=21-35`, with times of six digits.
    pub(crate) fn in_way(way: &str) -> Option<Pictured> {
        let mut options = Options {
            pair: None,
            from: None,
            to: None,
            iface: None,
            others: false,
            strict: false,
        };
        for word in way.strip_prefix("draw --log")?.split_whitespace() {
            let (name, value) = word.split_once('=').unwrap_or((word, ""));
            ask(&mut options, name, value)?;
        }
        Some(Pictured { options })
    }
}

/// Whether a log was drawn without want of memory, the only reason for which a vector refuses a write.
fn has_ended(drawn: &Drawn) -> bool {
    match drawn.fault {
        None => true,
        Some(fault) => { fault.cause != Cause::OutOfMemory && fault.cause != Cause::WriteFailed }
    }
}

impl Runs for Pictured {
    fn run(&mut self, alloc: Global, piece: &[u8], shown: &mut Vec<u8>) -> io::Result<()> {
        let mut reader = piece;
        let mut errors = Vec::new(alloc);
        let drawn = draw_log(alloc, &self.options, &mut reader, shown, &mut errors);
        if !has_ended(&drawn) {
            return Err(no_memory());
        }
        if let Some(fault) = drawn.fault {
            writeln!(errors, "{fault}")?;
        }
        let counts = drawn.counts;
        writeln!(errors, "{counts}")?;
        show_end(shown, errors.as_slice(), drawn.status())
    }
}
