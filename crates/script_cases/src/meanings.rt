//! The ways in which the lines of a case are read, and how what each means is shown.
use crate::runs::{Runs, no_memory};
use command_line::read_command_line;
use line_faults::LineError;
use log_text::{Form, form_of, read_line_as, read_log_line};
use node_lines::read_node_line;
use script_commands::{read_command, split_words};
use std::alloc::Global;
use std::fmt::Debug;
use std::io;
use std::io::{ErrorKind, Write};

/// Each piece is lines. Each of them is shown, and below it what it means.
#[derive(Drop)]
pub(crate) enum Lines {
    OfScript,
    OfNode,
    OfLog,
    /// Of a log whose lines have this form.
    OfForm(Form),
    /// Words of the command line.
    OfWords,
}

/// How an empty word of the command line is written.
const EMPTY: &str = "''";

/// What the command line is answered by if there is no memory.
const NO_MEMORY: &str = "error: out of memory\n";

/// Shows what a line means, or its fault.
fn show_meaning<M: Debug + Drop>(
    meaning: Result<M, LineError>,
    shown: &mut Vec<u8>,
) -> io::Result<()> {
    match meaning {
        Ok(meaning) => writeln!(shown, "  {meaning:?}"),
        Err(LineError::Fault(fault)) => writeln!(shown, "  fault: {fault}"),
        Err(LineError::OutOfMemory) => Err(no_memory()),
    }
}

fn show_command(alloc: Global, line: &str, shown: &mut Vec<u8>) -> io::Result<()> {
    let words = split_words(alloc, line.as_bytes())?;
    let [name, rest @ ..] = words.as_slice() else {
        return writeln!(shown, "  no word");
    };
    show_meaning(read_command(alloc, *name, rest), shown)
}

fn show_line_of(form: Form, line: &str, shown: &mut Vec<u8>) -> io::Result<()> {
    let meaning = read_line_as(Some(form), line.as_bytes());
    writeln!(shown, "  {:?} {meaning:?}", form_of(line.as_bytes()))
}

/// The words of a line, with one space between each two.
fn words_of(alloc: Global, line: &str) -> io::Result<Vec<String>> {
    let mut words = Vec::new(alloc);
    for word in line.split(' ') {
        let word = if word == EMPTY { "" } else { word };
        words.push(format!(in alloc; "{word}")?)?;
    }
    Ok(words)
}

/// Shows what words ask for, or the text that answers them.
fn show_asked(alloc: Global, line: &str, shown: &mut Vec<u8>) -> io::Result<()> {
    let words = words_of(alloc, line)?;
    let text = match read_command_line(alloc, words.as_slice()) {
        Ok(asked) => return writeln!(shown, "  {asked:?}"),
        Err(error) => format!(in alloc; "{error}")?,
    };
    if text.as_str() == NO_MEMORY {
        return Err(no_memory());
    }
    shown.extend_from_slice(text.as_bytes())?;
    Ok(())
}

impl Lines {
    /// The lines that are read in this way, if it is one to read lines.
    pub(crate) fn in_way(way: &str) -> Option<Lines> {
        match way {
            "lines of a script" => Some(Lines::OfScript),
            "lines of a node" => Some(Lines::OfNode),
            "lines of a log" => Some(Lines::OfLog),
            "lines of a timed log" => Some(Lines::OfForm(Form::Timed)),
            "lines of an untimed log" => Some(Lines::OfForm(Form::Untimed)),
            "words" => Some(Lines::OfWords),
            _ => None,
        }
    }

    /// Shows what a line means.
    fn show(&self, alloc: Global, line: &str, shown: &mut Vec<u8>) -> io::Result<()> {
        match self {
            Lines::OfScript => show_command(alloc, line, shown),
            Lines::OfNode => show_meaning(read_node_line(alloc, line.as_bytes()), shown),
            Lines::OfLog => writeln!(shown, "  {:?}", read_log_line(line.as_bytes())),
            Lines::OfForm(form) => show_line_of(*form, line, shown),
            Lines::OfWords => show_asked(alloc, line, shown),
        }
    }
}

impl Runs for Lines {
    fn run(&mut self, alloc: Global, piece: &[u8], shown: &mut Vec<u8>) -> io::Result<()> {
        let Ok(piece) = str::from_utf8(piece) else {
            return Err(io::Error::from(ErrorKind::InvalidData));
        };
        for line in piece.strip_suffix('\n').unwrap_or(piece).split('\n') {
            writeln!(shown, "{line}")?;
            self.show(alloc, line, shown)?;
        }
        Ok(())
    }
}
