//! The words of `draw`.
use crate::node::{first_of, interface};
use crate::numbers::{pair, time};
use crate::parts::{Form, Row, described};
use crate::refused::{Refused, refuse};
use clap::{ArgMatches, Command};
use std::alloc::{AllocError, Global};

/// What of a log is drawn.
#[derive(Debug, Drop)]
pub struct OfDrawing {
    /// The two addresses between which frames are drawn, and of those to all from either; none: of each node.
    pub pair: Option<(u8, u8)>,
    /// The first time, in microseconds.
    pub from: Option<u64>,
    /// The last time, in microseconds.
    pub to: Option<u64>,
    /// The interface whose frames are drawn; none: that of the first frame which is drawn.
    pub interface: Option<String>,
    /// Whether frames are drawn too that carry nothing of a message.
    pub others: bool,
    /// Whether a wrong line ends the drawing; else it is reported, and the next line is read.
    pub strict: bool,
}

const DRAW_HELP: &str = "The script is drawn as the text of a Mermaid sequence diagram, which GitHub
shows as a picture. The stations are its participants. Each frame that a line
puts on the bus is an arrow, and packets that follow on one another share one.
Each message that a port is given is a note, and so is each outcome. Replies
aren't drawn. Each line of the script is drawn before the next one is read. If
something ends the run early, such as a wrong line, standard error says what.
With --log the files are logs as decode reads them. The frames of their
transports are drawn, each with its time. The other options need --log. A and B
are hexadecimal. SECONDS are those of the log, with up to six digits after the
point. Standard error has the wrong lines, and the counts at the end.

Examples:
  printf '%s\\n' 'stations 21 35' 'open 35 FECA 1785' \\
    'send 21 FF FECA 010203040506070809' 'drive 21 FF 3' | j1939bus draw
  j1939bus draw --log --pair 21-35 --from 12.5 --to 14 can0.log

Status:
  0  the script ran to its end, refused calls included, or a log was drawn
  1  a line is wrong, no frame of a log is drawn, a file can't be opened, or
     reading or writing failed
  2  the command line is refused, or asks for help

docs/SCRIPTS.md describes the language, docs/LOGS.md the drawing of a log.";

/// The arguments, in the order of the help.
const ROWS: [Row<'static>; 8] = [
    Row {
        form: Form::Flag,
        name: "log",
        value: "",
        help: "Draws logs of a bus",
    },
    Row {
        form: Form::LogValue,
        name: "pair",
        value: "A-B",
        help: "Only frames between these nodes, and from either to all, hexadecimal",
    },
    Row {
        form: Form::LogValue,
        name: "from",
        value: "SECONDS",
        help: "No frame before this time",
    },
    Row {
        form: Form::LogValue,
        name: "to",
        value: "SECONDS",
        help: "No frame after this time",
    },
    Row {
        form: Form::LogValue,
        name: "interface",
        value: "NAME",
        help: "Interface whose frames are drawn [default: that of the first frame]",
    },
    Row {
        form: Form::LogFlag,
        name: "all",
        value: "",
        help: "Also draws frames that belong to no message",
    },
    Row {
        form: Form::LogFlag,
        name: "strict",
        value: "",
        help: "Ends at the first wrong line",
    },
    Row {
        form: Form::Several,
        name: "files",
        value: "FILE",
        help: "Script, or logs in the order of their times, - for standard input [default: -]",
    },
];

/// The command as it is parsed, with its help.
pub(crate) fn draw_command<'a>(alloc: Global) -> Result<Command<'a>, AllocError> {
    described(
        alloc,
        "draw",
        "Runs a script and draws it as a sequence diagram, or draws a log",
        DRAW_HELP,
        &ROWS,
    )
}

/// The time that an argument names.
fn time_of(
    alloc: Global,
    matches: &ArgMatches,
    name: &str,
    option: &str,
) -> Result<Option<u64>, Refused> {
    let Some(word) = first_of(matches, name) else {
        return Ok(None);
    };
    match time(word.as_bytes()) {
        Some(time) => Ok(Some(time)),
        None => Err(refuse(
            alloc,
            option,
            word,
            "not seconds with up to six digits after the point",
        )),
    }
}

/// The pair that is named.
fn pair_of(alloc: Global, matches: &ArgMatches) -> Result<Option<(u8, u8)>, Refused> {
    let Some(word) = first_of(matches, "pair") else {
        return Ok(None);
    };
    match pair(word.as_bytes()) {
        Some(pair) => Ok(Some(pair)),
        None => Err(refuse(
            alloc,
            "--pair",
            word,
            "not two hexadecimal addresses with a hyphen between them",
        )),
    }
}

/// What its words ask for, if logs are drawn.
fn read_log(alloc: Global, matches: &ArgMatches) -> Result<OfDrawing, Refused> {
    Ok(OfDrawing {
        pair: pair_of(alloc, matches)?,
        from: time_of(alloc, matches, "from", "--from")?,
        to: time_of(alloc, matches, "to", "--to")?,
        interface: interface(alloc, matches)?,
        others: matches.get_flag("all"),
        strict: matches.get_flag("strict"),
    })
}

/// What of a log is drawn; none: a script is. A script is one file.
pub(crate) fn read_draw(alloc: Global, matches: &ArgMatches) -> Result<Option<OfDrawing>, Refused> {
    if matches.get_flag("log") {
        return Ok(Some(read_log(alloc, matches)?));
    }
    let Some(second) = matches.get_strs("files").unwrap_or(&[]).get(1) else {
        return Ok(None);
    };
    let second = *second;
    Err(Refused::Word(format!(in alloc;
        "unexpected argument '{second}' found: a script is one file"
    )?))
}
