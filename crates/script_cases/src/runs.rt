//! The ways in which the pieces of a case are run, and how what they write is shown.
use bus_node::{LineCounts, Node, run_node};
use bus_script::{Cause, Ran, ScriptFault, run_logged, run_script};
use log_text::Iface;
use pgn_ids::Address;
use script_drawing::draw_script;
use std::alloc::Global;
use std::io;
use std::io::{ErrorKind, Write};

/// Runs the pieces of a case, one after another.
pub(crate) trait Runs: Drop {
    /// Runs a piece, and puts behind `shown` what it writes: standard output, standard error below a line `--` if it has any, and the status,
    /// if that isn't 0. If it finds no memory, what it puts there is a front of that.
    fn run(&mut self, alloc: Global, piece: &[u8], shown: &mut Vec<u8>) -> io::Result<()>;
}

/// Puts standard error, and the status, behind what was written.
pub(crate) fn show_end(shown: &mut Vec<u8>, errors: &[u8], status: u8) -> io::Result<()> {
    if !errors.is_empty() {
        shown.extend_from_slice(b"--\n")?;
        shown.extend_from_slice(errors)?;
    }
    if status != 0 {
        writeln!(shown, "status {status}")?;
    }
    Ok(())
}

/// How a run ended.
#[derive(Clone, Copy)]
struct End {
    fault: Option<ScriptFault>,
    memory_refused: bool,
    status: u8,
    /// What was counted of a node's input, if lines of it were wrong.
    counts: Option<LineCounts>,
}

fn end_of(ran: &Ran) -> End {
    End {
        fault: ran.fault,
        memory_refused: ran.memory_refused,
        status: ran.status(),
        counts: None,
    }
}

fn end_of_node(ran: &bus_node::Ran) -> End {
    End {
        fault: ran.fault,
        memory_refused: ran.memory_refused,
        status: ran.status(),
        counts: if ran.counts.wrong == 0 {
            None
        } else {
            Some(ran.counts)
        },
    }
}

/// Whether a run ended without want of memory, the only reason for which a vector refuses a write. What was printed of a call that found none
/// isn't shown.
fn has_ended(end: &End, before: usize, shown: &mut Vec<u8>) -> bool {
    if end.memory_refused {
        shown.truncate(before);
        return false;
    }
    match end.fault {
        None => true,
        Some(fault) => { fault.cause != Cause::OutOfMemory && fault.cause != Cause::WriteFailed }
    }
}

pub(crate) fn no_memory() -> io::Error {
    io::Error::from(ErrorKind::OutOfMemory)
}

/// Puts the error output of a run behind what it wrote.
fn show_ran(end: &End, before: usize, errors: &mut Vec<u8>, shown: &mut Vec<u8>) -> io::Result<()> {
    if !has_ended(end, before, shown) {
        return Err(no_memory());
    }
    if let Some(counts) = end.counts {
        writeln!(errors, "{counts}")?;
    }
    if let Some(fault) = end.fault {
        writeln!(errors, "{fault}")?;
    }
    show_end(shown, errors.as_slice(), end.status)
}

/// Each piece is a script.
#[derive(Drop)]
pub(crate) struct Scripted;

impl Runs for Scripted {
    fn run(&mut self, alloc: Global, piece: &[u8], shown: &mut Vec<u8>) -> io::Result<()> {
        let before = shown.len();
        let mut reader = piece;
        let ran = run_script(alloc, &mut reader, shown);
        show_ran(&end_of(&ran), before, &mut Vec::new(alloc), shown)
    }
}

/// Each piece is a script whose frames are logged.
#[derive(Drop)]
pub(crate) struct Logged;

impl Runs for Logged {
    fn run(&mut self, alloc: Global, piece: &[u8], shown: &mut Vec<u8>) -> io::Result<()> {
        let before = shown.len();
        let mut errors = Vec::new(alloc);
        let mut reader = piece;
        let ran = run_logged(alloc, &mut reader, shown, &mut errors);
        show_ran(&end_of(&ran), before, &mut errors, shown)
    }
}

/// Each piece is a script that is drawn.
#[derive(Drop)]
pub(crate) struct Drawn;

impl Runs for Drawn {
    fn run(&mut self, alloc: Global, piece: &[u8], shown: &mut Vec<u8>) -> io::Result<()> {
        let before = shown.len();
        let mut reader = piece;
        let ran = draw_script(alloc, &mut reader, shown);
        show_ran(&end_of(&ran), before, &mut Vec::new(alloc), shown)
    }
}

/// The pieces are what a node of address 21 is given, one after another.
#[derive(Drop)]
pub(crate) struct Dialogue {
    node: Node,
}

/// For so many milliseconds after a connection failed, nothing is sent to its destination.
const QUIET: u64 = 700;

fn can0() -> io::Result<Iface> {
    match Iface::new(b"can0") {
        Ok(iface) => Ok(iface),
        Err(_) => Err(io::Error::from(ErrorKind::InvalidInput)),
    }
}

impl Dialogue {
    /// A node on can0.
    pub(crate) fn new(alloc: Global) -> io::Result<Dialogue> {
        match Node::new(alloc, Address(0x21), can0()?, QUIET) {
            Ok(node) => Ok(Dialogue { node }),
            Err(_) => Err(no_memory()),
        }
    }

    /// That of a program that starts again.
    pub(crate) fn again(alloc: Global) -> io::Result<Dialogue> {
        match Node::again(alloc, Address(0x21), can0()?, QUIET) {
            Ok(node) => Ok(Dialogue { node }),
            Err(_) => Err(no_memory()),
        }
    }

    /// A node that ends at a wrong line.
    pub(crate) fn strict(alloc: Global) -> io::Result<Dialogue> {
        let mut dialogue = Dialogue::new(alloc)?;
        dialogue.node.end_at_wrong_line();
        Ok(dialogue)
    }

    /// A node that joins the interface of the first frame.
    pub(crate) fn joining(alloc: Global) -> io::Result<Dialogue> {
        let mut dialogue = Dialogue::new(alloc)?;
        dialogue.node.join_first_interface();
        Ok(dialogue)
    }
}

impl Runs for Dialogue {
    fn run(&mut self, alloc: Global, piece: &[u8], shown: &mut Vec<u8>) -> io::Result<()> {
        let before = shown.len();
        let mut reader = piece;
        let ran = run_node(alloc, &mut self.node, &mut reader, shown);
        show_ran(&end_of_node(&ran), before, &mut Vec::new(alloc), shown)
    }
}
