//! Commands to the station.
ghost use Rattle.std.specs.Prelude.{◌≡◌, ◌≤◌, ◌++◌, OnOk};
ghost use Rattle.script_text.specs.Parts.{line};
ghost use Rattle.script_text.specs.Replies.{refusal_text};
ghost use Rattle.script_text.specs.Counts.{counts_line};
ghost use Rattle.segment_law.specs.declared.call.Call.TheVariants.{Open, Close, Pause, Resume, Send, Cancel};
ghost use Rattle.bus_node.specs.Node.{told, asked};
ghost use Rattle.bus_node.specs.LaneCounts.{lane_counts_text};
ghost use Rattle.bus_node.specs.Acting.{due_text, state_line, missing, starting_line, sending, commanded};

use crate::node::Node;
use message_events::{Bytes, Events};
use node_lines::NodeCommand;
use one_station::Missed;
use pgn_ids::{Address, Pgn};
use port_table::PortId;
use script_text::{print_counts, print_refused};
use segment_core::{Refusal, Reply};
use std::alloc::AllocError;
use text_digits::put_decimal;

fn put_due(out: &mut Vec<u8>, due: Option<u64>) -> Result<(), AllocError>
    ensures { OnOk result (out.new.items ≡ out.old.items ++ due_text due) }
{
    match due {
        None => out.extend_from_slice(b"none"),
        Some(tick) => put_decimal(out, tick),
    }
}

// The counts of lanes, each behind a blank.
#[tactic(auto, unfolding(crate::specs::LaneCounts::lane_counts_text))]
fn put_lane_counts(out: &mut Vec<u8>, doubted: u64, pending: u64) -> Result<(), AllocError>
    ensures { OnOk result (out.new.items ≡ out.old.items ++ lane_counts_text doubted pending) }
{
    out.push(b' ')?;
    put_decimal(out, doubted)?;
    out.push(b' ')?;
    put_decimal(out, pending)
}

// The line of a message that isn't sent before this tick.
#[tactic(auto, unfolding(crate::specs::Acting::starting_line))]
fn put_starting(out: &mut Vec<u8>, tick: u64) -> Result<(), AllocError>
    ensures { OnOk result (out.new.items ≡ out.old.items ++ starting_line tick) }
{
    out.extend_from_slice(b"starting ")?;
    put_decimal(out, tick)?;
    out.push(b'\n')?;
    Ok(())
}

impl Node {
    // The line of its state.
    #[tactic(auto, unfolding(crate::specs::Acting::state_line))]
    fn print_state(&mut self) -> Result<(), AllocError>
        ensures { OnOk result (self.new ≡ told self.old (state_line self.old)) }
    {
        let due = self.next_due();
        let lanes = self.lane_counts();
        self.text.extend_from_slice(b"state ")?;
        put_decimal(&mut self.text, self.station.now())?;
        self.text.push(b' ')?;
        put_decimal(&mut self.text, self.station.queue_len() as u64)?;
        self.text.push(b' ')?;
        put_due(&mut self.text, due)?;
        put_lane_counts(&mut self.text, lanes.doubted, lanes.pending)?;
        self.text.push(b'\n')?;
        Ok(())
    }

    // The line of what it counted.
    fn print_counted(&mut self) -> Result<(), AllocError>
        ensures { OnOk result (self.new ≡ told self.old (counts_line self.old.station.segment.counts)) }
    {
        print_counts(&mut self.text, self.station.counts())
    }

    // The line of a value that is refused.
    fn refuse(&mut self, cause: Refusal) -> Result<(), AllocError>
        ensures { OnOk result (self.new ≡ told self.old (line (refusal_text cause))) }
    {
        print_refused(&mut self.text, cause)
    }

    fn open_port(&mut self, pgn: Pgn, max_len: u32) -> Result<(), AllocError>
        ensures { OnOk result (self.new ≡ asked self.old (Open self.old.station.address pgn max_len)) }
    {
        match self.station.open_port(pgn, max_len) {
            Ok(port) => self.reply(&Reply::Opened(port)),
            Err(error) => self.refuse_by(error),
        }
    }

    // The port of its station with this number.
    fn port(&self, number: u64) -> PortId
        ensures { result ≡ record { station = self.now.station.address; number = number } }
    {
        PortId {
            station: self.station.address(),
            number,
        }
    }

    fn close_port(&mut self, port: PortId) -> Result<(), AllocError>
        ensures { OnOk result (self.new ≡ asked self.old (Close port)) }
    {
        let made = self.station.close_port(port);
        self.reply_to(made)
    }

    fn pause_port(&mut self, port: PortId) -> Result<(), AllocError>
        ensures { OnOk result (self.new ≡ asked self.old (Pause port)) }
    {
        let made = self.station.pause_port(port);
        self.reply_to(made)
    }

    fn resume_port(&mut self, port: PortId) -> Result<(), AllocError>
        ensures { OnOk result (self.new ≡ asked self.old (Resume port)) }
    {
        let made = self.station.resume_port(port);
        self.reply_to(made)
    }

    // A message is sent, if the program didn't start again a short time ago.
    fn send_message(&mut self, to: Address, pgn: Pgn, bytes: Bytes) -> Result<(), AllocError>
        ensures { OnOk result (self.new ≡ sending self.old to pgn bytes) }
    {
        let from = self.station.sends_from();
        if self.station.now() < from {
            return put_starting(&mut self.text, from);
        }
        self.send_now(to, pgn, bytes)
    }

    fn send_now(&mut self, to: Address, pgn: Pgn, bytes: Bytes) -> Result<(), AllocError>
        requires { self.old.station.quiet_until ≤ self.old.station.segment.now }
        ensures { OnOk result (self.new ≡ asked self.old (Send self.old.station.address to pgn bytes)) }
    {
        match self.station.send_bytes(to, pgn, bytes) {
            Ok(number) => self.reply(&Reply::Sent(number)),
            Err(error) => self.refuse_by(error),
        }
    }

    fn cancel(&mut self, to: Address, number: u64) -> Result<(), AllocError>
        ensures { OnOk result (self.new ≡ asked self.old (Cancel self.old.station.address to number)) }
    {
        let made = self.station.cancel(to, number);
        self.reply_to(made)
    }

    // Frames were missed: what is under way ends. If that finds no memory, the station remembers it.
    fn report_missed(&mut self) -> Result<(), AllocError>
        ensures { OnOk result (self.new ≡ missing self.old) }
    {
        match self.station.missed() {
            Missed::Ended => {
                let done = Reply::Done(Events::none(self.alloc));
                self.reply(&done)
            }
            Missed::Waits => Err(AllocError),
        }
    }

    /// A command to the station.
    #[tactic(auto, unfolding(crate::specs::Acting::commanded))]
    pub(crate) fn command(&mut self, command: NodeCommand) -> Result<(), AllocError>
        ensures { OnOk result (self.new ≡ commanded self.old command) }
    {
        match command {
            NodeCommand::Send { to, pgn, bytes } => self.send_message(to, pgn, bytes),
            NodeCommand::Open { pgn, max_len } => self.open_port(pgn, max_len),
            NodeCommand::Close { number } => self.close_port(self.port(number)),
            NodeCommand::Pause { number } => self.pause_port(self.port(number)),
            NodeCommand::Resume { number } => self.resume_port(self.port(number)),
            NodeCommand::Cancel { to, number } => self.cancel(to, number),
            NodeCommand::Missed => self.report_missed(),
            NodeCommand::Counts => self.print_counted(),
            NodeCommand::State => self.print_state(),
            NodeCommand::Refused(cause) => self.refuse(cause),
        }
    }
}
