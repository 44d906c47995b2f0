//! What of a log is asked for.
ghost use Rattle.std.specs.Prelude.{◌≡◌, [], ◌∷◌, ◌++◌, OnOk};
ghost use Rattle.bus_decode.specs.Options.{is_among, takes, is_asked_for, is_told_asked, shows, sums_up, shows_singles, is_single_asked, follows, detail_of};

use log_reports::{Detail, Told, has_form, key_told, pgn_told};
use pgn_ids::{Address, Pgn};
use std::alloc::{AllocError, Global};
use std::marker::Model;

/// Numbers that are asked for. If none is named, each is.
#[derive(Drop)]
pub struct Wanted {
    named: Vec<u32>,
}

impl Model for Wanted {
    ghost use Rattle.std.specs.Prelude.{List, ℕ};

    ghost Value = { List ℕ };

    ghost view = { λ w. w.named.items };
}

fn is_among(named: &[u32], n: u32) -> bool
    ensures { result ≡ is_among named.now n }
{
    for one in named {
        if *one == n {
            return true;
        }
    }
    false
}

impl Wanted {
    /// None is named. It takes no memory.
    pub fn all(alloc: Global) -> Wanted
        ensures { result ≡ [] }
    {
        Wanted {
            named: Vec::new(alloc),
        }
    }

    /// Names one more.
    pub fn name(&mut self, n: u32) -> Result<(), AllocError>
        ensures { OnOk result (self.new ≡ self.old ++ n ∷ []) }
    {
        self.named.push(n)?;
        Ok(())
    }

    /// Whether this one is asked for.
    pub fn takes(&self, n: u32) -> bool
        ensures { result ≡ takes self.now n }
    {
        self.named.is_empty() || is_among(self.named.as_slice(), n)
    }
}

/// What of a log is printed and counted.
#[derive(Drop)]
pub struct Options {
    /// Messages of these PGNs.
    pub pgns: Wanted,
    /// Messages from these addresses.
    pub from: Wanted,
    /// Messages to these addresses, 255 for those to all.
    pub to: Wanted,
    /// The longest message that is put together, in bytes.
    pub most: u32,
    /// Whether frames that carry nothing of a message are printed too: those that aren't of a transport, Requests and Acknowledgements.
    pub singles: bool,
    /// Whether a wrong line ends the run; else it is reported, and the next line is read.
    pub strict: bool,
    /// Whether each line is a JSON object.
    pub json: bool,
    /// Whether the frames of each message are listed, except its packets.
    pub frames: bool,
    /// Whether messages whose form is known are shown in words too, and single frames that have such a message.
    pub explain: bool,
    /// Whether the ends of the messages are counted, and printed as a table at the end of the log.
    pub summary: bool,
    /// Whether neither messages nor frames are printed.
    pub quiet: bool,
}

impl Options {
    /// Whether a message of this PGN between these addresses is asked for.
    pub fn ask_for(&self, from: Address, to: Address, pgn: Pgn) -> bool
        ensures { result ≡ is_asked_for self.now from to pgn }
    {
        self.pgns.takes(pgn.raw())
            && self.from.takes(u32::from(from.0))
            && self.to.takes(u32::from(to.0))
    }

    /// Whether a report is asked for.
    pub fn ask_for_told(&self, told: &Told) -> bool
        ensures { result ≡ is_told_asked self.now told.now }
    {
        let key = key_told(told);
        self.ask_for(key.from, key.to, pgn_told(told))
    }

    /// Whether a report is printed.
    pub fn shows(&self, told: &Told) -> bool
        ensures { result ≡ shows self.now told.now }
    {
        !self.quiet && self.ask_for_told(told)
    }

    /// Whether a report is counted in a summary.
    pub fn sums_up(&self, told: &Told) -> bool
        ensures { result ≡ sums_up self.now told.now }
    {
        self.summary && self.ask_for_told(told)
    }

    /// Whether frames that carry nothing of a message are looked at.
    pub fn shows_singles(&self) -> bool
        ensures { result ≡ shows_singles self.now }
    {
        (self.singles || self.explain) && !self.quiet
    }

    /// Whether a frame of this PGN that carries nothing of a message is asked for.
    pub fn ask_for_single(&self, pgn: Pgn) -> bool
        ensures { result ≡ is_single_asked self.now pgn }
    {
        self.singles || (self.explain && has_form(pgn))
    }

    /// Whether the courses of messages are followed.
    pub fn follows(&self) -> bool
        ensures { result ≡ follows self.now }
    {
        self.json || self.frames || self.summary
    }

    /// What is kept of each course.
    pub fn detail(&self) -> Detail
        ensures { result ≡ detail_of self.now }
    {
        if self.frames {
            Detail::Frames
        } else {
            Detail::Ends
        }
    }
}
