//! The frames of a log that belong to no message.
ghost use Rattle.std.specs.Prelude.{◌≡◌, Some};
ghost use Rattle.std.specs.Fmt.{DisplaysOnOk};
ghost use Rattle.bus_decode.specs.Strays.{no_strays, with_stray, number_text, parts_text, ends_text, strays_text};

use crate::counts::more;
use log_reports::Stray;
use std::fmt;

/// The frames of a transport that belong to no message, by their kind. A number that would pass 2^64 - 1 stays there.
#[derive(Clone, Copy, PartialEq, Eq)]
pub struct Strays {
    /// Packets.
    pub packets: u64,
    /// CTS and data packet offsets.
    pub windows: u64,
    /// End acknowledgements.
    pub acknowledgements: u64,
}

impl Strays {
    /// There was none.
    pub fn none() -> Strays
        ensures { result ≡ no_strays }
    {
        Strays {
            packets: 0,
            windows: 0,
            acknowledgements: 0,
        }
    }

    /// Counts a stray frame, if one was seen.
    pub fn add(&mut self, stray: Option<Stray>)
        ensures { self.new ≡ with_stray stray self.old }
    {
        match stray {
            None => {}
            Some(Stray::Packet) => self.packets = more(self.packets),
            Some(Stray::Window) => self.windows = more(self.windows),
            Some(Stray::Acknowledgement) => self.acknowledgements = more(self.acknowledgements),
        }
    }
}

/// A number behind its name.
pub(crate) fn put_number<W: fmt::Write>(
    f: &mut fmt::Formatter<W>,
    name: &str,
    n: u64,
) -> fmt::Result
    ensures { DisplaysOnOk W.write_str_gives f.old result (Some (number_text name.now n)) f.new }
{
    write!(f, "{name}{n}")
}

/// What parts of messages there were.
fn put_parts<W: fmt::Write>(strays: &Strays, f: &mut fmt::Formatter<W>) -> fmt::Result
    ensures { DisplaysOnOk W.write_str_gives f.old result (Some (parts_text strays.now)) f.new }
{
    let (packets, windows) = (strays.packets, strays.windows);
    write!(f, "stray packets {packets} windows {windows}")
}

/// What ends of messages there were.
fn put_ends<W: fmt::Write>(strays: &Strays, f: &mut fmt::Formatter<W>) -> fmt::Result
    ensures { DisplaysOnOk W.write_str_gives f.old result (Some (ends_text strays.now)) f.new }
{
    let acknowledgements = strays.acknowledgements;
    write!(f, " acknowledgements {acknowledgements}")
}

impl fmt::Display for Strays {
    ghost output = { λ s. Some (strays_text s) };

    fn fmt<W: fmt::Write>(&self, f: &mut fmt::Formatter<W>) -> fmt::Result {
        put_parts(self, f)?;
        put_ends(self, f)
    }
}
