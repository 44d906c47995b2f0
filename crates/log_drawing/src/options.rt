//! What of a log is drawn.
ghost use Rattle.std.specs.Prelude.{◌≡◌};
ghost use Rattle.log_drawing.specs.Options.{is_between, is_of_pair, is_within, is_wanted};

use bus_frame::Frame;
use log_text::Iface;
use pgn_ids::{Address, read_id};
use tp_wire::is_transport;

/// Two nodes.
#[derive(Clone, Copy)]
pub struct Pair {
    /// The participant that is drawn first.
    pub first: Address,
    /// The other one.
    pub second: Address,
}

/// What of a log is drawn.
#[derive(Clone, Copy)]
pub struct Options {
    /// Frames between these two, in either direction, and from either of them to all; if none are named, those of all nodes.
    pub pair: Option<Pair>,
    /// No frame before this time, in microseconds. A frame without a time is drawn only if no time is named.
    pub from: Option<u64>,
    /// No frame behind this time, in microseconds.
    pub to: Option<u64>,
    /// Frames of this interface; if none is named, of that of the first frame which is drawn.
    pub iface: Option<Iface>,
    /// Whether frames are drawn too that are neither of a transport nor Requests nor Acknowledgements.
    pub others: bool,
    /// Whether a wrong line ends the drawing; else it is reported, and the next line is read.
    pub strict: bool,
}

/// Whether a frame goes from one node of a pair to the other, or from one of them to all.
fn is_between(pair: &Pair, from: Address, to: Address) -> bool
    ensures { result ≡ is_between pair.now from to }
{
    if from.0 == pair.first.0 {
        return to.0 == pair.second.0 || to.0 == 255;
    }
    from.0 == pair.second.0 && (to.0 == pair.first.0 || to.0 == 255)
}

impl Options {
    fn is_of_pair(&self, frame: &Frame) -> bool
        ensures { result ≡ is_of_pair self.now frame.now }
    {
        let meaning = read_id(frame.id());
        match &self.pair {
            None => true,
            Some(pair) => is_between(pair, meaning.from, meaning.to),
        }
    }

    fn is_within(&self, time: Option<u64>) -> bool
        ensures { result ≡ is_within self.now time }
    {
        match time {
            None => self.from.is_none() && self.to.is_none(),
            Some(time) => time >= self.from.unwrap_or(0) && time <= self.to.unwrap_or(u64::MAX),
        }
    }

    /// Whether a frame is asked for that was seen at this time.
    pub(crate) fn want(&self, time: Option<u64>, frame: &Frame) -> bool
        ensures { result ≡ is_wanted self.now time frame.now }
    {
        self.is_within(time) && self.is_of_pair(frame) && (self.others || is_transport(frame))
    }
}
