//! Frames that a node put on the bus, and those with its own address that the bus shows.
ghost use Rattle.std.specs.Prelude.{◌≡◌, OnOk, drop, position};
ghost use Rattle.node_parts.specs.Echoes.{no_echoes, with_put, same_frame, is_of, is_silent, shown, sought, seen};

use bus_frame::Frame;
use std::alloc::{AllocError, Global};
use std::collections::VecDeque;
use std::marker::Model;

/// How many ticks pass at least from one conflict that is reported to the next.
const BETWEEN_CONFLICTS: u64 = 1000;

/// How many of the frames that it put a node remembers: as many as can be put that the bus hasn't shown. These are for each of 256 destinations
/// a window of 255 packets and the frame in front of it, since what follows waits for an answer to the last of them, and the 64 frames of a full
/// queue.
const MOST_UNSEEN: usize = 65_600;

/// What a node remembers of the frames that it put.
pub struct Echoes {
    // The frames that the bus hasn't shown since, the oldest first.
    unseen: VecDeque<Frame>,
    // The one of them that the bus showed last.
    last: Option<Frame>,
    // The tick before which no conflict of addresses is reported.
    silent_until: u64,
}

impl Model for Echoes {
    ghost use Rattle.node_parts.specs.Echoes.{Echoes};
    ghost use Rattle.node_parts.specs.EchoFields.{echoes_value};

    ghost Value = { Echoes };

    ghost view = { echoes_value };
}

impl Drop for Echoes {
    fn drop(self) {
        let Echoes {
            unseen: _,
            last: _,
            silent_until: _,
        } = self;
    }
}

fn is_same(a: &Frame, b: &Frame) -> bool
    ensures { result ≡ same_frame a.now b.now }
{
    a.id().raw() == b.id().raw() && a.bytes() == b.bytes()
}

// Whether a frame is the one that was put, if one was.
fn is_of(put: Option<Frame>, frame: &Frame) -> bool
    ensures { result ≡ is_of put frame.now }
{
    match put {
        None => false,
        Some(put) => is_same(&put, frame),
    }
}

// The place of the oldest frame that equals this one.
fn place_of(frames: &VecDeque<Frame>, frame: &Frame) -> Option<usize>
    ensures { result ≡ position (λ put. same_frame put frame.now) frames.now.items }
{
    frames.iter().position(|put| is_same(put, frame))
}

// Drops the oldest frames, which are no longer waited for.
fn drop_oldest(frames: &mut VecDeque<Frame>, count: usize)
    ensures { frames.new.items ≡ drop count frames.old.items }
{
    for _ in 0..count {
        let _dropped = frames.pop_front();
    }
}

impl Echoes {
    /// No frame was put.
    pub fn none(alloc: Global) -> Echoes
        ensures { result ≡ no_echoes }
    {
        Echoes {
            unseen: VecDeque::new(alloc),
            last: None,
            silent_until: 0,
        }
    }

    /// Makes the place for one more frame.
    pub fn reserve(&mut self) -> Result<(), AllocError>
        ensures { self.new ≡ self.old }
    {
        self.unseen.reserve(1)
    }

    /// A frame was put. It is remembered, and the oldest is forgotten if there are more than can be.
    pub fn put(&mut self, frame: Frame) -> Result<(), AllocError>
        ensures { OnOk result (self.new ≡ with_put self.old frame) }
    {
        if self.unseen.len() == MOST_UNSEEN {
            let _oldest = self.unseen.pop_front();
        }
        self.unseen.push_back(frame)?;
        Ok(())
    }

    // Whether a conflict was reported a short while ago.
    fn is_silent(&self, now: u64) -> bool
        ensures { result ≡ is_silent self.now now }
    {
        now < self.silent_until
    }

    // The bus showed the frame at this place. It shows them in their order, so those before it aren't waited for any more.
    fn show(&mut self, place: usize, frame: &Frame)
        ensures { self.new ≡ shown self.old place frame.now }
    {
        drop_oldest(&mut self.unseen, place);
        let _shown = self.unseen.pop_front();
        self.last = Some(*frame);
    }

    // A frame was seen that isn't the next one.
    fn seek(&mut self, now: u64, frame: &Frame) -> bool
        ensures { (self.new, result) ≡ sought self.old now frame.now }
    {
        match place_of(&self.unseen, frame) {
            None => {
                self.silent_until = now.saturating_add(BETWEEN_CONFLICTS);
                true
            }
            Some(place) => {
                self.show(place, frame);
                false
            }
        }
    }

    /// A frame with the node's own address was seen. Returns whether another node has that address, and this is to be reported, which it isn't
    /// for a thousand ticks after a report.
    ///
    /// A frame that isn't the next one is searched for only when a conflict would be reported. So a search finds a frame, and those before it
    /// are no longer waited for, or it is the only one of its second.
    pub fn see(&mut self, now: u64, frame: &Frame) -> bool
        ensures { (self.new, result) ≡ seen self.old now frame.now }
    {
        if is_of(self.unseen.front().copied(), frame) {
            self.show(0, frame);
            return false;
        }
        if is_of(self.last, frame) || self.is_silent(now) {
            return false;
        }
        self.seek(now, frame)
    }
}
