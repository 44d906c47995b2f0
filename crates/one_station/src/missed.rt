//! Frames that were missed.
ghost use Rattle.std.specs.Prelude.{◌≡◌, false, IsOk, OnOk, OnErr};
ghost use Rattle.std.specs.Bool.{OnTrue, OnFalse};
ghost use Rattle.segment_law.specs.Calls.{called};
ghost use Rattle.one_station.specs.Answers.{IsAnswered, IsMissed, IsCaughtUp, IsReady, IsUnready, has_frame, overruns};

use crate::error::{Missed, NodeError};
use crate::node::Node;
use segment_core::Call;

impl Node {
    /// Frames of the bus were lost: the driver didn't get them, or the node wasn't given them. Call it before a later frame is fed.
    /// Each message that is being received ends, and each connection with its outcome, `Overrun`: else a message could be joined from
    /// the packets of two.
    ///
    /// If that finds no memory, as it may if several connections are under way, the node remembers it (`Missed::Waits`): each `feed`
    /// and each `sent` tries it first.
    pub fn missed(&mut self) -> Missed
        ensures { IsMissed self.old self.new result }
    {
        match self.catch_up() {
            Ok(()) => Missed::Ended,
            Err(_) => {
                self.has_missed = true;
                Missed::Waits
            }
        }
    }

    /// Ends what was under way when frames were missed, if that is remembered. Returns whether nothing of it is left.
    #[tactic(auto, using(crate::proofs::Made::ready_at_once, crate::proofs::Made::ready_then))]
    pub(crate) fn make_ready(&mut self) -> bool
        ensures ready { OnTrue result (IsReady self.old self.new) }
        ensures unready { OnFalse result (IsUnready self.old self.new) }
    {
        if !self.is_behind() {
            self.has_looked();
            return true;
        }
        match self.catch_up() {
            Ok(()) => {
                self.has_looked();
                true
            }
            Err(_) => false,
        }
    }

    // Whether what was under way when frames were missed has yet to end.
    fn is_behind(&self) -> bool
        ensures { result ≡ self.now.has_missed }
    {
        self.has_missed
    }

    // What is under way ends.
    fn end_all(&mut self) -> Result<(), NodeError>
        ensures { IsAnswered self.old (overruns self.old) self.new result }
    {
        let station = self.address;
        self.make(Call::Overrun { station, n: 0 })
    }

    // What was under way when frames were missed ends, and isn't remembered any more.
    #[tactic(auto, using(crate::proofs::Made::did_caught_up))]
    fn catch_up(&mut self) -> Result<(), NodeError>
        ensures done { OnOk result (IsCaughtUp self.old self.new) }
        ensures other { OnErr result (IsOk (called self.old.segment (overruns self.old)) × (self.new ≡ self.old)) }
    {
        self.has_looked();
        self.may_miss();
        match self.end_all() {
            Ok(()) => {
                self.has_missed = false;
                Ok(())
            }
            Err(error) => Err(error),
        }
    }

    // No frame waits to be looked at.
    fn has_looked(&self)
        ensures { has_frame self.now ≡ false }
    {
        let _read = self.address;
    }

    // Ending what is under way isn't refused.
    fn may_miss(&self)
        ensures { IsOk (called self.now.segment (overruns self.now)) }
    {
        let _read = self.address;
    }
}
