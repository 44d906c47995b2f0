//! Driving one lane.
ghost use Rattle.std.specs.Prelude.{◌≡◌, ◌≢◌, ◌++◌, List, length};
ghost use Rattle.pgn_ids.specs.declared.address.Address.{Address};
ghost use Rattle.lane_core.specs.declared.message.Pending.{Pending};
ghost use Rattle.segment_law.specs.Record.{Record, StandsAt};
ghost use Rattle.segment_law.specs.Quiet.{quiet, IsQuiet};
ghost use Rattle.segment_law.specs.Drive.{driven};
ghost use Rattle.segment_law.specs.declared.end.DriveEnd.TheVariants as end;
ghost use Rattle.segment_core.specs.Drives.{IsDriven, IsBegun};
ghost use Rattle.segment_core.specs.Promise.{KeepsPromise};
ghost use Rattle.segment_core.specs.Undisturbed.{IsQuietDrive};

use crate::driving::drive;
use crate::segment::Segment;
use connection_law::the_headline_holds;
use drive_course::Driven;
use exchange_law::messages_are_undisturbed;
use pgn_ids::Address;

impl Segment {
    /// Drives the lane from a station to a destination for at most so many turns, and returns the frames put and the events.
    ///
    /// One turn: if the queue of `from` isn't empty, it transmits. Else if `to` is a station whose queue isn't empty, that one
    /// transmits. Else the lane is pumped, after a Tick of what is missing to the 50 ticks between the frames of a broadcast, and
    /// `from` transmits. Then every station, by rising address, takes with room until no frame waits for it.
    ///
    /// It ends after its turns; as idle if the lane has nothing to queue; at another refusal; or at a call that isn't refused but
    /// lacks memory, which then wasn't made. A turn counts once its frame is put.
    ///
    /// If nothing disturbs the first message of a lane, a drive of as many turns as its exchange has frames puts exactly these, gives
    /// the message at each port that takes it, reports that it was acknowledged or broadcast, and leaves all at rest (SAE J1939-21;
    /// ISO 11783-3).
    pub fn drive(&mut self, from: Address, to: Address, turns: u64) -> Driven
        ensures done { result.end ≢ end.OutOfMemory → IsDriven (driven self.old from to turns) self.new result }
        ensures begun { result.end ≡ end.OutOfMemory → IsBegun (driven self.old from to turns) self.old self.new result }
        ensures stands { (addresses : List Address) (steps : Record) → StandsAt addresses steps self.old → result.end ≢ end.OutOfMemory
            → StandsAt addresses (steps ++ (driven self.old from to turns).calls) self.new }
        ensures undisturbed { (addresses : List Address) (steps : Record) (m : Pending) → StandsAt addresses steps self.old
            → IsQuiet self.old from to m → turns ≡ length (quiet m from to) → result.end ≢ end.OutOfMemory
            → IsQuietDrive self.old from to m self.new result }
        ensures headline { KeepsPromise self.new }
    {
        // Laws, for the last two clauses: these calls do nothing.
        messages_are_undisturbed();
        the_headline_holds();
        drive(self.alloc, &mut self.state, from, to, turns)
    }
}
