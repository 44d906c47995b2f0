//! One call on a segment: made, or why it isn't.
ghost use Rattle.std.specs.Prelude.{◌≡◌, [], IsErrOf};
ghost use Rattle.segment_law.specs.Calls.{called};
ghost use Rattle.segment_state.specs.Answers.{IsMade, IsSilent, done_unless};
ghost use Rattle.segment_state.specs.Memory.{MayAskMemory};

use crate::made::Made;
use crate::state::SegmentState;
use crate::stop::Stop;
use segment_law::Call;
use station_core::Events;

/// A call that may have events is done unless it is stopped.
#[inline(always)]
pub(crate) fn done(made: Result<(), Stop>) -> Result<Made, Stop>
    ensures { result ≡ done_unless made }
{
    match made {
        Ok(()) => Ok(Made::Done),
        Err(stop) => Err(stop),
    }
}

impl SegmentState {
    /// The call, or why it isn't done. The usual three are inlined, since who makes one names it; what any other does is made apart, so that
    /// the room for its values is taken by that call alone.
    #[inline(always)]
    #[tactic(auto, unfolding(segment_law::specs::Calls::called))]
    pub fn call(&mut self, call: Call, told: &mut Events) -> Result<Made, Stop>
        requires { told.old ≡ [] }
        ensures answer { IsMade (called self.old call) self.old self.new told.new result }
        ensures silent { IsSilent told.new result }
        ensures memory { IsErrOf result Stop.OutOfMemory → MayAskMemory self.old call }
    {
        match call {
            Call::Open {
                station,
                pgn,
                max_len,
            } => self.open(station, pgn, max_len),
            Call::Close { port } => self.close(port),
            Call::Send {
                from,
                to,
                pgn,
                bytes,
            } => self.send(from, to, pgn, bytes),
            Call::Pump { station, to } => done(self.pump_telling(station, to, told)),
            Call::Transmit { station } => done(self.transmit_here(station)),
            Call::Take { station, room } => done(self.take_telling(station, room, told)),
            Call::TakeAgain { station, room } => done(self.take_again(station, room, told)),
            Call::Overrun { station, n } => done(self.overrun(station, n, told)),
            Call::Tick { n } => self.tick(n),
            Call::Fire { station } => done(self.fire(station, told)),
            Call::Cancel { from, to, number } => done(self.cancel(from, to, number, told)),
            Call::Inject { frame } => done(self.inject(frame)),
            Call::Pause { port } => self.pause(port),
            Call::Resume { port } => self.resume(port),
        }
    }
}
