//! One call on a segment, for a caller that has many of them in one function.
ghost use Rattle.std.specs.Prelude.{◌≡◌, [], IsErrOf};
ghost use Rattle.segment_law.specs.Calls.{called};
ghost use Rattle.segment_state.specs.Answers.{IsMade, IsSilent};
ghost use Rattle.segment_state.specs.Memory.{MayAskMemory};

use crate::call::done;
use crate::made::Made;
use crate::state::SegmentState;
use crate::stop::Stop;
use segment_law::Call;
use station_core::Events;

impl SegmentState {
    /// `call`, of which nothing is inlined. It names each call anew: by way of `call` it would grow too large to be inlined itself.
    #[inline(always)]
    #[tactic(auto, unfolding(segment_law::specs::Calls::called))]
    pub fn call_apart(&mut self, call: Call, told: &mut Events) -> Result<Made, Stop>
        requires { told.old ≡ [] }
        ensures answer { IsMade (called self.old call) self.old self.new told.new result }
        ensures silent { IsSilent told.new result }
        ensures memory { IsErrOf result Stop.OutOfMemory → MayAskMemory self.old call }
    {
        match call {
            Call::Open {
                station,
                pgn,
                max_len,
            } => self.open(station, pgn, max_len),
            Call::Close { port } => self.close(port),
            Call::Send {
                from,
                to,
                pgn,
                bytes,
            } => self.send(from, to, pgn, bytes),
            Call::Pump { station, to } => done(self.pump(station, to, told)),
            Call::Transmit { station } => done(self.transmit(station)),
            Call::Take { station, room } => done(self.take(station, room, told)),
            Call::TakeAgain { station, room } => done(self.take_again(station, room, told)),
            Call::Overrun { station, n } => done(self.overrun(station, n, told)),
            Call::Tick { n } => self.tick(n),
            Call::Fire { station } => done(self.fire(station, told)),
            Call::Cancel { from, to, number } => done(self.cancel(from, to, number, told)),
            Call::Inject { frame } => done(self.inject(frame)),
            Call::Pause { port } => self.pause(port),
            Call::Resume { port } => self.resume(port),
        }
    }
}
