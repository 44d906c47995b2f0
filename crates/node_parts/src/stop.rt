//! Where a clock stops next.
ghost use Rattle.std.specs.Prelude.{◌≡◌};
ghost use Rattle.node_parts.specs.Stop.{next_stop};

/// Where a clock that goes on to a last tick stops next.
#[derive(Clone, Copy, Debug, PartialEq, Eq)]
pub enum Stop {
    /// At this tick a timer is due, which fires there.
    Timer(u64),
    /// No timer is due up to the last tick, which is ahead.
    Last,
    /// No timer is due, and the clock is at the last tick or past it.
    Here,
}

/// The next stop of a clock at the tick `now` on its way to the tick `last`, up to which the first timer is due at `due`.
pub fn next_stop(now: u64, due: Option<u64>, last: u64) -> Stop
    ensures { result ≡ next_stop now due last }
{
    match due {
        Some(tick) => Stop::Timer(tick),
        None => {
            if now >= last {
                return Stop::Here;
            }
            Stop::Last
        }
    }
}
