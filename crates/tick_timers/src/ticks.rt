//! Ticks from which on something is due.
ghost use Rattle.std.specs.Prelude.{◌≡◌, ℕ, Bool, max};
ghost use Rattle.std.specs.Option.{option_map};
ghost use Rattle.tick_timers.specs.Due.{earlier_of, IsDueFrom, IsNextFrom};

/// The earlier of two ticks, or the one that is there, or none.
pub fn earlier(tick: Option<u64>, other: Option<u64>) -> Option<u64>
    ensures { result ≡ earlier_of tick other }
{
    match (tick, other) {
        (None, other) => other,
        (Some(tick), None) => Some(tick),
        (Some(tick), Some(other)) => {
            if tick <= other {
                Some(tick)
            } else {
                Some(other)
            }
        }
    }
}

/// The tick from which on something is due that is due at each tick or never: 0, or none.
pub fn always(is_due: bool) -> Option<u64>
    ensures { IsDueFrom (λ _. is_due) result }
{
    if is_due { Some(0) } else { None }
}

/// The first tick from `now` on at which something is due: its tick, or `now` if that has passed.
pub fn not_before(now: u64, tick: Option<u64>) -> Option<u64>
    ensures value { result ≡ option_map (max now) tick }
    ensures next { (acts : ℕ → Bool) → IsDueFrom acts tick → IsNextFrom acts now result }
{
    match tick {
        None => None,
        Some(tick) if tick < now => Some(now),
        Some(tick) => Some(tick),
    }
}
