//! Most calls that are made, in eight bytes.
ghost use Rattle.std.specs.Prelude.{◌≡◌, List, IfSome, IfOk, IfErr, true};
ghost use Rattle.segment_law.specs.declared.call.Call.TheVariants.{Tick};
ghost use Rattle.stored_calls.specs.Lists.{made_of, nobodys, is_brief, IsPlace, IsWithin};

use crate::stored::Stored;
use pgn_ids::Address;
use segment_law::Call;

/// A call without an owner that names little, or the place of any other among those that are kept whole.
#[derive(Clone, Copy, Debug)]
pub(crate) enum Short {
    Pump { station: Address, to: Address },
    Transmit { station: Address },
    Take { station: Address, room: bool },
    TakeAgain { station: Address, room: bool },
    Tick { n: u32 },
    Fire { station: Address },
    Whole { at: u32 },
}

impl Short {
    /// A call in eight bytes, if it has its place there.
    #[inline(always)]
    pub(crate) fn of(stored: &Stored) -> Option<Short>
        ensures made { IfSome result (λ s. (ws : List Stored) → made_of ws s ≡ stored.now) }
        ensures placeless { IfSome result (λ s. IsWithin 0 s) }
    {
        if stored.by.is_some() {
            return None;
        }
        match &stored.call {
            Call::Pump { station, to } => Some(Short::Pump {
                station: *station,
                to: *to,
            }),
            Call::Transmit { station } => Some(Short::Transmit { station: *station }),
            Call::Take { station, room } => Some(Short::Take {
                station: *station,
                room: *room,
            }),
            Call::TakeAgain { station, room } => Some(Short::TakeAgain {
                station: *station,
                room: *room,
            }),
            Call::Tick { n } => Short::ticks(*n),
            Call::Fire { station } => Some(Short::Fire { station: *station }),
            _ => None,
        }
    }

    // A Tick of so many ticks, if they fit.
    #[inline(always)]
    fn ticks(n: u64) -> Option<Short>
        ensures made { IfSome result (λ s. (ws : List Stored) → made_of ws s ≡ nobodys (Tick n)) }
        ensures placeless { IfSome result (λ s. IsWithin 0 s) }
    {
        if n > u64::from(u32::MAX) {
            return None;
        }
        Some(Short::Tick { n: n as u32 })
    }

    /// The call, or the place at which it is kept whole.
    pub(crate) fn call(self) -> Result<Call, usize>
        ensures made { IfOk result (λ call. (ws : List Stored) → made_of ws self ≡ nobodys call) }
        ensures brief { IfOk result (λ call. is_brief call ≡ true) }
        ensures place { IfErr result (λ at. IsPlace at self) }
    {
        match self {
            Short::Pump { station, to } => Ok(Call::Pump { station, to }),
            Short::Transmit { station } => Ok(Call::Transmit { station }),
            Short::Take { station, room } => Ok(Call::Take { station, room }),
            Short::TakeAgain { station, room } => Ok(Call::TakeAgain { station, room }),
            Short::Tick { n } => Ok(Call::Tick { n: u64::from(n) }),
            Short::Fire { station } => Ok(Call::Fire { station }),
            Short::Whole { at } => Err(at as usize),
        }
    }
}
