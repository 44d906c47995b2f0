//! The sight of a lane from outside.
ghost use Rattle.std.specs.Prelude.{◌≡◌};
ghost use Rattle.lane_core.specs.Sight.{is_doubtful, sight_of, nothing_seen};

use crate::lane::Lane;
use crate::probe::Standing;

/// The sight of a lane: whether it has something to do, and whether the next message can begin at once.
#[derive(Clone, Copy, Debug, PartialEq, Eq)]
pub struct LaneSight {
    /// How many messages wait or are under way, 0 to 32.
    pub pending: usize,
    /// Whether it is in doubt: a message failed, and frames of it may still be on their way, so that the next connection begins
    /// only once the lane has settled.
    pub in_doubt: bool,
}

impl LaneSight {
    /// The sight of a lane that sent no message.
    pub fn nothing() -> LaneSight
        ensures { result ≡ nothing_seen }
    {
        LaneSight {
            pending: 0,
            in_doubt: false,
        }
    }
}

impl Lane {
    /// The sight of this lane.
    pub fn sight(&self) -> LaneSight
        ensures { result ≡ sight_of self.now }
    {
        LaneSight {
            pending: self.pending.len(),
            in_doubt: self.is_in_doubt(),
        }
    }

    // Whether it has still to settle.
    fn is_in_doubt(&self) -> bool
        ensures { result ≡ is_doubtful self.now.standing }
    {
        match self.standing {
            Standing::Settled => false,
            _ => true,
        }
    }
}
