//! Acknowledgements of the destination.
ghost use Rattle.std.specs.Prelude.{◌≡◌};
ghost use Rattle.lane_core.specs.declared.probe.Standing.TheVariants.{Settled};
ghost use Rattle.lane_core.specs.Probe.{other_token};
ghost use Rattle.lane_core.specs.Answer.{answered as answered_lane};

use crate::lane::Lane;
use crate::probe::Standing;
use pgn_ids::WirePgn;

impl Lane {
    /// Takes an Acknowledgement of the destination. If a Request is under way and the PGN field names its token, the
    /// lane is settled, and the next round has the other token.
    pub fn answer(&mut self, pgn: WirePgn)
        ensures { self.new ≡ answered_lane self.old pgn }
    {
        if let Standing::Probing { .. } = self.standing {
            if self.token.is_named(pgn) {
                self.settle();
            }
        }
    }

    // The Request was answered: the lane is settled.
    fn settle(&mut self)
        ensures { self.new ≡ record self.old { standing = Settled; token = other_token self.old.token } }
    {
        self.standing = Standing::Settled;
        self.token = self.token.other();
    }
}
