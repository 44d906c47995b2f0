//! The destination of a relay.
ghost use Rattle.std.specs.Prelude.{◌≡◌, true, false, MatchResult};
ghost use Rattle.pgn_ids.specs.Address.{is_one};
ghost use Rattle.segment_law.specs.declared.refusal.Refusal.TheVariants.{NoSuchStation};

use pgn_ids::Address;
use segment_shared::Refusal;
use std::marker::Model;

/// The station that a relay sends to, which contracts see as its address: that of one node.
#[derive(Clone, Copy, Debug, PartialEq, Eq)]
pub struct Route {
    to: Address,
}

impl Model for Route {
    ghost use Rattle.std.specs.Prelude.{◌≡◌, true};
    ghost use Rattle.pgn_ids.specs.Address.{is_one};
    ghost use Rattle.pgn_ids.specs.declared.address.Address.{Address};

    ghost Value = { Address };

    ghost view = { λ r. r.to };

    ghost invariant = { λ r. is_one r.to.0 ≡ true };

    ghost inverse = { λ a. record { to = a } };
}

impl Route {
    /// The route to a station, refused as `NoSuchStation` exactly for the null address 254 and the global address 255.
    pub fn new(to: Address) -> Result<Route, Refusal>
        ensures { MatchResult result (λ r. (r ≡ to) × (is_one to.0 ≡ true)) (λ e. (e ≡ NoSuchStation) × (is_one to.0 ≡ false)) }
    {
        if !to.is_one() {
            return Err(Refusal::NoSuchStation);
        }
        Ok(Route { to })
    }

    /// The station.
    pub fn to(self) -> Address
        ensures value { result ≡ self }
        ensures one { is_one result.0 ≡ true }
    {
        self.to
    }
}
