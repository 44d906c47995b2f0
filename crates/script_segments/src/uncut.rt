//! A segment that was never cut.
ghost use Rattle.std.specs.Prelude.{◌≡◌, []};

use live_segment::{Inbox, Live, NotMade};
use pgn_ids::{Address, Pgn};
use std::alloc::Global;
use std::marker::Model;
use stored_calls::StoredCalls;

/// A segment that was never cut, so that all calls that were made are stored.
#[derive(Drop)]
pub struct Uncut {
    live: Live,
}

impl Model for Uncut {
    ghost use Rattle.std.specs.Prelude.{◌≡◌, []};
    ghost use Rattle.live_segment.specs.LiveView.{LiveView};

    ghost Value = { LiveView };

    ghost view = { λ u. u.live };

    ghost invariant = { λ u. u.live.pieces ≡ [] };
}

impl Uncut {
    ghost use Rattle.std.specs.Prelude.{◌≡◌, [], false, IfOk, IfErr, OnErr};
    ghost use Rattle.std.specs.Result.{result_err};
    ghost use Rattle.live_segment.specs.LiveView.{live_view, keep, is_station_of, OpenedFor, IsOpenCause};
    ghost use Rattle.live_segment.specs.Refusals.{IsAnsweredBy, making_refusal};

    /// A new segment, as `Live::new` makes it.
    pub fn new(alloc: Global, addresses: &[Address]) -> Result<Uncut, NotMade>
        ensures ok { IfOk result (λ uncut. uncut ≡ live_view (keep false []) addresses.now [] [] []) }
        ensures refused { IsAnsweredBy (making_refusal addresses.now) (result_err result) }
    {
        let live = Live::new(alloc, addresses)?;
        Ok(Uncut { live })
    }

    /// Opens a port, as `Live::open_port` does.
    pub fn open_port(&mut self, station: Address, pgn: Pgn, max_len: u32) -> Result<Inbox, NotMade>
        ensures opened { IfOk result (λ i. OpenedFor self.old self.new station pgn max_len i) }
        ensures refused { IfErr result (λ e. IsOpenCause self.old station pgn max_len e) }
        ensures err { OnErr result (self.new ≡ self.old) }
    {
        self.live.open_port(station, pgn, max_len)
    }

    /// The addresses of the stations, in the order in which they were given.
    pub fn addresses(&self) -> &[Address]
        ensures { result.now ≡ self.now.addresses }
    {
        self.live.addresses()
    }

    /// Whether an address is that of a station.
    pub fn has_station(&self, address: Address) -> bool
        ensures { result ≡ is_station_of self.now.addresses address }
    {
        self.live.has_station(address)
    }

    /// All calls that were made.
    pub fn calls(&self) -> &StoredCalls
        ensures { result.now.items ≡ self.now.calls }
    {
        self.live.calls()
    }

    /// The segment, for threads that share it.
    pub fn into_live(self) -> Live
        ensures { result ≡ self }
    {
        let Uncut { live } = self;
        live
    }
}
