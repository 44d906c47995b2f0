//! The readers of a shared segment: its clients, what each submitted and was noted, and what each port was given.
ghost use Rattle.std.specs.Prelude.{◌≡◌, ◌≤◌, ◌<◌, length, drop, MatchOption, slice_index_or};
ghost use Rattle.live_record.specs.Record.{trail, accepted, given, notes_of};
ghost use Rattle.live_segment.specs.LiveView.{ClientView};
ghost use Rattle.live_segment.specs.Reports.{HasPort, notes_gone, given_gone};

use crate::live::Live;
use live_ends::door_of;
use pgn_ids::Address;
use port_table::PortId;
use segment_rings::{Delivery, Note};

impl Live {
    /// How many clients there are; their numbers are those below.
    pub fn clients(&self) -> u64
        ensures { result ≡ length self.now.clients }
    {
        self.seats.len() as u64
    }

    /// The station of a client, if there is one with this number.
    pub fn station_of(&self, client: u64) -> Option<Address>
        ensures { MatchOption result (length self.now.clients ≤ client) (λ a. (client < length self.now.clients) × ((v : ClientView) → a ≡ (slice_index_or self.now.clients client v).station)) }
    {
        if client >= self.seats.len() as u64 {
            return None;
        }
        Some(self.seats.get(client as usize).station())
    }

    /// The notes of a client, if there is one with this number, without those that a cut kept no more.
    pub fn notes_of(&self, client: u64) -> Option<&[Note]>
        ensures { MatchOption result (length self.now.clients ≤ client) (λ ns. (client < length self.now.clients) × (ns.now ≡ drop (notes_gone self.now client) (notes_of client (trail self.now.addresses self.now.calls).noted))) }
    {
        if client >= self.seats.len() as u64 {
            return None;
        }
        Some(self.seats.get(client as usize).notes())
    }

    /// How many of the first notes of a client are kept no more, if there is a client with this number.
    pub fn notes_gone(&self, client: u64) -> Option<u64>
        ensures { MatchOption result (length self.now.clients ≤ client) (λ n. (client < length self.now.clients) × (n ≡ notes_gone self.now client) × (n ≤ length (notes_of client (trail self.now.addresses self.now.calls).noted))) }
    {
        if client >= self.seats.len() as u64 {
            return None;
        }
        Some(self.seats.get(client as usize).notes_gone())
    }

    // How many messages of a client were accepted.
    pub(crate) fn taken_of(&self, client: u64) -> usize
        requires { client < length self.now.clients }
        ensures { result ≡ length (accepted client self.now.calls) }
    {
        self.seats.get(client as usize).taken() as usize
    }

    /// What a port was given, if it was opened here, without the deliveries that a cut kept no more.
    pub fn given_to(&self, port: PortId) -> Option<&[Delivery]>
        ensures { MatchOption result (HasPort self.now.ports port → ⊥) (λ ds. HasPort self.now.ports port × (ds.now ≡ drop (given_gone self.now port) (given port (trail self.now.addresses self.now.calls).events))) }
    {
        match door_of(self.doors.as_slice(), port) {
            Some(k) => Some(self.doors.get(k).deliveries()),
            None => None,
        }
    }

    /// How many of the first deliveries to a port are kept no more, if it was opened here.
    pub fn given_gone(&self, port: PortId) -> Option<u64>
        ensures { MatchOption result (HasPort self.now.ports port → ⊥) (λ n. HasPort self.now.ports port × (n ≡ given_gone self.now port)) }
    {
        match door_of(self.doors.as_slice(), port) {
            Some(k) => Some(self.doors.get(k).gone()),
            None => None,
        }
    }
}
