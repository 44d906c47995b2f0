//! The place of the station with an address, without a search.
ghost use Rattle.std.specs.Prelude.{◌≡◌, ◌<◌, length};
ghost use Rattle.segment_state.specs.Places.{no_places, place_in, with_place, noted};

use pgn_ids::Address;

/// The value for no place. There are at most 32.
const NOWHERE: u8 = 255;

/// The place of each station by its address, for all 256 addresses.
#[derive(Clone, Copy)]
pub(crate) struct Places {
    by_address: [u8; 256],
}

impl Places {
    /// No address has a place.
    pub(crate) fn new() -> Places
        ensures { result ≡ no_places }
    {
        Places {
            by_address: [NOWHERE; 256],
        }
    }

    /// The place of an address.
    pub(crate) fn get(&self, address: Address) -> Option<usize>
        requires { length self.now.by_address ≡ 256 }
        ensures { result ≡ place_in self.now address }
    {
        let place = self.by_address[address.0 as usize];
        if place == NOWHERE {
            return None;
        }
        Some(place as usize)
    }

    /// Gives an address a place, unless it has one.
    pub(crate) fn note(&mut self, address: Address, place: u8)
        requires { length self.old.by_address ≡ 256 }
        ensures { self.new ≡ noted self.old address place }
    {
        match self.get(address) {
            None => self.set(address, place),
            Some(_) => {}
        }
    }

    // Gives an address a place.
    fn set(&mut self, address: Address, place: u8)
        requires { length self.old.by_address ≡ 256 }
        ensures { self.new ≡ with_place self.old address place }
    {
        self.by_address[address.0 as usize] = place;
    }
}
