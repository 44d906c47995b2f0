//! The incoming sessions of a station as plain data.
ghost use Rattle.std.specs.Prelude.{◌≡◌, ◌↔◌, Some, IsTrue, IfOk};
ghost use Rattle.std.specs.FinMap as map;
ghost use Rattle.station_sessions.specs.Receiving.{NoneHeld};

use super::{Receivers, Table};
use port_table::PortSet;
use session_table::{Incoming, IncomingImage, Key, TableImage};
use std::alloc::AllocError;
use std::marker::Model;

/// The value of the `Receivers` of a station, as plain data.
pub struct ReceiversImage {
    table: TableImage<PortSet>,
}

impl Model for ReceiversImage {
    ghost use Rattle.std.specs.Prelude.{List, ℕ};
    ghost use Rattle.std.specs.Coded.{coded_list, coded_ℕ};
    ghost use Rattle.session_table.specs.Sessions.{Sessions, sessions_code};

    ghost Value = { Sessions (List ℕ) };

    ghost coded = { sessions_code (coded_list coded_ℕ) };

    ghost view = { λ s. s.table };
}

impl Drop for ReceiversImage {
    fn drop(self) {
        let ReceiversImage { table: _ } = self;
    }
}

impl Receivers {
    /// Their value, as plain data.
    pub fn image(&self) -> Result<ReceiversImage, AllocError>
        ensures { IfOk result (λ image. image ≡ self.now) }
    {
        let table = self.table.image(self.alloc)?;
        Ok(ReceiversImage { table })
    }
}

impl ReceiversImage {
    /// Whether it is an image of these. It takes no memory.
    pub fn is_of(&self, receivers: &Receivers) -> bool
        ensures { IsTrue result ↔ (self.now ≡ receivers.now) }
    {
        let entries = self.table.entries();
        if entries.len() != receivers.table.len() {
            return false;
        }
        for entry in entries {
            if !stands_in(entry, &receivers.table) {
                return false;
            }
        }
        true
    }
}

// Whether a table has at a key what its entry says.
fn stands_in(entry: &(Key, Option<(PortSet, IncomingImage)>), table: &Table) -> bool
    requires { NoneHeld table.now }
    ensures { IsTrue result ↔ (map.get table.now entry.now.0 ≡ Some entry.now.1) }
{
    let Some(image) = &entry.1 else {
        return false;
    };
    match table.get(entry.0) {
        Some((set, state)) => is_session(image, set, state),
        None => false,
    }
}

// Whether it is an image of this session.
fn is_session(image: &(PortSet, IncomingImage), set: &PortSet, state: &Incoming) -> bool
    ensures { IsTrue result ↔ (image.now ≡ (set.now, state.now)) }
{
    image.0.numbers() == set.numbers() && image.1.is_of(state)
}
