//! A station as plain data.
ghost use Rattle.std.specs.Prelude.{◌≡◌, ◌↔◌, IfOk, IsTrue};

use crate::station::Station;
use pgn_ids::Address;
use port_table::PortsImage;
use station_lanes::LanesImage;
use station_sessions::ReceiversImage;
use std::alloc::AllocError;
use std::marker::Model;
use tx_queue::QueueImage;

/// The value of a station, as plain data: it holds no state of a message under way.
pub struct StationImage {
    address: Address,
    queue: QueueImage,
    lanes: LanesImage,
    sessions: ReceiversImage,
    ports: PortsImage,
}

impl Model for StationImage {
    ghost use Rattle.station_core.specs.Station.{Station};
    ghost use Rattle.station_core.specs.StationCode.{station_code};

    ghost Value = { Station };

    ghost coded = { station_code };

    ghost view = { λ i. record { address = i.address; queue = i.queue; lanes = i.lanes; sessions = i.sessions; ports = i.ports } };
}

impl Drop for StationImage {
    fn drop(self) {
        let StationImage {
            address: _,
            queue: _,
            lanes: _,
            sessions: _,
            ports: _,
        } = self;
    }
}

impl Station {
    /// The station as plain data. It takes memory for what its parts hold.
    pub fn image(&self) -> Result<StationImage, AllocError>
        ensures { IfOk result (λ image. image ≡ self.now) }
    {
        let queue = self.queue.image(self.alloc)?;
        let lanes = self.lanes.image(self.alloc)?;
        let sessions = self.sessions.image()?;
        let ports = self.ports.image(self.alloc)?;
        Ok(StationImage {
            address: self.address,
            queue,
            lanes,
            sessions,
            ports,
        })
    }
}

impl StationImage {
    /// Whether this is the image of a station. It takes no memory.
    pub fn is_of(&self, station: &Station) -> bool
        ensures { IsTrue result ↔ (self.now ≡ station.now) }
    {
        self.address.0 == station.address.0
            && self.queue.is_of(&station.queue)
            && self.lanes.is_of(&station.lanes)
            && self.sessions.is_of(&station.sessions)
            && self.ports.is_of(&station.ports)
    }
}
