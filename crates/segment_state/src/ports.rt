//! Ports that are opened, closed, paused and resumed.
ghost use Rattle.segment_law.specs.Calls.{at_address, opens, closes, pauses, resumes};
ghost use Rattle.segment_state.specs.Answers.{IsMade};
ghost use Rattle.std.specs.Prelude.{[]};

use crate::made::Made;
use crate::state::SegmentState;
use crate::stop::{Stop, refused};
use pgn_ids::{Address, Pgn};
use port_table::PortId;
use segment_law::Refusal;

impl SegmentState {
    /// Opens a port of a station.
    #[inline]
    pub(crate) fn open(&mut self, station: Address, pgn: Pgn, max_len: u32) -> Result<Made, Stop>
        ensures { IsMade (at_address self.old station (opens self.old pgn max_len)) self.old self.new [] result }
    {
        let Some(place) = self.place_of(station) else {
            return Err(Stop::Refused(Refusal::NoSuchStation));
        };
        match self.stations[place].open(pgn, max_len) {
            Ok(port) => Ok(Made::Opened(port)),
            Err(cause) => Err(refused(cause)),
        }
    }

    /// Closes a port.
    #[inline(always)]
    pub(crate) fn close(&mut self, port: PortId) -> Result<Made, Stop>
        ensures { IsMade (at_address self.old port.station (closes self.old port.number)) self.old self.new [] result }
    {
        let Some(place) = self.place_of(port.station) else {
            return Err(Stop::Refused(Refusal::NoSuchStation));
        };
        match self.stations[place].close(port.number) {
            Ok(()) => Ok(Made::Done),
            Err(cause) => Err(refused(cause)),
        }
    }

    /// Pauses a port.
    #[inline]
    pub(crate) fn pause(&mut self, port: PortId) -> Result<Made, Stop>
        ensures { IsMade (at_address self.old port.station (pauses self.old port.number)) self.old self.new [] result }
    {
        let Some(place) = self.place_of(port.station) else {
            return Err(Stop::Refused(Refusal::NoSuchStation));
        };
        match self.stations[place].pause(port.number) {
            Ok(()) => Ok(Made::Done),
            Err(cause) => Err(refused(cause)),
        }
    }

    /// Ends the pause of a port.
    #[inline]
    pub(crate) fn resume(&mut self, port: PortId) -> Result<Made, Stop>
        ensures { IsMade (at_address self.old port.station (resumes self.old port.number)) self.old self.new [] result }
    {
        let Some(place) = self.place_of(port.station) else {
            return Err(Stop::Refused(Refusal::NoSuchStation));
        };
        match self.stations[place].resume(port.number) {
            Ok(()) => Ok(Made::Done),
            Err(cause) => Err(refused(cause)),
        }
    }
}
