//! A listener to a recorded bus.
ghost use Rattle.std.specs.Prelude.{◌≡◌, [], ◌++◌, OnOk, IfOk};
ghost use Rattle.log_decode.specs.Decoder.{taken, ended};
ghost use Rattle.log_decode.specs.Stray.{stray_seen};
ghost use Rattle.log_decode.specs.View.{bus_at};

use crate::bus::Bus;
use crate::places::place_of;
use bus_frame::Frame;
use indexmap::IndexMap;
use log_fields::Iface;
use log_reports::{Stray, Told};
use std::alloc::{AllocError, Global};
use std::marker::Model;

/// A listener that sees each frame of a log. Each interface is a bus of its own, with a clock of its own.
pub struct Decoder {
    most: u32,
    time: u64,
    buses: IndexMap<Iface, Bus>,
}

impl Model for Decoder {
    ghost use Rattle.log_decode.specs.View.{State};

    ghost Value = { State };

    ghost view = { λ d. record { most = d.most; time = d.time; buses = d.buses.entries } };
}

impl Drop for Decoder {
    fn drop(self) {
        let Decoder {
            most: _,
            time: _,
            buses: _,
        } = self;
    }
}

/// The log ends on each interface.
fn finish_all(buses: &IndexMap<Iface, Bus>, told: &mut Vec<Told>) -> Result<(), AllocError>
    ensures { OnOk result (told.new.items ≡ told.old.items ++ ended buses.now.entries) }
{
    for at in 0..buses.len() {
        let Some((_iface, bus)) = buses.get_index(at) else {
            return Ok(());
        };
        bus.finish(told)?;
    }
    Ok(())
}

impl Decoder {
    /// A listener that has seen nothing. A message of more than `most` bytes is reported as lost when it is announced. It takes no memory.
    pub fn new(alloc: Global, most: u32) -> Decoder
        ensures { result ≡ record { most = most; time = 0; buses = [] } }
    {
        Decoder {
            most,
            time: 0,
            buses: IndexMap::new(alloc),
        }
    }

    /// The time of the last frame, in microseconds; 0 before the first.
    pub fn time(&self) -> u64
        ensures { result ≡ self.now.time }
    {
        self.time
    }

    /// The time of the last frame of an interface, in microseconds; 0 before the first.
    pub fn time_on(&self, iface: Iface) -> u64
        ensures { result ≡ (bus_at iface self.now.buses).time }
    {
        match place_of(&self.buses, &iface) {
            None => 0,
            Some(at) => self.buses[at].time(),
        }
    }

    /// A frame is seen on an interface, at so many microseconds. A time before that of the last frame of the interface is taken as that;
    /// but if it is more than a second before it, the clock was set back, and what was under way there is lost. First the messages of the
    /// interface that have become silent are reported, in the order in which they were announced, then those that the frame ends.
    ///
    /// Returns the frame's kind if it is a packet, a CTS, a data packet offset or an end acknowledgement, and no message is under way
    /// between its nodes by its transport, nor, for all but a packet, one of its PGN. It fails only if memory is refused.
    pub fn take(
        &mut self,
        alloc: Global,
        time: u64,
        iface: Iface,
        frame: &Frame,
        told: &mut Vec<Told>,
    ) -> Result<Option<Stray>, AllocError>
        ensures told { OnOk result ((self.new, told.new.items) ≡ taken self.old time iface frame.now told.old.items) }
        ensures stray { IfOk result (λ stray. stray ≡ stray_seen self.old time iface frame.now) }
    {
        match place_of(&self.buses, &iface) {
            Some(at) => {
                let bus = &mut self.buses[at];
                let stray = bus.take(alloc, self.most, time, iface, frame, told)?;
                self.time = bus.time();
                Ok(stray)
            }
            None => {
                let mut bus = Bus::new(alloc);
                let stray = bus.take(alloc, self.most, time, iface, frame, told)?;
                self.time = bus.time();
                self.buses.insert(iface, bus)?;
                Ok(stray)
            }
        }
    }

    /// The log ends: each message that is still under way is reported, by interface, and for each in the order in which they were
    /// announced. It fails only if memory is refused.
    pub fn finish(&self, told: &mut Vec<Told>) -> Result<(), AllocError>
        ensures { OnOk result (told.new.items ≡ told.old.items ++ ended self.now.buses) }
    {
        finish_all(&self.buses, told)
    }
}
