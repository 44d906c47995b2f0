//! Frames that the node puts on the bus, and those that the bus shows.
ghost use Rattle.std.specs.Prelude.{◌≡◌, ◌++◌, OnOk};
ghost use Rattle.one_station.specs.Answers.{is_own};
ghost use Rattle.bus_node.specs.Node.{with_station};
ghost use Rattle.bus_node.specs.Stations.{ready, sent, fed};
ghost use Rattle.bus_node.specs.Putting.{put_line, with_put, putting, own, heard};

use crate::node::Node;
use bus_frame::Frame;
use log_text::{Iface, put_log_line};
use node_parts::comes_from;
use one_station::{Fed, NodeError};
use script_text::print_text;
use std::alloc::AllocError;

#[tactic(auto, unfolding(crate::specs::Putting::put_line))]
fn print_put(text: &mut Vec<u8>, time: u64, iface: &Iface, frame: &Frame) -> Result<(), AllocError>
    ensures { OnOk result (text.new.items ≡ text.old.items ++ put_line time iface.now frame.now) }
{
    text.extend_from_slice(b"put ")?;
    put_log_line(text, time, iface, frame)?;
    text.push(b'\n')?;
    Ok(())
}

impl Node {
    // A frame was put: it is printed, and remembered.
    fn note_put(&mut self, frame: Frame) -> Result<(), AllocError>
        ensures { OnOk result (self.new ≡ with_put self.old frame) }
    {
        let time = self.time();
        print_put(&mut self.text, time, &self.iface, &frame)?;
        self.echoes.put(frame)
    }

    // The first frame of the queue leaves it.
    fn send_first(&mut self) -> Result<(), AllocError>
        ensures { OnOk result (self.new ≡ with_station self.old (sent (ready self.old.station))) }
    {
        let made = self.station.sent();
        self.tell_of(made)
    }

    /// The first frame of the queue is put on the bus. If there is no memory to remember it, it stays in the queue.
    #[tactic(auto, unfolding(crate::specs::Putting::putting))]
    pub(crate) fn put(&mut self, frame: Frame) -> Result<(), AllocError>
        ensures { OnOk result (self.new ≡ putting self.old frame) }
    {
        self.echoes.reserve()?;
        self.send_first()?;
        self.note_put(frame)
    }

    // A frame with the node's own address was seen. If another node put it, that is reported.
    #[tactic(auto, unfolding(crate::specs::Putting::own))]
    fn see_own(&mut self, frame: &Frame) -> Result<(), AllocError>
        ensures { OnOk result (self.new ≡ own self.old frame.now) }
    {
        let now = self.station.now();
        if self.echoes.see(now, frame) {
            return print_text(&mut self.text, "address conflict");
        }
        Ok(())
    }

    /// Whether a frame has the node's own address.
    pub(crate) fn is_own(&self, frame: &Frame) -> bool
        ensures { result ≡ is_own self.now.station frame.now }
    {
        comes_from(frame, self.station.address())
    }

    // The station takes a frame of another node. One that it isn't fed is missed.
    fn feed(&mut self, frame: Frame) -> Result<(), AllocError>
        ensures { OnOk result (self.new ≡ with_station self.old (fed (ready self.old.station) frame)) }
    {
        match self.station.feed(frame) {
            Ok(Fed::Taken) => self.tell(),
            Ok(Fed::WithoutRoom) => {
                self.tell()?;
                Err(AllocError)
            }
            Ok(Fed::PassedBy) => Err(AllocError),
            Err(NodeError::Refused(_)) => self.miss(),
            Err(_) => {
                self.miss()?;
                Err(AllocError)
            }
        }
    }

    /// A frame was seen on the bus.
    #[tactic(auto, unfolding(crate::specs::Putting::heard))]
    pub(crate) fn hear(&mut self, frame: Frame) -> Result<(), AllocError>
        ensures { OnOk result (self.new ≡ heard self.old frame) }
    {
        if self.is_own(&frame) {
            return self.see_own(&frame);
        }
        self.feed(frame)
    }
}
