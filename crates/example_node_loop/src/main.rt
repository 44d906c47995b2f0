//! A program's loop over a node, to copy: the clock advances, frames are exchanged with a driver, events are handed on, and the loop sleeps
//! until there is something to do. The driver is a list of frames with their ticks here, so that each run prints the same.
#![tactic(auto)]

use anyhow::Result;
use bus_frame::{CanId, Frame};
use one_station::{Event, Fed, Missed, Node, NodeError, Refusal};
use pgn_ids::{Address, Pgn};

/// What a CAN driver hands over.
#[derive(Clone, Copy)]
enum Received {
    /// A frame: its identifier and bytes.
    Frame(u32, [u8; 8]),
    /// Frames were lost here, as a driver learns from a counter of its socket or from an error frame.
    Lost,
}

/// The tick of 1 ms at which each arrives. Node 80 sends nine bytes by TP (SAE J1939-21), takes as many, and begins again; then frames are
/// lost.
const RECEIVED: [(u64, Received); 7] = [
    (
        10,
        Received::Frame(0x1CEC_3580, [0x10, 9, 0, 2, 0xFF, 0xCA, 0xFE, 0]),
    ),
    (13, Received::Frame(0x1CEB_3580, [1, 1, 2, 3, 4, 5, 6, 7])),
    (
        14,
        Received::Frame(0x1CEB_3580, [2, 8, 9, 0xFF, 0xFF, 0xFF, 0xFF, 0xFF]),
    ),
    (
        20,
        Received::Frame(0x1CEC_3580, [0x11, 2, 1, 0xFF, 0xFF, 0xCA, 0xFE, 0]),
    ),
    (
        24,
        Received::Frame(0x1CEC_3580, [0x13, 9, 0, 2, 0xFF, 0xCA, 0xFE, 0]),
    ),
    (
        60,
        Received::Frame(0x1CEC_3580, [0x10, 9, 0, 2, 0xFF, 0xCA, 0xFE, 0]),
    ),
    (62, Received::Lost),
];

/// At most so many frames are put, timers fired and events taken in one turn, and so many turns are made here.
const MOST: usize = 64;

/// A stand-in for a CAN driver and a clock: what it has handed over so far, and the time.
#[derive(Drop)]
struct Driver {
    received: usize,
    now: u64,
}

impl Driver {
    /// The tick at which the next frame arrives.
    fn next_tick(&self) -> Option<u64> {
        match RECEIVED.get(self.received) {
            None => None,
            Some((tick, _)) => Some(*tick),
        }
    }

    /// Sleeps until a tick, if there is one, or until a frame arrives. It returns false if neither will be. A real driver waits for its
    /// socket with a time-out here.
    fn sleep(&mut self, until: Option<u64>) -> bool {
        let tick = match (self.next_tick(), until) {
            (None, None) => return false,
            (Some(tick), None) => tick,
            (None, Some(until)) => until,
            (Some(tick), Some(until)) => tick.min(until),
        };
        self.now = self.now.max(tick);
        true
    }

    /// What has arrived by now.
    fn receive(&mut self) -> Option<Received> {
        let (tick, received) = RECEIVED.get(self.received)?;
        if *tick > self.now {
            return None;
        }
        self.received = self.received.saturating_add(1);
        Some(*received)
    }
}

/// Fires each timer that is due. One that finds no place in the queue fires at a later turn.
fn fire(node: &mut Node) -> Result<()> {
    for _ in 0..MOST {
        match node.fire() {
            Ok(()) => {}
            Err(NodeError::Refused(Refusal::NothingDue)) => return Ok(()),
            Err(NodeError::Refused(Refusal::TxFull)) => return Ok(()),
            Err(error) => return Err(error.into()),
        }
    }
    Ok(())
}

/// Hands a frame of the bus to the node, or reports a loss to it. A frame that has the node's own address isn't fed.
fn feed(rt: &impl Print, node: &mut Node, now: u64, received: Received) -> Result<()> {
    match received {
        Received::Lost => {
            println!(rt; "{now:4} frames were lost")?;
            match node.missed() {
                Missed::Ended => {}
                Missed::Waits => println!(rt;
                    "{now:4} what was under way ends later, since memory is short"
                )?,
            }
        }
        Received::Frame(id, bytes) => {
            let frame = Frame::full(CanId::new(id)?, bytes);
            show(rt, now, "in ", &frame)?;
            match node.feed(frame)? {
                Fed::Taken => {}
                Fed::WithoutRoom => println!(rt;
                    "{now:4} taken without room, since memory is short"
                )?,
                Fed::PassedBy => println!(rt; "{now:4} passed by, since memory is short")?,
            }
        }
    }
    Ok(())
}

/// Puts the frames that the node has for the bus. `sent` is called once the bus has the frame: at its echo, behind a socket of Linux.
fn put(rt: &impl Print, node: &mut Node, now: u64) -> Result<()> {
    for _ in 0..MOST {
        let Some(frame) = node.front()? else {
            return Ok(());
        };
        show(rt, now, "out", &frame)?;
        node.sent()?;
    }
    Ok(())
}

/// Hands on the node's events: a message that was given is sent back to its sender.
fn tell(rt: &impl Print, node: &mut Node, now: u64) -> Result<()> {
    for _ in 0..MOST {
        let Some(event) = node.take_event() else {
            return Ok(());
        };
        match event {
            Event::Given {
                port,
                from,
                pgn,
                bytes,
                ..
            } => {
                let given = bytes.as_slice();
                println!(rt; "{now:4} given at port {}: {given:?}", port.number)?;
                let _number = node.send(from, pgn, given)?;
            }
            Event::Outcome {
                number,
                outcome,
                ..
            } => {
                println!(rt; "{now:4} message {number}: {outcome:?}")?;
            }
        }
    }
    Ok(())
}

/// Shows a frame, received or sent.
fn show(rt: &impl Print, now: u64, way: &str, frame: &Frame) -> Result<()> {
    print!(rt; "{now:4} {way} {:08X}", frame.id().raw())?;
    for byte in frame.bytes() {
        print!(rt; " {byte:02X}")?;
    }
    println!(rt;)?;
    Ok(())
}

/// One turn of the loop: the time, what arrived, what is sent, the events, and what they send.
fn turn(rt: &impl Print, node: &mut Node, driver: &mut Driver) -> Result<()> {
    let now = driver.now;
    node.clock(now)?;
    fire(node)?;
    if let Some(received) = driver.receive() {
        feed(rt, node, now, received)?;
    }
    put(rt, node, now)?;
    tell(rt, node, now)?;
    put(rt, node, now)
}

/// Opens a port for messages of one parameter group, sends nine bytes to all, and runs the loop until nothing is left to do.
fn run(rt: &impl Print, node: &mut Node, driver: &mut Driver) -> Result<()> {
    let pgn = Pgn::new(0xFECA)?;
    let _port = node.open_port(pgn, 1785)?;
    let _number = node.send(Address::GLOBAL, pgn, b"nine byte")?;
    for _ in 0..MOST {
        if !driver.sleep(node.next_at()) {
            return Ok(());
        }
        turn(rt, node, driver)?;
    }
    Ok(())
}

fn main(rt: HostRuntime) -> Result<()> {
    let mut node = Node::new(rt.alloc(), Address(0x35))?;
    let mut driver = Driver {
        received: 0,
        now: 0,
    };
    run(&rt, &mut node, &mut driver)
}
