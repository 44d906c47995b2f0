//! The crews of two segments: those who submit and those who receive.

use crate::carrying::Carrying;
use crate::known::Known;
use pgn_ids::Address;
use port_table::PortId;
use script_runs::Lost;
use script_segments::{Names, Passage};
use segment_threads::{Client, Inbox, Live, Sender, senders_of};
use std::alloc::Global;

/// The crew of one segment: a client of each station with its messages, and the inboxes.
#[derive(Drop)]
pub(crate) struct Crew {
    pub(crate) senders: Vec<Sender>,
    pub(crate) inboxes: Vec<Inbox>,
}

/// The crews of both segments, without the relay's inbox and client; and the relay, if there is one.
#[derive(Drop)]
pub(crate) struct Crews {
    pub(crate) near: Crew,
    pub(crate) far: Crew,
    pub(crate) carrying: Option<Carrying>,
}

// Takes out the inbox of a port.
fn take_inbox(inboxes: &mut Vec<Inbox>, port: PortId) -> Option<Inbox> {
    let place = inboxes.iter().position(|inbox| inbox.port() == port)?;
    Some(inboxes.remove(place))
}

// Takes out the client of a station.
fn take_client(senders: &mut Vec<Sender>, station: Address) -> Option<Client> {
    let place = senders
        .iter()
        .position(|sender| sender.client.station() == station)?;
    let Sender {
        client,
        messages: _,
    } = senders.remove(place);
    Some(client)
}

// The inbox of the passage's port and the client of its station, who neither receive nor submit for themselves.
fn take_carrying(near: &mut Crew, far: &mut Crew, passage: Passage) -> Option<Carrying> {
    let inbox = take_inbox(&mut near.inboxes, passage.port)?;
    let client = take_client(&mut far.senders, passage.from)?;
    Some(Carrying {
        inbox,
        client,
        passage,
    })
}

fn crew_of(
    alloc: Global,
    live: &mut Live,
    inboxes: Vec<Inbox>,
    names: &Names,
) -> Result<Crew, Lost> {
    let stations = names.stations.as_slice();
    let senders = senders_of(alloc, live, stations, names.messages.as_slice())?;
    Ok(Crew { senders, inboxes })
}

/// A client of each station, the inboxes, and the relay, if there is a passage.
///
/// `NotThisSegment` if a station can have no client or the passage's port or station isn't among them; `OutOfMemory` if memory was
/// refused.
pub(crate) fn crews_of(
    alloc: Global,
    near: &mut Live,
    far: &mut Live,
    inboxes: Vec<Inbox>,
    far_inboxes: Vec<Inbox>,
    known: &Known,
) -> Result<Crews, Lost> {
    let mut near = crew_of(alloc, near, inboxes, &known.near)?;
    let mut far = crew_of(alloc, far, far_inboxes, &known.far)?;
    let Some(passage) = known.passage else {
        return Ok(Crews {
            near,
            far,
            carrying: None,
        });
    };
    let carrying = take_carrying(&mut near, &mut far, passage);
    if carrying.is_none() {
        return Err(Lost::NotThisSegment);
    }
    Ok(Crews {
        near,
        far,
        carrying,
    })
}
