//! A port closes, and its inbox is handed what it did not receive.
ghost use Rattle.std.specs.Prelude.{◌≡◌, ◌<◌, ◌≤◌, length, slice_set, slice_index_or};
ghost use Rattle.segment_rings.specs.Ends.{closes};
ghost use Rattle.segment_rings.specs.Views.{DoorView, closed_door};

use crate::ending::{inbox_agrees, report_inbox};
use crate::live::Live;
use crate::refused::NotMade;
use crate::report::InboxReport;
use live_calls::make;
use live_ends::{Doors, door_of, tell};
use live_record::{MOST_CALLS, copy_deliveries};
use port_table::PortId;
use segment_law::{Call, Refusal, Reply};
use segment_rings::{Delivery, Inbox};
use std::alloc::AllocError;
use stored_calls::Stored;

/// What a closed port was given and its inbox did not receive.
#[derive(Debug, Drop)]
pub struct Closed {
    pub port: PortId,
    pub rest: Vec<Delivery>,
}

// Hands the rest to an inbox, and gives nothing more to its port.
fn hand_over(doors: &mut Doors, k: usize, inbox: &mut Inbox, kept: Vec<Delivery>)
    requires within { k < length doors.old.items }
    requires room { length kept.items ≤ inbox.old.spare }
    ensures doors { (d : DoorView) → doors.new.items ≡ slice_set doors.old.items k (closed_door (slice_index_or doors.old.items k d)) }
    ensures inbox { inbox.new ≡ closes inbox.old kept.items inbox.new.spare }
{
    doors.close(k);
    inbox.close(kept);
}

impl Live {
    ghost use Rattle.std.specs.Prelude.{◌≡◌, ◌<◌, length, slice_index_or, IfOk, OnOk, IfErr, OnErr};
    ghost use Rattle.segment_rings.specs.Ends.{with_room_kept};
    ghost use Rattle.live_segment.specs.LiveView.{PortView, SameLive, stored_calls};
    ghost use Rattle.live_segment.specs.Reports.{InboxAgrees, CloseMade, ClosedFor, IsCloseCause, PortClosed, IsPortCause};

    /// Closes the port of an inbox, and hands out what the port was given and the inbox did not receive. No later call gives to
    /// it.
    ///
    /// Refused if the port was never opened here, or if what the inbox received, from the deliveries on that are kept, isn't the
    /// beginning of what the port was given from there on; and then if no more calls can be stored. These and want of memory
    /// change nothing but what is known of the rings.
    pub fn close_on(&mut self, inbox: &mut Inbox) -> Result<Closed, NotMade>
        ensures closed { IfOk result (λ r. ClosedFor self.old self.new inbox.old inbox.new r) }
        ensures refused { IfErr result (λ e. IsCloseCause self.old inbox.old e) }
        ensures err { OnErr result (SameLive self.old self.new) }
        ensures kept { OnErr result (inbox.new ≡ with_room_kept inbox.old inbox.new.spare) }
    {
        let Some(k) = door_of(self.doors.as_slice(), inbox.port()) else {
            return Err(NotMade::Refused(Refusal::NotThisSegment));
        };
        if !inbox_agrees(self, inbox) {
            return Err(NotMade::Refused(Refusal::NotThisSegment));
        }
        if self.calls.is_full() {
            return Err(NotMade::Refused(Refusal::TraceFull));
        }
        match self.shut(k, inbox) {
            Ok(closed) => Ok(closed),
            Err(_) => Err(NotMade::OutOfMemory),
        }
    }

    /// Closes a port, without its inbox. No later call gives to it, and its inbox receives what it was given before.
    ///
    /// Refused as `NoSuchPort` if the port was never opened here, and then as `TraceFull` if no more calls can be stored. Want of memory
    /// is returned only if neither holds. These change nothing but what is known of the rings.
    pub fn close_port(&mut self, port: PortId) -> Result<(), NotMade>
        ensures closed { OnOk result (PortClosed self.old self.new port) }
        ensures refused { IfErr result (λ e. IsPortCause self.old port e) }
        ensures err { OnErr result (SameLive self.old self.new) }
    {
        let Some(_gone) = self.given_gone(port) else {
            return Err(NotMade::Refused(Refusal::NoSuchPort));
        };
        if self.calls().len() >= MOST_CALLS {
            return Err(NotMade::Refused(Refusal::TraceFull));
        }
        self.make_close(port)?;
        self.retire_port(port);
        Ok(())
    }

    // `close_on`, for the inbox of the k-th port, if its list agrees.
    fn shut(&mut self, k: usize, inbox: &mut Inbox) -> Result<Closed, AllocError>
        requires within { k < length self.old.ports }
        requires port { (p : PortView) → (slice_index_or self.old.ports k p).port ≡ inbox.old.port }
        requires agrees { InboxAgrees self.old inbox.old }
        requires few { stored_calls self.old < MOST_CALLS }
        ensures closed { IfOk result (λ r. ClosedFor self.old self.new inbox.old inbox.new r) }
        ensures err { OnErr result (SameLive self.old self.new) }
        ensures kept { OnErr result (inbox.new ≡ with_room_kept inbox.old inbox.new.spare) }
    {
        let InboxReport { port, rest } = report_inbox(self.alloc, self, inbox)?;
        let kept = copy_deliveries(self.alloc, rest.as_slice())?;
        inbox.reserve(kept.len())?;
        self.make_close(port)?;
        hand_over(&mut self.doors, k, inbox, kept);
        Ok(Closed { port, rest })
    }

    // Makes the Close of a port, and notes its events. It is stored unless it is refused.
    fn make_close(&mut self, port: PortId) -> Result<(), AllocError>
        requires { stored_calls self.old < MOST_CALLS }
        ensures made { OnOk result (CloseMade self.old self.new port) }
        ensures err { OnErr result (SameLive self.old self.new) }
    {
        self.calls.reserve()?;
        match make(&mut self.segment, Call::Close { port })? {
            Reply::Done(events) => {
                tell(
                    &mut self.doors,
                    &mut self.owed,
                    &mut self.seats,
                    Vec::new(self.alloc),
                    &events,
                );
                self.calls.push_reserved(Stored {
                    by: None,
                    call: Call::Close { port },
                });
                Ok(())
            }
            Reply::Refused(_) => Ok(()),
            Reply::Opened(_) => unreachable!(),
            Reply::Sent(_) => unreachable!(),
        }
    }
}
