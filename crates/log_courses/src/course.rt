//! The course of a message.
ghost use Rattle.std.specs.Prelude.{◌≡◌, ◌+◌, ◌<◌, ◌^◌, OnOk};
ghost use Rattle.log_reports.specs.declared.marks.Step.TheVariants.{Announcement, Window};
ghost use Rattle.log_courses.specs.Course.{more, begun, longer, asked_again, asked_to, noted, again_noted, grant_noted, ended, with_grant, with_cm, cm_followed};

use log_reports::{Detail, Marks, Place, Step};
use pgn_ids::Pgn;
use std::alloc::{AllocError, Global};
use tp_wire::CmFrame;

/// The frames of a message. A count that would pass 2^64 - 1 stays there.
#[derive(Drop)]
pub struct Course {
    pub pgn: Pgn,
    /// Its first frame, the announcement.
    pub first: Place,
    /// The last frame of it that was seen.
    pub last: Place,
    /// How many frames of it were seen.
    pub frames: u64,
    /// The highest number of a packet that its receiver asked for; 0 if it asked for none.
    pub asked: u64,
    /// How many packets its receiver asked for again, counted each time.
    pub again: u64,
    /// Its frames except the packets, if each is kept.
    pub marks: Marks,
}

/// One more, up to the last value.
pub(crate) fn more(n: u64) -> u64
    ensures { result ≡ more n }
{
    n.saturating_add(1)
}

/// How many of the packets that a CTS asks for had been asked for before, if all up to the packet `asked` had been.
fn asked_again(asked: u64, granted: u8, next: u32) -> u64
    ensures { result ≡ asked_again asked granted next }
{
    let old = more(asked).saturating_sub(u64::from(next));
    old.min(u64::from(granted))
}

/// The highest number of a packet that was asked for, with those that a CTS asks for.
fn asked_to(asked: u64, granted: u8, next: u32) -> u64
    ensures { result ≡ asked_to asked granted next }
{
    if granted == 0 {
        return asked;
    }
    asked.max(u64::from(next) + u64::from(granted) - 1)
}

impl Course {
    /// A course of one frame.
    pub(crate) fn begun(alloc: Global, pgn: Pgn, place: Place) -> Course
        ensures { result ≡ begun pgn place }
    {
        Course {
            pgn,
            first: place,
            last: place,
            frames: 1,
            asked: 0,
            again: 0,
            marks: Marks::new(alloc),
        }
    }

    /// Counts one more of its frames.
    pub(crate) fn go_on(&mut self, place: Place)
        ensures { self.new ≡ longer place self.old }
    {
        self.last = place;
        self.frames = more(self.frames);
    }

    /// Lists the effect of one of its frames, if each is listed.
    pub(crate) fn note(
        &mut self,
        detail: Detail,
        place: Place,
        step: Step,
    ) -> Result<(), AllocError>
        ensures { OnOk result (self.new ≡ noted detail place step self.old) }
    {
        match detail {
            Detail::Ends => Ok(()),
            Detail::Frames => self.marks.add(place, step),
        }
    }

    /// It is announced again.
    pub(crate) fn renew(&mut self, detail: Detail, place: Place) -> Result<(), AllocError>
        ensures { OnOk result (self.new ≡ noted detail place Announcement (longer place self.old)) }
    {
        self.go_on(place);
        self.note(detail, place, Step::Announcement)
    }

    /// The frame that ends it is seen.
    pub(crate) fn end(&mut self, detail: Detail, place: Place) -> Result<(), AllocError>
        ensures { OnOk result (self.new ≡ ended detail place self.old) }
    {
        match detail {
            Detail::Ends => Ok(()),
            Detail::Frames => self.marks.put(place, Step::End),
        }
    }

    /// Notes that so many packets, from one on, are asked for again.
    fn note_again(
        &mut self,
        detail: Detail,
        place: Place,
        again: u64,
        next: u64,
    ) -> Result<(), AllocError>
        requires next { next < 2 ^ 32 }
        requires again { again < 2 ^ 8 }
        ensures { OnOk result (self.new ≡ again_noted detail place again next self.old) }
    {
        if again == 0 {
            return Ok(());
        }
        let step = Step::Again {
            first: next,
            last: next + again - 1,
        };
        self.note(detail, place, step)
    }

    /// A CTS is listed.
    fn note_grant(
        &mut self,
        detail: Detail,
        place: Place,
        granted: u8,
        next: u32,
    ) -> Result<(), AllocError>
        ensures { OnOk result (self.new ≡ grant_noted detail place granted next self.old) }
    {
        if granted == 0 {
            return self.note(detail, place, Step::Hold);
        }
        let again = asked_again(self.asked, granted, next);
        let step = Step::Window {
            first: u64::from(next),
            last: u64::from(next) + u64::from(granted) - 1,
        };
        self.note(detail, place, step)?;
        self.note_again(detail, place, again, u64::from(next))
    }

    /// Its receiver asks for packets.
    fn grant(&mut self, granted: u8, next: u32)
        ensures { self.new ≡ with_grant granted next self.old }
    {
        self.again = self
            .again
            .saturating_add(asked_again(self.asked, granted, next));
        self.asked = asked_to(self.asked, granted, next);
    }

    fn take_cts(
        &mut self,
        detail: Detail,
        place: Place,
        granted: u8,
        next: u32,
    ) -> Result<(), AllocError>
        ensures { OnOk result (self.new ≡ with_grant granted next (grant_noted detail place granted next self.old)) }
    {
        self.note_grant(detail, place, granted, next)?;
        self.grant(granted, next);
        Ok(())
    }

    fn take_dpo(
        &mut self,
        detail: Detail,
        place: Place,
        packets: u8,
        offset: u32,
    ) -> Result<(), AllocError>
        ensures { OnOk result (self.new ≡ noted detail place (Window (offset + 1) (offset + packets)) self.old) }
    {
        let step = Step::Window {
            first: u64::from(offset) + 1,
            last: u64::from(offset) + u64::from(packets),
        };
        self.note(detail, place, step)
    }

    fn take_cm(&mut self, detail: Detail, place: Place, frame: &CmFrame) -> Result<(), AllocError>
        ensures { OnOk result (self.new ≡ with_cm detail place frame.now self.old) }
    {
        match frame {
            CmFrame::Cts { granted, next, .. } => {
                self.take_cts(detail, place, *granted, u32::from(*next))
            }
            CmFrame::EtpCts { granted, next, .. } => {
                self.take_cts(detail, place, *granted, *next)
            }
            CmFrame::EtpDpo {
                packets,
                offset,
                ..
            } => self.take_dpo(detail, place, *packets, *offset),
            CmFrame::Rts { .. } => Ok(()),
            CmFrame::EndOfMsgAck { .. } => Ok(()),
            CmFrame::Bam { .. } => Ok(()),
            CmFrame::Abort { .. } => Ok(()),
            CmFrame::EtpRts { .. } => Ok(()),
            CmFrame::EtpEoma { .. } => Ok(()),
            CmFrame::EtpAbort { .. } => Ok(()),
        }
    }

    /// A connection management frame of one of its ends is seen. One of another PGN isn't of this message.
    pub(crate) fn follow(
        &mut self,
        detail: Detail,
        frame: &CmFrame,
        place: Place,
    ) -> Result<(), AllocError>
        ensures { OnOk result (self.new ≡ cm_followed detail frame.now place self.old) }
    {
        if frame.pgn().clean() != self.pgn {
            return Ok(());
        }
        self.go_on(place);
        self.take_cm(detail, place, frame)
    }
}
