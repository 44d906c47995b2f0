//! The courses of the messages under way.
ghost use Rattle.std.specs.Prelude.{◌≡◌, [], OnOk, IfOk};
ghost use Rattle.log_courses.specs.Course.{longer, noted, begun, cm_followed};
ghost use Rattle.log_reports.specs.declared.marks.Step.TheVariants.{Announcement};
ghost use Rattle.log_courses.specs.Courses.{is_by_frame, ends_by_frame, alone, course_of, without_told, is_refusal, refuses, is_refused, key_between, put, announced, changed_at, cm_frame_followed, wire_followed, followed};

use crate::course::Course;
use bus_frame::Frame;
use indexmap::IndexMap;
use log_fields::Iface;
use log_reports::{Cause, Detail, Key, Place, Step, Told, Transport, key_told, pgn_told};
use pgn_ids::{Address, Pgn, WirePgn};
use std::alloc::{AllocError, Global};
use std::marker::Model;
use tp_wire::{CmFrame, Kind, Wire, read};

type Kept = IndexMap<Key, Course>;

/// The courses of the messages under way.
pub struct Courses {
    kept: Kept,
}

impl Model for Courses {
    ghost use Rattle.log_courses.specs.Courses.{Courses};

    ghost Value = { Courses };

    ghost view = { λ c. c.kept.entries };
}

impl Drop for Courses {
    fn drop(self) {
        let Courses { kept: _ } = self;
    }
}

/// Whether the frame at which a message is lost for this cause is one of its own.
fn is_by_frame(cause: Cause) -> bool
    ensures { result ≡ is_by_frame cause }
{
    match cause {
        Cause::Missing => true,
        Cause::Replaced => false,
        Cause::TimedOut => false,
        Cause::WentBack => false,
        Cause::Acknowledged => true,
        Cause::Unsound => true,
        Cause::TooLong => true,
        Cause::EndOfLog => false,
    }
}

/// Whether the frame at which this is reported is one of the message.
fn ends_by_frame(told: &Told) -> bool
    ensures { result ≡ ends_by_frame told.now }
{
    match told {
        Told::Given { .. } => true,
        Told::Aborted { .. } => true,
        Told::Lost { cause, .. } => is_by_frame(*cause),
    }
}

fn is_refusal(cause: Cause) -> bool
    ensures { result ≡ is_refusal cause }
{
    match cause {
        Cause::Missing => false,
        Cause::Replaced => false,
        Cause::TimedOut => false,
        Cause::WentBack => false,
        Cause::Acknowledged => false,
        Cause::Unsound => true,
        Cause::TooLong => true,
        Cause::EndOfLog => false,
    }
}

/// Whether the message that a frame announces doesn't begin.
fn refuses(told: &Told) -> bool
    ensures { result ≡ refuses told.now }
{
    match told {
        Told::Given { .. } => false,
        Told::Aborted { .. } => false,
        Told::Lost { cause, .. } => is_refusal(*cause),
    }
}

fn is_refused(told: &[Told]) -> bool
    ensures { result ≡ is_refused told.now }
{
    for one in told {
        if refuses(one) {
            return true;
        }
    }
    false
}

/// The key of a message that goes from a node to another one.
pub(crate) fn key_between(iface: Iface, from: Address, to: Address, kind: Kind) -> Key
    ensures { result ≡ key_between iface from to kind }
{
    Key {
        iface,
        from,
        to,
        transport: Transport::of(kind),
    }
}

/// Counts one more frame of the message of a key, if one is under way.
fn go_on(kept: &mut Kept, key: Key, place: Place)
    ensures { kept.new.entries ≡ changed_at (longer place) key kept.old.entries }
{
    if let Some(at) = kept.get_index_of(&key) {
        kept[at].go_on(place);
    }
}

/// A connection management frame that is neither an announcement nor an abort.
fn follow_cm(
    kept: &mut Kept,
    detail: Detail,
    key: Key,
    frame: &CmFrame,
    place: Place,
) -> Result<(), AllocError>
    ensures { OnOk result (kept.new.entries ≡ changed_at (cm_followed detail frame.now place) key kept.old.entries) }
{
    if let Some(at) = kept.get_index_of(&key) {
        kept[at].follow(detail, frame, place)?;
    }
    Ok(())
}

/// The message of a key is announced again.
fn announce_again(kept: &mut Kept, detail: Detail, key: Key, place: Place) -> Result<(), AllocError>
    ensures { OnOk result (kept.new.entries ≡ changed_at (λ c. noted detail place Announcement (longer place c)) key kept.old.entries) }
{
    if let Some(at) = kept.get_index_of(&key) {
        kept[at].renew(detail, place)?;
    }
    Ok(())
}

/// A message begins.
fn begin(
    alloc: Global,
    kept: &mut Kept,
    detail: Detail,
    key: Key,
    pgn: Pgn,
    place: Place,
) -> Result<(), AllocError>
    ensures { OnOk result (kept.new.entries ≡ put key (noted detail place Announcement (begun pgn place)) kept.old.entries) }
{
    let mut course = Course::begun(alloc, pgn, place);
    course.note(detail, place, Step::Announcement)?;
    kept.insert(key, course)?;
    Ok(())
}

/// An announcement of a message that begins, or a repeated one.
fn announce(
    alloc: Global,
    kept: &mut Kept,
    detail: Detail,
    key: Key,
    pgn: WirePgn,
    place: Place,
    told: &[Told],
) -> Result<(), AllocError>
    ensures { OnOk result (kept.new.entries ≡ announced detail key pgn place told.now kept.old.entries) }
{
    if is_refused(told) {
        return Ok(());
    }
    if kept.get(&key).is_some() {
        return announce_again(kept, detail, key, place);
    }
    begin(alloc, kept, detail, key, pgn.clean(), place)
}

#[tactic(auto, unfolding(crate::specs::Courses::cm_frame_followed))]
fn follow_cm_frame(
    alloc: Global,
    kept: &mut Kept,
    detail: Detail,
    iface: Iface,
    from: Address,
    to: Address,
    frame: &CmFrame,
    place: Place,
    told: &[Told],
) -> Result<(), AllocError>
    ensures { OnOk result (kept.new.entries ≡ cm_frame_followed detail iface from to frame.now place told.now kept.old.entries) }
{
    let (sent_tp, sent_etp) = (
        key_between(iface, from, to, Kind::Tp),
        key_between(iface, from, to, Kind::Etp),
    );
    let (got_tp, got_etp) = (
        key_between(iface, to, from, Kind::Tp),
        key_between(iface, to, from, Kind::Etp),
    );
    match frame {
        CmFrame::Rts { pgn, .. } => announce(alloc, kept, detail, sent_tp, *pgn, place, told),
        CmFrame::Cts { .. } => follow_cm(kept, detail, got_tp, frame, place),
        CmFrame::EndOfMsgAck { .. } => follow_cm(kept, detail, got_tp, frame, place),
        CmFrame::Bam { pgn, .. } => announce(alloc, kept, detail, sent_tp, *pgn, place, told),
        CmFrame::Abort { .. } => Ok(()),
        CmFrame::EtpRts { pgn, .. } => announce(alloc, kept, detail, sent_etp, *pgn, place, told),
        CmFrame::EtpCts { .. } => follow_cm(kept, detail, got_etp, frame, place),
        CmFrame::EtpDpo { .. } => follow_cm(kept, detail, sent_etp, frame, place),
        CmFrame::EtpEoma { .. } => follow_cm(kept, detail, got_etp, frame, place),
        CmFrame::EtpAbort { .. } => Ok(()),
    }
}

#[tactic(auto, unfolding(crate::specs::Courses::wire_followed))]
fn follow_wire(
    alloc: Global,
    kept: &mut Kept,
    detail: Detail,
    iface: Iface,
    from: Address,
    to: Address,
    wire: &Wire<'_>,
    place: Place,
    told: &[Told],
) -> Result<(), AllocError>
    ensures { OnOk result (kept.new.entries ≡ wire_followed detail iface from to wire.now place told.now kept.old.entries) }
{
    match wire {
        Wire::Cm(frame) => {
            follow_cm_frame(alloc, kept, detail, iface, from, to, frame, place, told)
        }
        Wire::Packet { kind, .. } => {
            go_on(kept, key_between(iface, from, to, *kind), place);
            Ok(())
        }
        Wire::Request { .. } => Ok(()),
        Wire::Ack { .. } => Ok(()),
    }
}

/// The course of a report with no message under way: this one frame, which announces a message that doesn't begin, or aborts none.
fn alone(alloc: Global, detail: Detail, place: Place, told: &Told) -> Result<Course, AllocError>
    ensures { IfOk result (λ course. course ≡ alone detail place told.now) }
{
    let mut course = Course::begun(alloc, pgn_told(told), place);
    if refuses(told) {
        course.note(detail, place, Step::Announcement)?;
    } else if ends_by_frame(told) {
        course.end(detail, place)?;
    }
    Ok(course)
}

impl Courses {
    /// No message is under way. It takes no memory.
    pub fn new(alloc: Global) -> Courses
        ensures { result ≡ [] }
    {
        Courses {
            kept: IndexMap::new(alloc),
        }
    }

    /// Takes out the course of a report at a frame of the log, by the place of that frame. If none is under way, since the message didn't
    /// begin or an abort is of none, its course is this one frame. It fails only if memory is refused; what it leaves then is not specified.
    pub fn end(
        &mut self,
        alloc: Global,
        detail: Detail,
        place: Place,
        told: &Told,
    ) -> Result<Course, AllocError>
        ensures course { IfOk result (λ course. course ≡ course_of detail place told.now self.old) }
        ensures left { OnOk result (self.new ≡ without_told told.now self.old) }
    {
        let (key, pgn) = (key_told(told), pgn_told(told));
        match self.kept.get(&key) {
            None => return alone(alloc, detail, place, told),
            Some(course) => {
                if course.pgn != pgn {
                    return alone(alloc, detail, place, told);
                }
            }
        }
        let Some(course) = self.kept.shift_remove(&key) else {
            return alone(alloc, detail, place, told);
        };
        let mut course = course;
        if ends_by_frame(told) {
            course.go_on(place);
            course.end(detail, place)?;
        }
        Ok(course)
    }

    /// A frame is seen on an interface, at its place in the log. `told` has all reports at it, whose courses were taken out. It fails only if
    /// memory is refused; what it leaves then is not specified.
    #[tactic(auto, unfolding(crate::specs::Courses::followed))]
    pub fn follow(
        &mut self,
        alloc: Global,
        detail: Detail,
        iface: Iface,
        frame: &Frame,
        place: Place,
        told: &[Told],
    ) -> Result<(), AllocError>
        ensures { OnOk result (self.new ≡ followed detail iface frame.now place told.now self.old) }
    {
        let Some((wire, from, to)) = read(frame) else {
            return Ok(());
        };
        follow_wire(
            alloc,
            &mut self.kept,
            detail,
            iface,
            from,
            to,
            &wire,
            place,
            told,
        )
    }
}
