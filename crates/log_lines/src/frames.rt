//! The frames of a message, as a member of its JSON object.
ghost use Rattle.std.specs.Prelude.{◌≡◌, ◌++◌, true, codes, OnOk};
ghost use Rattle.log_lines.specs.Objects.{object_of, member_text};
ghost use Rattle.serde_json.specs.Written.{compact_text};
ghost use Rattle.log_lines.specs.Frames.{plain_members, ranged_members, mark_text, frames_array, frames_text};

use crate::lists::{Listed, put_list};
use crate::parts::{Part, put_each};
use log_reports::{Detail, Mark, Place, Step};
use std::alloc::AllocError;

/// What a frame does, its number and its time.
fn put_plain(out: &mut Vec<u8>, kind: &str, place: Place) -> Result<(), AllocError>
    ensures { OnOk result (out.new.items ≡ out.old.items ++ compact_text (object_of (plain_members kind.now place))) }
{
    let parts = [
        Part::Text("{\"kind\":"),
        Part::Quoted(kind),
        Part::Text(",\"number\":"),
        Part::Number(place.number),
        Part::Text(",\"time\":"),
        Part::Number(place.time),
        Part::Text("}"),
    ];
    put_each(out, &parts)
}

/// A frame's object with the packets from one to another.
fn put_ranged(
    out: &mut Vec<u8>,
    kind: &str,
    place: Place,
    first: u64,
    last: u64,
) -> Result<(), AllocError>
    ensures { OnOk result (out.new.items ≡ out.old.items ++ compact_text (object_of (ranged_members kind.now place first last))) }
{
    let parts = [
        Part::Text("{\"from\":"),
        Part::Number(first),
        Part::Text(",\"kind\":"),
        Part::Quoted(kind),
        Part::Text(",\"number\":"),
        Part::Number(place.number),
        Part::Text(",\"time\":"),
        Part::Number(place.time),
        Part::Text(",\"to\":"),
        Part::Number(last),
        Part::Text("}"),
    ];
    put_each(out, &parts)
}

impl Listed for Mark {
    ghost listed = { mark_text };

    fn put_listed(&self, out: &mut Vec<u8>) -> Result<(), AllocError> {
        match self.step {
            Step::Announcement => put_plain(out, "announcement", self.place),
            Step::Window { first, last } => put_ranged(out, "window", self.place, first, last),
            Step::Again { first, last } => put_ranged(out, "again", self.place, first, last),
            Step::Hold => put_plain(out, "hold", self.place),
            Step::End => put_plain(out, "end", self.place),
        }
    }
}

fn put_member(out: &mut Vec<u8>, marks: &[Mark]) -> Result<(), AllocError>
    ensures { OnOk result (out.new.items ≡ out.old.items ++ member_text true (codes "frames") (frames_array marks.now)) }
{
    put_list(out, ",\"frames\":[", marks, "]")
}

/// The member of an object, behind another one, if frames are listed.
pub(crate) fn put_frames(
    out: &mut Vec<u8>,
    detail: Detail,
    marks: &[Mark],
) -> Result<(), AllocError>
    ensures { OnOk result (out.new.items ≡ out.old.items ++ frames_text detail marks.now) }
{
    match detail {
        Detail::Ends => Ok(()),
        Detail::Frames => put_member(out, marks),
    }
}
