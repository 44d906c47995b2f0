//! What is followed of the messages of a log.
ghost use Rattle.std.specs.Prelude.{◌≡◌, OnOk};
ghost use Rattle.bus_decode.specs.Followed.{none_followed, summed, frame_summed, with_frame_of};

use crate::options::Options;
use bus_frame::Frame;
use log_courses::{Course, Courses, Summary};
use log_reports::{Place, Told};
use log_text::Iface;
use std::alloc::{AllocError, Global};

/// The courses of the messages under way, and the counts of those that were reported, if these are asked for; else
/// none.
#[derive(Drop)]
pub(crate) struct Followed {
    pub(crate) courses: Courses,
    pub(crate) summary: Summary,
}

/// Counts a reported message with its course, if that is asked for.
pub(crate) fn sum_up(
    summary: &mut Summary,
    options: &Options,
    course: &Course,
    told: &Told,
) -> Result<(), AllocError>
    ensures { OnOk result (summary.new ≡ summed options.now course.now told.now summary.old) }
{
    if options.sums_up(told) {
        return summary.add(course, told);
    }
    Ok(())
}

/// Counts a frame, if that is asked for.
fn sum_frame(summary: &mut Summary, options: &Options, iface: Iface) -> Result<(), AllocError>
    ensures { OnOk result (summary.new ≡ frame_summed options.now iface summary.old) }
{
    if options.summary {
        return summary.add_frame(iface);
    }
    Ok(())
}

impl Followed {
    /// Nothing was heard. It takes no memory.
    pub(crate) fn none(alloc: Global) -> Followed
        ensures { result ≡ none_followed }
    {
        Followed {
            courses: Courses::new(alloc),
            summary: Summary::new(alloc),
        }
    }

    /// A frame is seen that has these reports.
    pub(crate) fn hear(
        &mut self,
        alloc: Global,
        options: &Options,
        iface: Iface,
        frame: &Frame,
        place: Place,
        told: &[Told],
    ) -> Result<(), AllocError>
        ensures { OnOk result (self.new ≡ with_frame_of options.now iface frame.now place told.now self.old) }
    {
        sum_frame(&mut self.summary, options, iface)?;
        self.courses
            .follow(alloc, options.detail(), iface, frame, place, told)
    }
}
