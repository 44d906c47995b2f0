//! How many messages weren't given, by the reason.
ghost use Rattle.std.specs.Prelude.{◌≡◌, ◌++◌, OnOk};
ghost use Rattle.serde_json.specs.Written.{compact_text};
ghost use Rattle.log_lines.specs.Counts.{named_count, count_text, count_line, counts_object};

use crate::lists::{Listed, put_list};
use crate::parts::{Part, Printed, put_each};
use itoa::Buffer;
use log_courses::{Reason, ReasonCount};
use log_reports::cause_words;
use std::alloc::AllocError;

/// A count, as a member of an object.
fn put_count(out: &mut Vec<u8>, name: &str, n: u64) -> Result<(), AllocError>
    ensures { OnOk result (out.new.items ≡ out.old.items ++ named_count name.now n) }
{
    let parts = [Part::Quoted(name), Part::Text(":"), Part::Number(n)];
    put_each(out, &parts)
}

impl Listed for ReasonCount {
    ghost listed = { count_text };

    fn put_listed(&self, out: &mut Vec<u8>) -> Result<(), AllocError> {
        match self.reason {
            Reason::Abort(reason) => put_count(out, Buffer::new().format(reason), self.count),
            Reason::Loss(cause) => put_count(out, cause_words(cause), self.count),
        }
    }
}

/// The counts, as an object.
pub(crate) fn put_counts(out: &mut Vec<u8>, counts: &[ReasonCount]) -> Result<(), AllocError>
    ensures { OnOk result (out.new.items ≡ out.old.items ++ compact_text (counts_object counts.now)) }
{
    put_list(out, "{", counts, "}")
}

impl Printed for ReasonCount {
    ghost text = { count_line };

    fn put(&self, out: &mut Vec<u8>) -> Result<(), AllocError> {
        match self.reason {
            Reason::Abort(reason) => {
                let parts = [
                    Part::Text("  aborted "),
                    Part::Number(self.count),
                    Part::Text(" reason "),
                    Part::Number(u64::from(reason)),
                    Part::Text("\n"),
                ];
                put_each(out, &parts)
            }
            Reason::Loss(cause) => {
                let parts = [
                    Part::Text("  lost "),
                    Part::Number(self.count),
                    Part::Text(" "),
                    Part::Text(cause_words(cause)),
                    Part::Text("\n"),
                ];
                put_each(out, &parts)
            }
        }
    }
}
