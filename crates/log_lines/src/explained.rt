//! What a message means in words, behind its line, and as a member of its JSON object.
ghost use Rattle.std.specs.Prelude.{◌≡◌, ◌++◌, OnOk};
ghost use Rattle.json.specs.Print.{quoted};
ghost use Rattle.log_lines.specs.Explained.{words_line, words_lines};
ghost use Rattle.log_lines.specs.Meanings.{explained_text};

use crate::lists::{Listed, put_list};
use crate::parts::{Part, Printed, put_each};
use crate::strings::put_quoted;
use log_reports::Line;
use std::alloc::AllocError;

impl Printed for Line {
    ghost text = { words_line };

    fn put(&self, out: &mut Vec<u8>) -> Result<(), AllocError> {
        let parts = [
            Part::Text("  "),
            Part::Bytes(self.as_slice()),
            Part::Text("\n"),
        ];
        put_each(out, &parts)
    }
}

/// Lines of words, each indented by two blanks.
#[tactic(auto, unfolding(crate::specs::Explained::words_lines))]
pub fn put_explained(out: &mut Vec<u8>, lines: &[Line]) -> Result<(), AllocError>
    ensures { OnOk result (out.new.items ≡ out.old.items ++ words_lines lines.now) }
{
    put_each(out, lines)
}

impl Listed for Line {
    ghost listed = { quoted };

    fn put_listed(&self, out: &mut Vec<u8>) -> Result<(), AllocError> {
        put_quoted(out, self.as_slice())
    }
}

/// The member of an object, behind another one, if there are lines.
pub(crate) fn put_meaning(out: &mut Vec<u8>, lines: &[Line]) -> Result<(), AllocError>
    ensures { OnOk result (out.new.items ≡ out.old.items ++ explained_text lines.now) }
{
    if lines.is_empty() {
        return Ok(());
    }
    put_list(out, ",\"explained\":[", lines, "]")
}
