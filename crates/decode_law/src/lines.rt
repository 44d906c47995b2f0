//! How the lines of a log that was written are read.
ghost use Rattle.decode_law.specs.Lines.{LinesHaveForm, LinesAreReadInForm};

use log_text::written_lines_are_read_back;

/// A law: the line that is written for a frame has the form of a log with times, and in such a log it is read as that frame, at its time on
/// its interface.
pub fn written_lines_are_read_in_form()
    ensures form { LinesHaveForm }
    ensures read { LinesAreReadInForm }
{
    written_lines_are_read_back();
}
