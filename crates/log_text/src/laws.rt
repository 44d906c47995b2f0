//! The law of lines of a log. It speaks of the definitions alone, and a call of it does nothing.
ghost use Rattle.std.specs.Prelude.{ℕ, List, ◌≡◌, ◌<◌, ◌^◌, Some};
ghost use Rattle.bus_frame.specs.Frames.{CanFrame};
ghost use Rattle.log_fields.specs.Iface.{iface_of};
ghost use Rattle.log_text.specs.Line.{log_line};
ghost use Rattle.log_text.specs.Written.{log_text, IsFrame};
ghost use Rattle.log_fields.specs.declared.iface.Iface.{Iface};
ghost use Rattle.log_text.specs.declared.line.LogLine.TheVariants as shows;

/// A law: the line that is written for a frame is read as that frame, at its time on its interface.
pub fn written_lines_are_read_back()
    ensures { (time : ℕ) (name : List ℕ) (iface : Iface) (f : CanFrame) → time < 2 ^ 64 → iface_of name ≡ Some iface → IsFrame f
        → log_line (log_text time iface f) ≡ Some (shows.Frame (Some time) iface f) }
{}
