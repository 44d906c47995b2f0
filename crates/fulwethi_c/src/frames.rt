//! Frames from the bus and for the bus.
ghost use Rattle.std.specs.Prelude.{IsSome};
ghost use Rattle.one_station.specs.Answers.{IsSent, IsMissed};
ghost use Rattle.fulwethi_c.specs.Codes.{done_code, fed_code, missed_code, front_code};
ghost use Rattle.c_parts.specs.Calls.{IsMadeOn};
ghost use Rattle.c_parts.specs.Reads.{read_frame};
ghost use Rattle.fulwethi_c.specs.Calls.{IsFrameFed, IsFront, IsFrameWritten};

use crate::codes::{done_code, fed_code, missed_code};
use crate::handle::Handle;
use crate::shown::write_frame;
use c_parts::{CFrame, Parts, read_frame};
use one_station::{Fed, Node, NodeError};

/// Feeds a frame of another node, read from the bus.
#[unsafe(no_mangle)]
pub extern "C" fn fulwethi_raw_feed(of: Handle, id: u32, bytes: &[u8], out: &mut Handle) -> u32
    requires { IsSome of.node }
    ensures { IsMadeOn fed_code (IsFrameFed (read_frame id bytes.now)) of.node out.new.node result }
{
    let mut held = of.into_parts().into_box();
    let code = fed_code(feed(&mut held, id, bytes));
    *out = Handle::of_parts(Parts::of(held));
    code
}

fn feed(node: &mut Node, id: u32, bytes: &[u8]) -> Result<Fed, NodeError>
    ensures { IsFrameFed (read_frame id bytes.now) node.old node.new result }
{
    match read_frame(id, bytes) {
        Ok(frame) => node.feed(frame),
        Err(cause) => Err(NodeError::Refused(cause)),
    }
}

/// Frames of the bus were lost: what is under way ends.
#[unsafe(no_mangle)]
pub extern "C" fn fulwethi_raw_missed(of: Handle, out: &mut Handle) -> u32
    requires { IsSome of.node }
    ensures { IsMadeOn missed_code IsMissed of.node out.new.node result }
{
    let mut held = of.into_parts().into_box();
    let code = missed_code(held.missed());
    *out = Handle::of_parts(Parts::of(held));
    code
}

/// The frame that is next for the bus.
#[unsafe(no_mangle)]
pub extern "C" fn fulwethi_raw_front(of: Handle, frame: &mut CFrame, out: &mut Handle) -> u32
    requires { IsSome of.node }
    ensures { IsMadeOn front_code (λ before after answer. IsFront before after answer × IsFrameWritten frame.old frame.new answer) of.node out.new.node result }
{
    let mut held = of.into_parts().into_box();
    let code = write_frame(held.front(), frame);
    *out = Handle::of_parts(Parts::of(held));
    code
}

/// The frame of `front` was put on the bus.
#[unsafe(no_mangle)]
pub extern "C" fn fulwethi_raw_sent(of: Handle, out: &mut Handle) -> u32
    requires { IsSome of.node }
    ensures { IsMadeOn done_code IsSent of.node out.new.node result }
{
    let mut held = of.into_parts().into_box();
    let code = done_code(held.sent());
    *out = Handle::of_parts(Parts::of(held));
    code
}
