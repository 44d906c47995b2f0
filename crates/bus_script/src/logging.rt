//! Frames in a log.
ghost use Rattle.std.specs.Prelude.{◌≡◌, ◌++◌, OnOk, flat_map, option_to_list};
ghost use Rattle.std.specs.List.{zip};
ghost use Rattle.bus_script.specs.Telling.{log_line, log_at, put_at};

use bus_frame::Frame;
use log_fields::TICK;
use log_text::{Iface, put_log_line};
use std::alloc::AllocError;

/// The line of a log of a frame that was put at this tick.
#[tactic(auto, unfolding(crate::specs::Telling::log_line))]
fn print_log(log: &mut Vec<u8>, now: u64, frame: &Frame) -> Result<(), AllocError>
    ensures { OnOk result (log.new.items ≡ log.old.items ++ log_line now frame.now) }
{
    let bus = Iface::bus0();
    put_log_line(log, now.saturating_mul(TICK), &bus, frame)?;
    log.push(b'\n')?;
    Ok(())
}

/// The lines of frames that were all put at this tick.
pub(crate) fn print_logged(log: &mut Vec<u8>, now: u64, frames: &[Frame]) -> Result<(), AllocError>
    ensures { OnOk result (log.new.items ≡ log.old.items ++ log_at now frames.now) }
{
    for frame in frames {
        print_log(log, now, frame)?;
    }
    Ok(())
}

/// The lines of frames that were put each at its tick.
pub(crate) fn print_timed(
    log: &mut Vec<u8>,
    times: &[u64],
    frames: &[Frame],
) -> Result<(), AllocError>
    ensures { OnOk result (log.new.items ≡ log.old.items ++ flat_map put_at (zip times.now frames.now)) }
{
    for (now, frame) in times.iter().zip(frames.iter()) {
        print_log(log, *now, frame)?;
    }
    Ok(())
}

/// The line of the frame of a call that puts one.
pub(crate) fn log_optional(
    log: &mut Vec<u8>,
    now: u64,
    put: Option<Frame>,
) -> Result<(), AllocError>
    ensures { OnOk result (log.new.items ≡ log.old.items ++ log_at now (option_to_list put)) }
{
    match put {
        Some(frame) => print_log(log, now, &frame),
        None => Ok(()),
    }
}
