//! Arrows with times, one for packets that follow on one another.
ghost use Rattle.std.specs.Prelude.{◌≡◌, ◌++◌, OnOk, IfOk};
ghost use Rattle.log_drawing.specs.Packets.{stamp, until_words, run_words, open_line, closing, frame_line, alone, with_packet, open_after, drawn_at};

use bus_frame::Frame;
use frame_arrows::{Run, goes_on, longer, put_ends, put_meaning, put_packets, run_of};
use log_text::put_time;
use pgn_ids::read_id;
use std::alloc::AllocError;
use text_digits::put_text;

/// Packets that follow on one another, which aren't drawn yet, since the next one may follow on them.
#[derive(Clone, Copy)]
pub(crate) struct Packets {
    /// The packets.
    pub(crate) run: Run,
    /// The time of the first one, if the log has it.
    pub(crate) since: Option<u64>,
    /// The time of the last one.
    pub(crate) until: Option<u64>,
}

/// A time in front of words.
fn put_stamp(out: &mut Vec<u8>, time: Option<u64>) -> Result<(), AllocError>
    ensures { OnOk result (out.new.items ≡ out.old.items ++ stamp time) }
{
    let Some(time) = time else {
        return Ok(());
    };
    put_time(out, time)?;
    put_text(out, " ")
}

/// The time of the last of several packets, behind the words.
fn put_until(out: &mut Vec<u8>, packets: &Packets) -> Result<(), AllocError>
    ensures { OnOk result (out.new.items ≡ out.old.items ++ until_words packets.now) }
{
    if packets.run.first == packets.run.last {
        return Ok(());
    }
    let Some(time) = packets.until else {
        return Ok(());
    };
    put_text(out, " until ")?;
    put_time(out, time)
}

#[tactic(auto, unfolding(crate::specs::Packets::run_words))]
fn put_run(out: &mut Vec<u8>, packets: &Packets) -> Result<(), AllocError>
    ensures { OnOk result (out.new.items ≡ out.old.items ++ run_words packets.now) }
{
    put_stamp(out, packets.since)?;
    put_packets(out, packets.run.first, packets.run.last)?;
    put_until(out, packets)
}

#[tactic(auto, unfolding(crate::specs::Packets::open_line, frame_arrows::specs::Words::arrow_line))]
fn draw_run(out: &mut Vec<u8>, packets: &Packets) -> Result<(), AllocError>
    ensures { OnOk result (out.new.items ≡ out.old.items ++ open_line packets.now) }
{
    put_ends(out, packets.run.from, packets.run.to)?;
    put_run(out, packets)?;
    put_text(out, "\n")
}

/// Draws the packets that are open, if there are any.
pub(crate) fn draw_open(out: &mut Vec<u8>, packets: Option<Packets>) -> Result<(), AllocError>
    ensures { OnOk result (out.new.items ≡ out.old.items ++ closing packets) }
{
    match packets {
        None => Ok(()),
        Some(packets) => draw_run(out, &packets),
    }
}

/// The arrow of a frame with its time.
#[tactic(auto, unfolding(crate::specs::Packets::frame_line, frame_arrows::specs::Words::arrow_line))]
fn draw_frame(out: &mut Vec<u8>, time: Option<u64>, frame: &Frame) -> Result<(), AllocError>
    ensures { OnOk result (out.new.items ≡ out.old.items ++ frame_line time frame.now) }
{
    let meaning = read_id(frame.id());
    put_ends(out, meaning.from, meaning.to)?;
    put_stamp(out, time)?;
    put_meaning(out, frame)?;
    put_text(out, "\n")
}

/// A packet with which others may follow.
fn alone(time: Option<u64>, packet: Run) -> Packets
    ensures { result ≡ alone time packet }
{
    Packets {
        run: packet,
        since: time,
        until: time,
    }
}

/// The open packets with one more that follows them. None if it doesn't, or if none are open.
fn with_packet(packets: Option<Packets>, time: Option<u64>, packet: Run) -> Option<Packets>
    ensures { result ≡ with_packet packets time packet }
{
    let packets = packets?;
    if !goes_on(Some(packets.run), packet) {
        return None;
    }
    Some(Packets {
        run: longer(Some(packets.run), packet),
        since: packets.since,
        until: time,
    })
}

/// The text drawn at a frame, and the packets that are open behind it.
#[tactic(auto, unfolding(crate::specs::Packets::drawn_at, crate::specs::Packets::open_after))]
pub(crate) fn draw_at(
    out: &mut Vec<u8>,
    packets: Option<Packets>,
    time: Option<u64>,
    frame: &Frame,
) -> Result<Option<Packets>, AllocError>
    ensures drawn { OnOk result (out.new.items ≡ out.old.items ++ drawn_at packets time frame.now) }
    ensures behind { IfOk result (λ behind. behind ≡ open_after packets time frame.now) }
{
    let Some(packet) = run_of(frame) else {
        draw_open(out, packets)?;
        draw_frame(out, time, frame)?;
        return Ok(None);
    };
    let longer = with_packet(packets, time, packet);
    if longer.is_some() {
        return Ok(longer);
    }
    draw_open(out, packets)?;
    Ok(Some(alone(time, packet)))
}
