//! The readers of a node.
ghost use Rattle.std.specs.Prelude.{IsSome};
ghost use Rattle.c_parts.specs.Calls.{IsMadeOn, IsRead};
ghost use Rattle.c_parts.specs.Reads.{read_pgn};
ghost use Rattle.c_parts.specs.Shown.{shown_counts};
ghost use Rattle.fulwethi_c.specs.Codes.{refusal_code};
ghost use Rattle.fulwethi_c.specs.Shown.{shown_lane};
ghost use Rattle.fulwethi_c.specs.Calls.{IsSendRefused};
ghost use Rattle.segment_law.specs.Readers.{lane_seen};

use crate::codes::refusal_code;
use crate::handle::Handle;
use crate::shown::{CLane, show_lane};
use c_parts::{CCounts, DONE, Parts, read_pgn, show_counts};
use one_station::{Node, Refusal};
use pgn_ids::Address;

/// Writes what it counted.
#[unsafe(no_mangle)]
pub extern "C" fn fulwethi_raw_counts(of: Handle, counts: &mut CCounts, out: &mut Handle) -> u32
    requires { IsSome of.node }
    ensures { IsMadeOn (λ _. 0) (IsRead (λ node. shown_counts node.segment.counts) counts.new) of.node out.new.node result }
{
    let held = of.into_parts().into_box();
    *counts = show_counts(&held.counts());
    *out = Handle::of_parts(Parts::of(held));
    DONE
}

/// Writes what is seen of its lane to a destination.
#[unsafe(no_mangle)]
pub extern "C" fn fulwethi_raw_lane(of: Handle, to: u8, lane: &mut CLane, out: &mut Handle) -> u32
    requires { IsSome of.node }
    ensures { IsMadeOn (λ _. 0) (IsRead (λ node. shown_lane (lane_seen node.segment node.address record { 0 = to })) lane.new) of.node out.new.node result }
{
    let held = of.into_parts().into_box();
    *lane = show_lane(&held.lane(Address(to)));
    *out = Handle::of_parts(Parts::of(held));
    DONE
}

/// Writes the tick before which it sends no message.
#[unsafe(no_mangle)]
pub extern "C" fn fulwethi_raw_sends_from(of: Handle, tick: &mut u64, out: &mut Handle) -> u32
    requires { IsSome of.node }
    ensures { IsMadeOn (λ _. 0) (IsRead (λ node. node.quiet_until) tick.new) of.node out.new.node result }
{
    let held = of.into_parts().into_box();
    *tick = held.sends_from();
    *out = Handle::of_parts(Parts::of(held));
    DONE
}

/// Why a message of so many bytes would be refused, or `DONE`.
#[unsafe(no_mangle)]
pub extern "C" fn fulwethi_raw_send_refusal(
    of: Handle,
    to: u8,
    pgn: u32,
    len: usize,
    out: &mut Handle,
) -> u32
    requires { IsSome of.node }
    ensures { IsMadeOn refusal_code (IsSendRefused (record { 0 = to }) len (read_pgn pgn)) of.node out.new.node result }
{
    let held = of.into_parts().into_box();
    let code = refusal_code(send_refusal(&held, to, pgn, len));
    *out = Handle::of_parts(Parts::of(held));
    code
}

fn send_refusal(node: &Node, to: u8, pgn: u32, len: usize) -> Option<Refusal>
    ensures { IsSendRefused (record { 0 = to }) len (read_pgn pgn) node.now node.now result }
{
    match read_pgn(pgn) {
        Ok(_) => node.send_refusal(Address(to), len),
        Err(cause) => Some(cause),
    }
}
