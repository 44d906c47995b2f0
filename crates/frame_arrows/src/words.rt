//! What a frame means, in words.
ghost use Rattle.std.specs.Prelude.{◌≡◌, ◌++◌, OnOk, codes};
ghost use Rattle.std.specs.Fmt.{decimal};
ghost use Rattle.text_digits.specs.Digits.{digits};
ghost use Rattle.frame_arrows.specs.Words.{name_of, size_words, from_words, grant_words, management_words, packet_words, words_of, length_words, other_words, meaning_words, ends, arrow_of};

use bus_frame::Frame;
use pgn_ids::{Address, Pgn, read_id};
use std::alloc::AllocError;
use text_digits::{put_decimal, put_digits, put_text};
use tp_wire::{CmFrame, Wire, read};

/// A PGN, in five hexadecimal digits.
pub fn put_pgn(out: &mut Vec<u8>, pgn: Pgn) -> Result<(), AllocError>
    ensures { OnOk result (out.new.items ≡ out.old.items ++ digits 16 5 pgn) }
{
    put_digits(out, 16, 5, u64::from(pgn.raw()))
}

/// The name of a participant: a node by its address in two hexadecimal digits, or all.
#[tactic(auto, unfolding(crate::specs::Words::name_of))]
pub fn put_name(out: &mut Vec<u8>, address: Address) -> Result<(), AllocError>
    ensures { OnOk result (out.new.items ≡ out.old.items ++ name_of address) }
{
    if address.0 == 255 {
        return put_text(out, "all");
    }
    put_digits(out, 16, 2, u64::from(address.0))
}

fn put_size(out: &mut Vec<u8>, size: u16, packets: u8) -> Result<(), AllocError>
    ensures { OnOk result (out.new.items ≡ out.old.items ++ size_words size packets) }
{
    put_decimal(out, u64::from(size))?;
    put_text(out, " bytes in ")?;
    put_decimal(out, u64::from(packets))?;
    put_text(out, " packets")
}

fn put_from(out: &mut Vec<u8>, packets: u8, from: u32) -> Result<(), AllocError>
    ensures { OnOk result (out.new.items ≡ out.old.items ++ from_words packets from) }
{
    put_decimal(out, u64::from(packets))?;
    put_text(out, " packets from ")?;
    put_decimal(out, u64::from(from))
}

fn put_grant(out: &mut Vec<u8>, granted: u8, next: u32) -> Result<(), AllocError>
    ensures { OnOk result (out.new.items ≡ out.old.items ++ grant_words granted next) }
{
    if granted == 0 {
        return put_text(out, "hold");
    }
    put_text(out, "CTS ")?;
    put_from(out, granted, next)
}

fn put_abort(out: &mut Vec<u8>, reason: u8) -> Result<(), AllocError>
    ensures { OnOk result (out.new.items ≡ out.old.items ++ (codes "abort " ++ decimal reason)) }
{
    put_text(out, "abort ")?;
    put_decimal(out, u64::from(reason))
}

#[tactic(auto, unfolding(crate::specs::Words::management_words))]
fn put_management(out: &mut Vec<u8>, frame: &CmFrame) -> Result<(), AllocError>
    ensures { OnOk result (out.new.items ≡ out.old.items ++ management_words frame.now) }
{
    match frame {
        CmFrame::Rts { size, packets, .. } => {
            put_text(out, "RTS ")?;
            put_size(out, *size, *packets)
        }
        CmFrame::Cts { granted, next, .. } => put_grant(out, *granted, u32::from(*next)),
        CmFrame::EndOfMsgAck { .. } => put_text(out, "end of message"),
        CmFrame::Bam { size, packets, .. } => {
            put_text(out, "BAM ")?;
            put_size(out, *size, *packets)
        }
        CmFrame::Abort { reason, .. } => put_abort(out, *reason),
        CmFrame::EtpRts { size, .. } => {
            put_text(out, "RTS ")?;
            put_decimal(out, u64::from(*size))?;
            put_text(out, " bytes")
        }
        CmFrame::EtpCts { granted, next, .. } => put_grant(out, *granted, *next),
        CmFrame::EtpDpo {
            packets,
            offset,
            ..
        } => {
            put_text(out, "DPO ")?;
            put_from(out, *packets, *offset)
        }
        CmFrame::EtpEoma { .. } => put_text(out, "end of message"),
        CmFrame::EtpAbort { reason, .. } => put_abort(out, *reason),
    }
}

/// Packets with the sequence numbers from `first` to `last`.
pub fn put_packets(out: &mut Vec<u8>, first: u8, last: u8) -> Result<(), AllocError>
    ensures { OnOk result (out.new.items ≡ out.old.items ++ packet_words first last) }
{
    if first == last {
        put_text(out, "packet ")?;
        return put_decimal(out, u64::from(first));
    }
    put_text(out, "packets ")?;
    put_decimal(out, u64::from(first))?;
    put_text(out, " to ")?;
    put_decimal(out, u64::from(last))
}

#[tactic(auto, unfolding(crate::specs::Words::words_of))]
fn put_words(out: &mut Vec<u8>, wire: &Wire<'_>) -> Result<(), AllocError>
    ensures { OnOk result (out.new.items ≡ out.old.items ++ words_of wire.now) }
{
    match wire {
        Wire::Cm(frame) => put_management(out, frame),
        Wire::Packet { sequence, .. } => put_packets(out, *sequence, *sequence),
        Wire::Request { .. } => put_text(out, "Request"),
        Wire::Ack { .. } => put_text(out, "Acknowledgement"),
    }
}

/// The beginning of an arrow's line, up to its words.
pub fn put_ends(out: &mut Vec<u8>, from: Address, to: Address) -> Result<(), AllocError>
    ensures { OnOk result (out.new.items ≡ out.old.items ++ ends from to) }
{
    put_text(out, "  ")?;
    put_name(out, from)?;
    put_text(out, "->>")?;
    put_name(out, to)?;
    put_text(out, ": ")
}

/// How many bytes there are, behind a comma.
#[tactic(auto, unfolding(crate::specs::Words::length_words))]
pub fn put_length(out: &mut Vec<u8>, bytes: u64) -> Result<(), AllocError>
    ensures { OnOk result (out.new.items ≡ out.old.items ++ length_words bytes) }
{
    put_text(out, ", ")?;
    put_decimal(out, bytes)?;
    put_text(out, " bytes")
}

/// A frame of other traffic, or a malformed one, by its PGN and how many bytes it has.
#[tactic(auto, unfolding(crate::specs::Words::other_words))]
fn put_other(out: &mut Vec<u8>, pgn: Pgn, bytes: u64) -> Result<(), AllocError>
    ensures { OnOk result (out.new.items ≡ out.old.items ++ other_words pgn bytes) }
{
    put_text(out, "frame ")?;
    put_pgn(out, pgn)?;
    put_length(out, bytes)
}

/// What a frame means, in words.
#[tactic(auto, unfolding(crate::specs::Words::meaning_words))]
pub fn put_meaning(out: &mut Vec<u8>, frame: &Frame) -> Result<(), AllocError>
    ensures { OnOk result (out.new.items ≡ out.old.items ++ meaning_words frame.now) }
{
    let Some((wire, _, _)) = read(frame) else {
        let meaning = read_id(frame.id());
        return put_other(out, meaning.pgn, frame.bytes().len() as u64);
    };
    put_words(out, &wire)
}

/// The arrow of a frame.
#[tactic(auto, unfolding(crate::specs::Words::arrow_of, crate::specs::Words::arrow_line))]
pub(crate) fn draw_frame(out: &mut Vec<u8>, frame: &Frame) -> Result<(), AllocError>
    ensures { OnOk result (out.new.items ≡ out.old.items ++ arrow_of frame.now) }
{
    let meaning = read_id(frame.id());
    put_ends(out, meaning.from, meaning.to)?;
    put_meaning(out, frame)?;
    put_text(out, "\n")
}
