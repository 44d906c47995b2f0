//! A message of 100,000 bytes, in which byte i is i modulo 256, with the exact text that is printed, which is too long for a file. A piece of it
//! that is refused memory is added again, so that the test passes whichever one allocation is refused.
use crate::checks::got;
use crate::script::scripts::shows;
use std::process::Abort;

const DIGITS: [&str; 16] = [
    "0", "1", "2", "3", "4", "5", "6", "7", "8", "9", "A", "B", "C", "D", "E", "F",
];

const LENGTH: u64 = 100_000;

/// Appends a piece.
fn add(rt: &impl Abort, text: &mut String, piece: &str) {
    if text.push_str(piece).is_err() {
        got(rt, text.push_str(piece));
    }
}

/// Appends two hexadecimal digits.
fn add_byte(rt: &impl Abort, text: &mut String, byte: u8) {
    add(rt, text, DIGITS[usize::from(byte / 16)]);
    add(rt, text, DIGITS[usize::from(byte % 16)])
}

/// Appends a packet, which has this number in the message.
fn add_packet(rt: &impl Abort, text: &mut String, sequence: u8, number: u32) {
    add(rt, text, "\x20\x20put 1CC73521 ");
    add_byte(rt, text, sequence);
    for byte in 0..7 {
        add(rt, text, " ");
        let place = (7 * u64::from(number) + byte).saturating_sub(6);
        if place > LENGTH {
            add(rt, text, "FF");
        } else {
            add_byte(rt, text, (place % 256) as u8);
        }
    }
    add(rt, text, "\n")
}

/// Appends a packet number or offset in three bytes, and the end of a line for FECA.
fn add_place(rt: &impl Abort, text: &mut String, place: u32) {
    add_byte(rt, text, (place % 256) as u8);
    add(rt, text, " ");
    add_byte(rt, text, (place / 256 % 256) as u8);
    add(rt, text, " ");
    add_byte(rt, text, (place / 65536 % 256) as u8);
    add(rt, text, " CA FE 00\n")
}

/// Appends a window: its clear to send, its offset and its packets.
fn add_window(rt: &impl Abort, text: &mut String, packets: u8, offset: u32) {
    add(rt, text, "\x20\x20put 1CC82135 15 ");
    add_byte(rt, text, packets);
    add(rt, text, " ");
    add_place(rt, text, offset.saturating_add(1));
    add(rt, text, "\x20\x20put 1CC83521 16 ");
    add_byte(rt, text, packets);
    add(rt, text, " ");
    add_place(rt, text, offset);
    for sequence in 1..=packets {
        add_packet(rt, text, sequence, offset.saturating_add(sequence.into()));
    }
}

/// Appends all windows: 223 of 64 packets, and one of 14.
fn add_windows(rt: &impl Abort, text: &mut String) {
    for window in 0..223u32 {
        add_window(rt, text, 64, 64 * window);
    }
    add_window(rt, text, 14, 14_272)
}

/// Appends the bytes of the message.
fn add_bytes(rt: &impl Abort, text: &mut String) {
    for place in 1..=LENGTH {
        add_byte(rt, text, (place % 256) as u8);
    }
}

const SCRIPT: &str = "stations 21 35\n\
open 35 FECA 200000\n\
send 21 35 FECA fill 100000\n\
drive 21 35 14736\n\
counts\n";

const BEFORE_WINDOWS: &str = "done\n\
opened 35.1\n\
sent 1\n\
drove 14736 turns\n\
\x20\x20put 1CC83521 14 A0 86 01 00 CA FE 00\n";

const BEFORE_BYTES: &str = "\x20\x20put 1CC82135 17 A0 86 01 00 CA FE 00\n\
\x20\x20given 35.1 21 35 0FECA 100000 ";

const BEHIND_BYTES: &str = "\n\
\x20\x20outcome 21 35 1 Acknowledged\n\
frames 14736 malformed 0 repeated 0 given 1 Acknowledged 1 Broadcast 0 Aborted 0 TimedOut 0 Overrun 0 Cancelled 0 Unreachable 0\n";

fn add_all(rt: &impl Abort, text: &mut String) {
    add(rt, text, BEFORE_WINDOWS);
    add_windows(rt, text);
    add(rt, text, BEFORE_BYTES);
    add_bytes(rt, text);
    add(rt, text, BEHIND_BYTES)
}

#[test]
fn message_of_100000_bytes_is_given(rt: HostRuntime) {
    let mut text = String::new(rt.alloc());
    add_all(&rt, &mut text);
    shows(&rt, rt.alloc(), SCRIPT.as_bytes(), text.as_str(), "")
}
