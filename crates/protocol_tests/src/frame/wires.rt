//! The frame table: what frames mean, and which have no meaning. Frames are rows of tables, which one function reads: a table needs no proof,
//! and each call in a test does.
use crate::checks::{holds, same};
use crate::means::{Cm, FECA, FIRST, Means, Packet, frame, wire};
use bus_frame::Frame;
use pgn_ids::read_id;
use std::process::Abort;
use tp_wire::*;

/// The source and the destination of a frame.
type Ends = (u8, u8);

const A_TO_B: Ends = (0x21, 0x35);

const B_TO_A: Ends = (0x35, 0x21);

const A_TO_ALL: Ends = (0x21, 0xFF);

const B_TO_ALL: Ends = (0x35, 0xFF);

const NULL_TO_B: Ends = (0xFE, 0x35);

// Whether it means so from and to these addresses if its identifier is read already.
fn means_in_place(frame: &Frame, wire: &Wire<'_>, ends: Ends) -> bool {
    match read_in_place(frame, &read_id(frame.id())) {
        None => false,
        Some((read_wire, from, to)) => read_wire == *wire && (from.0, to.0) == ends,
    }
}

// Whether a frame means so from and to these addresses, and is what is written for that, or isn't.
fn means(frame: &Frame, wire: &Wire<'_>, ends: Ends, is_written: bool) -> bool {
    let Some((read_wire, from, to)) = read(frame) else {
        return false;
    };
    read_wire == *wire
        && (from.0, to.0) == ends
        && (write(read_wire, from, to) == *frame) == is_written
}

// Calls whose result alone a test looks at: their contracts are not carried through it.
fn is_of_transport(frame: &Frame) -> bool {
    is_transport(frame)
}

fn has_meaning(frame: &Frame) -> bool {
    read(frame).is_some() || read_in_place(frame, &read_id(frame.id())).is_some()
}

// A frame by its identifier, its bytes and how many of these it has.
fn frame_of(rt: &impl Abort, id: u32, bytes: &[u8; 8], len: usize) -> Frame {
    holds(rt, len <= 8);
    frame(rt, id, &bytes[..len])
}

// A frame by its identifier, its bytes and how many of these it has; what it means and between which nodes, and whether just this frame is
// written for that.
type Row = (u32, [u8; 8], usize, Means, Ends, bool);

fn is_so(rt: &impl Abort, (id, bytes, len, meaning, ends, is_written): &Row) -> bool {
    let frame = frame_of(rt, *id, bytes, *len);
    let wire = wire(rt, meaning);
    is_of_transport(&frame)
        && means(&frame, &wire, *ends, *is_written)
        && means_in_place(&frame, &wire, *ends)
}

// Ends the test at the first row that isn't so, and prints its place in the table.
fn are_so(rt: &impl Abort, rows: &[Row]) {
    for (place, row) in rows.iter().enumerate() {
        same(rt, (place, is_so(rt, row)), (place, true));
    }
}

const ROWS: [Row; 14] = [
    // Frames that begin a message.
    (
        0x1CEC_3521,
        [0x10, 0xF9, 0x06, 0xFF, 0xFF, 0xCA, 0xFE, 0x00],
        8,
        Means::Cm(Cm::Rts(1785, 255, 255)),
        A_TO_B,
        true,
    ),
    (
        0x1CEC_FF21,
        [0x20, 0x09, 0x00, 0x02, 0xFF, 0xCA, 0xFE, 0x00],
        8,
        Means::Cm(Cm::Bam(9, 2)),
        A_TO_ALL,
        true,
    ),
    (
        0x1CC8_3521,
        [0x14, 0xFA, 0x06, 0x00, 0x00, 0xCA, 0xFE, 0x00],
        8,
        Means::Cm(Cm::EtpRts(1786)),
        A_TO_B,
        true,
    ),
    (
        0x1CC8_3521,
        [0x14, 0xF9, 0xFF, 0xFF, 0x06, 0xCA, 0xFE, 0x00],
        8,
        Means::Cm(Cm::EtpRts(117_440_505)),
        A_TO_B,
        true,
    ),
    // Windows.
    (
        0x1CEC_2135,
        [0x11, 0x0F, 0xF1, 0xFF, 0xFF, 0xCA, 0xFE, 0x00],
        8,
        Means::Cm(Cm::Cts(15, 241)),
        B_TO_A,
        true,
    ),
    (
        0x1CC8_2135,
        [0x15, 0x40, 0x01, 0x00, 0x00, 0xCA, 0xFE, 0x00],
        8,
        Means::Cm(Cm::EtpCts(64, 1)),
        B_TO_A,
        true,
    ),
    (
        0x1CC8_3521,
        [0x16, 0x40, 0xC0, 0x00, 0x00, 0xCA, 0xFE, 0x00],
        8,
        Means::Cm(Cm::EtpDpo(64, 192)),
        A_TO_B,
        true,
    ),
    // Packets.
    (
        0x1CEB_FF21,
        [0x01, 0x01, 0x02, 0x03, 0x04, 0x05, 0x06, 0x07],
        8,
        Means::Packet(FIRST),
        A_TO_ALL,
        true,
    ),
    (
        0x1CC7_3521,
        [0x40, 0xFA, 0xFF, 0xFF, 0xFF, 0xFF, 0xFF, 0xFF],
        8,
        Means::Packet(Packet {
            kind: Kind::Etp,
            sequence: 64,
            bytes: [0xFA, 0xFF, 0xFF, 0xFF, 0xFF, 0xFF, 0xFF],
        }),
        A_TO_B,
        true,
    ),
    // Frames that acknowledge a message, and those that abort one.
    (
        0x1CEC_2135,
        [0x13, 0xF9, 0x06, 0xFF, 0xFF, 0xCA, 0xFE, 0x00],
        8,
        Means::Cm(Cm::End(1785, 255)),
        B_TO_A,
        true,
    ),
    (
        0x1CC8_2135,
        [0x17, 0xFA, 0x06, 0x00, 0x00, 0xCA, 0xFE, 0x00],
        8,
        Means::Cm(Cm::EtpEnd(1786)),
        B_TO_A,
        true,
    ),
    (
        0x1CEC_3521,
        [0xFF, 0x03, 0xFF, 0xFF, 0xFF, 0xCA, 0xFE, 0x00],
        8,
        Means::Cm(Cm::Abort(3)),
        A_TO_B,
        true,
    ),
    (
        0x1CC8_2135,
        [0xFF, 0xFA, 0xFF, 0xFF, 0xFF, 0xCA, 0xFE, 0x00],
        8,
        Means::Cm(Cm::EtpAbort(250)),
        B_TO_A,
        true,
    ),
    // An Acknowledgement.
    (
        0x18E8_FF35,
        [0x01, 0xFF, 0xFF, 0xFF, 0x21, 0x00, 0xEC, 0x00],
        8,
        Means::Ack(1, 0x21, 0xEC00),
        B_TO_ALL,
        true,
    ),
];

#[test]
fn rows_of_the_frame_table(rt: HostRuntime) {
    are_so(&rt, &ROWS);
}

const REQUEST: [u8; 8] = [0x00, 0xEC, 0x00, 0xFF, 0xFF, 0xFF, 0xFF, 0xFF];

const OF_CM: Means = Means::Request(0xEC00);

const REQUESTS: [Row; 12] = [
    (0x18EA_3521, REQUEST, 3, OF_CM, A_TO_B, true),
    (0x18EA_3521, REQUEST, 4, OF_CM, A_TO_B, false),
    (0x18EA_3521, REQUEST, 5, OF_CM, A_TO_B, false),
    (0x18EA_3521, REQUEST, 6, OF_CM, A_TO_B, false),
    (0x18EA_3521, REQUEST, 7, OF_CM, A_TO_B, false),
    (0x18EA_3521, REQUEST, 8, OF_CM, A_TO_B, false),
    (0x18EA_35FE, REQUEST, 3, OF_CM, NULL_TO_B, true),
    (0x18EA_35FE, REQUEST, 4, OF_CM, NULL_TO_B, false),
    (0x18EA_35FE, REQUEST, 5, OF_CM, NULL_TO_B, false),
    (0x18EA_35FE, REQUEST, 6, OF_CM, NULL_TO_B, false),
    (0x18EA_35FE, REQUEST, 7, OF_CM, NULL_TO_B, false),
    (0x18EA_35FE, REQUEST, 8, OF_CM, NULL_TO_B, false),
];

#[test]
fn requests_are_read_by_three_bytes(rt: HostRuntime) {
    are_so(&rt, &REQUESTS);
}

const ABORT: Means = Means::Cm(Cm::Abort(2));

const ABORT_00: [u8; 8] = [0xFF, 0x02, 0x00, 0x00, 0x00, 0xCA, 0xFE, 0x00];

const ABORT_5A: [u8; 8] = [0xFF, 0x02, 0x5A, 0x5A, 0x5A, 0xCA, 0xFE, 0x00];

const ABORT_FF: [u8; 8] = [0xFF, 0x02, 0xFF, 0xFF, 0xFF, 0xCA, 0xFE, 0x00];

const ABORTS: [Row; 9] = [
    (0x1CEC_3521, ABORT_00, 8, ABORT, A_TO_B, false),
    (0x1CEC_3521, ABORT_5A, 8, ABORT, A_TO_B, false),
    (0x1CEC_3521, ABORT_FF, 8, ABORT, A_TO_B, true),
    (0x18EC_3521, ABORT_00, 8, ABORT, A_TO_B, false),
    (0x18EC_3521, ABORT_5A, 8, ABORT, A_TO_B, false),
    (0x18EC_3521, ABORT_FF, 8, ABORT, A_TO_B, false),
    (0x00EC_3521, ABORT_00, 8, ABORT, A_TO_B, false),
    (0x00EC_3521, ABORT_5A, 8, ABORT, A_TO_B, false),
    (0x00EC_3521, ABORT_FF, 8, ABORT, A_TO_B, false),
];

#[test]
fn reserved_bytes_and_priorities_may_be_any(rt: HostRuntime) {
    are_so(&rt, &ABORTS);
}

const PACKET: [u8; 8] = [0x01, 0x01, 0x02, 0x03, 0x04, 0x05, 0x06, 0x07];

const CTS: [u8; 8] = [0x11, 0x01, 0x01, 0xFF, 0xFF, 0xCA, 0xFE, 0x00];

const BAM: [u8; 8] = [0x20, 0x09, 0x00, 0x02, 0xFF, 0xCA, 0xFE, 0x00];

// Frames without a meaning, each by its identifier, its bytes and how many of these it has, and whether its PGN is one of the frame table.
const MEANINGLESS: [(u32, [u8; 8], usize, bool); 14] = [
    // Sequence number 0, a PGN field above 18 bits, an unknown control byte, seven bytes, and two of a Request.
    (
        0x1CEB_FF80,
        [0x00, 0x01, 0x02, 0x03, 0x04, 0x05, 0x06, 0x07],
        8,
        true,
    ),
    (
        0x1CEC_3580,
        [0x10, 0x09, 0x00, 0x02, 0xFF, 0xCA, 0xFE, 0x04],
        8,
        true,
    ),
    (
        0x1CEC_3580,
        [0x12, 0x09, 0x00, 0x02, 0xFF, 0xCA, 0xFE, 0x00],
        8,
        true,
    ),
    (0x1CEC_3580, BAM, 7, true),
    (0x18EA_3521, CTS, 2, true),
    // A CTS to all, to the null address and from it, a BAM to one node, a packet of ETP to all, and a Request from all.
    (0x1CEC_FF80, CTS, 8, true),
    (0x1CEC_FE80, CTS, 8, true),
    (0x1CEC_35FE, CTS, 8, true),
    (0x1CEC_3580, BAM, 8, true),
    (0x1CC7_FF80, PACKET, 8, true),
    (0x18EA_35FF, REQUEST, 8, true),
    // Other traffic: the data page, the extended data page, and a frame of another PGN.
    (0x1DEC_3521, CTS, 8, false),
    (0x1EEC_3521, CTS, 8, false),
    (0x0CF0_0400, CTS, 8, false),
];

fn is_meaningless(
    rt: &impl Abort,
    (id, bytes, len, is_of_table): &(u32, [u8; 8], usize, bool),
) -> bool {
    let frame = frame_of(rt, *id, bytes, *len);
    !has_meaning(&frame) && is_of_transport(&frame) == *is_of_table
}

#[test]
fn malformed_frames_and_other_traffic_have_no_meaning(rt: HostRuntime) {
    for (place, row) in MEANINGLESS.iter().enumerate() {
        same(&rt, (place, is_meaningless(&rt, row)), (place, true));
    }
}

// Meanings, their kind and their PGN.
const FIELDS: [(Means, Option<Kind>, Option<u32>); 3] = [
    (Means::Cm(Cm::EtpDpo(64, 192)), Some(Kind::Etp), Some(FECA)),
    (Means::Packet(FIRST), Some(Kind::Tp), None),
    (Means::Request(FECA), None, Some(FECA)),
];

// Whether a frame of a connection says both itself.
fn says_itself(wire: &Wire<'_>, kind: Option<Kind>, pgn: Option<u32>) -> bool {
    match wire {
        Wire::Cm(frame) => Some(frame.kind()) == kind && Some(frame.pgn().raw()) == pgn,
        _ => true,
    }
}

fn has_fields(rt: &impl Abort, (meaning, kind, pgn): &(Means, Option<Kind>, Option<u32>)) -> bool {
    let wire = wire(rt, meaning);
    let raw = match wire.pgn() {
        Some(pgn) => Some(pgn.raw()),
        None => None,
    };
    wire.kind() == *kind && raw == *pgn && says_itself(&wire, *kind, *pgn)
}

#[test]
fn fields_of_a_meaning(rt: HostRuntime) {
    for (place, row) in FIELDS.iter().enumerate() {
        same(&rt, (place, has_fields(&rt, row)), (place, true));
    }
    let reasons = (AbortReason::Timeout.byte(), AbortReason::Other.byte());
    same(&rt, reasons, (3, 250));
}
