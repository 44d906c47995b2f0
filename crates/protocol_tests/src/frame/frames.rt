use crate::checks::{got, holds, same};
use bus_frame::*;

#[test]
fn identifiers_and_their_parts(rt: HostRuntime) {
    holds(&rt, CanId::new(0x2000_0000) == Err(IdTooLarge));
    let last = got(&rt, CanId::new(0x1FFF_FFFF));
    same(&rt, last.raw(), 0x1FFF_FFFF);
    // An engine controller's electronic engine controller 1 message, priority 3, from address 0.
    let eec1 = got(&rt, CanId::new(0x0CF0_0400));
    let parts = IdParts {
        priority: 3,
        edp: 0,
        dp: 0,
        pf: 0xF0,
        ps: 0x04,
        sa: 0x00,
    };
    holds(&rt, eec1.parts() == parts);
    holds(&rt, CanId::from_parts(parts) == eec1);
}

const BYTES: [u8; 9] = [0x00, 0xEE, 0x00, 4, 5, 6, 7, 8, 9];

fn holds_bytes(id: CanId, bytes: &[u8]) -> bool {
    match Frame::new(id, bytes) {
        Ok(frame) => frame.id() == id && frame.bytes() == bytes,
        Err(DataTooLong) => false,
    }
}

#[test]
fn frames_hold_up_to_eight_bytes(rt: HostRuntime) {
    let id = got(&rt, CanId::new(0x18EA_FF21));
    holds(&rt, Frame::new(id, &BYTES) == Err(DataTooLong));
    for len in 0..9usize {
        same(&rt, (len, holds_bytes(id, &BYTES[..len])), (len, true));
    }
    let full = Frame::full(id, [1; 8]);
    holds(&rt, full == got(&rt, Frame::new(id, &[1; 8])));
}
