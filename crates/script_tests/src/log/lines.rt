//! A line of a log, as it is written.
use crate::checks::{got, same};
use bus_frame::{CanId, Frame};
use log_text::{Iface, put_log_line};

#[test]
fn lines_are_written_as_candump_does(rt: HostRuntime) {
    let mut out = Vec::new(rt.alloc());
    let id = got(&rt, CanId::new(0x0CF0_0400));
    let frame = got(&rt, Frame::new(id, &[0xAB, 0x0C]));
    got(
        &rt,
        put_log_line(&mut out, 1_500_000, &got(&rt, Iface::new(b"can0")), &frame),
    );
    same(
        &rt,
        out.as_slice(),
        b"(0000000001.500000) can0 0CF00400#AB0C".as_slice(),
    );
}
