//! Lines of 8,192 bytes, and 1,000,000 of them.
use super::{BEHIND, many, shows};
use crate::checks::got;

#[test]
fn lines_have_their_limits(rt: HostRuntime) {
    let alloc = rt.alloc();
    let mut script = got(&rt, many(alloc, b' ', 8192));
    shows(&rt, alloc, script.as_slice(), "", "");
    got(&rt, script.push(b' '));
    shows(&rt, alloc, script.as_slice(), "", "line 1: line too long");
    let mut script = got(&rt, many(alloc, b'\n', 1_000_000));
    shows(&rt, alloc, script.as_slice(), "", "");
    got(&rt, script.push(b'x'));
    shows(
        &rt,
        alloc,
        script.as_slice(),
        "",
        "line 1000001: too many lines",
    );
    let long = got(&rt, many(alloc, b' ', BEHIND));
    got(&rt, script.extend_from_slice(long.as_slice()));
    shows(
        &rt,
        alloc,
        script.as_slice(),
        "",
        "line 1000001: too many lines",
    )
}
