//! Cutting a message into packets. It takes no memory.
ghost use Rattle.std.specs.Prelude.{◌≡◌, ◌-◌, ◌<◌, ◌≤◌, ◌++◌, length, replicate};
ghost use Rattle.seg_cut.specs.Packets.{packet_count, packet as packet_of};

/// How many bytes of a message a data frame carries, behind its sequence number.
pub(crate) const PACKET_BYTES: usize = 7;

/// The bytes of the last packet past the end of the message.
const FILLING: u8 = 0xff;

/// How many packets a message of `size` bytes has: the size divided by seven, rounded up.
pub const fn packets(size: u32) -> u32
    ensures { result ≡ packet_count size }
{
    size.div_ceil(PACKET_BYTES as u32)
}

/// Packet `k` of a message, from 1: its bytes from place 7(k-1), counted from 0, filled up with FF.
#[inline]
pub fn packet(bytes: &[u8], k: u32) -> [u8; 7]
    requires from_first { 1 ≤ k }
    requires to_last { k ≤ packet_count (length bytes.now) }
    ensures { result ≡ packet_of bytes.now k }
{
    let rest = &bytes[PACKET_BYTES * (k as usize - 1)..];
    match rest.first_chunk() {
        Some(packet) => *packet,
        None => fill_up(rest),
    }
}

/// The last bytes of a message as a packet.
fn fill_up(rest: &[u8]) -> [u8; 7]
    requires { length rest.now < 7 }
    ensures { result ≡ rest.now ++ replicate (7 - length rest.now) 255 }
{
    let mut packet = [FILLING; PACKET_BYTES];
    packet[..rest.len()].copy_from_slice(rest);
    packet
}
