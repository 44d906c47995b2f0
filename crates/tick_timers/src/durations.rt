//! How long each end of a transfer waits, in ticks of 1 ms (SAE J1939-21, transport protocol).
ghost use Rattle.std.specs.Prelude.{◌≡◌};

/// A receiver waits so long for the next packet, after a packet that it accepted or a broadcast announcement (BAM).
pub const T1: u64 = 750;

/// A receiver waits so long for the first packet of a window, after it queued the CTS.
pub const T2: u64 = 1250;

/// A sender waits so long for a CTS or the end acknowledgement, after its RTS or the last packet of a window.
pub const T3: u64 = 1250;

/// A sender waits so long for the next CTS after a CTS that asked it to hold.
pub const T4: u64 = 1050;

/// A receiver repeats a hold after so long, before the sender's `T4` is due.
pub const TH: u64 = 500;

/// A sender whose lane is in doubt waits so long for the Acknowledgement of its Request. The standard has no such time.
pub const PROBE: u64 = 1250;

/// Two frames of one broadcast message are queued at least so far apart; the standard asks for 50 to 200 ms.
pub const BROADCAST_GAP: u64 = 50;

/// A law: the times, in ticks of 1 ms.
pub fn durations_are_those_of_the_standard()
    ensures t1 { T1 ≡ 750 }
    ensures t2 { T2 ≡ 1250 }
    ensures t3 { T3 ≡ 1250 }
    ensures t4 { T4 ≡ 1050 }
    ensures th { TH ≡ 500 }
    ensures probe { PROBE ≡ 1250 }
    ensures broadcast_gap { BROADCAST_GAP ≡ 50 }
{}
