//! The laws of cutting and joining. They speak of the definitions alone, and a call of one does nothing.
ghost use Rattle.std.specs.Prelude.{ℕ, List, ◌≡◌, ◌+◌, ◌-◌, ◌*◌, ◌<◌, ◌≤◌, IsTrue, length, slice_index, slice_index_or};
ghost use Rattle.seg_cut.specs.Packets.{packet_count, packet};
ghost use Rattle.seg_cut.specs.Join.{Join, IsFrontOf, empty_join, is_complete, joined, after_packets};

/// A packet of a message has seven bytes: those of the message from its place on, and FF past the end.
pub fn packet_is_seven_places()
    ensures seven { (message : List ℕ) (k : ℕ) → k ≤ packet_count (length message)
        → length (packet message k) ≡ 7 }
    ensures places { (message : List ℕ) (k i : ℕ) → k ≤ packet_count (length message) → i < 7
        → slice_index (packet message k) i ≡ slice_index_or message (7 * (k - 1) + i) 255 }
{}

/// A join that was put all packets of a message, in their order, has the bytes of the message.
pub fn joined_packets_are_the_message()
    ensures begins { (message : List ℕ) → IsFrontOf message (empty_join (length message)) }
    ensures goes_on { (message : List ℕ) (j : Join) → IsFrontOf message j → j.next ≤ packet_count j.size
        → IsFrontOf message (joined j (packet message j.next)) }
    ensures ends { (message : List ℕ) (j : Join) → IsFrontOf message j → IsTrue (is_complete j)
        → j.bytes ≡ message }
    ensures complete { (message : List ℕ)
        → IsTrue (is_complete (after_packets message (packet_count (length message)))) }
    ensures whole { (message : List ℕ)
        → (after_packets message (packet_count (length message))).bytes ≡ message }
{}
