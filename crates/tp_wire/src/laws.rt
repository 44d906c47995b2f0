//! Laws of the frame table.
ghost use Rattle.std.specs.Prelude.{◌≡◌, ℕ, ◌<◌, ◌↔◌, true, slice_index, Some};
ghost use Rattle.bus_frame.specs.Frames.{CanFrame};
ghost use Rattle.pgn_ids.specs.declared.address.Address.{Address};
ghost use Rattle.tp_wire.specs.Rows.{IsRow, written, Writes, Reads};
ghost use Rattle.tp_wire.specs.Reading.{reading, is_transport, is_malformed};
ghost use Rattle.tp_wire.specs.declared.wire.Wire.{Wire};

use pgn_ids::identifiers_are_read_back;

/// A law: what is written for a row of the frame table is read back as this row.
pub fn what_is_written_is_read()
    ensures { (wire : Wire) (from to : Address) → IsRow wire from.0 to.0 → reading (written wire from.0 to.0) ≡ Some (wire, from, to) }
{
    identifiers_are_read_back();
}

/// A law: a frame that is written for a meaning has this meaning.
pub fn written_frames_have_their_meaning()
    ensures { (wire : Wire) (from to : ℕ) (f : CanFrame) → Writes wire from to f → Reads f wire from to }
{
    identifiers_are_read_back();
}

/// A law: no frame has two meanings.
pub fn frames_have_one_meaning()
    ensures { (f : CanFrame) (wire other : Wire) (from to source destination : Address) → Reads f wire from.0 to.0 → Reads f other source.0 destination.0 → (wire ≡ other) × (from ≡ source) × (to ≡ destination) }
{}

/// A law: a frame is malformed exactly if its PGN is one of the six and it has no meaning.
pub fn malformed_frames_have_no_meaning()
    ensures { (f : CanFrame) → ((i : ℕ) → slice_index f.bytes i < 256) → (is_malformed f ≡ true) ↔ ((is_transport f ≡ true) × ((wire : Wire) (from to : Address) → ¬ (Reads f wire from.0 to.0))) }
{}

/// A law: a frame that has a meaning has one of the six PGNs.
pub fn meanings_are_of_transport_frames()
    ensures { (f : CanFrame) (wire : Wire) (from to : ℕ) → Reads f wire from to → is_transport f ≡ true }
{}
