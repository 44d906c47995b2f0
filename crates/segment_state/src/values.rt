//! That values fit their types, as a call of plain data has to say. Nothing runs here.
ghost use Rattle.std.specs.Prelude.{◌≡◌, ℕ, ◌<◌, true, slice_index};
ghost use Rattle.segment_law.specs.declared.call.Call.TheVariants.{Inject};
ghost use Rattle.segment_law.specs.Calls.{are_bytes, is_address, is_call};

use bus_frame::Frame;
use pgn_ids::Address;
use segment_law::Call;

// Bytes are below 256.
#[tactic(auto, using(crate::proofs::Records::bytes_fit))]
fn octets(bytes: &[u8])
    ensures { are_bytes bytes.now ≡ true }
{
    are_octets(bytes);
}

// `octets`, byte by byte.
fn are_octets(bytes: &[u8])
    ensures { (i : ℕ) → slice_index bytes.now i < 256 }
{}

/// An address has one byte.
pub fn one_byte(address: Address)
    ensures { is_address address ≡ true }
{}

/// A frame that is put has values of its types.
pub(crate) fn fits_frame(frame: &Frame)
    ensures { is_call (Inject frame.now) ≡ true }
{
    let _in_range = frame.id();
    octets(frame.bytes());
}

/// What a call names has values of its types.
pub fn fits(call: &Call)
    ensures { is_call call.now ≡ true }
{
    match call {
        Call::Open { pgn, .. } => {
            let _in_range = pgn.raw();
        }
        Call::Send { to, pgn, bytes, .. } => {
            one_byte(*to);
            let _in_range = pgn.raw();
            octets(bytes.as_slice());
        }
        Call::Pump { to, .. } => {
            one_byte(*to);
        }
        Call::Inject { frame } => fits_frame(frame),
        _ => {}
    }
}
