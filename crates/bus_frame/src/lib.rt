//! Frames of a CAN bus with 29-bit identifiers, as SAE J1939 uses them: no memory is taken, and each type is `Copy`.
#![tactic(auto)]

mod can_id;
mod frame;

pub use can_id::{
    CanId, IdParts, IdTooLarge, identifiers_give_their_parts, parts_give_their_identifier,
};
pub use frame::{DataTooLong, Frame};
