//! What a listener to a recorded bus reports: how each transport message ended, frames of it that are listed, frames that belong to none, and messages in
//! words.
//!
//! Words are the lines that say what the bytes of a message mean, by its PGN: of fault lists, DM1 (active faults) and DM2 (faults that were active)
//! of SAE J1939-73, and of identifications of vehicle, component, ECU and software (SAE J1939-71), whose forms are public. A byte of text that isn't
//! printable ASCII is escaped. A call that makes words fails only if memory is refused.
#![tactic(auto)]

mod bytes;
mod escapes;
mod faults;
mod groups;
mod key;
mod lamps;
mod line;
mod list;
mod marks;
mod naming;
mod padding;
mod stray;
mod texts;
mod told;

pub use bytes::Bytes;
pub use groups::{explain, has_form};
pub use key::{Key, Transport};
pub use line::Line;
pub use list::fault_list;
pub use marks::{Detail, Mark, Marks, Place, Step};
pub use naming::Kind;
pub use stray::Stray;
pub use texts::{identification, software_identification};
pub use told::{Cause, Told, cause_words, key_told, pgn_told};
