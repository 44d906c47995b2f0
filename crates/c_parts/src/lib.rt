//! What the libraries for C share: a box as its pointer, the codes of answers, and frames and numbers as C reads them.
#![tactic(auto)]

mod codes;
mod parts;
mod reads;
mod shown;

pub use codes::{CLOCK_PASSED, DONE, NO_MEMORY, NOTHING, TOO_LITTLE_ROOM, cause_code};
pub use parts::Parts;
pub use reads::{read_frame, read_pgn};
pub use shown::{
    CCounts, CFrame, outcome_number, outcome_reason, show_counts, show_frame, write_tick,
};
