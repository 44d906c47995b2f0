//! A script, drawn: it is read and obeyed line by line, and the frames and events of each line are drawn before the
//! next line is read.
#![tactic(auto)]

mod drawing;
mod running;

pub use bus_script::Ran;
pub use running::draw_script;
