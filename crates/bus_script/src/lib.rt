//! The script language of a segment: a script is read line by line, each line is obeyed, and the reply to it is printed
//! before the next line is read. The frames that are put are printed below the replies, or as a log of their own.
#![tactic(auto)]

mod draining;
mod driven;
mod driving;
mod logging;
mod obeying;
mod parted;
mod running;
mod script;
mod sheet;
mod whole;

pub use line_faults::{Cause, Fault, ScriptFault};
pub use line_runs::{Ran, Told};
pub use running::{run_logged, run_script};
pub use script::run_on;
pub use sheet::Sheet;
