//! The segments of a script that is read whole before it is run by threads: what its lines set up, one segment or two with a route
//! between them; and the printed text of a segment once its threads have ended.
#![tactic(auto)]

mod ending;
mod names;
mod obeying;
mod planning;
mod relay;
mod setup;
mod text;
mod uncut;

pub use ending::text_of;
pub use live_segment::{Delivery, Inbox, Live, Note};
pub use names::{Names, names_of};
pub use relay::{Gateway, Passage, Routing};
pub use setup::{Message, Setup, ports_of};
pub use text::{are_same, has_run_out, print_clients, print_ports};
pub use uncut::Uncut;
