//! The words of a route between two segments.
ghost use Rattle.script_commands.specs.Words.{texts};
ghost use Rattle.script_commands.specs.Values.{Gives};
ghost use Rattle.script_commands.specs.Routes.{route_of};

use crate::values::{WRONG_NUMBER, address, port};
use line_faults::LineError;
use pgn_ids::Address;
use port_table::PortId;

/// Messages that a port of the first segment is given are sent from one address to another on the second.
#[derive(Clone, Copy)]
pub struct RouteWords {
    pub port: PortId,
    pub from: Address,
    pub to: Address,
}

/// What the words behind `route` ask for. The first fault is that of how many they are, then of the words in their order.
#[tactic(auto, unfolding(crate::specs::Routes::route_of))]
pub fn read_route(words: &[&[u8]]) -> Result<RouteWords, LineError>
    ensures { Gives (λ w. w) result (route_of (texts words.now)) }
{
    let [at, from, to] = words else {
        return Err(WRONG_NUMBER);
    };
    let port = port(*at)?;
    let from = address(*from)?;
    let to = address(*to)?;
    Ok(RouteWords { port, from, to })
}
