//! What each line of a script sets up.
ghost use Rattle.std.specs.Prelude.{◌≡◌};
ghost use Rattle.script_commands.specs.Words.{texts};
ghost use Rattle.script_segments.specs.Gateway.{plans_of, with_second, Done, FewCalls, obeyed_now, obeyed_words, obeyed_line, placed_by, begins_second, is_out_of_order};

use crate::obeying::is;
use crate::relay::gateway::{Gateway, Routing};
use crate::relay::routing::route;
use line_faults::{Fault, LineError};
use script_commands::{is_ascii, split_words};
use std::alloc::Global;

const UNKNOWN: LineError = LineError::Fault(Fault::UnknownCommand);

fn obey_now(alloc: Global, gateway: &mut Gateway, words: &[&[u8]]) -> Result<(), LineError>
    requires { FewCalls (plans_of gateway.old) }
    ensures { Done result (plans_of gateway.old) (plans_of gateway.new) (obeyed_now (plans_of gateway.old) (texts words.now)) }
{
    crate::obeying::obey_words(alloc, &mut gateway.here, words)
}

// Obeys a line of the second segment, which begins with this line.
fn obey_second(alloc: Global, gateway: &mut Gateway, words: &[&[u8]]) -> Result<(), LineError>
    ensures { Done result (plans_of gateway.old) (plans_of gateway.new) (obeyed_now (with_second (plans_of gateway.old)) (texts words.now)) }
{
    gateway.begin_second(alloc);
    obey_now(alloc, gateway, words)
}

fn is_out_of_order(gateway: &Gateway, name: &[u8]) -> bool
    ensures { result ≡ is_out_of_order (plans_of gateway.now) name.now }
{
    is(name, "send") && gateway.has_first()
}

fn begins_second(gateway: &Gateway, name: &[u8]) -> bool
    ensures { result ≡ begins_second (plans_of gateway.now) name.now }
{
    is(name, "stations") && gateway.is_made() && !gateway.has_first()
}

// A line of this name, in its order.
fn obey_named(
    alloc: Global,
    gateway: &mut Gateway,
    name: &[u8],
    words: &[&[u8]],
) -> Result<(), LineError>
    requires { FewCalls (plans_of gateway.old) }
    ensures { Done result (plans_of gateway.old) (plans_of gateway.new) (placed_by (plans_of gateway.old) name.now (texts words.now)) }
{
    if is_out_of_order(gateway, name) {
        return Err(UNKNOWN);
    }
    if begins_second(gateway, name) {
        return obey_second(alloc, gateway, words);
    }
    obey_now(alloc, gateway, words)
}

#[tactic(auto, unfolding(crate::specs::Gateway::obeyed_words))]
fn obey_words(alloc: Global, gateway: &mut Gateway, words: &[&[u8]]) -> Result<(), LineError>
    requires { FewCalls (plans_of gateway.old) }
    ensures { Done result (plans_of gateway.old) (plans_of gateway.new) (obeyed_words (plans_of gateway.old) (texts words.now)) }
{
    let Some((name, rest)) = words.split_first() else {
        return Ok(());
    };
    match gateway.routing {
        Routing::NotYet => {}
        Routing::Refused => return Err(UNKNOWN),
        Routing::To(_) => return Err(UNKNOWN),
    }
    if is(*name, "route") {
        return route(alloc, gateway, rest);
    }
    obey_named(alloc, gateway, *name, words)
}

/// Does what a line asks for. The first fault is answered.
#[tactic(auto, unfolding(crate::specs::Gateway::obeyed_line))]
pub(crate) fn obey_line(alloc: Global, gateway: &mut Gateway, line: &[u8]) -> Result<(), LineError>
    requires { FewCalls (plans_of gateway.old) }
    ensures { Done result (plans_of gateway.old) (plans_of gateway.new) (obeyed_line (plans_of gateway.old) line.now) }
{
    if !is_ascii(line) {
        return Err(LineError::Fault(Fault::NotAscii));
    }
    let words = split_words(alloc, line)?;
    obey_words(alloc, gateway, words.as_slice())
}
