//! Ports and messages.
ghost use Rattle.std.specs.Prelude.{IsSome};
ghost use Rattle.segment_law.specs.declared.call.Call.TheVariants.{Close, Pause, Resume, Cancel};
ghost use Rattle.one_station.specs.Answers.{IsAnswered};
ghost use Rattle.c_parts.specs.Codes.{value_code};
ghost use Rattle.c_parts.specs.Calls.{IsMadeOn, IsWritten};
ghost use Rattle.c_parts.specs.Reads.{read_pgn};
ghost use Rattle.fulwethi_c.specs.Codes.{error_code, done_code};
ghost use Rattle.fulwethi_c.specs.Calls.{IsOpened, IsSending};

use crate::codes::done_code;
use crate::handle::Handle;
use crate::shown::{write_number, write_port};
use c_parts::{Parts, read_pgn};
use one_station::{Node, NodeError, PortId};
use pgn_ids::Address;

/// Opens a port, and writes its number.
#[unsafe(no_mangle)]
pub extern "C" fn fulwethi_raw_open(
    of: Handle,
    pgn: u32,
    max_len: u32,
    port: &mut u64,
    out: &mut Handle,
) -> u32
    requires { IsSome of.node }
    ensures { IsMadeOn (value_code error_code) (λ before after answer. IsOpened max_len (read_pgn pgn) before after answer × IsWritten (λ id. id.number) port.old port.new answer) of.node out.new.node result }
{
    let mut held = of.into_parts().into_box();
    let code = write_port(open(&mut held, pgn, max_len), port);
    *out = Handle::of_parts(Parts::of(held));
    code
}

fn open(node: &mut Node, pgn: u32, max_len: u32) -> Result<PortId, NodeError>
    ensures { IsOpened max_len (read_pgn pgn) node.old node.new result }
{
    match read_pgn(pgn) {
        Ok(pgn) => node.open_port(pgn, max_len),
        Err(cause) => Err(NodeError::Refused(cause)),
    }
}

/// Closes a port.
#[unsafe(no_mangle)]
pub extern "C" fn fulwethi_raw_close(of: Handle, port: u64, out: &mut Handle) -> u32
    requires { IsSome of.node }
    ensures { IsMadeOn done_code (λ before after. IsAnswered before (Close (record { station = before.address; number = port })) after) of.node out.new.node result }
{
    let mut held = of.into_parts().into_box();
    let station = held.address();
    let code = done_code(held.close_port(PortId {
        station,
        number: port,
    }));
    *out = Handle::of_parts(Parts::of(held));
    code
}

/// Sends a message, and writes its number.
#[unsafe(no_mangle)]
pub extern "C" fn fulwethi_raw_send(
    of: Handle,
    to: u8,
    pgn: u32,
    bytes: &[u8],
    number: &mut u64,
    out: &mut Handle,
) -> u32
    requires { IsSome of.node }
    ensures { IsMadeOn (value_code error_code) (λ before after answer. IsSending (record { 0 = to }) bytes.now (read_pgn pgn) before after answer × IsWritten (λ sent. sent) number.old number.new answer) of.node out.new.node result }
{
    let mut held = of.into_parts().into_box();
    let code = write_number(send(&mut held, to, pgn, bytes), number);
    *out = Handle::of_parts(Parts::of(held));
    code
}

fn send(node: &mut Node, to: u8, pgn: u32, bytes: &[u8]) -> Result<u64, NodeError>
    ensures { IsSending (record { 0 = to }) bytes.now (read_pgn pgn) node.old node.new result }
{
    match read_pgn(pgn) {
        Ok(pgn) => node.send(Address(to), pgn, bytes),
        Err(cause) => Err(NodeError::Refused(cause)),
    }
}

/// Cancels a message.
#[unsafe(no_mangle)]
pub extern "C" fn fulwethi_raw_cancel(of: Handle, to: u8, number: u64, out: &mut Handle) -> u32
    requires { IsSome of.node }
    ensures { IsMadeOn done_code (λ before after. IsAnswered before (Cancel before.address (record { 0 = to }) number) after) of.node out.new.node result }
{
    let mut held = of.into_parts().into_box();
    let code = done_code(held.cancel(Address(to), number));
    *out = Handle::of_parts(Parts::of(held));
    code
}

/// Pauses a port.
#[unsafe(no_mangle)]
pub extern "C" fn fulwethi_raw_pause(of: Handle, port: u64, out: &mut Handle) -> u32
    requires { IsSome of.node }
    ensures { IsMadeOn done_code (λ before after. IsAnswered before (Pause (record { station = before.address; number = port })) after) of.node out.new.node result }
{
    let mut held = of.into_parts().into_box();
    let station = held.address();
    let code = done_code(held.pause_port(PortId {
        station,
        number: port,
    }));
    *out = Handle::of_parts(Parts::of(held));
    code
}

/// Ends the pause of a port.
#[unsafe(no_mangle)]
pub extern "C" fn fulwethi_raw_resume(of: Handle, port: u64, out: &mut Handle) -> u32
    requires { IsSome of.node }
    ensures { IsMadeOn done_code (λ before after. IsAnswered before (Resume (record { station = before.address; number = port })) after) of.node out.new.node result }
{
    let mut held = of.into_parts().into_box();
    let station = held.address();
    let code = done_code(held.resume_port(PortId {
        station,
        number: port,
    }));
    *out = Handle::of_parts(Parts::of(held));
    code
}
