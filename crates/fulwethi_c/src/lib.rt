//! A node of J1939 for C: a handle, which owns the node, is passed into each call and returned by `out`. `fulwethi.h` has
//! functions over these that take a pointer to the handle.
#![tactic(auto)]

ghost use Rattle.std.specs.Prelude.{◌≡◌, IsSome};
ghost use Rattle.segment_law.specs.declared.call.Call.TheVariants.{Fire};
ghost use Rattle.one_station.specs.Answers.{IsAnswered};
ghost use Rattle.fulwethi_c.specs.Codes.{done_code, new_code};
ghost use Rattle.c_parts.specs.Calls.{IsMadeOn, IsCoded};
ghost use Rattle.fulwethi_c.specs.Calls.{IsNew, IsAgain, IsClocked};

mod codes;
mod events;
mod frames;
mod handle;
mod ports;
mod readers;
mod shown;

use c_parts::Parts;
use codes::{done_code, new_code};
use handle::Handle;
use one_station::{NewRefused, Node};
use pgn_ids::Address;
use std::alloc::Global;

/// Makes a node; `out` must own nothing.
#[unsafe(no_mangle)]
pub extern "C" fn fulwethi_raw_new(alloc: Global, address: u8, out: &mut Handle) -> u32
    ensures { IsCoded new_code (IsNew (record { 0 = address }) out.old.node out.new.node) result }
{
    new_code(make(alloc, Address(address), out))
}

fn make(alloc: Global, address: Address, out: &mut Handle) -> Result<(), NewRefused>
    ensures { IsNew address out.old.node out.new.node result }
{
    let node = Node::new(alloc, address)?;
    let Ok(held) = Box::new(alloc, node) else {
        return Err(NewRefused::OutOfMemory);
    };
    *out = Handle::of_parts(Parts::of(held));
    Ok(())
}

/// Makes that of a program that starts again at a tick; `out` must own nothing.
#[unsafe(no_mangle)]
pub extern "C" fn fulwethi_raw_again(alloc: Global, address: u8, tick: u64, out: &mut Handle) -> u32
    ensures { IsCoded new_code (IsAgain (record { 0 = address }) tick out.old.node out.new.node) result }
{
    new_code(make_again(alloc, Address(address), tick, out))
}

fn make_again(
    alloc: Global,
    address: Address,
    tick: u64,
    out: &mut Handle,
) -> Result<(), NewRefused>
    ensures { IsAgain address tick out.old.node out.new.node result }
{
    let node = Node::again(alloc, address, tick)?;
    let Ok(held) = Box::new(alloc, node) else {
        return Err(NewRefused::OutOfMemory);
    };
    *out = Handle::of_parts(Parts::of(held));
    Ok(())
}

/// Frees it.
#[unsafe(no_mangle)]
pub extern "C" fn fulwethi_raw_free(of: Handle)
    requires { IsSome of.node }
{
    drop(of.into_parts().into_box());
}

/// Advances the clock to a tick.
#[unsafe(no_mangle)]
pub extern "C" fn fulwethi_raw_clock(of: Handle, tick: u64, out: &mut Handle) -> u32
    requires { IsSome of.node }
    ensures { IsMadeOn done_code (IsClocked tick) of.node out.new.node result }
{
    let mut held = of.into_parts().into_box();
    let code = done_code(held.clock(tick));
    *out = Handle::of_parts(Parts::of(held));
    code
}

/// Fires one timer that is due.
#[unsafe(no_mangle)]
pub extern "C" fn fulwethi_raw_fire(of: Handle, out: &mut Handle) -> u32
    requires { IsSome of.node }
    ensures { IsMadeOn done_code (λ before after. IsAnswered before (Fire before.address) after) of.node out.new.node result }
{
    let mut held = of.into_parts().into_box();
    let code = done_code(held.fire());
    *out = Handle::of_parts(Parts::of(held));
    code
}

/// The version of the library: its three numbers, two hexadecimal digits each, as `FULWETHI_VERSION_NUMBER` of the header has them.
#[unsafe(no_mangle)]
pub extern "C" fn fulwethi_version() -> u32
    ensures { result ≡ 768 }
{
    0x00_03_00
}
