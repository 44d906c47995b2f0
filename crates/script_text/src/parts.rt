//! Parts of lines: addresses, ports and data, each put behind what a buffer holds already.
ghost use Rattle.std.specs.Prelude.{◌≡◌, ◌++◌, OnOk};
ghost use Rattle.text_digits.specs.Digits.{digits};
ghost use Rattle.script_text.specs.Parts.{port_text, spaced, between};

use pgn_ids::Address;
use port_table::PortId;
use std::alloc::AllocError;
use text_digits::{put_byte, put_decimal, put_text};

fn put_address(out: &mut Vec<u8>, address: Address) -> Result<(), AllocError>
    ensures { OnOk result (out.new.items ≡ out.old.items ++ digits 16 2 address.0) }
{
    put_byte(out, address.0)
}

/// A port: its station, two hexadecimal digits, and its number.
pub fn put_port(out: &mut Vec<u8>, port: PortId) -> Result<(), AllocError>
    ensures { OnOk result (out.new.items ≡ out.old.items ++ port_text port) }
{
    put_address(out, port.station)?;
    put_text(out, ".")?;
    put_decimal(out, port.number)
}

pub(crate) fn put_between(out: &mut Vec<u8>, from: Address, to: Address) -> Result<(), AllocError>
    ensures { OnOk result (out.new.items ≡ out.old.items ++ between from to) }
{
    put_address(out, from)?;
    put_text(out, " ")?;
    put_address(out, to)?;
    put_text(out, " ")
}

pub(crate) fn put_spaced(out: &mut Vec<u8>, bytes: &[u8]) -> Result<(), AllocError>
    ensures { OnOk result (out.new.items ≡ out.old.items ++ spaced bytes.now) }
{
    for byte in bytes {
        out.push(b' ')?;
        put_byte(out, *byte)?;
    }
    Ok(())
}
