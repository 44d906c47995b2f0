//! The names of fields.
ghost use Rattle.std.specs.Prelude.{◌≡◌, ◌++◌, OnOk};
ghost use Rattle.log_reports.specs.Naming.{vehicle_name, component_name, ecu_name, name_of, other_name, field_name};

use std::alloc::AllocError;
use text_digits::{put_decimal, put_text};

/// The thing that an identification names.
#[derive(Clone, Copy)]
pub enum Kind {
    /// A vehicle (PGN FEEC).
    Vehicle,
    /// A component (PGN FEEB).
    Component,
    /// An ECU (PGN FDC5).
    Ecu,
    /// Software (PGN FEDA).
    Software,
}

/// The name of a component's field, empty if it has none. Fields count from 1.
fn component_name(number: u64) -> &'static str
    ensures { result.now ≡ component_name number }
{
    match number {
        1 => "make",
        2 => "model",
        3 => "serial number",
        4 => "unit number",
        _ => "",
    }
}

/// The name of an ECU's field, empty if it has none. Fields count from 1.
fn ecu_name(number: u64) -> &'static str
    ensures { result.now ≡ ecu_name number }
{
    match number {
        1 => "part number",
        2 => "serial number",
        3 => "location",
        4 => "type",
        5 => "manufacturer",
        _ => "",
    }
}

fn vehicle_name(number: u64) -> &'static str
    ensures { result.now ≡ vehicle_name number }
{
    if number == 1 {
        "vehicle identification"
    } else {
        ""
    }
}

/// The name of a field, empty if it has none.
fn name_of(kind: Kind, number: u64) -> &'static str
    ensures { result.now ≡ name_of kind number }
{
    match kind {
        Kind::Vehicle => vehicle_name(number),
        Kind::Component => component_name(number),
        Kind::Ecu => ecu_name(number),
        Kind::Software => "",
    }
}

/// What fields are called that have no name.
fn other_name(kind: Kind) -> &'static str
    ensures { result.now ≡ other_name kind }
{
    match kind {
        Kind::Software => "software ",
        _ => "field ",
    }
}

/// The name of a field, or its number. Fields count from 1.
pub(crate) fn put_name(out: &mut Vec<u8>, kind: Kind, number: u64) -> Result<(), AllocError>
    ensures { OnOk result (out.new.items ≡ out.old.items ++ field_name kind number) }
{
    let name = name_of(kind, number);
    if !name.is_empty() {
        return put_text(out, name);
    }
    put_text(out, other_name(kind))?;
    put_decimal(out, number)
}
