//! The two bytes of the lamps.
ghost use Rattle.std.specs.Prelude.{◌≡◌, ◌++◌, IfOk, OnOk};
ghost use Rattle.log_reports.specs.Lamps.{lamp_state, flash_state, lamps_line, flash_line};

use crate::line::Line;
use std::alloc::{AllocError, Global};
use text_digits::put_text;

/// What two bits say of a lamp.
#[tactic(auto, unfolding(crate::specs::Lamps::lamp_state))]
fn lamp_state(bits: u8) -> &'static str
    ensures { result.now ≡ lamp_state bits }
{
    match bits {
        0 => "off",
        1 => "on",
        2 => "reserved",
        _ => "not available",
    }
}

/// What two bits say of how a lamp flashes: slowly at 1 Hz, fast at 2 Hz or more.
#[tactic(auto, unfolding(crate::specs::Lamps::flash_state))]
fn flash_state(bits: u8) -> &'static str
    ensures { result.now ≡ flash_state bits }
{
    match bits {
        0 => "slow",
        1 => "fast",
        2 => "reserved",
        _ => "no",
    }
}

fn put_two(out: &mut Vec<u8>, name: &str, state: &str) -> Result<(), AllocError>
    ensures { OnOk result (out.new.items ≡ out.old.items ++ (name.now ++ state.now)) }
{
    put_text(out, name)?;
    put_text(out, state)
}

/// The line of the lamps, in the order of their bits, the highest first.
pub(crate) fn lamps_line(alloc: Global, lamps: u8) -> Result<Line, AllocError>
    ensures { IfOk result (λ l. l ≡ lamps_line lamps) }
{
    let mut text = Vec::new(alloc);
    put_two(&mut text, "lamps: malfunction ", lamp_state(lamps / 64))?;
    put_two(&mut text, ", red stop ", lamp_state(lamps / 16 % 4))?;
    put_two(&mut text, ", amber warning ", lamp_state(lamps / 4 % 4))?;
    put_two(&mut text, ", protect ", lamp_state(lamps % 4))?;
    Ok(Line::new(text))
}

/// The line of how they flash.
pub(crate) fn flash_line(alloc: Global, flash: u8) -> Result<Line, AllocError>
    ensures { IfOk result (λ l. l ≡ flash_line flash) }
{
    let mut text = Vec::new(alloc);
    put_two(&mut text, "flash: malfunction ", flash_state(flash / 64))?;
    put_two(&mut text, ", red stop ", flash_state(flash / 16 % 4))?;
    put_two(&mut text, ", amber warning ", flash_state(flash / 4 % 4))?;
    put_two(&mut text, ", protect ", flash_state(flash % 4))?;
    Ok(Line::new(text))
}
