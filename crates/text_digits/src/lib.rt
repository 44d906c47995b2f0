//! Text behind what a buffer holds: words, decimal numbers, numbers in so many digits of a base, and bytes in hexadecimal digits. And the
//! numbers and bytes that digits write.
//!
//! Each call that puts text fails only if memory is refused, and may have put a part of the text then.
#![tactic(auto)]

mod reading;
mod writing;

pub use reading::{read_numeral, read_pair};
pub use writing::{put_byte, put_bytes, put_decimal, put_digits, put_text};
