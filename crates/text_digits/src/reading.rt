//! Numbers and bytes that digits write: 0 to 9, A to F, a to f.
ghost use Rattle.std.specs.Prelude.{◌≡◌, ◌≤◌, length, nat_lt, if◌then◌else◌, Some, None};
ghost use Rattle.text_digits.specs.Numerals.{digit_of, put_digit, numeral_from, pair_of};

/// The value of a byte that is no digit.
const NONE: u8 = 16;

// For each byte its value as a digit, or 16: a number is read without a branch, which digits at random would
// mispredict.
#[rattlefmt::skip]
static VALUES: [u8; 256] = [
    16, 16, 16, 16, 16, 16, 16, 16, 16, 16, 16, 16, 16, 16, 16, 16,
    16, 16, 16, 16, 16, 16, 16, 16, 16, 16, 16, 16, 16, 16, 16, 16,
    16, 16, 16, 16, 16, 16, 16, 16, 16, 16, 16, 16, 16, 16, 16, 16,
    0, 1, 2, 3, 4, 5, 6, 7, 8, 9, 16, 16, 16, 16, 16, 16,
    16, 10, 11, 12, 13, 14, 15, 16, 16, 16, 16, 16, 16, 16, 16, 16,
    16, 16, 16, 16, 16, 16, 16, 16, 16, 16, 16, 16, 16, 16, 16, 16,
    16, 10, 11, 12, 13, 14, 15, 16, 16, 16, 16, 16, 16, 16, 16, 16,
    16, 16, 16, 16, 16, 16, 16, 16, 16, 16, 16, 16, 16, 16, 16, 16,
    16, 16, 16, 16, 16, 16, 16, 16, 16, 16, 16, 16, 16, 16, 16, 16,
    16, 16, 16, 16, 16, 16, 16, 16, 16, 16, 16, 16, 16, 16, 16, 16,
    16, 16, 16, 16, 16, 16, 16, 16, 16, 16, 16, 16, 16, 16, 16, 16,
    16, 16, 16, 16, 16, 16, 16, 16, 16, 16, 16, 16, 16, 16, 16, 16,
    16, 16, 16, 16, 16, 16, 16, 16, 16, 16, 16, 16, 16, 16, 16, 16,
    16, 16, 16, 16, 16, 16, 16, 16, 16, 16, 16, 16, 16, 16, 16, 16,
    16, 16, 16, 16, 16, 16, 16, 16, 16, 16, 16, 16, 16, 16, 16, 16,
    16, 16, 16, 16, 16, 16, 16, 16, 16, 16, 16, 16, 16, 16, 16, 16,
];

/// The value of a digit, or 16 if it is none.
#[inline(always)]
fn value(byte: u8) -> u8
    ensures value { digit_of byte ≡ (if nat_lt result 16 then Some result else None) }
    ensures small { result ≤ 16 }
{
    VALUES[usize::from(byte)]
}

fn with_digit(base: u8, number: u64, byte: u8) -> Option<u64>
    requires { base ≤ 16 }
    ensures { result ≡ put_digit base number byte }
{
    let digit = value(byte);
    if digit >= base {
        return None;
    }
    number
        .checked_mul(u64::from(base))?
        .checked_add(u64::from(digit))
}

/// How many digits write no number from 2 ^ 64 on, in any base.
const SHORT: usize = 16;

/// The number of so few digits that it can't reach 2 ^ 64.
#[inline(always)]
fn short_numeral(base: u8, digits: &[u8]) -> Option<u64>
    requires base { base ≤ 16 }
    requires short { length digits.now ≤ 16 }
    ensures { result ≡ numeral_from base 0 digits.now }
{
    let mut number = 0;
    for byte in digits {
        let digit = value(*byte);
        if digit >= base {
            return None;
        }
        number = u64::from(base) * number + u64::from(digit);
    }
    Some(number)
}

fn long_numeral(base: u8, digits: &[u8]) -> Option<u64>
    requires { base ≤ 16 }
    ensures { result ≡ numeral_from base 0 digits.now }
{
    let mut number = 0;
    for byte in digits {
        number = with_digit(base, number, *byte)?;
    }
    Some(number)
}

/// The number that digits of a base write, below 2 ^ 64. No digit writes 0.
#[inline(always)]
pub fn read_numeral(base: u8, digits: &[u8]) -> Option<u64>
    requires { base ≤ 16 }
    ensures { result ≡ numeral_from base 0 digits.now }
{
    if digits.len() <= SHORT {
        short_numeral(base, digits)
    } else {
        long_numeral(base, digits)
    }
}

/// A byte of two hexadecimal digits.
#[inline(always)]
pub fn read_pair(first: u8, second: u8) -> Option<u8>
    ensures { result ≡ pair_of first second }
{
    let high = value(first);
    let low = value(second);
    if high >= NONE || low >= NONE {
        return None;
    }
    Some(16 * high + low)
}
