// The value of digits, in any base up to 16.
ghost use Rattle.std.specs.Prelude.{◌≡◌, ◌^◌, ◌<◌, SomeIff, IsTrue, IfNone};
ghost use Rattle.std.specs.Char.{digit_value, is_ascii_hexdigit};
ghost use Rattle.std.specs.List.{AllPass};
ghost use Rattle.std.specs.Str.Parse.{digits_value};
ghost use Rattle.strand_base.specs.Number.{number_in};

use crate::NumberFault;

fn digit_value(digit: u8) -> u8
    requires { IsTrue (is_ascii_hexdigit digit) }
    ensures { result ≡ digit_value digit }
{
    match digit {
        b'0'..=b'9' => digit - b'0',
        b'A'..=b'F' => digit - b'A' + 10,
        _ => digit - b'a' + 10,
    }
}

fn digits_value(base: u64, text: &[u8]) -> Option<u64>
    requires base { 0 < base }
    requires digits { AllPass is_ascii_hexdigit text.now }
    ensures { SomeIff result (digits_value base text.now < 2 ^ 64) (digits_value base text.now) }
{
    let mut value = 0u64;
    for digit in text {
        value = value
            .checked_mul(base)?
            .checked_add(u64::from(digit_value(*digit)))?;
    }
    Some(value)
}

// The number, where `bad` is the place of the first byte that is no digit.
pub(crate) fn number_in(base: u64, bad: Option<usize>, text: &[u8]) -> Result<u64, NumberFault>
    requires base { 0 < base }
    requires digits { IfNone bad (AllPass is_ascii_hexdigit text.now) }
    ensures { result ≡ number_in base bad text.now }
{
    if text.is_empty() {
        return Err(NumberFault::Empty);
    }
    match bad {
        Some(at) => Err(NumberFault::BadDigit { at }),
        None => digits_value(base, text).ok_or(NumberFault::TooLarge),
    }
}
