ghost use Rattle.std.specs.Prelude.{◌≡◌, ◌<◌, Ok, position, not};
ghost use Rattle.std.specs.Char.{is_ascii_hexdigit};
ghost use Rattle.strand_base.specs.Hexadecimal.{hex_digit, hex16, hex16_in};
ghost use Rattle.strand_base.specs.Number.{hexadecimal_of};
ghost use Rattle.strand_base.specs.Puts.{Puts};

use crate::digits::number_in;
use crate::writing::put;
use crate::{NumberFault, OutOfMemory};

fn no_hex_digit_at(text: &[u8]) -> Option<usize>
    ensures { result ≡ position (λ c. not (is_ascii_hexdigit c)) text.now }
{
    text.iter().position(|b| !b.is_ascii_hexdigit())
}

/// The number that the hexadecimal digits 0 to 9, a to f and A to F write. Leading zeros are accepted, and
/// nothing stands before the digits. It takes no memory.
///
/// `Empty` comes exactly for no bytes, `BadDigit` exactly for the first byte that is no digit, and
/// `TooLarge` exactly where all bytes are digits and the number is past 2^64 - 1.
pub fn read_hex(text: &[u8]) -> Result<u64, NumberFault>
    ensures { result ≡ hexadecimal_of text.now }
{
    number_in(16, no_hex_digit_at(text), text)
}

fn hex_digit(n: u8) -> u8
    requires { n < 16 }
    ensures { result ≡ hex_digit n }
{
    if n < 10 { 48 + n } else { 87 + n }
}

/// The sixteen lower-case hexadecimal digits of a number, the highest first.
pub fn hex_digits(n: u64) -> [u8; 16]
    ensures { result ≡ hex16 n }
{
    let mut digits = [b'0'; 16];
    for k in 0..16usize {
        digits[k] = hex_digit(((n >> (60 - 4 * k)) % 16) as u8);
    }
    digits
}

/// The number whose sixteen lower-case hexadecimal digits a word is, and None exactly where it is no such word. It takes
/// no memory.
#[tactic(auto, unfolding(crate::specs::Hexadecimal::hex16_in))]
pub fn read_hex16(word: &[u8]) -> Option<u64>
    ensures { result ≡ hex16_in word.now }
{
    let number = read_hex(word).ok()?;
    let digits = hex_digits(number);
    if word == digits.as_slice() {
        Some(number)
    } else {
        None
    }
}

/// Appends the sixteen lower-case hexadecimal digits of a number. Where memory ran out, a front of
/// them is appended. `read_hex16` gives the number back, and so does `read_hex`.
pub fn print_hex16(n: u64, into: &mut Vec<u8>) -> Result<(), OutOfMemory>
    ensures puts { Puts result (hex16 n) into.old.items into.new.items }
    ensures again { hexadecimal_of (hex16 n) ≡ Ok n }
{
    put(into, &hex_digits(n))
}
