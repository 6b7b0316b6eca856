ghost use Rattle.std.specs.Prelude.{◌≡◌, position, not, decimal};
ghost use Rattle.std.specs.Char.{is_ascii_digit};
ghost use Rattle.strand_base.specs.Number.{decimal_of};
ghost use Rattle.strand_base.specs.Puts.{Puts};

use crate::OutOfMemory;
use crate::digits::number_in;
use crate::writing::put;
use itoa::Buffer;

/// Why a text is no number below 2^64.
#[derive(Clone, Copy, Debug, PartialEq, Eq)]
pub enum NumberFault {
    /// It has no bytes.
    Empty,
    /// Its first byte that is no digit stands at `at`, counted from 0.
    BadDigit { at: usize },
    /// All its bytes are digits, and the number is past 2^64 - 1.
    TooLarge,
}

fn no_digit_at(text: &[u8]) -> Option<usize>
    ensures { result ≡ position (λ c. not (is_ascii_digit c)) text.now }
{
    text.iter().position(|b| !b.is_ascii_digit())
}

/// The number that the digits 0 to 9 write. Leading zeros are accepted. It takes no memory.
///
/// `Empty` comes exactly for no bytes, `BadDigit` exactly for the first byte that is no digit, and
/// `TooLarge` exactly where all bytes are digits and the number is past 2^64 - 1.
pub fn read_decimal(text: &[u8]) -> Result<u64, NumberFault>
    ensures { result ≡ decimal_of text.now }
{
    number_in(10, no_digit_at(text), text)
}

/// Appends a number in decimal, without leading zeros. Where memory ran out, a front of the digits is
/// appended.
pub fn print_decimal(n: u64, into: &mut Vec<u8>) -> Result<(), OutOfMemory>
    ensures { Puts result (decimal n) into.old.items into.new.items }
{
    let mut buffer = Buffer::new();
    put(into, buffer.format(n).as_bytes())
}
